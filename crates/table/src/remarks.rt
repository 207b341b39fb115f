// Which names can stand in the table, what is said of others, and the status.
ghost use Rattle.std.specs.Prelude.{◌≡◌};
ghost use Rattle.printing.specs.Said.{Said};
ghost use Rattle.printing.specs.Says.{Says};
ghost use Rattle.table.specs.Rows.{is_plain, is_name, wrong_name_text, no_file_text, status_byte};

use printing::say;
use printing::text::Text;

fn is_plain(b: u8) -> bool
    ensures { result ≡ is_plain b }
{
    !((b == b',') | (b == b'"') | ((b == b'\r') | (b == b'\n')))
}

// A name that can stand in a cell.
pub fn is_name(name: &[u8]) -> bool
    ensures { result ≡ is_name name.now }
{
    name.iter().all(|b| is_plain(*b))
}

// What is said of one that can't, from the buffer's start.
pub fn say_wrong_name(out: &mut [u8], name: &[u8]) -> usize
    ensures { Said out.old out.new 0 (wrong_name_text name.now) result }
{
    let mut text = Text::new(out);
    text.say(b"the name ");
    text.say(name);
    text.say(
        b" has a comma, a quote or a line end, for which the table has no place: rename the file\n",
    );
    text.len
}

// What is said where no file is named.
pub fn say_no_file(out: &mut [u8]) -> usize
    ensures { Said out.old out.new 0 no_file_text result }
{
    let mut text = Text::new(out);
    text.say(b"no book is named\n");
    text.len
}

// The status byte: 0 only where all are closed, and everything was written.
pub fn status(closed: bool, written: bool) -> u8
    ensures { result ≡ status_byte closed written }
{
    if closed & written { b'0' } else { b'1' }
}
