// The herd desk for C: the functions of desk under the names that host/herd_desk.h declares.
#![tactic(auto)]

ghost use Rattle.std.specs.Prelude.{◌≡◌, length};
ghost use Rattle.book.specs.Call.{lines_laid};
ghost use Rattle.image.specs.Calls.{call_on, image_after, started};
ghost use Rattle.desk.specs.Desk.{call_number, desk_call, desk_number, start_number};

// A whole book: code times 2^32, plus the bytes written.
#[unsafe(no_mangle)]
pub extern "C" fn herd_desk(book: &[u8], lines: &mut [u8]) -> u64
    ensures number { result ≡ desk_number book.now (length lines.old) }
    ensures lines { lines.new ≡ lines_laid (desk_call book.now (length lines.old)) lines.old }
{
    desk::herd_desk(book, lines)
}

// The image of no record yet: 0, or 13 times 2^32 where its length is another, and the image untouched.
#[unsafe(no_mangle)]
pub extern "C" fn herd_start(image: &mut [u8]) -> u64
    ensures number { result ≡ start_number image.old }
    ensures image { image.new ≡ started image.old }
{
    desk::herd_start(image)
}

// A part of a book, read on from an image: code times 2^32, plus the bytes written.
#[unsafe(no_mangle)]
pub extern "C" fn herd_call(image: &mut [u8], part: &[u8], lines: &mut [u8], taken: &mut u64) -> u64
    ensures number { result ≡ call_number (call_on image.old part.now (length lines.old)) }
    ensures taken { taken.new ≡ (call_on image.old part.now (length lines.old)).taken }
    ensures image { image.new ≡ image_after image.old part.now (length lines.old) }
    ensures lines { lines.new ≡ lines_laid (call_on image.old part.now (length lines.old))
        lines.old }
{
    desk::herd_call(image, part, lines, taken)
}
