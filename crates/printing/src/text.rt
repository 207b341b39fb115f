// A text in a buffer that the caller lends: what is said goes behind what was said, as far as there is room.
ghost use Rattle.std.specs.Prelude.{◌≡◌, ◌≤◌, length};

// The buffer and how many bytes of it are said.
#[derive(Drop)]
pub struct Text<'a> {
    pub buffer: &'a mut [u8],
    pub len: usize,
    ghost inside: { len ≤ length buffer.now },
}

impl<'a> Text<'a> {
    ghost use Rattle.printing.specs.Says.{Says};
    ghost use Rattle.printing.specs.Decimal.{decimal, pointed};

    pub fn new(buffer: &'a mut [u8]) -> Text<'a>
        ensures same_reference { result.buffer.ghost_name ≡ buffer.entry.ghost_name }
        ensures buffer { result.buffer.now ≡ buffer.old }
        ensures empty { result.len ≡ 0 }
    {
        Text { buffer, len: 0 }
    }

    // A text that goes on behind the first len bytes.
    pub fn behind(buffer: &'a mut [u8], len: usize) -> Text<'a>
        requires { len ≤ length buffer.old }
        ensures same_reference { result.buffer.ghost_name ≡ buffer.entry.ghost_name }
        ensures buffer { result.buffer.now ≡ buffer.old }
        ensures len { result.len ≡ len }
    {
        Text { buffer, len }
    }

    // As much of the words as fits: what is said to people is cut off at the buffer's end.
    pub fn say(&mut self, words: &[u8])
        ensures { Says self.old self.new words.now }
    {
        self.len = crate::say(self.buffer, self.len, words);
    }

    pub fn say_number(&mut self, v: u64)
        ensures { Says self.old self.new (decimal v) }
    {
        self.len = crate::say_number(self.buffer, self.len, v);
    }

    // The number with up to 15 decimals, as far as there is room.
    pub fn say_pointed(&mut self, v: u64, d: usize)
        requires { d ≤ 15 }
        ensures { Says self.old self.new (pointed d v) }
    {
        self.len = crate::say_pointed(self.buffer, self.len, v, d);
    }
}
