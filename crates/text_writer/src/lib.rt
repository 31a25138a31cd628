// Text put into a buffer, one byte after another. What lies beyond the end of the buffer is counted and
// not written, so that an empty buffer measures a text.
#![tactic(auto)]

ghost use Rattle.std.specs.Prelude.{◌≡◌, ◌∷◌, [], ◌+◌, ◌<◌};
ghost use Rattle.text_writer.specs.Text.{Fits, decimal, each, field};
ghost use Rattle.text_writer.specs.Writers.{written};

// The writer of a text: a lent buffer, and the place of the next byte.
#[derive(Drop)]
pub struct TextWriter<'a> {
    pub text: &'a mut [u8],
    pub at: usize,
}

impl<'a> TextWriter<'a> {
    // Puts a byte.
    pub fn put_byte(&mut self, byte: u8)
        requires { Fits self.old.at (byte ∷ []) }
        ensures { self.new ≡ written self.old (byte ∷ []) }
    {
        if self.at < self.text.len() {
            self.text[self.at] = byte;
        }
        self.at += 1;
    }

    // Puts a word.
    pub fn put_word(&mut self, word: &[u8])
        requires { Fits self.old.at word.now }
        ensures { self.new ≡ written self.old word.now }
    {
        for byte in word {
            self.put_byte(*byte);
        }
    }

    // Puts a number in decimal.
    pub fn put_decimal(&mut self, n: u32)
        requires { Fits self.old.at (decimal n) }
        ensures { self.new ≡ written self.old (decimal n) }
    {
        if n < 10 {
            self.put_byte(48 + n as u8);
        } else {
            self.put_decimal(n / 10);
            self.put_byte(48 + (n % 10) as u8);
        }
    }

    // Puts a field: one space and a number.
    pub fn put_field(&mut self, n: u32)
        requires { Fits self.old.at (field n) }
        ensures { self.new ≡ written self.old (field n) }
    {
        self.put_byte(b' ');
        self.put_decimal(n);
    }

    // Puts the fields of numbers.
    pub fn put_fields(&mut self, numbers: &[u16])
        requires { Fits self.old.at (each field numbers.now) }
        ensures { self.new ≡ written self.old (each field numbers.now) }
    {
        for n in numbers {
            self.put_field(u32::from(*n));
        }
    }
}
