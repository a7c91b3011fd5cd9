// Numbers and words written into a lent buffer, which an `Output` holds with the place up to which it is written. Where numbers and the words of
// capabilities stand after a space, it is written with them.
#![tactic(auto)]

ghost use Rattle.std.specs.Prelude.{[], ◌∷◌, ◌+◌, ◌≡◌, ◌≤◌, ◌<◌, length};
ghost use Rattle.rules.specs.Text.{space};
ghost use Rattle.rules.specs.Templates.{digit_at, decimal, cap_word};
ghost use Rattle.buffer.specs.Outputs.{HasRoom, Wrote};
ghost use Rattle.buffer.specs.Writing.{number_part};

use rules::Cap;

// A lent buffer and the place in it up to which it is written. Each method writes its text there and moves the place past it.
#[derive(Drop)]
pub struct Output<'a> {
    pub buf: &'a mut [u8],
    pub at: usize,
}

impl<'a> Output<'a> {
    // Nothing written yet.
    pub fn new(buf: &'a mut [u8]) -> Self
        ensures start { result.at ≡ 0 }
        ensures content { result.buf.now ≡ buf.old }
        ensures same_buffer { result.buf.ghost_name ≡ buf.entry.ghost_name }
    {
        Output { buf, at: 0 }
    }

    pub fn put_byte(&mut self, b: u8)
        requires { HasRoom 1 self.old }
        ensures { Wrote 1 self.old self.new (b ∷ []) }
    {
        self.buf[self.at] = b;
        self.at += 1;
    }

    // A fixed text.
    pub fn put_text(&mut self, text: &[u8])
        requires { HasRoom (length text.now) self.old }
        ensures { Wrote (length text.now) self.old self.new text.now }
    {
        let end = self.at + text.len();
        self.buf[self.at..end].copy_from_slice(text);
        self.at = end;
    }

    // The digit at a place, where the number is long enough to have one there.
    fn put_digit(&mut self, n: usize, place: usize)
        requires { HasRoom 1 self.old × (0 < place) }
        ensures { Wrote 1 self.old self.new (digit_at place n) }
    {
        if n < place {
            return;
        }
        self.put_byte(48 + (n / place % 10) as u8);
    }

    // A number in decimal: at most five digits.
    pub fn put_decimal(&mut self, n: usize)
        requires { HasRoom 5 self.old }
        ensures { Wrote 5 self.old self.new (decimal n) }
    {
        self.put_digit(n, 10000);
        self.put_digit(n, 1000);
        self.put_digit(n, 100);
        self.put_digit(n, 10);
        self.put_byte(48 + (n % 10) as u8);
    }

    // A number after a space.
    pub fn put_number(&mut self, n: usize)
        requires { HasRoom 6 self.old }
        ensures { Wrote 6 self.old self.new (number_part n) }
    {
        self.put_byte(b' '); // before the digits
        self.put_decimal(n);
    }

    // The word of a capability after a space.
    pub fn put_cap(&mut self, cap: Cap)
        requires { HasRoom 7 self.old }
        ensures { Wrote 7 self.old self.new (space ∷ cap_word cap) }
    {
        self.put_byte(b' '); // before the word
        self.put_text(cap.word());
    }
}
