// A text in the making: its parts are written one behind the other into a lent buffer.
ghost use Rattle.std.specs.Prelude.{◌≡◌, ◌+◌, ◌<◌, ◌≤◌, ◌∷◌, [], length};
ghost use Rattle.text.specs.Decimal.{decimal};

use crate::decimal;

// The buffer, and the place in it behind the text so far.
#[derive(Drop)]
pub struct Writer<'a> {
    out: &'a mut [u8],
    at: usize,
    ghost within: { at ≤ length out.now },
}

impl<'a> Writer<'a> {
    ghost use Rattle.text.specs.Writing.{Written};

    // Begins at place `at` of the buffer.
    pub fn from(out: &'a mut [u8], at: usize) -> Writer<'a>
        requires { at ≤ length out.old }
        ensures same { result.out.ghost_name ≡ out.entry.ghost_name }
        ensures bytes { result.out.now ≡ out.old }
        ensures place { result.at ≡ at }
    {
        Writer { out: out, at: at }
    }

    // The place behind the text so far.
    pub fn place(&self) -> usize
        ensures { result ≡ self.now.at }
    {
        self.at
    }

    // Writes one character.
    pub fn byte(&mut self, c: u8)
        requires { self.old.at < length self.old.out.now }
        ensures { Written self.old (c ∷ []) self.new }
    {
        self.out[self.at] = c;
        self.at += 1;
    }

    // Writes all of the characters.
    pub fn bytes(&mut self, text: &[u8])
        requires { self.old.at + length text.now ≤ length self.old.out.now }
        ensures { Written self.old text.now self.new }
    {
        buffer::copy_in(self.out, self.at, text);
        self.at += text.len();
    }

    // Writes n in the fewest decimal digits; ten places are room for any n.
    #[tactic(auto, using(crate::proofs::Decimals::most_ten))]
    pub fn number(&mut self, n: u32)
        requires { self.old.at + 10 ≤ length self.old.out.now }
        ensures { Written self.old (decimal n) self.new }
    {
        decimal::digits(self, n);
    }
}
