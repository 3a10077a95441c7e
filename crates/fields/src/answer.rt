// The answer line, made in one buffer, field after field. What there is no room for is left out.
ghost use Rattle.std.specs.Prelude.{◌≡◌, ℕ, ◌*◌, ◌≤◌, List, [], ◌∷◌, length, take};
ghost use Rattle.text.specs.Hex.{to_hex};
ghost use Rattle.fields.specs.Answer.{longest, behind, spaced, word, digits, number, each, bytes};

use std::marker::Model;
use text::{decimal, hex};

// Room for every answer: two rooms of 8,192 bytes in digits, which read's has at most, and 64 characters for the rest of the line. Peek's answer
// has 8,192 digits at most, and show's sixteen slots of 90 characters.
pub const LONGEST: usize = 32832;

// The line as far as it has come, in the front of its buffer. A contract sees its characters.
#[derive(Drop)]
pub struct Answer {
    buffer: [u8; LONGEST],
    length: usize,
}

impl Model for Answer {
    ghost Value = { List ℕ };

    ghost view = { λ a. take a.length a.buffer };

    ghost invariant = { λ a. a.length ≤ longest };
}

impl Answer {
    // A line without characters.
    pub fn new() -> Answer
        ensures { result ≡ [] }
    {
        Answer {
            buffer: [0; LONGEST],
            length: 0,
        }
    }

    // The characters of the line.
    pub fn line(&self) -> &[u8]
        ensures { result.now ≡ self.now }
    {
        &self.buffer[..self.length]
    }

    // Takes all characters away.
    pub fn clear(&mut self)
        ensures { self.new ≡ [] }
    {
        self.length = 0;
    }

    // Puts all of `chars` behind the line; where they don't all fit, nothing.
    pub fn put(&mut self, chars: &[u8])
        ensures { self.new ≡ behind (length chars.now) chars.now self.old }
    {
        if LONGEST - self.length < chars.len() {
            return;
        }
        let end = self.length + chars.len();
        self.buffer[self.length..end].copy_from_slice(chars);
        self.length = end;
    }

    // Puts one character behind the line; where it is full, nothing.
    pub fn byte(&mut self, c: u8)
        ensures { self.new ≡ behind 1 (c ∷ []) self.old }
    {
        if self.length == LONGEST {
            return;
        }
        self.buffer[self.length] = c;
        self.length += 1;
    }

    // Puts n in the fewest decimal digits behind the line; where fewer than ten places are left, nothing.
    fn digits(&mut self, n: u32)
        ensures { self.new ≡ digits n self.old }
    {
        if LONGEST - self.length < 10 {
            return;
        }
        self.length = decimal::put(&mut self.buffer, self.length, n);
    }

    // Puts bytes behind the line, two lower-case hexadecimal digits a byte; where they don't all fit, nothing.
    fn pairs(&mut self, bytes: &[u8])
        ensures { self.new ≡ behind (2 * length bytes.now) (to_hex bytes.now) self.old }
    {
        if (LONGEST - self.length) / 2 < bytes.len() {
            return;
        }
        self.length = hex::put(&mut self.buffer, self.length, bytes);
    }

    // Puts the space before every field but the first.
    fn space(&mut self)
        ensures { self.new ≡ spaced self.old }
    {
        if self.length != 0 {
            self.byte(b' ');
        }
    }

    // Puts a field behind the line: a space, unless it is the first, and all of `chars`.
    pub fn word(&mut self, chars: &[u8])
        ensures { self.new ≡ word chars.now self.old }
    {
        self.space();
        self.put(chars);
    }

    // Puts a field behind the line: a space, unless it is the first, and n in the fewest decimal digits.
    pub fn number(&mut self, n: u32)
        ensures { self.new ≡ number n self.old }
    {
        self.space();
        self.digits(n);
    }

    // Puts all of the numbers behind the line, in decimal, each behind the character `mark`.
    pub fn each(&mut self, mark: u8, numbers: &[u32])
        ensures { self.new ≡ each mark numbers.now self.old }
    {
        for n in numbers {
            self.byte(mark);
            self.digits(*n);
        }
    }

    // Puts a field behind the line: a space, unless it is the first, and the bytes as lower-case hexadecimal, or `-` for none.
    pub fn bytes(&mut self, b: &[u8])
        ensures { self.new ≡ bytes b.now self.old }
    {
        self.space();
        if b.is_empty() {
            self.byte(b'-');
        } else {
            self.pairs(b);
        }
    }
}
