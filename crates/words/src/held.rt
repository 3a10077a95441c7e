// The line that isn't ended yet: the characters of it that came so far.
ghost use Rattle.std.specs.Prelude.{◌≡◌, [], Some, unwrap_or};
ghost use Rattle.words.specs.Held.{joined, is_empty};

use std::marker::Model;

pub const LONGEST: usize = 16384;

// The characters, and how many of the array count; `None` where the line is too long.
#[derive(Drop)]
pub struct Held {
    bytes: [u8; LONGEST],
    length: Option<usize>,
}

impl Model for Held {
    ghost use Rattle.std.specs.Prelude.{ℕ, ◌≤◌, List, Option, IfSome, option_map, take};
    ghost use Rattle.words.specs.Held.{longest_line};

    ghost Value = { Option (List ℕ) };

    ghost view = { λ h. option_map (λ n. take n h.bytes) h.length };

    ghost invariant = { λ h. IfSome h.length (λ n. n ≤ longest_line) };
}

impl Held {
    // No character yet.
    pub fn new() -> Held
        ensures { result ≡ Some [] }
    {
        Held {
            bytes: [0; LONGEST],
            length: Some(0),
        }
    }

    // Puts some more characters of the line behind those that are held. Where it gets too long, nothing of it is held any more.
    pub fn join(&mut self, part: &[u8])
        ensures { self.new ≡ joined self.old part.now }
    {
        let Some(n) = self.length else {
            return;
        };
        if LONGEST - n < part.len() {
            self.length = None;
            return;
        }
        self.bytes[n..n + part.len()].copy_from_slice(part);
        self.length = Some(n + part.len());
    }

    // The characters that are held; none where the line is too long, so that it is `bad`, as an empty one is.
    pub fn line(&self) -> &[u8]
        ensures { result.now ≡ unwrap_or self.now [] }
    {
        &self.bytes[..self.length.unwrap_or(0)]
    }

    // Whether no character came. A line that is too long isn't empty.
    pub fn is_empty(&self) -> bool
        ensures { result ≡ is_empty self.now }
    {
        self.length == Some(0)
    }

    // The line ended: the next begins.
    pub fn clear(&mut self)
        ensures { self.new ≡ Some [] }
    {
        self.length = Some(0);
    }
}
