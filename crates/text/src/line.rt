// Lines ended by LF, and other text up to a character.
ghost use Rattle.std.specs.Prelude.{◌≡◌, ◌==◌, ◌+◌, ◌≤◌, length, drop};
ghost use Rattle.std.specs.List.{position};
ghost use Rattle.std.specs.Iterator.{YieldsFirstRef, item_count};
ghost use Rattle.text.specs.Lines.{until, first_line, lines};

pub const LF: u8 = 10;

// The index of the first `stop` in the text, if it has one.
fn position(text: &[u8], stop: u8) -> Option<usize>
    ensures { result ≡ position (λ c. c == stop) text.now }
{
    text.iter().position(|c| *c == stop)
}

// The index of the first `stop` in the text from index `from` on, or the text's length where there is none.
#[tactic(auto, using(crate::proofs::Lines::until_inside))]
pub fn until(text: &[u8], from: usize, stop: u8) -> usize
    requires { from ≤ length text.now }
    ensures { result ≡ from + length (until stop (drop from text.now)) }
{
    from + position(&text[from..], stop).unwrap_or(text.len() - from)
}

// Where the line that begins at a place ends: the index of the first LF from there on, or the text's length.
pub fn end_of(text: &[u8], from: usize) -> usize
    requires { from ≤ length text.now }
    ensures { result ≡ from + length (first_line (drop from text.now)) }
{
    until(text, from, LF)
}

// What stands behind index n of a text.
fn behind(text: &[u8], n: usize) -> &[u8]
    requires { n ≤ length text.now }
    ensures { result.now ≡ drop (n + 1) text.now }
{
    if n < text.len() { &text[n + 1..] } else { &[] }
}

// The lines of a text, one after the other, each without its LF; a last line without LF counts if not empty.
#[derive(Drop)]
pub struct Lines<'a> {
    rest: &'a [u8],
}

impl<'a> Lines<'a> {
    pub fn of(text: &'a [u8]) -> Lines<'a>
        ensures { result.rest.now ≡ text.now }
    {
        Lines { rest: text }
    }
}

impl<'a> Iterator for Lines<'a> {
    type Item = &'a [u8];

    ghost next_gives = { YieldsFirstRef (λ s. lines s.rest.now) };

    ghost remaining = { item_count (λ s. lines s.rest.now) };

    #[tactic(auto, using(crate::proofs::Lines::lines_next, crate::proofs::Lines::lines_none, crate::proofs::Lines::first_within, crate::proofs::Lines::first_length, crate::proofs::Lines::lines_fewer))]
    fn next(&mut self) -> Option<&'a [u8]> {
        if self.rest.is_empty() {
            return None;
        }
        let n = end_of(self.rest, 0);
        let line = &self.rest[..n];
        self.rest = behind(self.rest, n);
        Some(line)
    }
}
