// The words of a line of the program `calls`, and what they spell. Words are what stands between spaces: a leading, double or trailing space makes
// an empty word, which is no name, no number and no bytes.
#![tactic(auto)]

pub mod forms;
pub mod held;
pub mod limits;
pub mod stated;

ghost use Rattle.std.specs.Prelude.{◌≡◌, ◌≤◌};
ghost use Rattle.words.specs.Words.{spaces, word_of, spelled, spelled_at, value_of, short, counter, is_bytes, role_in, role_of};

use table::end::Role;
use text::hex;

// Answers how many words follow the first: as many as the line has spaces.
pub fn after_first(line: &[u8]) -> usize
    ensures { result ≡ spaces line.now }
{
    line.iter().filter(|c| **c == b' ').count()
}

// Word k of the line, counted from 0, as a part of the line itself; empty where there are fewer.
pub fn word(line: &[u8], k: usize) -> &[u8]
    ensures { result.now ≡ word_of k line.now }
{
    line.split(|c| *c == b' ').nth(k).unwrap_or(&[])
}

// The number that one to ten decimal digits spell.
#[tactic(auto, unfolding(crate::specs::Words::digits_from))]
fn number(chars: &[u8]) -> Option<u64>
    ensures { result ≡ spelled chars.now }
{
    if chars.is_empty() || 10 < chars.len() {
        return None;
    }
    let mut n = 0;
    for c in chars {
        if !c.is_ascii_digit() {
            return None;
        }
        n = 10 * n + u64::from(*c - b'0');
    }
    Some(n)
}

// The number that word k of the line spells in one to ten decimal digits; `None` where there is no such word, or it is no such number.
pub fn number_at(line: &[u8], k: usize) -> Option<u64>
    ensures { result ≡ spelled_at line.now k }
{
    number(word(line, k))
}

// The number that word k of the line spells, as `number_at` has it; 0 where that is over `most`, as none is: it counts as 2^64 - 1. So the answer is at
// most `most`.
pub fn value(line: &[u8], k: usize, most: u64) -> u64
    ensures upper_bound { result ≤ most }
    ensures value { result ≡ value_of line.now k most }
{
    let n = number_at(line, k).unwrap_or(u64::MAX);
    if n <= most { n } else { 0 }
}

// The number that word k spells as a SID or a length, at most 65,535; 0 where it is more, or no number.
pub fn short(line: &[u8], k: usize) -> u16
    ensures { result ≡ value_of line.now k short }
{
    value(line, k, limits::SHORT) as u16
}

// The number that word k spells as a counter, below 2^32; 0 where it is more, or no number.
pub fn counter(line: &[u8], k: usize) -> u32
    ensures { result ≡ value_of line.now k counter }
{
    value(line, k, limits::COUNTER) as u32
}

// Whether the characters spell bytes: lower-case hexadecimal, two digits a byte, or `-` for none. An empty word doesn't.
pub fn is_bytes(chars: &[u8]) -> bool
    ensures { result ≡ is_bytes chars.now }
{
    !chars.is_empty() && (chars == b"-".as_slice() || hex::is_hex(chars))
}

// The role that the characters name, `client` or `server`.
#[tactic(auto, using(std::proofs::lemmas::Slice::Eq::text_from_reads))]
pub fn role_in(chars: &[u8]) -> Option<Role>
    ensures { result ≡ role_in chars.now }
{
    match chars {
        b"client" => Some(Role::Client),
        b"server" => Some(Role::Server),
        _ => None,
    }
}

// The same; the client's where they name none.
pub fn role(chars: &[u8]) -> Role
    ensures { result ≡ role_of chars.now }
{
    role_in(chars).unwrap_or(Role::Client)
}
