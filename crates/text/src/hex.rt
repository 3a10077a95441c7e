// Bytes as text: two lower-case hexadecimal digits a byte.
ghost use Rattle.std.specs.Prelude.{◌≡◌, ◌+◌, ◌*◌, ◌≤◌, length};
ghost use Rattle.std.proofs.Math.Seq.{paste};
ghost use Rattle.buffer.specs.Onto.{onto};
ghost use Rattle.text.specs.Hex.{byte_digits, digit_value, hex_byte, all_digits, is_hex, from_hex, to_hex};
ghost use Rattle.text.specs.Writing.{Written};

use crate::digit;
use crate::writer::Writer;

// Whether each character is a digit.
fn all_digits(text: &[u8]) -> bool
    ensures { result ≡ all_digits text.now }
{
    text.iter().all(|c| digit::is_digit(*c))
}

// Whether the text is lower-case hexadecimal: an even count of characters, each a digit. An empty text is.
pub fn is_hex(text: &[u8]) -> bool
    ensures { result ≡ is_hex text.now }
{
    text.len() % 2 == 0 && all_digits(text)
}

// What a character counts as in a byte: its value, and 16 where it is no digit.
fn weight(c: u8) -> u16
    ensures { result ≡ digit_value c }
{
    digit::value(c).unwrap_or(16) as u16
}

// The byte of two characters.
#[tactic(auto, using(crate::proofs::Digits::value_most))]
fn byte_of(high: u8, low: u8) -> u8
    ensures { result ≡ hex_byte high low }
{
    ((weight(high) * 16 + weight(low)) % 256) as u8
}

// Puts the bytes that a hexadecimal text spells at the front of a buffer that has room for them, and answers how many. Later bytes stay.
pub fn decode(text: &[u8], out: &mut [u8]) -> usize
    requires { length text.now ≤ 2 * length out.old }
    ensures out_after { out.new ≡ onto (from_hex text.now) out.old }
    ensures value { result ≡ length (from_hex text.now) }
{
    let mut w = Writer::from(out, 0);
    for pair in text.chunks_exact(2) {
        w.byte(byte_of(pair[0], pair[1]));
    }
    w.place()
}

// Writes one byte, the high digit first.
#[tactic(auto, using(crate::proofs::Writing::then))]
fn byte(w: &mut Writer, b: u8)
    requires { w.old.at + 2 ≤ length w.old.out.now }
    ensures { Written w.old (byte_digits b) w.new }
{
    w.byte(digit::glyph(b / 16));
    w.byte(digit::glyph(b % 16));
}

// Writes all of `bytes` into `out` from place `at` on, which must have room, two lower-case hexadecimal digits a byte. Answers the place behind them;
// no other byte changes.
#[tactic(auto, using(crate::proofs::Bytes::length_to, crate::proofs::Bytes::length_taken, crate::proofs::Writing::nothing), unfolding(crate::specs::Hex::to_hex))]
pub fn put(out: &mut [u8], at: usize, bytes: &[u8]) -> usize
    requires { at + 2 * length bytes.now ≤ length out.old }
    ensures out_after { out.new ≡ paste out.old at (to_hex bytes.now) (length (to_hex bytes.now)) }
    ensures value { result ≡ at + length (to_hex bytes.now) }
{
    let mut w = Writer::from(out, at);
    for b in bytes {
        byte(&mut w, *b);
    }
    w.place()
}
