// One digit and its character.
ghost use Rattle.std.specs.Prelude.{◌≡◌, ◌<◌};
ghost use Rattle.text.specs.Hex.{digit_of, is_digit, glyph};

// The value of a lower-case hexadecimal digit; no other character is one.
#[tactic(auto, unfolding(crate::specs::Hex::digit_value))]
pub fn value(c: u8) -> Option<u8>
    ensures { result ≡ digit_of c }
{
    match c {
        b'0'..=b'9' => Some(c - b'0'),
        b'a'..=b'f' => Some(c - b'a' + 10),
        _ => None,
    }
}

// Whether a character is a lower-case hexadecimal digit.
#[tactic(auto, using(crate::proofs::Bytes::digit_found))]
pub(crate) fn is_digit(c: u8) -> bool
    ensures { result ≡ is_digit c }
{
    value(c).is_some()
}

// The lower-case hexadecimal character of a digit below 16.
pub fn glyph(d: u8) -> u8
    requires { d < 16 }
    ensures { result ≡ glyph d }
{
    if d < 10 { b'0' + d } else { b'a' - 10 + d }
}
