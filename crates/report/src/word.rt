// The words of a line.
ghost use Rattle.std.specs.Prelude.{◌≡◌, ◌+◌, ◌≤◌, ◌∷◌, length};
ghost use Rattle.text.specs.Writing.{Written};
ghost use Rattle.report.specs.Rows.{space, sid_digits, sid_text, up_word};
ghost use Rattle.report.specs.Lines.{number_word};

use text::digit::glyph;
use text::writer::Writer;
use wire::header::Header;

// Writes a space and the word behind it.
pub fn put(w: &mut Writer, word: &[u8])
    requires { w.old.at + length word.now + 1 ≤ length w.old.out.now }
    ensures { Written w.old (space ∷ word.now) w.new }
{
    w.byte(b' ');
    w.bytes(word);
}

// The same with n in the fewest decimal digits.
#[tactic(auto, using(text::proofs::Writing::then))]
pub fn number(w: &mut Writer, n: u32)
    requires { w.old.at + 11 ≤ length w.old.out.now }
    ensures { Written w.old (number_word n) w.new }
{
    w.byte(b' ');
    w.number(n);
}

// A SID in four digits, the high byte first.
#[tactic(auto, unfolding(text::specs::Hex::to_hex))]
fn sid_digits(sid: u16) -> [u8; 4]
    ensures { result ≡ sid_digits sid }
{
    let high = (sid / 256) as u8;
    let low = (sid % 256) as u8;
    [
        glyph(high / 16),
        glyph(high % 16),
        glyph(low / 16),
        glyph(low % 16),
    ]
}

// The SID of a frame in four digits, the high byte first; dashes where the frame is shorter than a header.
#[tactic(auto, unfolding(crate::specs::Rows::sid_text))]
pub fn sid(frame: &[u8]) -> [u8; 4]
    ensures { result ≡ sid_text frame.now }
{
    if frame.len() < Header::LEN {
        return [b'-'; 4];
    }
    let h = Header::read(frame);
    sid_digits(h.sid)
}

// The word for an end that is up, or down.
pub fn state(up: bool) -> &'static [u8]
    ensures { result.now ≡ up_word up }
{
    if up { b"up" } else { b"down" }
}
