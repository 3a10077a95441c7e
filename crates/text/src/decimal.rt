// A number as text: its decimal digits, no more than it needs.
ghost use Rattle.std.specs.Prelude.{◌≡◌, ◌+◌, ◌≤◌, length};
ghost use Rattle.std.proofs.Math.Seq.{paste};
ghost use Rattle.text.specs.Decimal.{decimal};
ghost use Rattle.text.specs.Writing.{Written};

use crate::digit;
use crate::writer::Writer;

// Writes the digits of n, the higher ones first.
#[tactic(auto, using(crate::proofs::Decimals::decimal_low, crate::proofs::Decimals::decimal_high, crate::proofs::Decimals::length_low, crate::proofs::Decimals::length_high, crate::proofs::Writing::then))]
pub(crate) fn digits(w: &mut Writer, n: u32)
    requires { w.old.at + length (decimal n) ≤ length w.old.out.now }
    ensures { Written w.old (decimal n) w.new }
{
    if n < 10 {
        return w.byte(digit::glyph(n as u8));
    }
    digits(w, n / 10);
    w.byte(digit::glyph((n % 10) as u8));
}

// Writes n into `out` from place `at` on, in the fewest decimal digits, and answers the place behind them. No other byte changes. There must be room
// for ten digits, enough for any n.
pub fn put(out: &mut [u8], at: usize, n: u32) -> usize
    requires { at + 10 ≤ length out.old }
    ensures out_after { out.new ≡ paste out.old at (decimal n) (length (decimal n)) }
    ensures value { result ≡ at + length (decimal n) }
{
    let mut w = Writer::from(out, at);
    w.number(n);
    w.place()
}
