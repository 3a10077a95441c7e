// What the words of a `record` line state: a slot and a session's record.
ghost use Rattle.std.specs.Prelude.{◌≡◌};
ghost use Rattle.words.specs.Words.{value_of, last_slot};
ghost use Rattle.words.specs.Stated.{state_of, stated_of};

use crate::{counter, limits, short, value};
use session::record::{Session, State};

// The slot that a `record` line names in word 1; 0 where that is no number up to 15.
pub fn slot(line: &[u8]) -> usize
    ensures { result ≡ value_of line.now 1 last_slot }
{
    value(line, 1, limits::SLOT) as usize
}

// The record that a `record` line states in words 2 to 12: state, SID, S, H, R, G, L and the four lengths. A word that is no number in its limit
// counts as 0. The record need not be in order.
pub fn session(line: &[u8]) -> Session
    ensures { result ≡ stated_of line.now }
{
    Session {
        state: state(value(line, 2, limits::STATE)),
        sid: short(line, 3),
        s: counter(line, 4),
        h: counter(line, 5),
        r: counter(line, 6),
        g: counter(line, 7),
        l: counter(line, 8),
        lens: [
            short(line, 9),
            short(line, 10),
            short(line, 11),
            short(line, 12),
        ],
    }
}

fn state(n: u64) -> State
    ensures { result ≡ state_of n }
{
    match n {
        1 => State::Established,
        2 => State::FinSent,
        3 => State::FinReceived,
        _ => State::Closed,
    }
}
