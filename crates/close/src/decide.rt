// What close decides from the session and small values: whether it refuses, and its FIN.
ghost use Rattle.std.specs.Prelude.{◌≡◌};
ghost use Rattle.cases.specs.Cases.{first, number_in};
ghost use Rattle.close.specs.Close.{close_cases, fin_header};

use cases::refusal::Refusal;
use session::record::{Session, State};
use wire::header::Header;
use wire::kind::Kind;

// Close's refusal in that session, with so much room in the packet buffer: 5, 9.
#[tactic(auto, unfolding(cases::specs::Cases::first))]
pub fn may_close(x: Session, room: usize) -> Result<(), Refusal>
    ensures { number_in result ≡ first (close_cases x room) }
{
    if x.state == State::FinSent {
        return Err(Refusal::WrongState);
    }
    if room < Header::LEN {
        return Err(Refusal::TooShort);
    }
    Ok(())
}

// The header of the FIN that a session emits: its SID, LENGTH 16, SEQNUM S, WNDW G.
pub fn fin_header(x: Session) -> Header
    ensures { result ≡ fin_header x }
{
    Header::of(Kind::Fin, x.sid, Header::BARE, x.s, x.g)
}
