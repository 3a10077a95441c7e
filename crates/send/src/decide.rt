// What send decides from the session and small values: whether it refuses, and the header of its DATA.
ghost use Rattle.std.specs.Prelude.{◌≡◌, ◌≤◌};
ghost use Rattle.cases.specs.Cases.{first, number_in};
ghost use Rattle.session.specs.Record.{payload_limit};
ghost use Rattle.table.specs.Limits.{base};
ghost use Rattle.send.specs.Send.{send_cases, data_header};

use cases::refusal::Refusal;
use session::counter;
use session::record::{Session, State};
use wire::header::Header;
use wire::kind::Kind;

// Send's refusal of a payload of n bytes in that session, with so much room in the packet buffer: 5, 6, 7, 9.
#[tactic(auto, unfolding(cases::specs::Cases::first))]
pub fn may_send(x: Session, n: usize, room: usize) -> Result<(), Refusal>
    ensures { number_in result ≡ first (send_cases base x n room) }
{
    if x.state != State::Established {
        return Err(Refusal::WrongState);
    }
    if usize::from(Session::PAYLOAD) < n {
        return Err(Refusal::PayloadTooLong);
    }
    if x.s == x.h {
        return Err(Refusal::WindowClosed);
    }
    if room < Header::LEN + n {
        return Err(Refusal::TooShort);
    }
    Ok(())
}

// The header of the DATA that a session emits for n bytes: its SID, LENGTH 16 + n, SEQNUM S + 1, WNDW G.
pub fn data_header(x: Session, n: usize) -> Header
    requires { n ≤ payload_limit }
    ensures { result ≡ data_header x n }
{
    Header::of(
        Kind::Data,
        x.sid,
        Header::BARE + (n as u32),
        counter::plus(x.s, 1),
        x.g,
    )
}
