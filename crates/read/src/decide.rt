// What read decides from the session and small values: whether it refuses, the length of the payload, and its ACK.
ghost use Rattle.std.specs.Prelude.{◌≡◌};
ghost use Rattle.cases.specs.Cases.{first, number_in};
ghost use Rattle.read.specs.Read.{oldest_length, read_cases, ack_header};

use cases::refusal::Refusal;
use session::counter;
use session::record::{Session, State};
use wire::header::Header;
use wire::kind::Kind;

// The length of the oldest unread payload, which stands in the record at the place of SEQNUM G - 3.
pub fn oldest_length(x: Session) -> usize
    ensures { result ≡ oldest_length x }
{
    usize::from(x.length_at(x.oldest()))
}

// Read's refusal in that session, with so much room in the two buffers, and whether the storage is too short: 5, 8 or 11, 9.
#[tactic(auto, unfolding(cases::specs::Cases::first))]
pub fn may_read(x: Session, room: usize, ack: usize, short: bool) -> Result<(), Refusal>
    ensures { number_in result ≡ first (read_cases x room ack short) }
{
    if x.state == State::FinSent {
        return Err(Refusal::WrongState);
    }
    if x.state == State::Established && x.unread() == 0 {
        return Err(Refusal::NothingToRead);
    }
    if x.state == State::FinReceived && x.unread() == 0 {
        return Err(Refusal::WriterEnded);
    }
    if room < oldest_length(x) || x.due() && ack < Header::LEN || short {
        return Err(Refusal::TooShort);
    }
    Ok(())
}

// The header of the ACK that a read emits: the SID, LENGTH 16, SEQNUM S, WNDW the new G.
pub fn ack_header(x: Session) -> Header
    ensures { result ≡ ack_header x }
{
    Header::of(Kind::Ack, x.sid, Header::BARE, x.s, counter::plus(x.g, 1))
}
