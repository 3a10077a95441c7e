// What open decides from a look at the table and small values: whether it refuses, its slot, and its SYN.
ghost use Rattle.std.specs.Prelude.{◌≡◌, true, Some, is_none, IfOk};
ghost use Rattle.cases.specs.Cases.{first, number_in};
ghost use Rattle.open.specs.Open.{open_cases, syn_header};

use cases::refusal::Refusal;
use session::record::Session;
use table::end::Role;
use wire::header::Header;
use wire::kind::Kind;

// The slot of a new session, or open's refusal in a well-made end: 1 down, 2 at a server, 3 no free slot, 9 a room under 16.
#[tactic(auto, unfolding(cases::specs::Cases::first))]
pub fn may_open(up: bool, role: Role, free: Option<usize>, room: usize) -> Result<usize, Refusal>
    ensures number { number_in result ≡ first (open_cases true up role (is_none free) room) }
    ensures slot { IfOk result (λ i. free ≡ Some i) }
{
    if !up {
        return Err(Refusal::Down);
    }
    if role == Role::Server {
        return Err(Refusal::NotAClient);
    }
    let slot = free.ok_or(Refusal::NoFreeSlot)?;
    if room < Header::LEN {
        return Err(Refusal::TooShort);
    }
    Ok(slot)
}

// The header of the SYN of a new session: its SID, LENGTH 16, SEQNUM 0, WNDW 4.
pub fn syn_header(sid: u16) -> Header
    ensures { result ≡ syn_header sid }
{
    Header::of(Kind::Syn, sid, Header::BARE, 0, Session::WINDOW)
}
