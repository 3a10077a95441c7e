// What the calls share: how send, read and close come to the session that they name.
#![tactic(auto)]

ghost use Rattle.std.specs.Prelude.{◌≡◌, true, Some, is_some, IfOk};
ghost use Rattle.cases.specs.Cases.{first, number_in};
ghost use Rattle.table.specs.Limits.{base};
ghost use Rattle.calling.specs.Calling.{called, calling, IsThat};

use cases::refusal::Refusal;
use scan::{Found, Look, scan};
use table::end::End;

// The session that was looked for in a well-made end, and its slot, or the refusal: 1 where the end is down, 4 where no slot holds the SID.
#[tactic(auto, unfolding(cases::specs::Cases::first))]
pub fn called(look: Look, up: bool) -> Result<Found, Refusal>
    ensures number { number_in result ≡ first (called true up (is_some look.found)) }
    ensures found { IfOk result (λ f. look.found ≡ Some f) }
{
    if !up {
        return Err(Refusal::Down);
    }
    look.found.ok_or(Refusal::NoSession)
}

// The session with that SID and its slot, or the refusal that send, read and close begin with: 12 where the end isn't well made, 1 where it is down, 4
// where no slot holds the SID.
#[tactic(auto, unfolding(cases::specs::Cases::first, scan::specs::Look::look_of))]
pub fn find(e: &End, sid: u16) -> Result<Found, Refusal>
    ensures number { number_in result ≡ first (calling base e.now sid) }
    ensures found { IfOk result (λ f. IsThat f e.now sid) }
{
    called(scan(e, sid)?, e.up)
}
