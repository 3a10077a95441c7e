// One look through the slots, which gives a call all that it asks of the table. It goes from the last slot to the first, so that the lowest
// free slot is the last one seen.
#![tactic(auto)]

ghost use Rattle.std.specs.Prelude.{◌≡◌, ◌&&◌, ◌||◌};
ghost use Rattle.session.specs.Record.{highest, payload_limit};
ghost use Rattle.session.specs.Well.{in_order};
ghost use Rattle.table.specs.Limits.{base};
ghost use Rattle.table.specs.Well.{is_free};
ghost use Rattle.scan.specs.Look.{look_of};

use cases::refusal::Refusal;
use session::record::Session;
use sids::sids_differ;
use table::end::End;

// A session and the slot that holds it.
#[derive(Clone, Copy, Debug, PartialEq, Eq)]
pub struct Found {
    pub slot: usize,
    pub session: Session,
}

// What was seen of a well-made end: the session with a SID, and the lowest free slot, where there is one.
#[derive(Clone, Copy, Debug, PartialEq, Eq)]
pub struct Look {
    pub found: Option<Found>,
    pub free: Option<usize>,
}

// Whether a record may stand in a slot of an end that is up, or down: in order by itself, and no session's where the end is down.
fn may_stand(x: Session, up: bool) -> bool
    ensures { result ≡ in_order highest payload_limit x && (up || is_free x) }
{
    x.in_order(Session::HIGHEST, Session::PAYLOAD) && (up || !x.state.in_use())
}

// One look through the slots: whether the end is well made, and then the session with that SID and the lowest free slot. SIDs are marked by their rest
// modulo 64: where no mark is met twice they differ, and no slot is held against another. An end that isn't well made is refused, 12.
#[tactic(auto, using(crate::proofs::Seen::look_alike))]
pub fn scan(e: &End, sid: u16) -> Result<Look, Refusal>
    ensures { result ≡ look_of base e.now sid }
{
    let slots = &e.slots[..];
    let mut slot = None;
    let mut free = None;
    let mut marks = [false; 64];
    let mut twice = false;
    for (i, x) in slots.iter().enumerate().rev() {
        if !may_stand(*x, e.up) {
            return Err(Refusal::IllMade);
        }
        if x.state.in_use() {
            let k = usize::from(x.sid % 64);
            twice |= marks[k];
            marks[k] = true;
            if x.sid == sid {
                slot = Some(i);
            }
        } else {
            free = Some(i);
        }
    }
    if twice && !sids_differ(e) {
        return Err(Refusal::IllMade);
    }
    let found = slot.map(|slot| Found {
        slot,
        session: slots[slot],
    });
    Ok(Look { found, free })
}
