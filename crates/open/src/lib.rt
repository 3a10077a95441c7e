// Open: a client's new session, and its SYN.
#![tactic(auto)]

ghost use Rattle.std.specs.Prelude.{◌≡◌, IfOk};
ghost use Rattle.buffer.specs.Onto.{Front};
ghost use Rattle.open.specs.Open.{open_says, OpenPromise};

use cases::refusal::Refusal;
use decide::{may_open, syn_header};
use scan::scan;
use session::record::Session;
use table::end::End;
use wire::header::Header;

pub mod decide;

// What an open gives that was done.
#[derive(Clone, Copy, Debug, PartialEq, Eq)]
pub struct Opened {
    // The new session's SID, for every later call on it.
    pub sid: u16,
    // How many bytes at the front of `packet` are the SYN: 16.
    pub length: usize,
}

// Begins a session at a client: the smallest SID not in the table, the lowest free slot. Its SYN goes to the front of `packet`, for the transport;
// later bytes of `packet` and every other slot stay. A refusal, 12, 1, 2, 3 or 9, changes nothing.
#[tactic(auto, unfolding(scan::specs::Look::look_of), using(crate::proofs::Opening::long))]
pub fn open(e: &mut End, packet: &mut [u8]) -> Result<Opened, Refusal>
    ensures open_promise { OpenPromise e.old packet.old (open_says result e.new) packet.new }
    ensures front { IfOk result (λ o. Front o.length packet.new) }
{
    let look = scan(e, 0)?;
    let slot = may_open(e.up, e.role, look.free, packet.len())?;
    let sid = e.smallest_sid();
    wire::write::header(packet, syn_header(sid));
    e.put(slot, Session::fresh(sid));
    Ok(Opened {
        sid,
        length: Header::LEN,
    })
}
