// Send: a payload goes out as a DATA packet.
#![tactic(auto)]

ghost use Rattle.std.specs.Prelude.{◌≡◌, IfOk};
ghost use Rattle.buffer.specs.Onto.{Front};
ghost use Rattle.send.specs.Send.{send_says, SendPromise};

use calling::find;
use cases::refusal::Refusal;
use decide::{data_header, may_send};
use table::end::End;
use wire::header::Header;

pub mod decide;

// Sends one payload of at most 512 bytes in the session `sid`: as DATA at the front of `packet`, for the transport. Answers how many bytes the DATA has,
// 16 and the payload's. S grows by 1; later bytes of `packet` and every other slot stay. A refusal, 12, 1, 4, 5, 6, 7 or 9, changes nothing: after 7
// (the window is closed) try again when the peer's ACK was taken.
#[tactic(auto, using(crate::proofs::Sending::limit, crate::proofs::Sending::long, crate::proofs::Sending::front))]
pub fn send(e: &mut End, sid: u16, payload: &[u8], packet: &mut [u8]) -> Result<usize, Refusal>
    ensures send_promise { SendPromise e.old sid payload.now packet.old (send_says result e.new) packet.new }
    ensures front { IfOk result (λ n. Front n packet.new) }
{
    let found = find(e, sid)?;
    let x = found.session;
    may_send(x, payload.len(), packet.len())?;
    wire::write::packet(packet, data_header(x, payload.len()), payload);
    e.put(found.slot, x.sent());
    Ok(Header::LEN + payload.len())
}
