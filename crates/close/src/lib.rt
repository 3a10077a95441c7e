// Close: FIN goes out, and the session is FIN SENT or gone.
#![tactic(auto)]

ghost use Rattle.std.specs.Prelude.{◌≡◌, IfOk};
ghost use Rattle.buffer.specs.Onto.{Front};
ghost use Rattle.close.specs.Close.{close_says, ClosePromise};

use calling::find;
use cases::refusal::Refusal;
use decide::{fin_header, may_close};
use table::end::End;
use wire::header::Header;

pub mod decide;

// Ends what this side writes in the session `sid`: its FIN goes to the front of `packet`, for the transport. Answers how many bytes it has, 16.
// ESTABLISHED becomes FIN SENT, and FIN RECEIVED a free slot: what was unread is lost. Later bytes of `packet` and every other slot stay. A refusal, 12,
// 1, 4, 5 or 9, changes nothing.
#[tactic(auto, using(crate::proofs::Closing::long))]
pub fn close(e: &mut End, sid: u16, packet: &mut [u8]) -> Result<usize, Refusal>
    ensures close_promise { ClosePromise e.old sid packet.old (close_says result e.new) packet.new }
    ensures front { IfOk result (λ n. Front n packet.new) }
{
    let found = find(e, sid)?;
    let x = found.session;
    may_close(x, packet.len())?;
    wire::write::header(packet, fin_header(x));
    e.put(found.slot, x.closed());
    Ok(Header::LEN)
}
