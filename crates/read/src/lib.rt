// Read: the oldest unread payload is handed over, and an ACK goes out where one is due.
#![tactic(auto)]

ghost use Rattle.std.specs.Prelude.{◌≡◌, false, ◌&&◌, ◌≤◌, ◌<◌, length, take, drop, ltb, IfOk};
ghost use Rattle.buffer.specs.Onto.{onto, Front};
ghost use Rattle.wire.specs.Packet.{header_length};
ghost use Rattle.session.specs.Record.{payload_limit};
ghost use Rattle.session.specs.Notice.{due};
ghost use Rattle.table.specs.End.{slot_count};
ghost use Rattle.table.specs.Storage.{storage_length, place_start};
ghost use Rattle.read.specs.Read.{ack_on, read_says, ReadPromise};

use buffer::copy_in;
use calling::find;
use cases::refusal::Refusal;
use decide::{ack_header, may_read, oldest_length};
use session::record::Session;
use table::end::End;
use table::storage;
use wire::header::Header;

pub mod decide;

// What a read gives that was done.
#[derive(Clone, Copy, Debug, PartialEq, Eq)]
pub struct Got {
    // How many bytes at the front of `payload` were handed over; 0 for an empty payload too.
    pub payload_length: usize,
    // How many bytes at the front of `ack` are the ACK: 16 where one goes out, else 0.
    pub ack_length: usize,
}

// The ACK, where one is due, and its length.
fn write_ack(ack: &mut [u8], x: Session) -> usize
    requires { due x && ltb (length ack.old) header_length ≡ false }
    ensures value { result ≡ length (ack_on x) }
    ensures ack_after { ack.new ≡ onto (ack_on x) ack.old }
{
    if !x.due() {
        return 0;
    }
    wire::write::header(ack, ack_header(x));
    Header::LEN
}

// So many bytes of the storage, from the place of a SEQNUM in a slot, to the front of a buffer.
fn hand_over(payload: &mut [u8], storage: &[u8], slot: usize, seqnum: u32, n: usize)
    requires { (slot < slot_count) × (n ≤ payload_limit) × (n ≤ length payload.old) × (storage_length payload_limit slot_count ≤ length storage.now) }
    ensures { payload.new ≡ onto (take n (drop (place_start payload_limit slot seqnum) storage.now)) payload.old }
{
    let at = storage::place_start(slot, seqnum);
    copy_in(payload, 0, &storage[at..at + n]);
}

// Hands over the oldest unread payload of the session `sid`, from its place in the storage to the front of `payload`. G grows by 1. In ESTABLISHED,
// where the new G is 2 or more past what the peer was last told, an ACK goes to the front of `ack`, for the transport. The storage, later bytes of
// both buffers and every other slot stay. A refusal, 12, 1, 4, 5, 8, 11 or 9, changes nothing; 11 means that the writer has ended and all was read.
pub fn read(
    e: &mut End,
    sid: u16,
    storage: &[u8],
    payload: &mut [u8],
    ack: &mut [u8],
) -> Result<Got, Refusal>
    ensures read_promise { ReadPromise e.old sid storage.now payload.old ack.old (read_says result e.new) payload.new ack.new }
    ensures front { IfOk result (λ g. Front g.payload_length payload.new × Front g.ack_length ack.new) }
{
    let found = find(e, sid)?;
    let x = found.session;
    let short = storage::is_short(e, storage.len());
    may_read(x, payload.len(), ack.len(), short)?;
    let payload_length = oldest_length(x);
    hand_over(payload, storage, found.slot, x.oldest(), payload_length);
    let ack_length = write_ack(ack, x);
    e.put(found.slot, x.read());
    Ok(Got {
        payload_length,
        ack_length,
    })
}
