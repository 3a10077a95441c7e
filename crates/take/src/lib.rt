// Take: one packet from the front of the bytes given. Crate judge says what is to be done with it; here it is done.
#![tactic(auto)]

ghost use Rattle.std.specs.Prelude.{◌≡◌, ◌≤◌, length, IfOk};
ghost use Rattle.wire.specs.Packet.{flags_of};
ghost use Rattle.effect.specs.declared.cell.Cell as cell;
ghost use Rattle.table.specs.Limits.{base};
ghost use Rattle.judge.specs.Act.{IsJudged};
ghost use Rattle.take.specs.Take.{taken_end, kept, taken_storage, take_says, TakePromise};
ghost use Rattle.take.specs.Parts.{Fits};

use buffer::copy_in;
use effect::cell::{Cell, becomes};
use judge::stop::Stop;
use judge::{Act, Judged, judge};
use session::record::Session;
use table::end::End;
use table::storage;
use wire::header::Header;
use wire::kind::Kind;

// What a take gives that was done.
#[derive(Clone, Copy, Debug, PartialEq, Eq)]
pub struct Taken {
    // How many bytes at the front of `bytes` were the packet: drop them.
    pub used: usize,
    // The packet's kind.
    pub kind: Kind,
    // The packet's SID: after DATA or FIN, read that session.
    pub sid: u16,
}

// A packet's payload to its place in a slot.
fn store(storage: &mut [u8], bytes: &[u8], slot: usize, h: Header)
    requires { Fits slot h (length bytes.now) (length storage.old) }
    ensures { storage.new ≡ kept base cell.Cell.Store slot h bytes.now storage.old }
{
    let at = storage::place_start(slot, h.seqnum);
    let end = h.length as usize;
    copy_in(storage, at, &bytes[Header::LEN..end]);
}

// What was judged is done: a session begins, or one moves, and DATA's payload goes to its place.
#[tactic(auto, using(table::proofs::Slots::changed_at))]
fn carry_out(e: &mut End, bytes: &[u8], storage: &mut [u8], j: Judged)
    requires { IsJudged j e.old bytes.now (length storage.old) }
    ensures end { e.new ≡ taken_end (flags_of j.header.flags) j.header e.old }
    ensures storage { storage.new ≡ taken_storage base (flags_of j.header.flags) e.old j.header bytes.now storage.old }
{
    let h = j.header;
    match j.act {
        Act::Begin(slot) => e.put(slot, Session::fresh(h.sid).granted(h.wndw)),
        Act::Do(found, cell) => {
            if cell == Cell::Store {
                store(storage, bytes, found.slot, h);
            }
            let n = (h.length - Header::BARE) as u16;
            let x = becomes(found.session, cell, h.seqnum, h.wndw, n);
            e.put(found.slot, x);
        }
    }
}

// Handles one packet from the front of `bytes`, which came from the transport: a SYN at a server makes a session, the others move theirs, and DATA's
// payload goes to its place in the storage. Other bytes of the storage and other slots stay. A refusal, 12, 1, 9 or 10, changes nothing; a fault, 20 to
// 30, takes the end down.
#[tactic(auto, unfolding(crate::specs::Take::take_of, crate::specs::Take::take_storage, wire::specs::Packet::flags_of))]
pub fn take(e: &mut End, bytes: &[u8], storage: &mut [u8]) -> Result<Taken, Stop>
    ensures take_promise { TakePromise e.old bytes.now storage.old (take_says result e.new) storage.new }
    ensures used_in_bounds { IfOk result (λ t. t.used ≤ length bytes.now) }
{
    match judge(e, bytes, storage.len()) {
        Ok(j) => {
            carry_out(e, bytes, storage, j);
            Ok(Taken {
                used: j.header.length as usize,
                kind: j.kind,
                sid: j.header.sid,
            })
        }
        Err(s) => {
            if let Stop::Fault(_) = s {
                *e = e.down();
            }
            Err(s)
        }
    }
}
