// One call many times over, with the end in one local: what bench/ counts. The C beside it has the same three loops.
#![tactic(auto)]

pub mod answer;
pub mod turns;

ghost use Rattle.std.specs.Prelude.{◌≡◌};
ghost use Rattle.steady.specs.Steady.{sends_of, reads_of, takes_of};

use answer::Answer;
use read::read;
use send::send;
use table::end::End;
use take::take;
use turns::Turns;

// Takes count packets from the front of `bytes`, each take given what the ones before left; payloads go to the storage as take says. What comes back
// is the last answer's number and values (zeros for no take), the sum of all numbers and bytes used, and the end after the last.
#[tactic(auto, using(crate::proofs::Loops::takes_first, crate::proofs::Loops::takes_on, crate::proofs::Loops::takes_stop))]
pub fn takes(first: End, bytes: &[u8], storage: &mut [u8], count: usize) -> Answer
    ensures value { result ≡ (takes_of first bytes.now storage.old count).answer }
    ensures storage_after { storage.new ≡ (takes_of first bytes.now storage.old count).storage }
{
    let mut answer = Answer::none(first);
    let mut at = 0;
    for _ in 0..count {
        let taken = take(&mut answer.end, &bytes[at..], storage);
        answer.taken(taken);
        at += taken.map_or(0, |t| t.used);
    }
    answer
}

// Sends one payload count times, on each session in turn, every packet to the front of the same buffer. What comes back is the last answer's number
// and length (zeros for no send), the sum of all numbers and lengths, and the end after the last.
#[tactic(auto, using(crate::proofs::Loops::sends_first, crate::proofs::Loops::sends_on, crate::proofs::Loops::sends_stop))]
pub fn sends(first: End, turns: Turns, payload: &[u8], packet: &mut [u8], count: usize) -> Answer
    ensures value { result ≡ (sends_of first turns.sid payload.now packet.old count turns.last turns.step).answer }
    ensures packet_after { packet.new ≡ (sends_of first turns.sid payload.now packet.old count turns.last turns.step).packet }
{
    let mut answer = Answer::none(first);
    for sid in turns.take(count) {
        let sent = send(&mut answer.end, sid, payload, packet);
        answer.sent(sent);
    }
    answer
}

// Reads count payloads, from each session in turn, all to the front of the same two buffers. What comes back is the last answer's number and lengths
// (zeros for no read), the sum of all numbers and payload lengths, and the end after the last.
#[tactic(auto, using(crate::proofs::Loops::reads_first, crate::proofs::Loops::reads_on, crate::proofs::Loops::reads_stop))]
pub fn reads(
    first: End,
    turns: Turns,
    storage: &[u8],
    payload: &mut [u8],
    ack: &mut [u8],
    count: usize,
) -> Answer
    ensures value { result ≡ (reads_of first turns.sid storage.now payload.old ack.old count turns.last turns.step).answer }
    ensures payload_after { payload.new ≡ (reads_of first turns.sid storage.now payload.old ack.old count turns.last turns.step).payload }
    ensures ack_after { ack.new ≡ (reads_of first turns.sid storage.now payload.old ack.old count turns.last turns.step).ack }
{
    let mut answer = Answer::none(first);
    for sid in turns.take(count) {
        let got = read(&mut answer.end, sid, storage, payload, ack);
        answer.got(got);
    }
    answer
}
