// Any call on any record: what bench/ calls from C.
ghost use Rattle.std.specs.Prelude.{◌≡◌, ◌∷◌, length};
ghost use Rattle.buffer.specs.Onto.{onto};
ghost use Rattle.cases.specs.Cases.{refusal_number};
ghost use Rattle.table.specs.Limits.{base};
ghost use Rattle.start.specs.Start.{start_of};
ghost use Rattle.open.specs.Open.{open_of, open_packet};
ghost use Rattle.close.specs.Close.{close_of, close_packet};
ghost use Rattle.shutdown.specs.Shutdown.{shutdown_of};
ghost use Rattle.steady.specs.Steady.{answer_of, zeros};
ghost use Rattle.bench.specs.Call.{start_answer, open_answer, close_answer, shutdown_answer, bench_of, BenchPromise};

use cases::refusal::Refusal;
use crossing::{end_of, put_end};
use steady::answer::Answer;
use steady::turns::Turns;
use steady::{reads, sends, takes};
use table::end::End;

// The answer of a refused call that is made once.
fn refused(r: Refusal, end: End) -> Answer
    ensures { result ≡ answer_of (refusal_number r) zeros 0 end }
{
    Answer {
        number: r.into(),
        ..Answer::none(end)
    }
}

// That of one that was done.
fn done(values: [u64; 4], end: End) -> Answer
    ensures { result ≡ answer_of 0 values 0 end }
{
    Answer {
        values,
        ..Answer::none(end)
    }
}

fn started(e: End) -> Answer
    ensures { result ≡ start_answer (start_of e.role) }
{
    Answer::none(smp::start(e.role))
}

fn opened(mut e: End, packet: &mut [u8]) -> Answer
    ensures value { result ≡ open_answer (open_of base e (length packet.old)) }
    ensures packet_after { packet.new ≡ onto (open_packet base e (length packet.old)) packet.old }
{
    match smp::open(&mut e, packet) {
        Ok(o) => done([u64::from(o.sid), o.length as u64, 0, 0], e),
        Err(r) => refused(r, e),
    }
}

fn closed(mut e: End, sid: u16, packet: &mut [u8]) -> Answer
    ensures value { result ≡ close_answer (close_of base e sid (length packet.old)) }
    ensures packet_after { packet.new ≡ onto (close_packet base e sid (length packet.old)) packet.old }
{
    match smp::close(&mut e, sid, packet) {
        Ok(n) => done([n as u64, 0, 0, 0], e),
        Err(r) => refused(r, e),
    }
}

fn stopped(mut e: End) -> Answer
    ensures { result ≡ shutdown_answer (shutdown_of base e) }
{
    match smp::shutdown(&mut e) {
        Ok(()) => Answer::none(e),
        Err(r) => refused(r, e),
    }
}

// The five values: the number, and what the last call's answer gives beside it.
fn five(answer: &Answer) -> [u64; 5]
    ensures { result ≡ answer.now.number ∷ answer.now.values }
{
    let [a, b, c, d] = answer.values;
    [u64::from(answer.number), a, b, c, d]
}

// Makes the call that a number names on the end that some words hold: start 0, open 1, send 2, read 3, close 4, shutdown 5, else take; send, read
// and take count times. The words become those of the record that comes back, `values` the last answer's; the buffers are as the calls leave them.
// The answer is the sum of numbers and lengths over the sends, reads or takes, and 0 for another call.
#[tactic(auto, unfolding(crate::specs::Call::bench_of, crate::specs::Call::left_by))]
#[unsafe(no_mangle)]
pub extern "C" fn bench_call(
    call: u32,
    sid: u16,
    words: &mut [u32],
    bytes: &[u8],
    storage: &mut [u8],
    out: &mut [u8],
    ack: &mut [u8],
    values: &mut [u64; 5],
    count: usize,
    last: u16,
    step: u16,
) -> u64
    ensures { BenchPromise
        (bench_of call sid words.old bytes.now storage.old out.old ack.old count last step)
        words.old result values.new words.new storage.new out.new ack.new }
{
    let turns = Turns { sid, last, step };
    let e = end_of(words);
    let answer = match call {
        0 => started(e),
        1 => opened(e, out),
        2 => sends(e, turns, bytes, out, count),
        3 => reads(e, turns, storage, out, ack, count),
        4 => closed(e, sid, out),
        5 => stopped(e),
        _ => takes(e, bytes, storage, count),
    };
    put_end(words, answer.end);
    *values = five(&answer);
    answer.sum
}
