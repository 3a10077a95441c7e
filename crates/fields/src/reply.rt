// The answer line of each call, and of the program's own lines: its fields, put behind what stands in the line.
ghost use Rattle.std.specs.Prelude.{◌≡◌};
ghost use Rattle.fields.specs.Answer.{number};
ghost use Rattle.fields.specs.Reply.{marked, packet, sent, opened, got, few, taken, ok, bad, peeked};

use crate::answer::Answer;
use crate::rooms::{front, touched};
use words::limits;

// NUMBER, of start and shutdown.
pub fn done(answer: &mut Answer, n: u8)
    ensures { answer.new ≡ number n answer.old }
{
    answer.number(u32::from(n));
}

// NUMBER PACKET, of send and close. PACKET is the first `length` bytes of the room that the call was lent; ` touched` follows if the call wrote into
// the room where it mustn't.
pub fn sent(answer: &mut Answer, n: u8, length: usize, room: &[u8])
    ensures { answer.new ≡ sent n length room.now answer.old }
{
    done(answer, n);
    packet(answer, n, length, room);
}

// NUMBER SID PACKET, of open. PACKET is as in `sent`.
pub fn opened(answer: &mut Answer, n: u8, sid: u16, length: usize, room: &[u8])
    ensures { answer.new ≡ opened n sid length room.now answer.old }
{
    done(answer, n);
    answer.number(u32::from(sid));
    packet(answer, n, length, room);
}

fn packet(answer: &mut Answer, n: u8, length: usize, room: &[u8])
    ensures { answer.new ≡ packet n length room.now answer.old }
{
    answer.bytes(front(room, length));
    mark(answer, touched(n, length, room));
}

// NUMBER PAYLOAD ACK, of read. PAYLOAD is the first `length` bytes of `room`, ACK the first `second` of `ack`; ` touched` follows if the call wrote
// into either where it mustn't.
pub fn got(answer: &mut Answer, n: u8, length: usize, room: &[u8], second: usize, ack: &[u8])
    ensures { answer.new ≡ got n length room.now second ack.now answer.old }
{
    done(answer, n);
    answer.bytes(front(room, length));
    answer.bytes(front(ack, second));
    mark(answer, touched(n, length, room) || touched(n, second, ack));
}

// The last field, where a room was touched.
fn mark(answer: &mut Answer, is_touched: bool)
    ensures { answer.new ≡ marked is_touched answer.old }
{
    if is_touched {
        answer.word(b"touched");
    }
}

// NUMBER USED KIND SID MISSING, of take.
pub fn taken(answer: &mut Answer, n: u8, used: usize, kind: u8, sid: u16, missing: usize)
    ensures { answer.new ≡ taken n used kind sid missing answer.old }
{
    done(answer, n);
    let rest = [few(used), u32::from(kind), u32::from(sid), few(missing)];
    answer.each(b' ', &rest);
}

// A count of bytes as 32 bits. It is never over 2^32 - 1; a larger one would be 0.
fn few(n: usize) -> u32
    ensures { result ≡ few n }
{
    u32::try_from(n).unwrap_or(0)
}

// The answer to lend, record and end.
pub fn ok(answer: &mut Answer)
    ensures { answer.new ≡ ok answer.old }
{
    answer.word(b"ok");
}

// The answer to a line that is none of the program's.
pub fn bad(answer: &mut Answer)
    ensures { answer.new ≡ bad answer.old }
{
    answer.word(b"bad");
}

// BYTES, of peek: the bytes that the line asks for of the storage, `bad` where it ends before. (By itself, since LLVM must know that the line and the
// storage are apart; else it goes character by character.)
#[inline(never)]
pub fn peeked(answer: &mut Answer, line: &[u8], storage: &[u8])
    ensures { answer.new ≡ peeked line.now storage.now answer.old }
{
    let at = words::value(line, 1, limits::STORAGE) as usize;
    let n = words::value(line, 2, limits::PEEK) as usize;
    match storage.get(at..at + n) {
        Some(bytes) => answer.bytes(bytes),
        None => bad(answer),
    }
}
