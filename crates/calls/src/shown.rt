// What a call's answer shows in its line: the number that comes back, and what the call gives; zeros where it gives nothing.
ghost use Rattle.std.specs.Prelude.{◌≡◌, IfOk, IfErr};
ghost use Rattle.cases.specs.Cases.{number_in};
ghost use Rattle.wire.specs.Packet.{flags_value};
ghost use Rattle.judge.specs.Stops.{stop_number, more_in};
ghost use Rattle.start.specs.Start.{start_says};

use smp::{End, Got, Opened, Refusal, Stop, Taken};

// Of a start, which can't be refused: the number.
pub(crate) fn started(e: &End) -> u8
    ensures { result ≡ (start_says e.now).number }
{
    let number: u8 = 0;
    number
}

// The number, and what the call gives; `none` where it is refused.
fn told<T: Copy>(went: Result<T, Refusal>, none: T) -> (u8, T)
    ensures number { result.0 ≡ number_in went }
    ensures done { IfOk went (λ given. result.1 ≡ given) }
    ensures refused { IfErr went (λ r. result.1 ≡ none) }
{
    match went {
        Ok(given) => (0, given),
        Err(r) => (r.into(), none),
    }
}

// Of an open: the SID and the SYN's length.
pub(crate) fn opened(went: Result<Opened, Refusal>) -> (u8, Opened)
    ensures number { result.0 ≡ number_in went }
    ensures done { IfOk went (λ o. result.1 ≡ o) }
    ensures refused { IfErr went (λ r. result.1 ≡ record { sid = 0; length = 0 }) }
{
    told(went, Opened { sid: 0, length: 0 })
}

// Of a send or a close: the packet's length.
pub(crate) fn emitted(went: Result<usize, Refusal>) -> (u8, usize)
    ensures number { result.0 ≡ number_in went }
    ensures done { IfOk went (λ n. result.1 ≡ n) }
    ensures refused { IfErr went (λ r. result.1 ≡ 0) }
{
    told(went, 0)
}

// Of a read: the lengths of payload and ACK.
pub(crate) fn got(went: Result<Got, Refusal>) -> (u8, Got)
    ensures number { result.0 ≡ number_in went }
    ensures done { IfOk went (λ g. result.1 ≡ g) }
    ensures refused { IfErr went (λ r. result.1 ≡ record { payload_length = 0; ack_length = 0 }) }
{
    let none = Got {
        payload_length: 0,
        ack_length: 0,
    };
    told(went, none)
}

// Of a shutdown: nothing but the number.
pub(crate) fn stopped(went: Result<(), Refusal>) -> u8
    ensures { result ≡ number_in went }
{
    told(went, ()).0
}

// Of a take: how many bytes were the packet, its FLAGS and its SID; and 10's count.
#[derive(Clone, Copy, Debug, PartialEq, Eq)]
pub struct Shown {
    pub number: u8,
    pub used: usize,
    pub kind: u8,
    pub sid: u16,
    pub missing: usize,
}

pub(crate) fn taken(went: Result<Taken, Stop>) -> Shown
    ensures done { IfOk went (λ t. result ≡ record { number = 0; used = t.used; kind = flags_value t.kind; sid = t.sid; missing = 0 }) }
    ensures stopped { IfErr went (λ s. result ≡ record { number = stop_number s; used = 0; kind = 0; sid = 0; missing = more_in s }) }
{
    match went {
        Ok(t) => Shown {
            number: 0,
            used: t.used,
            kind: t.kind.into(),
            sid: t.sid,
            missing: 0,
        },
        Err(stop) => Shown {
            number: stop.into(),
            used: 0,
            kind: 0,
            sid: 0,
            missing: missing(stop),
        },
    }
}

// 10's count; 0 beside another number.
fn missing(stop: Stop) -> usize
    ensures { result ≡ more_in stop }
{
    if let Stop::MoreBytes(n) = stop { n } else { 0 }
}
