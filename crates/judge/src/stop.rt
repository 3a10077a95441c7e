// Why take stops: a refusal, too few bytes, or a fault.
ghost use Rattle.std.specs.Prelude.{◌≡◌};
ghost use Rattle.judge.specs.Stops.{stop_number};
ghost use Rattle.judge.specs.declared.stop.Stop as stop;

use cases::fault::Fault;
use cases::refusal::Refusal;

#[derive(Clone, Copy, Debug, PartialEq, Eq)]
pub enum Stop {
    // 12, 1, 9: the end and the storage stay as they were.
    Refused(Refusal),
    // 10: so do they, and so many more bytes are needed to go on.
    MoreBytes(usize),
    // 20 to 30: the end is down.
    Fault(Fault),
}

impl From<Refusal> for Stop {
    ghost from_gives = { λ r s. s ≡ stop.Stop.Refused r };

    fn from(refusal: Refusal) -> Stop {
        Stop::Refused(refusal)
    }
}

impl From<Fault> for Stop {
    ghost from_gives = { λ f s. s ≡ stop.Stop.Fault f };

    fn from(fault: Fault) -> Stop {
        Stop::Fault(fault)
    }
}

impl From<Stop> for u8 {
    ghost from_gives = { λ s n. n ≡ stop_number s };

    // The number that comes back.
    fn from(s: Stop) -> u8 {
        match s {
            Stop::Refused(r) => r.into(),
            Stop::MoreBytes(_) => 10,
            Stop::Fault(f) => f.into(),
        }
    }
}
