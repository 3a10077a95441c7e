// Faults (document 01, "Numbers that come back"): the peer broke the protocol, and the end is down.
ghost use Rattle.std.specs.Prelude.{◌≡◌};
ghost use Rattle.cases.specs.Cases.{fault_number};

// Each with its number.
#[derive(Clone, Copy, Debug, PartialEq, Eq)]
pub enum Fault {
    Smid = 20,
    Flags = 21,
    Length = 22,
    UnknownSid = 23,
    SynAtClient = 24,
    SynForHeldSid = 25,
    SynNoFreeSlot = 26,
    SynNotFresh = 27,
    Wndw = 28,
    Seqnum = 29,
    AfterFin = 30,
}

impl From<Fault> for u8 {
    ghost from_gives = { λ f n. n ≡ fault_number f };

    // The fault's number.
    fn from(f: Fault) -> u8 {
        f as u8
    }
}
