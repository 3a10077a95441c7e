// Refusals (document 01, "Numbers that come back"): the record stays as it was lent, and so does every buffer. Number 10 isn't here: it comes with a
// count, and only from take.
ghost use Rattle.std.specs.Prelude.{◌≡◌};
ghost use Rattle.cases.specs.Cases.{refusal_number};

// Each with its number.
#[derive(Clone, Copy, Debug, PartialEq, Eq)]
pub enum Refusal {
    Down = 1,
    NotAClient = 2,
    NoFreeSlot = 3,
    NoSession = 4,
    WrongState = 5,
    PayloadTooLong = 6,
    WindowClosed = 7,
    NothingToRead = 8,
    TooShort = 9,
    WriterEnded = 11,
    IllMade = 12,
}

impl From<Refusal> for u8 {
    ghost from_gives = { λ r n. n ≡ refusal_number r };

    // The refusal's number.
    fn from(r: Refusal) -> u8 {
        r as u8
    }
}
