// Which line it is: its first word names it, and the words behind have to be as that name asks.
ghost use Rattle.std.specs.Prelude.{◌≡◌};
ghost use Rattle.words.specs.Forms.{asked, meets, all_meet, is_right, named, form_of};
ghost use Rattle.words.specs.Words.{word_of};

use crate::{after_first, is_bytes, limits, number, role_in, word};

// The lines by their names.
#[derive(Clone, Copy, Debug, PartialEq, Eq)]
pub enum Form {
    Start,
    Open,
    Send,
    Read,
    Close,
    Shutdown,
    Take,
    Lend,
    Record,
    End,
    Show,
    Peek,
}

// What a line asks of a word: a number up to a limit, bytes, or a role.
#[derive(Clone, Copy)]
enum Ask {
    Number(u64),
    Bytes,
    Role,
}

const SHORT: Ask = Ask::Number(limits::SHORT);

const COUNTER: Ask = Ask::Number(limits::COUNTER);

const ROOM: Ask = Ask::Number(limits::ROOM);

const STORAGE: Ask = Ask::Number(limits::STORAGE);

// SLOT STATE SID S H R G L L0 L1 L2 L3
const RECORD: [Ask; 12] = [
    Ask::Number(limits::SLOT),
    Ask::Number(limits::STATE),
    SHORT,
    COUNTER,
    COUNTER,
    COUNTER,
    COUNTER,
    COUNTER,
    SHORT,
    SHORT,
    SHORT,
    SHORT,
];

impl Form {
    // What the line asks of the words behind its name, in their order.
    fn asked(self) -> &'static [Ask]
        ensures { result.now ≡ asked self }
    {
        match self {
            Form::Start => &[Ask::Role],
            Form::Open => &[ROOM],
            Form::Send => &[SHORT, Ask::Bytes, ROOM],
            Form::Read => &[SHORT, ROOM, ROOM],
            Form::Close => &[SHORT, ROOM],
            Form::Take => &[Ask::Bytes],
            Form::Lend => &[STORAGE],
            Form::Record => &RECORD,
            Form::End => &[Ask::Role, Ask::Number(1)],
            Form::Peek => &[STORAGE, Ask::Number(limits::PEEK)],
            Form::Shutdown | Form::Show => &[],
        }
    }
}

impl Ask {
    // Whether a word is as asked.
    fn met(self, chars: &[u8]) -> bool
        ensures { result ≡ meets self chars.now }
    {
        match self {
            Ask::Number(most) => number(chars).is_some_and(|n| n <= most),
            Ask::Bytes => is_bytes(chars),
            Ask::Role => role_in(chars).is_some(),
        }
    }
}

// Whether each word behind the first is as asked in its place.
fn all_met(line: &[u8], asked: &[Ask]) -> bool
    ensures { result ≡ all_meet line.now asked.now }
{
    asked
        .iter()
        .enumerate()
        .all(|(i, ask)| ask.met(word(line, i + 1)))
}

// Whether the words behind the first are as many and as the form asks.
fn is_right(line: &[u8], form: Form) -> bool
    ensures { result ≡ is_right line.now form }
{
    let asked = form.asked();
    after_first(line) == asked.len() && all_met(line, asked)
}

// The form that a first word names.
#[tactic(auto, using(std::proofs::lemmas::Slice::Eq::text_from_reads))]
fn named(name: &[u8]) -> Option<Form>
    ensures { result ≡ named name.now }
{
    match name {
        b"start" => Some(Form::Start),
        b"open" => Some(Form::Open),
        b"send" => Some(Form::Send),
        b"read" => Some(Form::Read),
        b"close" => Some(Form::Close),
        b"shutdown" => Some(Form::Shutdown),
        b"take" => Some(Form::Take),
        b"lend" => Some(Form::Lend),
        b"record" => Some(Form::Record),
        b"end" => Some(Form::End),
        b"show" => Some(Form::Show),
        b"peek" => Some(Form::Peek),
        _ => None,
    }
}

// The form that the line's first word names, if the words behind it are as many and as that name asks. The line is only read.
pub fn form_of(line: &[u8]) -> Option<Form>
    ensures { result ≡ form_of line.now }
{
    named(word(line, 0)).filter(|form| is_right(line, *form))
}
