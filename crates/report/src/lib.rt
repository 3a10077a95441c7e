// The report's lines: from numbers and a frame's bytes to characters. Nothing here knows of ends or calls. Each function that writes does so behind
// the text that its writer has so far.
#![tactic(auto)]

ghost use Rattle.std.specs.Prelude.{◌≡◌, ◌+◌, ◌≤◌, length};
ghost use Rattle.text.specs.Writing.{Written};
ghost use Rattle.report.specs.Rows.{bad_text, end_row};
ghost use Rattle.report.specs.Lines.{line_limit, row_limit, last_limit, line_of, told_row, line_row};

use text::line::LF;
use text::writer::Writer;

mod word;

// What is told of a frame: take's answer, the frame's SID in four characters, and that session's unread packets.
#[derive(Clone, Copy)]
pub struct Told {
    answer: u8,
    sid: [u8; 4],
    unread: u32,
}

// What a line tells: that the input's line is no frame, or what is told of its frame.
#[derive(Clone, Copy)]
pub enum Line {
    Bad,
    Frame(Told),
}

impl Line {
    // What is told of a frame: take's answer, the frame's SID in four digits (dashes where it is shorter than a header), the unread packets. The
    // frame is only read.
    pub fn of(answer: u8, frame: &[u8], unread: u32) -> Line
        ensures { result ≡ line_of answer frame.now unread }
    {
        Line::Frame(Told {
            answer: answer,
            sid: word::sid(frame),
            unread: unread,
        })
    }
}

// Writes the line of an input line that is no frame: its number, and `bad`.
#[tactic(auto, using(crate::proofs::Rows::most_five, crate::proofs::Rows::bad_length))]
fn bad_row(w: &mut Writer, n: u32)
    requires { (n ≤ line_limit) × (w.old.at + row_limit ≤ length w.old.out.now) }
    ensures wrote { Written w.old (bad_text n) w.new }
    ensures n_len_bound { length (bad_text n) ≤ row_limit }
{
    w.number(n);
    word::put(w, b"bad");
    w.byte(LF);
}

// Writes the line of a frame: its number, and what is told of it.
#[tactic(auto, using(crate::proofs::Rows::most_three, crate::proofs::Rows::most_five, text::proofs::Decimals::most_ten, crate::proofs::Rows::told_length))]
fn told_row(w: &mut Writer, n: u32, t: Told)
    requires { (n ≤ line_limit) × (w.old.at + row_limit ≤ length w.old.out.now) }
    ensures wrote { Written w.old (told_row n t) w.new }
    ensures l_len_bound { length (told_row n t) ≤ row_limit }
{
    w.number(n);
    word::number(w, t.answer as u32);
    word::put(w, &t.sid);
    word::number(w, t.unread);
    w.byte(LF);
}

// Writes line n of the report, with its LF: the number n, and what `l` tells. 26 bytes are room enough for any line of a report.
pub fn line_row(w: &mut Writer, n: u32, l: Line)
    requires { (n ≤ line_limit) × (w.old.at + row_limit ≤ length w.old.out.now) }
    ensures wrote { Written w.old (line_row n l) w.new }
    ensures l_len_bound { length (line_row n l) ≤ row_limit }
{
    match l {
        Line::Bad => bad_row(w, n),
        Line::Frame(t) => told_row(w, n, t),
    }
}

// Writes the report's last line, with its LF: the end is up or down, and so many sessions are held. 20 bytes are room enough.
#[tactic(auto, using(text::proofs::Decimals::most_ten, crate::proofs::Rows::last_length))]
pub fn last_row(w: &mut Writer, up: bool, held: u32)
    requires { w.old.at + last_limit ≤ length w.old.out.now }
    ensures wrote { Written w.old (end_row up held) w.new }
    ensures held_len_bound { length (end_row up held) ≤ last_limit }
{
    w.bytes(b"end");
    word::put(w, word::state(up));
    word::number(w, held);
    w.byte(LF);
}
