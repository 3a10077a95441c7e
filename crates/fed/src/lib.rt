// One line of the input: judged, and fed to the server if it is a frame.
#![tactic(auto)]

ghost use Rattle.std.specs.Prelude.{◌≡◌, option_copied};
ghost use Rattle.table.specs.Limits.{base};
ghost use Rattle.take.specs.Take.{take_storage};
ghost use Rattle.fed.specs.Line.{is_frame, unread_for, end_taken, end_after};
ghost use Rattle.fed.specs.Parts.{frame_of, frame_told, line_told, line_storage};

use report::Line;
use session::record::Session;
use table::end::End;
use table::storage;
use wire::header::Header;

// The longest frame: a header and the longest payload.
const FRAME: usize = Header::LEN + (Session::PAYLOAD as usize);

// The same as text: two digits a byte.
const DIGITS: usize = 2 * FRAME;

// How many packets of the frame's session are unread at the end e; 0 where the frame has no whole header, or e no such session.
#[tactic(auto, unfolding(crate::specs::Line::unread_for))]
fn unread_for(e: &End, frame: &[u8]) -> u32
    ensures { result ≡ unread_for e.now frame.now }
{
    if frame.len() < Header::LEN {
        return 0;
    }
    let h = Header::read(frame);
    e.unread_of(h.sid)
}

// Feeds a frame to one take of the server, which stores a payload in the storage, and counts the unread packets of the frame's session after it.
// Answers what the report tells of the frame.
fn frame_told(e: &mut End, frame: &[u8], storage: &mut [u8; storage::LENGTH]) -> Line
    ensures told { result ≡ frame_told e.old frame.now }
    ensures end_after { e.new ≡ end_taken e.old frame.now }
    ensures storage_after { storage.new ≡ take_storage base e.old frame.now storage.old }
{
    let went = take::take(e, frame, storage);
    let number = match went {
        Ok(_) => 0,
        Err(stop) => stop.into(),
    };
    let u = unread_for(e, frame);
    Line::of(number, frame, u)
}

// Whether a line is a frame: lower-case hexadecimal, of no more bytes than the longest frame has.
fn is_frame(line: &[u8]) -> bool
    ensures { result ≡ is_frame line.now }
{
    line.len() <= DIGITS && text::hex::is_hex(line)
}

// The frame that a line is, with its bytes in the room lent for them; none where the line is no frame.
#[tactic(auto, using(crate::proofs::Frames::frame_length, crate::proofs::Frames::decoded))]
fn frame_of<'a>(line: &[u8], room: &'a mut [u8; FRAME]) -> Option<&'a [u8]>
    ensures { option_copied result ≡ frame_of line.now }
{
    if !is_frame(line) {
        return None;
    }
    let k = text::hex::decode(line, room);
    Some(&room[..k])
}

// Feeds a line of the input to the server e if it is a frame: to one take, which stores a payload in the storage. Answers what the report tells of
// the line. A line that is no frame changes neither server nor storage.
#[tactic(auto, unfolding(crate::specs::Line::end_after, crate::specs::Parts::line_told, crate::specs::Parts::line_storage))]
pub fn one_line(e: &mut End, line: &[u8], storage: &mut [u8; storage::LENGTH]) -> Line
    ensures told { result ≡ line_told e.old line.now }
    ensures end_after { e.new ≡ end_after e.old line.now }
    ensures storage_after { storage.new ≡ line_storage e.old line.now storage.old }
{
    let mut room = [0u8; FRAME];
    match frame_of(line, &mut room) {
        Some(frame) => frame_told(e, frame, storage),
        None => Line::Bad,
    }
}
