// What judges a packet, before anything is written: the header at the front, the number that take gives, and what is to be done.
#![tactic(auto)]

ghost use Rattle.std.specs.Prelude.{◌≡◌, false, length, Some, is_some, is_none, IfOk, IfErr};
ghost use Rattle.cases.specs.Cases.{first, fault_in};
ghost use Rattle.wire.specs.Packet.{read_header};
ghost use Rattle.table.specs.Limits.{base};
ghost use Rattle.judge.specs.Number.{syn_cases, other_cases, take_number, missing};
ghost use Rattle.judge.specs.Stops.{stop_in, Counts};
ghost use Rattle.judge.specs.Parts.{sid_in, whole_number, seen_gate_number, seen_kind_number, Whole};
ghost use Rattle.judge.specs.Seen.{front_of, session_in, seen_number, ActAt, Decided};
ghost use Rattle.judge.specs.Act.{IsJudged};

use cases::fault::Fault;
use cases::refusal::Refusal;
use effect::cell::{Cell, cell_of};
use effect::range::{grant_in_range, seqnum_in_range, window_in_range};
use scan::{Found, Look, scan};
use session::record::{Session, State};
use stop::Stop;
use table::end::{End, Role};
use table::storage;
use wire::header::Header;
use wire::kind::Kind;

pub mod stop;

// What take does: it begins a session in a slot, or does what a cell of the table says with the session found.
#[derive(Clone, Copy, Debug, PartialEq, Eq)]
pub enum Act {
    Begin(usize),
    Do(Found, Cell),
}

// A whole packet that meets neither refusal nor fault.
#[derive(Clone, Copy, Debug, PartialEq, Eq)]
pub struct Judged {
    pub header: Header,
    pub kind: Kind,
    pub act: Act,
}

// The header in the first sixteen of some bytes, where there are so many. Later bytes aren't looked at.
pub fn front(bytes: &[u8]) -> Option<Header>
    ensures { result ≡ front_of bytes.now }
{
    if bytes.len() < Header::LEN {
        return None;
    }
    Some(Header::read(bytes))
}

// For SYN: 24, 25, 26, 27; else the slot of the new session.
#[tactic(auto, unfolding(cases::specs::Cases::first))]
fn begins(role: Role, look: Look, h: Header) -> Result<usize, Fault>
    ensures number { fault_in result ≡ first (syn_cases base role (is_some look.found) (is_none look.free) h) }
    ensures slot { IfOk result (λ i. look.free ≡ Some i) }
{
    if role == Role::Client {
        return Err(Fault::SynAtClient);
    }
    if look.found.is_some() {
        return Err(Fault::SynForHeldSid);
    }
    let slot = look.free.ok_or(Fault::SynNoFreeSlot)?;
    if h.seqnum != 0 || !grant_in_range(Session::HIGHEST, h.wndw) {
        return Err(Fault::SynNotFresh);
    }
    Ok(slot)
}

// For others: 23, 30, 28, 29; else the session and its slot.
#[tactic(auto, unfolding(cases::specs::Cases::first))]
fn moves(k: Kind, found: Option<Found>, h: Header) -> Result<Found, Fault>
    ensures number { fault_in result ≡ first (other_cases base k (is_some found) (session_in found) h) }
    ensures found { IfOk result (λ f. found ≡ Some f) }
{
    let found = found.ok_or(Fault::UnknownSid)?;
    let x = found.session;
    if x.state == State::FinReceived {
        return Err(Fault::AfterFin);
    }
    if !window_in_range(x, Session::HIGHEST, h.wndw) {
        return Err(Fault::Wndw);
    }
    if !seqnum_in_range(x, k, h.seqnum) {
        return Err(Fault::Seqnum);
    }
    Ok(found)
}

// How many bytes more are needed: of sixteen where the header isn't whole, else of its LENGTH; 0 where none is missing.
pub fn missing(bytes: &[u8]) -> usize
    ensures { result ≡ missing bytes.now }
{
    let whole = match front(bytes) {
        Some(h) => h.length as usize,
        None => Header::LEN,
    };
    whole.saturating_sub(bytes.len())
}

// 1, 9, and 10 where there are under sixteen bytes; else the header.
#[tactic(auto, unfolding(cases::specs::Cases::first, crate::specs::Parts::seen_gate_number))]
fn gate(up: bool, short: bool, bytes: &[u8]) -> Result<Header, Stop>
    ensures number { stop_in result ≡ seen_gate_number up short (length bytes.now) }
    ensures count { IfErr result (Counts (missing bytes.now)) }
    ensures header { IfOk result (λ h. h ≡ read_header bytes.now) }
    ensures room { IfOk result (λ h. short ≡ false) }
{
    if !up {
        return Err(Refusal::Down.into());
    }
    if short {
        return Err(Refusal::TooShort.into());
    }
    front(bytes).ok_or_else(|| Stop::MoreBytes(missing(bytes)))
}

// 20, 21, 22, and 10 where there are fewer bytes than LENGTH; else the packet's kind.
#[tactic(auto, using(crate::proofs::Numbers::fault_least), unfolding(cases::specs::Cases::first, wire::specs::Packet::header_number, crate::specs::Parts::whole_number))]
fn whole(h: Header, bytes: &[u8]) -> Result<Kind, Stop>
    ensures number { stop_in result ≡ whole_number h (length bytes.now) }
    ensures count { IfErr result (Counts (missing bytes.now)) }
    ensures whole { IfOk result (λ k. Whole k h (length bytes.now)) }
{
    let kind = h.shape(Session::PAYLOAD)?;
    if bytes.len() < h.length as usize {
        return Err(Stop::MoreBytes(missing(bytes)));
    }
    Ok(kind)
}

// The first fault of a whole packet of that kind; else what is to be done with it.
#[tactic(auto, unfolding(crate::specs::Parts::seen_kind_number))]
fn asked(look: Look, role: Role, kind: Kind, h: Header) -> Result<Act, Fault>
    ensures number { fault_in result ≡ seen_kind_number (Some kind) look role h }
    ensures act { IfOk result (λ a. ActAt a kind look) }
{
    match kind {
        Kind::Syn => Ok(Act::Begin(begins(role, look, h)?)),
        Kind::Ack | Kind::Fin | Kind::Data => {
            let found = moves(kind, look.found, h)?;
            Ok(Act::Do(found, cell_of(found.session.state, kind)))
        }
    }
}

// What take is to do with the packet at the front of `bytes`, or why it stops, of what was seen of a well-made end (where the SID in the packet's
// header was looked for), whether it is up, its role, and whether the storage is too short. The first number that applies: 1, 9; 10 if there are under
// sixteen bytes; 20, 21, 22; 10 if there are fewer than LENGTH; then by kind.
#[tactic(auto, using(crate::proofs::Numbers::seen_is, crate::proofs::Numbers::fault_least, crate::proofs::Numbers::stop_positive))]
pub fn decide(look: Look, up: bool, role: Role, short: bool, bytes: &[u8]) -> Result<Judged, Stop>
    ensures number { stop_in result ≡ seen_number base look up role short bytes.now }
    ensures count { IfErr result (Counts (missing bytes.now)) }
    ensures decided { IfOk result (λ j. Decided j look short bytes.now) }
{
    let header = gate(up, short, bytes)?;
    let kind = whole(header, bytes)?;
    let act = asked(look, role, kind, header)?;
    Ok(Judged { header, kind, act })
}

// The SID in the header at the front; 0 where there are under sixteen bytes.
fn sid_in(bytes: &[u8]) -> u16
    ensures { result ≡ sid_in bytes.now }
{
    front(bytes).map_or(0, |h| h.sid)
}

// What take is to do with the packet at the front of `bytes` at the end e, where it is lent a storage of so many bytes; or why it stops, the first
// number that applies: 12, 1, 9; 10 if there are under sixteen bytes; 20, 21, 22; 10 if there are fewer than LENGTH; then by kind.
#[tactic(auto, using(crate::proofs::Judging::ill_made, crate::proofs::Judging::as_seen, crate::proofs::Judging::judged))]
pub fn judge(e: &End, bytes: &[u8], room: usize) -> Result<Judged, Stop>
    ensures number { stop_in result ≡ take_number base e.now bytes.now room }
    ensures count { IfErr result (Counts (missing bytes.now)) }
    ensures judged { IfOk result (λ j. IsJudged j e.now bytes.now room) }
{
    let look = scan(e, sid_in(bytes))?;
    let short = storage::is_short(e, room);
    decide(look, e.up, e.role, short, bytes)
}
