// An end as words: role, up, then eleven words for each slot: state, SID, S, H, R, G, L and the four lengths. A word too wide for its field is cut,
// a word that isn't there is 0.
#![tactic(auto)]

ghost use Rattle.std.specs.Prelude.{◌<◌, ◌≤◌, ◌+◌, ◌≡◌, length};
ghost use Rattle.std.proofs.lemmas.List.Edits.{sets};
ghost use Rattle.table.specs.End.{slot_count};
ghost use Rattle.crossing.specs.Crossing.{word_at, short_of, role_of, state_of, slot_at, session_from, end_from};
ghost use Rattle.crossing.specs.Crossing.{session_words, words_of, over};

use session::record::{Session, State};
use std::array;
use table::end::{End, Role};

const SLOT: usize = 11;

// The word at an index.
fn word(w: &[u32], i: usize) -> u32
    ensures { result ≡ word_at w.now i }
{
    w.get(i).copied().unwrap_or(0)
}

// A word in a field of sixteen bits.
fn short(x: u32) -> u16
    ensures { result ≡ short_of x }
{
    (x & 0xffff) as u16
}

// Any word is a role, since C hands them in.
fn role_of(x: u32) -> Role
    ensures { result ≡ role_of x }
{
    if x == 0 { Role::Client } else { Role::Server }
}

// Any word is a state, since C hands them in.
fn state_of(x: u32) -> State
    ensures { result ≡ state_of x }
{
    match x {
        0 => State::Closed,
        1 => State::Established,
        2 => State::FinSent,
        _ => State::FinReceived,
    }
}

// The record in a slot's words.
#[tactic(auto, unfolding(crate::specs::Crossing::session_from))]
fn session_of(w: &[u32], i: usize) -> Session
    requires { i < slot_count }
    ensures { result ≡ session_from w.now i }
{
    let field = |k| word(w, 2 + SLOT * i + k);
    Session {
        state: state_of(field(0)),
        sid: short(field(1)),
        s: field(2),
        h: field(3),
        r: field(4),
        g: field(5),
        l: field(6),
        lens: [
            short(field(7)),
            short(field(8)),
            short(field(9)),
            short(field(10)),
        ],
    }
}

// The end that some words hold. Words past those of an end aren't looked at.
pub fn end_of(w: &[u32]) -> End
    ensures { result ≡ end_from w.now }
{
    End {
        role: role_of(word(w, 0)),
        up: word(w, 1) != 0,
        slots: array::from_fn(|i| session_of(w, i)),
    }
}

// A record's words.
#[tactic(auto, unfolding(crate::specs::Crossing::session_words))]
fn words_of(x: Session) -> [u32; SLOT]
    ensures { result ≡ session_words x }
{
    let [a, b, c, d] = x.lens.map(u32::from);
    [
        x.state as u32,
        u32::from(x.sid),
        x.s,
        x.h,
        x.r,
        x.g,
        x.l,
        a,
        b,
        c,
        d,
    ]
}

// Puts words over those of `w`, from one on; what `w` has no room for isn't put.
#[tactic(auto, using(crate::proofs::Words::sets_on, crate::proofs::Words::sets_end, crate::proofs::Words::put_past))]
fn put(w: &mut [u32], at: usize, words: &[u32])
    requires { at + length words.now ≤ slot_at slot_count }
    ensures { w.new ≡ sets w.old at words.now }
{
    for (k, x) in words.iter().enumerate() {
        if at + k < w.len() {
            w[at + k] = *x;
        }
    }
}

// Puts an end's words over those in `w`, from the first on. Words past those of an end stay; what `w` has no room for isn't put.
#[tactic(auto, using(crate::proofs::Words::slots_on, crate::proofs::Words::slots_end, crate::proofs::Words::end_words))]
pub fn put_end(w: &mut [u32], e: End)
    ensures { w.new ≡ over (words_of e) w.old }
{
    put(w, 0, &[e.role as u32, u32::from(e.up)]);
    for (i, x) in e.slots.iter().enumerate() {
        put(w, 2 + SLOT * i, &words_of(*x));
    }
}
