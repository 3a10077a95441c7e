// The fields of `show`: an end and its slots, each record in words.
ghost use Rattle.std.specs.Prelude.{◌≡◌};
ghost use Rattle.fields.specs.Show.{name_of, parts_of, all_zeros, slot, end};

use crate::answer::Answer;
use session::record::Session;
use table::end::{End, Role};

// ROLE UP, then a field for each slot that isn't all zeros, the lowest first.
pub fn end(answer: &mut Answer, e: End)
    ensures { answer.new ≡ end e answer.old }
{
    answer.word(name(e.role));
    answer.number(u32::from(e.up));
    for (i, x) in e.slots.iter().enumerate() {
        slot(answer, i as u32, *x);
    }
}

fn name(role: Role) -> &'static [u8]
    ensures { result.now ≡ name_of role }
{
    match role {
        Role::Client => b"client",
        Role::Server => b"server",
    }
}

// A field: SLOT:STATE:SID:S:H:R:G:L:L0:L1:L2:L3, and nothing for a slot that is all zeros.
fn slot(answer: &mut Answer, i: u32, x: Session)
    ensures { answer.new ≡ slot i x answer.old }
{
    let parts = parts_of(x);
    if !all_zeros(&parts) {
        answer.number(i);
        answer.each(b':', &parts);
    }
}

fn all_zeros(parts: &[u32]) -> bool
    ensures { result ≡ all_zeros parts.now }
{
    parts.iter().all(|n| *n == 0)
}

#[tactic(auto, unfolding(crate::specs::Show::parts_of))]
fn parts_of(x: Session) -> [u32; 11]
    ensures { result ≡ parts_of x }
{
    let [l0, l1, l2, l3] = x.lens.map(u32::from);
    [
        x.state as u32,
        u32::from(x.sid),
        x.s,
        x.h,
        x.r,
        x.g,
        x.l,
        l0,
        l1,
        l2,
        l3,
    ]
}
