// SIDs held against each other: the look that scan takes where two may be the same.
#![tactic(auto)]

ghost use Rattle.std.specs.Prelude.{◌≡◌};
ghost use Rattle.table.specs.Well.{sids_differ};

use table::end::{End, holds};

// Whether the SIDs in use differ: each slot is held against the later ones.
#[tactic(auto, unfolding(table::specs::Well::sids_differ))]
pub fn sids_differ(e: &End) -> bool
    ensures { result ≡ sids_differ e.now.slots }
{
    let mut slots = &e.slots[..];
    while let Some((x, later)) = slots.split_first() {
        if x.state.in_use() && holds(later, x.sid) {
            return false;
        }
        slots = later;
    }
    true
}
