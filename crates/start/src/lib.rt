// Start: an end that is up, all slots free.
#![tactic(auto)]

ghost use Rattle.start.specs.Start.{start_says, StartPromise};

use table::end::{End, Role};

// Makes an end with that role: up, all sixteen slots free. It is lent nothing, and can't refuse.
pub fn start(role: Role) -> End
    ensures { StartPromise role (start_says result) }
{
    End::start(role)
}
