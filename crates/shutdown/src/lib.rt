// Shutdown: the end is down.
#![tactic(auto)]

ghost use Rattle.shutdown.specs.Shutdown.{shutdown_says, ShutdownPromise};

use cases::refusal::Refusal;
use decide::may_shutdown;
use scan::scan;
use table::end::End;

pub mod decide;

// Takes the end down, as when the transport is gone: its role stays, every slot is free, and every call but start answers 1. A refusal, 12 or 1, changes
// nothing.
#[tactic(auto, unfolding(cases::specs::Cases::first, scan::specs::Look::look_of, crate::specs::Shutdown::shutdown_number, crate::specs::Shutdown::shutdown_of))]
pub fn shutdown(e: &mut End) -> Result<(), Refusal>
    ensures { ShutdownPromise e.old (shutdown_says result e.new) }
{
    scan(e, 0)?;
    may_shutdown(e.up)?;
    *e = e.down();
    Ok(())
}
