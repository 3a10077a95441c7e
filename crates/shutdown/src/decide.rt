// What shutdown decides from whether the end is up.
ghost use Rattle.std.specs.Prelude.{◌≡◌, true};
ghost use Rattle.cases.specs.Cases.{first, number_in};
ghost use Rattle.shutdown.specs.Shutdown.{shutdown_cases};

use cases::refusal::Refusal;

// Shutdown's refusal in a well-made end: 1 down already.
#[tactic(auto, unfolding(cases::specs::Cases::first))]
pub fn may_shutdown(up: bool) -> Result<(), Refusal>
    ensures { number_in result ≡ first (shutdown_cases true up) }
{
    if !up {
        return Err(Refusal::Down);
    }
    Ok(())
}
