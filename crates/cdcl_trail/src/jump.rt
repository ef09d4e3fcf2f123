// How much of a trail stands up to a level.
ghost use Rattle.std.specs.Prelude.{◌≤◌, length, AllPairs};
ghost use Rattle.cdcl_trail.specs.SearchTrail.{IsUpTo};

use clause_prop::Trail;

/// The number of steps up to the level. Costs the steps above it, and takes no memory.
pub fn steps_up_to(trail: &Trail, level: u64) -> u64
    requires { AllPairs (λ r s. r.level ≤ s.level) trail.now.steps }
    ensures up_to { IsUpTo trail.now level result }
    ensures within { result ≤ length trail.now.steps }
{
    let mut keep = trail.len();
    while keep > 0 && trail.step_at(keep - 1).level > level {
        keep -= 1;
    }
    keep
}
