// Which limits stand in the way.
ghost use Rattle.std.specs.Prelude.{◌≡◌, ◌≤◌, length, IfOk};
ghost use Rattle.relaxations.specs.Cores.{are_standing, clash_in, stands_in};

use scut_base::{Items, Lit, NoMemory};
use std::alloc::Global;
use totalizer::Bound;

// For each of so many objectives, whether its limit stands in the way: where its denial is one of the core's
// literals, or where it can't be denied at all. Those that weren't asked for don't.
pub(crate) fn standing(
    alloc: Global,
    excesses: &[Bound],
    core: &[Lit],
    objectives: usize,
) -> Result<Items<bool>, NoMemory>
    requires { length excesses.now ≤ objectives }
    ensures { IfOk result (λ stands. stands ≡ are_standing excesses.now core.now objectives) }
{
    let mut stands = Items::with_capacity(alloc, objectives)?;
    for excess in excesses {
        stands.push(is_standing(*excess, core))?;
    }
    for _rest in excesses.len()..objectives {
        stands.push(false)?;
    }
    Ok(stands)
}

// The same where the last excess can't be denied: by itself, or beside another one's literal.
pub(crate) fn clashing(
    alloc: Global,
    excesses: &[Bound],
    last: Bound,
    objectives: usize,
) -> Result<Items<bool>, NoMemory>
    requires { length excesses.now ≤ objectives }
    ensures { IfOk result
        (λ stands. stands ≡ are_standing excesses.now (clash_in last) objectives) }
{
    match last {
        Bound::At { lit, .. } => standing(alloc, excesses, &[lit, lit.not()], objectives),
        _ => standing(alloc, excesses, &[], objectives),
    }
}

// Whether the limit of this excess stands in a core.
fn is_standing(excess: Bound, core: &[Lit]) -> bool
    ensures { result ≡ stands_in excess core.now }
{
    match excess {
        Bound::Always { .. } => true,
        Bound::Never => false,
        Bound::At { lit, .. } => core.contains(&lit.not()),
    }
}
