// How many levels a learned clause joins.
ghost use Rattle.std.specs.Prelude.{◌≤◌, All, IfOk};
ghost use Rattle.cdcl_core.specs.Levels.{AreLevels, IsLevelCount};

use cdcl_state::Search;
use clause_prop::Propagator;
use scut_base::{Lit, NoMemory};
use std::alloc::Global;

/// The number of levels among the literals: the fewer there are, the more useful is a learned clause
/// (Audemard and Simon 2009).
pub(crate) fn block_distance<P: Propagator + Drop>(
    alloc: Global,
    search: &Search<P>,
    lits: &[Lit],
) -> Result<u64, NoMemory>
    requires { All (λ l. l.var ≤ search.now.trail.vars) lits.now }
    ensures { IfOk result (IsLevelCount search.now.trail lits.now) }
{
    let mut levels = levels_of(alloc, search, lits)?;
    levels.sort_unstable();
    levels.dedup();
    Ok(levels.len() as u64)
}

// The levels of the literals' steps, some more than once.
fn levels_of<P: Propagator + Drop>(
    alloc: Global,
    search: &Search<P>,
    lits: &[Lit],
) -> Result<Vec<u64>, NoMemory>
    requires { All (λ l. l.var ≤ search.now.trail.vars) lits.now }
    ensures { IfOk result (λ levels. AreLevels search.now.trail lits.now levels.items) }
{
    // Tells that no two steps are of one variable.
    let _level = search.level();
    let mut levels = Vec::with_capacity(alloc, lits.len())?;
    for lit in lits {
        if let Some(level) = search.level_of(*lit) {
            levels.push(level)?;
        }
    }
    Ok(levels)
}
