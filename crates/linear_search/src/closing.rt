// Whether literals may be assumed.
ghost use Rattle.std.specs.Prelude.{IsTrue};
ghost use Rattle.oracle.specs.Solving.{AreAssumptions};

use scut_base::Lit;

// Whether the variables of the literals rise, from 1 up to this one.
pub(crate) fn may_be_assumed(lits: &[Lit], vars: u64) -> bool
    ensures { IsTrue result → AreAssumptions vars lits.now }
{
    let mut last = 0;
    for lit in lits {
        let var = lit.var();
        if var <= last || vars < var {
            return false;
        }
        last = var;
    }
    true
}
