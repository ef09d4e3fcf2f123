// The variables that wait to be decided.
ghost use Rattle.std.specs.Prelude.{◌≡◌, ◌<◌, ◌≤◌, length, All};
ghost use Rattle.clause_prop.specs.Steps.{cut};
ghost use Rattle.cdcl_state.specs.Order.{SameWait};
ghost use Rattle.cdcl_state.specs.Searching.{IsOrderFor};

use crate::order::VariableOrder;
use clause_prop::Trail;
use scut_base::Lit;

/// Lets the variables of the steps from `keep` on wait again. Costs these steps.
pub(crate) fn put_back(order: &mut VariableOrder, trail: &Trail, keep: u64)
    requires { IsOrderFor order.old trail.now }
    ensures { IsOrderFor order.new (cut trail.now keep) }
{
    for place in keep..trail.len() {
        order.put_back(trail.step_at(place).lit);
    }
}

/// Makes the variables of the literals more active.
pub(crate) fn bump_all(order: &mut VariableOrder, lits: &[Lit])
    requires { All (λ l. (0 < l.var) × (l.var ≤ length order.old.activities)) lits.now }
    ensures waiting { SameWait order.old order.new }
    ensures vars { length order.new.activities ≡ length order.old.activities }
{
    for lit in lits {
        order.bump(lit.var());
    }
}
