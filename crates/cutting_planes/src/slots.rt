// Slots for the terms of a sum: in rising order of variables, with coefficients that may be 0.
ghost use Rattle.std.specs.Prelude.{◌≡◌, ◌+◌, ◌≤◌, ◌^◌, ◌∷◌, [], Bool, List, All, IfOk, IfSome};
ghost use Rattle.pb_lin.specs.Constraint.{term_value, total};
ghost use Rattle.cutting_planes.specs.Rules.{multiplied};
ghost use Rattle.cutting_planes.specs.Slots.{AreAdded, AreSlots};

use crate::operand::Operand;
use crate::weaken::place_of;
use scut_base::{Lit, NoMemory};
use std::alloc::Global;

// A slot for each variable of the literals, which stand in rising order of variables, and may repeat;
// a literal that stands after one of a higher variable gets none.
pub(crate) fn empty_slots(alloc: Global, literals: &[Lit]) -> Result<Vec<(Lit, u128)>, NoMemory>
    ensures slots { IfOk result (λ slots. AreSlots slots.items) }
    ensures empty { IfOk result (λ slots. All (λ t. t.1 ≡ 0) slots.items) }
{
    let (mut slots, mut last) = (Vec::new(alloc), 0);
    for lit in literals {
        let var = lit.var();
        if last < var {
            slots.push((*lit, 0))?;
            last = var;
        }
    }
    Ok(slots)
}

// Adds so many times the constraint's terms, and gives what their coefficients are together and how
// much cancels; or nothing where a variable has no slot, with some of the terms added.
pub(crate) fn add_multiple(
    slots: &mut [(Lit, u128)],
    c: &Operand,
    factor: u128,
) -> Option<(u128, u128)>
    requires slots { AreSlots slots.old }
    requires small { total slots.old + total (multiplied factor c.now).terms ≤ 2 ^ 100 }
    ensures total { IfSome result (λ r. r.0 ≡ total (multiplied factor c.now).terms) }
    ensures added { IfSome result
        (λ r. AreAdded slots.old (multiplied factor c.now).terms slots.new r.1) }
{
    let (mut added, mut cancelled, mut near) = (0, 0, 0);
    for at in 0..c.len() {
        let (lit, coefficient) = c.term(at);
        let multiple = coefficient * factor;
        let (gone, after) = add_term(slots, (lit, multiple), near)?;
        added += multiple;
        cancelled += gone;
        near = after;
    }
    Some((added, cancelled))
}

// Adds a term, whose slot may be near, and gives how much cancels and the place after its slot; or
// nothing where its variable has no slot.
fn add_term(slots: &mut [(Lit, u128)], term: (Lit, u128), near: usize) -> Option<(u128, usize)>
    requires slots { AreSlots slots.old }
    requires small { total slots.old + term.1 ≤ 2 ^ 100 }
    ensures { IfSome result (λ r. AreAdded slots.old (term ∷ []) slots.new r.0) }
{
    let place = place_of(slots, term.0.var(), near)?;
    let (slot, cancelled) = joined(slots[place], term);
    slots[place] = slot;
    Some((cancelled, place + 1))
}

// The sum of two terms of one variable, and how much of each cancels, where their signs differ.
fn joined(one: (Lit, u128), other: (Lit, u128)) -> ((Lit, u128), u128)
    requires same { one.0.var ≡ other.0.var }
    requires small { one.1 + other.1 ≤ 2 ^ 100 }
    ensures value { (a : List Bool) → term_value a one + term_value a other
        ≡ term_value a result.0 + result.1 }
    ensures total { one.1 + other.1 ≡ result.0.1 + result.1 + result.1 }
    ensures variable { result.0.0.var ≡ one.0.var }
{
    if one.0.is_neg() == other.0.is_neg() {
        ((one.0, one.1 + other.1), 0)
    } else if other.1 <= one.1 {
        ((one.0, one.1 - other.1), other.1)
    } else {
        ((other.0, other.1 - one.1), one.1)
    }
}
