// The front by going through all assignments.
ghost use Rattle.std.specs.Prelude.{◌≡◌, ◌≤◌, ◌+◌, ◌^◌, ℕ, length, IfOk, OnOk};
ghost use Rattle.instance.specs.ParetoFront.{IsFront};
ghost use Rattle.command_front.specs.Enumeration.{assignment_of, StandsForModels};

use front_set::{Entry, FrontSet};
use instance::{Instance, listed};
use scut_base::{Assignment, Duplicate, Lit, NoMemory};
use std::alloc::Global;

/// The front of an instance of at most 20 variables, as a list shows it. Goes through all 2^vars
/// assignments.
pub fn enumerated_front(alloc: Global, inst: &Instance) -> Result<Vec<Entry>, NoMemory>
    requires { inst.now.vars ≤ 20 }
    ensures { IfOk result (λ entries. IsFront inst.now entries.items) }
{
    let front = minimal_models(alloc, inst)?;
    listed(alloc, inst, &front)
}

// The minimal pairs of all models and their costs.
fn minimal_models(alloc: Global, inst: &Instance) -> Result<FrontSet, NoMemory>
    requires { inst.now.vars ≤ 20 }
    ensures { IfOk result (λ front. StandsForModels inst.now front (2 ^ inst.now.vars)) }
{
    let mut front = FrontSet::new(alloc);
    let mut a = Assignment::new(alloc, inst.vars())?;
    for number in 0..1u64 << inst.vars() {
        write_number(&mut a, number);
        take_model(alloc, inst, &a, &mut front)?;
    }
    Ok(front)
}

// Inserts the assignment with its costs, where it is a model.
fn take_model(
    alloc: Global,
    inst: &Instance,
    a: &Assignment,
    front: &mut FrontSet,
) -> Result<(), NoMemory>
    requires { length a.now ≡ inst.now.vars }
    ensures { OnOk result ((k : ℕ) → a.now ≡ assignment_of inst.now.vars k
        → StandsForModels inst.now front.old k → StandsForModels inst.now front.new (k + 1)) }
{
    if inst.is_model(a) {
        let costs = inst.costs(alloc, a)?;
        let vector = inst.problem_vector(alloc, &costs)?;
        let _ = front.insert(vector, a.copy(alloc)?)?;
    }
    Ok(())
}

// Gives the variables the binary digits of a number, the last digit to the first variable.
fn write_number(a: &mut Assignment, number: u64)
    requires { length a.old ≤ 20 }
    ensures { a.new ≡ assignment_of (length a.old) number }
{
    let mut rest = number;
    for at in 0..a.len() {
        a.set(Lit::new(at + 1, rest % 2 == 0));
        rest /= 2;
    }
}
