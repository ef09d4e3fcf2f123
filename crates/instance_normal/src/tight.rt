// The model of a problem that stands for a model of the instance.
ghost use Rattle.std.specs.Prelude.{◌≡◌, ◌≤◌, ◌<◌, ◌^◌, ◌++◌, not, length, map, take, All, IfOk, OnOk};
ghost use Rattle.std.specs.List.{filter};
ghost use Rattle.front_set.specs.Vector.{IsBelow};
ghost use Rattle.instance.specs.Shape.{ClauseUpTo};
ghost use Rattle.instance.specs.Meaning.{clause_true, costs_of};
ghost use Rattle.instance.specs.ParetoFront.{problem_vector};
ghost use Rattle.pb_lin.specs.Problem.{IsProblemModel, problem_costs};
ghost use Rattle.instance_normal.specs.NormalForm.{IsNormalFormOf, is_relaxed};
ghost use Rattle.instance_normal.specs.Tightened.{tightened};

use crate::soft::is_relaxed;
use instance::{Instance, Soft};
use pb_lin::PbProblem;
use scut_base::{Assignment, Lit, NoMemory};
use std::alloc::Global;

/// From an assignment whose first values are a model of the normal form, the model that has the same
/// values of the instance's variables, and each relaxation variable true exactly where its soft clause is
/// false. It costs what the instance's model costs, and no more than the given one. Takes one pass over
/// the soft clauses, with a sort of a copy of each, and one over the values. The error is that memory
/// ran out.
pub fn tighten(
    alloc: Global,
    problem: &PbProblem,
    inst: &Instance,
    a: &Assignment,
) -> Result<Assignment, NoMemory>
    requires normal { IsNormalFormOf inst.now problem.now }
    requires long { problem.now.vars ≤ length a.now }
    requires model { IsProblemModel problem.now (take problem.now.vars a.now) }
    ensures value { IfOk result (λ b. b ≡ tightened inst.now (take inst.now.vars a.now)) }
    ensures model { IfOk result (IsProblemModel problem.now) }
    ensures costs { IfOk result (λ b. problem_costs problem.now b
        ≡ problem_vector inst.now (costs_of inst.now (take inst.now.vars a.now))) }
    ensures below { IfOk result (λ b. IsBelow (problem_costs problem.now b)
        (problem_costs problem.now (take problem.now.vars a.now))) }
{
    let _within_limits = inst.vars();
    let values = tight_values(alloc, problem.vars(), inst, a)?;
    assigned(alloc, values.as_slice())
}

// The values of the instance's variables, and then those of the relaxation variables. Memory is taken
// once for as many as are expected.
fn tight_values(
    alloc: Global,
    expected: u64,
    inst: &Instance,
    a: &Assignment,
) -> Result<Vec<bool>, NoMemory>
    requires { inst.now.vars ≤ length a.now }
    ensures { IfOk result (λ values.
        values.items ≡ tightened inst.now (take inst.now.vars a.now)) }
{
    let mut values = Vec::with_capacity(alloc, expected as usize)?;
    values.extend_from_slice(&a.as_slice()[..inst.vars() as usize])?;
    for objective in inst.objectives.as_slice() {
        add_falsities(alloc, objective.softs.as_slice(), a, &mut values)?;
    }
    Ok(values)
}

// Adds, for each soft clause that needs a relaxation variable, whether it is false.
fn add_falsities(
    alloc: Global,
    softs: &[Soft],
    a: &Assignment,
    values: &mut Vec<bool>,
) -> Result<(), NoMemory>
    requires { All (λ s. ClauseUpTo (length a.now) s.lits) softs.now }
    ensures { OnOk result (values.new.items
        ≡ values.old.items ++ map (λ s. not (clause_true a.now s.lits))
        (filter is_relaxed softs.now)) }
{
    for soft in softs {
        if is_relaxed(alloc, soft)? {
            values.push(!clause_true(soft.lits.as_slice(), a))?;
        }
    }
    Ok(())
}

// Whether a literal of the clause is true.
fn clause_true(lits: &[Lit], a: &Assignment) -> bool
    requires { ClauseUpTo (length a.now) lits.now }
    ensures { result ≡ clause_true a.now lits.now }
{
    lits.iter().any(|lit| a.value(*lit))
}

// The assignment of these values.
fn assigned(alloc: Global, values: &[bool]) -> Result<Assignment, NoMemory>
    requires { length values.now < 2 ^ 63 }
    ensures { IfOk result (λ b. b ≡ values.now) }
{
    let mut b = Assignment::new(alloc, values.len() as u64)?;
    let mut var = 0;
    for value in values {
        var += 1;
        b.set(Lit::new(var, !*value));
    }
    Ok(b)
}
