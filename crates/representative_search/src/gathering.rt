// Gathering the models that serve a vector (DECISIONS, fresh-solver).
ghost use Rattle.std.specs.Prelude.{◌≡◌, ◌≤◌, ◌<◌, ◌^◌, length, take, All, IfOk};
ghost use Rattle.instance.specs.ParetoFront.{IsProblemVector, problem_vector};
ghost use Rattle.instance_normal.specs.NormalForm.{IsNormalFormOf};
ghost use Rattle.representative_search.specs.Further.{IsCutModel, IsFurther};
ghost use Rattle.representative_search.specs.Gathered.{IsGathered, LeavesSearch};
ghost use Rattle.representative_search.specs.Seeking.{LeavesLog};

use crate::seeking::seek_model;
use front_set::CostVec;
use front_text::Reps;
use instance::Instance;
use pb_lin::PbProblem;
use proof_rules::RecordFault;
use representatives::{bounded_model_serves, bounded_problem, ended_log_lists_all};
use scut_base::{Assignment, Items, Lit, NoMemory, Shelf};
use std::alloc::Global;

/// Up to `most` models that serve the vector, by a search on the bounded problem for each further one. Where they are fewer, they are
/// all, and the file of this name is a log that shows it: an ended proof over the bounded problem of these models, which logs nothing.
/// The log is begun anew for each model. `Failed` where the shelf failed to begin the log or to append to it, `Full` where a line was to
/// be added to 2^61, `NoMemory` where memory was refused; then the log is as it was, or a part of one over the bounded problem of some models.
pub fn gather<H: Shelf>(
    alloc: Global,
    shelf: &mut H,
    name: &str,
    inst: &Instance,
    problem: &PbProblem,
    vec: &CostVec,
    most: u64,
) -> Result<Reps, RecordFault>
    requires normal { IsNormalFormOf inst.now problem.now }
    requires vector { IsProblemVector inst.now vec.now }
    requires some { 0 < most }
    requires few { most ≤ 2 ^ 20 }
    ensures { LeavesSearch (IsGathered (H.world shelf.old).files (H.world shelf.new).files name.now
        inst.now problem.now vec.now most) problem.now (problem_vector inst.now vec.now)
        name.now (H.world shelf.old) (H.world shelf.new) result }
{
    let mut models = Items::new(alloc);
    while (models.len() as u64) < most {
        match next_model(alloc, shelf, name, inst, problem, vec, models.as_slice())? {
            Some(model) => models.push(model)?,
            None => return Ok(Reps { all: true, models }),
        }
    }
    Ok(Reps { all: false, models })
}

// A model that serves the vector and isn't listed, or none, and then the log shows that all are.
fn next_model<H: Shelf>(
    alloc: Global,
    shelf: &mut H,
    name: &str,
    inst: &Instance,
    problem: &PbProblem,
    vec: &CostVec,
    list: &[Assignment],
) -> Result<Option<Assignment>, RecordFault>
    requires normal { IsNormalFormOf inst.now problem.now }
    requires vector { IsProblemVector inst.now vec.now }
    requires few { length list.now ≤ 2 ^ 20 }
    requires long { All (λ a. length a ≡ inst.now.vars) list.now }
    ensures { LeavesSearch (IsFurther (H.world shelf.old).files (H.world shelf.new).files name.now
        inst.now problem.now vec.now list.now) problem.now (problem_vector inst.now vec.now)
        name.now (H.world shelf.old) (H.world shelf.new) result }
{
    bounded_model_serves();
    ended_log_lists_all();
    let vars = inst.vars();
    let bounded = bounded_problem(alloc, inst, problem, vec, list)?;
    cut_model(alloc, shelf, name, &bounded, vars)
}

// A model of the problem, cut to so many variables, or none, and then the log shows it.
fn cut_model<H: Shelf>(
    alloc: Global,
    shelf: &mut H,
    name: &str,
    problem: &PbProblem,
    vars: u64,
) -> Result<Option<Assignment>, RecordFault>
    requires within { vars ≤ problem.now.vars }
    ensures { LeavesLog (IsCutModel (H.world shelf.old).files (H.world shelf.new).files name.now
        problem.now vars) problem.now name.now (H.world shelf.old) (H.world shelf.new) result }
{
    // Tells that the variables are few.
    let _vars = problem.vars();
    match seek_model(alloc, shelf, name, problem)? {
        Some(model) => Ok(Some(first_values(alloc, &model, vars)?)),
        None => Ok(None),
    }
}

// The values of the variables up to one.
fn first_values(alloc: Global, a: &Assignment, vars: u64) -> Result<Assignment, NoMemory>
    requires within { vars ≤ length a.now }
    requires small { vars < 2 ^ 63 }
    ensures { IfOk result (λ first. first ≡ take vars a.now) }
{
    let values = &a.as_slice()[..vars as usize];
    let mut first = Assignment::new(alloc, vars)?;
    let mut var = 0;
    for value in values {
        var += 1;
        first.set(Lit::new(var, !*value));
    }
    Ok(first)
}
