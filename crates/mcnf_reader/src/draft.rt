// What the lines read so far make.
ghost use Rattle.std.specs.Prelude.{List, ◌≡◌, ◌<◌, ◌≤◌, ◌+◌, ◌-◌, ◌^◌, ◌++◌, [], ◌∷◌, Some, max, length, map, replicate, slice_index, slice_get, slice_set, OnOk, IfOk};
ghost use Rattle.instance.specs.declared.objective.Objective.{Objective};
ghost use Rattle.instance.specs.Shape.{IsWithinLimits, max_objectives, magnitude_limit};
ghost use Rattle.mcnf_reader.specs.Grammar.{largest_of, objective_at};
ghost use Rattle.mcnf_reader.specs.LineLimits.{IsClauseWithin, IsStatementWithin};
ghost use Rattle.mcnf_reader.specs.Draft.{IsReady, IsDraftOf, AddsSoft, with_soft, instance_of, objective_numbers};
ghost use Rattle.mcnf_reader.specs.declared.statement.Statement.{Statement};

use crate::statement::Statement;
use instance::{Clauses, Instance, MAX_OBJECTIVES, Objective, Sense, Soft};
use scut_base::{Items, Lit, NoMemory};
use std::alloc::Global;

/// An instance in the making. The lines may name the objectives in any order, and so few of them are
/// allowed that each has its place from the start: the first `count` are used. The sums of their
/// weights are kept, so that a limit is noticed at its line and not at the end.
#[derive(Drop)]
pub struct Draft {
    pub clauses: Clauses,
    pub objectives: Vec<Objective>,
    pub sums: [u64; MAX_OBJECTIVES],
    pub vars: u64,
    pub count: u64,
}

// The draft of no lines.
pub(crate) fn new_draft(alloc: Global) -> Result<Draft, NoMemory>
    ensures ready { IfOk result (λ d. IsReady d) }
    ensures empty { IfOk result (λ d. IsDraftOf d []) }
{
    Ok(Draft {
        clauses: Clauses::new(alloc),
        objectives: empty_objectives(alloc)?,
        sums: [0; MAX_OBJECTIVES],
        vars: 0,
        count: 0,
    })
}

// All objectives, with no clauses.
fn empty_objectives(alloc: Global) -> Result<Vec<Objective>, NoMemory>
    ensures { IfOk result (λ all. all.items ≡ replicate max_objectives (objective_at [] 1)) }
{
    let mut objectives = Vec::with_capacity(alloc, MAX_OBJECTIVES)?;
    for _ in 0..MAX_OBJECTIVES {
        objectives.push(empty_objective(alloc))?;
    }
    Ok(objectives)
}

// An objective with no clauses.
fn empty_objective(alloc: Global) -> Objective
    ensures { result ≡ objective_at [] 1 }
{
    Objective {
        sense: Sense::Min,
        softs: Items::new(alloc),
        terms: Items::new(alloc),
        offset: 0,
    }
}

// Puts what a line says into the draft. After a fault the draft is of no use.
pub(crate) fn add_statement(draft: &mut Draft, statement: Statement) -> Result<(), NoMemory>
    requires ready { IsReady draft.old }
    requires within { IsStatementWithin draft.old.sums statement }
    ensures ready { OnOk result (IsReady draft.new) }
    ensures added { OnOk result ((done : List Statement)
        → IsDraftOf draft.old done → IsDraftOf draft.new (done ++ statement ∷ [])) }
{
    match statement {
        Statement::Nothing => Ok(()),
        Statement::Hard { lits } => add_hard(draft, lits),
        Statement::Soft {
            objective,
            weight,
            lits,
        } => add_soft(draft, objective, weight, lits),
    }
}

// Puts a hard clause into the draft.
fn add_hard(draft: &mut Draft, lits: Items<Lit>) -> Result<(), NoMemory>
    ensures { OnOk result (draft.new ≡ record draft.old {
      clauses = draft.old.clauses ++ lits ∷ [];
      vars = max draft.old.vars (largest_of lits);
    }) }
{
    draft.vars = draft.vars.max(largest_variable(&lits));
    draft.clauses.push(lits.as_slice())
}

// Puts a soft clause into the draft.
fn add_soft(
    draft: &mut Draft,
    objective: u64,
    weight: u64,
    lits: Items<Lit>,
) -> Result<(), NoMemory>
    requires from_one { 0 < objective }
    requires room { objective ≤ length draft.old.objectives.items }
    requires below { objective ≤ max_objectives }
    requires fits { slice_index draft.old.sums (objective - 1) + weight < magnitude_limit }
    ensures { OnOk result (AddsSoft draft.old draft.new objective weight lits) }
{
    let at = (objective - 1) as usize;
    draft.vars = draft.vars.max(largest_variable(&lits));
    draft.count = draft.count.max(objective);
    draft.sums[at] += weight;
    push_soft(&mut draft.objectives, at, Soft { weight, lits })
}

// Puts a soft clause at the end of an objective.
fn push_soft(objectives: &mut Vec<Objective>, at: usize, soft: Soft) -> Result<(), NoMemory>
    requires { at < length objectives.old.items }
    ensures { OnOk result ((o : Objective) → slice_get objectives.old.items at ≡ Some o
        → objectives.new.items ≡ slice_set objectives.old.items at (with_soft o soft)) }
{
    objectives[at].softs.push(soft)
}

// The largest variable of the literals, or 0.
fn largest_variable(lits: &Items<Lit>) -> u64
    ensures { result ≡ largest_of lits.now }
{
    let mut largest = 0;
    for lit in lits.as_slice() {
        largest = largest.max(lit.var());
    }
    largest
}

// The instance of a draft.
pub(crate) fn finish(alloc: Global, draft: Draft) -> Instance
    requires { IsWithinLimits (instance_of draft) }
    ensures { result ≡ instance_of draft }
{
    let mut objectives = draft.objectives;
    objectives.truncate(draft.count as usize);
    Instance::new(
        draft.vars,
        draft.clauses,
        Items::new(alloc),
        Items::from_vec(objectives),
    )
}
