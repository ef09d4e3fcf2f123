// A problem in the making.
ghost use Rattle.std.specs.Prelude.{◌≡◌, ◌<◌, ◌+◌, ◌^◌, ◌++◌, ◌∷◌, [], length, option_to_list, All, OnOk, IfOk};
ghost use Rattle.instance.specs.Shape.{ClauseUpTo, weights_sum};
ghost use Rattle.instance_normal.specs.NormalForm.{soft_offset, soft_terms};
ghost use Rattle.instance_normal.specs.Fitting.{AddsRows};

use crate::soft::{Relaxation, relax};
use instance::Soft;
use pb_lin::Constraint;
use scut_base::{Items, Lit, NoMemory};
use std::alloc::Global;

/// The number of variables, and the rows so far.
#[derive(Drop)]
pub struct Draft {
    pub vars: u64,
    pub rows: Items<Constraint>,
}

/// The terms and the offset of a cost row, not yet merged.
#[derive(Drop)]
pub struct CostTerms {
    pub terms: Items<(i64, Lit)>,
    pub offset: u64,
}

// Adds the rows and variables that soft clauses need, and answers what they cost.
pub(crate) fn add_softs(
    alloc: Global,
    softs: &[Soft],
    draft: &mut Draft,
) -> Result<CostTerms, NoMemory>
    requires clauses { All (λ s. ClauseUpTo draft.old.vars s.lits) softs.now }
    requires weights { weights_sum softs.now < 2 ^ 63 }
    requires room { draft.old.vars + length softs.now < 2 ^ 33 }
    ensures rows { OnOk result (AddsRows draft.old draft.new softs.now) }
    ensures terms { IfOk result (λ costs. costs.terms ≡ soft_terms (draft.old.vars + 1) softs.now) }
    ensures offset { IfOk result (λ costs. costs.offset ≡ soft_offset softs.now) }
{
    let mut costs = CostTerms {
        terms: Items::new(alloc),
        offset: 0,
    };
    for soft in softs {
        let added = relax(alloc, soft, draft.vars + 1)?;
        add_relaxation(added, draft, &mut costs)?;
    }
    Ok(costs)
}

// Puts what a soft clause adds where it belongs.
fn add_relaxation(
    added: Relaxation,
    draft: &mut Draft,
    costs: &mut CostTerms,
) -> Result<(), NoMemory>
    requires vars { draft.old.vars < 2 ^ 33 }
    requires offset { costs.old.offset + added.offset < 2 ^ 63 }
    ensures rows { OnOk result (draft.new.rows ≡ draft.old.rows ++ option_to_list added.row) }
    ensures vars { OnOk result (draft.new.vars ≡ draft.old.vars + length
        (option_to_list added.row)) }
    ensures terms { OnOk result (costs.new.terms ≡ costs.old.terms ++ option_to_list added.term) }
    ensures offset { OnOk result (costs.new.offset ≡ costs.old.offset + added.offset) }
{
    let Relaxation { row, term, offset } = added;
    if let Some(row) = row {
        draft.rows.push(row)?;
        draft.vars += 1;
    }
    if let Some(term) = term {
        costs.terms.push(term)?;
    }
    costs.offset += offset;
    Ok(())
}
