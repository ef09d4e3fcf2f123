// What soft clauses add to a problem.
ghost use Rattle.std.specs.Prelude.{◌≡◌, ◌≢◌, ◌<◌, ◌-◌, ◌^◌, false, None, IfOk, MatchOption};
ghost use Rattle.instance.specs.Shape.{ClauseUpTo};
ghost use Rattle.instance_normal.specs.NormalForm.{AreDistinct, is_relaxed, is_tautology, payment, Never, Relaxed};
ghost use Rattle.instance_normal.specs.Fitting.{IsRelaxationOf};

use crate::clause::{at_least_one, distinct_literals};
use instance::Soft;
use pb_lin::Constraint;
use scut_base::{Items, Lit, NoMemory};
use std::alloc::Global;

/// A row, where the soft clause needs a relaxation variable, a cost term and a part of the offset.
#[derive(Drop)]
pub struct Relaxation {
    pub row: Option<Constraint>,
    pub term: Option<(i64, Lit)>,
    pub offset: u64,
}

// What a soft clause adds, where this variable is free for it.
pub(crate) fn relax(alloc: Global, soft: &Soft, var: u64) -> Result<Relaxation, NoMemory>
    requires weight { soft.now.weight < 2 ^ 63 }
    requires from_one { 0 < var }
    requires below { var < 2 ^ 33 }
    requires free { ClauseUpTo (var - 1) soft.now.lits }
    ensures { IfOk result (IsRelaxationOf soft.now var) }
{
    match paid_literals(alloc, soft)? {
        None => Ok(nothing()),
        Some(distinct) => relaxation_of(soft, distinct, var),
    }
}

// Whether the soft clause needs a relaxation variable. Costs a sort of a copy of its literals.
pub(crate) fn is_relaxed(alloc: Global, soft: &Soft) -> Result<bool, NoMemory>
    ensures { IfOk result (λ needed. needed ≡ is_relaxed soft.now) }
{
    match paid_literals(alloc, soft)? {
        None => Ok(false),
        Some(distinct) => Ok(distinct.len() > 1),
    }
}

// The distinct literals of a soft clause, or none where it is never paid for.
fn paid_literals(alloc: Global, soft: &Soft) -> Result<Option<Items<Lit>>, NoMemory>
    ensures { IfOk result (λ found. MatchOption found (payment soft.now ≡ Never)
        (λ distinct. (soft.now.weight ≢ 0) × (is_tautology soft.now.lits ≡ false)
        × AreDistinct soft.now.lits distinct)) }
{
    if soft.weight == 0 {
        return Ok(None);
    }
    distinct_literals(alloc, soft.lits.as_slice())
}

// What a soft clause adds that is never paid for.
fn nothing() -> Relaxation
    ensures row { result.row ≡ None }
    ensures term { result.term ≡ None }
    ensures offset { result.offset ≡ 0 }
{
    Relaxation {
        row: None,
        term: None,
        offset: 0,
    }
}

// What a soft clause of these distinct literals adds.
fn relaxation_of(soft: &Soft, distinct: Items<Lit>, var: u64) -> Result<Relaxation, NoMemory>
    requires weight { soft.now.weight < 2 ^ 63 }
    requires some_weight { soft.now.weight ≢ 0 }
    requires from_one { 0 < var }
    requires below { var < 2 ^ 33 }
    requires free { ClauseUpTo (var - 1) soft.now.lits }
    requires plain { is_tautology soft.now.lits ≡ false }
    requires distinct { AreDistinct soft.now.lits distinct }
    ensures { IfOk result (IsRelaxationOf soft.now var) }
{
    if distinct.is_empty() {
        return Ok(Relaxation {
            row: None,
            term: None,
            offset: soft.weight,
        });
    }
    if distinct.len() == 1 {
        let lit = distinct.at(0).not();
        return Ok(Relaxation {
            row: None,
            term: Some((soft.weight as i64, lit)),
            offset: 0,
        });
    }
    relaxed(soft, distinct, var)
}

// What a soft clause of two distinct literals or more adds.
fn relaxed(soft: &Soft, mut distinct: Items<Lit>, var: u64) -> Result<Relaxation, NoMemory>
    requires weight { soft.now.weight < 2 ^ 63 }
    requires from_one { 0 < var }
    requires below { var < 2 ^ 33 }
    requires free { ClauseUpTo (var - 1) soft.now.lits }
    requires plain { is_tautology soft.now.lits ≡ false }
    requires distinct { AreDistinct soft.now.lits distinct }
    requires payment { payment soft.now ≡ Relaxed }
    ensures { IfOk result (IsRelaxationOf soft.now var) }
{
    let lit = Lit::new(var, false);
    distinct.push(lit)?;
    Ok(Relaxation {
        row: Some(at_least_one(distinct)),
        term: Some((soft.weight as i64, lit)),
        offset: 0,
    })
}
