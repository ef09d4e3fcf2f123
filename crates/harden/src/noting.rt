// Noting where literals occur, in one pass over rows and objectives.
ghost use Rattle.std.specs.Prelude.{◌≡◌, ◌<◌, ◌^◌, [], length, All, IfOk, OnOk};
ghost use Rattle.scut_base.specs.Literal.{Literal};
ghost use Rattle.harden.specs.Noted.{AreNoted, AreWithin, HasPlaces, occurrence_at, occurrence_in, with_cost, with_costs, with_row};

use crate::occurrence::{Occurrence, note_row};
use clause_prop::literal_code;
use pb_lin::{Constraint, CostRow, PbProblem};
use scut_base::{Items, NoMemory};
use std::alloc::Global;

// Where each literal of the problem occurs, by the literal's code. Takes one pass over rows and objectives.
pub(crate) fn noted(alloc: Global, problem: &PbProblem) -> Result<Vec<Occurrence>, NoMemory>
    ensures { IfOk result (λ table. AreNoted problem.now table.items) }
{
    let mut table = blank(alloc, problem.vars())?;
    note_rows(&mut table, problem.rows())?;
    note_costs(&mut table, problem.costs());
    Ok(table)
}

// A place for each literal of so many variables, which occurs nowhere.
fn blank(alloc: Global, vars: u64) -> Result<Vec<Occurrence>, NoMemory>
    requires { vars < 2 ^ 33 }
    ensures places { IfOk result (λ table. HasPlaces vars table.items) }
    ensures none { IfOk result
        (λ table. (l : Literal) → occurrence_at table.items l ≡ occurrence_in [] [] l) }
{
    let mut table = Vec::new(alloc);
    for _ in 0..2 * vars + 2 {
        table.push(Occurrence {
            in_rows: false,
            in_costs: false,
            open_rows: Items::new(alloc),
        })?;
    }
    Ok(table)
}

// Notes the rows, of ids from 1 on.
fn note_rows(table: &mut Vec<Occurrence>, rows: &[Constraint]) -> Result<(), NoMemory>
    requires within { All (λ c. AreWithin (length table.old.items) c.terms) rows.now }
    requires count { length rows.now < 2 ^ 63 }
    requires none { (l : Literal) → occurrence_at table.old.items l ≡ occurrence_in [] [] l }
    ensures places { length table.new.items ≡ length table.old.items }
    ensures noted { OnOk result ((l : Literal)
        → occurrence_at table.new.items l ≡ occurrence_in rows.now [] l) }
{
    for (at, row) in rows.iter().enumerate() {
        note_constraint(table, row, at as u64 + 1)?;
    }
    Ok(())
}

// Notes the literals of a row.
fn note_constraint(table: &mut Vec<Occurrence>, row: &Constraint, id: u64) -> Result<(), NoMemory>
    requires { AreWithin (length table.old.items) row.now.terms }
    ensures places { length table.new.items ≡ length table.old.items }
    ensures noted { OnOk result ((l : Literal)
        → occurrence_at table.new.items l ≡ with_row row.now id l (occurrence_at table.old.items l)) }
{
    let degree = row.degree();
    for at in 0..row.len() {
        let term = row.term(at);
        note_row(&mut table[literal_code(term.0)], term.1 < degree, id)?;
    }
    Ok(())
}

// Notes the objectives.
fn note_costs(table: &mut Vec<Occurrence>, costs: &[CostRow])
    requires within { All (λ r. AreWithin (length table.old.items) r.terms) costs.now }
    ensures places { length table.new.items ≡ length table.old.items }
    ensures noted { (l : Literal) → occurrence_at table.new.items l
        ≡ with_costs costs.now l (occurrence_at table.old.items l) }
{
    for row in costs {
        note_cost(table, row);
    }
}

// Notes the literals of an objective.
fn note_cost(table: &mut Vec<Occurrence>, row: &CostRow)
    requires { AreWithin (length table.old.items) row.now.terms }
    ensures places { length table.new.items ≡ length table.old.items }
    ensures noted { (l : Literal) → occurrence_at table.new.items l
        ≡ with_cost row.now.terms l (occurrence_at table.old.items l) }
{
    for term in row.terms() {
        table[literal_code(term.0)].in_costs = true;
    }
}
