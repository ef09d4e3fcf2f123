// One line: what it says, or what is wrong with it.
ghost use Rattle.std.specs.Prelude.{ℕ, List, ◌≡◌, ◌<◌, ◌-◌, ◌∷◌, ◌^◌, length, drop, slice_index, IfOk, IfErr, All};
ghost use Rattle.std.specs.Option.{option_or};
ghost use Rattle.scut_base.specs.Number.{natural_value};
ghost use Rattle.instance.specs.Shape.{max_objectives, magnitude_limit};
ghost use Rattle.instance.specs.Reading.{IsPlaceFaultOf};
ghost use Rattle.mcnf_reader.specs.Words.{words_of};
ghost use Rattle.mcnf_reader.specs.Grammar.{SpellsClause, SpellsStatement};
ghost use Rattle.mcnf_reader.specs.FirstFault.{objective_fault, soft_fault, clause_fault, line_fault};
ghost use Rattle.mcnf_reader.specs.LineLimits.{IsClauseWithin, IsStatementWithin, IsSumsOf};

use crate::number::{read_literal, read_objective, read_weight};
use crate::statement::Statement;
use crate::words::Words;
use instance::{BadKind, PlaceFault};
use scut_base::{Duplicate, Items, Lit, NoMemory};
use std::alloc::Global;

// Soft clauses of more literals than these are kept with the room that they have.
const MOST_COPIED: usize = 1_000;

// Reads what a line says, where the objectives have these sums of weights already.
pub(crate) fn read_statement(
    alloc: Global,
    line: &[u8],
    sums: &[u64],
) -> Result<Statement, PlaceFault>
    requires count { length sums.now ≡ max_objectives }
    requires small { All (λ sum. sum < magnitude_limit) sums.now }
    ensures ok { IfOk result (λ s. SpellsStatement (words_of line.now) s
        × IsStatementWithin sums.now s) }
    ensures fault { IfErr result (λ f. (before : List (List (List ℕ)))
        → IsSumsOf before sums.now → IsPlaceFaultOf (line_fault before (words_of line.now)) f) }
{
    let mut words = Words::new(line);
    let first = match words.next() {
        Some(first) => first,
        None => return Ok(Statement::Nothing),
    };
    match first {
        [b'c', ..] => Ok(Statement::Nothing),
        [b'h'] => {
            let lits = read_clause(alloc, &mut words)?;
            Ok(Statement::Hard { lits })
        }
        _ => read_soft(alloc, first, &mut words, sums),
    }
}

// Reads a soft clause from its first word and the words after it.
fn read_soft(
    alloc: Global,
    first: &[u8],
    words: &mut Words<'_>,
    sums: &[u64],
) -> Result<Statement, PlaceFault>
    requires count { length sums.now ≡ max_objectives }
    requires small { All (λ sum. sum < magnitude_limit) sums.now }
    ensures ok { IfOk result (λ s.
        SpellsStatement (first.now ∷ words.old) s × IsStatementWithin sums.now s) }
    ensures fault { let sum = slice_index sums.now (natural_value (drop 1 first.now) - 1) in
        IfErr result (IsPlaceFaultOf (option_or (objective_fault first.now) (soft_fault sum words.old))) }
{
    let objective = read_objective(first)?;
    let second = match words.next() {
        Some(second) => second,
        None => return Err(PlaceFault::Bad(BadKind::WeightExpected)),
    };
    let weight = read_weight(second, sums[(objective - 1) as usize])?;
    let lits = read_clause(alloc, words)?;
    Ok(Statement::Soft {
        objective,
        weight,
        lits: compact(alloc, lits)?,
    })
}

// The same literals; where they are few, without room to spare, since an instance may keep millions
// of short soft clauses.
fn compact(alloc: Global, lits: Items<Lit>) -> Result<Items<Lit>, NoMemory>
    ensures { IfOk result (λ same. same ≡ lits) }
{
    if lits.len() > MOST_COPIED {
        return Ok(lits);
    }
    lits.copy(alloc)
}

// Reads literals up to the terminator, after which there is no word.
fn read_clause(alloc: Global, words: &mut Words<'_>) -> Result<Items<Lit>, PlaceFault>
    ensures ok { IfOk result (λ lits. SpellsClause words.old lits × IsClauseWithin lits) }
    ensures fault { IfErr result (IsPlaceFaultOf (clause_fault words.old)) }
{
    let mut lits = Items::new(alloc);
    while let Some(word) = words.next() {
        match read_literal(word)? {
            Some(lit) => lits.push(lit)?,
            None => {
                if words.next().is_some() {
                    return Err(PlaceFault::Bad(BadKind::TextAfterZero));
                }
                return Ok(lits);
            }
        }
    }
    Err(PlaceFault::Bad(BadKind::ZeroMissing))
}
