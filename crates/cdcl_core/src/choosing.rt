// Which learned clauses a reduction names: four in five, those that join the most levels first (Audemard and Simon 2009).
// Where half of them went, searches of planning problems took up to twice as long, as measured (DECISIONS, reduction-choice).
ghost use Rattle.std.specs.Prelude.{◌↔◌, All, IfOk, IsSome, IsTrue, map};
ghost use Rattle.std.specs.FinMap.{get};
ghost use Rattle.cdcl_core.specs.Ledgers.{IsPart};

use crate::ledger::LearnedClause;
use cdcl_state::Search;
use clause_prop::Propagator;
use scut_base::{Items, NoMemory};
use std::alloc::Global;
use std::cmp::Reverse;

/// What a reduction does with learned clauses.
#[derive(Debug, Drop)]
pub(crate) struct Choice {
    /// The ids that it names.
    pub(crate) named: Items<u64>,
    /// The clauses that stay, none of them used since this reduction.
    pub(crate) kept: Items<LearnedClause>,
}

// What a clause is worth: those that are worth less are named first.
#[derive(Clone, Copy, Debug, PartialEq, Eq, PartialOrd, Ord)]
struct Merit {
    // Whether it stays where enough others may go.
    stays: bool,
    // Clauses that join few levels are used more often (Audemard and Simon 2009).
    distance: Reverse<u64>,
    // Of two alike the older one goes.
    id: u64,
}

// The distance up to which a clause stays where enough others may go: a clause of two levels, a glue clause, joins what
// a decision forces to what is forced before it (Audemard and Simon 2009).
const NEAR: u64 = 2;

fn merit_of(clause: &LearnedClause) -> Merit {
    Merit {
        stays: clause.used || clause.distance <= NEAR,
        distance: Reverse(clause.distance),
        id: clause.id,
    }
}

// What the clause is worth that is the first to stay, where there is a clause.
fn least_kept(alloc: Global, clauses: &[LearnedClause]) -> Result<Option<Merit>, NoMemory> {
    let mut merits = Vec::with_capacity(alloc, clauses.len())?;
    for clause in clauses {
        merits.push(merit_of(clause))?;
    }
    merits.sort_unstable();
    Ok(merits.get(clauses.len() / 5 * 4).copied())
}

// Whether the line of an id is stored.
fn is_stored<P: Propagator + Drop>(search: &Search<P>, id: u64) -> bool
    ensures { IsTrue result ↔ IsSome (get search.now.store id) }
{
    search.line(id).is_some()
}

/// Names the four in five of the clauses that are worth least, and keeps the others. What is no longer stored
/// it leaves out.
pub(crate) fn choose<P: Propagator + Drop>(
    alloc: Global,
    clauses: &[LearnedClause],
    search: &Search<P>,
) -> Result<Choice, NoMemory>
    ensures named { IfOk result (λ choice. IsPart choice.named (map (λ c. c.id) clauses.now)) }
    ensures live { IfOk result
        (λ choice. All (λ id. IsSome (get search.now.store id)) choice.named) }
    ensures kept { IfOk result
        (λ choice. IsPart (map (λ c. c.id) choice.kept) (map (λ c. c.id) clauses.now)) }
{
    let mut named = Items::new(alloc);
    let mut kept = Items::new(alloc);
    let limit = least_kept(alloc, clauses)?;
    for clause in clauses {
        if is_stored(search, clause.id) {
            if Some(merit_of(clause)) < limit {
                named.push(clause.id)?;
            } else {
                kept.push(LearnedClause {
                    id: clause.id,
                    distance: clause.distance,
                    used: false,
                })?;
            }
        }
    }
    Ok(Choice { named, kept })
}
