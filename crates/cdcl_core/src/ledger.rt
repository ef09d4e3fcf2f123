// The learned clauses that a reduction may name, and how many reductions there were (DECISIONS, fresh-recorder).
ghost use Rattle.std.specs.Prelude.{◌≡◌, ◌↔◌, ◌<◌, [], All, IsTrue, IfOk, IfSome, IsSome, OnOk, OnErr, length, map};
ghost use Rattle.std.specs.FinMap.{get};
ghost use Rattle.cdcl_core.specs.Ledgers.{IsDue, IsPart, ledger_after, number_after, unknown_number, with_id, with_ids};

use crate::choosing::{Choice, choose};
use crate::schedule::{REDUCTIONS, reduce_due};
use cdcl_state::Search;
use clause_prop::Propagator;
use hint_rup::Hint;
use proof_laws::Line;
use scut_base::{Items, NoMemory};
use std::alloc::Global;
use std::marker::Model;

/// A learned clause, as a reduction sees it.
#[derive(Clone, Copy, Debug)]
pub(crate) struct LearnedClause {
    /// The id of its line.
    pub(crate) id: u64,
    /// The number of levels among its literals when it was learned.
    pub(crate) distance: u64,
    /// Whether it proved a clause since the last reduction.
    pub(crate) used: bool,
}

/// The learned clauses in rising order of their ids, but for those that a reduction took; and the
/// number of reductions in the run, where it is known. Contracts see the ids and the number. What
/// other lines delete stays in it until the next reduction.
#[derive(Debug, Drop)]
pub(crate) struct Ledger {
    clauses: Items<LearnedClause>,
    reductions: Option<u32>,
}

impl Model for Ledger {
    ghost use Rattle.std.specs.Prelude.{◌≤◌, map};
    ghost use Rattle.std.specs.Option.{ForSome};
    ghost use Rattle.cdcl_core.specs.Ledgers.{LedgerValue};

    ghost Value = { LedgerValue };

    ghost view = { λ l. record { ids = map (λ c. c.id) l.clauses; reductions = l.reductions } };

    ghost invariant = { λ l. ForSome l.reductions (λ n. n ≤ 40) };
}

impl Ledger {
    /// No clause. Where it begins with the run there was no reduction, else their number isn't known.
    /// Takes no memory.
    pub(crate) fn new(alloc: Global, begins: bool) -> Ledger
        ensures ids { result.ids ≡ [] }
        ensures number { IfSome result.reductions (λ n. IsTrue begins × (n ≡ 0)) }
    {
        Ledger {
            clauses: Items::new(alloc),
            reductions: if begins { Some(0) } else { None },
        }
    }

    /// Puts a learned clause at the end. After `NoMemory` nothing has changed.
    pub(crate) fn push(&mut self, id: u64, distance: u64) -> Result<(), NoMemory>
        ensures ok { OnOk result (self.new ≡ with_id self.old id) }
        ensures err { OnErr result (self.new ≡ self.old) }
    {
        self.clauses.push(LearnedClause {
            id,
            distance,
            used: false,
        })
    }

    /// Tells that these hints proved a clause. Each costs the logarithm of the number of clauses.
    pub(crate) fn use_all(&mut self, hints: &[Hint])
        ensures { self.new ≡ self.old }
    {
        for hint in hints {
            if let Hint::Id(id) = *hint {
                self.use_one(id);
            }
        }
    }

    // Tells that the clause of an id was used, where it is here.
    fn use_one(&mut self, id: u64)
        ensures { self.new ≡ self.old }
    {
        if let Some(place) = self.place_of(id) {
            let clause = *self.clauses.at(place);
            self.clauses.set(
                place,
                LearnedClause {
                    used: true,
                    ..clause
                },
            );
        }
    }

    // The place of the clause of an id.
    fn place_of(&self, id: u64) -> Option<usize>
        ensures { IfSome result (λ place. place < length self.now.ids) }
    {
        self.clauses
            .as_slice()
            .binary_search_by_key(&id, |clause| clause.id)
            .ok()
    }

    /// Whether a reduction is due directly after a learned line, where so many clauses were learned
    /// in the run.
    pub(crate) fn is_due(&self, learned: u64) -> bool
        ensures { IsTrue result ↔ IsDue self.now.reductions learned }
    {
        match self.reductions {
            Some(done) => reduce_due(learned, done),
            None => false,
        }
    }

    /// What a reduction does with the clauses of a search.
    pub(crate) fn choose<P: Propagator + Drop>(
        &self,
        alloc: Global,
        search: &Search<P>,
    ) -> Result<Choice, NoMemory>
        ensures named { IfOk result (λ choice. IsPart choice.named self.now.ids) }
        ensures live { IfOk result
            (λ choice. All (λ id. IsSome (get search.now.store id)) choice.named) }
        ensures kept { IfOk result
            (λ choice. IsPart (map (λ c. c.id) choice.kept) self.now.ids) }
    {
        choose(alloc, self.clauses.as_slice(), search)
    }

    /// Leaves these clauses alone.
    pub(crate) fn keep(&mut self, clauses: Items<LearnedClause>)
        ensures { self.new ≡ with_ids self.old (map (λ c. c.id) clauses) }
    {
        self.clauses = clauses;
    }

    /// Counts a line where it is a reduction.
    pub(crate) fn note(&mut self, line: &Line)
        ensures { self.new ≡ ledger_after self.old line.now }
    {
        if let Line::Reduce { ids: _ } = line {
            self.reductions = counted(self.reductions);
        }
    }

    /// Tells that no reduction will be due any more.
    pub(crate) fn stop(&mut self)
        ensures { self.new ≡ unknown_number self.old }
    {
        self.reductions = None;
    }
}

// The number of reductions with one more. Past the last one it is no longer told.
fn counted(reductions: Option<u32>) -> Option<u32>
    ensures { result ≡ number_after reductions }
{
    match reductions {
        Some(done) if done < REDUCTIONS => Some(done + 1),
        _ => None,
    }
}
