// The engine as its users see it.

use crate::arena::Arena;
use crate::aside::Aside;
use crate::heap::Heap;
use crate::limits::{FIRST_REDUCTION, MOST_LINES, MOST_VARIABLES};
use crate::literals::Literal;
use crate::phases::Phases;
use crate::queue::Queue;
use crate::records::{Hint, Records};
use crate::restarts::Restarts;
use crate::rounds::Rounds;
use crate::rows::Rows;
use crate::trail::Trail;
use crate::watches::Watches;
use crate::work::Work;
use scut_base::{Lit, NoMemory};
use std::alloc::Global;

/// What a question came to.
#[derive(Clone, Copy, Debug, PartialEq, Eq)]
pub enum Outcome {
    /// All that was taken up and the assumptions are true under `Engine::value`.
    Model,
    /// Not all assumptions can be true: `Engine::needed` tells why.
    Closed,
    /// The ticks ran out, or what was asked isn't one that the engine answers.
    Unknown,
}

// By what the last question was closed.
#[derive(Clone, Copy, Debug)]
pub(crate) enum Closing {
    // It wasn't.
    Open,
    // A clause of opposites of assumptions.
    Record(u32),
    // The unit of this variable, which is assigned at level 0.
    Root(u32),
}

/// Clauses and rows, and what was derived of them.
#[derive(Debug, Drop)]
pub struct Engine {
    pub(crate) alloc: Global,
    pub(crate) vars: u32,
    pub(crate) trail: Trail,
    pub(crate) arena: Arena,
    pub(crate) watches: Watches,
    pub(crate) rows: Rows,
    pub(crate) records: Records,
    pub(crate) heap: Heap,
    pub(crate) queue: Queue,
    pub(crate) phases: Phases,
    pub(crate) restarts: Restarts,
    pub(crate) work: Work,
    pub(crate) aside: Aside,
    // The places of clauses that were taken up, and of learned ones.
    pub(crate) clauses: Vec<u32>,
    pub(crate) learned: Vec<u32>,
    // Of each variable the record of its unit clause; 0 where it has none.
    pub(crate) units: Vec<u32>,
    // The variables whose units got a record as lines were asked for.
    pub(crate) lazy_units: Vec<u32>,
    pub(crate) model: Vec<bool>,
    pub(crate) closing: Closing,
    // The record of the empty clause.
    pub(crate) empty: Option<u32>,
    pub(crate) ticks: u64,
    pub(crate) conflicts: u64,
    pub(crate) reductions: u64,
    pub(crate) rounds: Rounds,
    pub(crate) next_reduction: u64,
    // How many literals were assigned at level 0 as clauses that are true there were dropped.
    pub(crate) swept_roots: usize,
}

impl Engine {
    /// An engine with no variables and no clauses. Takes no memory yet.
    pub fn new(alloc: Global) -> Engine {
        Engine {
            alloc,
            vars: 0,
            trail: Trail::new(alloc),
            arena: Arena::new(alloc),
            watches: Watches::new(alloc),
            rows: Rows::new(alloc),
            records: Records::new(alloc),
            heap: Heap::new(alloc),
            queue: Queue::new(alloc),
            phases: Phases::new(alloc),
            restarts: Restarts::new(),
            work: Work::new(alloc),
            aside: Aside::new(alloc),
            clauses: Vec::new(alloc),
            learned: Vec::new(alloc),
            units: Vec::new(alloc),
            lazy_units: Vec::new(alloc),
            model: Vec::new(alloc),
            closing: Closing::Open,
            empty: None,
            ticks: 0,
            conflicts: 0,
            reductions: 0,
            rounds: Rounds::new(),
            next_reduction: FIRST_REDUCTION,
            swept_roots: 0,
        }
    }

    /// Makes the variables from 1 to this number known. `false` where there are more than the engine can name.
    pub fn grow(&mut self, vars: u64) -> Result<bool, NoMemory> {
        if vars >= MOST_VARIABLES {
            return Ok(false);
        }
        let vars = vars as u32;
        if vars <= self.vars {
            return Ok(true);
        }
        self.trail.grow(vars)?;
        self.watches.grow(vars)?;
        self.rows.grow(vars)?;
        self.heap.grow(vars)?;
        self.queue.grow(vars)?;
        self.phases.grow(vars)?;
        self.work.grow(vars)?;
        self.aside.grow(vars)?;
        for _var in self.units.len()..(vars as usize).saturating_add(1) {
            self.units.push(0)?;
        }
        self.vars = vars;
        Ok(true)
    }

    /// Takes up a clause that is the live line of this id. `false` where it can't: a variable isn't known, or the id
    /// is 0 or 2^31 or more. After `NoMemory`, here and in the other calls, the engine is to be given up.
    pub fn add_clause(&mut self, id: u64, lits: &[Lit]) -> Result<bool, NoMemory> {
        self.take_clause(id, lits)
    }

    /// Takes up the row `sum of coefficient times literal >= degree` that is the live line of this id. `false` where
    /// it can't: a variable isn't known or comes twice, the id is 0 or 2^31 or more, or coefficients and degree add up
    /// to 2^62 or more.
    pub fn add_row(
        &mut self,
        id: u64,
        terms: &[(Lit, u64)],
        degree: u64,
    ) -> Result<bool, NoMemory> {
        self.take_row(id, terms, degree)
    }

    /// Clauses or questions to come may name this variable, which is known: it is not to be eliminated. One that they
    /// name without this call comes back where it was eliminated, with all others, and none is eliminated after that.
    pub fn expect(&mut self, var: u64) -> Result<(), NoMemory> {
        if var >= MOST_VARIABLES {
            return Ok(());
        }
        self.freeze(&[Literal::new(var as u32, false)])
    }

    /// The same of the variables from this one on that become known after this call.
    pub fn expect_from(&mut self, first: u64) {
        self.aside.expect_from(first);
    }

    /// Whether the assumptions can be true with all that was taken up. `Unknown` where about so many ticks were spent:
    /// touches of memory, as propagation counts them.
    pub fn solve(&mut self, assumptions: &[Lit], ticks: u64) -> Result<Outcome, NoMemory> {
        self.search(assumptions, ticks)
    }

    /// Whether a variable is true in the last model.
    pub fn value(&self, var: u64) -> bool {
        if var >= MOST_VARIABLES {
            return false;
        }
        self.model.get(var as usize).copied().unwrap_or(false)
    }

    /// The derived clauses that the last `Closed` stands on and that have no line yet, in an order in which each
    /// stands on earlier ones. The last is the core: the opposites of some of the assumptions, or the empty clause.
    /// None where the core has a line. It's to be asked before anything is taken up or asked anew.
    pub fn needed(&mut self) -> Result<Vec<u32>, NoMemory> {
        self.records_needed()
    }

    /// The line of the core of the last `Closed`, and 0 where it has none.
    pub fn core_line(&self) -> u64 {
        match self.closing {
            Closing::Open => 0,
            Closing::Record(record) => u64::from(self.records.line(record)),
            Closing::Root(var) => u64::from(self.records.line(self.unit(var))),
        }
    }

    /// The literals of a derived clause that `needed` told.
    pub fn clause(&self, record: u32) -> Result<Vec<Lit>, NoMemory> {
        let codes = self.records.codes(record);
        let mut lits = Vec::with_capacity(self.alloc, codes.len())?;
        for code in codes {
            lits.push(Literal::of_code(*code).to_lit())?;
        }
        Ok(lits)
    }

    /// The lines from which a derived clause follows by unit propagation, in the order in which they are used.
    pub fn hints(&self, record: u32) -> Result<Vec<u64>, NoMemory> {
        let hints = self.records.hints(record)?;
        let mut lines = Vec::with_capacity(self.alloc, hints.len())?;
        for hint in hints.iter() {
            let record = match hint {
                Hint::Record(record) => *record,
                Hint::Root(var) => self.unit(*var),
            };
            lines.push(u64::from(self.records.line(record)))?;
        }
        Ok(lines)
    }

    /// A derived clause is the live line of this id now. An id of 2^31 or more says nothing.
    pub fn note_line(&mut self, record: u32, id: u64) {
        if id < MOST_LINES {
            self.records.set_line(record, id as u32);
        }
    }

    /// How many ticks all questions took.
    pub fn ticks(&self) -> u64 {
        self.ticks
    }

    /// How many conflicts all questions met.
    pub fn conflicts(&self) -> u64 {
        self.conflicts
    }
}
