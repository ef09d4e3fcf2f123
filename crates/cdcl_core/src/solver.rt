// The solver, as a recorder.
ghost use Rattle.std.specs.Prelude.{◌≡◌, [], false, IfOk, IfErr};
ghost use Rattle.std.specs.FinMap.{empty};
ghost use Rattle.oracle.specs.Solving.{IsWithin};

use crate::ledger::Ledger;
use crate::taking::drop_deleted;
use cdcl_laws::{
    deleting_line_keeps_stored, first_line_is_no_reduction, line_is_passed, nothing_is_stored,
    reached_state_fits,
};
use cdcl_state::Search;
use clause_prop::Propagator;
use pb_lin::PbProblem;
use proof_laws::Line;
use proof_rules::{ProofState, RecordFault, Recorder};
use scut_base::NoMemory;
use std::alloc::Global;
use std::marker::Model;

/// A solver by conflict-driven clause learning (Marques-Silva and Sakallah 1999), over a recorder
/// that keeps the proof and a propagator. It holds the problem's rows and every live clause. Lines
/// that are added are taken up by the next call of `solve`, and deleted ones dropped at once. At
/// fixed places it lets go of about half of the clauses that it has learned.
#[derive(Drop)]
pub struct Solver<R: Recorder + Drop, P: Propagator + Drop> {
    pub(crate) alloc: Global,
    pub(crate) recorder: R,
    pub(crate) search: Search<P>,
    pub(crate) limit: Option<u64>,
    pub(crate) rows: u64,
    pub(crate) next: u64,
    pub(crate) ledger: Ledger,
    pub(crate) broken: bool,
}

impl<R: Recorder + Drop, P: Propagator + Drop> Model for Solver<R, P> {
    ghost use Rattle.std.specs.Coded.{codes};
    ghost use Rattle.pb_lin.specs.LineCodes.{line_code};
    ghost use Rattle.std.specs.Prelude.{◌≡◌, false};
    ghost use Rattle.cdcl_core.specs.Work.{SolverValue, IsHeld};

    ghost Value = { SolverValue R };

    ghost coded = { Prim.hlevel (codes, line_code) };

    ghost view = { λ s. record {
      recorder = s.recorder;
      limit = s.limit;
      broken = s.broken;
      search = s.search;
      next = s.next;
      rows = s.rows;
      ledger = s.ledger;
    } };

    ghost invariant = { λ s. s.broken ≡ false → ((R.seen s.recorder).broken ≡ false)
        × IsHeld R.seen (record {
          recorder = s.recorder;
          limit = s.limit;
          broken = s.broken;
          search = s.search;
          next = s.next;
          rows = s.rows;
          ledger = s.ledger;
        }) };
}

/// Memory was refused, and the recorder is handed back.
#[derive(Drop)]
pub struct NoRoom<R: Recorder + Drop> {
    /// The recorder, as it was given.
    pub recorder: R,
}

impl<R: Recorder + Drop, P: Propagator + Drop> Solver<R, P> {
    /// A solver over a recorder, which may have lines, and a propagator that knows none. It learns
    /// so many clauses at most as the limit says. The problem is the recorder's. Where the recorder
    /// has lines, the number of reductions among them isn't known, and the solver makes none.
    pub fn new(
        alloc: Global,
        recorder: R,
        propagator: P,
        problem: &PbProblem,
        limit: Option<u64>,
    ) -> Result<Solver<R, P>, NoRoom<R>>
        requires whole { (R.seen recorder).broken ≡ false }
        requires problem { problem.now ≡ (R.seen recorder).problem }
        requires in_step { P.in_step propagator empty (record { vars = 0; steps = [] }) }
        requires within { IsWithin limit (R.seen recorder).problem (R.seen recorder).lines }
        ensures recorder { IfOk result (λ s. s.recorder ≡ recorder) }
        ensures limit { IfOk result (λ s. s.limit ≡ limit) }
        ensures whole { IfOk result (λ s. s.broken ≡ false) }
        ensures handed_back { IfErr result (λ e. e.recorder ≡ recorder) }
    {
        nothing_is_stored();
        line_is_passed();
        reached_state_fits();
        first_line_is_no_reduction();
        let state = recorder.state();
        // Tells that the lines reach a state.
        let _vars = state.vars();
        let begins = state.lines() == 0;
        match Search::new(alloc, propagator) {
            Ok(search) => Ok(Solver {
                alloc,
                recorder,
                search,
                limit,
                rows: problem.rows().len() as u64,
                next: 1,
                ledger: Ledger::new(alloc, begins),
                broken: false,
            }),
            Err(NoMemory) => Err(NoRoom { recorder }),
        }
    }

    /// The recorder, with all that was added; it isn't broken where the solver isn't. Takes no memory.
    pub fn into_recorder(self) -> R
        ensures recorder { result ≡ self.recorder }
        ensures whole { self.broken ≡ false → (R.seen result).broken ≡ false }
    {
        let Solver {
            alloc: _,
            recorder,
            search: _,
            limit: _,
            rows: _,
            next: _,
            ledger: _,
            broken: _,
        } = self;
        recorder
    }
}

impl<R: Recorder + Drop, P: Propagator + Drop> Recorder for Solver<R, P> {
    ghost seen = { λ s. record {
      problem = (R.seen s.recorder).problem;
      limit = s.limit;
      lines = (R.seen s.recorder).lines;
      faults = (R.seen s.recorder).faults;
      broken = s.broken;
      around = (R.seen s.recorder).around;
    } };

    /// The line is taken up by the next call of `solve`; what it deletes is dropped at once.
    fn add_line(&mut self, line: &Line) -> Result<u64, RecordFault> {
        match self.recorder.add_line(line) {
            Ok(id) => {
                deleting_line_keeps_stored();
                reached_state_fits();
                drop_deleted(&mut self.search, line);
                self.ledger.note(line);
                // Tells that the lines reach a state.
                let _vars = self.recorder.state().vars();
                Ok(id)
            }
            Err(RecordFault::Full) => Err(RecordFault::Full),
            Err(fault) => {
                self.broken = true;
                Err(fault)
            }
        }
    }

    fn state(&self) -> &ProofState {
        self.recorder.state()
    }
}
