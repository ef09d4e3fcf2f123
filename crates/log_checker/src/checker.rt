// The log: judged line by line as it comes.
ghost use Rattle.std.specs.Prelude.{◌≡◌, ◌++◌, ℕ, List, [], false, true, None, Some, Ok, Err, IsOk, IfOk, OnOk};
ghost use Rattle.proof_laws.specs.State.{Fits};
ghost use Rattle.proof_laws.specs.declared.line.Line.{Line};
ghost use Rattle.proof_laws.specs.declared.why.Why.{Why};
ghost use Rattle.log_checker.specs.Accepted.{IsEndedProof};
ghost use Rattle.log_checker.specs.LogFaults.{HasNoWholeFault, IsWholeFault, IsLogFault};
ghost use Rattle.log_checker.specs.Checking.{KeepsAnswer, StandsFor};
ghost use Rattle.log_checker.specs.Judging.{HasEnded, IsAfter, IsReading, IsUnderway, JudgesEnd, JudgesLines};
ghost use Rattle.log_checker.specs.Judging.{earlier, noted};
ghost use Rattle.log_checker.specs.declared.fault.ListWhy.{ListWhy};

use crate::CheckFault;
use crate::judging::{judge_end, judge_lines};
use front_set::CostVec;
use pb_lin::PbProblem;
use proof_laws::Why;
use proof_rules::ProofState;
use proof_text::LineReader;
use scut_base::{Duplicate, Items, NoMemory};
use std::alloc::Global;
use std::marker::Model;

/// Judges a log that comes in pieces, over a problem and the vectors of a list. Memory is that of the
/// live lines and of an unfinished line, never of the log.
#[derive(Debug, Drop)]
pub struct Checker {
    problem: PbProblem,
    vectors: Items<CostVec>,
    reader: LineReader,
    state: ProofState,
    refused: Option<(u64, Why)>,
    failed: bool,
    finished: bool,
}

impl Model for Checker {
    ghost use Rattle.std.specs.Coded.{codes};
    ghost use Rattle.proof_laws.specs.State.{Fits};
    ghost use Rattle.proof_rules.specs.StateCode.{state_code};
    ghost use Rattle.log_checker.specs.Checking.{CheckerValue};
    ghost use Rattle.log_checker.specs.Judging.{IsReading, IsSettled, earlier};

    ghost Value = { CheckerValue };

    ghost coded = { Prim.hlevel (codes, state_code) };

    ghost view = { λ c. record {
      problem = c.problem;
      vectors = c.vectors;
      reader = c.reader;
      state = c.state;
      refused = c.refused;
      failed = c.failed;
      finished = c.finished;
    } };

    ghost invariant = { λ c. Fits c.problem c.state × IsReading c.reader
        × IsSettled c.finished (earlier c.refused c.failed) c.reader c.state };
}

impl Checker {
    /// A checker to which nothing was fed, with a copy of the problem.
    pub fn new(
        alloc: Global,
        problem: &PbProblem,
        vectors: Items<CostVec>,
    ) -> Result<Checker, NoMemory>
        ensures problem { IfOk result (λ c. c.problem ≡ problem.now) }
        ensures vectors { IfOk result (λ c. c.vectors ≡ vectors) }
        ensures stands { IfOk result (λ c. StandsFor c []) }
        ensures unfinished { IfOk result (λ c. c.finished ≡ false) }
    {
        let problem = problem.copy(alloc)?;
        let state = ProofState::new(alloc, &problem)?;
        Ok(Checker {
            problem,
            vectors,
            reader: LineReader::new(alloc),
            state,
            refused: None,
            failed: false,
            finished: false,
        })
    }

    /// Judges the lines that the next piece makes whole. `Refused` with the first line of all bytes that
    /// is refused, and the same again after it; a first line that isn't a header is as soon as its bytes
    /// differ. `NoMemory` where memory was refused, and again after it.
    ///
    /// A line costs its step, and what it logs the objectives of each vector.
    pub fn feed(&mut self, piece: &[u8]) -> Result<(), CheckFault>
        requires unfinished { self.old.finished ≡ false }
        ensures fed { (result ≡ Err CheckFault.NoMemory → ⊥) → (bytes : List ℕ)
            → StandsFor self.old bytes → StandsFor self.new (bytes ++ piece.now) }
        ensures passed { OnOk result ((bytes : List ℕ) → StandsFor self.old bytes
            → HasNoWholeFault self.old.problem self.old.vectors (bytes ++ piece.now)) }
        ensures refused { (k : ℕ) (why : Why) → result ≡ Err (CheckFault.Refused k why)
            → (bytes : List ℕ) → StandsFor self.old bytes
            → IsWholeFault self.old.problem self.old.vectors (bytes ++ piece.now) k why }
        ensures keeps { KeepsAnswer self.old self.new result }
        ensures problem { self.new.problem ≡ self.old.problem }
        ensures vectors { self.new.vectors ≡ self.old.vectors }
        ensures unfinished { self.new.finished ≡ false }
    {
        self.earlier()?;
        let answer = judge_piece(
            &self.problem,
            self.vectors.as_slice(),
            &mut self.reader,
            &mut self.state,
            piece,
        );
        self.note(answer);
        answer
    }

    /// Judges the end of the log; after it nothing is fed. `Refused` with the first line that is refused,
    /// or the line in whose midst the bytes end, or the line after the last where the proof hasn't ended;
    /// `NoMemory` where memory was refused; and the same answer again after each.
    pub fn finish(&mut self) -> Result<(), CheckFault>
        ensures ended { OnOk result ((bytes : List ℕ) → StandsFor self.old bytes
            → IsEndedProof self.old.problem self.old.vectors bytes) }
        ensures refused { (k : ℕ) (why : Why) → result ≡ Err (CheckFault.Refused k why)
            → (bytes : List ℕ) → StandsFor self.old bytes
            → IsLogFault self.old.problem self.old.vectors bytes k why }
        ensures stands { (result ≡ Err CheckFault.NoMemory → ⊥) → (bytes : List ℕ)
            → StandsFor self.old bytes → StandsFor self.new bytes }
        ensures keeps { KeepsAnswer self.old self.new result }
        ensures passes { self.old.finished ≡ true → self.old.failed ≡ false
            → self.old.refused ≡ None
            → IsOk result }
        ensures problem { self.new.problem ≡ self.old.problem }
        ensures vectors { self.new.vectors ≡ self.old.vectors }
        ensures finished { self.new.finished ≡ true }
    {
        let answer = self.conclusion();
        self.note(answer);
        self.finished = true;
        answer
    }

    // What the log comes to that has been fed.
    fn conclusion(&self) -> Result<(), CheckFault>
        ensures judged { (bytes : List ℕ) → StandsFor self.now bytes
            → JudgesEnd self.now.problem self.now.vectors bytes result }
        ensures settled { OnOk result (HasEnded self.now.reader self.now.state) }
        ensures earlier { IsAfter (earlier self.now.refused self.now.failed) result }
        ensures passes { self.now.finished ≡ true
            → earlier self.now.refused self.now.failed ≡ Ok tt → IsOk result }
        ensures no_list { (k : ℕ) (why : ListWhy)
            → result ≡ Err (CheckFault.ListRefused k why) → ⊥ }
    {
        self.earlier()?;
        if self.finished {
            return Ok(());
        }
        judge_end(&self.reader, &self.state)
    }

    // What was answered before and is to be answered again, if anything.
    fn earlier(&self) -> Result<(), CheckFault>
        ensures { result ≡ earlier self.now.refused self.now.failed }
    {
        match self.refused {
            Some((line, why)) => Err(CheckFault::Refused { line, why }),
            None => {
                if self.failed {
                    Err(CheckFault::NoMemory)
                } else {
                    Ok(())
                }
            }
        }
    }

    // Keeps what is to be answered again.
    fn note(&mut self, answer: Result<(), CheckFault>)
        ensures { self.new ≡ noted self.old answer }
    {
        match answer {
            Err(CheckFault::Refused { line, why }) => self.refused = Some((line, why)),
            Err(CheckFault::NoMemory) => self.failed = true,
            _ => {}
        }
    }
}

// Judges the lines that the piece makes whole.
fn judge_piece(
    problem: &PbProblem,
    vectors: &[CostVec],
    reader: &mut LineReader,
    state: &mut ProofState,
    piece: &[u8],
) -> Result<(), CheckFault>
    requires fits { Fits problem.now state.old }
    requires reading { IsReading reader.old }
    ensures fits { Fits problem.now state.new }
    ensures reading { IsReading reader.new }
    ensures no_list { (k : ℕ) (why : ListWhy) → result ≡ Err (CheckFault.ListRefused k why) → ⊥ }
    ensures judged { (bytes : List ℕ) (lines : List Line)
        → IsUnderway problem.now vectors.now reader.old state.old bytes lines
        → JudgesLines problem.now vectors.now reader.new state.new (bytes ++ piece.now) result }
{
    reader.feed(piece)?;
    judge_lines(problem, vectors, reader, state)
}
