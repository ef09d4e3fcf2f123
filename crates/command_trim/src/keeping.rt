// The lines of a log, judged as they come and kept.
ghost use Rattle.std.specs.Prelude.{◌≡◌, ◌<◌, ◌+◌, ℕ, List, [], true, IfOk, Ok};
ghost use Rattle.log_checker.specs.Judging.{left};
ghost use Rattle.command_trim.specs.Keeping.{AreFew, IsKeeping, IsSound};
ghost use Rattle.command_trim.specs.Keeping.{KeepsLines, KeepsNext, StandsFor, fault_of, kept_by};

use command_base::{LineFault, TakesLog};
use front_set::CostVec;
use log_checker::judge_line;
use pb_lin::PbProblem;
use proof_laws::{Line, Why};
use proof_rules::{ProofState, StepFault};
use proof_text::{LineReader, TextFault};
use scut_base::{Items, NoMemory};
use std::alloc::Global;

// A log that comes in pieces: judged over a problem and the vectors of a list, as by a `Checker`, and its lines kept.
#[derive(Debug, Drop)]
pub(crate) struct Keeper<'a> {
    problem: &'a PbProblem,
    vectors: &'a [CostVec],
    reader: LineReader,
    state: ProofState,
    lines: Items<Line>,
}

impl<'a> Keeper<'a> {
    // One to which nothing was fed.
    pub(crate) fn new(
        alloc: Global,
        problem: &'a PbProblem,
        vectors: &'a [CostVec],
    ) -> Result<Keeper<'a>, NoMemory>
        ensures stands { IfOk result (λ k. StandsFor k []) }
        ensures by { IfOk result (λ k. kept_by k
            ≡ record { problem = problem.entry.now; vectors = vectors.entry.now }) }
    {
        let state = ProofState::new(alloc, problem)?;
        Ok(Keeper {
            problem,
            vectors,
            reader: LineReader::new(alloc),
            state,
            lines: Items::new(alloc),
        })
    }

    // The lines that are kept.
    pub(crate) fn into_lines(self) -> Items<Line>
        requires { IsSound self }
        ensures lines { result ≡ self.entry.lines }
        ensures few { AreFew self.entry.problem.now self.entry.lines }
    {
        // Tells that there were at most 2^61 lines.
        let _vars = self.state.vars();
        self.lines
    }

    // Keeps the whole lines that the reader holds, up to the first that is refused.
    fn keep_lines(&mut self) -> Result<(), LineFault>
        requires { IsSound self.old }
        ensures kept { (bytes : List ℕ) → IsKeeping self.old bytes
            → KeepsLines self.new bytes result }
        ensures by { kept_by self.new ≡ kept_by self.old }
    {
        'lines: while self.keep_next()? {}
        Ok(())
    }

    // Keeps the next line, or answers that there is none.
    fn keep_next(&mut self) -> Result<bool, LineFault>
        requires { IsSound self.old }
        ensures kept { (bytes : List ℕ) → IsKeeping self.old bytes
            → KeepsNext self.new bytes result }
        ensures smaller { result ≡ Ok true → left self.new.reader < left self.old.reader }
        ensures by { kept_by self.new ≡ kept_by self.old }
    {
        let line = match self.reader.next_line() {
            Ok(Some(line)) => line,
            Ok(None) => return Ok(false),
            Err(fault) => return Err(fault_of(fault)),
        };
        let number = self.next_number();
        match judge_line(self.problem, self.vectors, &mut self.state, &line) {
            Ok(()) => {}
            Err(StepFault::Refused(why)) => return Err(LineFault::Refused { line: number, why }),
            Err(StepFault::NoMemory) => return Err(LineFault::NoMemory),
        }
        match self.lines.push(line) {
            Ok(()) => Ok(true),
            Err(NoMemory) => Err(LineFault::NoMemory),
        }
    }

    // The number of the line that comes next: the header is the first.
    fn next_number(&self) -> u64
        ensures { result ≡ self.now.state.lines + 2 }
    {
        // Tells that there were at most 2^61 lines.
        let _vars = self.state.vars();
        self.state.lines() + 2
    }
}

impl<'a> TakesLog for Keeper<'a> {
    ghost use Rattle.std.specs.Prelude.{[]};
    ghost use Rattle.std.proofs.Common.{inl, refl};
    ghost use Rattle.std.proofs.lemmas.List.Elements.{All-nil};
    ghost use Rattle.proof_laws.specs.State.{start};
    ghost use Rattle.proof_lines.specs.declared.spelling.Spelling.TheVariants.{Plain};
    ghost use Rattle.proof_text.specs.Versions.{header_text};
    ghost use Rattle.log_checker.proofs.Faults.{no_whole_fault, whole_fault_more};
    ghost use Rattle.log_checker.specs.Accepted.{IsCovered, IsEndedProof};
    ghost use Rattle.command_base.specs.Judging.{JudgedBy};
    ghost use Rattle.command_trim.specs.Keeping.{IsSound, StandsFor, every_by, kept_by, whole_by};

    ghost Subject = { JudgedBy };

    ghost subject = { kept_by };

    ghost whole = { whole_by };

    ghost every = { every_by };

    ghost passes = { λ by bytes. IsEndedProof by.problem by.vectors bytes };

    ghost stands = { StandsFor };

    ghost unfinished = { IsSound };

    ghost none = { λ by. no_whole_fault by.problem by.vectors [] [] (start by.problem) refl
        (All-nil (IsCovered by.vectors)) (inl (Plain, tt, (header_text Plain, refl))) };

    ghost further = { λ by bytes more k why fault.
        whole_fault_more by.problem by.vectors bytes more k why fault };

    fn feed(&mut self, piece: &[u8]) -> Result<(), LineFault> {
        match self.reader.feed(piece) {
            Ok(()) => self.keep_lines(),
            Err(NoMemory) => Err(LineFault::NoMemory),
        }
    }

    fn finish(&mut self) -> Result<(), LineFault> {
        match self.reader.finish() {
            Ok(()) => {}
            Err(fault) => return Err(fault_of(fault)),
        }
        if !self.state.ended() {
            return Err(LineFault::Refused {
                line: self.next_number(),
                why: Why::NoEnd,
            });
        }
        Ok(())
    }
}

// Why a text isn't read, as the fault of a line.
fn fault_of(fault: TextFault) -> LineFault
    ensures { result ≡ fault_of fault }
{
    match fault {
        TextFault::Syntax { line } => LineFault::Refused {
            line,
            why: Why::Syntax,
        },
        TextFault::NoMemory => LineFault::NoMemory,
    }
}
