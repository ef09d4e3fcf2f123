// The lines of a log, elaborated as they come.
ghost use Rattle.std.specs.Prelude.{◌≡◌, ◌+◌, [], IfOk};
ghost use Rattle.command_elaborate.specs.Elaborating.{HasAnswered, line_answer};

use crate::elaborator::Elaborator;
use crate::fault::ElabFault;
use command_base::{AnswersLine, LineFault};
use pb_lin::PbProblem;
use proof_laws::Line;
use scut_base::NoMemory;
use std::alloc::Global;

// Answers each line of a log by itself, or with the hints that it needs.
#[derive(Debug, Drop)]
pub(crate) struct LogElaborator {
    elaborator: Elaborator,
}

impl LogElaborator {
    // One to which no line was given.
    pub(crate) fn new(alloc: Global, problem: &PbProblem) -> Result<LogElaborator, NoMemory>
        ensures problem { IfOk result (λ e. e.elaborator.problem ≡ problem.now) }
        ensures fresh { IfOk result (λ e. HasAnswered e.elaborator [] []) }
    {
        let elaborator = Elaborator::new(alloc, problem)?;
        Ok(LogElaborator { elaborator })
    }

    // The number of the line that comes next: the header is the first.
    fn next_number(&self) -> u64
        ensures { result ≡ self.now.elaborator.state.lines + 2 }
    {
        let state = self.elaborator.state();
        // Tells that there were at most 2^61 lines.
        let _vars = state.vars();
        state.lines() + 2
    }
}

impl AnswersLine for LogElaborator {
    ghost use Rattle.pb_lin.specs.Problem.{ProblemValue};
    ghost use Rattle.command_elaborate.specs.Elaborating.{HasAnswered, Refuses};

    ghost Subject = { ProblemValue };

    ghost subject = { λ e. e.elaborator.problem };

    ghost answers = { λ e. HasAnswered e.elaborator };

    ghost refuses = { λ e. Refuses e.elaborator };

    fn answer(&mut self, line: Line) -> Result<Line, LineFault> {
        let number = self.next_number();
        line_answer(number, self.elaborator.add(&line))
    }
}

// The answer of an elaborator to the line of this number.
fn line_answer(number: u64, answer: Result<Line, ElabFault>) -> Result<Line, LineFault>
    ensures { result ≡ line_answer number answer }
{
    match answer {
        Ok(new) => Ok(new),
        Err(ElabFault::Refused(why)) => Err(LineFault::Refused { line: number, why }),
        Err(ElabFault::NoMemory) => Err(LineFault::NoMemory),
    }
}
