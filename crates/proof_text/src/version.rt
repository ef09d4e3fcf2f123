// The versions of a log.
ghost use Rattle.std.specs.Prelude.{◌≡◌};
ghost use Rattle.proof_lines.specs.Ids.{FitsNext, IsSpelling, after_line};
ghost use Rattle.proof_text.specs.Versions.{IsFirst, first_of, spelling_at};

use pb_lin::PbProblem;
use proof_laws::Line;
use proof_lines::{Spelling, made};
use proof_rules::ProofState;

/// A version of the text of a log.
#[derive(Clone, Copy, Debug, PartialEq, Eq)]
pub enum LogVersion {
    /// Ids stand in digits.
    One,
    /// Ids that lines made are counted back from the next one, and runs of deleted ids are shortened.
    Two,
}

/// How the first line of a log of this version over the problem spells its ids.
pub fn first_of(version: LogVersion, problem: &PbProblem) -> Spelling
    ensures value { result ≡ first_of version problem.now }
    ensures first { IsFirst result }
{
    // Tells that it has at most 2^34 rows.
    let _vars = problem.vars();
    match version {
        LogVersion::One => Spelling::Plain,
        LogVersion::Two => {
            let rows = problem.rows().len() as u64;
            Spelling::Relative {
                rows,
                next_id: rows + 1,
            }
        }
    }
}

/// How the line after a state of such a log spells its ids.
pub(crate) fn spelling_at(version: LogVersion, problem: &PbProblem, state: &ProofState) -> Spelling
    ensures { result ≡ spelling_at version problem.now state.now }
{
    match version {
        LogVersion::One => Spelling::Plain,
        LogVersion::Two => Spelling::Relative {
            rows: problem.rows().len() as u64,
            next_id: state.next_id(),
        },
    }
}

/// How ids are spelled after the line.
pub fn after_line(spelling: Spelling, line: &Line) -> Spelling
    requires { FitsNext spelling line.now }
    ensures value { result ≡ after_line spelling line.now }
    ensures fine { IsSpelling result }
{
    match spelling {
        Spelling::Plain => Spelling::Plain,
        Spelling::Relative { rows, next_id } => Spelling::Relative {
            rows,
            next_id: next_id + made(line),
        },
    }
}
