// Trimming a proof.
ghost use Rattle.std.specs.Prelude.{◌≡◌, ◌≤◌, ◌+◌, ◌^◌, [], IfOk, length};
ghost use Rattle.command_trim.specs.Marks.{made_by};
ghost use Rattle.command_trim.specs.Renames.{renaming};
ghost use Rattle.command_trim.specs.Trimmed.{kept_lines, stays, trimmed};

use crate::needing::needed;
use crate::renamed::{holds_made, new_line};
use crate::renames::Renames;
use pb_lin::PbProblem;
use proof_laws::Line;
use proof_lines::made;
use scut_base::{Items, NoMemory};
use std::alloc::Global;

/// The lines of a proof over the problem that its end needs, with new ids: those that define variables, the end, each line
/// that a needed one names, and the deletions of such. What other lines say of lines that are gone is left out.
///
/// Takes a byte a line and nine bytes for each id that the lines make, beside the lines that are kept; linear time.
pub fn trim(alloc: Global, problem: &PbProblem, lines: &[Line]) -> Result<Items<Line>, NoMemory>
    requires few { length problem.now.rows + 1 + made_by lines.now ≤ 2 ^ 63 }
    ensures { IfOk result (λ kept. kept ≡ trimmed problem.now lines.now) }
{
    let rows = problem.rows().len() as u64;
    let needs = needed(alloc, rows, lines)?;
    kept_lines(alloc, rows, &needs, lines)
}

// The lines that are kept, with new ids, where it is known which are needed.
fn kept_lines(
    alloc: Global,
    rows: u64,
    needs: &[bool],
    lines: &[Line],
) -> Result<Items<Line>, NoMemory>
    requires few { rows + 1 + made_by lines.now ≤ 2 ^ 63 }
    requires all { length needs.now ≡ length lines.now }
    ensures { IfOk result (λ kept. kept ≡ kept_lines (record { rows = rows; made = [] })
        (rows + 1) (rows + 1) needs.now lines.now) }
{
    let mut renames = Renames::new(alloc, rows);
    let mut kept = Items::new(alloc);
    let mut next = rows + 1;
    for (at, line) in lines.iter().enumerate() {
        let need = needs[at];
        if stays(&renames, need, line) {
            kept.push(new_line(alloc, &renames, line)?)?;
            renames.keep(line, next)?;
            next += made(line);
        } else {
            renames.leave_out(line)?;
        }
    }
    Ok(kept)
}

// Whether a line is kept: it is needed, or it deletes what a kept line has made.
fn stays(renames: &Renames, need: bool, line: &Line) -> bool
    ensures { result ≡ stays (renaming renames.now) need line.now }
{
    match line {
        Line::Del { ids } => holds_made(renames, ids.as_slice()),
        Line::Reduce { ids } => holds_made(renames, ids.as_slice()),
        _ => need,
    }
}
