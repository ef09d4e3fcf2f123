// Which lines are needed, from the end of the proof back.
ghost use Rattle.std.specs.Prelude.{◌≡◌, ◌<◌, ◌≤◌, ◌+◌, ◌-◌, ◌^◌, ◌++◌, ℕ, List, IfOk, length};
ghost use Rattle.proof_laws.specs.Steps.{made};
ghost use Rattle.command_trim.specs.Marks.{AreMarked, made_by, named_if};
ghost use Rattle.command_trim.specs.Trimmed.{is_needed, needed};

use crate::ids::push_named;
use crate::marks::{mark_all, no_marks};
use proof_laws::Line;
use proof_lines::made;
use scut_base::{Items, NoMemory};
use std::alloc::Global;

// For each line whether it is needed.
pub(crate) fn needed(alloc: Global, rows: u64, lines: &[Line]) -> Result<Vec<bool>, NoMemory>
    requires few { rows + 1 + made_by lines.now ≤ 2 ^ 63 }
    ensures { IfOk result (λ needs. needs.items ≡ needed (rows + 1) lines.now) }
{
    let count = ids_made(lines);
    let mut marks = no_marks(alloc, count)?;
    let mut needs = vec![in alloc; false; lines.len()]?;
    let mut ids = Items::new(alloc);
    let mut next = rows + 1 + count;
    let mut at = lines.len();
    while at > 0 {
        at -= 1;
        next -= made(&lines[at]);
        needs[at] = judge(&mut marks, &mut ids, rows, next, &lines[at])?;
    }
    Ok(needs)
}

// Whether a line is needed that would make the id `next`, where what later needed lines name is marked. If so, what it names is
// marked too. The list of ids is room that is kept.
fn judge(
    marks: &mut Items<bool>,
    ids: &mut Items<u64>,
    rows: u64,
    next: u64,
    line: &Line,
) -> Result<bool, NoMemory>
    requires next { rows < next }
    requires place { 0 < made line.now → next - rows ≤ length marks.old }
    ensures needed { IfOk result (λ need. (later : List ℕ) → AreMarked rows marks.old later
        → need ≡ is_needed next line.now later) }
    ensures marked { IfOk result (λ need. (later : List ℕ) → AreMarked rows marks.old later
        → AreMarked rows marks.new (named_if need line.now ++ later)) }
    ensures count { length marks.new ≡ length marks.old }
{
    let need = is_needed(marks.as_slice(), next - rows - 1, line);
    if need {
        ids.truncate(0);
        push_named(ids, line)?;
        mark_all(marks, rows, ids.as_slice());
    }
    Ok(need)
}

// How many ids the lines make.
fn ids_made(lines: &[Line]) -> u64
    requires { made_by lines.now ≤ 2 ^ 63 }
    ensures { result ≡ made_by lines.now }
{
    let mut count = 0;
    for line in lines {
        count += made(line);
    }
    count
}

// Whether a line is needed that would make the id at this place behind those of the rows, where these are marked.
fn is_needed(marks: &[bool], place: u64, line: &Line) -> bool
    ensures { (rows : ℕ) (later : List ℕ) → AreMarked rows marks.now later
        → (0 < made line.now → place < length marks.now)
        → result ≡ is_needed (rows + 1 + place) line.now later }
{
    match line {
        Line::Def { .. } | Line::End { .. } => true,
        Line::Del { .. } | Line::Reduce { .. } => false,
        _ => marks.get(place as usize).copied().unwrap_or(false),
    }
}
