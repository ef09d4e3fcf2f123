// Derived clauses, written as lines.
ghost use Rattle.std.specs.Prelude.{◌≡◌, IfErr, IfOk, IfSome, OnOk};
ghost use Rattle.pb_lin.specs.Problem.{IsProblem};
ghost use Rattle.recording.specs.Recorded.{IsReady};
ghost use Rattle.recording.specs.Adding.{Adds, IsFaultAt};
ghost use Rattle.oracle.specs.Solving.{IsCore, IsDerived, Reaches};

use clause_engine::Engine;
use hint_rup::Hint;
use oracle::{Core, core_of};
use pb_lin::{Constraint, LinFault};
use proof_laws::Line;
use proof_rules::{Judge, RecordFault, Recorder};
use recording::{in_memory, take_advice};
use scut_base::{Items, Lit, NoMemory};
use std::alloc::Global;

// Writes the derived clauses that the engine's last answer stands on, each as a line that is judged; `false` where one isn't
// legal, and then those before it are written.
pub(crate) fn write_needed<R: Recorder>(
    alloc: Global,
    judge: &mut Judge<'_>,
    rec: &mut R,
    engine: &mut Engine,
) -> Result<bool, RecordFault>
    requires ready { IsReady (R.seen rec.old) }
    requires same { (R.seen rec.old).problem ≡ judge.old }
    requires problem { IsProblem judge.old }
    ensures adds { Adds IsDerived (R.seen rec.old) (R.seen rec.new) }
    ensures ready { OnOk result (IsReady (R.seen rec.new)) }
    ensures fault { IfErr result (IsFaultAt (R.seen rec.old) (R.seen rec.new)) }
{
    for record in in_memory(engine.needed())?.iter() {
        if !write(alloc, judge, rec, engine, *record)? {
            return Ok(false);
        }
    }
    Ok(true)
}

// Writes a derived clause.
fn write<R: Recorder>(
    alloc: Global,
    judge: &mut Judge<'_>,
    rec: &mut R,
    engine: &mut Engine,
    record: u32,
) -> Result<bool, RecordFault>
    requires ready { IsReady (R.seen rec.old) }
    requires same { (R.seen rec.old).problem ≡ judge.old }
    requires problem { IsProblem judge.old }
    ensures adds { Adds IsDerived (R.seen rec.old) (R.seen rec.new) }
    ensures ready { OnOk result (IsReady (R.seen rec.new)) }
    ensures fault { IfErr result (IsFaultAt (R.seen rec.old) (R.seen rec.new)) }
    ensures judge { judge.new ≡ judge.old }
{
    let id = rec.state().next_id();
    let Some(line) = in_memory(line_of(alloc, engine, record))? else {
        return Ok(false);
    };
    if take_advice(judge, rec, &[line])? == 0 {
        return Ok(false);
    }
    engine.note_line(record, id);
    Ok(true)
}

// The line of a derived clause; none where its literals make no clause.
fn line_of(alloc: Global, engine: &Engine, record: u32) -> Result<Option<Line>, NoMemory>
    ensures { IfOk result (λ line. IfSome line IsDerived) }
{
    let mut terms = Vec::new(alloc);
    for lit in engine.clause(record)?.iter() {
        terms.push((1i128, *lit))?;
    }
    let goal = match Constraint::normal(alloc, terms.as_slice(), 1) {
        Ok(goal) => goal,
        Err(LinFault::NoMemory) => return Err(NoMemory),
        Err(_) => return Ok(None),
    };
    let hints = hints_of(alloc, engine.hints(record)?.as_slice())?;
    Ok(Some(Line::Rup { goal, hints }))
}

fn hints_of(alloc: Global, ids: &[u64]) -> Result<Items<Hint>, NoMemory> {
    let mut hints = Items::with_capacity(alloc, ids.len())?;
    for id in ids {
        hints.push(Hint::Id(*id))?;
    }
    Ok(hints)
}

// What the live clause of this id tells of the assumptions; none where there is no such clause, or one of its literals isn't denied by them.
pub(crate) fn core_at<R: Recorder>(
    alloc: Global,
    rec: &R,
    id: u64,
    assumed: &[Lit],
) -> Result<Option<Core>, NoMemory>
    ensures { IfOk result (λ found. IfSome found
        (λ k. Reaches (R.seen rec.now).problem (R.seen rec.now).lines (IsCore assumed.now k.lits k.id))) }
{
    match rec.state().live().get(id) {
        Some(line) if line.is_clause() => core_of(alloc, id, line.literals(), assumed),
        _ => Ok(None),
    }
}
