// A search to its end, and the list of what it found.
ghost use Rattle.std.specs.Prelude.{◌≡◌, false, map, All, IfOk, IfErr, OnOk};
ghost use Rattle.std.specs.List.Sorted.{IsPermutation};
ghost use Rattle.front_set.specs.Vector.{AreRising};
ghost use Rattle.front_set.specs.Front.{vectors_of};
ghost use Rattle.instance.specs.ParetoFront.{listed_entry};
ghost use Rattle.instance_normal.specs.NormalForm.{IsNormalFormOf};
ghost use Rattle.proof_laws.specs.WellFormed.{IsWellFormed};
ghost use Rattle.sum_outputs.specs.Adding.{IsReady};
ghost use Rattle.search_base.specs.Boards.{IsBoard, IsModelPair};
ghost use Rattle.search_base.specs.CostBounds.{AreReforms, FitBounds};
ghost use Rattle.search_base.specs.Good.{IsGood, KeepsBoard};
ghost use Rattle.search_base.specs.Laws.{IsPrepared};
ghost use Rattle.search_base.specs.Logged.{LogsNone, logged};
ghost use Rattle.search_base.specs.Turns.{IsEndLine};
ghost use Rattle.certified_front.specs.Certified.{IsEnding};
ghost use Rattle.certified_front.specs.Stopping.{EndsBy, IsStop, SearchesFront, StaysWith};

use crate::{Ending, Found};
use cdcl_laws::learned_is_counted;
use front_set::Entry;
use instance::{Instance, listed};
use oracle::{Oracle, OracleFault};
use pb_lin::PbProblem;
use proof_laws::Line;
use proof_rules::RecordFault;
use scut_base::NoMemory;
use search_base::{Board, Bounds, Search, beginning_is_good, logged_is_reached, run_search};
use std::alloc::Global;
use sum_outputs::in_memory;
use totalizer::Reform;

// Searches from prepared lines, over objectives in other terms.
pub(crate) fn front_over<O: Oracle, S: Search>(
    alloc: Global,
    oracle: &mut O,
    problem: &PbProblem,
    inst: &Instance,
    reforms: Vec<Reform>,
    search: &mut S,
) -> Result<Found, RecordFault>
    requires normal { IsNormalFormOf inst.now problem.now }
    requires problem { (O.seen oracle.old).problem ≡ problem.now }
    requires prepared { IsPrepared (O.seen oracle.old) }
    requires reforms { AreReforms (O.seen oracle.old) reforms.items }
    requires serves { S.serves search.old problem.now }
    ensures { SearchesFront inst.now problem.now (O.seen oracle.old) (O.seen oracle.new) result }
{
    let mut bounds = in_memory(Bounds::new(alloc, reforms))?;
    front_with(alloc, oracle, problem, inst, &mut bounds, search)
}

// The same, on a board of its own.
fn front_with<O: Oracle, S: Search>(
    alloc: Global,
    oracle: &mut O,
    problem: &PbProblem,
    inst: &Instance,
    bounds: &mut Bounds,
    search: &mut S,
) -> Result<Found, RecordFault>
    requires normal { IsNormalFormOf inst.now problem.now }
    requires problem { (O.seen oracle.old).problem ≡ problem.now }
    requires prepared { IsPrepared (O.seen oracle.old) }
    requires fits { FitBounds (O.seen oracle.old) bounds.old }
    requires serves { S.serves search.old problem.now }
    ensures { SearchesFront inst.now problem.now (O.seen oracle.old) (O.seen oracle.new) result }
{
    beginning_is_good();
    let mut board = Board::new(alloc, problem, inst);
    front_on(alloc, oracle, inst, bounds, &mut board, search)
}

// Searches on this board, and lists what is on it then.
fn front_on<O: Oracle, S: Search>(
    alloc: Global,
    oracle: &mut O,
    inst: &Instance,
    bounds: &mut Bounds,
    board: &mut Board<'_>,
    search: &mut S,
) -> Result<Found, RecordFault>
    requires good { IsGood (O.seen oracle.old) bounds.old board.old }
    requires instance { board.old.instance ≡ inst.now }
    requires serves { S.serves search.old (O.seen oracle.old).problem }
    ensures { SearchesFront inst.now (O.seen oracle.old).problem (O.seen oracle.old)
        (O.seen oracle.new) result }
{
    logged_is_reached();
    let ending = search_to_the_end(oracle, bounds, board, search)?;
    let entries = in_memory(listed_models(alloc, inst, board))?;
    Ok(Found { entries, ending })
}

// The board's models with their costs, as a list shows them.
fn listed_models(alloc: Global, inst: &Instance, board: &Board<'_>) -> Result<Vec<Entry>, NoMemory>
    requires { All (IsModelPair inst.now) board.now.entries }
    ensures same { IfOk result
        (λ v. IsPermutation (map (listed_entry inst.now) board.now.entries) v.items) }
    ensures rising { IfOk result (λ v. AreRising (vectors_of v.items)) }
{
    listed(alloc, inst, board.front())
}

// Searches until nothing is left, and then ends the proof; or until all clauses that may be learned
// are spent.
fn search_to_the_end<O: Oracle, S: Search>(
    oracle: &mut O,
    bounds: &mut Bounds,
    board: &mut Board<'_>,
    search: &mut S,
) -> Result<Ending, RecordFault>
    requires good { IsGood (O.seen oracle.old) bounds.old board.old }
    requires serves { S.serves search.old (O.seen oracle.old).problem }
    ensures ending { IfOk result
        (IsEnding (O.seen oracle.old).limit (O.seen oracle.new).problem (O.seen oracle.new).lines) }
    ensures whole { OnOk result ((O.seen oracle.new).broken ≡ false) }
    ensures entries { OnOk result
        (IsBoard board.new (logged (O.seen oracle.new).problem (O.seen oracle.new).lines)) }
    ensures stop { IfErr result (IsStop (O.seen oracle.old) (O.seen oracle.new)) }
    ensures stays { StaysWith (O.seen oracle.old) (O.seen oracle.new) }
    ensures board { KeepsBoard board.old board.new }
{
    learned_is_counted();
    match run_search(oracle, bounds, board, search) {
        Ok(id) => end_proof(oracle, id),
        Err(OracleFault::Spent { learned }) => Ok(Ending::Incomplete { learned }),
        Err(OracleFault::Failed) => Err(RecordFault::Failed),
        Err(OracleFault::Full) => Err(RecordFault::Full),
        Err(OracleFault::NoMemory) => Err(RecordFault::NoMemory),
    }
}

// Ends the proof by a live line `0 >= 1`.
fn end_proof<O: Oracle>(oracle: &mut O, id: u64) -> Result<Ending, RecordFault>
    requires ready { IsReady (O.seen oracle.old) }
    requires line { IsEndLine (O.seen oracle.old).problem (O.seen oracle.old).lines id }
    ensures ending { IfOk result
        (IsEnding (O.seen oracle.old).limit (O.seen oracle.new).problem (O.seen oracle.new).lines) }
    ensures whole { OnOk result ((O.seen oracle.new).broken ≡ false) }
    ensures logged { LogsNone (O.seen oracle.old).problem (O.seen oracle.old).lines
        (O.seen oracle.new).lines }
    ensures stop { IfErr result (IsStop (O.seen oracle.old) (O.seen oracle.new)) }
    ensures stays { StaysWith (O.seen oracle.old) (O.seen oracle.new) }
{
    // Tells that ids are below the next one.
    let _vars = oracle.state().vars();
    end_by(oracle, &Line::End { id })
}

// Ends the proof by this line, which its caller owns.
fn end_by<O: Oracle>(oracle: &mut O, line: &Line) -> Result<Ending, RecordFault>
    requires ready { IsReady (O.seen oracle.old) }
    requires formed { IsWellFormed line.now }
    requires line { EndsBy (O.seen oracle.old) line.now }
    ensures ending { IfOk result
        (IsEnding (O.seen oracle.old).limit (O.seen oracle.new).problem (O.seen oracle.new).lines) }
    ensures whole { OnOk result ((O.seen oracle.new).broken ≡ false) }
    ensures logged { LogsNone (O.seen oracle.old).problem (O.seen oracle.old).lines
        (O.seen oracle.new).lines }
    ensures stop { IfErr result (IsStop (O.seen oracle.old) (O.seen oracle.new)) }
    ensures stays { StaysWith (O.seen oracle.old) (O.seen oracle.new) }
{
    oracle.add_line(line)?;
    // Tells that the lines still reach a state.
    let _state = oracle.state();
    Ok(Ending::Complete)
}
