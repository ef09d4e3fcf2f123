// The front as far as relaxations find it, before a search's first turn (DECISIONS, relaxations-alone).
ghost use Rattle.std.specs.Prelude.{◌≡◌, true, None, Ok, IfOk, IfErr, IfSome, IsOk, OnOk};
ghost use Rattle.sum_outputs.specs.Adding.{IsFaultAt};
ghost use Rattle.search_base.specs.Good.{GoesOn, IsGood, KeepsBoard};
ghost use Rattle.search_base.specs.Pending.{AreOwnTerms, IsGoodBut};
ghost use Rattle.search_base.specs.Turns.{IsEndLine, IsInOrder, IsSearchFault};
ghost use Rattle.relaxations.specs.Ending.{IsKeptEnd};

use crate::allowance::purse_by_root;
use crate::asking::Asking;
use crate::defined_outputs::DefinedOutputs;
use crate::ending::{end_line, tie_bounds};
use crate::finding::find_all;
use crate::limits::{LEAST_TERMS, LEAST_VARIABLES};
use crate::open_boxes::OpenBoxes;
use linear_search::LinearSearch;
use oracle::{Oracle, OracleFault};
use pb_lin::PbProblem;
use proof_rules::{RecordFault, Recorder};
use scut_base::{Assignment, Items};
use search_base::{Board, Bounds, adding_stays_good_but, end_is_good, good_but_for_none};
use std::alloc::Global;

// What relaxations with open boxes tell of a problem's front, before a search's first turn: each model that they find
// is taken onto the board, until all boxes are closed or a question stays open. Where all are closed and the oracle
// answers that nothing is left, the id of a live line `0 >= 1`; else `None`, and the bounds have the outputs that a
// search needs to go on from there. Nothing is done where an objective is in other terms than its own, all objectives
// have few terms, or there is none and the problem is small.
//
// Questions end where the relaxation has done so much work in all. Costs what `LinearSearch::ask` does for each question, and at its end a call of the oracle, or totalizers' outputs.
pub(crate) fn linear_front<O: Oracle>(
    alloc: Global,
    linear: &mut LinearSearch,
    boxes: &mut OpenBoxes,
    most: u64,
    oracle: &mut O,
    bounds: &mut Bounds,
    board: &mut Board<'_>,
) -> Result<Option<u64>, OracleFault>
    requires good { IsGood (O.seen oracle.old) bounds.old board.old }
    ensures end { IfOk result (λ found. IfSome found
        (IsEndLine (O.seen oracle.new).problem (O.seen oracle.new).lines)) }
    ensures good { IsInOrder result → IsGood (O.seen oracle.new) bounds.new board.new }
    ensures fault { IfErr result (IsSearchFault (O.seen oracle.old) (O.seen oracle.new)) }
    ensures goes_on { GoesOn (O.seen oracle.old) (O.seen oracle.new) }
    ensures board { KeepsBoard board.old board.new }
    ensures other_terms { (AreOwnTerms bounds.old → ⊥)
        → (result ≡ Ok None) × (O.seen oracle.new ≡ O.seen oracle.old) }
    ensures same { (AreOwnTerms bounds.old → ⊥)
        → (bounds.new ≡ bounds.old) × (board.new ≡ board.old) }
{
    good_but_for_none();
    end_is_good();
    if !may_tell(linear, bounds, board.problem()) {
        return Ok(None);
    }
    let root = linear.root_work()?;
    linear.set_purse(purse_by_root(board.problem(), linear.purse(), root, most));
    let defined = DefinedOutputs::new(alloc, board.problem().costs().len())?;
    let mut asking = Asking {
        alloc,
        linear,
        most,
        defined,
    };
    let mut pending = Items::new(alloc);
    if let Some(id) = find_end(&mut asking, boxes, oracle, bounds, board, &mut pending)? {
        return Ok(Some(id));
    }
    settle(&asking, oracle, bounds, board, &mut pending)?;
    Ok(None)
}

// Whether the relaxation can be asked, objectives are in their own terms, and it is worth it.
fn may_tell(linear: &LinearSearch, bounds: &Bounds, problem: &PbProblem) -> bool
    ensures { result ≡ true → AreOwnTerms bounds.now }
{
    bounds.are_own_terms() && !linear.is_spent() && is_worth_it(problem)
}

// Whether some objective isn't short, or there is none and the problem isn't small.
fn is_worth_it(problem: &PbProblem) -> bool {
    if problem.costs().is_empty() {
        return problem.vars() >= LEAST_VARIABLES;
    }
    has_long_objective(problem)
}

// Whether some objective has so many terms that its totalizer isn't small.
fn has_long_objective(problem: &PbProblem) -> bool {
    problem
        .costs()
        .iter()
        .any(|row| LEAST_TERMS <= row.terms().len())
}

// Finds what the relaxation does, and a kept line `0 >= 1` where it closed all boxes and the oracle answers that
// nothing is left.
fn find_end<O: Oracle>(
    asking: &mut Asking<'_>,
    boxes: &mut OpenBoxes,
    oracle: &mut O,
    bounds: &Bounds,
    board: &mut Board<'_>,
    pending: &mut Items<Assignment>,
) -> Result<Option<u64>, OracleFault>
    requires good { IsGoodBut (O.seen oracle.old) bounds.now board.old pending.old }
    ensures ended { IfOk result (λ found. IfSome found (IsKeptEnd (O.seen oracle.new))) }
    ensures good { OnOk result (IsGoodBut (O.seen oracle.new) bounds.now board.new pending.new) }
    ensures fault { IfErr result (IsSearchFault (O.seen oracle.old) (O.seen oracle.new)) }
    ensures unspent { IsInOrder result → IsOk result }
    ensures goes_on { GoesOn (O.seen oracle.old) (O.seen oracle.new) }
    ensures board { KeepsBoard board.old board.new }
{
    if !find_all(asking, boxes, oracle, bounds, board, pending)? {
        return Ok(None);
    }
    end_line(asking.alloc, oracle)
}

// Makes the state good again: the bounds get what the relaxation has defined, and the models are settled.
fn settle<R: Recorder>(
    asking: &Asking<'_>,
    rec: &mut R,
    bounds: &mut Bounds,
    board: &mut Board<'_>,
    pending: &mut Items<Assignment>,
) -> Result<(), RecordFault>
    requires good { IsGoodBut (R.seen rec.old) bounds.old board.old pending.old }
    requires own { AreOwnTerms bounds.old }
    ensures good { OnOk result (IsGood (R.seen rec.new) bounds.new board.new) }
    ensures fault { IfErr result (IsFaultAt (R.seen rec.old) (R.seen rec.new)) }
    ensures goes_on { GoesOn (R.seen rec.old) (R.seen rec.new) }
    ensures board { KeepsBoard board.old board.new }
{
    adding_stays_good_but();
    tie_bounds(asking.alloc, rec, bounds, board.problem(), &asking.defined)?;
    board.settle(rec, bounds, pending)
}
