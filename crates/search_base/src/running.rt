// A search, turn after turn.
ghost use Rattle.std.specs.Prelude.{IfOk, IfErr, MatchOption};
ghost use Rattle.search_base.specs.Good.{GoesOn, IsGood, KeepsBoard};
ghost use Rattle.search_base.specs.Turns.{FindsNew, IsEndLine, IsInOrder, IsSearchFault};

use crate::{Board, Bounds, Search, Turn};
use oracle::{Oracle, OracleFault};

/// Begins, and goes on until nothing is left; answers the id of a live line `0 >= 1`. It ends: a turn that takes a
/// model lowers the number of uncovered vectors of the cost box, and any other the search's own number. After `Spent`
/// the search may go on.
pub fn run_search<O: Oracle, S: Search>(
    oracle: &mut O,
    bounds: &mut Bounds,
    board: &mut Board<'_>,
    search: &mut S,
) -> Result<u64, OracleFault>
    requires good { IsGood (O.seen oracle.old) bounds.old board.old }
    requires serves { S.serves search.old (O.seen oracle.old).problem }
    ensures end { IfOk result (IsEndLine (O.seen oracle.new).problem (O.seen oracle.new).lines) }
    ensures good { IsInOrder result → IsGood (O.seen oracle.new) bounds.new board.new }
    ensures serves { IsInOrder result → S.serves search.new (O.seen oracle.new).problem }
    ensures fault { IfErr result (IsSearchFault (O.seen oracle.old) (O.seen oracle.new)) }
    ensures goes_on { GoesOn (O.seen oracle.old) (O.seen oracle.new) }
    ensures board { KeepsBoard board.old board.new }
{
    match search.begin(oracle, bounds, board)? {
        Some(id) => Ok(id),
        None => run_turns(oracle, bounds, board, search),
    }
}

// Goes on turn by turn until nothing is left.
fn run_turns<O: Oracle, S: Search>(
    oracle: &mut O,
    bounds: &mut Bounds,
    board: &mut Board<'_>,
    search: &mut S,
) -> Result<u64, OracleFault>
    requires good { IsGood (O.seen oracle.old) bounds.old board.old }
    requires serves { S.serves search.old (O.seen oracle.old).problem }
    ensures end { IfOk result (IsEndLine (O.seen oracle.new).problem (O.seen oracle.new).lines) }
    ensures good { IsInOrder result → IsGood (O.seen oracle.new) bounds.new board.new }
    ensures serves { IsInOrder result → S.serves search.new (O.seen oracle.new).problem }
    ensures fault { IfErr result (IsSearchFault (O.seen oracle.old) (O.seen oracle.new)) }
    ensures goes_on { GoesOn (O.seen oracle.old) (O.seen oracle.new) }
    ensures board { KeepsBoard board.old board.new }
{
    loop {
        if let Some(id) = next_model(oracle, bounds, board, search)? {
            return Ok(id);
        }
    }
}

// Goes on until a model was taken, or nothing is left: then the id of a live line `0 >= 1`.
fn next_model<O: Oracle, S: Search>(
    oracle: &mut O,
    bounds: &mut Bounds,
    board: &mut Board<'_>,
    search: &mut S,
) -> Result<Option<u64>, OracleFault>
    requires good { IsGood (O.seen oracle.old) bounds.old board.old }
    requires serves { S.serves search.old (O.seen oracle.old).problem }
    ensures found { IfOk result (λ found. MatchOption found (FindsNew (O.seen oracle.old)
        (O.seen oracle.new)) (IsEndLine (O.seen oracle.new).problem (O.seen oracle.new).lines)) }
    ensures good { IsInOrder result → IsGood (O.seen oracle.new) bounds.new board.new }
    ensures serves { IsInOrder result → S.serves search.new (O.seen oracle.new).problem }
    ensures fault { IfErr result (IsSearchFault (O.seen oracle.old) (O.seen oracle.new)) }
    ensures goes_on { GoesOn (O.seen oracle.old) (O.seen oracle.new) }
    ensures board { KeepsBoard board.old board.new }
{
    loop {
        match search.turn(oracle, bounds, board)? {
            Turn::Found => return Ok(None),
            Turn::Moved => {}
            Turn::Finished { id } => return Ok(Some(id)),
        }
    }
}
