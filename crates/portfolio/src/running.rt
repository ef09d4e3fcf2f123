// A run of turns.
ghost use Rattle.std.specs.Prelude.{IfOk, IfErr, IfSome};
ghost use Rattle.std.specs.Option.{option_copied_mut};
ghost use Rattle.search_base.specs.Good.{GoesOn, IsGood, KeepsBoard};
ghost use Rattle.search_base.specs.Turns.{IsEndLine, IsInOrder, IsSearchFault};
ghost use Rattle.portfolio.specs.Cycles.{AreTurns, search_count};

use crate::Cycle;
use oracle::{Oracle, OracleFault};
use search_base::{Board, Bounds, Search, run_search};

/// Goes through the list of turns again and again, until a search proves that nothing is left: then the id of a
/// live line `0 >= 1`. It ends: each turn lowers the number of uncovered vectors of the cost box, or keeps it
/// and lowers the own number of the search whose turn it is, and no other's.
pub fn run_turns<O: Oracle, A: Search, B: Search, C: Search>(
    oracle: &mut O,
    bounds: &mut Bounds,
    board: &mut Board<'_>,
    first: &mut A,
    second: &mut B,
    third: Option<&mut C>,
    turns: &[u8],
) -> Result<u64, OracleFault>
    requires good { IsGood (O.seen oracle.old) bounds.old board.old }
    requires first { A.serves first.old (O.seen oracle.old).problem }
    requires second { B.serves second.old (O.seen oracle.old).problem }
    requires third { IfSome (option_copied_mut third)
        (λ search. C.serves search (O.seen oracle.old).problem) }
    requires turns { AreTurns (search_count (option_copied_mut third)) turns.now }
    ensures end { IfOk result (IsEndLine (O.seen oracle.new).problem (O.seen oracle.new).lines) }
    ensures good { IsInOrder result → IsGood (O.seen oracle.new) bounds.new board.new }
    ensures fault { IfErr result (IsSearchFault (O.seen oracle.old) (O.seen oracle.new)) }
    ensures goes_on { GoesOn (O.seen oracle.old) (O.seen oracle.new) }
    ensures board { KeepsBoard board.old board.new }
{
    let mut cycle = Cycle::new(first, second, third, turns);
    run_search(oracle, bounds, board, &mut cycle)
}
