// What a search is.
ghost use Rattle.std.specs.Prelude.{◌≡◌, ℕ, None, Ok, IfOk, IfErr, IfSome};
ghost use Rattle.pb_lin.specs.Problem.{ProblemValue};
ghost use Rattle.search_base.specs.Good.{GoesOn, IsGood, KeepsBoard};
ghost use Rattle.search_base.specs.Turns.{IsEndLine, IsInOrder, IsSearchFault, IsTurn};

use crate::{Board, Bounds, Turn};
use oracle::{Oracle, OracleFault};

/// A search for the front of one problem, turn by turn, beside others on one board. Its own number falls
/// where a turn takes no model.
pub trait Search {
    /// What a turn without a model lowers.
    ghost own: { Self → ℕ };

    /// It was made for this problem.
    ghost serves: { Self → ProblemValue → Type 0 };

    /// It does something before its first turn.
    ghost begins: { Self → Type 0 };

    /// What is done before the first turn: models may be taken onto the board, or it is proved that nothing is left: then
    /// the id of a live line `0 >= 1`. After `Spent` it may go on; after other faults it isn't used again. Nothing, unless a
    /// search says otherwise.
    fn begin<O: Oracle>(
        &mut self,
        _oracle: &mut O,
        _bounds: &mut Bounds,
        _board: &mut Board<'_>,
    ) -> Result<Option<u64>, OracleFault>
        requires good { IsGood (O.seen _oracle.old) _bounds.old _board.old }
        requires serves { serves self.old (O.seen _oracle.old).problem }
        ensures end { IfOk result (λ found. IfSome found
            (IsEndLine (O.seen _oracle.new).problem (O.seen _oracle.new).lines)) }
        ensures good { IsInOrder result → IsGood (O.seen _oracle.new) _bounds.new _board.new }
        ensures serves { IsInOrder result → serves self.new (O.seen _oracle.new).problem }
        ensures fault { IfErr result (IsSearchFault (O.seen _oracle.old) (O.seen _oracle.new)) }
        ensures goes_on { GoesOn (O.seen _oracle.old) (O.seen _oracle.new) }
        ensures board { KeepsBoard _board.old _board.new }
        ensures nothing { (begins self.old → ⊥)
            → (result ≡ Ok None) × (O.seen _oracle.new ≡ O.seen _oracle.old) }
        ensures same { (begins self.old → ⊥)
            → (self.new ≡ self.old) × (_bounds.new ≡ _bounds.old) × (_board.new ≡ _board.old) }
    {
        Ok(None)
    }

    /// One turn: takes one model onto the board, or moves on, or proves that nothing is left. After `Spent`
    /// it may be asked again; after other faults it isn't.
    fn turn<O: Oracle>(
        &mut self,
        oracle: &mut O,
        bounds: &mut Bounds,
        board: &mut Board<'_>,
    ) -> Result<Turn, OracleFault>
        requires good { IsGood (O.seen oracle.old) bounds.old board.old }
        requires serves { serves self.old (O.seen oracle.old).problem }
        ensures turn { IfOk result (IsTurn (O.seen oracle.old) (O.seen oracle.new)
            (own self.old) (own self.new)) }
        ensures good { IsInOrder result → IsGood (O.seen oracle.new) bounds.new board.new }
        ensures serves { IsInOrder result → serves self.new (O.seen oracle.new).problem }
        ensures fault { IfErr result (IsSearchFault (O.seen oracle.old) (O.seen oracle.new)) }
        ensures goes_on { GoesOn (O.seen oracle.old) (O.seen oracle.new) }
        ensures board { KeepsBoard board.old board.new };
}
