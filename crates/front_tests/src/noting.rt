// Searches that only note their turns.
ghost use Rattle.search_base.specs.Good.{IsGood};
ghost use Rattle.portfolio.specs.Cycles.{AreTurns};

use oracle::{Oracle, OracleFault};
use portfolio::run_turns;
use search_base::{Board, Bounds, Search, Turn};
use std::cell::Cell;

// A search that only notes its number, behind the digits of those whose turns came before.
#[derive(Drop)]
struct Noting<'a> {
    number: u64,
    left: u64,
    notes: &'a Cell<u64>,
}

impl<'a> Search for Noting<'a> {
    ghost own = { λ s. s.left };

    ghost serves = { λ s p. Unit {0} };

    ghost begins = { λ s. ⊥ };

    /// Notes its number, or gives up where no turn is left.
    fn turn<O: Oracle>(
        &mut self,
        _oracle: &mut O,
        _bounds: &mut Bounds,
        _board: &mut Board<'_>,
    ) -> Result<Turn, OracleFault> {
        if self.left == 0 {
            return Err(OracleFault::NoMemory);
        }
        self.left -= 1;
        let before = self.notes.get().saturating_mul(10);
        self.notes.set(before.saturating_add(self.number));
        Ok(Turn::Moved)
    }
}

// The numbers of three searches in the order of their turns, until one gives up after so many. They never end else.
pub fn order_of<O: Oracle>(
    oracle: &mut O,
    bounds: &mut Bounds,
    board: &mut Board<'_>,
    left: [u64; 3],
    turns: &[u8],
) -> u64
    requires good { IsGood (O.seen oracle.old) bounds.old board.old }
    requires turns { AreTurns 3 turns.now }
{
    let notes = Cell::new(0);
    let mut first = Noting {
        number: 1,
        left: left[0],
        notes: &notes,
    };
    let mut second = Noting {
        number: 2,
        left: left[1],
        notes: &notes,
    };
    let mut third = Noting {
        number: 3,
        left: left[2],
        notes: &notes,
    };
    let _ended = run_turns(
        oracle,
        bounds,
        board,
        &mut first,
        &mut second,
        Some(&mut third),
        turns,
    );
    notes.get()
}
