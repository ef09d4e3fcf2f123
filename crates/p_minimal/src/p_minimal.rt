// The search for minimal models.
ghost use Rattle.std.specs.Prelude.{◌≡◌, None, IfOk, IfErr, IfSome, option_copied};
ghost use Rattle.search_base.specs.Good.{GoesOn, IsGood, KeepsBoard};
ghost use Rattle.search_base.specs.Turns.{IsEndLine, IsInOrder, IsSearchFault, IsTurn};
ghost use Rattle.p_minimal.specs.Aiming.{Aims, Serves, own_number};

use crate::aim::Aim;
use front_set::CostVec;
use oracle::{Oracle, OracleFault};
use pb_lin::PbProblem;
use relaxations::Relaxations;
use scut_base::NoMemory;
use search_base::{Board, Bounds, Search, Turn};
use std::alloc::Global;
use std::marker::Model;

/// Finds a model, and then one whose costs are below the last one's and differ, until none is left: then it
/// starts afresh. Where it has the relaxations of the problem, it asks them before it asks the oracle.
#[derive(Drop)]
pub struct PMinimal {
    aim: Aim,
    relaxations: Relaxations,
}

impl Model for PMinimal {
    ghost use Rattle.std.specs.Prelude.{List, Option, ℤ};

    ghost Value = { Option (List ℤ) };

    ghost view = { λ s. s.aim };
}

impl PMinimal {
    /// A search without an aim, for any problem, that asks the oracle alone. Takes no memory.
    pub fn new(alloc: Global) -> PMinimal
        ensures { result ≡ None }
    {
        PMinimal {
            aim: Aim::none(),
            relaxations: Relaxations::none(alloc),
        }
    }

    /// A search without an aim that asks linear relaxations of the problem before it asks the oracle. Of another
    /// problem it's as good as one that asks the oracle alone. Costs what `LinearSearch::new` does.
    pub fn relaxed(alloc: Global, problem: &PbProblem) -> Result<PMinimal, NoMemory>
        ensures { IfOk result (λ search. search ≡ None) }
    {
        Ok(PMinimal {
            aim: Aim::none(),
            relaxations: Relaxations::over_rows(alloc, problem)?,
        })
    }

    /// The vector that the next turn tries to improve.
    pub fn aim(&self) -> Option<&CostVec>
        ensures { option_copied result ≡ self.now }
    {
        self.aim.costs()
    }
}

impl Search for PMinimal {
    ghost own = { own_number };

    ghost serves = { Serves };

    ghost begins = { λ s. Unit {0} };

    /// The relaxations, where it has them, find of the front what they can.
    fn begin<O: Oracle>(
        &mut self,
        oracle: &mut O,
        bounds: &mut Bounds,
        board: &mut Board<'_>,
    ) -> Result<Option<u64>, OracleFault>
        requires good { IsGood (O.seen oracle.old) bounds.old board.old }
        requires serves { Serves self.old (O.seen oracle.old).problem }
        ensures same_aim { self.new ≡ self.old }
        ensures end { IfOk result (λ found. IfSome found
            (IsEndLine (O.seen oracle.new).problem (O.seen oracle.new).lines)) }
        ensures good { IsInOrder result → IsGood (O.seen oracle.new) bounds.new board.new }
        ensures serves { IsInOrder result → Serves self.new (O.seen oracle.new).problem }
        ensures fault { IfErr result (IsSearchFault (O.seen oracle.old) (O.seen oracle.new)) }
        ensures goes_on { GoesOn (O.seen oracle.old) (O.seen oracle.new) }
        ensures board { KeepsBoard board.old board.new }
    {
        self.relaxations.begin(oracle, bounds, board)
    }

    /// One turn. With an aim it asks for a model of no greater costs: `Found` where there is one, whose costs
    /// are the new aim, and else `Moved`, without an aim. Without an aim it asks for any model: `Found`, or
    /// `Finished`.
    fn turn<O: Oracle>(
        &mut self,
        oracle: &mut O,
        bounds: &mut Bounds,
        board: &mut Board<'_>,
    ) -> Result<Turn, OracleFault>
        requires good { IsGood (O.seen oracle.old) bounds.old board.old }
        requires serves { Serves self.old (O.seen oracle.old).problem }
        ensures turn { IfOk result (IsTurn (O.seen oracle.old) (O.seen oracle.new)
            (own_number self.old) (own_number self.new)) }
        ensures aim { IfOk result (Aims (O.seen oracle.old) (O.seen oracle.new) self.old self.new) }
        ensures same_aim { IfErr result (λ f. self.new ≡ self.old) }
        ensures good { IsInOrder result → IsGood (O.seen oracle.new) bounds.new board.new }
        ensures serves { IsInOrder result → Serves self.new (O.seen oracle.new).problem }
        ensures fault { IfErr result (IsSearchFault (O.seen oracle.old) (O.seen oracle.new)) }
        ensures goes_on { GoesOn (O.seen oracle.old) (O.seen oracle.new) }
        ensures board { KeepsBoard board.old board.new }
    {
        self.relaxations.turn(&mut self.aim, oracle, bounds, board)
    }
}
