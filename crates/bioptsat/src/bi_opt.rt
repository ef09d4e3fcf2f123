// The search for two objectives.
ghost use Rattle.std.specs.Prelude.{◌≡◌, IfOk, IfErr, option_copied};
ghost use Rattle.search_base.specs.Good.{GoesOn, IsGood, KeepsBoard};
ghost use Rattle.search_base.specs.Turns.{IsInOrder, IsSearchFault, IsTurn};
ghost use Rattle.bioptsat.specs.declared.aim.Aim.TheVariants.{Anything};
ghost use Rattle.bioptsat.specs.Aims.{MovesAim, Serves, first_is_least, own_number, vector_of};

use crate::aim::Aim;
use front_set::CostVec;
use oracle::{Oracle, OracleFault};
use pb_lin::PbProblem;
use relaxations::Relaxations;
use scut_base::NoMemory;
use search_base::{Board, Bounds, Search, Turn};
use std::alloc::Global;
use std::marker::Model;

/// Lowers the first cost until it is least, and then the second cost at that first cost; then it starts
/// afresh. Where it has the relaxations of the problem, it asks them before it asks the oracle.
#[derive(Drop)]
pub struct BiOpt {
    aim: Aim,
    relaxations: Relaxations,
}

impl Model for BiOpt {
    ghost use Rattle.bioptsat.specs.declared.aim.Aim.{Aim};

    ghost Value = { Aim };

    ghost view = { λ s. s.aim };
}

impl BiOpt {
    /// A search without an aim, for any problem of two objectives, that asks the oracle alone. Takes no memory.
    pub fn new(alloc: Global) -> BiOpt
        ensures { result ≡ Anything }
    {
        BiOpt {
            aim: Aim::Anything,
            relaxations: Relaxations::none(alloc),
        }
    }

    /// A search without an aim that asks linear relaxations of the problem before it asks the oracle. Of another
    /// problem it's as good as one that asks the oracle alone. Costs what `Relaxations::new` does.
    pub fn relaxed(alloc: Global, problem: &PbProblem) -> Result<BiOpt, NoMemory>
        ensures { IfOk result (λ search. search ≡ Anything) }
    {
        Ok(BiOpt {
            aim: Aim::Anything,
            relaxations: Relaxations::new(alloc, problem)?,
        })
    }

    /// The vector that the next turn tries to improve.
    pub fn aim(&self) -> Option<&CostVec>
        ensures { option_copied result ≡ vector_of self.now }
    {
        match &self.aim {
            Aim::Anything => None,
            Aim::First(costs) | Aim::Second(costs) => Some(costs),
        }
    }

    /// Whether nothing that is left has a smaller first cost than the aim. Not where there is no aim.
    pub fn first_is_least(&self) -> bool
        ensures { result ≡ first_is_least self.now }
    {
        matches!(&self.aim, Aim::Second(_))
    }
}

impl Search for BiOpt {
    ghost own = { own_number };

    ghost serves = { Serves };

    ghost begins = { λ s. ⊥ };

    /// One turn. Without an aim it asks for any model: `Found`, whose costs are the new aim, or `Finished`.
    /// With an aim it asks for a smaller first cost, or where that is least for a smaller second cost:
    /// `Found`, whose costs are the new aim, `Finished`, or `Moved`. Then the first cost is least; or where
    /// it was, there is no aim any more.
    fn turn<O: Oracle>(
        &mut self,
        oracle: &mut O,
        bounds: &mut Bounds,
        board: &mut Board<'_>,
    ) -> Result<Turn, OracleFault>
        requires good { IsGood (O.seen oracle.old) bounds.old board.old }
        requires serves { Serves self.old (O.seen oracle.old).problem }
        ensures turn { IfOk result (IsTurn (O.seen oracle.old) (O.seen oracle.new)
            (own_number self.old) (own_number self.new)) }
        ensures aim { IfOk result (MovesAim (O.seen oracle.old) (O.seen oracle.new)
            self.old self.new) }
        ensures same_aim { IfErr result (λ f. self.new ≡ self.old) }
        ensures good { IsInOrder result → IsGood (O.seen oracle.new) bounds.new board.new }
        ensures serves { IsInOrder result → Serves self.new (O.seen oracle.new).problem }
        ensures fault { IfErr result (IsSearchFault (O.seen oracle.old) (O.seen oracle.new)) }
        ensures goes_on { GoesOn (O.seen oracle.old) (O.seen oracle.new) }
        ensures board { KeepsBoard board.old board.new }
    {
        self.relaxations.turn(&mut self.aim, oracle, bounds, board)
    }
}
