// Whom searches ask: linear relaxations first, then the oracle and a clause engine (DECISIONS, relaxations).
ghost use Rattle.std.specs.Prelude.{◌≡◌, IfErr, IfOk, IfSome};
ghost use Rattle.search_base.specs.Good.{GoesOn, IsGood, KeepsBoard};
ghost use Rattle.search_base.specs.Turns.{IsEndLine, IsInOrder, IsSearchFault, IsTurn};
ghost use Rattle.relaxations.specs.Telling.{IsGoodWithSome, SeeksOn};
ghost use Rattle.relaxations.specs.Wanting.{IsOf, TellsOf};

use crate::linear_boxes::LinearBoxes;
use crate::row_totalizers::add_row_totalizers;
use crate::seeking::{oracle_any, oracle_below};
use crate::{Aims, Below, Wanted};
use engine_search::EngineSearch;
use oracle::{Oracle, OracleFault};
use pb_lin::PbProblem;
use scut_base::NoMemory;
use search_base::{Board, Bounds, Turn, adding_stays_good, turn_lines_join};
use std::alloc::Global;
use std::mem;

/// Whom a search asks for models: the linear relaxations of a problem, where they are there, and what they don't tell the
/// oracle, and a clause engine beside it. Of another problem's relaxations it's as good as of none.
#[derive(Drop)]
pub struct Relaxations {
    alloc: Global,
    linear: Option<LinearBoxes>,
    engine: EngineSearch,
    // Whether the rows that count are to get totalizers before the oracle is asked.
    lacks_rows: bool,
}

impl Relaxations {
    /// None: the oracle alone is asked, with the engine beside it. Takes no memory.
    pub fn none(alloc: Global) -> Relaxations {
        Relaxations {
            alloc,
            linear: None,
            engine: EngineSearch::new(alloc),
            lacks_rows: false,
        }
    }

    /// Those of this problem, of which nothing has been asked. Costs what `LinearSearch::new` does.
    pub fn new(alloc: Global, problem: &PbProblem) -> Result<Relaxations, NoMemory> {
        let mut relaxations = Relaxations::none(alloc);
        relaxations.linear = Some(LinearBoxes::new(alloc, problem)?);
        Ok(relaxations)
    }

    /// The same; where they don't tell, the rows that count get totalizers first: before the first model too, which may be
    /// what clauses over bare rows don't find.
    pub fn over_rows(alloc: Global, problem: &PbProblem) -> Result<Relaxations, NoMemory> {
        let mut relaxations = Relaxations::new(alloc, problem)?;
        relaxations.lacks_rows = true;
        Ok(relaxations)
    }

    /// What they tell of the front before a search's first turn: the models that they find are taken onto the board; or
    /// it is proved that nothing is left: then the id of a live line `0 >= 1`. Nothing, where there are none.
    pub fn begin<O: Oracle>(
        &mut self,
        oracle: &mut O,
        bounds: &mut Bounds,
        board: &mut Board<'_>,
    ) -> Result<Option<u64>, OracleFault>
        requires good { IsGood (O.seen oracle.old) bounds.old board.old }
        ensures end { IfOk result (λ found. IfSome found
            (IsEndLine (O.seen oracle.new).problem (O.seen oracle.new).lines)) }
        ensures good { IsInOrder result → IsGood (O.seen oracle.new) bounds.new board.new }
        ensures fault { IfErr result (IsSearchFault (O.seen oracle.old) (O.seen oracle.new)) }
        ensures goes_on { GoesOn (O.seen oracle.old) (O.seen oracle.new) }
        ensures board { KeepsBoard board.old board.new }
    {
        match &mut self.linear {
            Some(linear) => linear.begin(oracle, bounds, board),
            None => Ok(None),
        }
    }

    /// One turn of a search by these aims: asks for a model that is wanted, and takes it onto the board.
    pub fn turn<A: Aims, O: Oracle>(
        &mut self,
        aims: &mut A,
        oracle: &mut O,
        bounds: &mut Bounds,
        board: &mut Board<'_>,
    ) -> Result<Turn, OracleFault>
        requires good { IsGood (O.seen oracle.old) bounds.old board.old }
        requires serves { A.serves aims.old (O.seen oracle.old).problem }
        ensures turn { IfOk result (IsTurn (O.seen oracle.old) (O.seen oracle.new)
            (A.own aims.old) (A.own aims.new)) }
        ensures aim { IfOk result (A.moves (O.seen oracle.old) (O.seen oracle.new) aims.old aims.new) }
        ensures same_aim { IfErr result (λ f. aims.new ≡ aims.old) }
        ensures good { IsInOrder result → IsGood (O.seen oracle.new) bounds.new board.new }
        ensures serves { IsInOrder result → A.serves aims.new (O.seen oracle.new).problem }
        ensures fault { IfErr result (IsSearchFault (O.seen oracle.old) (O.seen oracle.new)) }
        ensures goes_on { GoesOn (O.seen oracle.old) (O.seen oracle.new) }
        ensures board { KeepsBoard board.old board.new }
    {
        let wanted = aims.wanted(self.alloc)?;
        match self.ask(oracle, bounds, board.problem(), &wanted)? {
            Below::Model(model) => {
                board.take(oracle, bounds, &model)?;
                self.exclude_last(board)?;
                aims.found(self.alloc, board)?;
                Ok(Turn::Found)
            }
            Below::End { id } => Ok(Turn::Finished { id }),
            Below::Above { stands } => {
                aims.none_left(self.alloc, bounds, stands.as_slice())?;
                Ok(Turn::Moved)
            }
        }
    }

    /// Whether a model that is wanted is left. After `Spent` it may be asked again.
    ///
    /// Costs what a tree over relaxations does, for each of at most 500 boxes, and a call of the engine or of the oracle.
    pub fn ask<O: Oracle>(
        &mut self,
        oracle: &mut O,
        bounds: &mut Bounds,
        problem: &PbProblem,
        wanted: &Wanted,
    ) -> Result<Below, OracleFault>
        requires good { IsGoodWithSome (O.seen oracle.old) bounds.old }
        requires problem { (O.seen oracle.old).problem ≡ problem.now }
        requires wanted { IsOf (O.seen oracle.old).problem wanted.now }
        ensures tells { IfOk result (TellsOf (O.seen oracle.new) wanted.now) }
        ensures seeks { SeeksOn (O.seen oracle.old) (O.seen oracle.new) bounds.old bounds.new result }
    {
        match self.ask_linear(oracle, bounds, problem, wanted)? {
            Some(below) => Ok(below),
            None => self.ask_oracle(oracle, bounds, problem, wanted),
        }
    }

    // What the linear relaxations tell; `None` where they don't.
    fn ask_linear<O: Oracle>(
        &mut self,
        oracle: &mut O,
        bounds: &mut Bounds,
        problem: &PbProblem,
        wanted: &Wanted,
    ) -> Result<Option<Below>, OracleFault>
        requires good { IsGoodWithSome (O.seen oracle.old) bounds.old }
        requires problem { (O.seen oracle.old).problem ≡ problem.now }
        requires wanted { IsOf (O.seen oracle.old).problem wanted.now }
        ensures tells { IfOk result (λ below. IfSome below (TellsOf (O.seen oracle.new) wanted.now)) }
        ensures seeks { SeeksOn (O.seen oracle.old) (O.seen oracle.new) bounds.old bounds.new result }
    {
        match &mut self.linear {
            Some(linear) => linear.ask(oracle, bounds, problem, wanted),
            None => Ok(None),
        }
    }

    // What the oracle tells, over totalizers of the rows that count if they are to have them.
    fn ask_oracle<O: Oracle>(
        &mut self,
        oracle: &mut O,
        bounds: &mut Bounds,
        problem: &PbProblem,
        wanted: &Wanted,
    ) -> Result<Below, OracleFault>
        requires good { IsGoodWithSome (O.seen oracle.old) bounds.old }
        requires problem { (O.seen oracle.old).problem ≡ problem.now }
        requires wanted { IsOf (O.seen oracle.old).problem wanted.now }
        ensures tells { IfOk result (TellsOf (O.seen oracle.new) wanted.now) }
        ensures seeks { SeeksOn (O.seen oracle.old) (O.seen oracle.new) bounds.old bounds.new result }
    {
        self.add_rows(oracle, bounds, problem)?;
        let (alloc, engine) = (self.alloc, &mut self.engine);
        match wanted {
            Wanted::Any => oracle_any(engine, oracle, bounds, problem),
            Wanted::Within(limits) | Wanted::Better(limits) => {
                oracle_below(alloc, engine, oracle, bounds, problem, limits)
            }
        }
    }

    // Gives the rows that count their totalizers, once, if they are to have them.
    fn add_rows<O: Oracle>(
        &mut self,
        oracle: &mut O,
        bounds: &Bounds,
        problem: &PbProblem,
    ) -> Result<(), OracleFault>
        requires good { IsGoodWithSome (O.seen oracle.old) bounds.now }
        requires problem { (O.seen oracle.old).problem ≡ problem.now }
        ensures seeks { SeeksOn (O.seen oracle.old) (O.seen oracle.new) bounds.now bounds.now result }
    {
        adding_stays_good();
        turn_lines_join();
        if !self.take_rows() {
            return Ok(());
        }
        add_row_totalizers(self.alloc, oracle, problem)?;
        Ok(())
    }

    // Whether the rows that count are to get totalizers now; from now on they have them.
    fn take_rows(&mut self) -> bool {
        mem::replace(&mut self.lacks_rows, false)
    }

    // Takes the vector that was logged last out of the relaxations' boxes, since it isn't left.
    fn exclude_last(&mut self, board: &Board<'_>) -> Result<(), NoMemory> {
        match (&mut self.linear, board.last()) {
            (Some(linear), Some(last)) => linear.exclude(last),
            _ => Ok(()),
        }
    }
}
