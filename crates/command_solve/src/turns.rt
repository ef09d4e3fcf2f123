// A search in turns.
ghost use Rattle.std.specs.Prelude.{◌≡◌, IfOk, IfSome};
ghost use Rattle.std.specs.Option.{option_copied_mut};
ghost use Rattle.instance.specs.Shape.{IsWithinLimits};
ghost use Rattle.command_solve.specs.Table.{IsProblemOf, SolveRuns, searches_for};
ghost use Rattle.command_solve.specs.TurnDigits.{numbers_of};
ghost use Rattle.command_solve.specs.Words.{asked};
ghost use Rattle.command_solve.specs.declared.options.SearchKind.TheVariants.{Turns};
ghost use Rattle.lower_bounding.specs.Fences.{Serves as FenceServes};
ghost use Rattle.p_minimal.specs.Aiming.{Serves as AimServes};
ghost use Rattle.bioptsat.specs.Aims.{Serves as BothServe};
ghost use Rattle.portfolio.specs.Cycles.{AreTurns, search_count};

use crate::Solve;
use bioptsat::BiOpt;
use command_base::Status;
use instance::Instance;
use lower_bounding::LowerBounding;
use p_minimal::PMinimal;
use pb_lin::PbProblem;
use portfolio::Cycle;
use scut_base::{Items, NoMemory, Shelf, boxed};
use search_base::Search;
use std::alloc::Global;

impl<'a> Solve<'a> {
    // Searches by the turns that are given.
    pub(crate) fn search_in_turns<H: Shelf>(
        &self,
        alloc: Global,
        inst: &Instance,
        problem: &PbProblem,
        shelf: &mut H,
    ) -> Status
        requires problem { IsProblemOf (H.world shelf.old).files (asked self.now) inst.now problem.now }
        requires limits { IsWithinLimits inst.now }
        requires search { self.now.search ≡ Turns }
        ensures { SolveRuns (asked self.now) result (H.world shelf.old) (H.world shelf.new) }
    {
        let Some(digits) = self.turns else {
            unreachable!();
        };
        match numbers_of(alloc, digits.as_bytes()) {
            Ok(turns) => self.search_by_turns(alloc, inst, problem, turns.as_slice(), shelf),
            Err(fault) => Status::from(fault),
        }
    }

    // The same where the turns are these numbers.
    fn search_by_turns<H: Shelf>(
        &self,
        alloc: Global,
        inst: &Instance,
        problem: &PbProblem,
        turns: &[u8],
        shelf: &mut H,
    ) -> Status
        requires problem { IsProblemOf (H.world shelf.old).files (asked self.now) inst.now problem.now }
        requires limits { IsWithinLimits inst.now }
        requires turns { AreTurns (searches_for inst.now) turns.now }
        ensures { SolveRuns (asked self.now) result (H.world shelf.old) (H.world shelf.new) }
    {
        match boxed_search(alloc, problem, LowerBounding::new(alloc, problem)) {
            Ok(mut second) => {
                self.search_beside(alloc, inst, problem, &mut *second, turns, shelf)
            }
            Err(fault) => Status::from(fault),
        }
    }

    // The same with this second search.
    fn search_beside<H: Shelf>(
        &self,
        alloc: Global,
        inst: &Instance,
        problem: &PbProblem,
        second: &mut LowerBounding,
        turns: &[u8],
        shelf: &mut H,
    ) -> Status
        requires problem { IsProblemOf (H.world shelf.old).files (asked self.now) inst.now problem.now }
        requires limits { IsWithinLimits inst.now }
        requires turns { AreTurns (searches_for inst.now) turns.now }
        requires second { FenceServes second.old problem.now }
        ensures { SolveRuns (asked self.now) result (H.world shelf.old) (H.world shelf.new) }
    {
        match boxed_search(alloc, problem, PMinimal::relaxed(alloc, problem)) {
            Ok(mut first) => {
                self.search_by_two(alloc, inst, problem, &mut *first, second, turns, shelf)
            }
            Err(fault) => Status::from(fault),
        }
    }

    // The same with these two, and a third one for two objectives.
    fn search_by_two<H: Shelf>(
        &self,
        alloc: Global,
        inst: &Instance,
        problem: &PbProblem,
        first: &mut PMinimal,
        second: &mut LowerBounding,
        turns: &[u8],
        shelf: &mut H,
    ) -> Status
        requires problem { IsProblemOf (H.world shelf.old).files (asked self.now) inst.now problem.now }
        requires limits { IsWithinLimits inst.now }
        requires first { AimServes first.old problem.now }
        requires second { FenceServes second.old problem.now }
        requires turns { AreTurns (searches_for inst.now) turns.now }
        ensures { SolveRuns (asked self.now) result (H.world shelf.old) (H.world shelf.new) }
    {
        if inst.objectives.len() != 2 {
            return self.search_by_all(alloc, inst, problem, first, second, None, turns, shelf);
        }
        match boxed_search(alloc, problem, BiOpt::relaxed(alloc, problem)) {
            Ok(mut third) => {
                let third = Some(&mut *third);
                self.search_by_all(alloc, inst, problem, first, second, third, turns, shelf)
            }
            Err(fault) => Status::from(fault),
        }
    }

    // Searches by all of these in turns.
    fn search_by_all<'b, H: Shelf>(
        &self,
        alloc: Global,
        inst: &Instance,
        problem: &PbProblem,
        first: &'b mut PMinimal,
        second: &'b mut LowerBounding,
        third: Option<&'b mut BiOpt>,
        turns: &'b [u8],
        shelf: &mut H,
    ) -> Status
        requires problem { IsProblemOf (H.world shelf.old).files (asked self.now) inst.now problem.now }
        requires limits { IsWithinLimits inst.now }
        requires first { AimServes first.old problem.now }
        requires second { FenceServes second.old problem.now }
        requires third { IfSome (option_copied_mut third) (λ search. BothServe search problem.now) }
        requires turns { AreTurns (search_count (option_copied_mut third)) turns.now }
        ensures { SolveRuns (asked self.now) result (H.world shelf.old) (H.world shelf.new) }
    {
        let mut cycle = Cycle::new(first, second, third, turns);
        self.search_by(alloc, inst, problem, &mut cycle, shelf)
    }
}

// A search in a box, if there was memory for it. It is one part there, of whatever type it is; to own its many parts past
// several ways out takes long to prove.
fn boxed_search<S: Search + Drop>(
    alloc: Global,
    _problem: &PbProblem,
    made: Result<S, NoMemory>,
) -> Result<Box<S>, NoMemory>
    requires { IfOk made (λ search. S.serves search _problem.now) }
    ensures { IfOk result (λ search. S.serves search.value _problem.now) }
{
    boxed(alloc, made?)
}

// The numbers of the searches of these digits.
fn numbers_of(alloc: Global, digits: &[u8]) -> Result<Items<u8>, NoMemory>
    ensures { IfOk result (λ turns. turns ≡ numbers_of digits.now) }
{
    let mut numbers = Items::new(alloc);
    for digit in digits {
        numbers.push(digit.saturating_sub(b'0'))?;
    }
    Ok(numbers)
}
