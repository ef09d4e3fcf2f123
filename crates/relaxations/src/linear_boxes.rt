// Linear relaxations, asked box by box (DECISIONS, boxes).
ghost use Rattle.std.specs.Prelude.{◌≡◌, ◌<◌, length, IfErr, IfOk, IfSome};
ghost use Rattle.front_set.specs.Vector.{IsBelow, is_below};
ghost use Rattle.search_base.specs.Good.{GoesOn, IsGood, KeepsBoard};
ghost use Rattle.search_base.specs.Turns.{IsEndLine, IsInOrder, IsSearchFault};
ghost use Rattle.relaxations.specs.Telling.{IsGoodWithSome, SeeksOn, Tells, TellsAny, is_closed};
ghost use Rattle.relaxations.specs.Wanting.{IsOf, TellsOf};

use crate::allowance::{first_allowance, first_purse};
use crate::arranging::Arranger;
use crate::limits::{MOST_BOXES, MOST_PARTS, WORK_OF_A_CLAUSE};
use crate::open_boxes::OpenBoxes;
use crate::opening::linear_front;
use crate::relaxing::linear_below;
use crate::{Below, Wanted};
use front_set::CostVec;
use linear_search::LinearSearch;
use oracle::{Oracle, OracleFault};
use pb_lin::PbProblem;
use proof_rules::ProofState;
use scut_base::{Items, NoMemory};
use search_base::{Board, Bounds};
use std::alloc::Global;

// The linear relaxations of a problem, and the boxes in which models may be left. Which boxes are open is only a matter
// of time: whatever is told is told by live clauses.
#[derive(Drop)]
pub(crate) struct LinearBoxes {
    alloc: Global,
    linear: LinearSearch,
    arranger: Arranger,
    boxes: OpenBoxes,
    // Limits to which nothing that is left keeps. None is below another.
    settled: Vec<CostVec>,
    // Whether anything was asked.
    has_begun: bool,
    // How much work they may do in all, and how many learned clauses they have earned by.
    allowance: u64,
    learned: u64,
}

impl LinearBoxes {
    // Those of this problem, of which nothing has been asked. Costs what `LinearSearch::new` does.
    pub(crate) fn new(alloc: Global, problem: &PbProblem) -> Result<LinearBoxes, NoMemory> {
        Ok(LinearBoxes {
            alloc,
            linear: LinearSearch::new(alloc, problem, first_purse(problem))?,
            arranger: Arranger::new(),
            boxes: OpenBoxes::new(alloc, problem.costs().len())?,
            settled: Vec::new(alloc),
            has_begun: false,
            allowance: first_allowance(problem),
            learned: 0,
        })
    }

    // Takes the vectors that this one is below out of the boxes, since they aren't left. Costs what
    // `OpenBoxes::exclude` does.
    pub(crate) fn exclude(&mut self, costs: &CostVec) -> Result<(), NoMemory> {
        if self.boxes.limits().len() > MOST_BOXES {
            return Ok(());
        }
        self.boxes.exclude(costs)
    }

    // Whether they tell nothing now, since they have done what they may, or too much was lost on questions that stayed open.
    fn is_spent(&self) -> bool {
        self.linear.is_spent() || self.linear.work() > self.allowance
    }

    // Takes up the lines that there are before anything is asked, as those that put alike things in order: what is proposed later is
    // refused where it breaks them.
    fn take_up_first(&mut self, state: &ProofState) -> Result<(), NoMemory> {
        if self.has_begun {
            return Ok(());
        }
        self.has_begun = true;
        self.linear.take_up(state)
    }

    // What they tell of the front before a search's first turn: `linear_front`.
    pub(crate) fn begin<O: Oracle>(
        &mut self,
        oracle: &mut O,
        bounds: &mut Bounds,
        board: &mut Board<'_>,
    ) -> Result<Option<u64>, OracleFault>
        requires good { IsGood (O.seen oracle.old) bounds.old board.old }
        ensures end { IfOk result (λ found. IfSome found
            (IsEndLine (O.seen oracle.new).problem (O.seen oracle.new).lines)) }
        ensures good { IsInOrder result → IsGood (O.seen oracle.new) bounds.new board.new }
        ensures fault { IfErr result (IsSearchFault (O.seen oracle.old) (O.seen oracle.new)) }
        ensures goes_on { GoesOn (O.seen oracle.old) (O.seen oracle.new) }
        ensures board { KeepsBoard board.old board.new }
    {
        self.take_up_first(oracle.state())?;
        let (linear, most) = (&mut self.linear, self.allowance);
        linear_front(
            self.alloc,
            linear,
            &mut self.boxes,
            most,
            oracle,
            bounds,
            board,
        )
    }

    // Earns by the clauses that were learned since the last time.
    fn earn(&mut self, learned: u64) {
        let more = learned.saturating_sub(self.learned);
        self.learned = self.learned.max(learned);
        let work = more.saturating_mul(WORK_OF_A_CLAUSE);
        self.allowance = self.allowance.saturating_add(work);
        self.linear.earn(work);
    }

    // What they tell of what is wanted; `None` where they don't. Where no model was found, it may still not be known that none is
    // left. Costs what `linear_below` does for each of at most 500 boxes, or of 120 where there are limits, or for each objective
    // where better costs are wanted.
    pub(crate) fn ask<O: Oracle>(
        &mut self,
        oracle: &mut O,
        bounds: &mut Bounds,
        problem: &PbProblem,
        wanted: &Wanted,
    ) -> Result<Option<Below>, OracleFault>
        requires good { IsGoodWithSome (O.seen oracle.old) bounds.old }
        requires problem { (O.seen oracle.old).problem ≡ problem.now }
        requires wanted { IsOf (O.seen oracle.old).problem wanted.now }
        ensures tells { IfOk result (λ below. IfSome below (TellsOf (O.seen oracle.new) wanted.now)) }
        ensures seeks { SeeksOn (O.seen oracle.old) (O.seen oracle.new) bounds.old bounds.new result }
    {
        self.take_up_first(oracle.state())?;
        if self.is_spent() {
            return Ok(None);
        }
        match wanted {
            Wanted::Any => self.relaxed_any(oracle, bounds, problem),
            Wanted::Within(limits) => {
                self.below_in_boxes(oracle, bounds, problem, limits, MOST_PARTS)
            }
            Wanted::Better(aim) => self.improve_each(oracle, bounds, problem, aim),
        }
    }

    // Whether any model is left, box by box.
    fn relaxed_any<O: Oracle>(
        &mut self,
        oracle: &mut O,
        bounds: &mut Bounds,
        problem: &PbProblem,
    ) -> Result<Option<Below>, OracleFault>
        requires good { IsGoodWithSome (O.seen oracle.old) bounds.old }
        requires problem { (O.seen oracle.old).problem ≡ problem.now }
        ensures tells { IfOk result (λ below. IfSome below (TellsAny (O.seen oracle.new))) }
        ensures seeks { SeeksOn (O.seen oracle.old) (O.seen oracle.new) bounds.old bounds.new result }
    {
        let limits = no_limits(self.alloc, problem.costs().len())?;
        let found = self.below_in_boxes(oracle, bounds, problem, &limits, MOST_BOXES)?;
        if is_closed(&found) {
            return Ok(None);
        }
        Ok(found)
    }

    // Whether a model is left whose costs are at most the aim and differ: objective by objective, whether one
    // is left that is better there and no worse elsewhere.
    fn improve_each<O: Oracle>(
        &mut self,
        oracle: &mut O,
        bounds: &mut Bounds,
        problem: &PbProblem,
        aim: &CostVec,
    ) -> Result<Option<Below>, OracleFault>
        requires good { IsGoodWithSome (O.seen oracle.old) bounds.old }
        requires problem { (O.seen oracle.old).problem ≡ problem.now }
        requires count { length aim.now ≡ length (O.seen oracle.old).problem.costs }
        ensures tells { IfOk result (λ below. IfSome below (Tells (O.seen oracle.new) aim.now)) }
        ensures seeks { SeeksOn (O.seen oracle.old) (O.seen oracle.new) bounds.old bounds.new result }
    {
        for objective in 0..aim.len() {
            let Some(limits) = better_in(self.alloc, aim, objective)? else {
                continue;
            };
            let found = self.relaxed_below(oracle, bounds, problem, &limits)?;
            if !is_closed(&found) {
                return Ok(found);
            }
        }
        Ok(None)
    }

    // What one relaxation tells of limits: `linear_below`.
    fn relaxed_below<O: Oracle>(
        &mut self,
        oracle: &mut O,
        bounds: &mut Bounds,
        problem: &PbProblem,
        limits: &CostVec,
    ) -> Result<Option<Below>, OracleFault>
        requires good { IsGoodWithSome (O.seen oracle.old) bounds.old }
        requires problem { (O.seen oracle.old).problem ≡ problem.now }
        requires count { length limits.now ≡ length (O.seen oracle.old).problem.costs }
        ensures tells { IfOk result (λ below. IfSome below (Tells (O.seen oracle.new) limits.now)) }
        ensures seeks { SeeksOn (O.seen oracle.old) (O.seen oracle.new) bounds.old bounds.new result }
    {
        self.earn(oracle.state().learned());
        if self.is_spent() {
            return Ok(None);
        }
        linear_below(
            self.alloc,
            oracle,
            bounds,
            &mut self.linear,
            &mut self.arranger,
            problem,
            limits,
        )
    }

    // Box by box, from the last to the first, whether a model is left there whose costs are at most the limits. `None`
    // where no model was found, for which it may still not be known that none is left. Of more boxes than `most` none is
    // asked.
    fn below_in_boxes<O: Oracle>(
        &mut self,
        oracle: &mut O,
        bounds: &mut Bounds,
        problem: &PbProblem,
        limits: &CostVec,
        most: usize,
    ) -> Result<Option<Below>, OracleFault>
        requires good { IsGoodWithSome (O.seen oracle.old) bounds.old }
        requires problem { (O.seen oracle.old).problem ≡ problem.now }
        requires count { length limits.now ≡ length (O.seen oracle.old).problem.costs }
        ensures tells { IfOk result (λ below. IfSome below (Tells (O.seen oracle.new) limits.now)) }
        ensures seeks { SeeksOn (O.seen oracle.old) (O.seen oracle.new) bounds.old bounds.new result }
    {
        if limits.is_empty() || self.boxes.limits().len() > most {
            return Ok(None);
        }
        for place in (0..self.boxes.limits().len()).rev() {
            let found = self.below_in_box(oracle, bounds, problem, limits, place)?;
            if found.is_some() {
                return Ok(found);
            }
        }
        Ok(None)
    }

    // The same for the box at this place. Where it has no model within the limits, that is noted.
    fn below_in_box<O: Oracle>(
        &mut self,
        oracle: &mut O,
        bounds: &mut Bounds,
        problem: &PbProblem,
        limits: &CostVec,
        place: usize,
    ) -> Result<Option<Below>, OracleFault>
        requires good { IsGoodWithSome (O.seen oracle.old) bounds.old }
        requires problem { (O.seen oracle.old).problem ≡ problem.now }
        requires count { length limits.now ≡ length (O.seen oracle.old).problem.costs }
        ensures tells { IfOk result (λ below. IfSome below (Tells (O.seen oracle.new) limits.now)) }
        ensures seeks { SeeksOn (O.seen oracle.old) (O.seen oracle.new) bounds.old bounds.new result }
    {
        let Some(part) = self.unsettled(limits, place)? else {
            return Ok(None);
        };
        let found = self.relaxed_below(oracle, bounds, problem, &part)?;
        if !is_closed(&found) {
            return Ok(found);
        }
        if is_within(limits, &part) {
            return Ok(found);
        }
        self.settle(place, part)?;
        Ok(None)
    }

    // The part of the box at this place that keeps to the limits, where it isn't known that nothing is left there.
    fn unsettled(&self, limits: &CostVec, place: usize) -> Result<Option<CostVec>, NoMemory>
        ensures { IfOk result (λ part. IfSome part (λ v. IsBelow v limits.now)) }
    {
        let Some(around) = self.boxes.limits().get(place) else {
            return Ok(None);
        };
        let part = part_of(self.alloc, around, limits)?;
        if self.settled.iter().any(|other| is_within(&part, other)) {
            return Ok(None);
        }
        Ok(Some(part))
    }

    // Notes that nothing is left in a part of the box at this place: it is closed where that is all of it.
    fn settle(&mut self, place: usize, part: CostVec) -> Result<(), NoMemory> {
        if self.boxes.limits().get(place) == Some(&part) {
            self.boxes.close(place);
            return Ok(());
        }
        self.settled.retain(|other| !is_within(other, &part));
        self.settled.push(part)?;
        Ok(())
    }
}

// Whether it is known that no model keeps to the limits that were asked about, and others may be left.
fn is_closed(found: &Option<Below>) -> bool
    ensures { result ≡ is_closed found.now }
{
    matches!(found, Some(Below::Above { .. }))
}

// Whether each of the costs is at most the limit.
fn is_within(costs: &CostVec, limits: &CostVec) -> bool
    ensures { result ≡ is_below costs.now limits.now }
{
    costs.len() == limits.len() && costs.weakly_dominates(limits)
}

// Limits for so many objectives that are none.
fn no_limits(alloc: Global, objectives: usize) -> Result<CostVec, NoMemory>
    ensures { IfOk result (λ limits. length limits ≡ objectives) }
{
    let limits = vec![in alloc; i64::MAX; objectives]?;
    Ok(CostVec::from_items(Items::from_vec(limits)))
}

// The limits, lowered to those of a box where these are less.
fn part_of(alloc: Global, around: &CostVec, limits: &CostVec) -> Result<CostVec, NoMemory>
    ensures { IfOk result (λ part. IsBelow part limits.now) }
{
    let mut part = Items::new(alloc);
    part.extend_from_slice(limits.as_slice())?;
    for (objective, most) in around.as_slice().iter().enumerate() {
        lower(&mut part, objective, *most);
    }
    Ok(CostVec::from_items(part))
}

// Lowers the number of an objective to at most this.
fn lower(numbers: &mut Items<i64>, objective: usize, most: i64)
    ensures { IsBelow numbers.new numbers.old }
{
    if objective < numbers.len() && most < *numbers.at(objective) {
        numbers.set(objective, most);
    }
}

// The aim with a number for this objective that is less by 1; `None` where there is no such number.
fn better_in(alloc: Global, aim: &CostVec, objective: usize) -> Result<Option<CostVec>, NoMemory>
    requires { objective < length aim.now }
    ensures { IfOk result (λ limits. IfSome limits (λ v. IsBelow v aim.now)) }
{
    let number = aim.get(objective);
    if number == i64::MIN {
        return Ok(None);
    }
    let mut limits = Items::new(alloc);
    limits.extend_from_slice(aim.as_slice())?;
    limits.set(objective, number - 1);
    Ok(Some(CostVec::from_items(limits)))
}
