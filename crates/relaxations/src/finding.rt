// Models found by relaxations, box by box (DECISIONS, first-sought).
ghost use Rattle.std.specs.Prelude.{◌≡◌, ◌<◌, length, IfErr, IfSome, OnOk};
ghost use Rattle.pb_lin.specs.Problem.{IsProblemModel};
ghost use Rattle.sum_outputs.specs.Adding.{IsFaultAt, IsReady, IsRecorded};
ghost use Rattle.search_base.specs.Good.{GoesOn, KeepsBoard};
ghost use Rattle.search_base.specs.Pending.{IsGoodBut};
ghost use Rattle.relaxations.specs.Told.{IsTold};

use crate::asking::{Asking, Told};
use crate::cliques::add_cliques;
use crate::limits::{MOST_BOXES, MOST_QUESTIONS, PARTS_WITH_AND_WITHOUT, TIMES_TO_TRY_AGAIN};
use crate::open_boxes::OpenBoxes;
use branch_and_bound::Target;
use front_set::CostVec;
use pb_lin::PbProblem;
use proof_rules::{RecordFault, Recorder};
use scut_base::{Assignment, Duplicate, Items, NoMemory};
use search_base::{Board, Bounds, adding_stays_good_but, costs_at, turn_lines_join};
use std::alloc::Global;
use sum_outputs::in_memory;

// A box that is asked next.
#[derive(Clone, Copy, Debug)]
struct Next {
    place: usize,
    target: Target,
}

// Adds the lines of cliques, and asks box by box; answers whether all boxes were closed.
pub(crate) fn find_all<R: Recorder>(
    asking: &mut Asking<'_>,
    boxes: &mut OpenBoxes,
    rec: &mut R,
    bounds: &Bounds,
    board: &mut Board<'_>,
    pending: &mut Items<Assignment>,
) -> Result<bool, RecordFault>
    requires good { IsGoodBut (R.seen rec.old) bounds.now board.old pending.old }
    ensures good { OnOk result (IsGoodBut (R.seen rec.new) bounds.now board.new pending.new) }
    ensures fault { IfErr result (IsFaultAt (R.seen rec.old) (R.seen rec.new)) }
    ensures goes_on { GoesOn (R.seen rec.old) (R.seen rec.new) }
    ensures board { KeepsBoard board.old board.new }
{
    adding_stays_good_but();
    turn_lines_join();
    let end = rec.state().next_id();
    prepare(asking, rec, board.problem())?;
    ask_boxes(asking, boxes, rec, bounds, board, pending, end)
}

// The same after the lines of cliques; other lines are below this id.
fn ask_boxes<R: Recorder>(
    asking: &mut Asking<'_>,
    boxes: &mut OpenBoxes,
    rec: &mut R,
    bounds: &Bounds,
    board: &mut Board<'_>,
    pending: &mut Items<Assignment>,
    end: u64,
) -> Result<bool, RecordFault>
    requires good { IsGoodBut (R.seen rec.old) bounds.now board.old pending.old }
    ensures good { OnOk result (IsGoodBut (R.seen rec.new) bounds.now board.new pending.new) }
    ensures fault { IfErr result (IsFaultAt (R.seen rec.old) (R.seen rec.new)) }
    ensures goes_on { GoesOn (R.seen rec.old) (R.seen rec.new) }
    ensures board { KeepsBoard board.old board.new }
{
    if has_lines_below(board.problem(), end) {
        ask_with_and_without(asking, boxes, rec, bounds, board, pending, end)
    } else {
        ask_all(asking, boxes, rec, bounds, board, pending)
    }
}

// The same where there are such lines, which leave out models for others as good. A relaxation that knows of them closes more,
// and one that doesn't finds a model more easily: where the one doesn't tell, the other is asked.
fn ask_with_and_without<R: Recorder>(
    asking: &mut Asking<'_>,
    boxes: &mut OpenBoxes,
    rec: &mut R,
    bounds: &Bounds,
    board: &mut Board<'_>,
    pending: &mut Items<Assignment>,
    end: u64,
) -> Result<bool, RecordFault>
    requires good { IsGoodBut (R.seen rec.old) bounds.now board.old pending.old }
    ensures good { OnOk result (IsGoodBut (R.seen rec.new) bounds.now board.new pending.new) }
    ensures fault { IfErr result (IsFaultAt (R.seen rec.old) (R.seen rec.new)) }
    ensures goes_on { GoesOn (R.seen rec.old) (R.seen rec.new) }
    ensures board { KeepsBoard board.old board.new }
{
    turn_lines_join();
    let part = asking.linear.purse() / PARTS_WITH_AND_WITHOUT;
    asking.linear.set_purse(part);
    if ask_all(asking, boxes, rec, bounds, board, pending)? {
        return Ok(true);
    }
    asking.linear.set_purse(part);
    ask_without(asking, boxes, rec, bounds, board, pending, end)
}

// The same by a relaxation that doesn't know of these lines.
fn ask_without<R: Recorder>(
    asking: &mut Asking<'_>,
    boxes: &mut OpenBoxes,
    rec: &mut R,
    bounds: &Bounds,
    board: &mut Board<'_>,
    pending: &mut Items<Assignment>,
    end: u64,
) -> Result<bool, RecordFault>
    requires good { IsGoodBut (R.seen rec.old) bounds.now board.old pending.old }
    ensures good { OnOk result (IsGoodBut (R.seen rec.new) bounds.now board.new pending.new) }
    ensures fault { IfErr result (IsFaultAt (R.seen rec.old) (R.seen rec.new)) }
    ensures goes_on { GoesOn (R.seen rec.old) (R.seen rec.new) }
    ensures board { KeepsBoard board.old board.new }
{
    turn_lines_join();
    in_memory(asking.linear.leave_out(board.problem(), end))?;
    in_memory(asking.linear.take_up(rec.state()))?;
    let are_closed = ask_all(asking, boxes, rec, bounds, board, pending)?;
    in_memory(asking.linear.take_up_held(rec.state()))?;
    Ok(are_closed)
}

// Whether there are lines above the problem's rows below this id.
fn has_lines_below(problem: &PbProblem, end: u64) -> bool {
    end > (problem.rows().len() as u64).saturating_add(1)
}

// Adds the lines of cliques, and lets the relaxation take up what lines there are above the problem's rows.
fn prepare<R: Recorder>(
    asking: &mut Asking<'_>,
    rec: &mut R,
    problem: &PbProblem,
) -> Result<(), RecordFault>
    requires ready { IsReady (R.seen rec.old) }
    ensures recorded { IsRecorded (R.seen rec.old) (R.seen rec.new) result }
{
    add_cliques(asking.alloc, rec, problem)?;
    in_memory(asking.linear.take_up(rec.state()))
}

// Asks box by box, the last first, takes each model that is found, and answers whether all boxes were closed.
fn ask_all<R: Recorder>(
    asking: &mut Asking<'_>,
    boxes: &mut OpenBoxes,
    rec: &mut R,
    bounds: &Bounds,
    board: &mut Board<'_>,
    pending: &mut Items<Assignment>,
) -> Result<bool, RecordFault>
    requires good { IsGoodBut (R.seen rec.old) bounds.now board.old pending.old }
    ensures good { OnOk result (IsGoodBut (R.seen rec.new) bounds.now board.new pending.new) }
    ensures fault { IfErr result (IsFaultAt (R.seen rec.old) (R.seen rec.new)) }
    ensures goes_on { GoesOn (R.seen rec.old) (R.seen rec.new) }
    ensures board { KeepsBoard board.old board.new }
{
    let mut left = LeftBoxes::new(asking.alloc);
    for _question in 0..MOST_QUESTIONS {
        if !ask_next(asking, boxes, &mut left, rec, bounds, board, pending)? {
            return Ok(boxes.limits().is_empty());
        }
    }
    Ok(false)
}

// Asks the next box, as far as the relaxation may be asked and a box may tell something; answers whether to go on.
fn ask_next<R: Recorder>(
    asking: &mut Asking<'_>,
    boxes: &mut OpenBoxes,
    left: &mut LeftBoxes,
    rec: &mut R,
    bounds: &Bounds,
    board: &mut Board<'_>,
    pending: &mut Items<Assignment>,
) -> Result<bool, RecordFault>
    requires good { IsGoodBut (R.seen rec.old) bounds.now board.old pending.old }
    ensures good { OnOk result (IsGoodBut (R.seen rec.new) bounds.now board.new pending.new) }
    ensures fault { IfErr result (IsFaultAt (R.seen rec.old) (R.seen rec.new)) }
    ensures goes_on { GoesOn (R.seen rec.old) (R.seen rec.new) }
    ensures board { KeepsBoard board.old board.new }
{
    if !asking.may_ask() {
        return Ok(false);
    }
    left.try_again(asking.linear.purse());
    match next_box(boxes, left) {
        Some(next) => step(asking, boxes, left, next, rec, bounds, board, pending),
        None => Ok(false),
    }
}

// The last box that may tell something, and what is sought there: the least sum where nothing is known yet, and else the
// least cost of the first objective, since the tree then closes what is below that; where that didn't tell, the least sum.
fn next_box(boxes: &OpenBoxes, left: &LeftBoxes) -> Option<Next>
    ensures { IfSome result (λ next. next.place < length boxes.now) }
{
    let limits = boxes.limits();
    if limits.len() > MOST_BOXES {
        return None;
    }
    for place in (0..limits.len()).rev() {
        if let Some(target) = left.target_in(&limits[place]) {
            return Some(Next { place, target });
        }
    }
    None
}

// Boxes of which the relaxation doesn't tell, as far as they were asked.
#[derive(Debug, Drop)]
struct LeftBoxes {
    // Those that were asked for the least cost of an objective, and those that were asked for the least sum.
    by_objective: Vec<CostVec>,
    by_sum: Vec<CostVec>,
    // What the purse had when the first of them was noted.
    purse: u64,
}

impl LeftBoxes {
    fn new(alloc: Global) -> LeftBoxes {
        LeftBoxes {
            by_objective: Vec::new(alloc),
            by_sum: Vec::new(alloc),
            purse: 0,
        }
    }

    // Forgets them where the purse has grown so much that it is worth it.
    fn try_again(&mut self, purse: u64) {
        if self.by_objective.is_empty() && self.by_sum.is_empty() {
            self.purse = purse;
        } else if purse / TIMES_TO_TRY_AGAIN > self.purse {
            self.by_objective.clear();
            self.by_sum.clear();
        }
    }

    // What is sought in a box next; none where nothing is left to try.
    fn target_in(&self, limits: &CostVec) -> Option<Target> {
        if self.by_sum.contains(limits) {
            return None;
        }
        let is_bounded = limits.as_slice().iter().any(|limit| *limit < i64::MAX);
        if (is_bounded || limits.len() == 1) && !self.by_objective.contains(limits) {
            return Some(Target::Objective(0));
        }
        Some(Target::Sum)
    }

    // Notes that a box stayed open.
    fn keep(&mut self, alloc: Global, limits: &CostVec, target: Target) -> Result<(), NoMemory> {
        let copy = limits.copy(alloc)?;
        match target {
            Target::Sum => self.by_sum.push(copy)?,
            Target::Objective(_) => self.by_objective.push(copy)?,
        }
        Ok(())
    }
}

// Asks a box, and closes it, or takes the model that is found there; answers whether a model that was found could be logged.
fn step<R: Recorder>(
    asking: &mut Asking<'_>,
    boxes: &mut OpenBoxes,
    left: &mut LeftBoxes,
    next: Next,
    rec: &mut R,
    bounds: &Bounds,
    board: &mut Board<'_>,
    pending: &mut Items<Assignment>,
) -> Result<bool, RecordFault>
    requires there { next.place < length boxes.old }
    requires good { IsGoodBut (R.seen rec.old) bounds.now board.old pending.old }
    ensures good { OnOk result (IsGoodBut (R.seen rec.new) bounds.now board.new pending.new) }
    ensures fault { IfErr result (IsFaultAt (R.seen rec.old) (R.seen rec.new)) }
    ensures goes_on { GoesOn (R.seen rec.old) (R.seen rec.new) }
    ensures board { KeepsBoard board.old board.new }
{
    adding_stays_good_but();
    let limits = in_memory(boxes.limits()[next.place].copy(asking.alloc))?;
    let told = asking.ask_and_earn(rec, board.problem(), &limits, next.target)?;
    go_on(
        asking, boxes, left, next, rec, bounds, board, pending, &limits, &told,
    )
}

// Closes the box at this place, or takes the model that was found there, or notes that it stays open.
fn go_on<R: Recorder>(
    asking: &mut Asking<'_>,
    boxes: &mut OpenBoxes,
    left: &mut LeftBoxes,
    next: Next,
    rec: &mut R,
    bounds: &Bounds,
    board: &mut Board<'_>,
    pending: &mut Items<Assignment>,
    limits: &CostVec,
    told: &Told,
) -> Result<bool, RecordFault>
    requires there { next.place < length boxes.old }
    requires good { IsGoodBut (R.seen rec.old) bounds.now board.old pending.old }
    requires told { IsTold (R.seen rec.old).problem told.now }
    ensures good { OnOk result (IsGoodBut (R.seen rec.new) bounds.now board.new pending.new) }
    ensures fault { IfErr result (IsFaultAt (R.seen rec.old) (R.seen rec.new)) }
    ensures goes_on { GoesOn (R.seen rec.old) (R.seen rec.new) }
    ensures board { KeepsBoard board.old board.new }
{
    turn_lines_join();
    match told {
        Told::Closed => {
            boxes.close(next.place);
            Ok(true)
        }
        Told::Model(model) => take(
            asking,
            boxes,
            rec,
            bounds,
            board,
            pending,
            limits,
            next.target,
            model,
        ),
        Told::Unknown => {
            in_memory(left.keep(asking.alloc, limits, next.target))?;
            Ok(true)
        }
    }
}

// Takes a model that was found within limits, takes what it is below out of the boxes, and closes what is below it by the
// target; answers whether it could be logged.
fn take<R: Recorder>(
    asking: &mut Asking<'_>,
    boxes: &mut OpenBoxes,
    rec: &mut R,
    bounds: &Bounds,
    board: &mut Board<'_>,
    pending: &mut Items<Assignment>,
    limits: &CostVec,
    target: Target,
    model: &Assignment,
) -> Result<bool, RecordFault>
    requires good { IsGoodBut (R.seen rec.old) bounds.now board.old pending.old }
    requires model { IsProblemModel (R.seen rec.old).problem model.now }
    ensures good { OnOk result (IsGoodBut (R.seen rec.new) bounds.now board.new pending.new) }
    ensures fault { IfErr result (IsFaultAt (R.seen rec.old) (R.seen rec.new)) }
    ensures goes_on { GoesOn (R.seen rec.old) (R.seen rec.new) }
    ensures board { KeepsBoard board.old board.new }
{
    adding_stays_good_but();
    turn_lines_join();
    let costs = in_memory(costs_at(asking.alloc, board.problem(), model))?;
    in_memory(boxes.exclude(&costs))?;
    close_below(asking, boxes, rec, board.problem(), limits, target, &costs)?;
    let cut = asking.cut_at(rec, board.problem(), &costs)?;
    board.take_by_cut(rec, bounds, pending, model, cut.lits, cut.rows)
}

// Closes what of a box costs less than a model that was found as the one of least cost by the target, if the tree tells.
fn close_below<R: Recorder>(
    asking: &mut Asking<'_>,
    boxes: &mut OpenBoxes,
    rec: &mut R,
    problem: &PbProblem,
    limits: &CostVec,
    target: Target,
    costs: &CostVec,
) -> Result<(), RecordFault>
    requires ready { IsReady (R.seen rec.old) }
    requires problem { (R.seen rec.old).problem ≡ problem.now }
    ensures recorded { IsRecorded (R.seen rec.old) (R.seen rec.new) result }
{
    let Target::Objective(objective) = target else {
        return Ok(());
    };
    let Some(below) = in_memory(less_in(asking.alloc, limits, costs, objective))? else {
        return Ok(());
    };
    if let Told::Closed = asking.ask_below(rec, problem, &below, limits)? {
        close_within(boxes, &below);
    }
    Ok(())
}

// The limits where this objective costs less than at the model.
fn less_in(
    alloc: Global,
    limits: &CostVec,
    costs: &CostVec,
    objective: usize,
) -> Result<Option<CostVec>, NoMemory> {
    let mut less = Items::new(alloc);
    less.extend_from_slice(limits.as_slice())?;
    let Some(cost) = costs.as_slice().get(objective) else {
        return Ok(None);
    };
    let Some(most) = cost.checked_sub(1) else {
        return Ok(None);
    };
    if objective >= less.len() {
        return Ok(None);
    }
    less.set(objective, most);
    Ok(Some(CostVec::from_items(less)))
}

// Closes the boxes within these limits.
fn close_within(boxes: &mut OpenBoxes, limits: &CostVec) {
    for place in (0..boxes.limits().len()).rev() {
        let is_within = match boxes.limits().get(place) {
            Some(other) => other.len() == limits.len() && other.weakly_dominates(limits),
            None => false,
        };
        if is_within && place < boxes.limits().len() {
            boxes.close(place);
        }
    }
}
