// The linear relaxation of a problem.
use crate::counting::wants_more_than_one;
use crate::cuts::Cuts;
use crate::cutting::Service;
use crate::limits::{
    LEAST_PASSES, MOST_HALVINGS, MOST_PIVOTS, MOST_SIZE_OF_LINE, PASSES_OF_A_WALK, SHARE_OF_WALKS,
};
use crate::live_lines::LiveLines;
use crate::question::Limit;
use crate::roots::Roots;
use crate::rounding::Matrix;
use crate::scale::Scale;
use crate::target::{Aim, Target};
use crate::walking::Walk;
use linear_program::{LinearProgram, MOST_ENTRIES, MOST_ROWS, Range, Term};
use pb_lin::{Constraint, CostRow, PbProblem};
use scut_base::{Items, Lit, NoMemory};
use std::alloc::Global;
use std::num::{nearest_i64_to_f64, nearest_u64_to_f64, nearest_usize_to_f64};

// What a row of the relaxation speaks of.
#[derive(Clone, Copy, Debug)]
pub(crate) enum Row {
    // The live line of this id: one of the problem's rows, or a line above them.
    Line(u64),
    // The objective at this place.
    Objective(usize),
    // The cut at this place.
    Cut(usize),
}

// An objective: its terms over columns, what their sum lacks to the cost, and between what it is.
#[derive(Debug, Drop)]
pub(crate) struct Objective {
    pub(crate) terms: Vec<Term>,
    pub(crate) constant: f64,
    pub(crate) range: Range,
    // Sums differ by multiples of this.
    pub(crate) divisor: f64,
    // The row that holds it to a limit.
    pub(crate) row: usize,
}

// The relaxation: a column for each variable, and a row for each constraint and each objective.
#[derive(Debug, Drop)]
pub(crate) struct Relaxation {
    pub(crate) alloc: Global,
    pub(crate) program: LinearProgram,
    // Whether all rows had room.
    pub(crate) is_whole: bool,
    pub(crate) columns: usize,
    pub(crate) rows: Vec<Row>,
    // The rows of lines once more, as rounding takes them.
    pub(crate) matrix: Matrix,
    pub(crate) objectives: Vec<Objective>,
    // Cuts, of which some are rows, and how they served.
    pub(crate) cuts: Cuts,
    pub(crate) service: Service,
    // How many numbers the rows of lines and objectives have together.
    pub(crate) entries: usize,
    // Of each column, how many rows name it, and what share it has of all costs.
    pub(crate) uses: Vec<f64>,
    pub(crate) shares: Vec<f64>,
    pub(crate) aim: Aim,
    // By what the choice of columns to split by is swayed.
    pub(crate) sway: u64,
    // Whether some row isn't met by each of its literals, and how many walks found nothing since the last one that did.
    pub(crate) counts: bool,
    failed_walks: u64,
    pub(crate) roots: Roots,
    // What the linear program without limits took, in numbers touched.
    pub(crate) root_work: u64,
    // How multipliers come to whole factors.
    pub(crate) scale: Scale,
    // The id of the next line to be looked at.
    next_line: u64,
    // The lines from the one id on and below the other that it left alone.
    held_from: u64,
    held_to: u64,
    // What was done beside the linear programs, in numbers touched.
    pub(crate) own_work: u64,
}

impl Relaxation {
    // That of a problem. One that is too large to be asked keeps nothing.
    pub(crate) fn new(alloc: Global, problem: &PbProblem) -> Result<Relaxation, NoMemory> {
        let is_whole = has_room(problem);
        let columns = if is_whole { problem.vars() as usize } else { 0 };
        let program = LinearProgram::new(alloc, columns)?;
        let roots = Roots::new(alloc, &program)?;
        let mut relaxation = Relaxation {
            alloc,
            program,
            is_whole,
            columns,
            rows: Vec::new(alloc),
            matrix: Matrix::new(alloc, columns)?,
            objectives: Vec::new(alloc),
            cuts: Cuts::new(alloc),
            service: Service::new(),
            entries: 0,
            uses: vec![in alloc; 1.0; columns]?,
            shares: vec![in alloc; 1.0; columns]?,
            aim: Aim::new(alloc),
            sway: 0,
            counts: problem.rows().iter().any(wants_more_than_one),
            failed_walks: 0,
            roots,
            root_work: 0,
            scale: Scale::new(),
            next_line: (problem.rows().len() as u64).saturating_add(1),
            held_from: 0,
            held_to: 0,
            own_work: 0,
        };
        if is_whole {
            relaxation.fill(problem)?;
        }
        Ok(relaxation)
    }

    // Adds the problem's rows and objectives.
    fn fill(&mut self, problem: &PbProblem) -> Result<(), NoMemory> {
        let mut line = 0u64;
        for row in problem.rows() {
            line = line.saturating_add(1);
            self.add_line(line, row, true)?;
        }
        for cost in problem.costs() {
            self.add_objective(cost)?;
        }
        Ok(())
    }

    // Forgets all lines, and leaves alone those below this id.
    pub(crate) fn begin_again(&mut self, problem: &PbProblem, end: u64) -> Result<(), NoMemory> {
        let mut again = Relaxation::new(self.alloc, problem)?;
        again.own_work = self.work();
        again.failed_walks = self.failed_walks;
        again.root_work = self.root_work;
        again.held_from = again.next_line;
        again.held_to = end;
        again.next_line = again.next_line.max(end);
        *self = again;
        Ok(())
    }

    // Takes up those that it left alone, as `take_up` does.
    pub(crate) fn take_up_held(&mut self, live: &LiveLines<'_>) -> Result<(), NoMemory> {
        for id in self.held_from..self.held_to {
            self.take_up_line(live, id)?;
        }
        self.held_to = self.held_from;
        Ok(())
    }

    // Takes up the live lines above those that it has, if they speak of the problem's variables alone and their coefficients
    // are small. Costs a look at each line that came since.
    pub(crate) fn take_up(&mut self, live: &LiveLines<'_>) -> Result<(), NoMemory> {
        for id in self.next_line..live.next_id {
            self.take_up_line(live, id)?;
        }
        self.next_line = self.next_line.max(live.next_id);
        Ok(())
    }

    fn take_up_line(&mut self, live: &LiveLines<'_>, id: u64) -> Result<(), NoMemory> {
        if self.cuts.has_written(id) {
            return Ok(());
        }
        match live.lines.get(id) {
            Some(line) if is_small_over(line, self.columns as u64) => self.add_line(
                id, line, false,
            ),
            _ => Ok(()),
        }
    }

    // Adds the row of a line, unless it says nothing. Points are rounded to what the problem's own rows ask for: a model that
    // lines above them leave out, since another one is as good, is a model.
    fn add_line(&mut self, id: u64, line: &Constraint, is_own: bool) -> Result<(), NoMemory> {
        if line.degree() == 0 {
            return Ok(());
        }
        let sum = sum_of_line(self.alloc, line)?;
        let range = Range {
            lower: float_of(line.degree()) + sum.least,
            upper: sum.greatest,
        };
        add_uses(&mut self.uses, sum.terms.as_slice());
        if is_own {
            self.matrix.add(sum.terms.as_slice(), range)?;
        }
        self.add_row(Row::Line(id), sum.terms.as_slice(), range)
    }

    fn add_objective(&mut self, cost: &CostRow) -> Result<(), NoMemory> {
        let row = self.rows.len();
        let objective = objective_of(self.alloc, cost, row)?;
        add_costs(&mut self.shares, &objective);
        let named = Row::Objective(self.objectives.len());
        self.add_row(named, objective.terms.as_slice(), objective.range)?;
        self.objectives.push(objective)?;
        Ok(())
    }

    fn add_row(&mut self, row: Row, terms: &[Term], range: Range) -> Result<(), NoMemory> {
        if self.program.add_row(terms, range)? {
            self.entries = self.entries.saturating_add(terms.len());
            self.rows.push(row)?;
        } else {
            self.is_whole = false;
        }
        Ok(())
    }

    // The best by the aim of the models within the limits that a walk from these values meets, each column's value; none where it meets
    // none.
    pub(crate) fn walk(
        &mut self,
        limits: &[Limit],
        values: &[f64],
    ) -> Result<Option<Vec<f64>>, NoMemory> {
        let matrix = self.rows_to_walk_by(limits)?;
        let gain = self.aim.step.max(1e-6);
        let most = self.passes(PASSES_OF_A_WALK);
        let mut walk = Walk::new(self.alloc, matrix, gain, values, most)?;
        walk.search()?;
        self.own_work = self.own_work.saturating_add(walk.work);
        self.failed_walks = match &walk.best {
            Some(_) => 0,
            None => self.failed_walks.saturating_add(1),
        };
        Ok(walk.best.take())
    }

    // At how much work the next walk is begun, where the last one began at this: walks take a share of all work, half as much after each
    // that found nothing.
    pub(crate) fn next_walk(&self, began: u64) -> u64 {
        let now = self.work();
        let taken = now.saturating_sub(began);
        let times = SHARE_OF_WALKS << self.failed_walks.min(MOST_HALVINGS);
        now.saturating_add(taken.saturating_mul(times))
    }

    // The problem's rows, the limits, and last the aim's costs with their signs changed.
    fn rows_to_walk_by(&self, limits: &[Limit]) -> Result<Matrix, NoMemory> {
        let mut matrix = self.matrix.copy()?;
        for limit in limits {
            if let Some(objective) = self.objectives.get(limit.objective) {
                let most = nearest_i64_to_f64(limit.most) - objective.constant;
                matrix.add_most(objective.terms.as_slice(), most)?;
            }
        }
        let mut costs = Vec::new(self.alloc);
        for (column, coefficient) in self.aim.costs.iter().enumerate() {
            if *coefficient != 0.0 {
                costs.push(Term {
                    column,
                    coefficient: *coefficient,
                })?;
            }
        }
        matrix.add_most(costs.as_slice(), f64::INFINITY)?;
        Ok(matrix)
    }

    // The least work that a question is worth.
    pub(crate) fn least_stake(&self) -> u64 {
        self.passes(LEAST_PASSES)
    }

    // All work that was done, in numbers touched.
    pub(crate) fn work(&self) -> u64 {
        self.program.work().saturating_add(self.own_work)
    }

    // Counts so many passes over rows and columns.
    pub(crate) fn count_passes(&mut self, count: u64) {
        self.own_work = self.own_work.saturating_add(self.passes(count));
    }

    // The work of so many passes over rows and columns.
    pub(crate) fn passes(&self, count: u64) -> u64 {
        let size = (self.columns as u64).saturating_add(self.rows.len() as u64);
        size.saturating_mul(count)
    }

    // Goes by this target from now on.
    pub(crate) fn aim_at(&mut self, target: Target) -> Result<(), NoMemory> {
        self.aim = Aim::of(self.alloc, target, self.columns, self.objectives.as_slice())?;
        self.program.set_costs(self.aim.costs.as_slice());
        self.roots.go_to(target, &mut self.program)
    }

    // Solves for the least sum with no column fixed.
    pub(crate) fn solve_root(&mut self) -> Result<(), NoMemory> {
        let before = self.work();
        self.aim_at(Target::Sum)?;
        self.program.solve(f64::INFINITY, MOST_PIVOTS)?;
        self.root_work = self.work().saturating_sub(before);
        self.roots.keep(&self.program)
    }

    // Fixes the column of a literal so that it is true.
    pub(crate) fn fix(&mut self, lit: Lit) {
        let end = if lit.is_neg() { 0.0 } else { 1.0 };
        let range = Range {
            lower: end,
            upper: end,
        };
        self.program.set_column(column_of(lit), range);
    }

    // Lets the column of a literal be either, and what is between.
    pub(crate) fn free(&mut self, lit: Lit) {
        let range = Range {
            lower: 0.0,
            upper: 1.0,
        };
        self.program.set_column(column_of(lit), range);
    }
}

// Whether a problem's columns, its rows and their numbers are few enough.
fn has_room(problem: &PbProblem) -> bool {
    let rows = problem.rows().len().saturating_add(problem.costs().len());
    if rows > MOST_ROWS || problem.vars() > MOST_ENTRIES as u64 {
        return false;
    }
    let mut entries = 0usize;
    for row in problem.rows() {
        entries = entries.saturating_add(row.len());
    }
    for cost in problem.costs() {
        entries = entries.saturating_add(cost.terms().len());
    }
    entries <= MOST_ENTRIES
}

// Counts a row for each of its columns.
fn add_uses(uses: &mut [f64], terms: &[Term]) {
    for term in terms {
        if let Some(place) = uses.get_mut(term.column) {
            *place += 1.0;
        }
    }
}

// Adds the share that each column has of an objective's costs, as if a column had 1 on the average.
fn add_costs(shares: &mut [f64], objective: &Objective) {
    let width = 1.0 + objective.range.upper - objective.range.lower;
    let weight = nearest_usize_to_f64(shares.len()) / width;
    for term in objective.terms.iter() {
        if let Some(place) = shares.get_mut(term.column) {
            *place += weight * term.coefficient.abs();
        }
    }
}

// An objective, whose row is this.
fn objective_of(alloc: Global, cost: &CostRow, row: usize) -> Result<Objective, NoMemory> {
    let sum = sum_of_costs(alloc, cost.terms())?;
    let range = Range {
        lower: sum.least,
        upper: sum.greatest,
    };
    let constant = nearest_i64_to_f64(cost.offset()) - sum.least;
    let divisor = nearest_u64_to_f64(divisor_of(cost.terms()));
    Ok(Objective {
        terms: sum.terms,
        constant,
        range,
        divisor,
        row,
    })
}

// Whether a line's variables are the first ones, and its coefficients are small.
fn is_small_over(line: &Constraint, columns: u64) -> bool {
    let mut size = line.degree();
    for at in 0..line.len() {
        let (lit, coefficient) = line.term(at);
        size = size.saturating_add(coefficient);
        if lit.var() > columns {
            return false;
        }
    }
    size <= MOST_SIZE_OF_LINE
}

// A sum over columns, without its constant: between what it is.
#[derive(Debug, Drop)]
pub(crate) struct Sum {
    pub(crate) terms: Vec<Term>,
    pub(crate) least: f64,
    pub(crate) greatest: f64,
}

impl Sum {
    fn new(alloc: Global) -> Sum {
        Sum {
            terms: Vec::new(alloc),
            least: 0.0,
            greatest: 0.0,
        }
    }

    // Adds a term, where `c·~x = c - c·x`.
    fn add(&mut self, lit: Lit, coefficient: f64) -> Result<(), NoMemory> {
        let signed = if lit.is_neg() {
            self.least -= coefficient;
            -coefficient
        } else {
            self.greatest += coefficient;
            coefficient
        };
        self.terms.push(Term {
            column: column_of(lit),
            coefficient: signed,
        })?;
        Ok(())
    }
}

// The sum of a line's terms.
pub(crate) fn sum_of_line(alloc: Global, line: &Constraint) -> Result<Sum, NoMemory> {
    let mut sum = Sum::new(alloc);
    for at in 0..line.len() {
        let (lit, coefficient) = line.term(at);
        sum.add(lit, float_of(coefficient))?;
    }
    Ok(sum)
}

// The sum of an objective's terms.
fn sum_of_costs(alloc: Global, terms: &[(Lit, u64)]) -> Result<Sum, NoMemory> {
    let mut sum = Sum::new(alloc);
    for term in terms {
        sum.add(term.0, nearest_u64_to_f64(term.1))?;
    }
    Ok(sum)
}

// The greatest common divisor of the weights; 1 where there are none.
fn divisor_of(terms: &[(Lit, u64)]) -> u64 {
    let mut divisor = 0;
    for term in terms {
        divisor = common_divisor(divisor, term.1);
    }
    divisor.max(1)
}

// The greatest common divisor of two numbers (Euclid): 100 divisions do for 64 bits.
fn common_divisor(first: u64, second: u64) -> u64 {
    let mut greater = first;
    let mut less = second;
    for _division in 0..100 {
        if less == 0 {
            break;
        }
        let rest = greater % less;
        greater = less;
        less = rest;
    }
    greater
}

// The column of a literal's variable.
pub(crate) fn column_of(lit: Lit) -> usize {
    (lit.var() - 1) as usize
}

// The nearest float, and that of 2^64 for more.
pub(crate) fn float_of(number: u128) -> f64 {
    match u64::try_from(number) {
        Ok(number) => nearest_u64_to_f64(number),
        Err(_) => nearest_u64_to_f64(u64::MAX),
    }
}
