// Rounds of cuts at the root of a question's tree.
use crate::limits::{
    CUTS_OF_A_ROUND, FEW_VISITS, FIRST_ROUNDS, LARGE_ROOT, LATER_ROUNDS, LEAST_GAIN, LEAST_SHARE,
    MOST_CUT_ENTRIES, MOST_FAILED, MOST_IDLE, MOST_PIVOTS, MOST_SIZE_OF_CUTS, MOST_STALLED,
    NODES_BEFORE_CUTS, PASSES_OF_CUTS, ROOTS_OF_CUTS, SLACK,
};
use crate::live_lines::LiveLines;
use crate::question::Question;
use crate::relaxation::{Relaxation, Row, float_of, sum_of_line};
use crate::tree::Tree;
use linear_cuts::{Cut, Separation};
use linear_program::{Answer, Basis, Range, Term};
use scut_base::NoMemory;

// The rounds of cuts of a question: the bounds before them and with them, and the basis and the rows before them.
#[derive(Debug, Drop)]
pub(crate) struct Rounds {
    before: f64,
    after: f64,
    basis: Basis,
    first: usize,
}

// How cuts have served so far.
#[derive(Debug, Drop)]
pub(crate) struct Service {
    // Whether there were rounds before.
    has_begun: bool,
    // How many questions they helped with, and with how many they didn't.
    helped: u64,
    failed: u64,
    // The rounds of the present question, until it's known whether they helped.
    open: Option<Rounds>,
    // Those that are to be taken back before the next question.
    vain: Option<Rounds>,
}

impl Service {
    pub(crate) fn new() -> Service {
        Service {
            has_begun: false,
            helped: 0,
            failed: 0,
            open: None,
            vain: None,
        }
    }
}

impl Relaxation {
    // Seeks cuts at the root of a tree: at once where they have served before, else only where the tree shows by its size that it
    // may need them. With cuts the tree begins anew, but for its best model. Answers whether the search is to go on.
    pub(crate) fn begin_with_cuts(
        &mut self,
        live: &LiveLines<'_>,
        question: &Question<'_>,
        tree: &mut Tree,
        most: u64,
    ) -> Result<bool, NoMemory> {
        let of_roots = self.root_work.saturating_mul(ROOTS_OF_CUTS);
        let mut allowance = self.passes(PASSES_OF_CUTS).max(of_roots);
        if self.service.helped == 0 && !self.is_root_large() {
            let began = self.work();
            if !self.split_nodes(live, question, tree, most, NODES_BEFORE_CUTS)? {
                return Ok(false);
            }
            allowance = allowance.min(self.work().saturating_sub(began));
            self.begin(question, tree);
        }
        let most = most.min(self.work().saturating_add(allowance));
        if self.cut_root(live, tree, most)? {
            self.begin_anew(live, question, tree)?;
        }
        Ok(true)
    }

    // Cuts off the root's point, again and again until this much work was done; answers whether rows have changed.
    fn cut_root(&mut self, live: &LiveLines<'_>, tree: &Tree, most: u64) -> Result<bool, NoMemory> {
        if !tree.can_be_split(0) {
            return Ok(false);
        }
        let mut separation = self.separation(live)?;
        let is_changed = self.drop_old(&mut separation)?;
        let before = self.program.sum();
        let basis = self.program.basis()?;
        let first = self.rows.len();
        let after = self.cut_in_rounds(live, tree, &mut separation, most)?;
        self.service.has_begun = true;
        let rounds = Rounds {
            before,
            after,
            basis,
            first,
        };
        if self.is_gain(tree, &rounds) {
            self.service.open = Some(rounds);
            return Ok(true);
        }
        self.service.failed = self.service.failed.saturating_add(1);
        self.service.vain = Some(rounds);
        self.take_back_cuts()?;
        Ok(is_changed)
    }

    // Drops the cuts of earlier questions that have been slack at the roots of some; answers whether there were any.
    fn drop_old(&mut self, separation: &mut Separation) -> Result<bool, NoMemory> {
        let rows = self.rows.len();
        if let Some(values) = self.point_now()? {
            self.drop_slack(separation, values.as_slice(), 0)?;
        }
        if self.rows.len() < rows {
            self.point_now()?;
            return Ok(true);
        }
        Ok(false)
    }

    // Whether cuts are sought at all.
    pub(crate) fn may_cut(&self) -> bool {
        self.entries <= MOST_CUT_ENTRIES
            && self.cuts.size <= MOST_SIZE_OF_CUTS
            && self.service.failed < self.service.helped.saturating_add(MOST_FAILED)
    }

    // Whether cuts close so much of the gap to the best model that they are worth their rows; where no model is known, of what a
    // better one would lack.
    fn is_gain(&self, tree: &Tree, rounds: &Rounds) -> bool {
        let gap = match &tree.best {
            Some(best) => best.value - rounds.before,
            None => 0.0,
        };
        rounds.after - rounds.before > LEAST_SHARE * gap.max(self.aim.step)
    }

    // Finds cuts and solves with them, as long as the bound rises and better models than the best may be left; answers the
    // bound.
    fn cut_in_rounds(
        &mut self,
        live: &LiveLines<'_>,
        tree: &Tree,
        separation: &mut Separation,
        most: u64,
    ) -> Result<f64, NoMemory> {
        let first = self.rows.len();
        let mut bound = self.program.sum();
        let mut stalled = 0u32;
        for _round in 0..self.rounds() {
            if self.work() > most || !self.cut_once(live, separation)? {
                break;
            }
            let Some(values) = self.point_now()? else {
                return Ok(f64::INFINITY);
            };
            let now = self.program.sum();
            self.drop_slack(separation, values.as_slice(), first)?;
            let is_little = now - bound < LEAST_GAIN * (1.0 + bound.abs());
            stalled = if is_little {
                stalled.saturating_add(1)
            } else {
                0
            };
            bound = bound.max(now);
            if stalled >= MOST_STALLED || tree.is_no_better(bound, self.aim.step) {
                break;
            }
        }
        Ok(bound)
    }

    fn rounds(&self) -> u32 {
        if self.service.has_begun && !self.is_root_large() {
            LATER_ROUNDS
        } else {
            FIRST_ROUNDS
        }
    }

    // Whether rounds of cuts take less than some dozen nodes.
    fn is_root_large(&self) -> bool {
        self.root_work >= LARGE_ROOT
    }

    // Adds the cuts of the present point; answers whether there are any.
    fn cut_once(
        &mut self,
        live: &LiveLines<'_>,
        separation: &mut Separation,
    ) -> Result<bool, NoMemory> {
        let Some(values) = self.point_now()? else {
            return Ok(false);
        };
        let before = separation.work();
        separation.go_to(values.as_slice());
        separation.find_zero_half()?;
        separation.round_rows()?;
        for column in separation.columns_to_ask()?.iter() {
            if let Some(multipliers) = self.program.table_row(*column)? {
                separation.round_table_row(multipliers.as_slice())?;
            }
        }
        let mut has_any = false;
        for cut in separation.take_chosen(CUTS_OF_A_ROUND)?.iter() {
            has_any |= self.add_cut(live, separation, cut)?;
        }
        let work = separation.work().saturating_sub(before);
        self.own_work = self.own_work.saturating_add(work);
        Ok(has_any)
    }

    // The point of least cost with the rows of now; none where there's none.
    fn point_now(&mut self) -> Result<Option<Vec<f64>>, NoMemory> {
        let solved = self.program.solve(f64::INFINITY, MOST_PIVOTS)?;
        match solved.answer {
            Answer::Optimal { values } => Ok(Some(values)),
            _ => Ok(None),
        }
    }

    // The rows of lines, for cuts; in the place of an objective's a row without terms.
    fn separation(&self, live: &LiveLines<'_>) -> Result<Separation, NoMemory> {
        let mut separation = Separation::new(self.alloc, self.columns)?;
        for row in self.rows.iter() {
            let line = match row {
                Row::Line(id) => live.lines.get(*id),
                Row::Cut(place) => self.cuts.constraints.get(*place),
                Row::Objective(_) => None,
            };
            match line {
                Some(line) => {
                    let sum = sum_of_line(self.alloc, line)?;
                    let least = float_of(line.degree()) + sum.least;
                    add_row(&mut separation, sum.terms.as_slice(), least)?;
                }
                None => separation.add_row(0.0)?,
            }
        }
        Ok(separation)
    }

    // Adds the row of a cut, if it makes a line.
    fn add_cut(
        &mut self,
        live: &LiveLines<'_>,
        separation: &mut Separation,
        cut: &Cut,
    ) -> Result<bool, NoMemory> {
        let Some(place) = self.keep_cut(live, cut)? else {
            return Ok(false);
        };
        let Some(made) = self.cuts.constraints.get(place) else {
            return Ok(false);
        };
        let sum = sum_of_line(self.alloc, made)?;
        let range = Range {
            lower: float_of(made.degree()) + sum.least,
            upper: sum.greatest,
        };
        if !self.program.add_row(sum.terms.as_slice(), range)? {
            return Ok(false);
        }
        self.rows.push(Row::Cut(place))?;
        add_row(separation, sum.terms.as_slice(), range.lower)?;
        Ok(true)
    }

    // The id of a row's line; 0 where it has none.
    pub(crate) fn id_of(&self, row: Row) -> u64 {
        match row {
            Row::Line(id) => id,
            Row::Cut(place) => self.cuts.id(place),
            Row::Objective(_) => 0,
        }
    }

    // Notes which cuts are slack at the point of these values, and drops those from a row on that have been for some solves.
    fn drop_slack(
        &mut self,
        separation: &mut Separation,
        values: &[f64],
        first: usize,
    ) -> Result<(), NoMemory> {
        separation.go_to(values);
        let mut is_dropped = Vec::with_capacity(self.alloc, self.rows.len())?;
        for (row, named) in self.rows.iter().enumerate() {
            let is_idle = match named {
                Row::Cut(place) if row >= first => {
                    let is_slack = separation.slack(row).unwrap_or(0.0) > SLACK;
                    self.cuts.note_slack(*place, is_slack) >= MOST_IDLE
                }
                _ => false,
            };
            is_dropped.push(is_idle)?;
        }
        let staying = self.drop_rows(is_dropped.as_slice())?;
        separation.keep_rows(staying.as_slice());
        Ok(())
    }

    // Drops the cuts from a row on.
    fn drop_cuts_from(&mut self, first: usize) -> Result<(), NoMemory> {
        let mut is_dropped = Vec::with_capacity(self.alloc, self.rows.len())?;
        for (row, named) in self.rows.iter().enumerate() {
            is_dropped.push(row >= first && matches!(named, Row::Cut(_)))?;
        }
        self.drop_rows(is_dropped.as_slice())?;
        Ok(())
    }

    // Drops rows that are marked, if the program can, and answers which stay.
    fn drop_rows(&mut self, is_dropped: &[bool]) -> Result<Vec<usize>, NoMemory> {
        if let Some(first) = is_dropped.iter().position(|is_dropped| *is_dropped) {
            self.roots.forget_over(first);
        }
        let staying = self.program.drop_rows(0, is_dropped)?;
        let mut rows = Vec::with_capacity(self.alloc, staying.len())?;
        for row in staying.iter() {
            if let Some(named) = self.rows.get(*row) {
                rows.push(*named)?;
            }
        }
        self.rows = rows;
        Ok(staying)
    }

    // Counts whether the cuts of a question helped, at its end.
    pub(crate) fn settle_cuts(&mut self, tree: &Tree) {
        let mut open = None;
        std::mem::swap(&mut open, &mut self.service.open);
        let Some(rounds) = open else {
            return;
        };
        if self.is_gain(tree, &rounds) {
            self.service.helped = self.service.helped.saturating_add(1);
        } else if tree.visits > FEW_VISITS {
            self.service.failed = self.service.failed.saturating_add(1);
            self.service.vain = Some(rounds);
        }
    }

    // Takes back cuts that didn't help: the basis before them has none of them.
    pub(crate) fn take_back_cuts(&mut self) -> Result<(), NoMemory> {
        let mut vain = None;
        std::mem::swap(&mut vain, &mut self.service.vain);
        if let Some(rounds) = &mut vain {
            self.program.restore(&mut rounds.basis)?;
            self.drop_cuts_from(rounds.first)?;
        }
        Ok(())
    }
}

// Adds a row that cuts may be made of.
fn add_row(separation: &mut Separation, terms: &[Term], least: f64) -> Result<(), NoMemory> {
    separation.add_row(least)?;
    for term in terms {
        separation.add_term(term.column, term.coefficient)?;
    }
    Ok(())
}
