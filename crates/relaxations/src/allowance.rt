// How much work relaxations may do, in numbers touched (DECISIONS, purse).
use crate::limits::{
    FIRST_WORK, FIRST_WORK_OF_CLAUSES, MOST_WORK, PART_WITHOUT_OBJECTIVES, PASSES_A_ROW,
    ROOTS_IN_PURSE, WORK_OF_A_LINE,
};
use branch_and_bound::wants_more_than_one;
use pb_lin::{CostRow, PbProblem};

// What all questions may take together before the first clause is learned.
pub(crate) fn first_allowance(problem: &PbProblem) -> u64 {
    let rows = rows_that_count(problem);
    let size = rows.saturating_add(problem.vars());
    let passes = rows.saturating_mul(rows.saturating_add(PASSES_A_ROW));
    let work_of_passes = passes.saturating_mul(size);
    let mut lines = 0u64;
    for row in problem.costs() {
        lines = lines.saturating_add(lines_of_totalizer(row));
    }
    let work = first_work(rows)
        .saturating_add(work_of_passes)
        .saturating_add(lines.saturating_mul(WORK_OF_A_LINE))
        .min(MOST_WORK);
    if problem.costs().is_empty() {
        return work / PART_WITHOUT_OBJECTIVES;
    }
    work
}

// What they may take where so many rows count, whatever else there is.
fn first_work(rows: u64) -> u64 {
    if rows == 0 {
        FIRST_WORK_OF_CLAUSES
    } else {
        FIRST_WORK
    }
}

// Rows of which one true literal isn't enough: search by clauses takes long over these.
fn rows_that_count(problem: &PbProblem) -> u64 {
    let mut count = 0u64;
    for row in problem.rows() {
        if !row.is_clause() && wants_more_than_one(row) {
            count = count.saturating_add(1);
        }
    }
    count
}

// What may be lost on questions that stay open.
pub(crate) fn first_purse(problem: &PbProblem) -> u64 {
    first_allowance(problem).min(FIRST_WORK)
}

// What may be lost on them where the root's program took so much work: enough for trees of programs as large, by the share of rows that
// count.
pub(crate) fn purse_by_root(problem: &PbProblem, purse: u64, root: u64, most: u64) -> u64 {
    let rows = problem.rows().len() as u64;
    let roots = root.saturating_mul(ROOTS_IN_PURSE);
    let counting = roots.saturating_mul(rows_that_count(problem));
    purse.max(counting.checked_div(rows).unwrap_or(0)).min(most)
}

// The pairs of outputs of two children, node by node, as if all weights were alike.
fn lines_of_totalizer(row: &CostRow) -> u64 {
    let count = row.terms().len() as u64;
    if count == 0 {
        return 0;
    }
    let share = (total_of(row) / count).saturating_add(1);
    let mut lines = 0u64;
    for level in 0..32u32 {
        let width = 1u64 << level;
        if width >= count {
            break;
        }
        let outputs = width.saturating_mul(share).min(1u64 << width.min(32));
        let nodes = (count / width / 2).saturating_add(1);
        lines = lines.saturating_add(outputs.saturating_mul(outputs).saturating_mul(nodes));
    }
    lines
}

// The sum of the weights, or 2^64 - 1.
fn total_of(row: &CostRow) -> u64 {
    let mut total = 0u64;
    for term in row.terms() {
        total = total.saturating_add(term.1);
    }
    total
}
