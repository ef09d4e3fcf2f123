// What a question wants least.
use crate::limits::STEP_WITHOUT_COSTS;
use crate::relaxation::Objective;
use linear_program::Range;
use scut_base::NoMemory;
use std::alloc::Global;

/// What a question wants least, among all models within its limits.
#[derive(Clone, Copy, Debug, PartialEq, Eq)]
pub enum Target {
    /// The sum of all costs, each by the width of its range.
    Sum,
    /// The cost of this objective, counted from 0; the sum of the others decides between equal ones.
    Objective(usize),
}

// A target as a search takes it.
#[derive(Debug, Drop)]
pub(crate) struct Aim {
    // The cost of each column, and its part that models are compared by.
    pub(crate) costs: Vec<f64>,
    pub(crate) main: Vec<f64>,
    // The weight of each objective in the costs.
    pub(crate) weights: Vec<f64>,
    // A node has no better model than one of this value where its bound is above the value less this.
    pub(crate) step: f64,
    // Whether the search goes on until the best is known to be that.
    pub(crate) is_proof_wanted: bool,
}

impl Aim {
    // None yet: no column costs anything.
    pub(crate) fn new(alloc: Global) -> Aim {
        Aim {
            costs: Vec::new(alloc),
            main: Vec::new(alloc),
            weights: Vec::new(alloc),
            step: 0.0,
            is_proof_wanted: false,
        }
    }

    // The aim of a target over so many columns.
    pub(crate) fn of(
        alloc: Global,
        target: Target,
        columns: usize,
        objectives: &[Objective],
    ) -> Result<Aim, NoMemory> {
        match target {
            Target::Objective(at) if at < objectives.len() => {
                least_of_one(alloc, at, columns, objectives)
            }
            _ => least_sum(alloc, columns, objectives),
        }
    }
}

// The least sum of all objectives.
fn least_sum(alloc: Global, columns: usize, objectives: &[Objective]) -> Result<Aim, NoMemory> {
    let mut weights = Vec::new(alloc);
    let mut step = STEP_WITHOUT_COSTS;
    for (place, objective) in objectives.iter().enumerate() {
        let weight = 1000.0 / (1.0 + width_of(&objective.range));
        weights.push(weight)?;
        let least = 0.99 * weight * objective.divisor;
        step = if place == 0 { least } else { step.min(least) };
    }
    let costs = costs_by(alloc, columns, objectives, weights.as_slice())?;
    let main = costs_by(alloc, columns, objectives, weights.as_slice())?;
    Ok(Aim {
        costs,
        main,
        weights,
        step,
        is_proof_wanted: false,
    })
}

// The least cost of the objective at this place, in its divisor; the others come to at most a quarter of that.
fn least_of_one(
    alloc: Global,
    at: usize,
    columns: usize,
    objectives: &[Objective],
) -> Result<Aim, NoMemory> {
    let share = 0.25 / (1.0 + widths_without(at, objectives));
    let mut weights = Vec::new(alloc);
    let mut alone = Vec::new(alloc);
    let mut most = 0.0;
    for (place, objective) in objectives.iter().enumerate() {
        let is_target = place == at;
        let unit = 1.0 / objective.divisor;
        weights.push(if is_target { unit } else { share })?;
        alone.push(if is_target { unit } else { 0.0 })?;
        if !is_target {
            most += share * objective.range.upper;
        }
    }
    Ok(Aim {
        costs: costs_by(alloc, columns, objectives, weights.as_slice())?,
        main: costs_by(alloc, columns, objectives, alone.as_slice())?,
        weights,
        step: 0.999 - most,
        is_proof_wanted: true,
    })
}

// The widths of all ranges but one.
fn widths_without(at: usize, objectives: &[Objective]) -> f64 {
    let mut sum = 0.0;
    for (place, objective) in objectives.iter().enumerate() {
        if place != at {
            sum += width_of(&objective.range);
        }
    }
    sum
}

fn width_of(range: &Range) -> f64 {
    range.upper - range.lower
}

// The cost of each column where objectives have these weights.
fn costs_by(
    alloc: Global,
    columns: usize,
    objectives: &[Objective],
    weights: &[f64],
) -> Result<Vec<f64>, NoMemory> {
    let mut costs = vec![in alloc; 0.0; columns]?;
    for (objective, weight) in objectives.iter().zip(weights) {
        for term in objective.terms.iter() {
            if let Some(place) = costs.get_mut(term.column) {
                *place += *weight * term.coefficient;
            }
        }
    }
    Ok(costs)
}
