// The least sum of costs.
ghost use Rattle.std.specs.Prelude.{◌≡◌, IfOk, IfSome, length};
ghost use Rattle.linear_program.specs.Shape.{IsShapedFor, IsSolvedWithin};

use crate::LinearProgram;
use crate::limits::STOP_EVERY;
use crate::pivoting::Agreement;
use crate::pricing::{Leaving, Part};
use crate::simplex::Simplex;
use scut_base::NoMemory;

/// What was found, as far as floats tell.
#[derive(Debug, Drop)]
pub enum Answer {
    /// No values are within all ranges: rows by these multipliers, of which one below 0 is of a row's upper
    /// end, add up to a row that no values of the columns meet.
    Infeasible { multipliers: Vec<f64> },
    /// These values of the columns are within all ranges, and none make the sum less.
    Optimal { values: Vec<f64> },
    /// The sum exceeds what was given; `duals` says why.
    Above,
    /// The pivots ran out, roundings were too many, a column has no value at all, or an end of a range isn't finite.
    Unknown,
}

/// What was found, and in how many pivots.
#[derive(Debug, Drop)]
pub struct Solved {
    pub pivots: u64,
    pub answer: Answer,
}

// What a step came to.
#[derive(Clone, Copy, Debug)]
pub(crate) enum Step {
    Pivoted,
    Optimal,
    // The variable that leaves has this sign, and its row is one that no values meet.
    Infeasible(f64),
    Stuck,
}

impl LinearProgram {
    /// Values of the columns that are within all ranges and make the sum of costs least: the dual simplex method
    /// (Lemke 1954) with bound flipping, by dual steepest edge, from the basis that the last call left, in at
    /// most so many pivots. `Above` as soon as the sum is known to exceed `stop`, which is asked now and then.
    /// `Unknown` where the pivots ran out. After `NoMemory` it may be asked again.
    pub fn solve(&mut self, stop: f64, budget: u64) -> Result<Solved, NoMemory>
        ensures solved { IfOk result (IsSolvedWithin self.old budget) }
        ensures same { self.new ≡ self.old }
    {
        if let Some(answer) = self.unusable()? {
            return Ok(Solved { pivots: 0, answer });
        }
        self.simplex.begin()?;
        for pivots in 0..budget {
            if let Some(answer) = self.step()? {
                return Ok(Solved { pivots, answer });
            }
            if pivots % STOP_EVERY == STOP_EVERY - 1 && self.is_above(stop) {
                return Ok(Solved {
                    pivots: pivots + 1,
                    answer: Answer::Above,
                });
            }
        }
        Ok(Solved {
            pivots: budget,
            answer: Answer::Unknown,
        })
    }

    // Whether the sum is known to exceed this.
    fn is_above(&self, stop: f64) -> bool {
        stop < f64::INFINITY && self.simplex.sum() > stop
    }

    // The answer where a range has no point, or an end that isn't finite.
    fn unusable(&self) -> Result<Option<Answer>, NoMemory>
        ensures { IfOk result (λ answer. IfSome answer (IsShapedFor self.now)) }
    {
        let Some(variable) = self.simplex.unusable() else {
            return Ok(None);
        };
        if variable < self.columns {
            return Ok(Some(Answer::Unknown));
        }
        let mut multipliers = vec![in self.alloc; 0.0; self.rows]?;
        let row = variable - self.columns;
        if self.simplex.put_crossed(multipliers.as_mut_slice(), row) {
            Ok(Some(Answer::Infeasible { multipliers }))
        } else {
            Ok(Some(Answer::Unknown))
        }
    }

    // One pivot, or the answer.
    fn step(&mut self) -> Result<Option<Answer>, NoMemory>
        ensures shaped { IfOk result (λ answer. IfSome answer (IsShapedFor self.old)) }
        ensures same { self.new ≡ self.old }
    {
        match self.simplex.step()? {
            Step::Pivoted => Ok(None),
            Step::Stuck => Ok(Some(Answer::Unknown)),
            Step::Optimal => {
                let values = self.values()?;
                Ok(Some(Answer::Optimal { values }))
            }
            Step::Infeasible(sign) => {
                let multipliers = self.multipliers(sign)?;
                Ok(Some(Answer::Infeasible { multipliers }))
            }
        }
    }

    // The values of the columns.
    fn values(&self) -> Result<Vec<f64>, NoMemory>
        ensures { IfOk result (λ xs. length xs.items ≡ self.now.columns) }
    {
        let mut values = vec![in self.alloc; 0.0; self.columns]?;
        self.simplex.put_values(values.as_mut_slice());
        Ok(values)
    }

    // The multipliers of rows by which the variable that leaves can't be within its range.
    fn multipliers(&self, sign: f64) -> Result<Vec<f64>, NoMemory>
        ensures { IfOk result (λ ys. length ys.items ≡ self.now.rows) }
    {
        let mut multipliers = vec![in self.alloc; 0.0; self.rows]?;
        self.simplex
            .put_multipliers(multipliers.as_mut_slice(), sign);
        Ok(multipliers)
    }
}

impl Simplex {
    // The factors, reduced costs and values of the basis, as ranges and costs are now.
    fn begin(&mut self) -> Result<(), NoMemory> {
        if self.is_stale {
            return self.rebuild();
        }
        if self.are_costs_new {
            self.reduce()?;
        }
        self.settle();
        self.evaluate()
    }

    fn step(&mut self) -> Result<Step, NoMemory> {
        if self.factors.is_long() {
            self.rebuild()?;
        }
        let Some(leaving) = self.leaving() else {
            return Ok(Step::Optimal);
        };
        self.take_inverse_row(leaving.place)?;
        self.take_pivot_row(Part::OutsideOfTheBasis)?;
        match self.entering(&leaving)? {
            Some(entering) => self.try_pivot(&leaving, entering),
            None => self.try_to_refute(leaving.sign()),
        }
    }

    // The row of the pivot refutes all values, if it does so as a sum of rows as given.
    fn try_to_refute(&mut self, sign: f64) -> Result<Step, NoMemory> {
        self.take_pivot_row(Part::Whole)?;
        if self.is_refuted(sign) {
            Ok(Step::Infeasible(sign))
        } else {
            self.retry()
        }
    }

    // A pivot, if its row and its column agree.
    fn try_pivot(&mut self, leaving: &Leaving, entering: usize) -> Result<Step, NoMemory> {
        self.take_pivot_column(entering)?;
        match self.agreement(leaving.place, entering) {
            Agreement::Good => {
                self.pivot(leaving, entering)?;
                Ok(Step::Pivoted)
            }
            _ => self.retry(),
        }
    }

    // Builds the factors anew, if that may mend what went wrong.
    fn retry(&mut self) -> Result<Step, NoMemory> {
        if !self.factors.has_changed() {
            return Ok(Step::Stuck);
        }
        self.rebuild()?;
        Ok(Step::Pivoted)
    }
}
