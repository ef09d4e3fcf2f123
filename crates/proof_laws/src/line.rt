// The lines of a proof.
use crate::{Goal, GoalProof};
use cutting_planes::PolToken;
use hint_rup::Hint;
use pb_lin::{Constraint, Witness};
use scut_base::{Duplicate, Items, Lit, NoMemory};
use std::alloc::Global;

/// One step of a proof. The constraints that it adds get the next free ids, and are live until they are
/// deleted. The rules are those of VeriPB (Gocht and Nordström 2021; Bogaerts, Gocht, McCreesh and
/// Nordström 2023), over the Pareto order of several objectives (Jabs, Berg, Bogaerts and Järvisalo 2025).
#[derive(Debug, Drop)]
pub enum Line {
    /// Adds the constraint that cutting planes make of these tokens.
    Pol {
        tokens: Items<PolToken>,
    },
    /// Adds a constraint whose negation propagates to a conflict along the hints.
    Rup {
        goal: Constraint,
        hints: Items<Hint>,
    },
    /// The same for a clause that a search has learned, which is counted.
    Learn {
        goal: Constraint,
        hints: Items<Hint>,
    },
    /// Defines the next variable as the truth of a constraint.
    Def {
        var: u64,
        sum: Constraint,
    },
    /// Adds a constraint: what breaks it still satisfies all lines after the substitution, at no higher
    /// costs.
    Red {
        goal: Constraint,
        witness: Witness,
        proofs: Items<(Goal, GoalProof)>,
    },
    /// Adds a constraint: what breaks it is a model of the problem after the substitution, at no higher
    /// costs and a smaller sum of costs.
    Dom {
        goal: Constraint,
        witness: Witness,
        proofs: Items<(Goal, GoalProof)>,
    },
    /// Logs a model of the problem, and adds the clause of the cut: wherever all its literals are false,
    /// the row named for each objective keeps that objective at the model's costs or above.
    Sol {
        model: Items<Lit>,
        cut: Items<Lit>,
        rows: Items<u64>,
    },
    /// Deletes lines.
    Del {
        ids: Items<u64>,
    },
    /// Deletes learned lines, in a reduction of the search.
    Reduce {
        ids: Items<u64>,
    },
    /// Ends the proof: the line of this id is a contradiction.
    End {
        id: u64,
    },
}

impl Duplicate for Line {
    fn copy(&self, alloc: Global) -> Result<Line, NoMemory> {
        match self {
            Line::Pol { tokens } => Ok(Line::Pol {
                tokens: tokens.copy(alloc)?,
            }),
            Line::Rup { goal, hints } => Ok(Line::Rup {
                goal: goal.copy(alloc)?,
                hints: hints.copy(alloc)?,
            }),
            Line::Learn { goal, hints } => Ok(Line::Learn {
                goal: goal.copy(alloc)?,
                hints: hints.copy(alloc)?,
            }),
            Line::Def { var, sum } => Ok(Line::Def {
                var: *var,
                sum: sum.copy(alloc)?,
            }),
            Line::Red {
                goal,
                witness,
                proofs,
            } => Ok(Line::Red {
                goal: goal.copy(alloc)?,
                witness: witness.copy(alloc)?,
                proofs: proofs.copy(alloc)?,
            }),
            Line::Dom {
                goal,
                witness,
                proofs,
            } => Ok(Line::Dom {
                goal: goal.copy(alloc)?,
                witness: witness.copy(alloc)?,
                proofs: proofs.copy(alloc)?,
            }),
            Line::Sol { model, cut, rows } => Ok(Line::Sol {
                model: model.copy(alloc)?,
                cut: cut.copy(alloc)?,
                rows: rows.copy(alloc)?,
            }),
            Line::Del { ids } => Ok(Line::Del {
                ids: ids.copy(alloc)?,
            }),
            Line::Reduce { ids } => Ok(Line::Reduce {
                ids: ids.copy(alloc)?,
            }),
            Line::End { id } => Ok(Line::End { id: *id }),
        }
    }
}
