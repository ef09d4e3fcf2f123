// Proposals that are put in order (DECISIONS, arranging).

use alike::Orders;
use pb_lin::PbProblem;
use proof_rules::ProofState;
use scut_base::{Items, Lit, NoMemory};
use std::alloc::Global;

// Puts in order what is alike in proposals. It is looked for once, where a proposal is to be put in order.
#[derive(Drop)]
pub(crate) struct Arranger {
    // Nothing where it wasn't looked for yet.
    orders: Option<Orders>,
}

impl Arranger {
    // Nothing was looked for yet. Takes no memory.
    pub(crate) fn new() -> Arranger {
        Arranger { orders: None }
    }

    // A refused proposal's literals with whole parts exchanged, so that they keep the lines by which parts are in order; `None`
    // where they are in order already, or where no line is live above the problem's rows. Costs `Orders::of` the first time, and
    // `Orders::arranged`.
    pub(crate) fn arranged(
        &mut self,
        alloc: Global,
        state: &ProofState,
        problem: &PbProblem,
        lits: &[Lit],
    ) -> Result<Option<Items<Lit>>, NoMemory> {
        if !has_lines_above(problem, state) {
            return Ok(None);
        }
        let orders = match self.orders.take() {
            Some(orders) => orders,
            None => Orders::of(alloc, problem)?,
        };
        let arranged = orders.arranged(alloc, lits);
        self.orders = Some(orders);
        arranged
    }
}

// Whether a line is live above the problem's rows.
fn has_lines_above(problem: &PbProblem, state: &ProofState) -> bool {
    state
        .live()
        .next_above(problem.rows().len() as u64)
        .is_some()
}
