// Searches over the linear relaxation of a problem.
use crate::exploring::Found;
use crate::live_lines::LiveLines;
use crate::nodes::Node;
use crate::question::Question;
use crate::relaxation::Relaxation;
use crate::target::Target;
use crate::tree::Tree;
use crate::tree_lines::{TreeLine, lines_of_tree};
use pb_lin::PbProblem;
use scut_base::NoMemory;
use std::alloc::Global;

/// The linear relaxation of a problem, with the tree of the last question.
#[derive(Debug, Drop)]
pub struct BranchAndBound {
    alloc: Global,
    relaxation: Relaxation,
    tree: Tree,
}

impl BranchAndBound {
    /// The relaxation of a problem. Takes some 40 bytes for each number of the rows; one that is too large keeps nothing.
    pub fn new(alloc: Global, problem: &PbProblem) -> Result<BranchAndBound, NoMemory> {
        Ok(BranchAndBound {
            alloc,
            relaxation: Relaxation::new(alloc, problem)?,
            tree: Tree::new(alloc)?,
        })
    }

    /// Whether all rows had room: else no question should be asked.
    pub fn is_whole(&self) -> bool {
        self.relaxation.is_whole
    }

    /// Takes up the live lines above the problem's rows that speak of its variables alone, with small coefficients, as rows.
    /// Costs a look at each line that came since.
    pub fn take_up(&mut self, live: &LiveLines<'_>) -> Result<(), NoMemory> {
        self.relaxation.take_up(live)
    }

    /// Forgets all lines above the problem's rows, and passes by those below this id from now on: `take_up_held` takes them up.
    pub fn leave_out(&mut self, problem: &PbProblem, end: u64) -> Result<(), NoMemory> {
        self.tree = Tree::new(self.alloc)?;
        self.relaxation.begin_again(problem, end)
    }

    /// Takes up the lines that it left alone, as `take_up` does.
    pub fn take_up_held(&mut self, live: &LiveLines<'_>) -> Result<(), NoMemory> {
        self.relaxation.take_up_held(live)
    }

    /// The work that was done so far, in numbers touched.
    pub fn work(&self) -> u64 {
        self.relaxation.work()
    }

    /// The least work that a question is worth.
    pub fn least_stake(&self) -> u64 {
        self.relaxation.least_stake()
    }

    /// Solves the relaxation for the least sum, and answers what that took, in numbers touched.
    pub fn root_work(&mut self) -> Result<u64, NoMemory> {
        if self.relaxation.is_whole {
            self.relaxation.solve_root()?;
        }
        Ok(self.relaxation.root_work)
    }

    /// Searches for the best values by the target, within the limits, where the assumptions are true, until this much work was
    /// done in all. Without a target in the tree of the last question: that serves where nothing is allowed now that wasn't then,
    /// as where a limit is less.
    pub fn explore(
        &mut self,
        live: &LiveLines<'_>,
        question: &Question<'_>,
        target: Option<Target>,
        most: u64,
    ) -> Result<Found, NoMemory> {
        let tree = &mut self.tree;
        match target {
            Some(target) => {
                self.relaxation.aim_at(target)?;
                self.relaxation.explore_anew(live, question, tree, most)
            }
            None => self.relaxation.explore_further(live, question, tree, most),
        }
    }

    /// Whether a walk has met the model that was found last: of trees that says nothing.
    pub fn is_met(&self) -> bool {
        self.tree.is_met
    }

    /// The lines that the last of these nodes stands on, and last its own; the first gets this id. What cuts among them are named
    /// by from now on, `forget_from` takes back.
    pub fn lines_of(&mut self, nodes: &[Node], first: u64) -> Result<Vec<TreeLine>, NoMemory> {
        lines_of_tree(self.alloc, nodes, &mut self.relaxation.cuts, first)
    }

    /// Forgets the lines of cuts from this id on, which weren't added after all.
    pub fn forget_from(&mut self, end: u64) {
        self.relaxation.cuts.forget_from(end);
    }
}
