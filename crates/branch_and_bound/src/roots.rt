// The bases from which trees begin: where a target changes, the last basis is far from what is sought now.
use crate::target::Target;
use linear_program::{Basis, LinearProgram};
use scut_base::NoMemory;
use std::alloc::Global;

// The basis of a root of this target, over the rows below this one.
#[derive(Debug, Drop)]
struct Root {
    target: Target,
    rows: usize,
    basis: Basis,
}

// The basis of the first root of each target, and that of the rows' own activities.
#[derive(Debug, Drop)]
pub(crate) struct Roots {
    present: Option<Target>,
    kept: Vec<Root>,
    activities: Basis,
}

impl Roots {
    // None yet, of a program that has no rows yet.
    pub(crate) fn new(alloc: Global, program: &LinearProgram) -> Result<Roots, NoMemory> {
        Ok(Roots {
            present: None,
            kept: Vec::new(alloc),
            activities: program.basis()?,
        })
    }

    // Puts the program to the basis of the target's first root, or to that of the rows' own activities; it stays as it is where
    // the target does.
    pub(crate) fn go_to(
        &mut self,
        target: Target,
        program: &mut LinearProgram,
    ) -> Result<(), NoMemory> {
        if self.present == Some(target) {
            return Ok(());
        }
        self.present = Some(target);
        for root in self.kept.iter_mut() {
            if root.target == target {
                return program.restore(&mut root.basis);
            }
        }
        program.restore(&mut self.activities)
    }

    // Keeps the basis of a root of the present target, if it is its first.
    pub(crate) fn keep(&mut self, program: &LinearProgram) -> Result<(), NoMemory> {
        let Some(target) = self.present else {
            return Ok(());
        };
        if self.kept.iter().any(|root| root.target == target) {
            return Ok(());
        }
        let root = Root {
            target,
            rows: program.rows(),
            basis: program.basis()?,
        };
        self.kept.push(root)?;
        Ok(())
    }

    // Forgets the bases over this row, since it is dropped.
    pub(crate) fn forget_over(&mut self, row: usize) {
        self.kept.retain(|root| root.rows <= row);
    }
}
