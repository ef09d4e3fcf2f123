// Boxes of vectors.
ghost use Rattle.std.specs.Prelude.{◌≡◌, ◌<◌, ◌∷◌, [], ◌^◌, ◌-◌, length, replicate, pos, IfOk, OnOk, OnErr};
ghost use Rattle.std.specs.List.{remove};
ghost use Rattle.relaxations.specs.Boxes.{Excludes};

use crate::box_parts::{add_box, add_parts, is_below};
use front_set::CostVec;
use scut_base::{Duplicate, Items, NoMemory};
use std::alloc::Global;
use std::marker::Model;

// Boxes of cost vectors: within each are the vectors whose numbers are at most its limits. These are the
// "local upper bounds" of Klamroth, Lacour and Vanderpooten (2015).
#[derive(Debug, Drop)]
pub(crate) struct OpenBoxes {
    alloc: Global,
    boxes: Vec<CostVec>,
}

impl Model for OpenBoxes {
    ghost use Rattle.std.specs.Prelude.{List, ℤ};

    ghost Value = { List (List ℤ) };

    ghost view = { λ b. b.boxes.items };
}

impl OpenBoxes {
    // One box, which has all vectors of so many numbers.
    pub(crate) fn new(alloc: Global, objectives: usize) -> Result<OpenBoxes, NoMemory>
        ensures { IfOk result (λ b. b ≡ replicate objectives (pos (2 ^ 63 - 1)) ∷ []) }
    {
        let limits = vec![in alloc; i64::MAX; objectives]?;
        let mut boxes = Vec::new(alloc);
        boxes.push(CostVec::from_items(Items::from_vec(limits)))?;
        Ok(OpenBoxes { alloc, boxes })
    }

    // The limits of the boxes. No box that is within another is kept, though no clause says so.
    pub(crate) fn limits(&self) -> &[CostVec]
        ensures { result.now ≡ self.now }
    {
        self.boxes.as_slice()
    }

    // Takes the box at this place away, counted from 0.
    pub(crate) fn close(&mut self, at: usize)
        requires { at < length self.old }
        ensures { self.new ≡ remove self.old at }
    {
        let _closed = self.boxes.remove(at);
    }

    // Takes the vectors away that this one is below: each box that has it falls into one for each objective,
    // where that is less than here. After want of memory nothing has changed. Costs a look at each pair of boxes.
    pub(crate) fn exclude(&mut self, costs: &CostVec) -> Result<(), NoMemory>
        ensures excluded { OnOk result (Excludes self.old self.new costs.now) }
        ensures err { OnErr result (self.new ≡ self.old) }
    {
        let mut remaining = Vec::new(self.alloc);
        for limits in self.boxes.iter() {
            if is_below(costs, limits) {
                add_parts(self.alloc, &mut remaining, limits, costs)?;
            } else {
                add_box(&mut remaining, limits.copy(self.alloc)?)?;
            }
        }
        self.boxes = remaining;
        Ok(())
    }
}
