// Taking assignments back.

use crate::engine::Engine;
use scut_base::NoMemory;

impl Engine {
    // Takes back what was assigned after a level.
    pub(crate) fn backtrack(&mut self, level: u32) -> Result<(), NoMemory> {
        if self.trail.level() <= level {
            return Ok(());
        }
        let start = self.trail.start_of(level.wrapping_add(1));
        for place in (start..self.trail.len()).rev() {
            let Some(lit) = self.trail.pop() else {
                break;
            };
            self.phases.save(lit);
            if place < self.trail.asked_rows {
                self.rows.count_up(lit.not());
            }
            self.heap.put(lit.var())?;
            self.queue.note_open(lit.var());
        }
        self.trail.close_levels(level);
        Ok(())
    }
}
