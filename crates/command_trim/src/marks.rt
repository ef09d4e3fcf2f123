// Marks of the ids that needed lines name.
ghost use Rattle.std.specs.Prelude.{◌≡◌, ◌<◌, ◌-◌, ◌+◌, IfOk, fold, length, replicate, slice_index_or, false};
ghost use Rattle.command_trim.specs.Marks.{marked};

use scut_base::{Items, NoMemory};
use std::alloc::Global;

// No marks, of so many ids behind those of the rows.
pub(crate) fn no_marks(alloc: Global, count: u64) -> Result<Items<bool>, NoMemory>
    ensures { IfOk result (λ marks. marks ≡ replicate count false) }
{
    let marks = vec![in alloc; false; count as usize]?;
    Ok(Items::from_vec(marks))
}

// Marks ids; those of rows, and those that no line makes, have no mark.
pub(crate) fn mark_all(marks: &mut Items<bool>, rows: u64, ids: &[u64])
    ensures { marks.new ≡ fold (marked rows) marks.old ids.now }
{
    for id in ids {
        mark(marks, rows, *id);
    }
}

fn mark(marks: &mut Items<bool>, rows: u64, id: u64)
    ensures { marks.new ≡ marked rows marks.old id }
{
    if rows < id && id - rows - 1 < marks.len() as u64 {
        marks.set((id - rows - 1) as usize, true);
    }
}
