// Entries in the order of their vectors.
ghost use Rattle.std.specs.Prelude.{IfOk};
ghost use Rattle.std.specs.List.Sorted.{IsPermutation};
ghost use Rattle.front_set.specs.Vector.{AreRising};
ghost use Rattle.front_set.specs.Front.{AreDistinct, vectors_of};

use crate::Entry;
use scut_base::NoMemory;

/// The entries in rising lexicographic order of their vectors, no two of which are the same.
pub fn sort_entries(mut entries: Vec<Entry>) -> Result<Vec<Entry>, NoMemory>
    requires { AreDistinct entries.items }
    ensures same { IfOk result (λ v. IsPermutation entries.items v.items) }
    ensures rising { IfOk result (λ v. AreRising (vectors_of v.items)) }
{
    entries.sort_by(|a, b| a.costs.cmp(&b.costs))?;
    Ok(entries)
}
