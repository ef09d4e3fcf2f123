// A set of pairs as a list shows it.
ghost use Rattle.std.specs.Prelude.{◌≡◌, map, IfOk};
ghost use Rattle.std.specs.List.Sorted.{IsPermutation};
ghost use Rattle.front_set.specs.declared.entry.Entry.{Entry};
ghost use Rattle.front_set.specs.Vector.{AreRising};
ghost use Rattle.front_set.specs.Front.{vectors_of};
ghost use Rattle.instance.specs.ParetoFront.{listed_entry, AreProblemVectors};

use crate::Instance;
use front_set::{Entry, FrontSet, sort_entries};
use scut_base::{Duplicate, NoMemory};
use std::alloc::Global;

/// For each pair of the set its assignment and its vector as the instance shows it, in rising order
/// of these vectors. Costs a sort of the pairs.
pub fn listed(alloc: Global, inst: &Instance, front: &FrontSet) -> Result<Vec<Entry>, NoMemory>
    requires { AreProblemVectors inst.now front.now }
    ensures same { IfOk result (λ v. IsPermutation (map
        (listed_entry inst.now) front.now) v.items) }
    ensures rising { IfOk result (λ v. AreRising (vectors_of v.items)) }
{
    sort_entries(listed_entries(alloc, inst, front.entries())?)
}

// The same in the order of the set.
fn listed_entries(alloc: Global, inst: &Instance, entries: &[Entry]) -> Result<Vec<Entry>, NoMemory>
    requires { AreProblemVectors inst.now entries.now }
    ensures { IfOk result (λ v. v.items ≡ map (listed_entry inst.now) entries.now) }
{
    let mut all = Vec::with_capacity(alloc, entries.len())?;
    for entry in entries {
        all.push(Entry {
            costs: inst.problem_vector(alloc, &entry.costs)?,
            model: entry.model.copy(alloc)?,
        })?;
    }
    Ok(all)
}
