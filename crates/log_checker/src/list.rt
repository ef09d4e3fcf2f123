// The list: models with their costs, rising and incomparable.
ghost use Rattle.std.specs.Prelude.{◌≡◌, ◌↔◌, ℕ, ◌∷◌, [], ◌++◌, ◌≤◌, length, true, false, All, IsTrue, OnOk, IfOk, None, Some, Err, Ok};
ghost use Rattle.front_text.specs.Spelling.{Spells, HasCosts};
ghost use Rattle.instance.specs.Shape.{InstanceValue};
ghost use Rattle.instance.specs.ParetoFront.{AreProblemVectors, IsProblemVector};
ghost use Rattle.front_set.specs.declared.entry.Entry.{Entry};
ghost use Rattle.front_set.specs.Vector.{AreRising};
ghost use Rattle.front_set.specs.Front.{vectors_of};
ghost use Rattle.log_checker.specs.declared.fault.ListWhy.{ListWhy};
ghost use Rattle.log_checker.specs.Accepted.{IsRightList, IsRightModel, problem_vectors};
ghost use Rattle.log_checker.specs.ListFaults.{ComesAfter, HasComparable, IsEntryFault, IsListFault};
ghost use Rattle.log_checker.specs.ListJudging.{IsApartFrom, IsFirstWrong, compared_from};

use crate::dominance::any_comparable;
use crate::{CheckFault, ListWhy};
use front_set::{CostVec, Entry};
use front_text::{FrontList, ListFault, read_list};
use instance::{Instance, Objective};
use scut_base::{Items, NoMemory};
use std::alloc::Global;

/// Reads the list of a complete front, and checks each entry against the instance and the entries
/// before. A refusal names the first entry that is wrong.
///
/// Costs the text and, for each entry, one pass over the instance. With one objective or two an entry
/// is compared with the entry before alone; with more with each entry before.
pub fn check_list(alloc: Global, inst: &Instance, bytes: &[u8]) -> Result<FrontList, CheckFault>
    ensures spelled { IfOk result (λ list. Spells bytes.now true list.entries) }
    ensures right { IfOk result (λ list. IsRightList inst.now list.entries) }
    ensures complete { IfOk result (λ list. list.complete ≡ true) }
    ensures vectors { IfOk result (λ list. AreProblemVectors inst.now list.entries) }
    ensures refused { (k : ℕ) (why : ListWhy) → result ≡ Err (CheckFault.ListRefused k why)
        → IsListFault inst.now bytes.now k why }
    ensures no_line { (k : ℕ) (why : _) → result ≡ Err (CheckFault.Refused k why) → ⊥ }
{
    let list = complete_list(alloc, bytes)?;
    check_entries(alloc, inst, list.entries.as_slice())?;
    Ok(list)
}

/// The entries' vectors as the problem has them.
pub fn problem_vectors(
    alloc: Global,
    inst: &Instance,
    entries: &[Entry],
) -> Result<Items<CostVec>, NoMemory>
    requires { AreProblemVectors inst.now entries.now }
    ensures { IfOk result (λ vectors. vectors ≡ problem_vectors inst.now entries.now) }
{
    let mut all = Vec::with_capacity(alloc, entries.len())?;
    for entry in entries {
        all.push(inst.problem_vector(alloc, &entry.costs)?)?;
    }
    Ok(Items::from_vec(all))
}

// The list that the text spells, if it claims to be complete.
fn complete_list(alloc: Global, bytes: &[u8]) -> Result<FrontList, CheckFault>
    ensures spelled { IfOk result (λ list. Spells bytes.now true list.entries) }
    ensures complete { IfOk result (λ list. list.complete ≡ true) }
    ensures refused { (k : ℕ) (why : ListWhy) → result ≡ Err (CheckFault.ListRefused k why)
        → (i : InstanceValue) → IsListFault i bytes.now k why }
    ensures no_line { (k : ℕ) (why : _) → result ≡ Err (CheckFault.Refused k why) → ⊥ }
{
    match read_list(alloc, bytes) {
        Ok(list) => {
            if list.complete {
                Ok(list)
            } else {
                Err(refusal(0, ListWhy::NotComplete))
            }
        }
        Err(ListFault::Syntax { entry }) => Err(refusal(entry, ListWhy::Syntax)),
        Err(ListFault::NoMemory) => Err(CheckFault::NoMemory),
    }
}

fn refusal(entry: u64, why: ListWhy) -> CheckFault
    ensures { result ≡ CheckFault.ListRefused entry why }
{
    CheckFault::ListRefused { entry, why }
}

// Judges the entries in order.
fn check_entries(alloc: Global, inst: &Instance, entries: &[Entry]) -> Result<(), CheckFault>
    ensures right { OnOk result (IsRightList inst.now entries.now) }
    ensures vectors { OnOk result (AreProblemVectors inst.now entries.now) }
    ensures refused { (k : ℕ) (why : ListWhy) → result ≡ Err (CheckFault.ListRefused k why)
        → IsFirstWrong inst.now entries.now k why }
    ensures no_line { (k : ℕ) (why : _) → result ≡ Err (CheckFault.Refused k why) → ⊥ }
{
    for (at, entry) in entries.iter().enumerate() {
        if let Some(why) = entry_fault(alloc, inst, &entries[..at], entry)? {
            return Err(refusal(at as u64 + 1, why));
        }
    }
    Ok(())
}

// What is wrong with an entry after right ones.
fn entry_fault(
    alloc: Global,
    inst: &Instance,
    before: &[Entry],
    entry: &Entry,
) -> Result<Option<ListWhy>, NoMemory>
    requires { IsRightList inst.now before.now }
    ensures right { result ≡ Ok None → IsRightList inst.now (before.now ++ entry.now ∷ []) }
    ensures vector { result ≡ Ok None → IsProblemVector inst.now entry.now.costs }
    ensures wrong { (why : ListWhy) → result ≡ Ok (Some why)
        → IsEntryFault inst.now before.now entry.now why }
{
    if let Some(why) = model_fault(alloc, inst, entry)? {
        return Ok(Some(why));
    }
    Ok(place_fault(inst, before, entry))
}

// What is wrong with an entry wherever it stands.
fn model_fault(alloc: Global, inst: &Instance, entry: &Entry) -> Result<Option<ListWhy>, NoMemory>
    ensures right { result ≡ Ok None → IsRightModel inst.now entry.now }
    ensures vector { result ≡ Ok None → IsProblemVector inst.now entry.now.costs }
    ensures wrong { (why : ListWhy) → result ≡ Ok (Some why)
        → (before : _) → IsEntryFault inst.now before entry.now why }
{
    if entry.model.len() != inst.vars() || !inst.is_model(&entry.model) {
        return Ok(Some(ListWhy::NotModel));
    }
    let costs = inst.costs(alloc, &entry.model)?;
    if !are_same(&costs, &entry.costs) {
        return Ok(Some(ListWhy::Costs));
    }
    Ok(None)
}

fn are_same(one: &CostVec, other: &CostVec) -> bool
    ensures { IsTrue result ↔ (one.now ≡ other.now) }
{
    one.as_slice() == other.as_slice()
}

// What is wrong with the place of an entry, which is right itself.
fn place_fault(inst: &Instance, before: &[Entry], entry: &Entry) -> Option<ListWhy>
    requires before { IsRightList inst.now before.now }
    requires entry { IsRightModel inst.now entry.now }
    ensures right { result ≡ None → IsRightList inst.now (before.now ++ entry.now ∷ []) }
    ensures wrong { (why : ListWhy) → result ≡ Some why
        → IsEntryFault inst.now before.now entry.now why }
{
    if !comes_after(before, entry) {
        return Some(ListWhy::Order);
    }
    if has_comparable(inst, before, entry) {
        return Some(ListWhy::Comparable);
    }
    None
}

// Whether some entry before is comparable to this one, which comes after them.
fn has_comparable(inst: &Instance, before: &[Entry], entry: &Entry) -> bool
    requires before { IsRightList inst.now before.now }
    requires entry { IsRightModel inst.now entry.now }
    requires after { ComesAfter before.now entry.now }
    ensures found { IsTrue result → HasComparable inst.now before.now entry.now }
    ensures none { result ≡ false → IsApartFrom inst.now before.now entry.now }
{
    let objectives = inst.objectives.as_slice();
    let from = compared_from(objectives, before);
    any_comparable(objectives, &before[from..], &entry.costs)
}

// With one objective or two the entries turn one way: where the first numbers rise, the second ones
// all rise or all fall, so that the entry before tells for all.
fn compared_from(objectives: &[Objective], before: &[Entry]) -> usize
    ensures from { result ≡ compared_from objectives.now before.now }
    ensures within { result ≤ length before.now }
{
    if objectives.len() <= 2 {
        before.len().saturating_sub(1)
    } else {
        0
    }
}

// Whether the entry comes after rising ones in lexicographic order.
fn comes_after(before: &[Entry], entry: &Entry) -> bool
    requires { AreRising (vectors_of before.now) }
    ensures { IsTrue result ↔ ComesAfter before.now entry.now }
{
    match before.last() {
        Some(last) => last.costs.cmp(&entry.costs).is_lt(),
        None => true,
    }
}
