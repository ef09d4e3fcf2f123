// Judging the models of an entry (DECISIONS, repeated-models).
ghost use Rattle.std.specs.Prelude.{◌≡◌, ◌↔◌, ◌⊎◌, List, Bool, Contains, IsTrue, MatchBool, MatchOption, All, OnOk, IfOk, IfErr};
ghost use Rattle.representatives.specs.Judged.{HasWrongCount, IsFaultOf, IsModelFault};
ghost use Rattle.representatives.specs.ModelFaults.{IsModelsFault};
ghost use Rattle.representatives.specs.Representatives.{AreDifferent, AreServing, Serves};

use crate::{RepsFault, RepsWhy};
use front_set::CostVec;
use front_text::Reps;
use instance::Instance;
use log_checker::weakly_dominates;
use scut_base::{Assignment, Items, NoMemory};
use std::alloc::Global;
use std::collections::BTreeSet;

/// Judges the models of an entry with this vector: all that do where fewer than `most` are to be all, and else `most` different
/// models that serve it. Says nothing of whether they are all. A refusal names the first condition that fails, in the order of
/// `RepsWhy`, and of the models in theirs.
pub fn check_reps(
    alloc: Global,
    inst: &Instance,
    vec: &CostVec,
    most: u64,
    reps: &Reps,
) -> Result<(), RepsFault>
    ensures serving { OnOk result
        (AreServing inst.now vec.now most reps.now.all reps.now.models) }
    ensures fault { IfErr result (IsFaultOf inst.now vec.now most reps.now) }
{
    if has_wrong_count(most, reps) {
        return Err(RepsFault::Refused(RepsWhy::Count));
    }
    check_models(alloc, inst, vec, reps.models.as_slice())
}

// Whether models that are to be all are too many, or others are more or fewer.
fn has_wrong_count(most: u64, reps: &Reps) -> bool
    ensures { IsTrue result ↔ HasWrongCount most reps.now }
{
    let count = reps.models.len() as u64;
    if reps.all {
        most <= count
    } else {
        count != most
    }
}

// Judges the models in order.
fn check_models(
    alloc: Global,
    inst: &Instance,
    vec: &CostVec,
    models: &[Assignment],
) -> Result<(), RepsFault>
    ensures serve { OnOk result (All (Serves inst.now vec.now) models.now) }
    ensures different { OnOk result (AreDifferent models.now) }
    ensures fault { IfErr result (IsModelsFault inst.now vec.now models.now) }
{
    let mut seen = BTreeSet::new(alloc);
    for model in models {
        if let Some(why) = model_fault(alloc, inst, vec, model)? {
            return Err(RepsFault::Refused(why));
        }
        if !is_new(alloc, &mut seen, model)? {
            return Err(RepsFault::Refused(RepsWhy::Repeated));
        }
    }
    Ok(())
}

// What is wrong with a model wherever it stands.
fn model_fault(
    alloc: Global,
    inst: &Instance,
    vec: &CostVec,
    model: &Assignment,
) -> Result<Option<RepsWhy>, NoMemory>
    ensures { IfOk result (λ why. MatchOption why (Serves inst.now vec.now model.now)
        (λ w. (before : List (List Bool)) → IsModelFault inst.now vec.now before model.now w)) }
{
    if model.len() != inst.vars() || !inst.is_model(model) {
        return Ok(Some(RepsWhy::NotModel));
    }
    let costs = inst.costs(alloc, model)?;
    if !weakly_dominates(inst.objectives.as_slice(), costs.as_slice(), vec.as_slice()) {
        return Ok(Some(RepsWhy::Costs));
    }
    Ok(None)
}

// Puts a model among those that were seen, and says whether it is new.
fn is_new(
    alloc: Global,
    seen: &mut BTreeSet<Items<bool>>,
    model: &Assignment,
) -> Result<bool, NoMemory>
    ensures found { IfOk result (λ new. MatchBool new
        (Contains seen.old.keys model.now → ⊥) (Contains seen.old.keys model.now)) }
    ensures kept { OnOk result ((q : List Bool)
        → Contains seen.new.keys q ↔ (Contains seen.old.keys q ⊎ (model.now ≡ q))) }
{
    let values = Items::from_vec(Vec::from_slice(alloc, model.as_slice())?);
    Ok(seen.insert(values)?)
}
