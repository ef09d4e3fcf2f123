// Goals with their proofs, word by word.
ghost use Rattle.std.specs.Prelude.{◌≡◌, ◌↔◌, ◌∷◌, [], AllPairs, All, IsTrue};
ghost use Rattle.std.specs.List.{flat_map};
ghost use Rattle.std.specs.Fmt.{decimal};
ghost use Rattle.proof_laws.specs.WellFormed.{AreProofs, ComesBefore, IsGoal, IsGoalProof};
ghost use Rattle.proof_laws.specs.WellFormed.{goal_kind, goal_number};
ghost use Rattle.proof_lines.specs.Ids.{IsSpelling};
ghost use Rattle.proof_lines.specs.LineText.{goal_word, goal_words, proof_words};
ghost use Rattle.proof_lines.specs.Reading.{IsValueOf, ReadsAll, ReadsPart, Takes};
ghost use Rattle.proof_lines.specs.Witnessed.{IsObjective, IsProved, proved_words};

use crate::hints::read_hints;
use crate::ids::id_of;
use crate::number::plain_id;
use crate::tokens::read_tokens;
use crate::words::Words;
use crate::{LineFault, Spelling};
use proof_laws::{Goal, GoalProof};
use scut_base::Items;
use std::alloc::Global;

/// Takes goals with their proofs, in their order, up to the last word. Costs two passes; takes memory for
/// the proofs.
pub(crate) fn read_proofs(
    alloc: Global,
    spelling: Spelling,
    words: &mut Words<'_>,
) -> Result<Items<(Goal, GoalProof)>, LineFault>
    requires { IsSpelling spelling }
    ensures { ReadsAll (flat_map (goal_words spelling)) AreProofs words.old result }
{
    let proofs = read_goals(alloc, spelling, words)?;
    if !are_ordered(proofs.as_slice()) {
        return Err(LineFault::Syntax);
    }
    Ok(proofs)
}

// Takes goals with their proofs up to the last word.
fn read_goals(
    alloc: Global,
    spelling: Spelling,
    words: &mut Words<'_>,
) -> Result<Items<(Goal, GoalProof)>, LineFault>
    requires { IsSpelling spelling }
    ensures { ReadsAll (flat_map (goal_words spelling)) (All IsProved) words.old result }
{
    let mut proofs = Items::new(alloc);
    while words.skip(b':') {
        let proved = read_goal(alloc, spelling, words)?;
        proofs.push(proved)?;
    }
    if !words.is_at_end() {
        return Err(LineFault::Syntax);
    }
    Ok(proofs)
}

// Takes a goal and its proof up to the end of a part.
fn read_goal(
    alloc: Global,
    spelling: Spelling,
    words: &mut Words<'_>,
) -> Result<(Goal, GoalProof), LineFault>
    requires { IsSpelling spelling }
    ensures { ReadsPart (proved_words spelling) IsProved words.old words.new result }
{
    let Some(goal) = take_goal(spelling, words) else {
        return Err(LineFault::Syntax);
    };
    let proof = read_proof(alloc, spelling, words)?;
    Ok((goal, proof))
}

// Takes the name of a goal.
fn take_goal(spelling: Spelling, words: &mut Words<'_>) -> Option<Goal>
    requires { IsSpelling spelling }
    ensures { Takes (λ goal. goal_word spelling goal ∷ []) IsGoal words.old words.new result }
{
    let word = words.next()?;
    goal_of(spelling, word)
}

// The goal that a word names.
fn goal_of(spelling: Spelling, word: &[u8]) -> Option<Goal>
    requires { IsSpelling spelling }
    ensures { IsValueOf (goal_word spelling) IsGoal word.now result }
{
    if let [b'o', digits @ ..] = word {
        let number = objective_of(digits)?;
        return Some(Goal::Objective(number));
    }
    match word {
        [b'c'] => Some(Goal::Itself),
        [b's'] => Some(Goal::Strict),
        _ => {
            let id = id_of(spelling, word)?;
            Some(Goal::Row(id))
        }
    }
}

// The number of an objective, from 1 to 2^32 - 1.
fn objective_of(digits: &[u8]) -> Option<u32>
    ensures { IsValueOf decimal IsObjective digits.now result }
{
    let number = plain_id(digits)?;
    if number == 0 || number > u64::from(u32::MAX) {
        return None;
    }
    Some(number as u32)
}

// Takes how a goal is proved, up to the end of a part.
fn read_proof(
    alloc: Global,
    spelling: Spelling,
    words: &mut Words<'_>,
) -> Result<GoalProof, LineFault>
    requires { IsSpelling spelling }
    ensures { ReadsPart (proof_words spelling) IsGoalProof words.old words.new result }
{
    let Some(kind) = words.next() else {
        return Err(LineFault::Syntax);
    };
    match kind {
        b"rup" => {
            let hints = read_hints(alloc, spelling, words)?;
            Ok(GoalProof::Rup(hints))
        }
        b"pol" => {
            let tokens = read_tokens(alloc, spelling, words)?;
            Ok(GoalProof::Pol(tokens))
        }
        _ => Err(LineFault::Syntax),
    }
}

// Whether each goal comes before the next.
fn are_ordered(proofs: &[(Goal, GoalProof)]) -> bool
    ensures { IsTrue result ↔ AllPairs (λ q r. ComesBefore q.0 r.0) proofs.now }
{
    for at in 1..proofs.len() {
        if !comes_before(proofs[at - 1].0, proofs[at].0) {
            return false;
        }
    }
    true
}

// Whether a goal comes before another.
fn comes_before(goal: Goal, other: Goal) -> bool
    ensures { IsTrue result ↔ ComesBefore goal other }
{
    let (kind, number) = place_of(goal);
    let (other_kind, other_number) = place_of(other);
    kind < other_kind || kind == other_kind && number < other_number
}

// The kind of a goal, and its number among those of its kind.
fn place_of(goal: Goal) -> (u8, u64)
    ensures kind { result.0 ≡ goal_kind goal }
    ensures number { result.1 ≡ goal_number goal }
{
    match goal {
        Goal::Row(id) => (0, id),
        Goal::Itself => (1, 0),
        Goal::Objective(number) => (2, u64::from(number)),
        Goal::Strict => (3, 0),
    }
}
