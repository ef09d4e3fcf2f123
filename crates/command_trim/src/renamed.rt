// Lines with new ids.
ghost use Rattle.std.specs.Prelude.{◌≡◌, IfOk, map};
ghost use Rattle.std.specs.List.{flat_map, list_all};
ghost use Rattle.command_trim.specs.Renames.{renaming};
ghost use Rattle.command_trim.specs.Trimmed.{holds_made, id_or_same, is_kept, is_kept_goal, is_kept_proof, new_goal, new_hints, new_ids, new_line, new_proof, new_proofs, new_token, token_ids};

use crate::renames::Renames;
use cutting_planes::PolToken;
use hint_rup::Hint;
use pb_lin::{Constraint, Witness};
use proof_laws::{Goal, GoalProof, Line};
use scut_base::{Duplicate, Items, NoMemory};
use std::alloc::Global;

// A line with new ids.
pub(crate) fn new_line(alloc: Global, renames: &Renames, line: &Line) -> Result<Line, NoMemory>
    ensures { IfOk result (λ new. new ≡ new_line (renaming renames.now) line.now) }
{
    match line {
        Line::Pol { tokens } => Ok(Line::Pol {
            tokens: new_tokens(alloc, renames, tokens.as_slice())?,
        }),
        Line::Rup { goal, hints } => Ok(Line::Rup {
            goal: goal.copy(alloc)?,
            hints: new_hints(alloc, renames, hints.as_slice())?,
        }),
        Line::Learn { goal, hints } => Ok(Line::Learn {
            goal: goal.copy(alloc)?,
            hints: new_hints(alloc, renames, hints.as_slice())?,
        }),
        Line::Red {
            goal,
            witness,
            proofs,
        } => Ok(Line::Red {
            goal: goal.copy(alloc)?,
            witness: witness.copy(alloc)?,
            proofs: new_proofs(alloc, renames, proofs.as_slice())?,
        }),
        Line::Dom {
            goal,
            witness,
            proofs,
        } => Ok(Line::Dom {
            goal: goal.copy(alloc)?,
            witness: witness.copy(alloc)?,
            proofs: new_proofs(alloc, renames, proofs.as_slice())?,
        }),
        Line::Sol { model, cut, rows } => Ok(Line::Sol {
            model: model.copy(alloc)?,
            cut: cut.copy(alloc)?,
            rows: ids_or_same(alloc, renames, rows.as_slice())?,
        }),
        Line::Del { ids } => Ok(Line::Del {
            ids: new_ids(alloc, renames, ids.as_slice())?,
        }),
        Line::Reduce { ids } => Ok(Line::Reduce {
            ids: new_ids(alloc, renames, ids.as_slice())?,
        }),
        Line::End { id } => Ok(Line::End {
            id: renames.id_or_same(*id),
        }),
        Line::Def { .. } => line.copy(alloc),
    }
}

// Whether some of the ids was made by a line that is kept.
pub(crate) fn holds_made(renames: &Renames, ids: &[u64]) -> bool
    ensures { result ≡ holds_made (renaming renames.now) ids.now }
{
    ids.iter().any(|id| renames.was_made(*id))
}

// The new ids of those that have one.
fn new_ids(alloc: Global, renames: &Renames, ids: &[u64]) -> Result<Items<u64>, NoMemory>
    ensures { IfOk result (λ new. new ≡ new_ids (renaming renames.now) ids.now) }
{
    let mut new = Items::new(alloc);
    for id in ids {
        if let Some(id) = renames.new_id(*id) {
            new.push(id)?;
        }
    }
    Ok(new)
}

// The new ids, or the old ones where there are none.
fn ids_or_same(alloc: Global, renames: &Renames, ids: &[u64]) -> Result<Items<u64>, NoMemory>
    ensures { IfOk result (λ new. new ≡ map (id_or_same (renaming renames.now)) ids.now) }
{
    let mut new = Items::new(alloc);
    for id in ids {
        new.push(renames.id_or_same(*id))?;
    }
    Ok(new)
}

fn new_tokens(
    alloc: Global,
    renames: &Renames,
    tokens: &[PolToken],
) -> Result<Items<PolToken>, NoMemory>
    ensures { IfOk result (λ new. new ≡ map (new_token (renaming renames.now)) tokens.now) }
{
    let mut new = Items::new(alloc);
    for token in tokens {
        new.push(new_token(renames, *token))?;
    }
    Ok(new)
}

fn new_token(renames: &Renames, token: PolToken) -> PolToken
    ensures { result ≡ new_token (renaming renames.now) token }
{
    match token {
        PolToken::Id(id) => PolToken::Id(renames.id_or_same(id)),
        other => other,
    }
}

// The hints without those whose lines are gone.
fn new_hints(alloc: Global, renames: &Renames, hints: &[Hint]) -> Result<Items<Hint>, NoMemory>
    ensures { IfOk result (λ new. new ≡ new_hints (renaming renames.now) hints.now) }
{
    let mut new = Items::new(alloc);
    for hint in hints {
        match hint {
            Hint::Id(id) => {
                if let Some(id) = renames.new_id(*id) {
                    new.push(Hint::Id(id))?;
                }
            }
            _ => new.push(*hint)?,
        }
    }
    Ok(new)
}

// The proofs of goals that are still there, of which no tokens name a line that is gone.
fn new_proofs(
    alloc: Global,
    renames: &Renames,
    proofs: &[(Goal, GoalProof)],
) -> Result<Items<(Goal, GoalProof)>, NoMemory>
    ensures { IfOk result (λ new. new ≡ new_proofs (renaming renames.now) proofs.now) }
{
    let mut new = Items::new(alloc);
    for (goal, proof) in proofs {
        if is_kept_goal(renames, *goal) && is_kept_proof(renames, proof) {
            let goal = new_goal(renames, *goal);
            new.push((goal, new_proof(alloc, renames, proof)?))?;
        }
    }
    Ok(new)
}

fn is_kept_goal(renames: &Renames, goal: Goal) -> bool
    ensures { result ≡ is_kept_goal (renaming renames.now) goal }
{
    match goal {
        Goal::Row(id) => renames.is_kept(id),
        _ => true,
    }
}

fn new_goal(renames: &Renames, goal: Goal) -> Goal
    ensures { result ≡ new_goal (renaming renames.now) goal }
{
    match goal {
        Goal::Row(id) => Goal::Row(renames.id_or_same(id)),
        other => other,
    }
}

fn is_kept_proof(renames: &Renames, proof: &GoalProof) -> bool
    ensures { result ≡ is_kept_proof (renaming renames.now) proof.now }
{
    match proof {
        GoalProof::Rup(_) => true,
        GoalProof::Pol(tokens) => are_kept(renames, tokens.as_slice()),
    }
}

// Whether the tokens name no line that is gone.
fn are_kept(renames: &Renames, tokens: &[PolToken]) -> bool
    ensures { result ≡ list_all (is_kept (renaming renames.now)) (flat_map token_ids tokens.now) }
{
    for token in tokens {
        if !is_kept_token(renames, *token) {
            return false;
        }
    }
    true
}

fn is_kept_token(renames: &Renames, token: PolToken) -> bool
    ensures { result ≡ list_all (is_kept (renaming renames.now)) (token_ids token) }
{
    match token {
        PolToken::Id(id) => renames.is_kept(id),
        _ => true,
    }
}

fn new_proof(alloc: Global, renames: &Renames, proof: &GoalProof) -> Result<GoalProof, NoMemory>
    ensures { IfOk result (λ new. new ≡ new_proof (renaming renames.now) proof.now) }
{
    match proof {
        GoalProof::Rup(hints) => Ok(GoalProof::Rup(new_hints(alloc, renames, hints.as_slice())?)),
        GoalProof::Pol(tokens) => {
            Ok(GoalProof::Pol(new_tokens(alloc, renames, tokens.as_slice())?))
        }
    }
}
