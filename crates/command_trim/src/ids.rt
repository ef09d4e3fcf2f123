// The ids that lines name.
ghost use Rattle.std.specs.Prelude.{◌≡◌, ◌++◌, OnOk};
ghost use Rattle.std.specs.List.{flat_map};
ghost use Rattle.command_trim.specs.Trimmed.{hint_ids, ids_named, proof_ids, token_ids};

use cutting_planes::PolToken;
use hint_rup::Hint;
use proof_laws::{Goal, GoalProof, Line};
use scut_base::{Items, NoMemory};

// Puts the ids that a line names after others.
pub(crate) fn push_named(ids: &mut Items<u64>, line: &Line) -> Result<(), NoMemory>
    ensures { OnOk result (ids.new ≡ ids.old ++ ids_named line.now) }
{
    match line {
        Line::Pol { tokens } => push_tokens(ids, tokens.as_slice()),
        Line::Rup { goal: _, hints } => push_hints(ids, hints.as_slice()),
        Line::Learn { goal: _, hints } => push_hints(ids, hints.as_slice()),
        Line::Red {
            goal: _,
            witness: _,
            proofs,
        } => push_proofs(ids, proofs.as_slice()),
        Line::Dom {
            goal: _,
            witness: _,
            proofs,
        } => push_proofs(ids, proofs.as_slice()),
        Line::Sol {
            model: _,
            cut: _,
            rows,
        } => ids.extend_from_slice(rows.as_slice()),
        Line::End { id } => ids.push(*id),
        Line::Def { .. } | Line::Del { .. } | Line::Reduce { .. } => Ok(()),
    }
}

fn push_tokens(ids: &mut Items<u64>, tokens: &[PolToken]) -> Result<(), NoMemory>
    ensures { OnOk result (ids.new ≡ ids.old ++ flat_map token_ids tokens.now) }
{
    for token in tokens {
        if let PolToken::Id(id) = token {
            ids.push(*id)?;
        }
    }
    Ok(())
}

fn push_hints(ids: &mut Items<u64>, hints: &[Hint]) -> Result<(), NoMemory>
    ensures { OnOk result (ids.new ≡ ids.old ++ flat_map hint_ids hints.now) }
{
    for hint in hints {
        if let Hint::Id(id) = hint {
            ids.push(*id)?;
        }
    }
    Ok(())
}

fn push_proofs(ids: &mut Items<u64>, proofs: &[(Goal, GoalProof)]) -> Result<(), NoMemory>
    ensures { OnOk result (ids.new ≡ ids.old ++ flat_map (λ q. proof_ids q.1) proofs.now) }
{
    for proof in proofs {
        push_proof(ids, &proof.1)?;
    }
    Ok(())
}

fn push_proof(ids: &mut Items<u64>, proof: &GoalProof) -> Result<(), NoMemory>
    ensures { OnOk result (ids.new ≡ ids.old ++ proof_ids proof.now) }
{
    match proof {
        GoalProof::Rup(hints) => push_hints(ids, hints.as_slice()),
        GoalProof::Pol(tokens) => push_tokens(ids, tokens.as_slice()),
    }
}
