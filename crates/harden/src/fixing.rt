// The lines that make literals false, by the rules of dominance and redundance of VeriPB (Bogaerts, Gocht,
// McCreesh and Nordström 2023).
ghost use Rattle.std.specs.Prelude.{◌≡◌, ◌++◌, ◌≤◌, map, IfOk, OnOk};
ghost use Rattle.harden.specs.Hardened.{falsified, fixing, fixing_line, row_proof, strict_proof};

use crate::occurrences::Occurrences;
use cutting_planes::PolToken;
use hint_rup::Hint;
use pb_lin::{Constraint, Image, Witness};
use proof_laws::{Goal, GoalProof, Line};
use scut_base::{Items, Lit, NoMemory};
use std::alloc::Global;

// The line that makes a literal false: by dominance where it costs something, else by redundance. Takes a
// step for each row that has the opposite literal.
pub(crate) fn fixing_line(
    alloc: Global,
    occurrences: &Occurrences<'_>,
    lit: Lit,
) -> Result<Line, NoMemory>
    requires { lit.var ≤ occurrences.now.vars }
    ensures { IfOk result (λ line. line ≡ fixing_line occurrences.now lit) }
{
    let goal = fixing(alloc, lit)?;
    let witness = falsified(alloc, lit)?;
    let mut proofs = row_proofs(alloc, occurrences.at(lit.not()).open_rows.as_slice())?;
    if !occurrences.at(lit).in_costs {
        return Ok(Line::Red {
            goal,
            witness,
            proofs,
        });
    }
    add_strict(alloc, &mut proofs)?;
    Ok(Line::Dom {
        goal,
        witness,
        proofs,
    })
}

// That the literal is false.
fn fixing(alloc: Global, lit: Lit) -> Result<Constraint, NoMemory>
    ensures { IfOk result (λ c. c ≡ fixing lit) }
{
    let mut lits = Items::new(alloc);
    lits.push(lit.not())?;
    Ok(Constraint::clause(lits))
}

// The substitution that makes it false.
fn falsified(alloc: Global, lit: Lit) -> Result<Witness, NoMemory>
    ensures { IfOk result (λ witness. witness ≡ falsified lit) }
{
    let image = if lit.is_neg() {
        Image::One
    } else {
        Image::Zero
    };
    let mut images = Items::new(alloc);
    images.push((lit.var(), image))?;
    Ok(Witness::from_images(images))
}

// A proof for each of these rows.
fn row_proofs(alloc: Global, rows: &[u64]) -> Result<Items<(Goal, GoalProof)>, NoMemory>
    ensures { IfOk result (λ proofs. proofs ≡ map row_proof rows.now) }
{
    let mut proofs = Items::with_capacity(alloc, rows.len())?;
    for id in rows {
        proofs.push(row_proof(alloc, *id)?)?;
    }
    Ok(proofs)
}

// That what is left of the row holds: the row and its negation are contradictory.
fn row_proof(alloc: Global, id: u64) -> Result<(Goal, GoalProof), NoMemory>
    ensures { IfOk result (λ proof. proof ≡ row_proof id) }
{
    let tokens = Vec::from_slice(alloc, &[PolToken::Id(id), PolToken::Negated, PolToken::Add])?;
    Ok((Goal::Row(id), GoalProof::Pol(Items::from_vec(tokens))))
}

// Adds that the costs fall: the negation makes the literal false, which is denied.
fn add_strict(alloc: Global, proofs: &mut Items<(Goal, GoalProof)>) -> Result<(), NoMemory>
    ensures { OnOk result (proofs.new ≡ proofs.old ++ strict_proof) }
{
    let hints = Vec::from_slice(alloc, &[Hint::Denied])?;
    proofs.push((Goal::Strict, GoalProof::Rup(Items::from_vec(hints))))
}
