// A constraint with its witness and the proofs of its goals, word by word.
ghost use Rattle.proof_lines.specs.Ids.{IsSpelling};
ghost use Rattle.proof_lines.specs.Reading.{ReadsAll};
ghost use Rattle.proof_lines.specs.Witnessed.{IsSubstituted, IsWitnessed, substituted_words};
ghost use Rattle.proof_lines.specs.Witnessed.{words_of_witnessed};

use crate::constraint::read_constraint;
use crate::goals::read_proofs;
use crate::images::read_witness;
use crate::words::Words;
use crate::{LineFault, Spelling};
use pb_lin::{Constraint, Witness};
use proof_laws::{Goal, GoalProof};
use scut_base::Items;
use std::alloc::Global;

/// Takes a constraint, a witness and the proofs of goals, up to the last word. Takes memory for all of
/// them.
pub(crate) fn read_witnessed(
    alloc: Global,
    spelling: Spelling,
    words: &mut Words<'_>,
) -> Result<(Constraint, Witness, Items<(Goal, GoalProof)>), LineFault>
    requires { IsSpelling spelling }
    ensures { ReadsAll (words_of_witnessed spelling) IsWitnessed words.old result }
{
    let goal = read_constraint(alloc, words)?;
    if !words.skip(b':') {
        return Err(LineFault::Syntax);
    }
    let (witness, proofs) = read_substituted(alloc, spelling, words)?;
    Ok((goal, witness, proofs))
}

// Takes a witness and the proofs of goals, up to the last word.
fn read_substituted(
    alloc: Global,
    spelling: Spelling,
    words: &mut Words<'_>,
) -> Result<(Witness, Items<(Goal, GoalProof)>), LineFault>
    requires { IsSpelling spelling }
    ensures { ReadsAll (substituted_words spelling) IsSubstituted words.old result }
{
    let witness = read_witness(alloc, words)?;
    let proofs = read_proofs(alloc, spelling, words)?;
    Ok((witness, proofs))
}
