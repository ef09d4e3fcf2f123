// The first variable that a line writes and that isn't one of the state's.
ghost use Rattle.std.specs.Prelude.{◌≡◌, ◌<◌, ◌≤◌, [], ◌∷◌, map, nat_lt, All, AllPairs, IsTrue};
ghost use Rattle.std.specs.List.{find, flat_map};
ghost use Rattle.proof_laws.specs.Refusal.{written, term_variables, token_variables, image_variables, proof_variables, substitution_variables};

use cutting_planes::PolToken;
use pb_lin::{Constraint, Image, Witness};
use proof_laws::{Goal, GoalProof, Line};
use scut_base::Lit;

// The first variable above `n` of those that the line writes, as they stand in its text. Those of
// definitions and of logged models have conditions of their own.
pub(crate) fn written_above(line: &Line, n: u64) -> Option<u64>
    ensures { result ≡ find (λ v. nat_lt n v) (written line.now) }
{
    match line {
        Line::Pol { tokens } => tokens_above(tokens.as_slice(), n),
        Line::Rup { goal, .. } => terms_above(goal, n),
        Line::Learn { goal, .. } => terms_above(goal, n),
        Line::Red {
            goal,
            witness,
            proofs,
        } => substitution_above(goal, witness, proofs.as_slice(), n),
        Line::Dom {
            goal,
            witness,
            proofs,
        } => substitution_above(goal, witness, proofs.as_slice(), n),
        Line::Def { .. } | Line::Sol { .. } => None,
        Line::Del { .. } | Line::Reduce { .. } | Line::End { .. } => None,
    }
}

// The first variable above `n` of a constraint. Its variables rise, so most often a look at the last is enough.
pub(crate) fn terms_above(c: &Constraint, n: u64) -> Option<u64>
    ensures { result ≡ find (λ v. nat_lt n v) (term_variables c.now.terms) }
{
    let literals = c.literals();
    if are_within(literals, n) {
        return None;
    }
    literals_above(literals, n)
}

// Whether no variable of these literals is above `n`. In constant time.
fn are_within(literals: &[Lit], n: u64) -> bool
    requires { AllPairs (λ l m. l.var < m.var) literals.now }
    ensures { IsTrue result → All (λ l. l.var ≤ n) literals.now }
{
    let len = literals.len();
    len == 0 || literals[len - 1].var() <= n
}

// The first variable above `n` of these literals.
pub(crate) fn literals_above(literals: &[Lit], n: u64) -> Option<u64>
    ensures { result ≡ find (λ v. nat_lt n v) (map (λ l. l.var) literals.now) }
{
    literals
        .iter()
        .map(|literal| literal.var())
        .find(|var| *var > n)
}

// The first variable above `n` of a constraint, a substitution and the proofs of its goals.
fn substitution_above(
    goal: &Constraint,
    witness: &Witness,
    proofs: &[(Goal, GoalProof)],
    n: u64,
) -> Option<u64>
    ensures { result
        ≡ find (λ v. nat_lt n v) (substitution_variables goal.now witness.now proofs.now) }
{
    if let Some(var) = terms_above(goal, n) {
        return Some(var);
    }
    if let Some(var) = images_above(witness.images(), n) {
        return Some(var);
    }
    proofs_above(proofs, n)
}

// The first variable above `n` of these images, each with its variable.
fn images_above(images: &[(u64, Image)], n: u64) -> Option<u64>
    ensures { result ≡ find (λ v. nat_lt n v) (flat_map image_variables images.now) }
{
    for image in images {
        if let Some(var) = image_above(image, n) {
            return Some(var);
        }
    }
    None
}

// The first variable above `n` of an image with its variable.
fn image_above(image: &(u64, Image), n: u64) -> Option<u64>
    ensures { result ≡ find (λ v. nat_lt n v) (image_variables image.now) }
{
    if image.0 > n {
        return Some(image.0);
    }
    match image.1 {
        Image::Lit(literal) => if_above(literal.var(), n),
        Image::Zero | Image::One => None,
    }
}

// The first variable above `n` of these proofs. Hints name none.
fn proofs_above(proofs: &[(Goal, GoalProof)], n: u64) -> Option<u64>
    ensures { result ≡ find (λ v. nat_lt n v) (flat_map (λ q. proof_variables q.1) proofs.now) }
{
    for proof in proofs {
        if let Some(var) = proof_above(&proof.1, n) {
            return Some(var);
        }
    }
    None
}

// The first variable above `n` of a proof.
fn proof_above(proof: &GoalProof, n: u64) -> Option<u64>
    ensures { result ≡ find (λ v. nat_lt n v) (proof_variables proof.now) }
{
    match proof {
        GoalProof::Rup(_) => None,
        GoalProof::Pol(tokens) => tokens_above(tokens.as_slice(), n),
    }
}

// The first variable above `n` of these tokens.
fn tokens_above(tokens: &[PolToken], n: u64) -> Option<u64>
    ensures { result ≡ find (λ v. nat_lt n v) (flat_map token_variables tokens.now) }
{
    for token in tokens {
        if let Some(var) = token_above(token, n) {
            return Some(var);
        }
    }
    None
}

// The variable of a token, where it is above `n`.
fn token_above(token: &PolToken, n: u64) -> Option<u64>
    ensures { result ≡ find (λ v. nat_lt n v) (token_variables token.now) }
{
    match token {
        PolToken::Axiom(literal) => if_above(literal.var(), n),
        PolToken::Weaken(var) => if_above(*var, n),
        PolToken::Id(_) | PolToken::Negated | PolToken::Denied => None,
        PolToken::Add | PolToken::Mul(_) | PolToken::Div(_) | PolToken::Saturate => None,
    }
}

// The variable, where it is above `n`.
fn if_above(var: u64, n: u64) -> Option<u64>
    ensures { result ≡ find (λ v. nat_lt n v) (var ∷ []) }
{
    if var > n { Some(var) } else { None }
}
