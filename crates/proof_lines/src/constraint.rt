// A constraint, word by word.
ghost use Rattle.std.specs.Prelude.{◌≡◌, ◌+◌, ◌≤◌, ◌^◌, ◌∷◌, ◌++◌, [], ◌↔◌, IsTrue, MatchOption};
ghost use Rattle.std.specs.Fmt.{decimal};
ghost use Rattle.proof_laws.specs.WellFormed.{IsConstraint};
ghost use Rattle.proof_lines.specs.LineText.{constraint_words};
ghost use Rattle.proof_lines.specs.Reading.{IsTerm, MayFollow, Reads, ReadsTerms, Takes};
ghost use Rattle.proof_lines.specs.Reading.{term_words};

use crate::LineFault;
use crate::lists::take_literal;
use crate::number::number_of;
use crate::terms::Terms;
use crate::words::Words;
use pb_lin::{Constraint, SIZE_LIMIT};
use scut_base::Lit;
use std::alloc::Global;

/// Takes a constraint: terms of rising variables, `>=` and the degree. One pass; takes memory for
/// the constraint, and once more where not all coefficients are 1.
pub(crate) fn read_constraint(alloc: Global, words: &mut Words<'_>) -> Result<Constraint, LineFault>
    ensures { Reads constraint_words IsConstraint words.old words.new result }
{
    let (terms, sum) = read_terms(alloc, words)?;
    match take_degree(words, sum) {
        Some(degree) => Ok(terms.into_constraint(alloc, degree)?),
        None => Err(LineFault::Syntax),
    }
}

// Takes terms up to and with `>=`: these, and the sum of their coefficients.
fn read_terms(alloc: Global, words: &mut Words<'_>) -> Result<(Terms, u128), LineFault>
    ensures { ReadsTerms words.old words.new result }
{
    let (units, mut last) = words.short_units(alloc)?;
    let mut sum = units.len() as u128;
    let mut terms = Terms::of_units(alloc, units);
    while !words.is_at_end() {
        let Some(word) = words.next() else {
            return Err(LineFault::Syntax);
        };
        if word == b">=".as_slice() {
            return Ok((terms, sum));
        }
        let Some(term) = take_term(word, words) else {
            return Err(LineFault::Syntax);
        };
        if !may_follow(last, sum, term) {
            return Err(LineFault::Syntax);
        }
        terms.push(term)?;
        last = term.0.var();
        sum += term.1;
    }
    Err(LineFault::Syntax)
}

// The term that this word and the next spell.
fn take_term(word: &[u8], words: &mut Words<'_>) -> Option<(Lit, u128)>
    ensures { Takes term_words IsTerm (word.now ∷ words.old) words.new result }
{
    let coefficient = number_of(word)?;
    let lit = take_literal(words)?;
    Some((lit, coefficient))
}

// Whether a term may come after others of which the last has this variable, and whose coefficients
// have this sum.
fn may_follow(last: u64, sum: u128, term: (Lit, u128)) -> bool
    requires { sum ≤ 2 ^ 100 }
    ensures { IsTrue result ↔ MayFollow last sum term }
{
    let (lit, coefficient) = term;
    coefficient > 0 && last < lit.var() && coefficient <= SIZE_LIMIT - sum
}

// Takes a degree that keeps the size at 2^100 or below.
fn take_degree(words: &mut Words<'_>, sum: u128) -> Option<u128>
    requires { sum ≤ 2 ^ 100 }
    ensures { Takes (λ degree. decimal degree ∷ []) (λ degree. sum + degree ≤ 2 ^ 100)
        words.old words.new result }
{
    let degree = number_of(words.next()?)?;
    if degree > SIZE_LIMIT - sum {
        return None;
    }
    Some(degree)
}
