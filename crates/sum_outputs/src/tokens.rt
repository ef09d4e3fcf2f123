// The tokens of a clause of a totalizer.
ghost use Rattle.std.specs.Prelude.{◌≡◌, ℕ, ◌<◌, ◌++◌, ◌∷◌, [], List, map, IfOk, OnOk};
ghost use Rattle.sum_outputs.specs.ClauseTokens.{clause_tokens, cuts, named, summed, weakens};

use crate::SumOutput;
use cutting_planes::PolToken;
use scut_base::{Items, Lit, NoMemory};
use std::alloc::Global;

// The tokens `L R + U + x w s m d`: the lower lines of the outputs that have one, and the upper line of
// another, are summed; variables are weakened; and what is left, of this degree, is made a clause.
pub(crate) fn clause_tokens(
    alloc: Global,
    parts: &[SumOutput],
    weakened: &[(Lit, u64)],
    upper: u64,
    degree: u64,
) -> Result<Items<PolToken>, NoMemory>
    ensures { IfOk result (λ tokens. tokens
        ≡ clause_tokens (map (λ o. o.lower) parts.now) upper weakened.now degree) }
{
    let mut tokens = Items::new(alloc);
    add_lowers(&mut tokens, parts)?;
    add_id(&mut tokens, upper)?;
    weaken(&mut tokens, weakened)?;
    cut(&mut tokens, degree)?;
    Ok(tokens)
}

// Sums the lower lines of the outputs that have one.
fn add_lowers(tokens: &mut Items<PolToken>, parts: &[SumOutput]) -> Result<(), NoMemory>
    requires { tokens.old ≡ [] }
    ensures { OnOk result (tokens.new ≡ summed (named (map (λ o. o.lower) parts.now))) }
{
    for part in parts {
        if part.lower != 0 {
            add_id(tokens, part.lower)?;
        }
    }
    Ok(())
}

// Adds a line to the sum; the first stands alone.
fn add_id(tokens: &mut Items<PolToken>, id: u64) -> Result<(), NoMemory>
    ensures { (ids : List ℕ) → tokens.old ≡ summed ids
        → OnOk result (tokens.new ≡ summed (ids ++ id ∷ [])) }
{
    let first = tokens.is_empty();
    tokens.push(PolToken::Id(id))?;
    if !first {
        tokens.push(PolToken::Add)?;
    }
    Ok(())
}

// Weakens the variables of these terms.
fn weaken(tokens: &mut Items<PolToken>, weakened: &[(Lit, u64)]) -> Result<(), NoMemory>
    ensures { OnOk result (tokens.new ≡ tokens.old ++ weakens weakened.now) }
{
    for term in weakened {
        tokens.push(PolToken::Weaken(term.0.var()))?;
    }
    Ok(())
}

// Makes a clause of what is left, of this degree.
fn cut(tokens: &mut Items<PolToken>, degree: u64) -> Result<(), NoMemory>
    ensures { OnOk result (tokens.new ≡ tokens.old ++ cuts degree) }
{
    tokens.push(PolToken::Saturate)?;
    if 1 < degree {
        tokens.push(PolToken::Div(degree as i128))?;
    }
    Ok(())
}
