// Lists of ids and of literals.
ghost use Rattle.std.specs.Prelude.{◌<◌, ◌↔◌, ◌∷◌, [], map, All, AllPairs, IsTrue};
ghost use Rattle.proof_laws.specs.WellFormed.{IsId, IsVariable, AreRisingLiterals};
ghost use Rattle.proof_lines.specs.Ids.{IsSpelling, id_word};
ghost use Rattle.proof_lines.specs.LineText.{literal_word};
ghost use Rattle.proof_lines.specs.Reading.{ReadsPart, Takes};

use crate::ids::id_of;
use crate::number::literal_of;
use crate::words::Words;
use crate::{LineFault, Spelling};
use scut_base::{Items, Lit};
use std::alloc::Global;

/// Takes ids up to the end of a part. One pass; takes memory for the ids.
pub(crate) fn read_ids(
    alloc: Global,
    spelling: Spelling,
    words: &mut Words<'_>,
) -> Result<Items<u64>, LineFault>
    requires { IsSpelling spelling }
    ensures { ReadsPart (map (id_word spelling)) (All IsId) words.old words.new result }
{
    let mut ids = Items::with_capacity(alloc, words.room())?;
    while !words.ends_part() {
        match take_id(spelling, words) {
            Some(id) => ids.push(id)?,
            None => return Err(LineFault::Syntax),
        }
    }
    Ok(ids)
}

// Takes the id that the next word spells.
fn take_id(spelling: Spelling, words: &mut Words<'_>) -> Option<u64>
    requires { IsSpelling spelling }
    ensures { Takes (λ id. id_word spelling id ∷ []) IsId words.old words.new result }
{
    if let Some(id) = words.short_id(spelling) {
        return Some(id);
    }
    id_of(spelling, words.next()?)
}

/// Takes literals up to the end of a part. One pass; takes memory for the literals.
pub(crate) fn read_literals(alloc: Global, words: &mut Words<'_>) -> Result<Items<Lit>, LineFault>
    ensures { ReadsPart (map literal_word) (All (λ l. IsVariable l.var))
        words.old words.new result }
{
    let mut lits = Items::with_capacity(alloc, words.room())?;
    while !words.ends_part() {
        match take_literal(words) {
            Some(lit) => lits.push(lit)?,
            None => return Err(LineFault::Syntax),
        }
    }
    Ok(lits)
}

/// Takes the literal that the next word spells.
pub(crate) fn take_literal(words: &mut Words<'_>) -> Option<Lit>
    ensures { Takes (λ l. literal_word l ∷ []) (λ l. IsVariable l.var) words.old words.new result }
{
    if let Some(lit) = words.short_literal() {
        return Some(lit);
    }
    literal_of(words.next()?)
}

/// Takes literals of rising variables up to the end of a part. Costs two passes.
pub(crate) fn read_rising_literals(
    alloc: Global,
    words: &mut Words<'_>,
) -> Result<Items<Lit>, LineFault>
    ensures { ReadsPart (map literal_word) AreRisingLiterals words.old words.new result }
{
    let lits = read_literals(alloc, words)?;
    if !variables_rise(lits.as_slice()) {
        return Err(LineFault::Syntax);
    }
    Ok(lits)
}

/// Whether each number is above the one before it.
pub(crate) fn are_rising(ids: &[u64]) -> bool
    ensures { IsTrue result ↔ AllPairs (λ i j. i < j) ids.now }
{
    for at in 1..ids.len() {
        if ids[at - 1] >= ids[at] {
            return false;
        }
    }
    true
}

// Whether each literal's variable is above that of the one before it.
fn variables_rise(lits: &[Lit]) -> bool
    ensures { IsTrue result ↔ AllPairs (λ l m. l.var < m.var) lits.now }
{
    for at in 1..lits.len() {
        if lits[at - 1].var() >= lits[at].var() {
            return false;
        }
    }
    true
}
