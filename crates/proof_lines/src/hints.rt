// Hints of a line.
ghost use Rattle.std.specs.Prelude.{◌≡◌, ◌∷◌, ◌++◌, [], map, All, IfOk};
ghost use Rattle.proof_laws.specs.WellFormed.{IsHint};
ghost use Rattle.proof_lines.specs.Ids.{IsSpelling};
ghost use Rattle.proof_lines.specs.LineText.{hint_word};
ghost use Rattle.proof_lines.specs.Reading.{IsValueOf, ReadsPart, Takes};

use crate::ids::id_of;
use crate::words::Words;
use crate::{LineFault, Spelling};
use hint_rup::Hint;
use scut_base::{Items, NoMemory};
use std::alloc::Global;

/// Takes hints up to the end of a part. One pass; takes memory for the hints.
pub(crate) fn read_hints(
    alloc: Global,
    spelling: Spelling,
    words: &mut Words<'_>,
) -> Result<Items<Hint>, LineFault>
    requires { IsSpelling spelling }
    ensures { ReadsPart (map (hint_word spelling)) (All IsHint) words.old words.new result }
{
    let mut hints = first_hints(alloc, spelling, words)?;
    while !words.ends_part() {
        match take_hint(spelling, words) {
            Some(hint) => hints.push(hint)?,
            None => return Err(LineFault::Syntax),
        }
    }
    Ok(hints)
}

// Takes hints that are ids of few digits where no id is counted back, and else none: the others follow. Most are such.
fn first_hints(
    alloc: Global,
    spelling: Spelling,
    words: &mut Words<'_>,
) -> Result<Items<Hint>, NoMemory>
    ensures { IfOk result (λ hints. All IsHint hints
        × (words.old ≡ map (hint_word spelling) hints ++ words.new)) }
{
    match spelling {
        Spelling::Plain => words.plain_hints(alloc),
        Spelling::Relative { .. } => Items::with_capacity(alloc, words.room()),
    }
}

// Takes the hint that the next word spells.
fn take_hint(spelling: Spelling, words: &mut Words<'_>) -> Option<Hint>
    requires { IsSpelling spelling }
    ensures { Takes (λ h. hint_word spelling h ∷ []) IsHint words.old words.new result }
{
    if let Some(id) = words.short_id(spelling) {
        return Some(Hint::Id(id));
    }
    hint_of(spelling, words.next()?)
}

// The hint that a word spells.
fn hint_of(spelling: Spelling, word: &[u8]) -> Option<Hint>
    requires { IsSpelling spelling }
    ensures { IsValueOf (hint_word spelling) IsHint word.now result }
{
    match word {
        [b'~'] => Some(Hint::Negated),
        [b'!'] => Some(Hint::Denied),
        _ => {
            let id = id_of(spelling, word)?;
            Some(Hint::Id(id))
        }
    }
}
