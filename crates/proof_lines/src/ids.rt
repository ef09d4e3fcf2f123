// The word of an id.
ghost use Rattle.std.specs.Prelude.{◌≡◌, ◌≢◌, ◌≤◌, ◌^◌, ◌∷◌, ◌++◌, ◌-◌, ℕ, true, MatchOption, codes, slice_index};
ghost use Rattle.std.specs.Fmt.{decimal};
ghost use Rattle.proof_laws.specs.WellFormed.{IsId};
ghost use Rattle.proof_lines.specs.declared.spelling.Spelling.TheVariants.{Relative};
ghost use Rattle.proof_lines.specs.Ids.{IsSpelling, id_word, is_back, is_made};
ghost use Rattle.proof_lines.specs.Reading.{IsValueOf};
ghost use Rattle.proof_lines.specs.Pieces.{IsBack};

use crate::Spelling;
use crate::number::plain_id;

/// The id below 2^63 that a word spells. One pass.
pub(crate) fn id_of(spelling: Spelling, word: &[u8]) -> Option<u64>
    requires { IsSpelling spelling }
    ensures { IsValueOf (id_word spelling) IsId word.now result }
{
    match spelling {
        Spelling::Plain => plain_id(word),
        Spelling::Relative { rows, next_id } => relative_id(rows, next_id, word),
    }
}

/// Whether the word of an id counts back from the next one.
pub(crate) fn is_back(spelling: Spelling, id: u64) -> bool
    ensures { result ≡ is_back spelling id }
{
    match spelling {
        Spelling::Plain => false,
        Spelling::Relative { rows, next_id } => is_made(rows, next_id, id),
    }
}

/// How far before the next id the word of an id says it is, or none where its word are its digits.
pub(crate) fn distance_back(spelling: Spelling, id: u64) -> Option<u64>
    ensures { MatchOption result (id_word spelling id ≡ decimal id)
        (λ distance. id_word spelling id ≡ codes "-" ++ decimal distance) }
{
    match spelling {
        Spelling::Relative { rows, next_id } if is_made(rows, next_id, id) => Some(next_id - id),
        _ => None,
    }
}

/// Whether a line before has made the id.
pub(crate) fn is_made(rows: u64, next_id: u64, id: u64) -> bool
    ensures { result ≡ is_made rows next_id id }
{
    rows < id && id < next_id
}

// The id of a word where ids are counted back.
fn relative_id(rows: u64, next_id: u64, word: &[u8]) -> Option<u64>
    requires { next_id ≤ 2 ^ 63 }
    ensures { IsValueOf (id_word (Relative rows next_id)) IsId word.now result }
{
    if let Some(digits) = after_minus(word) {
        return id_back(rows, next_id, digits);
    }
    let id = plain_id(word)?;
    if is_made(rows, next_id, id) {
        return None;
    }
    Some(id)
}

// What follows `-`.
fn after_minus(word: &[u8]) -> Option<&[u8]>
    ensures { MatchOption result (slice_index word.now 0 ≢ 45)
        (λ digits. word.now ≡ 45 ∷ digits.now) }
{
    match word {
        [b'-', digits @ ..] => Some(digits),
        _ => None,
    }
}

// The id that stands so many before the next one as the digits say.
fn id_back(rows: u64, next_id: u64, digits: &[u8]) -> Option<u64>
    requires { next_id ≤ 2 ^ 63 }
    ensures { IsBack rows next_id digits.now result }
{
    id_before(rows, next_id, plain_id(digits)?)
}

/// The id so many before the next one, where a line before has made it.
pub(crate) fn id_before(rows: u64, next_id: u64, distance: u64) -> Option<u64>
    ensures { MatchOption result
        ((id : ℕ) → is_made rows next_id id ≡ true → next_id - id ≡ distance → ⊥)
        (λ id. (is_made rows next_id id ≡ true) × (next_id - id ≡ distance)) }
{
    if distance > next_id {
        return None;
    }
    let id = next_id - distance;
    if !is_made(rows, next_id, id) {
        return None;
    }
    Some(id)
}
