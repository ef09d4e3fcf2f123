// The ids of a line that deletes, word by word: single ids, or runs of them.
ghost use Rattle.std.specs.Prelude.{◌≡◌, ◌≢◌, ◌≤◌, ◌<◌, ◌↔◌, [], length, map, All, AllPairs, IsTrue};
ghost use Rattle.std.specs.List.{position_or_len};
ghost use Rattle.proof_lines.specs.declared.spelling.Spelling.TheVariants.{Plain};
ghost use Rattle.proof_lines.specs.Ids.{IsSpelling, piece_word};
ghost use Rattle.proof_lines.specs.Kinds.{ReadsIds, ReadsRuns};
ghost use Rattle.proof_lines.specs.Reading.{IsValueOf, ReadsPart};
ghost use Rattle.proof_lines.specs.Pieces.{IsPiece, IsRunOf, is_dot};

use crate::ids::id_of;
use crate::lists::{are_rising, read_ids};
use crate::runs::{are_same, ids_of, is_run, spelled_pieces};
use crate::words::Words;
use crate::{LineFault, Spelling};
use scut_base::Items;
use std::alloc::Global;

/// Takes rising ids up to the last word, at least one. Takes memory for the ids, and for runs.
pub(crate) fn read_deleted(
    alloc: Global,
    spelling: Spelling,
    words: &mut Words<'_>,
) -> Result<Items<u64>, LineFault>
    requires { IsSpelling spelling }
    ensures { ReadsIds spelling words.old result }
{
    match spelling {
        Spelling::Plain => read_singles(alloc, words),
        Spelling::Relative { .. } => read_runs(alloc, spelling, words),
    }
}

// The same where each id is a word.
fn read_singles(alloc: Global, words: &mut Words<'_>) -> Result<Items<u64>, LineFault>
    ensures { ReadsIds Plain words.old result }
{
    let ids = read_ids(alloc, Spelling::Plain, words)?;
    if !words.is_at_end() {
        return Err(LineFault::Syntax);
    }
    if !are_deleted(ids.as_slice()) {
        return Err(LineFault::Syntax);
    }
    Ok(ids)
}

// The same where ids that follow one another are cut into runs.
fn read_runs(
    alloc: Global,
    spelling: Spelling,
    words: &mut Words<'_>,
) -> Result<Items<u64>, LineFault>
    requires { IsSpelling spelling }
    ensures { ReadsRuns spelling words.old result }
{
    let pieces = read_pieces(alloc, spelling, words)?;
    if !words.is_at_end() {
        return Err(LineFault::Syntax);
    }
    let ids = ids_of(alloc, pieces.as_slice())?;
    if !are_deleted(ids.as_slice()) {
        return Err(LineFault::Syntax);
    }
    let cut = spelled_pieces(alloc, ids.as_slice())?;
    if !are_same(cut.as_slice(), pieces.as_slice()) {
        return Err(LineFault::Syntax);
    }
    Ok(ids)
}

// Whether there is an id, and each is above the one before it.
fn are_deleted(ids: &[u64]) -> bool
    ensures { IsTrue result ↔ (ids.now ≢ []) × AllPairs (λ i j. i < j) ids.now }
{
    !ids.is_empty() && are_rising(ids)
}

// Takes pieces of ids up to the end of a part.
fn read_pieces(
    alloc: Global,
    spelling: Spelling,
    words: &mut Words<'_>,
) -> Result<Items<(u64, u64)>, LineFault>
    requires { IsSpelling spelling }
    ensures { ReadsPart (map (piece_word spelling)) (All IsPiece) words.old words.new result }
{
    let mut pieces = Items::with_capacity(alloc, words.room())?;
    while let Some(word) = words.next_in_part() {
        match piece_of(spelling, word) {
            Some(piece) => pieces.push(piece)?,
            None => return Err(LineFault::Syntax),
        }
    }
    Ok(pieces)
}

// The piece that a word spells: one id, or `a..b` for three to 1,024.
fn piece_of(spelling: Spelling, word: &[u8]) -> Option<(u64, u64)>
    requires { IsSpelling spelling }
    ensures { IsValueOf (piece_word spelling) IsPiece word.now result }
{
    let end = first_dot(word);
    if end < word.len() {
        return run_of(spelling, &word[..end], &word[end..]);
    }
    let id = id_of(spelling, word)?;
    Some((id, id))
}

// The run whose first id a word is, and whose last one follows `..`.
fn run_of(spelling: Spelling, head: &[u8], tail: &[u8]) -> Option<(u64, u64)>
    requires { IsSpelling spelling }
    ensures { IsRunOf spelling head.now tail.now result }
{
    let [b'.', b'.', digits @ ..] = tail else {
        return None;
    };
    let first = id_of(spelling, head)?;
    let last = id_of(spelling, digits)?;
    if !is_run(first, last) {
        return None;
    }
    Some((first, last))
}

// How many bytes stand before the first dot.
fn first_dot(word: &[u8]) -> usize
    ensures value { result ≡ position_or_len is_dot word.now }
    ensures within { result ≤ length word.now }
{
    word.iter().position(|b| *b == b'.').unwrap_or(word.len())
}
