// Runs of ids in the lines that delete: pieces of ids that follow one another.
ghost use Rattle.std.specs.Prelude.{◌≡◌, ◌↔◌, ◌<◌, ◌≤◌, ◌++◌, ◌∷◌, ◌^◌, ℕ, List, All, IfOk, IsTrue, OnOk};
ghost use Rattle.std.specs.List.{flat_map};
ghost use Rattle.proof_lines.specs.Ids.{belongs, piece_ids, spelled_piece, spelled_pieces};
ghost use Rattle.proof_lines.specs.Pieces.{IsPiece, IsRun, pieces_after};

use scut_base::{Items, NoMemory};
use std::alloc::Global;

// A piece has at most one id more.
const MOST_AFTER_FIRST: u64 = 1023;

/// The pieces of ids, each of which is one word. One pass; takes memory for the pieces.
pub(crate) fn spelled_pieces(alloc: Global, ids: &[u64]) -> Result<Items<(u64, u64)>, NoMemory>
    ensures { IfOk result (λ pieces. pieces ≡ spelled_pieces ids.now) }
{
    let mut pieces = Items::new(alloc);
    let [first, rest @ ..] = ids else {
        return Ok(pieces);
    };
    let mut piece = (*first, *first);
    for id in rest {
        piece = advance(&mut pieces, piece, *id)?;
    }
    push_piece(&mut pieces, piece)?;
    Ok(pieces)
}

/// The ids of pieces. Takes memory for them.
pub(crate) fn ids_of(alloc: Global, pieces: &[(u64, u64)]) -> Result<Items<u64>, NoMemory>
    requires { All IsPiece pieces.now }
    ensures { IfOk result (λ ids. ids ≡ flat_map piece_ids pieces.now) }
{
    let mut ids = Items::new(alloc);
    for piece in pieces {
        push_ids(&mut ids, *piece)?;
    }
    Ok(ids)
}

/// Whether so many ids are shortened: three to 1,024.
pub(crate) fn is_run(first: u64, last: u64) -> bool
    ensures { IsTrue result ↔ IsRun (first, last) }
{
    first < last && last - first >= 2 && last - first <= MOST_AFTER_FIRST
}

/// Whether these are the same pieces.
pub(crate) fn are_same(pieces: &[(u64, u64)], others: &[(u64, u64)]) -> bool
    ensures { IsTrue result ↔ (pieces.now ≡ others.now) }
{
    if pieces.len() != others.len() {
        return false;
    }
    for at in 0..pieces.len() {
        if pieces[at].0 != others[at].0 || pieces[at].1 != others[at].1 {
            return false;
        }
    }
    true
}

// The piece that goes on after this id; one that ends before it is put at the end.
fn advance(
    pieces: &mut Items<(u64, u64)>,
    piece: (u64, u64),
    id: u64,
) -> Result<(u64, u64), NoMemory>
    requires { piece.0 ≤ piece.1 }
    ensures order { IfOk result (λ next. next.0 ≤ next.1) }
    ensures to_come { IfOk result (λ next. (rest : List ℕ)
        → pieces.new ++ pieces_after next rest ≡ pieces.old ++ pieces_after piece (id ∷ rest)) }
{
    if joins(piece, id) {
        return Ok((piece.0, id));
    }
    push_piece(pieces, piece)?;
    Ok((id, id))
}

// Whether an id belongs to a piece before it.
fn joins(piece: (u64, u64), id: u64) -> bool
    requires { piece.0 ≤ piece.1 }
    ensures { result ≡ belongs piece.0 piece.1 id }
{
    let (first, last) = piece;
    id > last && id - last == 1 && last - first < MOST_AFTER_FIRST
}

// Puts a piece at the end, one of two ids as two.
fn push_piece(pieces: &mut Items<(u64, u64)>, piece: (u64, u64)) -> Result<(), NoMemory>
    requires { piece.0 ≤ piece.1 }
    ensures { OnOk result (pieces.new ≡ pieces.old ++ spelled_piece piece) }
{
    let (first, last) = piece;
    if last - first == 1 {
        pieces.push((first, first))?;
        pieces.push((last, last))
    } else {
        pieces.push(piece)
    }
}

// Puts the ids of a piece at the end.
fn push_ids(ids: &mut Items<u64>, piece: (u64, u64)) -> Result<(), NoMemory>
    requires order { piece.0 ≤ piece.1 }
    requires small { piece.1 < 2 ^ 63 }
    ensures { OnOk result (ids.new ≡ ids.old ++ piece_ids piece) }
{
    for id in piece.0..piece.1 + 1 {
        ids.push(id)?;
    }
    Ok(())
}
