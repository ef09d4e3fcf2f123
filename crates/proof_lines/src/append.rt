// Words of a line at the end of a text, each after a space.
ghost use Rattle.std.specs.Prelude.{◌≡◌, ◌++◌, map, OnOk, codes};
ghost use Rattle.std.specs.List.{flat_map};
ghost use Rattle.std.specs.Fmt.{decimal, signed_decimal};
ghost use Rattle.proof_lines.specs.Ids.{deleted_words, id_word, piece_word, spelled_pieces};
ghost use Rattle.proof_lines.specs.LineText.{constraint_words, goal_words, goal_word, hint_word};
ghost use Rattle.proof_lines.specs.LineText.{image_word, image_words, literal_word};
ghost use Rattle.proof_lines.specs.LineText.{proof_words, token_words, variable_word};
ghost use Rattle.proof_lines.specs.Reading.{term_words};
ghost use Rattle.proof_lines.specs.Spaces.{after_space, after_spaces};

use crate::Spelling;
use crate::ids::distance_back;
use crate::runs::spelled_pieces;
use cutting_planes::PolToken;
use hint_rup::Hint;
use itoa::Buffer;
use pb_lin::{Constraint, Image};
use proof_laws::{Goal, GoalProof};
use scut_base::{Lit, NoMemory};

// Puts bytes at the end.
pub(crate) fn append(text: &mut Vec<u8>, bytes: &[u8]) -> Result<(), NoMemory>
    ensures { OnOk result (text.new.items ≡ text.old.items ++ bytes.now) }
{
    text.extend_from_slice(bytes)?;
    Ok(())
}

// Puts the word of an id at the end.
fn append_bare_id(
    text: &mut Vec<u8>,
    buffer: &mut Buffer,
    spelling: Spelling,
    id: u64,
) -> Result<(), NoMemory>
    ensures { OnOk result (text.new.items ≡ text.old.items ++ id_word spelling id) }
{
    match distance_back(spelling, id) {
        Some(distance) => {
            append(text, b"-")?;
            append(text, buffer.format(distance).as_bytes())
        }
        None => append(text, buffer.format(id).as_bytes()),
    }
}

// Puts an id at the end.
pub(crate) fn append_id(
    text: &mut Vec<u8>,
    buffer: &mut Buffer,
    spelling: Spelling,
    id: u64,
) -> Result<(), NoMemory>
    ensures { OnOk result (text.new.items ≡ text.old.items ++ after_space (id_word spelling id)) }
{
    text.push(b' ')?;
    append_bare_id(text, buffer, spelling, id)
}

// Puts ids at the end.
pub(crate) fn append_ids(
    text: &mut Vec<u8>,
    buffer: &mut Buffer,
    spelling: Spelling,
    ids: &[u64],
) -> Result<(), NoMemory>
    ensures { OnOk result
        (text.new.items ≡ text.old.items ++ after_spaces (map (id_word spelling) ids.now)) }
{
    for id in ids {
        append_id(text, buffer, spelling, *id)?;
    }
    Ok(())
}

// Puts ids that are deleted at the end.
pub(crate) fn append_deleted(
    text: &mut Vec<u8>,
    buffer: &mut Buffer,
    spelling: Spelling,
    ids: &[u64],
) -> Result<(), NoMemory>
    ensures { OnOk result
        (text.new.items ≡ text.old.items ++ after_spaces (deleted_words spelling ids.now)) }
{
    match spelling {
        Spelling::Plain => append_ids(text, buffer, spelling, ids),
        Spelling::Relative { .. } => append_runs(text, buffer, spelling, ids),
    }
}

// Puts ids at the end, those that follow one another as runs.
fn append_runs(
    text: &mut Vec<u8>,
    buffer: &mut Buffer,
    spelling: Spelling,
    ids: &[u64],
) -> Result<(), NoMemory>
    ensures { OnOk result (text.new.items ≡ text.old.items
        ++ after_spaces (map (piece_word spelling) (spelled_pieces ids.now))) }
{
    let pieces = spelled_pieces(*text.allocator(), ids)?;
    append_pieces(text, buffer, spelling, pieces.as_slice())
}

// Puts pieces of ids at the end.
fn append_pieces(
    text: &mut Vec<u8>,
    buffer: &mut Buffer,
    spelling: Spelling,
    pieces: &[(u64, u64)],
) -> Result<(), NoMemory>
    ensures { OnOk result (text.new.items
        ≡ text.old.items ++ after_spaces (map (piece_word spelling) pieces.now)) }
{
    for piece in pieces {
        append_piece(text, buffer, spelling, *piece)?;
    }
    Ok(())
}

// Puts the word of a piece of ids at the end.
fn append_piece(
    text: &mut Vec<u8>,
    buffer: &mut Buffer,
    spelling: Spelling,
    piece: (u64, u64),
) -> Result<(), NoMemory>
    ensures { OnOk result
        (text.new.items ≡ text.old.items ++ after_space (piece_word spelling piece)) }
{
    let (first, last) = piece;
    append_id(text, buffer, spelling, first)?;
    if first == last {
        return Ok(());
    }
    append(text, b"..")?;
    append_bare_id(text, buffer, spelling, last)
}

// Puts a variable at the end.
pub(crate) fn append_variable(
    text: &mut Vec<u8>,
    buffer: &mut Buffer,
    var: u64,
) -> Result<(), NoMemory>
    ensures { OnOk result (text.new.items ≡ text.old.items ++ after_space (variable_word var)) }
{
    append(text, b" x")?;
    append(text, buffer.format(var).as_bytes())
}

// Puts a literal at the end.
pub(crate) fn append_literal(
    text: &mut Vec<u8>,
    buffer: &mut Buffer,
    lit: Lit,
) -> Result<(), NoMemory>
    ensures { OnOk result (text.new.items ≡ text.old.items ++ after_space (literal_word lit)) }
{
    append(text, if lit.is_neg() { b" ~x" } else { b" x" })?;
    append(text, buffer.format(lit.var()).as_bytes())
}

// Puts literals at the end.
pub(crate) fn append_literals(
    text: &mut Vec<u8>,
    buffer: &mut Buffer,
    lits: &[Lit],
) -> Result<(), NoMemory>
    ensures { OnOk result
        (text.new.items ≡ text.old.items ++ after_spaces (map literal_word lits.now)) }
{
    for lit in lits {
        append_literal(text, buffer, *lit)?;
    }
    Ok(())
}

// Puts a number with its space at the end.
fn append_wide(text: &mut Vec<u8>, buffer: &mut Buffer, n: u128) -> Result<(), NoMemory>
    ensures { OnOk result (text.new.items ≡ text.old.items ++ after_space (decimal n)) }
{
    text.push(b' ')?;
    append(text, buffer.format(n).as_bytes())
}

// Puts a constraint at the end.
pub(crate) fn append_constraint(
    text: &mut Vec<u8>,
    buffer: &mut Buffer,
    c: &Constraint,
) -> Result<(), NoMemory>
    ensures { OnOk result
        (text.new.items ≡ text.old.items ++ after_spaces (constraint_words c.now)) }
{
    append_terms(text, buffer, c)?;
    append(text, b" >=")?;
    append_wide(text, buffer, c.degree())
}

// Puts the terms of a constraint at the end.
fn append_terms(text: &mut Vec<u8>, buffer: &mut Buffer, c: &Constraint) -> Result<(), NoMemory>
    ensures { OnOk result
        (text.new.items ≡ text.old.items ++ after_spaces (flat_map term_words c.now.terms)) }
{
    for at in 0..c.len() {
        let (lit, coefficient) = c.term(at);
        append_wide(text, buffer, coefficient)?;
        append_literal(text, buffer, lit)?;
    }
    Ok(())
}

// Puts a token at the end.
fn append_token(
    text: &mut Vec<u8>,
    buffer: &mut Buffer,
    spelling: Spelling,
    token: &PolToken,
) -> Result<(), NoMemory>
    ensures { OnOk result
        (text.new.items ≡ text.old.items ++ after_spaces (token_words spelling token.now)) }
{
    match token {
        PolToken::Id(id) => append_id(text, buffer, spelling, *id),
        PolToken::Axiom(lit) => append_literal(text, buffer, *lit),
        PolToken::Negated => append(text, b" ~"),
        PolToken::Denied => append(text, b" !"),
        PolToken::Add => append(text, b" +"),
        PolToken::Mul(factor) => append_factor(text, buffer, *factor, b" *"),
        PolToken::Div(factor) => append_factor(text, buffer, *factor, b" d"),
        PolToken::Saturate => append(text, b" s"),
        PolToken::Weaken(var) => append_weakened(text, buffer, *var),
    }
}

// Puts a factor and what is done with it at the end.
fn append_factor(
    text: &mut Vec<u8>,
    buffer: &mut Buffer,
    factor: i128,
    sign: &[u8],
) -> Result<(), NoMemory>
    ensures { OnOk result
        (text.new.items ≡ text.old.items ++ (after_space (signed_decimal factor) ++ sign.now)) }
{
    text.push(b' ')?;
    append(text, buffer.format(factor).as_bytes())?;
    append(text, sign)
}

// Puts a variable that is weakened at the end.
fn append_weakened(text: &mut Vec<u8>, buffer: &mut Buffer, var: u64) -> Result<(), NoMemory>
    ensures { OnOk result (text.new.items
        ≡ text.old.items ++ (after_space (variable_word var) ++ codes " w")) }
{
    append_variable(text, buffer, var)?;
    append(text, b" w")
}

// Puts tokens at the end.
pub(crate) fn append_tokens(
    text: &mut Vec<u8>,
    buffer: &mut Buffer,
    spelling: Spelling,
    tokens: &[PolToken],
) -> Result<(), NoMemory>
    ensures { OnOk result
        (text.new.items ≡ text.old.items ++ after_spaces (flat_map (token_words spelling) tokens.now)) }
{
    for token in tokens {
        append_token(text, buffer, spelling, token)?;
    }
    Ok(())
}

// Puts a hint at the end.
fn append_hint(
    text: &mut Vec<u8>,
    buffer: &mut Buffer,
    spelling: Spelling,
    hint: &Hint,
) -> Result<(), NoMemory>
    ensures { OnOk result (text.new.items ≡ text.old.items ++ after_space (hint_word spelling hint.now)) }
{
    match hint {
        Hint::Id(id) => append_id(text, buffer, spelling, *id),
        Hint::Negated => append(text, b" ~"),
        Hint::Denied => append(text, b" !"),
    }
}

// Puts hints at the end.
pub(crate) fn append_hints(
    text: &mut Vec<u8>,
    buffer: &mut Buffer,
    spelling: Spelling,
    hints: &[Hint],
) -> Result<(), NoMemory>
    ensures { OnOk result
        (text.new.items ≡ text.old.items ++ after_spaces (map (hint_word spelling) hints.now)) }
{
    for hint in hints {
        append_hint(text, buffer, spelling, hint)?;
    }
    Ok(())
}

// Puts what stands for a variable at the end.
fn append_image(text: &mut Vec<u8>, buffer: &mut Buffer, image: &Image) -> Result<(), NoMemory>
    ensures { OnOk result (text.new.items ≡ text.old.items ++ after_space (image_word image.now)) }
{
    match image {
        Image::Zero => append(text, b" 0"),
        Image::One => append(text, b" 1"),
        Image::Lit(lit) => append_literal(text, buffer, *lit),
    }
}

// Puts variables with their images at the end.
pub(crate) fn append_images(
    text: &mut Vec<u8>,
    buffer: &mut Buffer,
    images: &[(u64, Image)],
) -> Result<(), NoMemory>
    ensures { OnOk result
        (text.new.items ≡ text.old.items ++ after_spaces (flat_map image_words images.now)) }
{
    for image in images {
        append_variable(text, buffer, image.0)?;
        append_image(text, buffer, &image.1)?;
    }
    Ok(())
}

// Puts a goal at the end.
fn append_goal(
    text: &mut Vec<u8>,
    buffer: &mut Buffer,
    spelling: Spelling,
    goal: &Goal,
) -> Result<(), NoMemory>
    ensures { OnOk result (text.new.items ≡ text.old.items ++ after_space (goal_word spelling goal.now)) }
{
    match goal {
        Goal::Row(id) => append_id(text, buffer, spelling, *id),
        Goal::Itself => append(text, b" c"),
        Goal::Objective(number) => append_objective(text, buffer, *number),
        Goal::Strict => append(text, b" s"),
    }
}

// Puts the goal of an objective at the end.
fn append_objective(text: &mut Vec<u8>, buffer: &mut Buffer, number: u32) -> Result<(), NoMemory>
    ensures { OnOk result
        (text.new.items ≡ text.old.items ++ (codes " o" ++ decimal number)) }
{
    append(text, b" o")?;
    append(text, buffer.format(number).as_bytes())
}

// Puts how a goal is proved at the end.
fn append_proof(
    text: &mut Vec<u8>,
    buffer: &mut Buffer,
    spelling: Spelling,
    proof: &GoalProof,
) -> Result<(), NoMemory>
    ensures { OnOk result
        (text.new.items ≡ text.old.items ++ after_spaces (proof_words spelling proof.now)) }
{
    match proof {
        GoalProof::Rup(hints) => {
            append(text, b" rup")?;
            append_hints(text, buffer, spelling, hints.as_slice())
        }
        GoalProof::Pol(tokens) => {
            append(text, b" pol")?;
            append_tokens(text, buffer, spelling, tokens.as_slice())
        }
    }
}

// Puts goals with their proofs at the end.
pub(crate) fn append_goals(
    text: &mut Vec<u8>,
    buffer: &mut Buffer,
    spelling: Spelling,
    proofs: &[(Goal, GoalProof)],
) -> Result<(), NoMemory>
    ensures { OnOk result
        (text.new.items ≡ text.old.items ++ after_spaces (flat_map (goal_words spelling) proofs.now)) }
{
    for proved in proofs {
        append(text, b" :")?;
        append_goal(text, buffer, spelling, &proved.0)?;
        append_proof(text, buffer, spelling, &proved.1)?;
    }
    Ok(())
}
