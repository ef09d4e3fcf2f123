// Numbers, ids and literals that are a word of a text, the first or the one at a place, in one pass over
// that word. Those of more than 18 digits are left to the readers of whole words, and so are 0 and what
// is none of these. A place in one text is kept in a register, where what is left of it takes three.
ghost use Rattle.std.specs.Prelude.{◌≡◌, ◌<◌, ◌≤◌, ◌+◌, ◌^◌, ◌↔◌, ◌∷◌, ◌++◌, length, map, slice_index};
ghost use Rattle.std.specs.Prelude.{IfOk, IfSome, IsTrue, MatchBool};
ghost use Rattle.std.specs.Option.{option_copied};
ghost use Rattle.std.specs.Fmt.{decimal};
ghost use Rattle.std.specs.Int.{IsInRange};
ghost use Rattle.std.specs.List.{All, flat_map};
ghost use Rattle.pb_lin.specs.Constraint.{ones};
ghost use Rattle.proof_laws.specs.WellFormed.{IsHint, IsId, IsVariable};
ghost use Rattle.proof_lines.specs.declared.spelling.Spelling.TheVariants.{Plain, Relative};
ghost use Rattle.proof_lines.specs.Ids.{IsSpelling, id_word};
ghost use Rattle.proof_lines.specs.LineText.{hint_word, literal_word, variable_word};
ghost use Rattle.proof_lines.specs.Reading.{AreTerms, IsLeading, last_variable, term_words};
ghost use Rattle.proof_lines.specs.Reading.{words_from, words_left, words_of};

use crate::Spelling;
use crate::ids::{id_before, is_made};
use hint_rup::Hint;
use scut_base::{Items, Lit, NoMemory};
use std::alloc::Global;

// Any number of so many digits is an id.
const SHORT_DIGITS: usize = 18;

// How many literals of a constraint have room before their list grows.
const UNITS_ROOM: usize = 16;

/// The id, and what follows the space after it.
pub(crate) fn cut_id(spelling: Spelling, text: &[u8]) -> Option<(u64, Option<&[u8]>)>
    requires { IsSpelling spelling }
    ensures { IfSome result (λ cut. IsId cut.0
        × (words_of text.now ≡ id_word spelling cut.0 ∷ words_left (option_copied cut.1))) }
{
    match spelling {
        Spelling::Plain => cut_number(text),
        Spelling::Relative { rows, next_id } => cut_relative(rows, next_id, text),
    }
}

// The same where ids are counted back.
fn cut_relative(rows: u64, next_id: u64, text: &[u8]) -> Option<(u64, Option<&[u8]>)>
    requires { next_id ≤ 2 ^ 63 }
    ensures { IfSome result (λ cut. IsId cut.0 × (words_of text.now
        ≡ id_word (Relative rows next_id) cut.0 ∷ words_left (option_copied cut.1))) }
{
    if let [b'-', digits @ ..] = text {
        let (distance, rest) = cut_number(digits)?;
        let id = id_before(rows, next_id, distance)?;
        return Some((id, rest));
    }
    let (plain, left) = cut_number(text)?;
    if is_made(rows, next_id, plain) {
        return None;
    }
    Some((plain, left))
}

/// The literal, and what follows the space after it.
pub(crate) fn cut_literal(text: &[u8]) -> Option<(Lit, Option<&[u8]>)>
    ensures { IfSome result (λ cut. IsVariable cut.0.var
        × (words_of text.now ≡ literal_word cut.0 ∷ words_left (option_copied cut.1))) }
{
    let (lit, next) = literal_at(text, 0)?;
    Some((lit, rest_from(text, next)))
}

/// The number, and what follows the space after it.
pub(crate) fn cut_number(text: &[u8]) -> Option<(u64, Option<&[u8]>)>
    ensures { IfSome result (λ cut. (cut.0 < 10 ^ 18)
        × (words_of text.now ≡ decimal cut.0 ∷ words_left (option_copied cut.1))) }
{
    let (number, next) = number_at(text, 0)?;
    Some((number, rest_from(text, next)))
}

/// What stands from a place on, or nothing past the end of the text.
pub(crate) fn rest_from(text: &[u8], at: usize) -> Option<&[u8]>
    ensures { words_left (option_copied result) ≡ words_from text.now at }
{
    if at > text.len() {
        return None;
    }
    Some(&text[at..])
}

/// The hints that the words of a text are while these are the digits of ids, and the place after them.
pub(crate) fn hints_from_start(
    alloc: Global,
    room: usize,
    text: &[u8],
) -> Result<(Items<Hint>, usize), NoMemory>
    ensures { IfOk result (λ read. All IsHint read.0
        × (words_of text.now ≡ map (hint_word Plain) read.0 ++ words_from text.now read.1)) }
{
    let mut hints = Items::with_capacity(alloc, room)?;
    let mut at = 0;
    while at <= text.len() {
        let Some((id, next)) = number_at(text, at) else {
            break;
        };
        hints.push(Hint::Id(id))?;
        at = next;
    }
    Ok((hints, at))
}

/// The literals of the terms with which a text begins, while their coefficient is 1 and their variables
/// rise, with the last variable, and the place after them.
pub(crate) fn units_from_start(
    alloc: Global,
    text: &[u8],
) -> Result<((Items<Lit>, u64), usize), NoMemory>
    ensures { IfOk result (λ read. AreTerms (ones read.0.0)
        × (read.0.1 ≡ last_variable (ones read.0.0))
        × (words_of text.now ≡ flat_map term_words (ones read.0.0) ++ words_from text.now read.1)) }
{
    let mut lits = Items::with_capacity(alloc, UNITS_ROOM)?;
    let mut last = 0;
    let mut at = 0;
    while at <= text.len() {
        let Some((lit, next)) = unit_at(text, at) else {
            break;
        };
        if lit.var() <= last {
            break;
        }
        // Tells that their number is small.
        let _len = lits.len();
        lits.push(lit)?;
        last = lit.var();
        at = next;
    }
    Ok(((lits, last), at))
}

// The literal of a term whose coefficient is 1, and the place after the space that follows it.
fn unit_at(text: &[u8], at: usize) -> Option<(Lit, usize)>
    requires { at ≤ length text.now }
    ensures { IfSome result (λ read. IsVariable read.0.var
        × (words_from text.now at ≡ term_words (read.0, 1) ++ words_from text.now read.1)) }
{
    match &text[at..] {
        [b'1', b' ', ..] => literal_at(text, at + 2),
        _ => None,
    }
}

// The literal, and the place after the space that follows it.
fn literal_at(text: &[u8], at: usize) -> Option<(Lit, usize)>
    requires { at ≤ length text.now }
    ensures { IfSome result (λ read. IsVariable read.0.var
        × (words_from text.now at ≡ literal_word read.0 ∷ words_from text.now read.1)) }
{
    let (negated, start) = after_tilde(text, at);
    let (var, next) = variable_at(text, start)?;
    Some((Lit::new(var, negated), next))
}

// Whether `~` stands at a place, and the place after it, or else the place.
fn after_tilde(text: &[u8], at: usize) -> (bool, usize)
    requires { at ≤ length text.now }
    ensures within { result.1 ≤ length text.now }
    ensures place { MatchBool result.0
        ((at < length text.now) × (slice_index text.now at ≡ 126) × (result.1 ≡ at + 1))
        (result.1 ≡ at) }
{
    if begins_at(text, at, b'~') {
        (true, at + 1)
    } else {
        (false, at)
    }
}

// The variable, and the place after the space that follows it.
fn variable_at(text: &[u8], at: usize) -> Option<(u64, usize)>
    requires { at ≤ length text.now }
    ensures { IfSome result (λ read. IsVariable read.0
        × (words_from text.now at ≡ variable_word read.0 ∷ words_from text.now read.1)) }
{
    if !begins_at(text, at, b'x') {
        return None;
    }
    number_at(text, at + 1)
}

// Whether this byte stands at a place.
fn begins_at(text: &[u8], at: usize, byte: u8) -> bool
    ensures { IsTrue result ↔ (at < length text.now) × (slice_index text.now at ≡ byte) }
{
    at < text.len() && text[at] == byte
}

// The number, which isn't 0, and the place after the space that follows it.
fn number_at(text: &[u8], at: usize) -> Option<(u64, usize)>
    requires { at ≤ length text.now }
    ensures { IfSome result (λ read. (0 < read.0) × (read.0 < 10 ^ 18)
        × (words_from text.now at ≡ decimal read.0 ∷ words_from text.now read.1)) }
{
    let rest = &text[at..];
    let [b'1'..=b'9', ..] = rest else {
        return None;
    };
    let (number, len) = leading_digits(rest);
    match &rest[len..] {
        [] => Some((number, at + len + 1)),
        [b' ', ..] => Some((number, at + len + 1)),
        _ => None,
    }
}

// The number of the digits that a text begins with, 18 at most, and how many they are.
fn leading_digits(text: &[u8]) -> (u64, usize)
    requires { IsInRange 49 57 (slice_index text.now 0) }
    ensures leading { IsLeading text.now result.0 result.1 }
    ensures positive { 0 < result.0 }
    ensures some { 0 < result.1 }
{
    let mut number = u64::from(text[0] - b'0');
    let most = text.len().min(SHORT_DIGITS);
    for len in 1..most {
        let byte = text[len];
        if !byte.is_ascii_digit() {
            return (number, len);
        }
        number = number * 10 + u64::from(byte - b'0');
    }
    (number, most)
}
