// Tokens of a derivation.
ghost use Rattle.std.specs.Prelude.{◌<◌, ◌^◌, ◌∷◌};
ghost use Rattle.std.specs.List.{flat_map};
ghost use Rattle.std.specs.Fmt.{decimal};
ghost use Rattle.proof_laws.specs.WellFormed.{AreTokens, IsVariable};
ghost use Rattle.proof_lines.specs.declared.spelling.Spelling.{Spelling};
ghost use Rattle.proof_lines.specs.Ids.{IsSpelling};
ghost use Rattle.proof_lines.specs.LineText.{literal_word, token_words};
ghost use Rattle.proof_lines.specs.Reading.{IsSymbol, IsValueOf, ReadsPart, TakesId, TakesToken};
ghost use Rattle.proof_lines.specs.Reading.{symbol_word};

use crate::ids::{id_of, is_back};
use crate::number::{MAX_ID, literal_of, number_of};
use crate::words::Words;
use crate::{LineFault, Spelling};
use cutting_planes::PolToken;
use scut_base::{Items, Lit};
use std::alloc::Global;

/// Takes tokens up to the end of a part, at least one. One pass; takes memory for the tokens.
pub(crate) fn read_tokens(
    alloc: Global,
    spelling: Spelling,
    words: &mut Words<'_>,
) -> Result<Items<PolToken>, LineFault>
    requires { IsSpelling spelling }
    ensures { ReadsPart (flat_map (token_words spelling)) AreTokens words.old words.new result }
{
    let mut tokens = Items::new(alloc);
    while let Some(word) = words.next_in_part() {
        match take_token(spelling, word, words) {
            Some(token) => tokens.push(token)?,
            None => return Err(LineFault::Syntax),
        }
    }
    if tokens.is_empty() {
        return Err(LineFault::Syntax);
    }
    Ok(tokens)
}

// The token that this word begins, and maybe the next word ends.
fn take_token(spelling: Spelling, word: &[u8], words: &mut Words<'_>) -> Option<PolToken>
    requires { IsSpelling spelling }
    ensures { TakesToken spelling (word.now ∷ words.old) words.new result }
{
    if let Some(number) = number_of(word) {
        return take_number(spelling, number, words);
    }
    if let Some(lit) = literal_of(word) {
        return take_literal(lit, words);
    }
    if let Some(token) = symbol_of(word) {
        return Some(token);
    }
    take_back(spelling, word, words)
}

// The token that begins with this number: a factor where `*` or `d` follows, and else an id.
fn take_number(spelling: Spelling, number: u128, words: &mut Words<'_>) -> Option<PolToken>
    requires spelling { IsSpelling spelling }
    requires small { number < 2 ^ 127 }
    ensures { TakesToken spelling (decimal number ∷ words.old) words.new result }
{
    if words.skip(b'*') {
        return Some(PolToken::Mul(number as i128));
    }
    if words.skip(b'd') {
        return Some(PolToken::Div(number as i128));
    }
    if number > u128::from(MAX_ID) {
        return None;
    }
    let id = number as u64;
    if is_back(spelling, id) {
        return None;
    }
    Some(PolToken::Id(id))
}

// The id that a word spells, where no factor's sign follows.
fn take_back(spelling: Spelling, word: &[u8], words: &mut Words<'_>) -> Option<PolToken>
    requires { IsSpelling spelling }
    ensures { TakesId spelling (word.now ∷ words.old) words.new result }
{
    let id = id_of(spelling, word)?;
    if words.skip(b'*') || words.skip(b'd') {
        return None;
    }
    Some(PolToken::Id(id))
}

// The token that begins with this literal: a positive one is weakened where `w` follows.
fn take_literal(lit: Lit, words: &mut Words<'_>) -> Option<PolToken>
    requires { IsVariable lit.var }
    ensures { (spelling : Spelling) → TakesToken spelling (literal_word lit ∷ words.old) words.new result }
{
    if !words.skip(b'w') {
        return Some(PolToken::Axiom(lit));
    }
    if lit.is_neg() {
        return None;
    }
    Some(PolToken::Weaken(lit.var()))
}

// The token that a letter is.
fn symbol_of(word: &[u8]) -> Option<PolToken>
    ensures { IsValueOf symbol_word IsSymbol word.now result }
{
    match word {
        [b'~'] => Some(PolToken::Negated),
        [b'!'] => Some(PolToken::Denied),
        [b'+'] => Some(PolToken::Add),
        [b's'] => Some(PolToken::Saturate),
        _ => None,
    }
}
