// The words of a text, from left to right.
ghost use Rattle.std.specs.Prelude.{◌≡◌, ◌≢◌, ◌≤◌, ◌↔◌, [], ◌∷◌, ◌++◌, length, codes};
ghost use Rattle.std.specs.Prelude.{IfOk, IsTrue, MatchOption, map};
ghost use Rattle.std.specs.List.{All, flat_map, position_or_len};
ghost use Rattle.std.specs.Option.{option_copied};
ghost use Rattle.scut_base.specs.Bytes.{space};
ghost use Rattle.pb_lin.specs.Constraint.{ones};
ghost use Rattle.proof_laws.specs.WellFormed.{IsHint, IsId, IsVariable};
ghost use Rattle.proof_lines.specs.declared.spelling.Spelling.TheVariants.{Plain};
ghost use Rattle.proof_lines.specs.Ids.{IsSpelling, id_word};
ghost use Rattle.proof_lines.specs.LineText.{hint_word, literal_word};
ghost use Rattle.proof_lines.specs.Reading.{AreTerms, BeginsWith, EndsPart, Skips, is_space, last_variable};
ghost use Rattle.proof_lines.specs.Reading.{term_words, words_left, words_of};

use crate::Spelling;
use crate::short::{cut_id, cut_literal, hints_from_start, rest_from, units_from_start};
use hint_rup::Hint;
use scut_base::{Items, Lit, NoMemory};
use std::alloc::Global;
use std::marker::Model;

// How many bytes a short word has, with its space.
const WORD_LEN: usize = 3;

// A longer list grows.
const MAX_ROOM: usize = 64;

/// The words of a text that were not taken yet, with one space between each two. Contracts see it
/// as their list. Each call finds the next space, so no list is made.
#[derive(Drop)]
pub(crate) struct Words<'a> {
    // `None` once the last word is taken: after a space there is a word still, maybe the empty one.
    rest: Option<&'a [u8]>,
}

impl<'a> Model for Words<'a> {
    ghost use Rattle.std.specs.Prelude.{List, ℕ};
    ghost use Rattle.std.specs.Option.{option_copied};
    ghost use Rattle.proof_lines.specs.Reading.{words_left};

    ghost Value = { List (List ℕ) };

    ghost view = { λ w. words_left (option_copied w.rest) };
}

impl<'a> Words<'a> {
    /// All words of a text. The empty text is one empty word.
    pub(crate) fn new(text: &'a [u8]) -> Words<'a>
        ensures { result ≡ words_of text.entry.now }
    {
        Words { rest: Some(text) }
    }

    /// Whether no word is left.
    pub(crate) fn is_at_end(&self) -> bool
        ensures { IsTrue result ↔ (self.now ≡ []) }
    {
        self.rest.is_none()
    }

    // Whether the next word is this letter.
    fn is_next(&self, letter: u8) -> bool
        requires { letter ≢ space }
        ensures { IsTrue result ↔ BeginsWith (letter ∷ []) self.now }
    {
        match self.rest {
            Some(text) => begins_with(text, letter),
            None => false,
        }
    }

    /// Takes the next word.
    pub(crate) fn next(&mut self) -> Option<&'a [u8]>
        ensures { MatchOption result ((self.old ≡ []) × (self.new ≡ []))
            (λ word. self.old ≡ word.now ∷ self.new) }
    {
        match self.rest {
            Some(text) => {
                let (word, rest) = cut_word(text);
                self.rest = rest;
                Some(word)
            }
            None => None,
        }
    }

    /// Takes the next word where it is this letter, and else nothing.
    pub(crate) fn skip(&mut self, letter: u8) -> bool
        requires { letter ≢ space }
        ensures { Skips (letter ∷ []) self.old self.new result }
    {
        if !self.is_next(letter) {
            return false;
        }
        self.next();
        true
    }

    /// Takes the next word where it is an id of few digits, and else nothing.
    pub(crate) fn short_id(&mut self, spelling: Spelling) -> Option<u64>
        requires { IsSpelling spelling }
        ensures { MatchOption result (self.new ≡ self.old)
            (λ id. IsId id × (self.old ≡ id_word spelling id ∷ self.new)) }
    {
        let (id, rest) = cut_id(spelling, self.rest?)?;
        self.rest = rest;
        Some(id)
    }

    /// Takes the next word where it is a literal of few digits, and else nothing.
    pub(crate) fn short_literal(&mut self) -> Option<Lit>
        ensures { MatchOption result (self.new ≡ self.old)
            (λ l. IsVariable l.var × (self.old ≡ literal_word l ∷ self.new)) }
    {
        let Some((lit, rest)) = cut_literal(self.rest?) else {
            return None;
        };
        self.rest = rest;
        Some(lit)
    }

    /// Takes words while they are the digits of ids, few of them: their hints.
    pub(crate) fn plain_hints(&mut self, alloc: Global) -> Result<Items<Hint>, NoMemory>
        ensures { IfOk result (λ hints. All IsHint hints
            × (self.old ≡ map (hint_word Plain) hints ++ self.new)) }
    {
        let Some(text) = self.rest else {
            return Ok(Items::new(alloc));
        };
        let (hints, at) = hints_from_start(alloc, self.room(), text)?;
        self.rest = rest_from(text, at);
        Ok(hints)
    }

    /// Takes terms while their coefficient is 1, their literals have few digits and their variables rise:
    /// these literals, and the last variable.
    pub(crate) fn short_units(&mut self, alloc: Global) -> Result<(Items<Lit>, u64), NoMemory>
        ensures { IfOk result (λ units. AreTerms (ones units.0)
            × (units.1 ≡ last_variable (ones units.0))
            × (self.old ≡ flat_map term_words (ones units.0) ++ self.new)) }
    {
        let Some(text) = self.rest else {
            return Ok((Items::new(alloc), 0));
        };
        let (units, at) = units_from_start(alloc, text)?;
        self.rest = rest_from(text, at);
        Ok(units)
    }

    /// Whether a part of a line ends here.
    pub(crate) fn ends_part(&self) -> bool
        ensures { IsTrue result ↔ EndsPart self.now }
    {
        self.is_at_end() || self.is_next(b':')
    }

    /// Room for the words that are left, as a guess.
    pub(crate) fn room(&self) -> usize {
        match self.rest {
            Some(text) => (text.len() / WORD_LEN).min(MAX_ROOM),
            None => 0,
        }
    }

    /// Takes the next word of a part of a line, which ends before a `:` and where no word is left.
    pub(crate) fn next_in_part(&mut self) -> Option<&'a [u8]>
        ensures { MatchOption result ((self.new ≡ self.old) × EndsPart self.old)
            (λ word. (self.old ≡ word.now ∷ self.new) × (word.now ≢ codes ":")) }
    {
        if self.is_next(b':') {
            return None;
        }
        self.next()
    }
}

// The word that a text begins with, and what follows the space after it.
fn cut_word(text: &[u8]) -> (&[u8], Option<&[u8]>)
    ensures { words_of text.entry.now ≡ result.0.now ∷ words_left (option_copied result.1) }
{
    let end = word_len(text);
    if end < text.len() {
        (&text[..end], Some(&text[end + 1..]))
    } else {
        (text, None)
    }
}

// How many bytes stand before the first space.
fn word_len(text: &[u8]) -> usize
    ensures value { result ≡ position_or_len is_space text.now }
    ensures within { result ≤ length text.now }
{
    text.iter().position(|b| *b == b' ').unwrap_or(text.len())
}

// Whether the first word of a text is this letter.
fn begins_with(text: &[u8], letter: u8) -> bool
    requires { letter ≢ space }
    ensures { IsTrue result ↔ BeginsWith (letter ∷ []) (words_of text.now) }
{
    match text {
        [first] => *first == letter,
        [first, second, ..] => *first == letter && *second == b' ',
        [] => false,
    }
}
