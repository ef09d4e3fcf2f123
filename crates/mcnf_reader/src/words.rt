// The words of a line, from left to right.
ghost use Rattle.std.specs.Prelude.{◌≡◌, [], ◌∷◌, MatchOption, not, ◌<◌, ◌≤◌, length};
ghost use Rattle.std.specs.List.{position_or_len};
ghost use Rattle.mcnf_reader.specs.Words.{is_blank, words_of};

use std::marker::Model;

/// The words of a line that were not taken yet. Contracts see it as their list.
#[derive(Drop)]
pub struct Words<'a> {
    rest: &'a [u8],
}

impl<'a> Model for Words<'a> {
    ghost use Rattle.std.specs.Prelude.{List, ℕ};
    ghost use Rattle.mcnf_reader.specs.Words.{words_of};

    ghost Value = { List (List ℕ) };

    ghost view = { λ w. words_of w.rest.now };
}

impl<'a> Words<'a> {
    /// All words of a line.
    pub fn new(line: &'a [u8]) -> Words<'a>
        ensures { result ≡ words_of line.entry.now }
    {
        Words { rest: line }
    }

    /// Takes the next word. No word is empty.
    pub fn next(&mut self) -> Option<&'a [u8]>
        ensures { MatchOption result ((self.old ≡ []) × (self.new ≡ []))
            (λ word. self.old ≡ word.now ∷ self.new) }
    {
        let text = skip_blanks(self.rest);
        if text.is_empty() {
            self.rest = text;
            return None;
        }
        let (word, rest) = cut_word(text);
        self.rest = rest;
        Some(word)
    }
}

// The line from its first word on.
fn skip_blanks(line: &[u8]) -> &[u8]
    ensures same { words_of result.now ≡ words_of line.entry.now }
    ensures at_word { 0 < length result.now → 0 < position_or_len is_blank result.now }
{
    let start = blanks_before(line);
    &line[start..]
}

// The word that a text begins with, and what follows it.
fn cut_word(text: &[u8]) -> (&[u8], &[u8])
    requires { 0 < position_or_len is_blank text.now }
    ensures { words_of text.entry.now ≡ result.0.now ∷ words_of result.1.now }
{
    let end = word_len(text);
    (&text[..end], &text[end..])
}

// How many blanks a text begins with.
fn blanks_before(text: &[u8]) -> usize
    ensures value { result ≡ position_or_len (λ b. not (is_blank b)) text.now }
    ensures within { result ≤ length text.now }
{
    text.iter()
        .position(|b| !is_blank(*b))
        .unwrap_or(text.len())
}

// How many bytes stand before the first blank.
fn word_len(text: &[u8]) -> usize
    ensures value { result ≡ position_or_len is_blank text.now }
    ensures within { result ≤ length text.now }
{
    text.iter().position(|b| is_blank(*b)).unwrap_or(text.len())
}

// Whether a byte parts words.
fn is_blank(byte: u8) -> bool
    ensures { result ≡ is_blank byte }
{
    byte == b' ' || byte == b'\t'
}
