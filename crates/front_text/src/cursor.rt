// A text that is read from its first byte to its last.
ghost use Rattle.std.specs.Prelude.{◌≡◌, ◌≤◌, ◌↔◌, [], length, IsTrue};
ghost use Rattle.std.specs.List.{position_or_len};
ghost use Rattle.front_text.specs.Reading.{Skips, IsWord, is_separator};

use std::marker::Model;

/// What is left of a text. Contracts see it as these bytes.
#[derive(Drop)]
pub struct Cursor<'a> {
    rest: &'a [u8],
}

impl<'a> Model for Cursor<'a> {
    ghost use Rattle.std.specs.Prelude.{List, ℕ};

    ghost Value = { List ℕ };

    ghost view = { λ t. t.rest.now };
}

impl<'a> Cursor<'a> {
    /// All of a text.
    pub fn new(text: &'a [u8]) -> Cursor<'a>
        ensures { result ≡ text.entry.now }
    {
        Cursor { rest: text }
    }

    /// Whether nothing is left.
    pub fn is_at_end(&self) -> bool
        ensures { IsTrue result ↔ (self.now ≡ []) }
    {
        self.rest.is_empty()
    }

    /// Takes these bytes where the rest begins with them, and else nothing.
    pub fn skip(&mut self, text: &[u8]) -> bool
        ensures { Skips text.now self.old self.new result }
    {
        match self.rest.strip_prefix(text) {
            Some(rest) => {
                self.rest = rest;
                true
            }
            None => false,
        }
    }

    /// Takes the bytes before the first space or line feed.
    pub fn take_word(&mut self) -> &'a [u8]
        ensures { IsWord result.now self.old self.new }
    {
        let text = self.rest;
        let (word, rest) = text.split_at(word_len(text));
        self.rest = rest;
        word
    }
}

// How many bytes stand before the first space or line feed.
fn word_len(text: &[u8]) -> usize
    ensures value { result ≡ position_or_len is_separator text.now }
    ensures within { result ≤ length text.now }
{
    text.iter()
        .position(|b| *b == b' ' || *b == b'\n')
        .unwrap_or(text.len())
}
