// The lines of a text, from first to last.
ghost use Rattle.std.specs.Prelude.{◌≡◌, ◌==◌, [], ◌∷◌, MatchOption, ◌+◌, ◌<◌, ◌≤◌, take, drop, length};
ghost use Rattle.std.specs.List.{position_or_len};
ghost use Rattle.std.specs.Str.Lines.{strip_carriage_return};
ghost use Rattle.mcnf_reader.specs.Words.{lines_of};

use std::marker::Model;

/// The lines of a text that were not taken yet. Contracts see it as their list.
#[derive(Drop)]
pub struct Lines<'a> {
    rest: &'a [u8],
    ended: bool,
}

impl<'a> Model for Lines<'a> {
    ghost use Rattle.std.specs.Prelude.{List, ℕ, [], if◌then◌else◌};
    ghost use Rattle.mcnf_reader.specs.Words.{lines_of};

    ghost Value = { List (List ℕ) };

    ghost view = { λ t. if t.ended then [] else lines_of t.rest.now };
}

impl<'a> Lines<'a> {
    /// All lines of a text.
    pub fn new(text: &'a [u8]) -> Lines<'a>
        ensures { result ≡ lines_of text.entry.now }
    {
        Lines {
            rest: text,
            ended: false,
        }
    }

    /// Takes the next line.
    pub fn next(&mut self) -> Option<&'a [u8]>
        ensures { MatchOption result ((self.old ≡ []) × (self.new ≡ []))
            (λ line. self.old ≡ line.now ∷ self.new) }
    {
        if self.ended {
            return None;
        }
        let text = self.rest;
        let end = line_len(text);
        let line = line_at(text, end);
        if end < text.len() {
            self.rest = after(text, end);
            return Some(line);
        }
        self.ended = true;
        Some(line)
    }
}

// The line that ends at a place.
fn line_at(text: &[u8], end: usize) -> &[u8]
    requires { end ≤ length text.now }
    ensures { result.now ≡ strip_carriage_return (take end text.entry.now) }
{
    without_return(&text[..end])
}

// What follows a place.
fn after(text: &[u8], end: usize) -> &[u8]
    requires { end < length text.now }
    ensures { result.now ≡ drop (end + 1) text.entry.now }
{
    &text[end + 1..]
}

// How many bytes stand before the first line feed.
fn line_len(text: &[u8]) -> usize
    ensures value { result ≡ position_or_len (λ b. b == 10) text.now }
    ensures within { result ≤ length text.now }
{
    text.iter().position(|b| *b == b'\n').unwrap_or(text.len())
}

// The line without the one carriage return at its end, if it has one.
fn without_return(line: &[u8]) -> &[u8]
    ensures { result.now ≡ strip_carriage_return line.entry.now }
{
    match line {
        [prefix @ .., b'\r'] => prefix,
        _ => line,
    }
}
