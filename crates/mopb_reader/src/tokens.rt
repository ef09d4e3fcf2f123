// The tokens of a text, from first to last.
ghost use Rattle.std.specs.Prelude.{◌≡◌, ◌<◌, ◌^◌, length};
ghost use Rattle.mopb_reader.specs.Tokens.{lines_of, numbered_tokens, plain};
ghost use Rattle.mopb_reader.specs.Streams.{IsTaken, IsSoundTaken, ahead};

use crate::cut::cut_token;
use crate::lines::{first_line, skip_blanks};
use crate::token::Token;
use std::marker::Model;

/// The tokens of a text that were not taken yet. Contracts see it as their list, with lines. It
/// keeps the number of the line that it stands in.
#[derive(Drop)]
pub struct Tokens<'a> {
    line: &'a [u8],
    rest: Option<&'a [u8]>,
    number: u64,
}

impl<'a> Model for Tokens<'a> {
    ghost use Rattle.std.specs.Prelude.{◌+◌, ◌<◌, ◌≤◌, ◌^◌, option_map};
    ghost use Rattle.mopb_reader.specs.Cuts.{rest_size, BeginsNoBlank};
    ghost use Rattle.mopb_reader.specs.Streams.{Stream, stream_from};

    ghost Value = { Stream };

    ghost view = { λ t. stream_from t.number t.line.now (option_map (λ r. r.now) t.rest) };

    ghost invariant = { λ t. BeginsNoBlank t.line.now
        × (t.number + rest_size (option_map (λ r. r.now) t.rest) ≤ 2 ^ 32) };
}

impl<'a> Tokens<'a> {
    /// All tokens of a text.
    pub fn new(text: &'a [u8]) -> Tokens<'a>
        requires { length text.now < 2 ^ 32 }
        ensures left { result.left ≡ numbered_tokens 1 (lines_of text.entry.now) }
        ensures last { result.last ≡ length (lines_of text.entry.now) }
    {
        let (line, rest) = first_line(text);
        Tokens {
            line,
            rest,
            number: 1,
        }
    }

    /// The line of the token that was taken last, or the last line where all were taken.
    pub fn line(&self) -> u64
        ensures { result ≡ self.now.line }
    {
        self.number
    }

    /// Takes the next token.
    pub fn next(&mut self) -> Option<Token>
        ensures taken { IsTaken result self.new self.old }
        ensures left { plain self.old.left ≡ ahead result self.new }
        ensures last { self.new.last ≡ self.old.last }
        ensures sound { IsSoundTaken result }
    {
        while self.line.is_empty() {
            match self.rest {
                None => return None,
                Some(text) => {
                    let (line, rest) = first_line(text);
                    self.line = line;
                    self.rest = rest;
                    self.number += 1;
                }
            }
        }
        let (token, after) = cut_token(self.line);
        self.line = skip_blanks(after);
        Some(token)
    }
}
