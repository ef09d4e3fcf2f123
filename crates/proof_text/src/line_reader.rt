// The reader of a log, piece by piece.
ghost use Rattle.std.specs.Prelude.{◌≡◌, ◌++◌, ◌+◌, ◌⊎◌, [], ℕ, List, None, Some, IsOk, IfOk, OnOk, OnErr, IfSome, Ok, Err};
ghost use Rattle.proof_laws.specs.declared.line.Line.{Line};
ghost use Rattle.proof_text.specs.LogText.{IsSyntaxAt, IsUnfinishedAt, IsWhole, newlines};
ghost use Rattle.proof_text.specs.Reading.{StandsFor, GivesNext};
ghost use Rattle.proof_text.specs.Cutting.{IsLineOf};

use crate::TextFault;
use crate::line_feeds::{count_line_feeds, ends_whole};
use crate::opening::{Opening, opening_of};
use crate::pending::Pending;
use crate::version::after_line;
use proof_laws::Line;
use proof_lines::{LineFault, Spelling, read_line};
use scut_base::NoMemory;
use std::alloc::Global;
use std::marker::Model;

/// Reads a log of either version that comes in pieces. It keeps the bytes of lines that aren't given yet, before the
/// header is whole those of the header alone. How the bytes were cut changes no answer.
#[derive(Debug, Drop)]
pub struct LineReader {
    alloc: Global,
    pending: Pending,
    // How many lines were given.
    given: u64,
    // How the next line spells its ids, where the header was there. Before that no more than a part of
    // one is pending.
    begun: Option<Spelling>,
    // The line that was wrong. Nothing is pending then.
    wrong: Option<u64>,
}

impl Model for LineReader {
    ghost use Rattle.proof_text.specs.Reading.{KeepsHeader, ReaderValue};

    ghost Value = { ReaderValue };

    ghost view = { λ r. record {
      given = r.given;
      begun = r.begun;
      rest = r.pending;
      wrong = r.wrong;
    } };

    ghost invariant = { λ r. KeepsHeader r.begun r.pending };
}

impl LineReader {
    /// A reader to which nothing was fed. Takes no memory yet.
    pub fn new(alloc: Global) -> LineReader
        ensures { StandsFor result [] [] }
    {
        LineReader {
            alloc,
            pending: Pending::new(alloc),
            given: 0,
            begun: None,
            wrong: None,
        }
    }

    /// Takes a piece after the bytes that were fed. After `NoMemory` nothing has changed. Costs the
    /// piece, on average over all pieces; nothing is kept of bytes after a first line that is wrong.
    pub fn feed(&mut self, piece: &[u8]) -> Result<(), NoMemory>
        ensures fed { OnOk result ((bytes : List ℕ) (lines : List Line)
            → StandsFor self.old bytes lines → StandsFor self.new (bytes ++ piece.now) lines) }
        ensures same { OnErr result (self.new ≡ self.old) }
    {
        if self.wrong.is_some() {
            return Ok(());
        }
        if self.begun.is_some() {
            return self.pending.extend(piece);
        }
        self.feed_opening(piece)
    }

    // The same where the header wasn't there.
    fn feed_opening(&mut self, piece: &[u8]) -> Result<(), NoMemory>
        requires sound { self.old.wrong ≡ None }
        requires begun { self.old.begun ≡ None }
        ensures fed { OnOk result ((bytes : List ℕ) (lines : List Line)
            → StandsFor self.old bytes lines → StandsFor self.new (bytes ++ piece.now) lines) }
        ensures same { OnErr result (self.new ≡ self.old) }
    {
        self.pending.extend(piece)?;
        match opening_of(self.pending.as_slice()) {
            Opening::Missing => {}
            Opening::There { first, len } => {
                self.pending.skip_line(len);
                self.begun = Some(first);
            }
            Opening::Wrong => {
                self.pending.forget();
                self.wrong = Some(1);
            }
        }
        Ok(())
    }

    /// The next line, or none where no further whole line was fed. `Syntax` where the next whole line
    /// is wrong, or the bytes go on otherwise than a header does, and the same again after it;
    /// `NoMemory` where memory was refused, or the number of the line passes 2^64 - 1, and then nothing
    /// has changed. Costs the line.
    pub fn next_line(&mut self) -> Result<Option<Line>, TextFault>
        ensures next { IfOk result (λ line. (bytes : List ℕ) (lines : List Line)
            → StandsFor self.old bytes lines → GivesNext self.new bytes lines line) }
        ensures syntax { (k : ℕ) → result ≡ Err (TextFault.Syntax k)
            → (bytes : List ℕ) (lines : List Line)
            → StandsFor self.old bytes lines → IsSyntaxAt bytes k × StandsFor self.new bytes lines }
        ensures wrong { (k : ℕ) → result ≡ Err (TextFault.Syntax k) → self.new.wrong ≡ Some k }
        ensures again { (k : ℕ) → self.old.wrong ≡ Some k → result ≡ Err (TextFault.Syntax k) }
        ensures same { result ≡ Err TextFault.NoMemory → self.new ≡ self.old }
    {
        if let Some(line) = self.wrong {
            return Err(TextFault::Syntax { line });
        }
        let Some(spelling) = self.begun else {
            return Ok(None);
        };
        match self.pending.line_len() {
            Some(len) => self.take_line(spelling, len),
            None => Ok(None),
        }
    }

    // The next line, of so many bytes, which spells its ids so.
    fn take_line(&mut self, spelling: Spelling, len: usize) -> Result<Option<Line>, TextFault>
        requires sound { self.old.wrong ≡ None }
        requires begun { self.old.begun ≡ Some spelling }
        requires line { IsLineOf self.old.rest len }
        ensures next { IfOk result (λ line. (bytes : List ℕ) (lines : List Line)
            → StandsFor self.old bytes lines → GivesNext self.new bytes lines line) }
        ensures syntax { (k : ℕ) → result ≡ Err (TextFault.Syntax k)
            → (bytes : List ℕ) (lines : List Line)
            → StandsFor self.old bytes lines → IsSyntaxAt bytes k × StandsFor self.new bytes lines }
        ensures wrong { (k : ℕ) → result ≡ Err (TextFault.Syntax k) → self.new.wrong ≡ Some k }
        ensures same { result ≡ Err TextFault.NoMemory → self.new ≡ self.old }
    {
        let number = match self.given.checked_add(2) {
            Some(number) => number,
            None => return Err(TextFault::NoMemory),
        };
        match read_line(self.alloc, spelling, &self.pending.as_slice()[..len]) {
            Ok(line) => {
                self.pending.skip_line(len);
                self.given += 1;
                self.begun = Some(after_line(spelling, &line));
                Ok(Some(line))
            }
            Err(LineFault::Syntax) => {
                self.pending.forget();
                self.wrong = Some(number);
                Err(TextFault::Syntax { line: number })
            }
            Err(LineFault::NoMemory) => Err(TextFault::NoMemory),
        }
    }

    /// Whether the bytes that were fed end where a log may end. `Syntax` where no header is whole,
    /// or bytes without a line feed are left, with the number of their line; and the same again where
    /// a line was wrong; `NoMemory` where that number passes 2^64 - 1. It reads no whole line that
    /// isn't given yet, and costs one pass over the bytes that aren't.
    pub fn finish(&self) -> Result<(), TextFault>
        ensures whole { IsOk result → (bytes : List ℕ) (lines : List Line)
            → StandsFor self.now bytes lines → IsWhole bytes }
        ensures syntax { (k : ℕ) → result ≡ Err (TextFault.Syntax k)
            → (bytes : List ℕ) (lines : List Line) → StandsFor self.now bytes lines
            → IsSyntaxAt bytes k ⊎ IsUnfinishedAt bytes k }
        ensures again { (k : ℕ) → self.now.wrong ≡ Some k → result ≡ Err (TextFault.Syntax k) }
    {
        if let Some(line) = self.wrong {
            return Err(TextFault::Syntax { line });
        }
        if self.begun.is_none() {
            return Err(TextFault::Syntax { line: 1 });
        }
        if ends_whole(self.pending.as_slice()) {
            return Ok(());
        }
        match line_after(self.given, self.pending.as_slice()) {
            Some(line) => Err(TextFault::Syntax { line }),
            None => Err(TextFault::NoMemory),
        }
    }
}

// The number of the line in which the bytes end, that follow the header and so many lines.
fn line_after(given: u64, bytes: &[u8]) -> Option<u64>
    ensures { IfSome result (λ line. line ≡ given + newlines bytes.now + 2) }
{
    given
        .checked_add(count_line_feeds(bytes) as u64)?
        .checked_add(2)
}
