// The bytes of a log whose lines aren't given yet.
ghost use Rattle.std.specs.Prelude.{◌≡◌, ◌+◌, ◌++◌, [], drop, MatchOption, OnOk, OnErr};
ghost use Rattle.proof_text.specs.LogText.{IsOneLine};
ghost use Rattle.proof_text.specs.Cutting.{IsLineOf};

use crate::line_feeds::line_len;
use scut_base::NoMemory;
use std::alloc::Global;
use std::marker::Model;

/// Bytes that are put at the end and taken off the front, line by line. No byte is searched twice for
/// a line feed, and each is moved once at most on average: what was taken off is dropped only when it
/// is at least as long as the rest.
#[derive(Debug, Drop)]
pub struct Pending {
    bytes: Vec<u8>,
    // What stands before this place was taken off.
    at: usize,
    // So many bytes from there on were searched, and have no line feed.
    searched: usize,
}

impl Model for Pending {
    ghost use Rattle.std.specs.Prelude.{ℕ, List, drop};
    ghost use Rattle.proof_text.specs.Cutting.{IsSearched};

    ghost Value = { List ℕ };

    ghost view = { λ p. drop p.at p.bytes.items };

    ghost invariant = { λ p. IsSearched p.bytes.items p.at p.searched };
}

impl Pending {
    /// No bytes. Takes no memory yet.
    pub fn new(alloc: Global) -> Pending
        ensures { result ≡ [] }
    {
        Pending {
            bytes: Vec::new(alloc),
            at: 0,
            searched: 0,
        }
    }

    /// The bytes.
    pub fn as_slice(&self) -> &[u8]
        ensures { result.now ≡ self.now }
    {
        &self.bytes[self.at..]
    }

    /// Puts a piece at the end, or nothing after `NoMemory`.
    pub fn extend(&mut self, piece: &[u8]) -> Result<(), NoMemory>
        ensures ok { OnOk result (self.new ≡ self.old ++ piece.now) }
        ensures err { OnErr result (self.new ≡ self.old) }
    {
        self.make_room();
        self.bytes.extend_from_slice(piece)?;
        Ok(())
    }

    // Drops what was taken off, where the rest is no longer.
    fn make_room(&mut self)
        ensures { self.new ≡ self.old }
    {
        let rest = self.bytes.len() - self.at;
        if self.at < rest {
            return;
        }
        self.bytes.copy_within(self.at.., 0);
        self.bytes.truncate(rest);
        self.at = 0;
    }

    /// How many bytes stand before the first line feed; `None` where there is none. Searches only
    /// what wasn't searched yet.
    pub fn line_len(&mut self) -> Option<usize>
        ensures len { MatchOption result (IsOneLine self.old) (IsLineOf self.old) }
        ensures same { self.new ≡ self.old }
    {
        match line_len(&self.bytes[self.at + self.searched..]) {
            Some(more) => {
                self.searched += more;
                Some(self.searched)
            }
            None => {
                self.searched = self.bytes.len() - self.at;
                None
            }
        }
    }

    /// Takes off a line of so many bytes, and its line feed. In constant time.
    pub fn skip_line(&mut self, len: usize)
        requires { IsLineOf self.old len }
        ensures { self.new ≡ drop (len + 1) self.old }
    {
        self.at = self.at + len + 1;
        self.searched = 0;
    }

    /// Takes off all bytes.
    pub fn forget(&mut self)
        ensures { self.new ≡ [] }
    {
        self.bytes.clear();
        self.at = 0;
        self.searched = 0;
    }
}
