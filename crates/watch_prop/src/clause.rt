// The literals of a clause, as they lie among the words of all clauses.
ghost use Rattle.std.specs.Prelude.{◌≡◌, ℕ, ◌<◌, length, map, slice_index_or, Contains};
ghost use Rattle.scut_base.specs.LiteralCode.{literal_of};
ghost use Rattle.watch_prop.specs.Watching.{no_literal};
ghost use Rattle.watch_prop.specs.Codes.{AreCodes};

use crate::short_lit::ShortLit;
use std::marker::Model;

/// The literals of a clause, lent. Contracts see the list of them.
#[derive(Debug, Drop)]
pub struct Clause<'a> {
    words: &'a [u32],
}

impl<'a> Model for Clause<'a> {
    ghost use Rattle.std.specs.Prelude.{List, map};
    ghost use Rattle.scut_base.specs.Literal.{Literal};
    ghost use Rattle.scut_base.specs.LiteralCode.{literal_of};
    ghost use Rattle.watch_prop.specs.Codes.{AreCodes};

    ghost Value = { List Literal };

    ghost view = { λ c. map literal_of c.words.now };

    ghost invariant = { λ c. AreCodes c.words.now };
}

impl<'a> Clause<'a> {
    /// The clause of these words.
    pub fn new(words: &'a [u32]) -> Clause<'a>
        requires { AreCodes words.now }
        ensures { result ≡ map literal_of words.now }
    {
        Clause { words }
    }

    /// The number of literals.
    pub fn len(&self) -> usize
        ensures { result ≡ length self.now }
    {
        self.words.len()
    }

    /// The literal at a place.
    pub fn at(&self, place: usize) -> ShortLit
        requires { place < length self.now }
        ensures value { slice_index_or self.now place no_literal ≡ result }
        ensures among { Contains self.now result }
    {
        let words = self.words;
        ShortLit::of(words[place])
    }
}
