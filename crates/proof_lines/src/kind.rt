// The kinds of lines.
ghost use Rattle.std.specs.Prelude.{◌≡◌, ◌↔◌, IsTrue};
ghost use Rattle.proof_lines.specs.Ids.{IsSpelling};
ghost use Rattle.proof_lines.specs.Kinds.{HasRoom, made_by, word_of};
ghost use Rattle.proof_lines.specs.Reading.{IsValueOf};

use crate::Spelling;

// The next id is at most this.
const MAX_NEXT_ID: u64 = 1 << 63;

/// What a line does, by its first word.
#[derive(Clone, Copy)]
pub(crate) enum Kind {
    Pol,
    Rup,
    Learn,
    Def,
    Red,
    Dom,
    Sol,
    Del,
    Reduce,
    End,
}

/// The kind of the lines that begin with a word.
pub(crate) fn kind_of(word: &[u8]) -> Option<Kind>
    ensures { IsValueOf word_of (λ _. Unit {0}) word.now result }
{
    match word {
        b"pol" => Some(Kind::Pol),
        b"rup" => Some(Kind::Rup),
        b"learn" => Some(Kind::Learn),
        b"def" => Some(Kind::Def),
        b"red" => Some(Kind::Red),
        b"dom" => Some(Kind::Dom),
        b"sol" => Some(Kind::Sol),
        b"del" => Some(Kind::Del),
        b"reduce" => Some(Kind::Reduce),
        b"end" => Some(Kind::End),
        _ => None,
    }
}

/// Whether the ids that a line of this kind makes are below 2^63, where ids are counted.
pub(crate) fn has_room(spelling: Spelling, kind: Kind) -> bool
    requires { IsSpelling spelling }
    ensures { IsTrue result ↔ HasRoom spelling kind }
{
    match spelling {
        Spelling::Plain => true,
        Spelling::Relative { next_id, .. } => next_id + made_by(kind) <= MAX_NEXT_ID,
    }
}

// How many ids a line of this kind makes.
fn made_by(kind: Kind) -> u64
    ensures { result ≡ made_by kind }
{
    match kind {
        Kind::Def => 2,
        Kind::Del | Kind::Reduce | Kind::End => 0,
        _ => 1,
    }
}
