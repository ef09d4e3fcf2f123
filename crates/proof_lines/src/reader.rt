// The reader of a line.
ghost use Rattle.std.specs.Prelude.{IfOk, IsErrOf};
ghost use Rattle.proof_lines.specs.Ids.{IsSpelling};
ghost use Rattle.proof_lines.specs.LineText.{SpellsLine, SpellsNoLine};

use crate::Spelling;
use crate::body::read_body;
use crate::kind::{has_room, kind_of};
use crate::words::Words;
use proof_laws::Line;
use scut_base::NoMemory;
use std::alloc::Global;
use thiserror::Error;

/// Why a text was not read as a line.
#[derive(Clone, Copy, Debug, PartialEq, Eq, Error)]
pub enum LineFault {
    /// It is the text of no line.
    #[error("the text is that of no line")]
    Syntax,
    /// Memory was refused.
    #[error("memory was refused")]
    NoMemory,
}

impl From<NoMemory> for LineFault {
    ghost use Rattle.std.specs.Prelude.{◌≡◌};
    ghost use Rattle.proof_lines.specs.declared.reader.LineFault.TheVariants.{NoMemory};

    ghost from_gives = { λ _ e. e ≡ NoMemory };

    fn from(_: NoMemory) -> LineFault {
        LineFault::NoMemory
    }
}

/// Reads the line whose text, without its line feed, the bytes are, with its ids as the spelling says;
/// `Syntax` exactly where they are the text of none, or of one that makes an id of 2^63 or more where
/// ids are counted. One pass; takes memory for the line, and for the runs of `del` and `reduce`.
pub fn read_line(alloc: Global, spelling: Spelling, text: &[u8]) -> Result<Line, LineFault>
    requires { IsSpelling spelling }
    ensures spelled { IfOk result (SpellsLine spelling text.now) }
    ensures syntax { IsErrOf result LineFault.Syntax → SpellsNoLine spelling text.now }
{
    let mut words = Words::new(text);
    let Some(word) = words.next() else {
        return Err(LineFault::Syntax);
    };
    let Some(kind) = kind_of(word) else {
        return Err(LineFault::Syntax);
    };
    if !has_room(spelling, kind) {
        return Err(LineFault::Syntax);
    }
    read_body(alloc, spelling, kind, &mut words)
}
