// Why a log isn't read.
use scut_base::NoMemory;
use thiserror::Error;

/// Why a log was not read to its end.
#[derive(Clone, Copy, Debug, PartialEq, Eq, Error)]
pub enum TextFault {
    /// This line, counted from 1, is wrong: it isn't a header, where it is the first, or it is the
    /// text of no line in the log's version, or the bytes end in its midst.
    #[error("a line of the log is wrong")]
    Syntax { line: u64 },
    /// Memory was refused.
    #[error("memory was refused")]
    NoMemory,
}

impl From<NoMemory> for TextFault {
    ghost use Rattle.std.specs.Prelude.{◌≡◌};
    ghost use Rattle.proof_text.specs.declared.fault.TextFault.TheVariants.{NoMemory};

    ghost from_gives = { λ _ e. e ≡ NoMemory };

    fn from(_: NoMemory) -> TextFault {
        TextFault::NoMemory
    }
}
