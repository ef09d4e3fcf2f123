// Reading a log file piece by piece.
ghost use Rattle.std.specs.Prelude.{◌≡◌, ◌+◌, ◌<◌, ◌≤◌, ◌^◌, ◌-◌, [], length, vec_len};
ghost use Rattle.std.specs.Prelude.{IfOk, IfErr, IsErrOf, MatchBool, OnOk};
ghost use Rattle.scut_base.specs.Faults.{ReadingFailed};
ghost use Rattle.command_base.specs.Causes.{HasText};
ghost use Rattle.command_base.specs.Feeding.{IsFedSoFar, IsFedWhole, IsTaken};
ghost use Rattle.command_base.specs.Stops.{IsLogStop};
ghost use Rattle.command_base.specs.Views.{OnlyReads};

use crate::LogStop;
use crate::whole_file::{PIECE, zeros};
use proof_laws::Why;
use scut_base::{Shelf, ShelfFault};
use std::alloc::Global;

/// The most bytes that a log may have.
pub const MOST_BYTES: u64 = (1 << 62) - 1;

/// Why a line of a log isn't taken.
#[derive(Clone, Copy, Debug, PartialEq, Eq)]
pub enum LineFault {
    /// This line, counted from 1, is the first that is refused.
    Refused { line: u64, why: Why },
    /// Memory was refused.
    NoMemory,
}

/// Takes the lines of a log that comes in pieces.
pub trait TakesLog {
    ghost use Rattle.std.specs.Prelude.{◌≡◌, ◌++◌, ℕ, List, [], Err, OnOk};
    ghost use Rattle.proof_laws.specs.declared.why.Why.{Why};
    ghost use Rattle.command_base.specs.Taking.{RefusesNone};
    ghost use Rattle.command_base.specs.declared.log_file.LineFault.{LineFault};

    /// What it judges by, which never changes.
    ghost Subject: { Type 0 };

    /// What it judges by.
    ghost subject: { Self → Subject };

    /// A line is the first that is refused, by bytes that are there, whatever follows them.
    ghost whole: { Subject → List ℕ → ℕ → Why → Type 0 };

    /// A line is the first that is wrong with a log.
    ghost every: { Subject → List ℕ → ℕ → Why → Type 0 };

    /// Nothing is wrong with a log.
    ghost passes: { Subject → List ℕ → Type 0 };

    /// It was fed these bytes.
    ghost stands: { Self → List ℕ → Type 0 };

    /// It may be fed more.
    ghost unfinished: { Self → Type 0 };

    /// No bytes hold no line that is refused.
    ghost none: { (s : Subject) → RefusesNone (whole s) [] };

    /// What bytes refuse, more bytes after them refuse.
    ghost further: { (s : Subject) (bytes more : List ℕ) (k : ℕ) (why : Why)
        → whole s bytes k why → whole s (bytes ++ more) k why };

    /// Takes the lines that the next piece makes whole; `Refused` with the first line of all bytes that is refused.
    fn feed(&mut self, piece: &[u8]) -> Result<(), LineFault>
        requires { unfinished self.old }
        ensures subject { subject self.new ≡ subject self.old }
        ensures unfinished { OnOk result (unfinished self.new) }
        ensures stands { OnOk result ((bytes : List ℕ) → stands self.old bytes
            → stands self.new (bytes ++ piece.now)) }
        ensures passed { OnOk result ((bytes : List ℕ) → stands self.old bytes
            → RefusesNone (whole (subject self.old)) (bytes ++ piece.now)) }
        ensures refused { (k : ℕ) (why : Why) → result ≡ Err (LineFault.Refused k why)
            → (bytes : List ℕ) → stands self.old bytes
            → whole (subject self.old) (bytes ++ piece.now) k why };

    /// Takes the end of the log; `Refused` with the first line that is wrong with it.
    fn finish(&mut self) -> Result<(), LineFault>
        requires { unfinished self.old }
        ensures subject { subject self.new ≡ subject self.old }
        ensures stands { OnOk result ((bytes : List ℕ) → stands self.old bytes
            → stands self.new bytes) }
        ensures passes { OnOk result ((bytes : List ℕ) → stands self.old bytes
            → passes (subject self.old) bytes) }
        ensures refused { (k : ℕ) (why : Why) → result ≡ Err (LineFault.Refused k why)
            → (bytes : List ℕ) → stands self.old bytes → every (subject self.old) bytes k why };
}

/// Hands a log file on to what takes its lines and was fed nothing, and reads no further than its first line that is
/// refused. What takes it stands for the whole file then. If a log isn't taken, answers that line, or that the file is too
/// large.
pub fn take_log<T: TakesLog, H: Shelf>(
    alloc: Global,
    taker: &mut T,
    log: &str,
    shelf: &mut H,
) -> Result<(), LogStop>
    requires stands { T.stands taker.old [] }
    requires unfinished { T.unfinished taker.old }
    ensures subject { T.subject taker.new ≡ T.subject taker.old }
    ensures stands { OnOk result (IsTaken (H.world shelf.old).files log.now (T.stands taker.new)) }
    ensures passes { OnOk result (HasText (H.world shelf.old).files log.now (λ bytes.
        (length bytes < 2 ^ 62) × T.passes (T.subject taker.old) bytes)) }
    ensures stop { IfErr result (λ stop. IsLogStop (T.whole (T.subject taker.old))
        (T.every (T.subject taker.old)) log.now stop
        (H.world shelf.old).files (H.world shelf.old).faults (H.world shelf.new).faults) }
    ensures only_reads { OnlyReads (H.world shelf.old) (H.world shelf.new) }
{
    let mut buffer = zeros(alloc, PIECE)?;
    let mut at = 0;
    while at < MOST_BYTES {
        let n = feed_piece(taker, log, at, &mut buffer, shelf)?;
        if n == 0 {
            taker.finish()?;
            return Ok(());
        }
        at += n;
    }
    if has_more(log, at, &mut buffer, shelf)? {
        return Err(LogStop::Large);
    }
    taker.finish()?;
    Ok(())
}

// Reads the piece at this place and hands it on; 0 at the file's end.
fn feed_piece<T: TakesLog, H: Shelf>(
    taker: &mut T,
    log: &str,
    at: u64,
    buffer: &mut Vec<u8>,
    shelf: &mut H,
) -> Result<u64, LogStop>
    requires fed { IsFedSoFar (H.world shelf.old).files log.now (T.stands taker.old)
        (T.whole (T.subject taker.old)) at }
    requires unfinished { T.unfinished taker.old }
    requires room { at < 2 ^ 62 - 1 }
    requires buffer { vec_len buffer.old ≡ 65536 }
    ensures more { IfOk result (λ n. IsFedSoFar (H.world shelf.old).files log.now
        (T.stands taker.new) (T.whole (T.subject taker.old)) (at + n)) }
    ensures unfinished { OnOk result (T.unfinished taker.new) }
    ensures within { IfOk result (λ n. at + n < 2 ^ 62) }
    ensures whole { IfOk result (λ n. n ≡ 0 → IsFedWhole (H.world shelf.old).files log.now
        (T.stands taker.new) (T.whole (T.subject taker.old)) at) }
    ensures stop { IfErr result (λ stop. IsLogStop (T.whole (T.subject taker.old))
        (T.every (T.subject taker.old)) log.now stop
        (H.world shelf.old).files (H.world shelf.old).faults (H.world shelf.new).faults) }
    ensures subject { T.subject taker.new ≡ T.subject taker.old }
    ensures buffer { vec_len buffer.new ≡ 65536 }
    ensures only_reads { OnlyReads (H.world shelf.old) (H.world shelf.new) }
{
    let room = (PIECE as u64).min(MOST_BYTES - at) as usize;
    let piece = &mut buffer.as_mut_slice()[..room];
    let n = shelf.read_at(log, at, piece)?;
    taker.feed(&piece[..n])?;
    Ok(n as u64)
}

/// Whether the file has more bytes than so many. It reads into a buffer that has room.
pub fn has_more<H: Shelf>(
    log: &str,
    at: u64,
    buffer: &mut Vec<u8>,
    shelf: &mut H,
) -> Result<bool, ShelfFault>
    requires { vec_len buffer.old ≡ 65536 }
    ensures more { IfOk result (λ more. MatchBool more
        (HasText (H.world shelf.old).files log.now (λ bytes. at < length bytes))
        (HasText (H.world shelf.old).files log.now (λ bytes. length bytes ≤ at))) }
    ensures only_reads { OnlyReads (H.world shelf.old) (H.world shelf.new) }
    ensures failed { IsErrOf result ShelfFault.Failed
        → ReadingFailed (H.world shelf.old).faults (H.world shelf.new).faults log.now }
{
    let n = shelf.read_at(log, at, &mut buffer.as_mut_slice()[..1])?;
    Ok(n > 0)
}
