// Rewriting a log into another file, line by line.
ghost use Rattle.std.specs.Prelude.{◌≡◌, ◌≢◌, ◌+◌, ◌<◌, ◌^◌, ◌-◌, ℕ, List, [], true, Ok, vec_len};
ghost use Rattle.std.specs.Prelude.{IfOk, IfErr, IsErrOf, OnOk};
ghost use Rattle.scut_base.specs.Faults.{NoneFell, Rose, count};
ghost use Rattle.scut_base.specs.declared.shelf.ShelfCall.TheVariants.{Append};
ghost use Rattle.proof_laws.specs.WellFormed.{IsWellFormed};
ghost use Rattle.proof_laws.specs.declared.line.Line.{Line};
ghost use Rattle.proof_text.specs.LogText.{HoldsNoFurtherLine};
ghost use Rattle.proof_text.specs.Reading.{StandsFor};
ghost use Rattle.proof_text.specs.Versions.{IsFirst};
ghost use Rattle.log_checker.specs.Judging.{left};
ghost use Rattle.command_base.specs.LogLines.{IsLogOf};
ghost use Rattle.command_base.specs.Rewriting.{IsRewriteStop, IsRewritten};
ghost use Rattle.command_base.specs.RewrittenSoFar.{EndsAt, IsAnswering, IsCopied, IsCopiedWhole, IsCopyStop};
ghost use Rattle.command_base.specs.RewrittenSoFar.{IsNext, IsRewriting, IsUnderway, IsWith};
ghost use Rattle.command_base.specs.RewrittenSoFar.{RewritesLine, RewritesLines, RewritesNext, WritesOnly, stop_of};

use crate::LogStop;
use crate::log_file::{LineFault, MOST_BYTES, has_more};
use crate::whole_file::{PIECE, zeros};
use proof_laws::{Line, Why};
use proof_text::{LineReader, LogWriter, Spelling, TextFault};
use scut_base::Shelf;
use std::alloc::Global;

/// Answers the lines of a log, one after another.
pub trait AnswersLine {
    ghost use Rattle.std.specs.Prelude.{◌≡◌, ◌+◌, ◌∷◌, ◌++◌, ℕ, List, [], length, Err, IfOk, OnErr};
    ghost use Rattle.proof_laws.specs.Steps.{made};
    ghost use Rattle.proof_laws.specs.WellFormed.{IsWellFormed};
    ghost use Rattle.proof_laws.specs.declared.line.Line.{Line};
    ghost use Rattle.proof_laws.specs.declared.why.Why.{Why};
    ghost use Rattle.command_base.specs.declared.log_file.LineFault.{LineFault};

    /// What it answers by, which never changes.
    ghost Subject: { Type 0 };

    /// What it answers by.
    ghost subject: { Self → Subject };

    /// It was given these lines, and has answered so.
    ghost answers: { Self → List Line → List Line → Type 0 };

    /// It refuses this line, for this reason, where it comes next.
    ghost refuses: { Self → Line → Why → Type 0 };

    /// Answers the next line by one that makes as many ids; `Refused` with its number, of which the header's is 1.
    fn answer(&mut self, line: Line) -> Result<Line, LineFault>
        requires formed { IsWellFormed line }
        ensures subject { subject self.new ≡ subject self.old }
        ensures answered { IfOk result (λ new. (lines news : List Line)
            → answers self.old lines news
            → answers self.new (lines ++ line ∷ []) (news ++ new ∷ [])) }
        ensures formed { IfOk result IsWellFormed }
        ensures made { IfOk result (λ new. made new ≡ made line) }
        ensures same { OnErr result ((lines news : List Line)
            → answers self.old lines news → answers self.new lines news) }
        ensures refused { (k : ℕ) (why : Why) → result ≡ Err (LineFault.Refused k why)
            → refuses self.new line why }
        ensures number { (k : ℕ) (why : Why) → result ≡ Err (LineFault.Refused k why)
            → (lines news : List Line) → answers self.old lines news → k ≡ length lines + 2 };
}

/// Writes what is answered of the lines of a log file into another, behind the header of a log whose first line spells its
/// ids so. Reads no further than the first line that is wrong or refused, and writes what comes before it. Each line is one
/// append; of the log no more than a piece and a line is held.
pub fn rewrite_log<T: AnswersLine, H: Shelf>(
    alloc: Global,
    answerer: &mut T,
    log: &str,
    output: &str,
    first: Spelling,
    shelf: &mut H,
) -> Result<(), LogStop>
    requires fresh { T.answers answerer.old [] [] }
    requires first { IsFirst first }
    requires other { log.now ≢ output.now }
    ensures subject { T.subject answerer.new ≡ T.subject answerer.old }
    ensures rewritten { OnOk result (IsRewritten (T.answers answerer.new)
        (H.world shelf.old).files (H.world shelf.new).files log.now output.now first IsLogOf) }
    ensures stop { IfErr result (λ stop. IsRewriteStop (T.answers answerer.new)
        (T.refuses answerer.new) stop (H.world shelf.old) (H.world shelf.new)
        log.now output.now first) }
    ensures said { (H.world shelf.new).said ≡ (H.world shelf.old).said }
    ensures warned { (H.world shelf.new).warned ≡ (H.world shelf.old).warned }
    ensures later { NoneFell (H.world shelf.old).faults (H.world shelf.new).faults }
{
    let mut reader = LineReader::new(alloc);
    match LogWriter::begin(alloc, output, first, shelf) {
        Ok(mut writer) => rewrite_lines(alloc, log, &mut reader, answerer, &mut writer, shelf),
        Err(fault) => Err(LogStop::from(fault)),
    }
}

// Rewrites the lines of a log file, which a reader that was fed nothing reads in pieces, after the header that a writer has
// written.
fn rewrite_lines<T: AnswersLine, H: Shelf>(
    alloc: Global,
    log: &str,
    reader: &mut LineReader,
    answerer: &mut T,
    writer: &mut LogWriter<'_>,
    shelf: &mut H,
) -> Result<(), LogStop>
    requires begun { IsUnderway (H.world shelf.old).files reader.old (T.answers answerer.old)
        writer.old [] [] [] }
    requires other { log.now ≢ writer.old.name }
    ensures subject { T.subject answerer.new ≡ T.subject answerer.old }
    ensures rewritten { OnOk result (IsWith (H.world shelf.new).files log.now
        (T.answers answerer.new) writer.new IsLogOf) }
    ensures stop { IfErr result (λ stop. IsCopyStop (T.answers answerer.new)
        (T.refuses answerer.new) stop (H.world shelf.new).files log.now writer.new
        (H.world shelf.old).faults (H.world shelf.new).faults) }
    ensures beside { WritesOnly writer.old writer.new (H.world shelf.old) (H.world shelf.new) }
{
    let mut buffer = zeros(alloc, PIECE)?;
    let mut at = 0;
    while at < MOST_BYTES {
        let n = rewrite_piece(log, at, &mut buffer, reader, answerer, writer, shelf)?;
        if n == 0 {
            return end_of(reader);
        }
        at += n;
    }
    if has_more(log, at, &mut buffer, shelf)? {
        return Err(LogStop::Large);
    }
    end_of(reader)
}

// Reads the piece at this place and rewrites the lines that it makes whole; 0 at the file's end.
fn rewrite_piece<T: AnswersLine, H: Shelf>(
    log: &str,
    at: u64,
    buffer: &mut Vec<u8>,
    reader: &mut LineReader,
    answerer: &mut T,
    writer: &mut LogWriter<'_>,
    shelf: &mut H,
) -> Result<u64, LogStop>
    requires copied { IsCopied (H.world shelf.old).files log.now reader.old
        (T.answers answerer.old) writer.old at }
    requires other { log.now ≢ writer.old.name }
    requires room { at < 2 ^ 62 - 1 }
    requires buffer { vec_len buffer.old ≡ 65536 }
    ensures subject { T.subject answerer.new ≡ T.subject answerer.old }
    ensures more { IfOk result (λ n. IsCopied (H.world shelf.new).files log.now reader.new
        (T.answers answerer.new) writer.new (at + n)) }
    ensures whole { IfOk result (λ n. n ≡ 0 → IsCopiedWhole (H.world shelf.new).files log.now
        reader.new (T.answers answerer.new) writer.new) }
    ensures within { IfOk result (λ n. at + n < 2 ^ 62) }
    ensures stop { IfErr result (λ stop. IsCopyStop (T.answers answerer.new)
        (T.refuses answerer.new) stop (H.world shelf.new).files log.now writer.new
        (H.world shelf.old).faults (H.world shelf.new).faults) }
    ensures beside { WritesOnly writer.old writer.new (H.world shelf.old) (H.world shelf.new) }
    ensures buffer { vec_len buffer.new ≡ 65536 }
{
    let room = (PIECE as u64).min(MOST_BYTES - at) as usize;
    let piece = &mut buffer.as_mut_slice()[..room];
    let n = shelf.read_at(log, at, piece)?;
    reader.feed(&piece[..n])?;
    rewrite_fed(reader, answerer, writer, shelf)?;
    Ok(n as u64)
}

// Rewrites the whole lines that the reader holds, up to the first that is wrong or refused.
fn rewrite_fed<T: AnswersLine, H: Shelf>(
    reader: &mut LineReader,
    answerer: &mut T,
    writer: &mut LogWriter<'_>,
    shelf: &mut H,
) -> Result<(), LogStop>
    requires rewriting { IsRewriting (H.world shelf.old).files reader.old
        (T.answers answerer.old) writer.old }
    ensures subject { T.subject answerer.new ≡ T.subject answerer.old }
    ensures rewritten { (bytes : List ℕ) (lines news : List Line)
        → IsUnderway (H.world shelf.old).files reader.old (T.answers answerer.old) writer.old
        bytes lines news
        → RewritesLines (H.world shelf.new).files reader.new (T.answers answerer.new)
        (T.refuses answerer.new) writer.new bytes result }
    ensures failed { IsErrOf result LogStop.ShelfFailed
        → Rose (count (H.world shelf.old).faults Append writer.old.name)
        (count (H.world shelf.new).faults Append writer.old.name) }
    ensures beside { WritesOnly writer.old writer.new (H.world shelf.old) (H.world shelf.new) }
{
    'lines: while rewrite_next(reader, answerer, writer, shelf)? {}
    Ok(())
}

// Rewrites the next line, or answers that there is none.
fn rewrite_next<T: AnswersLine, H: Shelf>(
    reader: &mut LineReader,
    answerer: &mut T,
    writer: &mut LogWriter<'_>,
    shelf: &mut H,
) -> Result<bool, LogStop>
    requires rewriting { IsRewriting (H.world shelf.old).files reader.old
        (T.answers answerer.old) writer.old }
    ensures subject { T.subject answerer.new ≡ T.subject answerer.old }
    ensures rewritten { (bytes : List ℕ) (lines news : List Line)
        → IsUnderway (H.world shelf.old).files reader.old (T.answers answerer.old) writer.old
        bytes lines news
        → RewritesNext (H.world shelf.new).files reader.new (T.answers answerer.new)
        (T.refuses answerer.new) writer.new bytes result }
    ensures smaller { result ≡ Ok true → left reader.new < left reader.old }
    ensures failed { IsErrOf result LogStop.ShelfFailed
        → Rose (count (H.world shelf.old).faults Append writer.old.name)
        (count (H.world shelf.new).faults Append writer.old.name) }
    ensures beside { WritesOnly writer.old writer.new (H.world shelf.old) (H.world shelf.new) }
{
    match reader.next_line() {
        Ok(Some(line)) => rewrite_line(line, answerer, writer, shelf),
        Ok(None) => Ok(false),
        Err(fault) => Err(stop_of(fault)),
    }
}

// Writes what is answered of a line, and answers `true`.
fn rewrite_line<T: AnswersLine, H: Shelf>(
    line: Line,
    answerer: &mut T,
    writer: &mut LogWriter<'_>,
    shelf: &mut H,
) -> Result<bool, LogStop>
    requires formed { IsWellFormed line }
    requires answering { IsAnswering (H.world shelf.old).files (T.answers answerer.old)
        writer.old line }
    ensures subject { T.subject answerer.new ≡ T.subject answerer.old }
    ensures rewritten { (bytes : List ℕ) (lines news : List Line)
        → IsNext (H.world shelf.old).files (T.answers answerer.old) writer.old bytes lines news line
        → RewritesLine (H.world shelf.new).files (T.answers answerer.new)
        (T.refuses answerer.new) writer.new bytes lines news line result }
    ensures failed { IsErrOf result LogStop.ShelfFailed
        → Rose (count (H.world shelf.old).faults Append writer.old.name)
        (count (H.world shelf.new).faults Append writer.old.name) }
    ensures beside { WritesOnly writer.old writer.new (H.world shelf.old) (H.world shelf.new) }
{
    // The answer is given up before the writing is looked at, since to own it past more ways out takes long to prove.
    let written = match answerer.answer(line) {
        Ok(new) => writer.write(&new, shelf),
        Err(fault) => return Err(LogStop::from(fault)),
    };
    match written {
        Ok(()) => Ok(true),
        Err(fault) => Err(LogStop::from(fault)),
    }
}

// Whether the bytes that were fed end where a log may end.
fn end_of(reader: &LineReader) -> Result<(), LogStop>
    ensures { (bytes : List ℕ) (lines : List Line) → StandsFor reader.now bytes lines
        → HoldsNoFurtherLine bytes lines → EndsAt bytes lines result }
{
    match reader.finish() {
        Ok(()) => Ok(()),
        Err(fault) => Err(stop_of(fault)),
    }
}

// Why a log isn't read, as a stop.
fn stop_of(fault: TextFault) -> LogStop
    ensures { result ≡ stop_of fault }
{
    match fault {
        TextFault::Syntax { line } => LogStop::Refused {
            line,
            why: Why::Syntax,
        },
        TextFault::NoMemory => LogStop::NoMemory,
    }
}
