// A log that is written into a file line by line, judged by nobody.
ghost use Rattle.std.specs.Prelude.{◌≡◌, IfOk, IfErr, IsSome, OnErr, OnOk, IsErrOf};
ghost use Rattle.scut_base.specs.Faults.{HasCause, NoneFell, WritingFailed};
ghost use Rattle.scut_base.specs.Files.{content, with_appended, with_file, IsPrefixOf, IsTold, IsTouched};
ghost use Rattle.proof_lines.specs.Ids.{FitsNext};
ghost use Rattle.proof_lines.specs.LineText.{printed};
ghost use Rattle.proof_text.specs.LogFile.{IsNotBegun};
ghost use Rattle.proof_text.specs.Recorders.{IsPutPartly, without_file};
ghost use Rattle.proof_text.specs.Versions.{header_line};
ghost use Rattle.proof_text.specs.Writing.{new_writer, writer_after};

use crate::printing::print_header;
use crate::version::after_line;
use proof_laws::Line;
use proof_lines::{Spelling, append_line};
use scut_base::{NoMemory, Shelf, ShelfCall, ShelfFault};
use std::alloc::Global;
use std::marker::Model;

/// Writes a log into a file line by line, and judges nothing. The shelf is lent for each call, so that other files can be
/// read between two lines. Each line is one append; no line is kept.
#[derive(Debug, Drop)]
pub struct LogWriter<'a> {
    name: &'a str,
    // How the first line spells its ids, and how the next one does.
    first: Spelling,
    next: Spelling,
    // The text of the line that was written last. Its room is kept.
    text: Vec<u8>,
}

impl<'a> Model for LogWriter<'a> {
    ghost use Rattle.proof_text.specs.Writing.{WriterValue};

    ghost Value = { WriterValue };

    ghost view = { λ w. record { name = w.name.now; first = w.first; next = w.next } };
}

impl<'a> LogWriter<'a> {
    /// Begins the file anew with the header of a log whose first line spells its ids so. After a fault it is as before or
    /// holds a part of the header: `Failed` where the shelf failed to begin or to append.
    pub fn begin<H: Shelf>(
        alloc: Global,
        name: &'a str,
        first: Spelling,
        shelf: &mut H,
    ) -> Result<LogWriter<'a>, ShelfFault>
        ensures writer { IfOk result (λ w. w ≡ new_writer name.entry.now first) }
        ensures begun { OnOk result ((H.world shelf.new).files
            ≡ with_file (H.world shelf.old).files name.entry.now (header_line first)) }
        ensures refused { OnErr result (IsNotBegun (H.world shelf.old).files
            (H.world shelf.new).files name.entry.now first) }
        ensures said { (H.world shelf.new).said ≡ (H.world shelf.old).said }
        ensures warned { (H.world shelf.new).warned ≡ (H.world shelf.old).warned }
        ensures later { NoneFell (H.world shelf.old).faults (H.world shelf.new).faults }
        ensures cause { IsErrOf result ShelfFault.Failed → WritingFailed
            (H.world shelf.old).faults (H.world shelf.new).faults name.entry.now }
    {
        match begin_log(alloc, shelf, name, first) {
            Ok(()) => Ok(LogWriter {
                name,
                first,
                next: first,
                text: Vec::new(alloc),
            }),
            Err(fault) => Err(fault),
        }
    }

    /// Puts the text of a line after the bytes of the file. After a fault a prefix of it was put.
    pub fn write<H: Shelf>(&mut self, line: &Line, shelf: &mut H) -> Result<(), ShelfFault>
        requires there { IsTold (H.world shelf.old).files
            → IsSome (content (H.world shelf.old).files self.old.name) }
        requires fits { FitsNext self.old.next line.now }
        ensures writer { OnOk result (self.new ≡ writer_after self.old line.now) }
        ensures same { OnErr result (self.new ≡ self.old) }
        ensures written { OnOk result ((H.world shelf.new).files ≡ with_appended
            (H.world shelf.old).files self.old.name (printed self.old.next line.now)) }
        ensures partly { OnErr result (IsPutPartly (H.world shelf.old).files
            (H.world shelf.new).files self.old.name (printed self.old.next line.now)) }
        ensures others { without_file (H.world shelf.new).files self.old.name
            ≡ without_file (H.world shelf.old).files self.old.name }
        ensures said { (H.world shelf.new).said ≡ (H.world shelf.old).said }
        ensures warned { (H.world shelf.new).warned ≡ (H.world shelf.old).warned }
        ensures cause { HasCause ShelfCall.Append self.old.name
            (H.world shelf.old).faults (H.world shelf.new).faults result }
    {
        match write_line(shelf, self.name, &mut self.text, self.next, line) {
            Ok(()) => {
                self.next = after_line(self.next, line);
                Ok(())
            }
            Err(fault) => Err(fault),
        }
    }
}

/// Begins the file with the header.
pub(crate) fn begin_log<H: Shelf>(
    alloc: Global,
    shelf: &mut H,
    name: &str,
    first: Spelling,
) -> Result<(), ShelfFault>
    ensures ok { OnOk result ((H.world shelf.new).files
        ≡ with_file (H.world shelf.old).files name.now (header_line first)) }
    ensures err { OnErr result (IsNotBegun (H.world shelf.old).files
        (H.world shelf.new).files name.now first) }
    ensures said { (H.world shelf.new).said ≡ (H.world shelf.old).said }
    ensures warned { (H.world shelf.new).warned ≡ (H.world shelf.old).warned }
    ensures later { NoneFell (H.world shelf.old).faults (H.world shelf.new).faults }
    ensures cause { IsErrOf result ShelfFault.Failed
        → WritingFailed (H.world shelf.old).faults (H.world shelf.new).faults name.now }
{
    match print_header(alloc, first) {
        Ok(header) => begin_with(shelf, name, header.as_slice()),
        Err(NoMemory) => Err(ShelfFault::NoMemory),
    }
}

// Begins the file with these bytes.
fn begin_with<H: Shelf>(shelf: &mut H, name: &str, header: &[u8]) -> Result<(), ShelfFault>
    ensures ok { OnOk result ((H.world shelf.new).files
        ≡ with_file (H.world shelf.old).files name.now header.now) }
    ensures err { OnErr result (IsTouched (H.world shelf.old).files (H.world shelf.new).files
        name.now (λ bytes. IsPrefixOf bytes header.now)) }
    ensures said { (H.world shelf.new).said ≡ (H.world shelf.old).said }
    ensures warned { (H.world shelf.new).warned ≡ (H.world shelf.old).warned }
    ensures later { NoneFell (H.world shelf.old).faults (H.world shelf.new).faults }
    ensures cause { IsErrOf result ShelfFault.Failed
        → WritingFailed (H.world shelf.old).faults (H.world shelf.new).faults name.now }
{
    if let Err(fault) = shelf.begin(name) {
        return Err(fault);
    }
    match shelf.append(name, header) {
        Ok(()) => Ok(()),
        Err(fault) => Err(fault),
    }
}

/// Puts the text of a line, which spells its ids so, after the bytes of the file.
pub(crate) fn write_line<H: Shelf>(
    shelf: &mut H,
    name: &str,
    text: &mut Vec<u8>,
    spelling: Spelling,
    line: &Line,
) -> Result<(), ShelfFault>
    requires there { IsTold (H.world shelf.old).files
        → IsSome (content (H.world shelf.old).files name.now) }
    ensures written { OnOk result
        ((H.world shelf.new).files ≡ with_appended (H.world shelf.old).files name.now
        (printed spelling line.now)) }
    ensures partly { OnErr result
        (IsPutPartly (H.world shelf.old).files (H.world shelf.new).files name.now
        (printed spelling line.now)) }
    ensures others { without_file (H.world shelf.new).files name.now
        ≡ without_file (H.world shelf.old).files name.now }
    ensures said { (H.world shelf.new).said ≡ (H.world shelf.old).said }
    ensures warned { (H.world shelf.new).warned ≡ (H.world shelf.old).warned }
    ensures cause { HasCause ShelfCall.Append name.now
        (H.world shelf.old).faults (H.world shelf.new).faults result }
{
    text.clear();
    if append_line(text, spelling, line).is_err() {
        return Err(ShelfFault::NoMemory);
    }
    match shelf.append(name, text.as_slice()) {
        Ok(()) => Ok(()),
        Err(fault) => Err(fault),
    }
}
