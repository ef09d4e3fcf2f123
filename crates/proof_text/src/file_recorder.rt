// A proof in a file of a shelf that is lent for the recorder's life.
ghost use Rattle.std.specs.Prelude.{◌≡◌, ◌↔◌, ◌^◌, ◌++◌, ◌∷◌, [], true, false, length, IfOk, IfErr, OnOk, OnErr, IsErrOf, IsSome};
ghost use Rattle.scut_base.specs.Files.{content, with_appended, IsTold};
ghost use Rattle.scut_base.specs.Faults.{Rose};
ghost use Rattle.proof_laws.specs.WellFormed.{IsWellFormed};
ghost use Rattle.proof_laws.specs.State.{Fits};
ghost use Rattle.proof_laws.specs.Legal.{IsLegal, IsNext};
ghost use Rattle.proof_rules.specs.Recording.{KeepsRecorder, MayBeAdded, IsNextId};
ghost use Rattle.proof_lines.specs.declared.spelling.Spelling.TheVariants.{Plain};
ghost use Rattle.proof_lines.specs.LineText.{printed};
ghost use Rattle.proof_text.specs.Beginning.{HasBegun, HasNotBegun};
ghost use Rattle.proof_text.specs.Versions.{first_of};
ghost use Rattle.proof_text.specs.LogFile.{IsLogFile};
ghost use Rattle.proof_text.specs.Recorders.{fault_of, without_file, file_seen, IsKept, IsPutPartly, IsWrite, PutsLine};

use crate::keeping::advance;
use crate::kept_lines::KeptLines;
use crate::log_writer::{begin_log, write_line};
use crate::version::{LogVersion, first_of, spelling_at};
use pb_lin::PbProblem;
use proof_laws::Line;
use proof_lines::Spelling;
use proof_rules::{ProofState, RecordFault, Recorder};
use scut_base::{NoMemory, Shelf, ShelfFault};
use std::alloc::Global;
use std::marker::Model;

/// Keeps a proof in a file, which holds the header and the text of its lines after each call. Where a
/// call failed a part of the next line may follow them. Each line is one append.
#[derive(Drop)]
pub struct FileRecorder<'a, H: Shelf> {
    alloc: Global,
    shelf: &'a mut H,
    name: &'a str,
    problem: &'a PbProblem,
    version: LogVersion,
    lines: KeptLines,
    state: ProofState,
    // The text of the line that was written last. Its room is kept.
    text: Vec<u8>,
    broken: bool,
}

impl<'a, H: Shelf> Model for FileRecorder<'a, H> {
    ghost use Rattle.std.specs.Coded.{codes};
    ghost use Rattle.pb_lin.specs.LineCodes.{line_code};
    ghost use Rattle.proof_text.specs.LogFile.{Held};
    ghost use Rattle.proof_text.specs.Recorders.{IsHeld};

    ghost Value = { Held H };

    ghost coded = { Prim.hlevel (codes, line_code) };

    ghost view = { λ r. record {
      shelf = r.shelf;
      name = r.name.now;
      problem = r.problem.now;
      version = r.version;
      lines = r.lines;
      state = r.state;
      broken = r.broken;
    } };

    ghost invariant = { λ r. IsHeld (H.world r.shelf.now).files r.name.now
        r.problem.now r.version r.lines r.state r.broken };
}

/// A log that was not begun.
#[derive(Drop)]
pub struct NotBegun<'a, H: Shelf> {
    /// The shelf that was lent.
    pub shelf: &'a mut H,
    /// `Failed` or `NoMemory`.
    pub fault: RecordFault,
}

impl<'a, H: Shelf> FileRecorder<'a, H> {
    /// Begins the file anew with the header of version 1, and no lines. After a fault it is as before or
    /// holds a part of the header: `Failed` where the shelf failed to begin or to append, `NoMemory`
    /// where memory was refused. The problem is lent for the recorder's life.
    pub fn new(
        alloc: Global,
        shelf: &'a mut H,
        name: &'a str,
        problem: &'a PbProblem,
    ) -> Result<FileRecorder<'a, H>, NotBegun<'a, H>>
        ensures begun { IfOk result
            (HasBegun H.world shelf.entry name.entry.now problem.entry.now LogVersion.One) }
        ensures refused { IfErr result (HasNotBegun H.world shelf.entry name.entry.now Plain) }
    {
        FileRecorder::with_version(alloc, shelf, name, problem, LogVersion::One)
    }

    /// The same with the header of a version. A line is written by `print` in version 1, and in version
    /// 2 by `print_relative` over the problem's rows and the next id before the line.
    pub fn with_version(
        alloc: Global,
        shelf: &'a mut H,
        name: &'a str,
        problem: &'a PbProblem,
        version: LogVersion,
    ) -> Result<FileRecorder<'a, H>, NotBegun<'a, H>>
        ensures begun { IfOk result
            (HasBegun H.world shelf.entry name.entry.now problem.entry.now version) }
        ensures refused { IfErr result (HasNotBegun H.world shelf.entry name.entry.now
            (first_of version problem.entry.now)) }
    {
        match ProofState::new(alloc, problem) {
            Ok(state) => match begin_log(alloc, shelf, name, first_of(version, problem)) {
                Ok(()) => Ok(FileRecorder {
                    alloc,
                    shelf,
                    name,
                    problem,
                    version,
                    lines: KeptLines::new(alloc),
                    state,
                    text: Vec::new(alloc),
                    broken: false,
                }),
                Err(fault) => Err(NotBegun {
                    shelf,
                    fault: fault_of(fault),
                }),
            },
            Err(NoMemory) => Err(NotBegun {
                shelf,
                fault: RecordFault::NoMemory,
            }),
        }
    }

    /// Ends the recorder, and hands the shelf back.
    pub fn finish(self) -> &'a mut H
        ensures same_reference { result.ghost_name ≡ self.entry.shelf.ghost_name }
        ensures same { result.now ≡ self.entry.shelf.now }
        ensures log { IsLogFile (H.world result.now).files self.entry.name self.entry.problem
            self.entry.version self.entry.lines self.entry.broken }
        ensures kept { IsKept self.entry.problem self.entry.lines self.entry.state }
    {
        let FileRecorder {
            alloc: _,
            shelf,
            name: _,
            problem: _,
            version: _,
            lines: _,
            state: _,
            text: _,
            broken: _,
        } = self;
        shelf
    }
}

// The trait's clauses stand first, and then what the call puts into the file.
impl<'a, H: Shelf> Recorder for FileRecorder<'a, H> {
    ghost use Rattle.proof_text.specs.Recorders.{file_seen};

    ghost seen = { file_seen H.world };

    fn add_line(&mut self, line: &Line) -> Result<u64, RecordFault>
        requires formed { IsWellFormed line.now }
        requires legal { MayBeAdded self.old.problem self.old.lines line.now }
        requires whole { self.old.broken ≡ false }
        ensures added { OnOk result (self.new.lines ≡ self.old.lines ++ line.now ∷ []) }
        ensures id { IfOk result (IsNextId self.old.problem self.old.lines) }
        ensures whole { OnOk result (self.new.broken ≡ false) }
        ensures kept { OnErr result (self.new.lines ≡ self.old.lines) }
        ensures full { IsErrOf result RecordFault.Full ↔ (length self.old.lines ≡ 2 ^ 61) }
        ensures full_same { IsErrOf result RecordFault.Full
            → file_seen H.world self.new ≡ file_seen H.world self.old }
        ensures failed { IsErrOf result RecordFault.Failed
            → Rose (file_seen H.world self.old).faults (file_seen H.world self.new).faults }
        ensures failed_broken { IsErrOf result RecordFault.Failed → self.new.broken ≡ true }
        ensures short_broken { IsErrOf result RecordFault.NoMemory → self.new.broken ≡ true }
        ensures keeps { KeepsRecorder (file_seen H.world self.old) (file_seen H.world self.new) }
        ensures puts { PutsLine H.world self.old self.new line.now result }
    {
        if self.lines.is_full(&self.state) {
            return Err(RecordFault::Full);
        }
        if self.lines.push_copy(self.alloc, line).is_err() {
            self.broken = true;
            return Err(RecordFault::NoMemory);
        }
        let spelling = spelling_at(self.version, self.problem, &self.state);
        let written = commit(
            self.shelf,
            self.name,
            &mut self.text,
            spelling,
            self.problem,
            &mut self.state,
            line,
        );
        match written {
            Ok(id) => Ok(id),
            Err(fault) => {
                self.lines.pop_last();
                self.broken = true;
                Err(fault)
            }
        }
    }

    fn state(&self) -> &ProofState {
        &self.state
    }
}

// The same fault, of a recorder.
fn fault_of(fault: ShelfFault) -> RecordFault
    ensures { result ≡ fault_of fault }
{
    match fault {
        ShelfFault::Failed => RecordFault::Failed,
        ShelfFault::NoMemory => RecordFault::NoMemory,
    }
}

// Writes a line that is legal, and takes it up.
fn commit<H: Shelf>(
    shelf: &mut H,
    name: &str,
    text: &mut Vec<u8>,
    spelling: Spelling,
    problem: &PbProblem,
    state: &mut ProofState,
    line: &Line,
) -> Result<u64, RecordFault>
    requires there { IsTold (H.world shelf.old).files
        → IsSome (content (H.world shelf.old).files name.now) }
    requires fits { Fits problem.now state.old }
    requires formed { IsWellFormed line.now }
    requires legal { IsLegal problem.now state.old line.now }
    ensures written { OnOk result
        ((H.world shelf.new).files ≡ with_appended (H.world shelf.old).files name.now
        (printed spelling line.now)) }
    ensures partly { OnErr result
        (IsPutPartly (H.world shelf.old).files (H.world shelf.new).files name.now
        (printed spelling line.now)) }
    ensures id { IfOk result (λ id. id ≡ state.old.next_id) }
    ensures next { OnOk result (IsNext problem.now state.old line.now state.new) }
    ensures fits { OnOk result (Fits problem.now state.new) }
    ensures same { OnErr result (state.new ≡ state.old) }
    ensures others { without_file (H.world shelf.new).files name.now
        ≡ without_file (H.world shelf.old).files name.now }
    ensures said { (H.world shelf.new).said ≡ (H.world shelf.old).said }
    ensures warned { (H.world shelf.new).warned ≡ (H.world shelf.old).warned }
    ensures cause { IsWrite name.now (H.world shelf.old).faults (H.world shelf.new).faults result }
{
    if let Err(fault) = write_line(shelf, name, text, spelling, line) {
        return Err(fault_of(fault));
    }
    match advance(problem, state, line) {
        Ok(id) => Ok(id),
        Err(NoMemory) => Err(RecordFault::NoMemory),
    }
}
