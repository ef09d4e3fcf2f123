// Files in memory, whose calls fail where they are told to.
ghost use Rattle.std.specs.Prelude.{◌≡◌, ◌<◌, ◌≤◌, ◌++◌, [], length, map, take, IfOk, IsSome, OnOk, OnErr, MatchOption, Some, None};
ghost use Rattle.scut_base.specs.declared.shelf.ShelfCall.{ShelfCall};
ghost use Rattle.scut_base.specs.declared.shelf.ShelfFault.{ShelfFault};
ghost use Rattle.scut_base.specs.Faults.{HasCause, call_number, plain};
ghost use Rattle.scut_base.specs.Files.{with_file, with_appended, ReadsFrom, IsReadAt, IsPartlyAppended, IsPartlyFollowed, IsTouched};
ghost use Rattle.scut_base.specs.Memory.{fresh, fault_at_start, is_planned, planned_bytes, next_fault, passed, faulted, file_of, put_file, append_file, say_more, warn_more, Reads, Begins, Puts};

use crate::file_map::FileMap;
use crate::{Items, NoMemory, Shelf, ShelfCall, ShelfFault};
use std::alloc::{AllocError, Global};
use std::marker::Model;

/// A call of a shelf in memory that is to fail.
#[derive(Clone, Copy, Debug, PartialEq, Eq)]
pub struct PlannedFault {
    /// The kind of the call.
    pub call: ShelfCall,
    /// Its number among the calls of this kind, counted from 1.
    pub number: u64,
    /// How many bytes of its piece are put before, or all where the piece is shorter. For a read and
    /// a begin it says nothing.
    pub bytes: u64,
}

/// Files in memory. A call fails where the shelf was told so, and a read also where the name isn't
/// there; each such call raises the one count of faults. It serves tests.
#[derive(Drop)]
pub struct MemShelf {
    alloc: Global,
    files: FileMap,
    said: Items<u8>,
    warned: Items<u8>,
    plan: Items<PlannedFault>,
    // How many calls of each kind there were, by the kind's number.
    calls: [u64; 5],
    faults: u64,
}

impl Model for MemShelf {
    ghost use Rattle.scut_base.specs.Memory.{Memory};
    ghost use Rattle.scut_base.specs.MemoryCode.{memory_code};

    ghost Value = { Memory };

    ghost coded = { memory_code };

    ghost view = { λ s. record {
      files = s.files;
      said = s.said;
      warned = s.warned;
      plan = s.plan;
      calls = s.calls;
      faults = s.faults;
    } };
}

impl MemShelf {
    /// No files. The n-th call of a kind, counted from 1, fails where the pair of both is in the
    /// list, and changes nothing but the counts then. `NoMemory` where memory was refused.
    pub fn new(alloc: Global, fail: &[(ShelfCall, u64)]) -> Result<MemShelf, NoMemory>
        ensures { IfOk result (λ shelf. shelf ≡ fresh (map fault_at_start fail.now)) }
    {
        let plan = plan_at_start(alloc, fail)?;
        Ok(MemShelf::with_plan(alloc, Items::from_vec(plan)))
    }

    /// No files, and calls that fail after they have put the first bytes of their piece. Where two
    /// faults are of one call the first counts. `NoMemory` where memory was refused.
    pub fn cutting(alloc: Global, plan: &[PlannedFault]) -> Result<MemShelf, NoMemory>
        ensures { IfOk result (λ shelf. shelf ≡ fresh plan.now) }
    {
        let mut kept = Items::new(alloc);
        kept.extend_from_slice(plan)?;
        Ok(MemShelf::with_plan(alloc, kept))
    }

    // An empty shelf with this plan.
    fn with_plan(alloc: Global, plan: Items<PlannedFault>) -> MemShelf
        ensures { result ≡ fresh plan }
    {
        MemShelf {
            alloc,
            files: FileMap::new(alloc),
            said: Items::new(alloc),
            warned: Items::new(alloc),
            plan,
            calls: [0; 5],
            faults: 0,
        }
    }

    /// Puts a file there, in place of one of that name. It counts as no call, and fails only where
    /// memory was refused; then nothing has changed.
    pub fn put(&mut self, name: &str, bytes: &[u8]) -> Result<(), NoMemory>
        ensures ok { OnOk result (self.new ≡ put_file self.old name.now bytes.now) }
        ensures err { OnErr result (self.new ≡ self.old) }
    {
        let mut kept = Items::new(self.alloc);
        kept.extend_from_slice(bytes)?;
        self.files.put(self.alloc, name, kept)?;
        Ok(())
    }

    /// The bytes of a file, if it is there.
    pub fn get(&self, name: &str) -> Option<&[u8]>
        ensures { MatchOption result (file_of self.now name.now ≡ None)
            (λ bytes. file_of self.now name.now ≡ Some bytes.now) }
    {
        match self.files.get(name) {
            Some(bytes) => Some(bytes.as_slice()),
            None => None,
        }
    }

    /// All that was said, in order.
    pub fn said(&self) -> &[u8]
        ensures { result.now ≡ self.now.said }
    {
        self.said.as_slice()
    }

    /// All that was warned, in order.
    pub fn warned(&self) -> &[u8]
        ensures { result.now ≡ self.now.warned }
    {
        self.warned.as_slice()
    }

    /// How many calls have failed.
    pub fn faults(&self) -> u64
        ensures { result ≡ self.now.faults }
    {
        self.faults
    }

    // Counts a call, and says whether it is to fail, and after how many bytes.
    fn count_call(&mut self, call: ShelfCall) -> Option<u64>
        ensures fault { result ≡ next_fault self.old call }
        ensures counted { self.new ≡ passed self.old call }
    {
        let kind = kind_number(call);
        let number = self.calls[kind].saturating_add(1);
        self.calls[kind] = number;
        planned_bytes(self.plan.as_slice(), call, number)
    }

    // Counts a fault.
    fn count_fault(&mut self) -> ShelfFault
        ensures failed { result ≡ ShelfFault.Failed }
        ensures counted { self.new ≡ faulted self.old }
        ensures later { self.old.faults ≤ self.new.faults }
    {
        self.faults = self.faults.saturating_add(1);
        ShelfFault::Failed
    }
}

// Each method has the trait's clauses first, and then what it answers and leaves, exactly.
impl Shelf for MemShelf {
    ghost use Rattle.std.specs.Prelude.{Some};
    ghost use Rattle.scut_base.specs.Faults.{plain};

    ghost world = { λ s. record {
      files = Some s.files;
      said = Some s.said;
      warned = Some s.warned;
      faults = plain s.faults;
    } };

    fn read_at(&mut self, name: &str, at: u64, into: &mut [u8]) -> Result<usize, ShelfFault>
        requires { 0 < length into.old }
        ensures bound { IfOk result (λ n. n ≤ length into.old) }
        ensures bytes { IfOk result (λ n. IsReadAt (Some self.old.files) name.now at n into.new) }
        ensures files { self.new.files ≡ self.old.files }
        ensures said { self.new.said ≡ self.old.said }
        ensures warned { self.new.warned ≡ self.old.warned }
        ensures cause { HasCause ShelfCall.Read name.now
            (plain self.old.faults) (plain self.new.faults) result }
        ensures exact { Reads self.old name.now result self.new }
    {
        if self.count_call(ShelfCall::Read).is_some() {
            return Err(self.count_fault());
        }
        if let Some(bytes) = self.get(name) {
            return Ok(copy_from(bytes, at, into));
        }
        Err(self.count_fault())
    }

    fn begin(&mut self, name: &str) -> Result<(), ShelfFault>
        ensures begun { OnOk result
            (Some self.new.files ≡ with_file (Some self.old.files) name.now []) }
        ensures fault { OnErr result
            (IsTouched (Some self.old.files) (Some self.new.files) name.now (λ bytes. bytes ≡ [])) }
        ensures said { self.new.said ≡ self.old.said }
        ensures warned { self.new.warned ≡ self.old.warned }
        ensures cause { HasCause ShelfCall.Begin name.now
            (plain self.old.faults) (plain self.new.faults) result }
        ensures exact { Begins self.old name.now result self.new }
    {
        if self.count_call(ShelfCall::Begin).is_some() {
            return Err(self.count_fault());
        }
        self.put(name, &[])?;
        Ok(())
    }

    fn append(&mut self, name: &str, piece: &[u8]) -> Result<(), ShelfFault>
        requires { IsSome (file_of self.old name.now) }
        ensures appended { OnOk result
            (Some self.new.files ≡ with_appended (Some self.old.files) name.now piece.now) }
        ensures fault { OnErr result
            (IsPartlyAppended (Some self.old.files) (Some self.new.files) name.now piece.now) }
        ensures said { self.new.said ≡ self.old.said }
        ensures warned { self.new.warned ≡ self.old.warned }
        ensures cause { HasCause ShelfCall.Append name.now
            (plain self.old.faults) (plain self.new.faults) result }
        ensures exact { Puts ShelfCall.Append (λ s. append_file s name.now)
            self.old piece.now result self.new }
    {
        match self.count_call(ShelfCall::Append) {
            None => {
                self.files.append(name, piece)?;
                Ok(())
            }
            Some(bytes) => {
                self.files.append(name, prefix_of(piece, bytes))?;
                Err(self.count_fault())
            }
        }
    }

    fn say(&mut self, piece: &[u8]) -> Result<(), ShelfFault>
        ensures said { OnOk result (self.new.said ≡ self.old.said ++ piece.now) }
        ensures fault { OnErr result
            (IsPartlyFollowed (Some self.old.said) (Some self.new.said) piece.now) }
        ensures files { self.new.files ≡ self.old.files }
        ensures warned { self.new.warned ≡ self.old.warned }
        ensures cause { HasCause ShelfCall.Say []
            (plain self.old.faults) (plain self.new.faults) result }
        ensures exact { Puts ShelfCall.Say say_more self.old piece.now result self.new }
    {
        match self.count_call(ShelfCall::Say) {
            None => {
                self.said.extend_from_slice(piece)?;
                Ok(())
            }
            Some(bytes) => {
                self.said.extend_from_slice(prefix_of(piece, bytes))?;
                Err(self.count_fault())
            }
        }
    }

    fn warn(&mut self, piece: &[u8]) -> Result<(), ShelfFault>
        ensures warned { OnOk result (self.new.warned ≡ self.old.warned ++ piece.now) }
        ensures fault { OnErr result
            (IsPartlyFollowed (Some self.old.warned) (Some self.new.warned) piece.now) }
        ensures files { self.new.files ≡ self.old.files }
        ensures said { self.new.said ≡ self.old.said }
        ensures cause { HasCause ShelfCall.Warn []
            (plain self.old.faults) (plain self.new.faults) result }
        ensures exact { Puts ShelfCall.Warn warn_more self.old piece.now result self.new }
    {
        match self.count_call(ShelfCall::Warn) {
            None => {
                self.warned.extend_from_slice(piece)?;
                Ok(())
            }
            Some(bytes) => {
                self.warned.extend_from_slice(prefix_of(piece, bytes))?;
                Err(self.count_fault())
            }
        }
    }
}

// The faults of calls that are to put nothing.
fn plan_at_start(alloc: Global, fail: &[(ShelfCall, u64)]) -> Result<Vec<PlannedFault>, AllocError>
    ensures { IfOk result (λ plan. plan.items ≡ map fault_at_start fail.now) }
{
    fail.iter()
        .map(|pair| PlannedFault {
            call: pair.0,
            number: pair.1,
            bytes: 0,
        })
        .collect(alloc)
}

// The place of a kind in the list of counts.
fn kind_number(call: ShelfCall) -> usize
    ensures number { result ≡ call_number call }
    ensures below { result < 5 }
{
    match call {
        ShelfCall::Read => 0,
        ShelfCall::Begin => 1,
        ShelfCall::Append => 2,
        ShelfCall::Say => 3,
        ShelfCall::Warn => 4,
    }
}

// Whether a fault is that of this call.
fn is_planned(fault: &PlannedFault, call: ShelfCall, number: u64) -> bool
    ensures { result ≡ is_planned fault.now call number }
{
    fault.call == call && fault.number == number
}

// How many bytes are put by the call of this number, where it is to fail.
fn planned_bytes(plan: &[PlannedFault], call: ShelfCall, number: u64) -> Option<u64>
    ensures { result ≡ planned_bytes plan.now call number }
{
    for fault in plan {
        if is_planned(fault, call, number) {
            return Some(fault.bytes);
        }
    }
    None
}

// The first bytes of a piece, as many as there are.
fn prefix_of(piece: &[u8], bytes: u64) -> &[u8]
    ensures { result.now ≡ take bytes piece.entry.now }
{
    if bytes < piece.len() as u64 {
        &piece[..bytes as usize]
    } else {
        piece
    }
}

// Copies bytes from a place on.
fn copy_from(bytes: &[u8], at: u64, into: &mut [u8]) -> usize
    requires { 0 < length into.old }
    ensures bound { result ≤ length into.old }
    ensures bytes { ReadsFrom bytes.now at result into.new }
{
    if at >= bytes.len() as u64 {
        return 0;
    }
    let rest = &bytes[at as usize..];
    let n = rest.len().min(into.len());
    into[..n].copy_from_slice(&rest[..n]);
    n
}
