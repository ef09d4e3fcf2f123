// The real files and streams. Nothing is claimed of what they hold; each error raises the count.
ghost use Rattle.std.specs.Prelude.{◌≡◌, ◌≤◌, ◌↔◌, ℕ, List, length, IfOk, None};
ghost use Rattle.std.specs.declared.io.ErrorKind.{ErrorKind};
ghost use Rattle.scut_base.specs.declared.shelf.ShelfCall.{ShelfCall};
ghost use Rattle.scut_base.specs.declared.shelf.ShelfFault.{ShelfFault};
ghost use Rattle.scut_base.specs.Faults.{one_more, plain, HasCause};

use crate::{Shelf, ShelfCall, ShelfFault};
use std::alloc::Allocator;
use std::fs::{File, OpenOptions};
use std::io::{ErrorKind, Read, Seek, SeekFrom, Write};
use std::marker::Model;
use std::rt::{Files, Runtime};
use std::{io, str};

// The null device: it is empty, and opened to be read, it can't be written.
const NOTHING: &str = "/dev/null";

/// A file that is kept open, and the place that it stands at.
#[derive(Drop)]
struct Opened<F, A: Allocator> {
    name: String<A>,
    at: u64,
    file: F,
}

/// Files that are held open so that the numbers of the standard streams are taken: where the program
/// was begun with a stream closed, the operating system gives the next file that is opened that
/// stream's number, and what is said would be written into it.
#[derive(Drop)]
struct Standing<F> {
    first: F,
    second: F,
    third: F,
}

/// The real files, standard output and standard error. It tells none of their bytes. Want of memory is
/// answered as such, also where a call of the system meets it; each other error raises the one count
/// of faults.
///
/// It keeps open the file that it read last and the one that it wrote last, so that one append more to
/// the same file is one write, and reading on is one read. After a failed call it keeps that file no
/// longer, since nothing tells where it stands then; the next call opens it anew. A read that a signal
/// interrupts is made again, a million times at most: each loop here ends, and an outside that does
/// nothing but interrupt counts as one that fails.
///
/// Before it opens its first file it makes sure that the numbers of the three standard streams are
/// taken, so that no file gets one of them: a stream that was closed then fails when it is written.
#[derive(Drop)]
pub struct HostShelf<R: Runtime> {
    rt: R,
    faults: u64,
    standing: Option<Standing<<R as Files>::File>>,
    reading: Option<Opened<<R as Files>::File, <R as Alloc>::A>>,
    writing: Option<Opened<<R as Files>::File, <R as Alloc>::A>>,
}

impl<R: Runtime> Model for HostShelf<R> {
    ghost use Rattle.std.specs.Prelude.{ℕ};

    ghost Value = { ℕ };

    ghost view = { λ s. s.faults };
}

impl<R: Runtime> HostShelf<R> {
    /// A shelf that has opened no file and met no fault.
    pub fn new(rt: R) -> HostShelf<R>
        ensures { result ≡ 0 }
    {
        HostShelf {
            rt,
            faults: 0,
            standing: None,
            reading: None,
            writing: None,
        }
    }
}

// What a call answers, with one more fault where it failed for another cause than memory.
fn counted<T: Drop>(done: io::Result<T>, faults: &mut u64) -> Result<T, ShelfFault>
    ensures cause { (call : ShelfCall) (name : List ℕ)
        → HasCause call name (plain faults.old) (plain faults.new) result }
    ensures value { IfOk result (λ v. done ≡ Ok v) }
{
    match done {
        Ok(value) => Ok(value),
        Err(error) => Err(fault_of(error.kind(), faults)),
    }
}

// The fault of an error. That memory was refused counts as no fault of the outside.
fn fault_of(kind: ErrorKind, faults: &mut u64) -> ShelfFault
    ensures memory { (result ≡ ShelfFault.NoMemory) ↔ (kind ≡ ErrorKind.OutOfMemory) }
    ensures uncounted { result ≡ ShelfFault.NoMemory → faults.new ≡ faults.old }
    ensures counted { result ≡ ShelfFault.Failed → faults.new ≡ one_more faults.old }
    ensures later { faults.old ≤ faults.new }
{
    match kind {
        ErrorKind::OutOfMemory => ShelfFault::NoMemory,
        _ => {
            *faults = faults.saturating_add(1);
            ShelfFault::Failed
        }
    }
}

// Reads once, and again where it was interrupted. The bound is there because a loop must end.
fn read_some<F: Read>(file: &mut F, into: &mut [u8]) -> io::Result<usize>
    ensures { IfOk result (λ n. n ≤ length into.old) }
{
    for _ in 0..1_000_000u64 {
        match file.read(into) {
            Ok(n) => return Ok(n),
            Err(e) if e.kind() == ErrorKind::Interrupted => {}
            Err(e) => return Err(e),
        }
    }
    Err(io::Error::from(ErrorKind::Interrupted))
}

// Takes the numbers of the standard streams that are closed, where that wasn't done before.
fn hold_streams<R: Runtime>(
    rt: &R,
    standing: &mut Option<Standing<<R as Files>::File>>,
) -> io::Result<()> {
    if standing.is_none() {
        *standing = Some(Standing {
            first: File::open(rt, NOTHING)?,
            second: File::open(rt, NOTHING)?,
            third: File::open(rt, NOTHING)?,
        });
    }
    Ok(())
}

// Opens a file to read at a place, where it isn't open there. After an error it isn't open.
fn reader_at<R: Runtime>(
    rt: &R,
    reading: &mut Option<Opened<<R as Files>::File, <R as Alloc>::A>>,
    name: &str,
    at: u64,
) -> io::Result<()> {
    if let Some(mut opened) = reading.take() {
        if opened.name.as_str() == name {
            if opened.at != at {
                opened.file.seek(SeekFrom::Start(at))?;
                opened.at = at;
            }
            *reading = Some(opened);
            return Ok(());
        }
    }
    let kept = String::from_str(rt.alloc(), name)?;
    let mut file = File::open(rt, name)?;
    if at != 0 {
        file.seek(SeekFrom::Start(at))?;
    }
    *reading = Some(Opened {
        name: kept,
        at,
        file,
    });
    Ok(())
}

// Reads from the file that is open. After an error its place isn't known, and it isn't kept.
fn read_opened<F: Read + Drop, A: Allocator>(
    reading: &mut Option<Opened<F, A>>,
    into: &mut [u8],
) -> io::Result<usize>
    ensures { IfOk result (λ n. n ≤ length into.old) }
{
    match reading.take() {
        Some(mut opened) => {
            let n = read_some(&mut opened.file, into)?;
            opened.at = opened.at.saturating_add(n as u64);
            *reading = Some(opened);
            Ok(n)
        }
        None => Err(io::Error::from(ErrorKind::NotFound)),
    }
}

// Opens a file to write at its end, anew or where it isn't open.
fn writer_of<R: Runtime>(
    rt: &R,
    writing: &mut Option<Opened<<R as Files>::File, <R as Alloc>::A>>,
    name: &str,
    anew: bool,
) -> io::Result<()> {
    if !anew {
        if let Some(opened) = writing {
            if opened.name.as_str() == name {
                return Ok(());
            }
        }
    }
    let kept = String::from_str(rt.alloc(), name)?;
    let file = if anew {
        File::create(rt, name)?
    } else {
        OpenOptions::new().append(true).open(rt, name)?
    };
    *writing = Some(Opened {
        name: kept,
        at: 0,
        file,
    });
    Ok(())
}

// Writes to the file that is open. After an error its place isn't known, and it isn't kept.
fn write_opened<F: Write + Drop, A: Allocator>(
    writing: &mut Option<Opened<F, A>>,
    piece: &[u8],
) -> io::Result<()> {
    match writing.take() {
        Some(mut opened) => {
            opened.file.write_all(piece)?;
            *writing = Some(opened);
            Ok(())
        }
        None => Err(io::Error::from(ErrorKind::NotFound)),
    }
}

// Reads from a file at a place.
fn read_host<R: Runtime>(
    rt: &R,
    standing: &mut Option<Standing<<R as Files>::File>>,
    reading: &mut Option<Opened<<R as Files>::File, <R as Alloc>::A>>,
    name: &str,
    at: u64,
    into: &mut [u8],
) -> io::Result<usize>
    ensures { IfOk result (λ n. n ≤ length into.old) }
{
    hold_streams(rt, standing)?;
    reader_at(rt, reading, name, at)?;
    read_opened(reading, into)
}

// Makes a file anew, and keeps it open to write.
fn begin_host<R: Runtime>(
    rt: &R,
    standing: &mut Option<Standing<<R as Files>::File>>,
    writing: &mut Option<Opened<<R as Files>::File, <R as Alloc>::A>>,
    name: &str,
) -> io::Result<()> {
    hold_streams(rt, standing)?;
    writer_of(rt, writing, name, true)
}

// Writes at the end of a file.
fn append_host<R: Runtime>(
    rt: &R,
    standing: &mut Option<Standing<<R as Files>::File>>,
    writing: &mut Option<Opened<<R as Files>::File, <R as Alloc>::A>>,
    name: &str,
    piece: &[u8],
) -> io::Result<()> {
    hold_streams(rt, standing)?;
    writer_of(rt, writing, name, false)?;
    write_opened(writing, piece)
}

// Writes to standard error, which takes only text.
fn warn_host<R: Runtime>(rt: &R, piece: &[u8]) -> io::Result<()> {
    match str::from_utf8(piece) {
        Ok(text) => rt.eprint(text),
        Err(_) => Err(io::Error::from(ErrorKind::InvalidData)),
    }
}

#[tactic(auto, unfolding(crate::specs::Files::with_file))]
impl<R: Runtime> Shelf for HostShelf<R> {
    ghost world = { λ s. record { files = None; said = None; warned = None; faults = plain s } };

    fn read_at(&mut self, name: &str, at: u64, into: &mut [u8]) -> Result<usize, ShelfFault> {
        let done = read_host(
            &self.rt,
            &mut self.standing,
            &mut self.reading,
            name,
            at,
            into,
        );
        counted(done, &mut self.faults)
    }

    fn begin(&mut self, name: &str) -> Result<(), ShelfFault> {
        let done = begin_host(&self.rt, &mut self.standing, &mut self.writing, name);
        counted(done, &mut self.faults)
    }

    fn append(&mut self, name: &str, piece: &[u8]) -> Result<(), ShelfFault> {
        let done = append_host(&self.rt, &mut self.standing, &mut self.writing, name, piece);
        counted(done, &mut self.faults)
    }

    fn say(&mut self, piece: &[u8]) -> Result<(), ShelfFault> {
        let done = self.rt.write_all(piece);
        counted(done, &mut self.faults)
    }

    fn warn(&mut self, piece: &[u8]) -> Result<(), ShelfFault> {
        let done = warn_host(&self.rt, piece);
        counted(done, &mut self.faults)
    }
}
