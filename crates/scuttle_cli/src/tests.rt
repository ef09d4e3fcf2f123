// The commands over files in memory of which a call fails: what no command line reaches.
use crate::running::run;
use scut_base::{MemShelf, NoMemory, PlannedFault, ShelfCall, boxed};
use std::alloc::{AllocError, Global};
use std::process::Abort;
use std::test::Fail;

const INPUT: &str = "h 1 2 0\no1 1 -1 0\no2 1 -2 0\n";

// The list of the input's front.
const LIST: &str = "s COMPLETE 2\no 0 1\nv -1 2 0\no 1 0\nv 1 -2 0\n";

const FRONT: &str = "front a.mcnf a.list";

const SOLVE: &str = "solve a.mcnf a.list a.log";

const CHECK: &str = "check a.mcnf a.list a.log";

// A log that is accepted with the list.
const LOG: &str =
    "scuttle proof version 1\nsol ~x1 x2 : ~x2 : 0 0\nsol x1 ~x2 : ~x1 : 0 0\nrup >= 1 : 2 3 1\nend 4\n";

// A model of each entry of the list, and the logs that show that there is no other.
const MODELS: &str = "models a.mcnf a.list 2 m";

const CHECK_MODELS: &str = "check-models a.mcnf a.list 2 m";

static MODELS_FILES: [(&str, &str); 3] = [
    (
        "m.models",
        "s MODELS 2\ne ALL 1\nv -1 2 0\ne ALL 1\nv 1 -2 0\n",
    ),
    (
        "m.1.log",
        "scuttle proof version 1\nrup >= 1 : 2 1 4\nend 5\n",
    ),
    (
        "m.2.log",
        "scuttle proof version 1\nrup >= 1 : 3 1 4\nend 5\n",
    ),
];

const FAULT: &str = "scuttle: file fault\n";

// The words; the call of which each of the first so many fails in turn; the number; the list, or that there is
// none; what is warned.
type Row = (&'static str, ShelfCall, u64, u8, &'static str, &'static str);

static FAULTS: [Row; 15] = [
    (FRONT, ShelfCall::Read, 2, 74, "none", FAULT),
    (FRONT, ShelfCall::Begin, 1, 74, "none", FAULT),
    (FRONT, ShelfCall::Say, 1, 74, LIST, FAULT),
    (SOLVE, ShelfCall::Read, 2, 74, "none", FAULT),
    (SOLVE, ShelfCall::Begin, 2, 74, "none", FAULT),
    (SOLVE, ShelfCall::Say, 1, 74, LIST, FAULT),
    ("frobnicate", ShelfCall::Warn, 1, 64, "none", ""),
    (CHECK, ShelfCall::Read, 6, 74, LIST, FAULT),
    (CHECK, ShelfCall::Say, 1, 74, LIST, FAULT),
    (MODELS, ShelfCall::Read, 4, 74, LIST, FAULT),
    (MODELS, ShelfCall::Begin, 5, 74, LIST, FAULT),
    (MODELS, ShelfCall::Append, 9, 74, LIST, FAULT),
    (MODELS, ShelfCall::Say, 1, 74, LIST, FAULT),
    (CHECK_MODELS, ShelfCall::Read, 10, 74, LIST, FAULT),
    (CHECK_MODELS, ShelfCall::Say, 1, 74, LIST, FAULT),
];

const TRIAL: &str = "trial 7 3 1 t";

// The reads of a trial from one number on up to another, the number with which it ends if one of them fails, and what it has
// said then. `solve` reads the instance, and then `check` all three files, each with a read more at its end; there is no ninth.
static TRIAL_READS: [(u64, u64, u8, &str); 3] = [
    (1, 2, 74, "done\n"),
    (3, 8, 74, "done\ncomplete 1\n"),
    (9, 9, 0, "done\ncomplete 1\naccepted\n"),
];

// A command line, and the call that fails on the shelf that it runs over; a call of number 0 is none.
#[derive(Clone, Copy, Debug)]
struct Case<'a> {
    line: &'a str,
    fault: PlannedFault,
}

// The words of a command line.
fn words_of(alloc: Global, line: &str) -> Result<Vec<String>, AllocError> {
    let mut words = Vec::new(alloc);
    for word in line.split(' ') {
        words.push(String::from_str(alloc, word)?)?;
    }
    Ok(words)
}

// Runs a command line: the number with which the program would end. It has no clause, so that no test below
// carries those of `run`.
fn number_of(alloc: Global, line: &str, shelf: &mut MemShelf) -> Result<u8, AllocError> {
    Ok(run(alloc, &words_of(alloc, line)?, shelf).number())
}

// A shelf without files on which the call fails, in a box: it is one part there, so that what owns it is proved sooner.
fn empty_shelf(alloc: Global, fault: PlannedFault) -> Result<Box<MemShelf>, NoMemory> {
    boxed(alloc, MemShelf::cutting(alloc, &[fault])?)
}

// A shelf with the files that a command line reads, on which the call fails.
fn shelf_for(alloc: Global, case: &Case<'_>) -> Result<Box<MemShelf>, NoMemory> {
    let mut shelf = empty_shelf(alloc, case.fault)?;
    put_files(&mut *shelf, case.line)?;
    Ok(shelf)
}

// Puts the files that a command line reads.
fn put_files(shelf: &mut MemShelf, line: &str) -> Result<(), NoMemory> {
    shelf.put("a.mcnf", INPUT.as_bytes())?;
    if line == CHECK || line == MODELS || line == CHECK_MODELS {
        shelf.put("a.list", LIST.as_bytes())?;
        shelf.put("a.log", LOG.as_bytes())?;
    }
    if line == CHECK_MODELS {
        for (name, text) in MODELS_FILES.iter() {
            shelf.put(*name, text.as_bytes())?;
        }
    }
    Ok(())
}

// Fails where a place doesn't hold what is wanted.
fn expect(rt: &impl Abort, case: &Case<'_>, found: &[u8], wanted: &[u8]) -> Result<(), Fail> {
    assert_eq!(rt; found, wanted, "{case:?}");
    Ok(())
}

// Runs a case, which ends with a number, warns, says nothing and leaves the input: the shelf afterwards.
fn failed(
    rt: &impl Abort,
    alloc: Global,
    case: &Case<'_>,
    number: u8,
    warned: &str,
) -> Result<Box<MemShelf>, Fail> {
    let mut shelf = shelf_for(alloc, case)?;
    has_failed(rt, alloc, case, number, warned, &mut *shelf)?;
    Ok(shelf)
}

// The same over this shelf.
fn has_failed(
    rt: &impl Abort,
    alloc: Global,
    case: &Case<'_>,
    number: u8,
    warned: &str,
    shelf: &mut MemShelf,
) -> Result<(), Fail> {
    let ended = number_of(alloc, case.line, shelf)?;
    expect(rt, case, &[ended], &[number])?;
    expect(rt, case, shelf.warned(), warned.as_bytes())?;
    expect(rt, case, shelf.said(), b"")?;
    expect_file(rt, case, shelf, "a.mcnf", INPUT.as_bytes())
}

// Fails where a file doesn't hold what is wanted; one that isn't there holds `none`.
fn expect_file(
    rt: &impl Abort,
    case: &Case<'_>,
    shelf: &MemShelf,
    name: &str,
    wanted: &[u8],
) -> Result<(), Fail> {
    expect(rt, case, shelf.get(name).unwrap_or(b"none"), wanted)
}

// Runs the command line of a row once for each call that is to fail.
fn each_call_fails(rt: &impl Abort, alloc: Global, row: &Row) -> Result<(), Fail> {
    let (line, call, calls, ends, list, warned) = row;
    for before in 0..*calls {
        let number = before.saturating_add(1);
        let fault = PlannedFault {
            call: *call,
            number,
            bytes: 0,
        };
        let case = Case { line: *line, fault };
        let shelf = failed(rt, alloc, &case, *ends, *warned)?;
        expect_file(rt, &case, &*shelf, "a.list", list.as_bytes())?;
    }
    Ok(())
}

#[test]
fn a_call_that_fails_is_answered(rt: HostRuntime) -> Result<(), Fail> {
    for row in FAULTS.iter() {
        each_call_fails(&rt, rt.alloc(), row)?;
    }
    Ok(())
}

// Runs a trial whose read of this number fails.
fn trial_ends(
    rt: &impl Abort,
    alloc: Global,
    number: u64,
    ends: u8,
    said: &str,
) -> Result<(), Fail> {
    let fault = PlannedFault {
        call: ShelfCall::Read,
        number,
        bytes: 0,
    };
    let case = Case { line: TRIAL, fault };
    let mut shelf = empty_shelf(alloc, fault)?;
    trial_says(rt, alloc, &case, ends, said, &mut *shelf)
}

// The same over this shelf.
fn trial_says(
    rt: &impl Abort,
    alloc: Global,
    case: &Case<'_>,
    ends: u8,
    said: &str,
    shelf: &mut MemShelf,
) -> Result<(), Fail> {
    let ended = number_of(alloc, TRIAL, shelf)?;
    expect(rt, case, &[ended], &[ends])?;
    expect(rt, case, shelf.said(), said.as_bytes())
}

#[test]
fn a_trial_reads_back(rt: HostRuntime) -> Result<(), Fail> {
    for (first, last, ends, said) in TRIAL_READS.iter() {
        for before in first.saturating_sub(1)..*last {
            trial_ends(&rt, rt.alloc(), before.saturating_add(1), *ends, *said)?;
        }
    }
    Ok(())
}

// How many lines a text has.
fn lines_of(text: &[u8]) -> u64 {
    let mut lines = 0u64;
    for byte in text {
        if *byte == b'\n' {
            lines = lines.saturating_add(1);
        }
    }
    lines
}

// The first lines of a text, and so many bytes more.
fn begun(text: &[u8], lines: u64, bytes: u64) -> &[u8] {
    let mut end = 0usize;
    let mut left = lines;
    for (at, byte) in text.iter().enumerate() {
        if left == 0 {
            break;
        }
        if *byte == b'\n' {
            left -= 1;
            end = at.saturating_add(1);
        }
    }
    text.get(..end.saturating_add(bytes as usize))
        .unwrap_or(text)
}

// A run whose n-th append fails, where a run with no fault makes this log: the log's pieces come before the list's.
fn cut_run(rt: &impl Abort, alloc: Global, case: &Case<'_>, log: &[u8]) -> Result<(), Fail> {
    let shelf = failed(rt, alloc, case, 74, FAULT)?;
    is_cut(rt, case, log, &*shelf)
}

// Whether log and list end where the append failed.
fn is_cut(rt: &impl Abort, case: &Case<'_>, log: &[u8], shelf: &MemShelf) -> Result<(), Fail> {
    let bytes = case.fault.bytes;
    let before = case.fault.number.saturating_sub(1);
    let list = match before.checked_sub(lines_of(log)) {
        Some(of_list) => begun(LIST.as_bytes(), of_list, bytes),
        None => b"none",
    };
    expect(
        rt,
        case,
        shelf.get("a.log").unwrap_or(b""),
        begun(log, before, bytes),
    )?;
    expect_file(rt, case, shelf, "a.list", list)
}

// The runs whose appends fail one after another, each with these bytes put before.
fn cut_each(rt: &impl Abort, alloc: Global, line: &str, bytes: u64) -> Result<(), Fail> {
    let call = ShelfCall::Append;
    let none = PlannedFault {
        call,
        number: 0,
        bytes,
    };
    let case = Case { line, fault: none };
    let mut whole = shelf_for(alloc, &case)?;
    has_ended(rt, alloc, &case, &mut *whole)?;
    cut_each_append(rt, alloc, case, whole.get("a.log").unwrap_or(b""))
}

// Runs a case that finds the front.
fn has_ended(
    rt: &impl Abort,
    alloc: Global,
    case: &Case<'_>,
    shelf: &mut MemShelf,
) -> Result<(), Fail> {
    let ended = number_of(alloc, case.line, shelf)?;
    expect(rt, case, &[ended], &[0])?;
    expect_file(rt, case, shelf, "a.list", LIST.as_bytes())
}

// Runs a case once for each append that is to fail, where a run with no fault makes this log.
fn cut_each_append(rt: &impl Abort, alloc: Global, case: Case<'_>, log: &[u8]) -> Result<(), Fail> {
    for before in 0..lines_of(log).saturating_add(lines_of(LIST.as_bytes())) {
        let number = before.saturating_add(1);
        let fault = PlannedFault {
            number,
            ..case.fault
        };
        cut_run(rt, alloc, &Case { fault, ..case }, log)?;
    }
    Ok(())
}

#[test]
fn each_append_is_cut_off(rt: HostRuntime) -> Result<(), Fail> {
    let alloc = rt.alloc();
    for bytes in [0, 1, 5] {
        cut_each(&rt, alloc, FRONT, bytes)?;
        cut_each(&rt, alloc, SOLVE, bytes)?;
    }
    Ok(())
}
