// Shelves in memory, where calls fail.
use scut_base::{MemShelf, PlannedFault, Shelf, ShelfCall, ShelfFault};
use std::alloc::Global;
use std::test::Fail;

// A kind of call, and what is in the file `a`, said and warned after two calls of it.
static ROWS: [(ShelfCall, &str, &str, &str); 5] = [
    (ShelfCall::Read, "xy", "", ""),
    (ShelfCall::Begin, "", "", ""),
    (ShelfCall::Append, "xybcd", "", ""),
    (ShelfCall::Say, "xy", "bcd", ""),
    (ShelfCall::Warn, "xy", "", "bcd"),
];

// One call, on the file `a` where the call takes a name.
fn call_once(shelf: &mut MemShelf, call: ShelfCall, piece: &[u8]) -> Result<(), ShelfFault> {
    match call {
        ShelfCall::Read => {
            let mut into = [0u8; 4];
            shelf.read_at("a", 0, &mut into)?;
            Ok(())
        }
        ShelfCall::Begin => shelf.begin("a"),
        ShelfCall::Append => append_once(shelf, piece),
        ShelfCall::Say => shelf.say(piece),
        ShelfCall::Warn => shelf.warn(piece),
    }
}

fn append_once(shelf: &mut MemShelf, piece: &[u8]) -> Result<(), ShelfFault> {
    if shelf.get("a").is_none() {
        return Ok(());
    }
    shelf.append("a", piece)
}

// A shelf with the file `a`, after two calls of a kind, of which the second failed after a byte.
fn after_two(alloc: Global, call: ShelfCall) -> Result<MemShelf, ShelfFault> {
    let plan = [PlannedFault {
        call,
        number: 2,
        bytes: 1,
    }];
    let mut shelf = MemShelf::cutting(alloc, &plan)?;
    shelf.put("a", b"xy")?;
    call_once(&mut shelf, call, b"bc")?;
    let _ = call_once(&mut shelf, call, b"de");
    Ok(shelf)
}

// Whether the file `a`, what was said and what was warned are these, and one call has failed.
fn is_left_so(shelf: &MemShelf, file: &str, said: &str, warned: &str) -> bool {
    shelf.get("a") == Some(file.as_bytes())
        && shelf.said() == said.as_bytes()
        && shelf.warned() == warned.as_bytes()
        && shelf.faults() == 1
}

#[test]
fn the_second_call_of_each_kind_fails(rt: HostRuntime) -> Result<(), Fail> {
    for (call, file, said, warned) in &ROWS {
        let shelf = after_two(rt.alloc(), *call)?;
        assert!(rt; is_left_so(&shelf, *file, *said, *warned), "{call:?}");
    }
    Ok(())
}
