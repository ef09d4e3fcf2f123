// The reader of a list, and the laws of texts.
ghost use Rattle.std.specs.Prelude.{◌≡◌, ℕ, ◌<◌, ◌^◌, List, Bool, All, length, IfOk, IfErr};
ghost use Rattle.front_set.specs.declared.entry.Entry.{Entry};
ghost use Rattle.front_text.specs.Spelling.{HasCosts, Spells, IsSyntaxAt, IsFaultOf};
ghost use Rattle.front_text.specs.Reading.{TakesEntries, IsEntryFault};

use crate::cursor::Cursor;
use crate::entry::read_entry;
use crate::head::read_head;
use crate::{FrontList, ListFault, print_list};
use front_set::Entry;
use scut_base::Items;
use std::alloc::Global;

/// Reads the list whose text the bytes are. A refusal names the entry at which they go wrong. One
/// pass; takes memory for the entries, and for the values of one model besides.
pub fn read_list(alloc: Global, bytes: &[u8]) -> Result<FrontList, ListFault>
    ensures spelled { IfOk result (λ list. Spells bytes.now list.complete list.entries) }
    ensures fault { IfErr result (λ f. IsFaultOf bytes.now f) }
{
    let mut cursor = Cursor::new(bytes);
    let Some(head) = read_head(&mut cursor) else {
        return Err(ListFault::Syntax { entry: 0 });
    };
    let entries = read_entries(alloc, &mut cursor, head.count)?;
    if !cursor.is_at_end() {
        return Err(ListFault::Syntax {
            entry: head.count + 1,
        });
    }
    Ok(FrontList {
        complete: head.complete,
        entries,
    })
}

/// Law: a list that is printed is read back as it was, where there is memory.
pub fn read_back(alloc: Global, complete: bool, entries: &[Entry]) -> Result<FrontList, ListFault>
    requires { All HasCosts entries.now }
    ensures complete { IfOk result (λ list. list.complete ≡ complete) }
    ensures entries { IfOk result (λ list. list.entries ≡ entries.now) }
    ensures refused { IfErr result (λ f. f ≡ ListFault.NoMemory) }
{
    let text = print_list(alloc, complete, entries)?;
    read_list(alloc, &text)
}

/// Law: a text of fewer than 2^64 bytes is that of one list at most.
pub fn one_list()
    ensures { (text : List ℕ) (b c : Bool) (entries others : List Entry) → length text < 2 ^ 64
        → Spells text b entries → Spells text c others → (b ≡ c) × (entries ≡ others) }
{}

/// Law: a text that spells a list goes wrong at no entry.
pub fn no_fault_where_spelled()
    ensures { (text : List ℕ) (complete : Bool) (entries : List Entry) (k : ℕ)
        → length text < 2 ^ 64 → Spells text complete entries → IsSyntaxAt text k → ⊥ }
{}

/// Law: a text goes wrong at one entry at most.
pub fn one_fault()
    ensures { (text : List ℕ) (j k : ℕ)
        → length text < 2 ^ 64 → IsSyntaxAt text j → IsSyntaxAt text k → j ≡ k }
{}

// Takes so many entries.
fn read_entries(
    alloc: Global,
    cursor: &mut Cursor<'_>,
    count: u64,
) -> Result<Items<Entry>, ListFault>
    ensures taken { IfOk result (λ entries. TakesEntries cursor.old cursor.new entries) }
    ensures count { IfOk result (λ entries. length entries ≡ count) }
    ensures fault { IfErr result (λ f. IsEntryFault cursor.old count f) }
{
    let mut entries = Items::new(alloc);
    for at in 0..count {
        match read_entry(alloc, cursor) {
            Ok(entry) => entries.push(entry)?,
            Err(fault) => return Err(fault.at_entry(at + 1)),
        }
    }
    Ok(entries)
}
