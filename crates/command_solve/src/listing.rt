// Writing what a search has found.
ghost use Rattle.std.specs.Prelude.{◌≡◌, length};
ghost use Rattle.std.specs.List.{concat};
ghost use Rattle.front_set.specs.ListText.{list_text};
ghost use Rattle.command_base.specs.Answering.{Runs};
ghost use Rattle.command_solve.specs.Listing.{ListTable, is_complete, list_calls, status_of};

use certified_front::{Ending, Found};
use command_base::{Status, say, write_lines};
use front_text::list_lines;
use scut_base::{Items, Shelf};
use std::alloc::Global;

// Writes the list of what was found, and says its size and how the search has ended.
pub(crate) fn write_found<H: Shelf>(
    alloc: Global,
    found: &Found,
    list: &str,
    shelf: &mut H,
) -> Status
    ensures { Runs (ListTable list.now
        (list_text (is_complete found.now.ending) found.now.entries.items)
        (length found.now.entries.items) found.now.ending) (list_calls list.now) result
        (H.world shelf.old) (H.world shelf.new) }
{
    let size = found.entries.len() as u64;
    match list_lines(alloc, is_complete(found.ending), &found.entries) {
        Ok(lines) => write_list(alloc, size, found.ending, list, lines.as_slice(), shelf),
        Err(fault) => Status::from(fault),
    }
}

// The same where the list's lines are these.
fn write_list<H: Shelf>(
    alloc: Global,
    size: u64,
    ending: Ending,
    list: &str,
    lines: &[Items<u8>],
    shelf: &mut H,
) -> Status
    ensures { Runs (ListTable list.now (concat lines.now) size ending) (list_calls list.now)
        result (H.world shelf.old) (H.world shelf.new) }
{
    match write_lines(shelf, list, lines) {
        Ok(()) => say(alloc, status_of(size, ending), shelf),
        Err(fault) => Status::from(fault),
    }
}

// The status of a search that has ended so, with a list of this size.
fn status_of(size: u64, ending: Ending) -> Status
    ensures { result ≡ status_of size ending }
{
    match ending {
        Ending::Complete => Status::Complete { size },
        Ending::Incomplete { learned } => Status::Incomplete { size, learned },
    }
}

// Whether the list is that of the front.
fn is_complete(ending: Ending) -> bool
    ensures { result ≡ is_complete ending }
{
    match ending {
        Ending::Complete => true,
        Ending::Incomplete { learned: _ } => false,
    }
}
