// What a command is.
ghost use Rattle.std.specs.Prelude.{◌≡◌, map, string_bytes};
ghost use Rattle.command_base.specs.Answering.{Answered, Runs, calls_of, table_of};
ghost use Rattle.command_base.specs.Messages.{IsWarned, warning_text};

use crate::Status;
use crate::messages::warn_of;
use scut_base::{NoMemory, Shelf, ShelfFault};
use std::alloc::Global;

/// A command with its files and options.
pub trait Command<'a> {
    ghost use Rattle.std.specs.Prelude.{◌≡◌, ℕ, List, Option, IfOk, map, option_map, string_bytes};
    ghost use Rattle.command_base.specs.Answering.{Call, Runs};
    ghost use Rattle.command_base.specs.Views.{View};
    ghost use Rattle.command_base.specs.declared.status.Status.{Status};
    ghost use Rattle.command_base.specs.declared.status.Status.TheVariants.{NoMemory};

    /// What words may ask of it.
    ghost Asked: { Type 0 };

    /// What it is asked.
    ghost request: { Self → Asked };

    /// What words ask of it, of which the first is its name; nothing if they are none of its own.
    ghost asked_by: { List (List ℕ) → Option Asked };

    /// Its table: what each status says of the files and of what was said, before and after.
    ghost table: { Asked → Status → View → View → Type 0 };

    /// The calls that are its own: a fault of one of these may end it.
    ghost own: { Asked → List Call };

    /// If nothing was done, memory may have been wanted.
    ghost undone: { (a : Asked) (v : View) → table a NoMemory v v };

    /// The command that the words ask for; `None` exactly if they ask nothing of it.
    fn read(alloc: Global, words: &'a [String]) -> Result<Option<Self>, NoMemory>
        ensures { IfOk result (λ found.
            option_map request found ≡ asked_by (map string_bytes words.entry.now)) };

    /// Runs it. It warns of nothing.
    fn run<H: Shelf>(&self, alloc: Global, shelf: &mut H) -> Status
        ensures { Runs (table (request self.now)) (own (request self.now)) result
            (H.world shelf.old) (H.world shelf.new) };
}

/// Runs what the words ask of a command, and warns of a status of which nothing is said. Answers the status, which a
/// warning that fails doesn't change, and how the warning went.
pub fn run_asked<'a, C: Command<'a> + Drop, H: Shelf>(
    alloc: Global,
    words: &'a [String],
    shelf: &mut H,
) -> (Status, Result<(), ShelfFault>)
    ensures answered { Answered (table_of C.table (C.asked_by (map string_bytes words.entry.now)))
        (calls_of C.own (C.asked_by (map string_bytes words.entry.now))) result.0
        (H.world shelf.old) (H.world shelf.new) }
    ensures warned { IsWarned (warning_text result.0) (H.world shelf.old)
        (H.world shelf.new) result.1 }
{
    let status = run_unwarned::<C, H>(alloc, words, shelf);
    let warning = warn_of(alloc, status, shelf);
    (status, warning)
}

// Runs what the words ask of a command.
fn run_unwarned<'a, C: Command<'a> + Drop, H: Shelf>(
    alloc: Global,
    words: &'a [String],
    shelf: &mut H,
) -> Status
    ensures { Runs (table_of C.table (C.asked_by (map string_bytes words.entry.now)))
        (calls_of C.own (C.asked_by (map string_bytes words.entry.now))) result
        (H.world shelf.old) (H.world shelf.new) }
{
    match C::read(alloc, words) {
        Ok(Some(command)) => command.run(alloc, shelf),
        Ok(None) => Status::Usage,
        Err(NoMemory) => Status::NoMemory,
    }
}
