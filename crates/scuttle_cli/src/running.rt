// The top call.
ghost use Rattle.std.specs.Prelude.{◌≡◌, ◌≢◌, None, map, string_bytes};
ghost use Rattle.scut_base.specs.Files.{IsPartlyFollowed};
ghost use Rattle.command_base.specs.Answering.{Answered};
ghost use Rattle.command_base.specs.Messages.{IsWarned, warning_text};
ghost use Rattle.scuttle_cli.specs.Answers.{CompletesOf, HasUsage, TableOf, own_calls};
ghost use Rattle.scuttle_cli.specs.Requests.{request_of};

use crate::names::{CommandName, command_in};
use command_base::{Status, run_asked, warn_of};
use command_check::Check;
use command_check_models::CheckModels;
use command_elaborate::Elaborate;
use command_front::Front;
use command_gen::Gen;
use command_models::Models;
use command_solve::Solve;
use command_trial::Trial;
use command_trim::Trim;
use command_upgrade::Upgrade;
use scut_base::{Shelf, ShelfFault};
use std::alloc::Global;

/// Runs the command that the words ask for, and warns of a status of which nothing is said; the words
/// are those of the command line without the program's name. A warning that fails changes no status.
pub fn run<H: Shelf>(alloc: Global, words: &[String], shelf: &mut H) -> Status
    ensures usage { request_of (map string_bytes words.now) ≡ None → result ≢ Status.NoMemory
        → result ≡ Status.Usage }
    ensures only_usage { result ≡ Status.Usage
        → HasUsage (request_of (map string_bytes words.now)) (H.world shelf.old).files }
    ensures answered { Answered (TableOf (request_of (map string_bytes words.now)))
        (own_calls (request_of (map string_bytes words.now))) result
        (H.world shelf.old) (H.world shelf.new) }
    ensures complete { CompletesOf (request_of (map string_bytes words.now)) result
        (H.world shelf.old) (H.world shelf.new) }
    ensures warned { IsPartlyFollowed (H.world shelf.old).warned (H.world shelf.new).warned
        (warning_text result) }
{
    let (status, _) = run_named(alloc, words, shelf);
    status
}

// The same, and how the warning went: what `run` can't tell is why a warning was cut off.
fn run_named<H: Shelf>(
    alloc: Global,
    words: &[String],
    shelf: &mut H,
) -> (Status, Result<(), ShelfFault>)
    ensures answered { Answered (TableOf (request_of (map string_bytes words.now)))
        (own_calls (request_of (map string_bytes words.now))) result.0
        (H.world shelf.old) (H.world shelf.new) }
    ensures warned { IsWarned (warning_text result.0) (H.world shelf.old)
        (H.world shelf.new) result.1 }
{
    match command_in(words) {
        Some(CommandName::Front) => run_asked::<Front<'_>, H>(alloc, words, shelf),
        Some(CommandName::Solve) => run_asked::<Solve<'_>, H>(alloc, words, shelf),
        Some(CommandName::Check) => run_asked::<Check<'_>, H>(alloc, words, shelf),
        Some(CommandName::Upgrade) => run_asked::<Upgrade<'_>, H>(alloc, words, shelf),
        Some(CommandName::Elaborate) => run_asked::<Elaborate<'_>, H>(alloc, words, shelf),
        Some(CommandName::Trim) => run_asked::<Trim<'_>, H>(alloc, words, shelf),
        Some(CommandName::Models) => run_asked::<Models<'_>, H>(alloc, words, shelf),
        Some(CommandName::CheckModels) => run_asked::<CheckModels<'_>, H>(alloc, words, shelf),
        Some(CommandName::Gen) => run_asked::<Gen<'_>, H>(alloc, words, shelf),
        Some(CommandName::Trial) => run_asked::<Trial<'_>, H>(alloc, words, shelf),
        None => {
            let warning = warn_of(alloc, Status::Usage, shelf);
            (Status::Usage, warning)
        }
    }
}
