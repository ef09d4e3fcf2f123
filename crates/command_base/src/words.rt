// The words of a command, by `clap`.
ghost use Rattle.std.specs.Prelude.{◌≡◌, IfOk, false, true, map, option_map, string_bytes};
ghost use Rattle.clap.specs.Words.{app_of, rule_of, with_rule, rows_of, found_of, first_of, is_simple_and_free};
ghost use Rattle.command_base.specs.CommandWords.{rows_by, value_of, is_set, file_rule, number_up_to, option_rule, flag_rule};

use clap::error::ErrorKind;
use clap::{Arg, ArgAction, ArgMatches, Command};
use scut_base::{NoMemory, read_u64};
use std::alloc::Global;

/// A required file name.
pub fn file<'a>(alloc: Global, id: &'a str) -> Arg<'a>
    ensures rule { rule_of result ≡ file_rule id.entry.now }
    ensures local { result.global ≡ false }
{
    Arg::new(alloc, id).required(true).action(ArgAction::Set)
}

/// An option of one value.
pub fn option<'a>(alloc: Global, id: &'a str) -> Arg<'a>
    ensures rule { rule_of result ≡ option_rule id.entry.now }
    ensures local { result.global ≡ false }
{
    Arg::new(alloc, id).long(id).action(ArgAction::Set)
}

/// An option without a value.
pub fn flag<'a>(alloc: Global, id: &'a str) -> Arg<'a>
    ensures rule { rule_of result ≡ flag_rule id.entry.now }
    ensures local { result.global ≡ false }
{
    Arg::new(alloc, id).long(id).action(ArgAction::SetTrue)
}

/// The command with one argument more.
pub fn with_arg<'a>(command: Command<'a>, arg: Arg<'a>) -> Result<Command<'a>, NoMemory>
    requires { arg.global ≡ false }
    ensures { IfOk result (λ c. app_of c ≡ with_rule (app_of command.entry) (rule_of arg.entry)) }
{
    Ok(command.arg(arg)?)
}

/// What clap finds in the words by this command, of which the first is the command's name; `None` exactly where it
/// refuses them. Help and a version are refusals too.
pub fn read_by<'a>(
    command: Command<'a>,
    words: &'a [String],
) -> Result<Option<ArgMatches<'a>>, NoMemory>
    requires { is_simple_and_free (app_of command) ≡ true }
    ensures { IfOk result (λ found. option_map (λ m. rows_of (found_of m)) found
        ≡ rows_by (app_of command.entry) (map string_bytes words.entry.now)) }
{
    match command.try_get_matches_from(words) {
        Ok(matches) => Ok(Some(matches)),
        Err(error) => {
            if error.kind() == ErrorKind::OutOfMemory {
                return Err(NoMemory);
            }
            Ok(None)
        }
    }
}

/// The value of an argument, where it has one.
pub fn optional<'a>(matches: &ArgMatches<'a>, id: &str) -> Option<&'a str>
    ensures { option_map (λ s. s.now) result ≡ first_of id.now (rows_of (found_of matches.now)) }
{
    matches.get_str(id)
}

/// The value of a required argument.
pub fn value<'a>(matches: &ArgMatches<'a>, id: &str) -> &'a str
    ensures { result.now ≡ value_of id.now (rows_of (found_of matches.now)) }
{
    match optional(matches, id) {
        Some(text) => text,
        None => "",
    }
}

/// Whether a flag is set.
pub fn is_set(matches: &ArgMatches<'_>, id: &str) -> bool
    ensures { result ≡ is_set id.now (rows_of (found_of matches.now)) }
{
    match optional(matches, id) {
        Some(text) => text == "true",
        None => false,
    }
}

/// The number of a text, where it is one from 1 to `most`.
pub fn number_up_to(most: u64, text: &str) -> Option<u64>
    ensures { result ≡ number_up_to most text.now }
{
    match read_u64(text.as_bytes()) {
        Ok(number) => {
            if number > 0 && number <= most {
                return Some(number);
            }
            None
        }
        Err(_) => None,
    }
}
