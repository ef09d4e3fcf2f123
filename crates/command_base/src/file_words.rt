// The words of a command that is given files alone.
ghost use Rattle.std.specs.Prelude.{◌≡◌, IfOk, map, option_map, string_bytes, true};
ghost use Rattle.std.specs.List.{list_any};
ghost use Rattle.std.specs.Option.{ForSome};
ghost use Rattle.std.specs.Str.{bytes_eq};
ghost use Rattle.clap.specs.Words.{app_of, found_of, is_simple_and_free, rows_of};
ghost use Rattle.command_base.specs.FileWords.{all_differ, files_app, files_asked, files_named, names_of, values_of};

use crate::instance_file::{Format, format_of};
use crate::words::{file, read_by, value, with_arg};
use clap::{ArgMatches, Command};
use scut_base::NoMemory;
use std::alloc::Global;

/// The names of a command's files, all different, of which the first is an instance file's.
#[derive(Debug, Drop)]
pub struct FileNames<'a> {
    pub format: Format,
    pub names: Vec<&'a str>,
}

/// The files that the words give a command of this name in these places; `None` exactly if clap or the names refuse them.
pub fn read_files<'a>(
    alloc: Global,
    name: &'a str,
    places: &[&'a str],
    words: &'a [String],
) -> Result<Option<FileNames<'a>>, NoMemory>
    requires { is_simple_and_free (files_app name.now (map (λ s. s.now) places.now)) ≡ true }
    ensures asked { IfOk result (λ found. option_map names_of found
        ≡ files_asked name.entry.now (map (λ s. s.now) places.now)
        (map string_bytes words.entry.now)) }
    ensures differ { IfOk result (λ found. ForSome found (λ files.
        all_differ (names_of files).names ≡ true)) }
{
    let command = files_command(alloc, name, places)?;
    match read_by(command, words)? {
        Some(matches) => Ok(files_named(values(alloc, &matches, places)?)),
        None => Ok(None),
    }
}

// The command of these files, as clap reads it.
fn files_command<'a>(
    alloc: Global,
    name: &'a str,
    places: &[&'a str],
) -> Result<Command<'a>, NoMemory>
    ensures { IfOk result (λ c.
        app_of c ≡ files_app name.entry.now (map (λ s. s.now) places.now)) }
{
    let mut command = Command::new(alloc, name);
    for place in places {
        command = with_arg(command, file(alloc, place))?;
    }
    Ok(command)
}

// The values of these arguments.
fn values<'a>(
    alloc: Global,
    matches: &ArgMatches<'a>,
    places: &[&str],
) -> Result<Vec<&'a str>, NoMemory>
    ensures { IfOk result (λ names. map (λ s. s.now) names.items
        ≡ values_of (map (λ s. s.now) places.now) (rows_of (found_of matches.now))) }
{
    let mut names = Vec::new(alloc);
    for place in places {
        names.push(value(matches, place))?;
    }
    Ok(names)
}

// The files of these names, if all are different and the first is an instance file's.
fn files_named<'a>(names: Vec<&'a str>) -> Option<FileNames<'a>>
    ensures asked { option_map names_of result ≡ files_named (map (λ s. s.now) names.entry.items) }
    ensures differ { ForSome result (λ files. all_differ (names_of files).names ≡ true) }
{
    if !all_differ(&names) {
        return None;
    }
    let format = format_of(names.first()?)?;
    Some(FileNames { format, names })
}

// Whether no name comes twice.
fn all_differ(names: &[&str]) -> bool
    ensures { result ≡ all_differ (map (λ s. s.now) names.now) }
{
    for at in 0..names.len() {
        if is_among(names[at], &names[at + 1..]) {
            return false;
        }
    }
    true
}

// Whether a name is one of these.
fn is_among(name: &str, names: &[&str]) -> bool
    ensures { result ≡ list_any (bytes_eq name.now) (map (λ s. s.now) names.now) }
{
    for other in names {
        if name == *other {
            return true;
        }
    }
    false
}
