// The words of the commands about models.
ghost use Rattle.std.specs.Prelude.{◌≡◌, IfOk, map, string_bytes};
ghost use Rattle.clap.specs.Words.{app_of, found_of, rows_of};
ghost use Rattle.command_check_models.specs.Words.{IsRequest, begins_with, list_app, models_app, models_asked_by, models_of_rows, names_clash};

use clap::ArgMatches;
use command_base::{Format, file, format_of, number_up_to, read_by, value, with_arg};
use scut_base::NoMemory;
use std::alloc::Global;
use std::marker::Model;

/// What a command about models is asked: the models of the list in one file, for the instance in another, up to so many for each entry.
#[derive(Debug, Drop)]
pub struct ModelsRequest<'a> {
    format: Format,
    input: &'a str,
    list: &'a str,
    most: u64,
    base: &'a str,
}

impl<'a> Model for ModelsRequest<'a> {
    ghost use Rattle.command_check_models.specs.Words.{IsRequest, ModelsAsked};

    ghost Value = { ModelsAsked };

    ghost view = { λ c. record {
      format = c.format;
      input = c.input.now;
      list = c.list.now;
      most = c.most;
      base = c.base.now;
    } };

    ghost invariant = { λ c. IsRequest (record {
      format = c.format;
      input = c.input.now;
      list = c.list.now;
      most = c.most;
      base = c.base.now;
    }) };
}

impl<'a> ModelsRequest<'a> {
    /// The format of the instance file.
    pub fn format(&self) -> Format
        ensures { result ≡ self.now.format }
    {
        self.format
    }

    /// The name of the instance file.
    pub fn input(&self) -> &'a str
        ensures { result.now ≡ self.now.input }
    {
        self.input
    }

    /// The name of the list.
    pub fn list(&self) -> &'a str
        ensures { result.now ≡ self.now.list }
    {
        self.list
    }

    /// How many models there may be for each entry. Its second clause tells what is so of the whole.
    pub fn most(&self) -> u64
        ensures value { result ≡ self.now.most }
        ensures request { IsRequest self.now }
    {
        self.most
    }

    /// How the names of the files begin that hold models and logs.
    pub fn base(&self) -> &'a str
        ensures { result.now ≡ self.now.base }
    {
        self.base
    }
}

/// What the words ask for, of which the first is this name; `None` exactly where clap, the names or the number refuse them.
pub fn read_request<'a>(
    alloc: Global,
    name: &'a str,
    words: &'a [String],
) -> Result<Option<ModelsRequest<'a>>, NoMemory>
    ensures { IfOk result (λ found.
        found ≡ models_asked_by name.entry.now (map string_bytes words.entry.now)) }
{
    let command = models_words(alloc, name)?;
    match read_by(command, words)? {
        Some(matches) => Ok(request_of_matches(&matches)),
        None => Ok(None),
    }
}

// The words, as clap reads them.
fn models_words<'a>(alloc: Global, name: &'a str) -> Result<clap::Command<'a>, NoMemory>
    ensures { IfOk result (λ c. app_of c ≡ models_app name.entry.now) }
{
    let command = list_words(alloc, name)?;
    let command = with_arg(command, file(alloc, "K"))?;
    with_arg(command, file(alloc, "BASE"))
}

// The first two of them.
fn list_words<'a>(alloc: Global, name: &'a str) -> Result<clap::Command<'a>, NoMemory>
    ensures { IfOk result (λ c. app_of c ≡ list_app name.entry.now) }
{
    let command = clap::Command::new(alloc, name);
    let command = with_arg(command, file(alloc, "IN"))?;
    with_arg(command, file(alloc, "LIST"))
}

// Two names that don't clash, the first of an instance file, and a number.
fn request_of_matches<'a>(matches: &ArgMatches<'a>) -> Option<ModelsRequest<'a>>
    ensures { result ≡ models_of_rows (rows_of (found_of matches.now)) }
{
    let input = value(matches, "IN");
    let list = value(matches, "LIST");
    let base = value(matches, "BASE");
    if names_clash(input, list, base) {
        return None;
    }
    let format = format_of(input)?;
    let most = number_up_to(1 << 20, value(matches, "K"))?;
    Some(ModelsRequest {
        format,
        input,
        list,
        most,
        base,
    })
}

// Whether two names are the same, or one of them begins as those of the files that are made.
fn names_clash(input: &str, list: &str, base: &str) -> bool
    ensures { result ≡ names_clash input.now list.now base.now }
{
    input == list || begins_with(base, input) || begins_with(base, list)
}

// Whether the name begins with the base and a dot.
fn begins_with(base: &str, name: &str) -> bool
    ensures { result ≡ begins_with base.now name.now }
{
    match name.as_bytes().strip_prefix(base.as_bytes()) {
        Some(rest) => rest.starts_with(b"."),
        None => false,
    }
}
