//! The command `gen NUMBER VARS OBJECTIVES OUT`: an instance of so many items and objectives, made from a number, as an
//! instance file of hard and soft clauses in the file OUT.
//!
//! Its public contract: what it answers goes by its table (`GenTable`), and what its words ask for is `gen_asked`. The same
//! words make the same file: `make` answers the instance whose clauses and weights are drawn as `generated` says, and
//! `print_mcnf` the text of an instance's statements, which spells it by the grammar of instance files.
//!
//! Begin here, with the words and `run`. What an instance is made from is in `origin`, how it is drawn in `making` and
//! `draws`, and its text in `printing`.
#![tactic(auto)]

ghost use Rattle.std.specs.Prelude.{◌≡◌, IfOk, IsErrOf, OnErr, OnOk, option_map};
ghost use Rattle.clap.specs.Words.{app_of, found_of, rows_of};
ghost use Rattle.scut_base.specs.Faults.{NoneFell, WritingFailed};
ghost use Rattle.scut_base.specs.Files.{IsPrefixOf, IsTouched, with_file};
ghost use Rattle.command_base.specs.InstanceFile.{IsTextOf};
ghost use Rattle.command_base.specs.declared.instance_file.Format.TheVariants.{Mcnf};
ghost use Rattle.command_gen.specs.Origin.{instance_from, text_from};
ghost use Rattle.command_gen.specs.Table.{GenRuns};
ghost use Rattle.command_gen.specs.Words.{asked, gen_app, gen_of_rows, gen_sizes};

mod draws;
mod making;
mod origin;
mod printing;

use crate::printing::print_mcnf;
use clap::ArgMatches;
use command_base::{Command, Status, file, read_by, say, value, with_arg};
pub use origin::Origin;
use scut_base::{NoMemory, Shelf, ShelfFault};
use std::alloc::Global;

/// The command `gen`: what it makes an instance from, and the file that it writes.
#[derive(Clone, Copy, Debug)]
pub struct Gen<'a> {
    pub origin: Origin,
    pub out: &'a str,
}

// The words of the command, as clap reads them.
fn gen_words<'a>(alloc: Global) -> Result<clap::Command<'a>, NoMemory>
    ensures { IfOk result (λ c. app_of c ≡ gen_app) }
{
    let command = size_words(alloc)?;
    with_arg(command, file(alloc, "OUT"))
}

// The command's numbers. A required word is a file's name to clap, whatever it says.
fn size_words<'a>(alloc: Global) -> Result<clap::Command<'a>, NoMemory>
    ensures { IfOk result (λ c. app_of c ≡ gen_sizes) }
{
    let command = clap::Command::new(alloc, "gen");
    let command = with_arg(command, file(alloc, "NUMBER"))?;
    let command = with_arg(command, file(alloc, "VARS"))?;
    with_arg(command, file(alloc, "OBJECTIVES"))
}

// The command of three numbers and the name of an instance file of hard and soft clauses.
fn gen_of_matches<'a>(matches: &ArgMatches<'a>) -> Option<Gen<'a>>
    ensures { option_map asked result ≡ gen_of_rows (rows_of (found_of matches.now)) }
{
    let number = value(matches, "NUMBER");
    let vars = value(matches, "VARS");
    let objectives = value(matches, "OBJECTIVES");
    let out = value(matches, "OUT");
    if !out.as_bytes().ends_with(b".mcnf") {
        return None;
    }
    let origin = Origin::read(number, vars, objectives)?;
    Some(Gen { origin, out })
}

impl<'a> Command<'a> for Gen<'a> {
    ghost use Rattle.std.proofs.Common.{inl, refl};
    ghost use Rattle.command_gen.specs.Table.{GenTable, gen_calls};
    ghost use Rattle.command_gen.specs.Words.{GenAsked, asked, gen_asked};

    ghost Asked = { GenAsked };

    ghost request = { asked };

    ghost asked_by = { gen_asked };

    ghost table = { GenTable };

    ghost own = { gen_calls };

    ghost undone = { λ a v. inl (record { files = inl refl; said = refl }) };

    fn read(alloc: Global, words: &'a [String]) -> Result<Option<Gen<'a>>, NoMemory> {
        let command = gen_words(alloc)?;
        match read_by(command, words)? {
            Some(matches) => Ok(gen_of_matches(&matches)),
            None => Ok(None),
        }
    }

    fn run<H: Shelf>(&self, alloc: Global, shelf: &mut H) -> Status {
        match text_of(alloc, self.origin) {
            Ok(text) => self.write(alloc, &text, shelf),
            Err(fault) => Status::from(fault),
        }
    }
}

impl<'a> Gen<'a> {
    // Writes this text to the file, and says that it is done.
    fn write<H: Shelf>(&self, alloc: Global, text: &[u8], shelf: &mut H) -> Status
        requires text { text.now ≡ text_from self.now.origin }
        requires spelled { IsTextOf Mcnf (instance_from self.now.origin) text.now }
        ensures { GenRuns (asked self.now) result (H.world shelf.old) (H.world shelf.new) }
    {
        match write_text(shelf, self.out, text) {
            Ok(()) => say(alloc, Status::Done, shelf),
            Err(fault) => Status::from(fault),
        }
    }
}

// The text of the instance that is made.
fn text_of(alloc: Global, origin: Origin) -> Result<Vec<u8>, NoMemory>
    ensures text { IfOk result (λ text. text.items ≡ text_from origin) }
    ensures spelled { IfOk result (λ text. IsTextOf Mcnf (instance_from origin) text.items) }
{
    let inst = origin.instance(alloc)?;
    let text = print_mcnf(alloc, &inst)?;
    Ok(text)
}

// Writes a file of these bytes. After a fault it is as before, or holds a prefix of them.
fn write_text<H: Shelf>(shelf: &mut H, name: &str, text: &[u8]) -> Result<(), ShelfFault>
    ensures ok { OnOk result
        ((H.world shelf.new).files ≡ with_file (H.world shelf.old).files name.now text.now) }
    ensures err { OnErr result (IsTouched (H.world shelf.old).files
        (H.world shelf.new).files name.now (λ bytes. IsPrefixOf bytes text.now)) }
    ensures said { (H.world shelf.new).said ≡ (H.world shelf.old).said }
    ensures warned { (H.world shelf.new).warned ≡ (H.world shelf.old).warned }
    ensures later { NoneFell (H.world shelf.old).faults (H.world shelf.new).faults }
    ensures failed { IsErrOf result ShelfFault.Failed
        → WritingFailed (H.world shelf.old).faults (H.world shelf.new).faults name.now }
{
    shelf.begin(name)?;
    shelf.append(name, text)?;
    Ok(())
}
