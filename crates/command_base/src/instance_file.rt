// Instance files: the ending of the name gives the format, and the format the reader.
ghost use Rattle.std.specs.Prelude.{◌≡◌, ◌<◌, ◌^◌, length, IfOk, IfErr};
ghost use Rattle.instance.specs.Reading.{IsFaultOf};
ghost use Rattle.command_base.specs.InstanceFile.{format_of, format_of_three, SpellsIn, fault_in};

use instance::{Instance, ReadFault};
use std::alloc::Global;

/// A format of instance files.
#[derive(Clone, Copy, Debug, PartialEq, Eq)]
pub enum Format {
    /// Hard clauses and weighted soft clauses.
    Mcnf,
    /// Linear statements.
    Opb,
}

/// The format of an instance file, by the ending of its name; `None` where the name has none of them.
pub fn format_of(name: &str) -> Option<Format>
    ensures { result ≡ format_of name.now }
{
    let name = name.as_bytes();
    if name.ends_with(b".mcnf") {
        Some(Format::Mcnf)
    } else if name.ends_with(b".opb") || name.ends_with(b".mopb") {
        Some(Format::Opb)
    } else {
        None
    }
}

/// The format of the first of three files with different names; `None` where two names are the same.
pub fn format_of_three(input: &str, list: &str, log: &str) -> Option<Format>
    ensures { result ≡ format_of_three input.now list.now log.now }
{
    if input == list || input == log || list == log {
        return None;
    }
    format_of(input)
}

/// The instance that the text of a file spells. Fails with the text's first fault.
pub fn read_text(alloc: Global, format: Format, bytes: &[u8]) -> Result<Instance, ReadFault>
    requires { length bytes.now < 2 ^ 32 }
    ensures spelled { IfOk result (λ inst. SpellsIn format bytes.now inst) }
    ensures fault { IfErr result (λ f. IsFaultOf (fault_in format bytes.now) f) }
{
    match format {
        Format::Mcnf => mcnf_reader::read(alloc, bytes),
        Format::Opb => mopb_reader::read(alloc, bytes),
    }
}
