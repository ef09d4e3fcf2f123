// Lines that are written into a file.
ghost use Rattle.std.specs.Prelude.{◌≡◌, OnErr, OnOk, IsErrOf};
ghost use Rattle.scut_base.specs.Faults.{NoneFell, WritingFailed};
ghost use Rattle.scut_base.specs.Files.{with_file, IsPrefixOf, IsTouched};
ghost use Rattle.proof_lines.specs.declared.spelling.Spelling.TheVariants.{Plain};
ghost use Rattle.proof_text.specs.Versions.{log_text};

use proof_laws::Line;
use proof_text::{LogWriter, Spelling};
use scut_base::{Shelf, ShelfFault};
use std::alloc::Global;

/// Begins the file anew and writes the log of these lines in version 1, each by one append. After a fault the file is as
/// before, or holds a prefix of that. Fails with `Failed` only where the file couldn't be begun or appended to.
pub(crate) fn write_log<H: Shelf>(
    alloc: Global,
    output: &str,
    lines: &[Line],
    shelf: &mut H,
) -> Result<(), ShelfFault>
    ensures written { OnOk result ((H.world shelf.new).files
        ≡ with_file (H.world shelf.old).files output.now (log_text Plain lines.now)) }
    ensures partly { OnErr result (IsTouched (H.world shelf.old).files (H.world shelf.new).files
        output.now (λ bytes. IsPrefixOf bytes (log_text Plain lines.now))) }
    ensures said { (H.world shelf.new).said ≡ (H.world shelf.old).said }
    ensures warned { (H.world shelf.new).warned ≡ (H.world shelf.old).warned }
    ensures later { NoneFell (H.world shelf.old).faults (H.world shelf.new).faults }
    ensures failed { IsErrOf result ShelfFault.Failed → WritingFailed
        (H.world shelf.old).faults (H.world shelf.new).faults output.now }
{
    let mut writer = LogWriter::begin(alloc, output, Spelling::Plain, shelf)?;
    for line in lines {
        writer.write(line, shelf)?;
    }
    Ok(())
}
