// Files read and written whole.
ghost use Rattle.std.specs.Prelude.{◌≡◌, ◌<◌, ◌≤◌, ◌^◌, length, vec_len, IfOk, MatchOption, OnOk, OnErr, IsErrOf};
ghost use Rattle.std.specs.List.{concat};
ghost use Rattle.scut_base.specs.Faults.{NoneFell, ReadingFailed, WritingFailed};
ghost use Rattle.scut_base.specs.Files.{with_file, IsTouched, IsPrefixOf};
ghost use Rattle.command_base.specs.Views.{OnlyReads};
ghost use Rattle.command_base.specs.WholeFile.{IsWhole, IsLarge};

use scut_base::{Items, NoMemory, Shelf, ShelfFault};
use std::alloc::Global;

/// How many bytes one read asks for: so many that a file of megabytes takes few calls, and so few
/// that the buffer stays in the processor's cache.
pub const PIECE: usize = 65_536;

// No instance file has as many bytes, so that lines and places are counted without a test.
const LIMIT: usize = 1 << 32;

/// Reads a file whole, in pieces; `None` where it has 2^32 bytes or more, and then no further.
/// Fails with `Failed` only where a read of the file failed.
pub fn read_whole<H: Shelf>(
    alloc: Global,
    name: &str,
    shelf: &mut H,
) -> Result<Option<Vec<u8>>, ShelfFault>
    ensures whole { IfOk result (λ found. MatchOption found (IsLarge
        (H.world shelf.old).files name.now)
        (λ v. IsWhole (H.world shelf.old).files name.now v.items × (length v.items < 2 ^ 32))) }
    ensures only_reads { OnlyReads (H.world shelf.old) (H.world shelf.new) }
    ensures failed { IsErrOf result ShelfFault.Failed
        → ReadingFailed (H.world shelf.old).faults (H.world shelf.new).faults name.now }
{
    let mut bytes = Vec::new(alloc);
    let mut buffer = zeros(alloc, PIECE)?;
    let piece = buffer.as_mut_slice();
    while bytes.len() < LIMIT {
        let n = shelf.read_at(name, bytes.len() as u64, piece)?;
        if n == 0 {
            return Ok(Some(bytes));
        }
        bytes.extend_from_slice(&piece[..n])?;
    }
    Ok(None)
}

/// Writes a file of these lines, each by one append. After a fault the file is as before, or holds a
/// prefix of the lines. Fails with `Failed` only where the file couldn't be begun or appended to.
pub fn write_lines<H: Shelf>(
    shelf: &mut H,
    name: &str,
    lines: &[Items<u8>],
) -> Result<(), ShelfFault>
    ensures ok { OnOk result
        ((H.world shelf.new).files ≡ with_file (H.world shelf.old).files name.now
        (concat lines.now)) }
    ensures err { OnErr result (IsTouched (H.world shelf.old).files
        (H.world shelf.new).files name.now
        (λ bytes. IsPrefixOf bytes (concat lines.now))) }
    ensures said { (H.world shelf.new).said ≡ (H.world shelf.old).said }
    ensures warned { (H.world shelf.new).warned ≡ (H.world shelf.old).warned }
    ensures later { NoneFell (H.world shelf.old).faults (H.world shelf.new).faults }
    ensures failed { IsErrOf result ShelfFault.Failed
        → WritingFailed (H.world shelf.old).faults (H.world shelf.new).faults name.now }
{
    shelf.begin(name)?;
    for line in lines {
        shelf.append(name, line.as_slice())?;
    }
    Ok(())
}

/// A buffer of this many bytes.
pub fn zeros(alloc: Global, len: usize) -> Result<Vec<u8>, NoMemory>
    ensures { IfOk result (λ v. vec_len v ≡ len) }
{
    Ok(vec![in alloc; 0u8; len]?)
}
