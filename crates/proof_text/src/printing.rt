// The text of a line.
ghost use Rattle.std.specs.Prelude.{◌≡◌, IfOk};
ghost use Rattle.proof_lines.specs.declared.spelling.Spelling.TheVariants.{Plain, Relative};
ghost use Rattle.proof_lines.specs.LineText.{printed};
ghost use Rattle.proof_text.specs.Versions.{header_line};

use itoa::Buffer;
use proof_laws::Line;
use proof_lines::{Spelling, append_line};
use scut_base::NoMemory;
use std::alloc::Global;

/// The text of a line, with its line feed. Costs one pass, and memory for the text alone.
pub fn print(alloc: Global, line: &Line) -> Result<Vec<u8>, NoMemory>
    ensures { IfOk result (λ text. text.items ≡ printed Plain line.now) }
{
    let mut text = Vec::new(alloc);
    append_line(&mut text, Spelling::Plain, line)?;
    Ok(text)
}

/// The text of a line, with its line feed, in which ids that lines over so many rows made are counted
/// back from the next id. Costs one pass, and memory for the text and for the runs of `del` and `reduce`.
pub fn print_relative(
    alloc: Global,
    line: &Line,
    rows: u64,
    next_id: u64,
) -> Result<Vec<u8>, NoMemory>
    ensures { IfOk result (λ text. text.items ≡ printed (Relative rows next_id) line.now) }
{
    let mut text = Vec::new(alloc);
    append_line(&mut text, Spelling::Relative { rows, next_id }, line)?;
    Ok(text)
}

/// The first line of a log, with its line feed, by how the line after it spells its ids. Costs one
/// pass, and memory for the text alone.
pub fn print_header(alloc: Global, first: Spelling) -> Result<Vec<u8>, NoMemory>
    ensures { IfOk result (λ text. text.items ≡ header_line first) }
{
    let mut text = Vec::new(alloc);
    match first {
        Spelling::Plain => text.extend_from_slice(b"scuttle proof version 1\n")?,
        Spelling::Relative { rows, .. } => {
            text.extend_from_slice(b"scuttle proof version 2 rows ")?;
            text.extend_from_slice(Buffer::new().format(rows).as_bytes())?;
            text.push(b'\n')?;
        }
    }
    Ok(text)
}
