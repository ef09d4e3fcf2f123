// The text of models.
ghost use Rattle.std.specs.Prelude.{◌≡◌, ◌++◌, IfOk, OnOk};
ghost use Rattle.front_text.specs.ModelsText.{entry_text, head_line, kind_line, models_text};

use crate::Reps;
use crate::print::append_model;
use itoa::Buffer;
use scut_base::NoMemory;
use std::alloc::Global;

/// The text of the models of entries. `read_models` reads it back. Costs one pass, and memory for the text alone.
pub fn print_models(alloc: Global, entries: &[Reps]) -> Result<Vec<u8>, NoMemory>
    ensures { IfOk result (λ text. text.items ≡ models_text entries.now) }
{
    let mut text = Vec::new(alloc);
    append_head(&mut text, entries.len())?;
    for reps in entries {
        append_entry(&mut text, reps)?;
    }
    Ok(text)
}

// Puts the first line at the end of a text.
fn append_head(text: &mut Vec<u8>, count: usize) -> Result<(), NoMemory>
    ensures { OnOk result (text.new.items ≡ text.old.items ++ head_line count) }
{
    text.extend_from_slice(b"s MODELS ")?;
    text.extend_from_slice(Buffer::new().format(count).as_bytes())?;
    text.push(b'\n')?;
    Ok(())
}

// Puts the lines of an entry at the end of a text.
fn append_entry(text: &mut Vec<u8>, reps: &Reps) -> Result<(), NoMemory>
    ensures { OnOk result (text.new.items ≡ text.old.items ++ entry_text reps.now) }
{
    append_kind(text, reps.all, reps.models.len())?;
    for model in reps.models.as_slice() {
        append_model(text, model.as_slice())?;
    }
    Ok(())
}

// Puts an entry's first line at the end of a text.
fn append_kind(text: &mut Vec<u8>, all: bool, count: usize) -> Result<(), NoMemory>
    ensures { OnOk result (text.new.items ≡ text.old.items ++ kind_line all count) }
{
    let kind: &[u8] = if all { b"e ALL " } else { b"e FIRST " };
    text.extend_from_slice(kind)?;
    text.extend_from_slice(Buffer::new().format(count).as_bytes())?;
    text.push(b'\n')?;
    Ok(())
}
