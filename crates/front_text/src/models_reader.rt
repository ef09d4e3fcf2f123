// The reader of models, and the laws of their texts.
ghost use Rattle.std.specs.Prelude.{◌≡◌, ℕ, ◌<◌, ◌^◌, List, length, IfOk, IfErr};
ghost use Rattle.front_text.specs.declared.reps.Reps.{Reps};
ghost use Rattle.front_text.specs.Reading.{Reads};
ghost use Rattle.front_text.specs.ModelsText.{entry_text, models_text};
ghost use Rattle.front_text.specs.ModelsReading.{IsEntryFault, ReadsModels, TakesEntries};
ghost use Rattle.front_text.specs.ModelsSpelling.{IsFaultOf, IsSyntaxAt};

use crate::cursor::Cursor;
use crate::entry::{LineFault, read_model};
use crate::models_head::{take_head, take_kind};
use crate::{ModelsFault, Reps};
use scut_base::{Assignment, Items};
use std::alloc::Global;

/// Reads the models whose text the bytes are. A refusal names the entry at which they go wrong. One pass; takes memory for the
/// models, and no more for a count than for what is there.
pub fn read_models(alloc: Global, bytes: &[u8]) -> Result<Items<Reps>, ModelsFault>
    ensures spelled { IfOk result (λ entries. bytes.now ≡ models_text entries) }
    ensures fault { IfErr result (λ f. IsFaultOf bytes.now f) }
{
    let mut cursor = Cursor::new(bytes);
    let Some(count) = take_head(&mut cursor) else {
        return Err(ModelsFault::Syntax { entry: 0 });
    };
    let entries = read_entries(alloc, &mut cursor, count)?;
    if !cursor.is_at_end() {
        return Err(ModelsFault::Syntax { entry: count + 1 });
    }
    Ok(entries)
}

/// Law: a text of fewer than 2^64 bytes is that of the models of one list of entries at most.
pub fn one_models_text()
    ensures { (entries others : List Reps) → length (models_text entries) < 2 ^ 64
        → models_text entries ≡ models_text others → entries ≡ others }
{}

/// Law: a text of models goes wrong at no entry.
pub fn no_models_fault_where_spelled()
    ensures { (entries : List Reps) (k : ℕ) → length (models_text entries) < 2 ^ 64
        → IsSyntaxAt (models_text entries) k → ⊥ }
{}

/// Law: a text goes wrong at one entry at most.
pub fn one_models_fault()
    ensures { (text : List ℕ) (j k : ℕ)
        → length text < 2 ^ 64 → IsSyntaxAt text j → IsSyntaxAt text k → j ≡ k }
{}

// Takes so many entries.
fn read_entries(
    alloc: Global,
    cursor: &mut Cursor<'_>,
    count: u64,
) -> Result<Items<Reps>, ModelsFault>
    requires { length cursor.old < 2 ^ 64 }
    ensures taken { IfOk result (λ entries. TakesEntries cursor.old cursor.new entries) }
    ensures count { IfOk result (λ entries. length entries ≡ count) }
    ensures fault { IfErr result (λ f. IsEntryFault cursor.old count f) }
{
    let mut entries = Items::new(alloc);
    for at in 0..count {
        match read_entry(alloc, cursor) {
            Ok(reps) => entries.push(reps)?,
            Err(LineFault::Wrong) => return Err(ModelsFault::Syntax { entry: at + 1 }),
            Err(LineFault::NoMemory) => return Err(ModelsFault::NoMemory),
        }
    }
    Ok(entries)
}

// Takes the lines of an entry.
fn read_entry(alloc: Global, cursor: &mut Cursor<'_>) -> Result<Reps, LineFault>
    requires { length cursor.old < 2 ^ 64 }
    ensures { Reads entry_text (λ _. Unit {0}) cursor.old cursor.new result }
{
    let Some(kind) = take_kind(cursor) else {
        return Err(LineFault::Wrong);
    };
    let models = read_entry_models(alloc, cursor, kind.count)?;
    Ok(Reps {
        all: kind.all,
        models,
    })
}

// Takes the lines of so many models.
fn read_entry_models(
    alloc: Global,
    cursor: &mut Cursor<'_>,
    count: u64,
) -> Result<Items<Assignment>, LineFault>
    requires { length cursor.old < 2 ^ 64 }
    ensures { ReadsModels count cursor.old cursor.new result }
{
    let mut models = Items::new(alloc);
    for _at in 0..count {
        models.push(read_model(alloc, cursor)?)?;
    }
    Ok(models)
}
