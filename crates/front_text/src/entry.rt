// The two lines of an entry.
ghost use Rattle.std.specs.Prelude.{◌≡◌, ◌<◌, All, IfOk};
ghost use Rattle.std.specs.Fmt.{signed_decimal};
ghost use Rattle.front_set.specs.ListText.{costs_line, model_line, entry_text, literal_text};
ghost use Rattle.front_text.specs.Spelling.{IsCost, HasCosts};
ghost use Rattle.front_text.specs.Reading.{Reads, Takes, TakesCost, IsValueOf, fault_at};

use crate::ListFault;
use crate::cursor::Cursor;
use front_set::{CostVec, Entry};
use itoa::Buffer;
use scut_base::{Assignment, Items, Lit, NoMemory, read_i64};
use std::alloc::Global;

/// Why the lines of an entry were not read.
#[derive(Clone, Copy)]
pub enum LineFault {
    /// The text begins with no such line.
    Wrong,
    /// Memory was refused.
    NoMemory,
}

impl LineFault {
    /// The fault of the list, at an entry counted from 1.
    pub(crate) fn at_entry(self, entry: u64) -> ListFault
        ensures { result ≡ fault_at entry self }
    {
        match self {
            LineFault::Wrong => ListFault::Syntax { entry },
            LineFault::NoMemory => ListFault::NoMemory,
        }
    }
}

impl From<NoMemory> for LineFault {
    ghost use Rattle.std.specs.Prelude.{◌≡◌};
    ghost use Rattle.front_text.specs.declared.entry.LineFault.TheVariants.{NoMemory};

    ghost from_gives = { λ _ e. e ≡ NoMemory };

    fn from(_: NoMemory) -> LineFault {
        LineFault::NoMemory
    }
}

/// Takes the two lines of an entry.
pub(crate) fn read_entry(alloc: Global, cursor: &mut Cursor<'_>) -> Result<Entry, LineFault>
    ensures { Reads entry_text HasCosts cursor.old cursor.new result }
{
    let costs = read_costs(alloc, cursor)?;
    let model = read_model(alloc, cursor)?;
    Ok(Entry { costs, model })
}

// Takes a line of costs.
fn read_costs(alloc: Global, cursor: &mut Cursor<'_>) -> Result<CostVec, LineFault>
    ensures { Reads costs_line (All IsCost) cursor.old cursor.new result }
{
    if !cursor.skip(b"o") {
        return Err(LineFault::Wrong);
    }
    let mut costs = Items::new(alloc);
    while cursor.skip(b" ") {
        match take_cost(cursor) {
            Some(cost) => costs.push(cost)?,
            None => return Err(LineFault::Wrong),
        }
    }
    if !cursor.skip(b"\n") {
        return Err(LineFault::Wrong);
    }
    Ok(CostVec::from_items(costs))
}

// Takes a word that is a cost. After `None` some of the rest may be taken.
fn take_cost(cursor: &mut Cursor<'_>) -> Option<i64>
    ensures { TakesCost cursor.old cursor.new result }
{
    cost_of(cursor.take_word())
}

// The cost that a word spells as it would be printed: with no leading zero, and no `-0`.
fn cost_of(word: &[u8]) -> Option<i64>
    ensures { IsValueOf signed_decimal IsCost word.now result }
{
    let Ok(cost) = read_i64(word) else {
        return None;
    };
    if cost == i64::MIN || Buffer::new().format(cost).as_bytes() != word {
        return None;
    }
    Some(cost)
}

/// Takes a line of literals, of which the k-th is of variable k. `Wrong` exactly where the rest begins with no such line; after a
/// fault some of the rest may be taken. Takes memory for the values of the model, twice.
pub fn read_model(alloc: Global, cursor: &mut Cursor<'_>) -> Result<Assignment, LineFault>
    ensures { Reads model_line (λ _. Unit {0}) cursor.old cursor.new result }
{
    if !cursor.skip(b"v") {
        return Err(LineFault::Wrong);
    }
    let mut values = Items::new(alloc);
    while !cursor.skip(b" 0\n") {
        let var = values.len() as u64 + 1;
        if !cursor.skip(b" ") {
            return Err(LineFault::Wrong);
        }
        match take_literal(cursor, var) {
            Some(value) => values.push(value)?,
            None => return Err(LineFault::Wrong),
        }
    }
    Ok(assignment_of(alloc, values.as_slice())?)
}

// Takes a literal of this variable: the value that makes it true.
fn take_literal(cursor: &mut Cursor<'_>, var: u64) -> Option<bool>
    requires { 0 < var }
    ensures { Takes (λ b. literal_text b var) (λ _. Unit {0}) cursor.old cursor.new result }
{
    let negative = cursor.skip(b"-");
    if cursor.skip(Buffer::new().format(var).as_bytes()) {
        return Some(!negative);
    }
    None
}

// The assignment of these values.
fn assignment_of(alloc: Global, values: &[bool]) -> Result<Assignment, NoMemory>
    ensures { IfOk result (λ a. a ≡ values.now) }
{
    let mut model = Assignment::new(alloc, values.len() as u64)?;
    for (at, value) in values.iter().enumerate() {
        model.set(Lit::new(at as u64 + 1, !*value));
    }
    Ok(model)
}
