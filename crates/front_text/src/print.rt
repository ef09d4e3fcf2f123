// The text of a list, whole and line by line.
ghost use Rattle.std.specs.Prelude.{◌≡◌, ◌++◌, All, IfOk, OnOk};
ghost use Rattle.std.specs.List.{concat};
ghost use Rattle.front_set.specs.ListText.{head_line, costs_line, model_line, list_text};
ghost use Rattle.front_text.specs.Lines.{list_lines};
ghost use Rattle.front_text.specs.Spelling.{HasCosts, Spells};

use front_set::Entry;
use itoa::Buffer;
use scut_base::{Items, NoMemory};
use std::alloc::Global;

/// The text of a list whose costs are above -2^63. `read_list` reads it back. Costs one pass, and
/// memory for the text alone.
pub fn print_list(alloc: Global, complete: bool, entries: &[Entry]) -> Result<Vec<u8>, NoMemory>
    requires { All HasCosts entries.now }
    ensures { IfOk result (λ text. Spells text.items complete entries.now) }
{
    let mut text = Vec::new(alloc);
    append_head(&mut text, complete, entries.len())?;
    for entry in entries {
        append_costs(&mut text, entry.costs.as_slice())?;
        append_model(&mut text, entry.model.as_slice())?;
    }
    Ok(text)
}

/// The lines of a list's text, in order: the head line, and for each entry its costs and its model.
/// Takes memory for all of them.
pub fn list_lines(
    alloc: Global,
    complete: bool,
    entries: &[Entry],
) -> Result<Items<Items<u8>>, NoMemory>
    ensures lines { IfOk result (λ lines. lines ≡ list_lines complete entries.now) }
    ensures text { IfOk result (λ lines. concat lines ≡ list_text complete entries.now) }
{
    let mut lines = Items::new(alloc);
    lines.push(head_line(alloc, complete, entries.len())?)?;
    for entry in entries {
        lines.push(costs_line(alloc, entry.costs.as_slice())?)?;
        lines.push(model_line(alloc, entry.model.as_slice())?)?;
    }
    Ok(lines)
}

// `s COMPLETE n` or `s INCOMPLETE n`
fn head_line(alloc: Global, complete: bool, size: usize) -> Result<Items<u8>, NoMemory>
    ensures { IfOk result (λ line. line ≡ head_line complete size) }
{
    let mut line = Vec::new(alloc);
    append_head(&mut line, complete, size)?;
    Ok(Items::from_vec(line))
}

// `o c1 .. cp`
fn costs_line(alloc: Global, costs: &[i64]) -> Result<Items<u8>, NoMemory>
    ensures { IfOk result (λ line. line ≡ costs_line costs.now) }
{
    let mut line = Vec::new(alloc);
    append_costs(&mut line, costs)?;
    Ok(Items::from_vec(line))
}

// `v l1 .. ln 0`
fn model_line(alloc: Global, model: &[bool]) -> Result<Items<u8>, NoMemory>
    ensures { IfOk result (λ line. line ≡ model_line model.now) }
{
    let mut line = Vec::new(alloc);
    append_model(&mut line, model)?;
    Ok(Items::from_vec(line))
}

// Puts a head line at the end of a text.
fn append_head(text: &mut Vec<u8>, complete: bool, size: usize) -> Result<(), NoMemory>
    ensures { OnOk result (text.new.items ≡ text.old.items ++ head_line complete size) }
{
    let kind: &[u8] = if complete {
        b"s COMPLETE "
    } else {
        b"s INCOMPLETE "
    };
    text.extend_from_slice(kind)?;
    text.extend_from_slice(Buffer::new().format(size).as_bytes())?;
    text.push(b'\n')?;
    Ok(())
}

// Puts a line of costs at the end of a text.
fn append_costs(text: &mut Vec<u8>, costs: &[i64]) -> Result<(), NoMemory>
    ensures { OnOk result (text.new.items ≡ text.old.items ++ costs_line costs.now) }
{
    let mut buffer = Buffer::new();
    text.push(b'o')?;
    for cost in costs {
        text.push(b' ')?;
        text.extend_from_slice(buffer.format(*cost).as_bytes())?;
    }
    text.push(b'\n')?;
    Ok(())
}

/// Puts a model's line of literals at the end of a text. Where memory is refused a part of it may stand there.
pub fn append_model(text: &mut Vec<u8>, model: &[bool]) -> Result<(), NoMemory>
    ensures { OnOk result (text.new.items ≡ text.old.items ++ model_line model.now) }
{
    let mut buffer = Buffer::new();
    text.push(b'v')?;
    for (at, value) in model.iter().enumerate() {
        text.extend_from_slice(if *value { b" " } else { b" -" })?;
        text.extend_from_slice(buffer.format(at + 1).as_bytes())?;
    }
    text.extend_from_slice(b" 0\n")?;
    Ok(())
}
