// The text of an instance.
ghost use Rattle.std.specs.Prelude.{◌≡◌, ◌<◌, ◌^◌, ◌++◌, All, IfOk, OnOk};
ghost use Rattle.std.specs.List.{flat_map};
ghost use Rattle.mcnf_reader.specs.Grammar.{Spells};
ghost use Rattle.command_gen.specs.Printed.{AllOccur, AreVariables, IsPlain, IsPrintable, IsVariable, clause_text, hard_line, literal_text, mcnf_text, soft_line, soft_lines, weight_text};

use instance::{Clauses, Instance, Objective, Soft};
use itoa::Buffer;
use scut_base::{Lit, NoMemory};
use std::alloc::Global;

/// The text of an instance without linear rows, objective terms, offsets and maximised objectives, line by line. It spells
/// the instance, where the largest variable and the last objective occur in it. Costs one pass, and memory for the text
/// alone.
pub fn print_mcnf(alloc: Global, inst: &Instance) -> Result<Vec<u8>, NoMemory>
    requires { IsPlain inst.now }
    ensures text { IfOk result (λ text. text.items ≡ mcnf_text inst.now) }
    ensures spells { IfOk result (λ text. AllOccur inst.now → Spells text.items inst.now) }
{
    let mut text = Vec::new(alloc);
    append_clauses(&mut text, &inst.clauses)?;
    append_objectives(&mut text, inst.objectives.as_slice())?;
    Ok(text)
}

// Puts a line for each hard clause at the end of a text.
fn append_clauses(text: &mut Vec<u8>, clauses: &Clauses) -> Result<(), NoMemory>
    ensures text { OnOk result (text.new.items ≡ text.old.items ++ flat_map hard_line clauses.now) }
    ensures variables { OnOk result (All AreVariables clauses.now) }
{
    for at in 0..clauses.len() {
        text.push(b'h')?;
        append_clause(text, clauses.clause(at))?;
    }
    Ok(())
}

// Puts the lines of objectives, which are counted from 1, at the end of a text.
fn append_objectives(text: &mut Vec<u8>, objectives: &[Objective]) -> Result<(), NoMemory>
    ensures text { OnOk result (text.new.items ≡ text.old.items ++ soft_lines 1 objectives.now) }
    ensures variables { OnOk result (All (λ o. All IsPrintable o.softs) objectives.now) }
{
    let mut number = 1;
    for objective in objectives {
        append_softs(text, number, objective.softs.as_slice())?;
        number += 1;
    }
    Ok(())
}

// Puts a line for each soft clause of this objective at the end of a text.
fn append_softs(text: &mut Vec<u8>, objective: u64, softs: &[Soft]) -> Result<(), NoMemory>
    ensures text { OnOk result (text.new.items ≡ text.old.items ++ flat_map (soft_line objective) softs.now) }
    ensures variables { OnOk result (All IsPrintable softs.now) }
{
    for soft in softs {
        append_weight(text, objective, soft.weight)?;
        append_clause(text, soft.lits.as_slice())?;
    }
    Ok(())
}

// Puts the beginning of a line of a soft clause at the end of a text.
fn append_weight(text: &mut Vec<u8>, objective: u64, weight: u64) -> Result<(), NoMemory>
    ensures text { OnOk result (text.new.items ≡ text.old.items ++ weight_text objective weight) }
    ensures fits { weight < 2 ^ 64 }
{
    let mut buffer = Buffer::new();
    text.push(b'o')?;
    text.extend_from_slice(buffer.format(objective).as_bytes())?;
    text.push(b' ')?;
    text.extend_from_slice(buffer.format(weight).as_bytes())?;
    Ok(())
}

// Puts the literals of a clause and its terminator at the end of a text.
fn append_clause(text: &mut Vec<u8>, lits: &[Lit]) -> Result<(), NoMemory>
    ensures text { OnOk result (text.new.items ≡ text.old.items ++ clause_text lits.now) }
    ensures variables { OnOk result (AreVariables lits.now) }
{
    for lit in lits {
        append_literal(text, *lit)?;
    }
    text.extend_from_slice(b" 0\n")?;
    Ok(())
}

// Puts a blank and a literal at the end of a text.
fn append_literal(text: &mut Vec<u8>, lit: Lit) -> Result<(), NoMemory>
    ensures text { OnOk result (text.new.items ≡ text.old.items ++ literal_text lit) }
    ensures variable { OnOk result (IsVariable lit) }
{
    text.extend_from_slice(if lit.is_neg() { b" -" } else { b" " })?;
    text.extend_from_slice(Buffer::new().format(lit.var()).as_bytes())?;
    Ok(())
}
