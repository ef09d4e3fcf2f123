// The text of a line.
ghost use Rattle.std.specs.Prelude.{◌≡◌, ◌++◌, List, OnOk, codes};
ghost use Rattle.proof_lines.specs.LineText.{hinted_words, line_text, line_words, printed};
ghost use Rattle.proof_lines.specs.LineText.{witnessed_words};
ghost use Rattle.proof_lines.specs.Spaces.{after_spaces, definition_words, kind_word, later_words, solution_words};

use crate::Spelling;
use crate::append::{
    append, append_constraint, append_deleted, append_goals, append_hints, append_id, append_ids,
    append_images, append_literals, append_tokens, append_variable,
};
use hint_rup::Hint;
use itoa::Buffer;
use pb_lin::{Constraint, Witness};
use proof_laws::{Goal, GoalProof, Line};
use scut_base::{Lit, NoMemory};

/// Puts the text of a line and its line feed at the end of a text, its ids as the spelling says. After `NoMemory` a part of it may stand
/// there. Costs one pass, and memory for the text; in `del` and `reduce` also for runs.
pub fn append_line(text: &mut Vec<u8>, spelling: Spelling, line: &Line) -> Result<(), NoMemory>
    ensures { OnOk result (text.new.items ≡ text.old.items ++ printed spelling line.now) }
{
    append(text, kind_word(line))?;
    append_fields(text, &mut Buffer::new(), spelling, line)?;
    append(text, b"\n")
}

// The word that a line begins with.
fn kind_word(line: &Line) -> &'static [u8]
    ensures { result.now ≡ kind_word line.now }
{
    match line {
        Line::Pol { .. } => b"pol",
        Line::Rup { .. } => b"rup",
        Line::Learn { .. } => b"learn",
        Line::Def { .. } => b"def",
        Line::Red { .. } => b"red",
        Line::Dom { .. } => b"dom",
        Line::Sol { .. } => b"sol",
        Line::Del { .. } => b"del",
        Line::Reduce { .. } => b"reduce",
        Line::End { .. } => b"end",
    }
}

// Puts the words after the first at the end.
fn append_fields(
    text: &mut Vec<u8>,
    buffer: &mut Buffer,
    spelling: Spelling,
    line: &Line,
) -> Result<(), NoMemory>
    ensures { OnOk result
        (text.new.items ≡ text.old.items ++ after_spaces (later_words spelling line.now)) }
{
    match line {
        Line::Pol { tokens } => append_tokens(text, buffer, spelling, tokens.as_slice()),
        Line::Rup { goal, hints } | Line::Learn { goal, hints } => {
            append_hinted(text, buffer, spelling, goal, hints.as_slice())
        }
        Line::Def { var, sum } => append_definition(text, buffer, *var, sum),
        Line::Red {
            goal,
            witness,
            proofs,
        }
        | Line::Dom {
            goal,
            witness,
            proofs,
        } => append_witnessed(text, buffer, spelling, goal, witness, proofs.as_slice()),
        Line::Sol { model, cut, rows } => append_solution(
            text,
            buffer,
            spelling,
            model.as_slice(),
            cut.as_slice(),
            rows.as_slice(),
        ),
        Line::Del { ids } | Line::Reduce { ids } => append_deleted(
            text,
            buffer,
            spelling,
            ids.as_slice(),
        ),
        Line::End { id } => append_id(text, buffer, spelling, *id),
    }
}

// Puts a constraint and the hints that lead to it at the end.
fn append_hinted(
    text: &mut Vec<u8>,
    buffer: &mut Buffer,
    spelling: Spelling,
    goal: &Constraint,
    hints: &[Hint],
) -> Result<(), NoMemory>
    ensures { OnOk result
        (text.new.items ≡ text.old.items ++ after_spaces (hinted_words spelling goal.now hints.now)) }
{
    append_constraint(text, buffer, goal)?;
    append(text, b" :")?;
    append_hints(text, buffer, spelling, hints)
}

// Puts a constraint, a witness and the proofs of goals at the end.
fn append_witnessed(
    text: &mut Vec<u8>,
    buffer: &mut Buffer,
    spelling: Spelling,
    goal: &Constraint,
    witness: &Witness,
    proofs: &[(Goal, GoalProof)],
) -> Result<(), NoMemory>
    ensures { OnOk result (text.new.items
        ≡ text.old.items ++ after_spaces (witnessed_words spelling goal.now witness.now proofs.now)) }
{
    append_constraint(text, buffer, goal)?;
    append(text, b" :")?;
    append_images(text, buffer, witness.images())?;
    append_goals(text, buffer, spelling, proofs)
}

// Puts a variable and the sum that it stands for at the end.
fn append_definition(
    text: &mut Vec<u8>,
    buffer: &mut Buffer,
    var: u64,
    sum: &Constraint,
) -> Result<(), NoMemory>
    ensures { OnOk result
        (text.new.items ≡ text.old.items ++ after_spaces (definition_words var sum.now)) }
{
    append_variable(text, buffer, var)?;
    append(text, b" :")?;
    append_constraint(text, buffer, sum)
}

// Puts a model, a cut and the rows of objectives at the end.
fn append_solution(
    text: &mut Vec<u8>,
    buffer: &mut Buffer,
    spelling: Spelling,
    model: &[Lit],
    cut: &[Lit],
    rows: &[u64],
) -> Result<(), NoMemory>
    ensures { OnOk result
        (text.new.items ≡ text.old.items ++ after_spaces
        (solution_words spelling model.now cut.now rows.now)) }
{
    append_literals(text, buffer, model)?;
    append(text, b" :")?;
    append_literals(text, buffer, cut)?;
    append(text, b" :")?;
    append_ids(text, buffer, spelling, rows)
}
