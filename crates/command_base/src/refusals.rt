// How it is warned why a list, a log or models are refused.
ghost use Rattle.std.specs.Prelude.{◌≡◌, ◌++◌, ◌∷◌, codes, IfOk, OnOk};
ghost use Rattle.std.specs.Fmt.{decimal};
ghost use Rattle.scut_base.specs.Bytes.{space};
ghost use Rattle.proof_lines.specs.LineText.{goal_word};
ghost use Rattle.proof_lines.specs.declared.spelling.Spelling.TheVariants.{Plain};
ghost use Rattle.command_base.specs.Refusals.{list_why_name, reps_why_text, why_name, why_text, why_value};

use itoa::Buffer;
use log_checker::ListWhy;
use proof_laws::{Goal, Why};
use representatives::RepsWhy;
use scut_base::NoMemory;
use std::alloc::Global;

/// What is wrong with an entry of a list.
pub fn list_why_name(why: ListWhy) -> &'static str
    ensures { result.now ≡ list_why_name why }
{
    match why {
        ListWhy::Syntax => "Syntax",
        ListWhy::NotModel => "NotModel",
        ListWhy::Costs => "Costs",
        ListWhy::Order => "Order",
        ListWhy::Comparable => "Comparable",
        ListWhy::NotComplete => "NotComplete",
    }
}

/// What is wrong with the models of an entry, or with the log that is to show that they are all.
pub fn reps_why_text(alloc: Global, why: RepsWhy) -> Result<Vec<u8>, NoMemory>
    ensures { IfOk result (λ text. text.items ≡ reps_why_text why) }
{
    match why {
        RepsWhy::Syntax => named(alloc, "Syntax"),
        RepsWhy::Count => named(alloc, "Count"),
        RepsWhy::NotModel => named(alloc, "NotModel"),
        RepsWhy::Costs => named(alloc, "Costs"),
        RepsWhy::Repeated => named(alloc, "Repeated"),
        RepsWhy::Log { line, why } => log_line_text(alloc, line, why),
    }
}

fn named(alloc: Global, name: &str) -> Result<Vec<u8>, NoMemory>
    ensures { IfOk result (λ text. text.items ≡ name.now) }
{
    Ok(Vec::from_slice(alloc, name.as_bytes())?)
}

// `log line n: why`
fn log_line_text(alloc: Global, line: u64, why: Why) -> Result<Vec<u8>, NoMemory>
    ensures { IfOk result (λ text.
        text.items ≡ codes "log line " ++ decimal line ++ codes ": " ++ why_text why) }
{
    let mut text = Vec::from_slice(alloc, b"log line ")?;
    text.extend_from_slice(Buffer::new().format(line).as_bytes())?;
    text.extend_from_slice(b": ")?;
    text.extend_from_slice(&why_text(alloc, why)?)?;
    Ok(text)
}

/// Why a line of a log is refused: a name, and its number or its goal where it has one.
pub fn why_text(alloc: Global, why: Why) -> Result<Vec<u8>, NoMemory>
    ensures { IfOk result (λ text. text.items ≡ why_text why) }
{
    let mut text = Vec::from_slice(alloc, why_name(why).as_bytes())?;
    append_value(&mut text, why)?;
    Ok(text)
}

fn why_name(why: Why) -> &'static str
    ensures { result.now ≡ why_name why }
{
    match why {
        Why::Syntax => "Syntax",
        Why::NoSuchId(_) => "NoSuchId",
        Why::VarRange(_) => "VarRange",
        Why::NotFresh(_) => "NotFresh",
        Why::Overflow => "Overflow",
        Why::Stack => "Stack",
        Why::BadFactor => "BadFactor",
        Why::RupOpen => "RupOpen",
        Why::GoalOpen(_) => "GoalOpen",
        Why::GoalMissing(_) => "GoalMissing",
        Why::SolRow(_) => "SolRow",
        Why::CutOpen(_) => "CutOpen",
        Why::NotClause => "NotClause",
        Why::NotContradiction(_) => "NotContradiction",
        Why::AfterEnd => "AfterEnd",
        Why::NoEnd => "NoEnd",
        Why::Uncovered(_) => "Uncovered",
        Why::LogLong => "LogLong",
    }
}

// Puts the number or the goal of a reason at the end, where it has one.
fn append_value(text: &mut Vec<u8>, why: Why) -> Result<(), NoMemory>
    ensures { OnOk result (text.new.items ≡ text.old.items ++ why_value why) }
{
    match why {
        Why::NoSuchId(n)
        | Why::VarRange(n)
        | Why::NotFresh(n)
        | Why::SolRow(n)
        | Why::NotContradiction(n)
        | Why::Uncovered(n) => append_number(text, n),
        Why::CutOpen(objective) => append_number(text, objective as u64),
        Why::GoalOpen(goal) | Why::GoalMissing(goal) => append_goal(text, goal),
        _ => Ok(()),
    }
}

fn append_number(text: &mut Vec<u8>, n: u64) -> Result<(), NoMemory>
    ensures { OnOk result (text.new.items ≡ text.old.items ++ space ∷ decimal n) }
{
    text.push(b' ')?;
    text.extend_from_slice(Buffer::new().format(n).as_bytes())?;
    Ok(())
}

// A goal as a log has it.
fn append_goal(text: &mut Vec<u8>, goal: Goal) -> Result<(), NoMemory>
    ensures { OnOk result (text.new.items ≡ text.old.items ++ space ∷ goal_word Plain goal) }
{
    match goal {
        Goal::Row(id) => append_number(text, id),
        Goal::Itself => Ok(text.extend_from_slice(b" c")?),
        Goal::Objective(number) => {
            text.extend_from_slice(b" o")?;
            Ok(text.extend_from_slice(Buffer::new().format(number).as_bytes())?)
        }
        Goal::Strict => Ok(text.extend_from_slice(b" s")?),
    }
}
