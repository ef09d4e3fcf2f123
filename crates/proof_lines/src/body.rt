// The words of a line after its first: a reader for each kind of line.
ghost use Rattle.proof_lines.specs.declared.kind.Kind.TheVariants.{Pol, Rup, Learn, Def, Red};
ghost use Rattle.proof_lines.specs.declared.kind.Kind.TheVariants.{Dom, Sol, Del, Reduce, End};
ghost use Rattle.proof_lines.specs.Ids.{IsSpelling};
ghost use Rattle.proof_lines.specs.declared.spelling.Spelling.{Spelling};
ghost use Rattle.proof_lines.specs.Kinds.{ReadsBody, ReadsHinted};

use crate::constraint::read_constraint;
use crate::deleted::read_deleted;
use crate::hints::read_hints;
use crate::ids::id_of;
use crate::kind::Kind;
use crate::lists::{read_ids, read_literals, read_rising_literals};
use crate::number::variable_of;
use crate::tokens::read_tokens;
use crate::witnessed::read_witnessed;
use crate::words::Words;
use crate::{LineFault, Spelling};
use hint_rup::Hint;
use pb_lin::Constraint;
use proof_laws::Line;
use scut_base::Items;
use std::alloc::Global;

/// Takes the other words of a line of this kind.
pub(crate) fn read_body(
    alloc: Global,
    spelling: Spelling,
    kind: Kind,
    words: &mut Words<'_>,
) -> Result<Line, LineFault>
    requires { IsSpelling spelling }
    ensures { ReadsBody spelling kind words.old result }
{
    match kind {
        Kind::Pol => read_pol(alloc, spelling, words),
        Kind::Rup => read_rup(alloc, spelling, words),
        Kind::Learn => read_learn(alloc, spelling, words),
        Kind::Def => read_def(alloc, words),
        Kind::Red => read_red(alloc, spelling, words),
        Kind::Dom => read_dom(alloc, spelling, words),
        Kind::Sol => read_sol(alloc, spelling, words),
        Kind::Del => read_del(alloc, spelling, words),
        Kind::Reduce => read_reduce(alloc, spelling, words),
        Kind::End => read_end(spelling, words),
    }
}

// Tokens.
fn read_pol(alloc: Global, spelling: Spelling, words: &mut Words<'_>) -> Result<Line, LineFault>
    requires { IsSpelling spelling }
    ensures { ReadsBody spelling Pol words.old result }
{
    let tokens = read_tokens(alloc, spelling, words)?;
    if !words.is_at_end() {
        return Err(LineFault::Syntax);
    }
    Ok(Line::Pol { tokens })
}

// A constraint, `:` and hints.
fn read_rup(alloc: Global, spelling: Spelling, words: &mut Words<'_>) -> Result<Line, LineFault>
    requires { IsSpelling spelling }
    ensures { ReadsBody spelling Rup words.old result }
{
    let (goal, hints) = read_hinted(alloc, spelling, words)?;
    Ok(Line::Rup { goal, hints })
}

// The same of a clause that was learned.
fn read_learn(alloc: Global, spelling: Spelling, words: &mut Words<'_>) -> Result<Line, LineFault>
    requires { IsSpelling spelling }
    ensures { ReadsBody spelling Learn words.old result }
{
    let (goal, hints) = read_hinted(alloc, spelling, words)?;
    Ok(Line::Learn { goal, hints })
}

// A variable, `:` and a constraint.
fn read_def(alloc: Global, words: &mut Words<'_>) -> Result<Line, LineFault>
    ensures { (spelling : Spelling) → ReadsBody spelling Def words.old result }
{
    let Some(word) = words.next() else {
        return Err(LineFault::Syntax);
    };
    let Some(var) = variable_of(word) else {
        return Err(LineFault::Syntax);
    };
    if !words.skip(b':') {
        return Err(LineFault::Syntax);
    }
    let sum = read_constraint(alloc, words)?;
    if !words.is_at_end() {
        return Err(LineFault::Syntax);
    }
    Ok(Line::Def { var, sum })
}

// A constraint, `:`, a witness, and goals with their proofs.
fn read_red(alloc: Global, spelling: Spelling, words: &mut Words<'_>) -> Result<Line, LineFault>
    requires { IsSpelling spelling }
    ensures { ReadsBody spelling Red words.old result }
{
    let (goal, witness, proofs) = read_witnessed(alloc, spelling, words)?;
    Ok(Line::Red {
        goal,
        witness,
        proofs,
    })
}

// The same of a line that goes by the sum of the costs.
fn read_dom(alloc: Global, spelling: Spelling, words: &mut Words<'_>) -> Result<Line, LineFault>
    requires { IsSpelling spelling }
    ensures { ReadsBody spelling Dom words.old result }
{
    let (goal, witness, proofs) = read_witnessed(alloc, spelling, words)?;
    Ok(Line::Dom {
        goal,
        witness,
        proofs,
    })
}

// The literals of a model, `:`, those of the cut, `:` and the ids of rows.
fn read_sol(alloc: Global, spelling: Spelling, words: &mut Words<'_>) -> Result<Line, LineFault>
    requires { IsSpelling spelling }
    ensures { ReadsBody spelling Sol words.old result }
{
    let model = read_literals(alloc, words)?;
    if !words.skip(b':') {
        return Err(LineFault::Syntax);
    }
    let cut = read_rising_literals(alloc, words)?;
    if !words.skip(b':') {
        return Err(LineFault::Syntax);
    }
    let rows = read_ids(alloc, spelling, words)?;
    if !words.is_at_end() {
        return Err(LineFault::Syntax);
    }
    Ok(Line::Sol { model, cut, rows })
}

// The ids of lines that go.
fn read_del(alloc: Global, spelling: Spelling, words: &mut Words<'_>) -> Result<Line, LineFault>
    requires { IsSpelling spelling }
    ensures { ReadsBody spelling Del words.old result }
{
    let ids = read_deleted(alloc, spelling, words)?;
    Ok(Line::Del { ids })
}

// The ids of learned lines that go.
fn read_reduce(alloc: Global, spelling: Spelling, words: &mut Words<'_>) -> Result<Line, LineFault>
    requires { IsSpelling spelling }
    ensures { ReadsBody spelling Reduce words.old result }
{
    let ids = read_deleted(alloc, spelling, words)?;
    Ok(Line::Reduce { ids })
}

// One id.
fn read_end(spelling: Spelling, words: &mut Words<'_>) -> Result<Line, LineFault>
    requires { IsSpelling spelling }
    ensures { ReadsBody spelling End words.old result }
{
    let Some(word) = words.next() else {
        return Err(LineFault::Syntax);
    };
    let Some(id) = id_of(spelling, word) else {
        return Err(LineFault::Syntax);
    };
    if !words.is_at_end() {
        return Err(LineFault::Syntax);
    }
    Ok(Line::End { id })
}

// A constraint, `:` and hints.
fn read_hinted(
    alloc: Global,
    spelling: Spelling,
    words: &mut Words<'_>,
) -> Result<(Constraint, Items<Hint>), LineFault>
    requires { IsSpelling spelling }
    ensures { ReadsHinted spelling words.old result }
{
    let goal = read_constraint(alloc, words)?;
    if !words.skip(b':') {
        return Err(LineFault::Syntax);
    }
    let hints = read_hints(alloc, spelling, words)?;
    if !words.is_at_end() {
        return Err(LineFault::Syntax);
    }
    Ok((goal, hints))
}
