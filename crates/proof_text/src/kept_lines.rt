// The lines of a proof in little room, since a recorder keeps all of them to its end (DECISIONS, kept-lines).
ghost use Rattle.std.specs.Prelude.{List, ℕ, ◌≡◌, ◌≢◌, ◌<◌, ◌^◌, ◌++◌, ◌∷◌, [], length, map, pos, IfOk, IfSome, OnOk, OnErr, MatchBool};
ghost use Rattle.proof_laws.specs.Refusal.{literals_at};
ghost use Rattle.proof_laws.specs.State.{IsState};
ghost use Rattle.proof_laws.specs.declared.line.Line.{Line};
ghost use Rattle.scut_base.specs.LiteralCode.{literal_of};
ghost use Rattle.proof_text.specs.KeptLines.{IsModelOf, IsProofOf, hint_of, line_of, token_by, token_of};

use crate::keeping::MAX_LINES;
use cutting_planes::PolToken;
use hint_rup::Hint;
use pb_lin::Constraint;
use proof_laws::Line;
use proof_rules::ProofState;
use scut_base::{Duplicate, Items, Lit, NoMemory, boxed};
use std::alloc::Global;
use std::marker::Model;

// The number of the hint of id 0.
const FIRST_ID: u32 = 2;

/// A clause with its hints, in 4 bytes for each literal and for each hint.
#[derive(Debug, Drop)]
pub(crate) struct ShortProof {
    pub(crate) codes: Items<u32>,
    pub(crate) numbers: Items<u32>,
}

/// A model by its values.
#[derive(Debug, Drop)]
pub(crate) struct ShortModel {
    pub(crate) values: Items<bool>,
    pub(crate) cut: Items<Lit>,
    pub(crate) rows: Items<u64>,
}

/// A line as it is kept.
#[derive(Debug, Drop)]
pub(crate) enum KeptLine {
    /// A learned clause.
    Learned { proof: ShortProof },
    /// An implied clause.
    Implied { proof: ShortProof },
    /// A combination of lines, with a number for each token, which takes an eighth of the token's room.
    Combined { numbers: Items<u32> },
    /// A logged model.
    Logged { model: Box<ShortModel> },
    /// Any line.
    Whole { line: Box<Line> },
}

/// Lines that are put at the end one by one, and not read again. Contracts see the list of them.
#[derive(Debug, Drop)]
pub(crate) struct KeptLines {
    lines: Vec<KeptLine>,
}

impl Model for KeptLines {
    ghost use Rattle.std.specs.Prelude.{List, map};
    ghost use Rattle.proof_laws.specs.declared.line.Line.{Line};
    ghost use Rattle.proof_text.specs.KeptLines.{line_of};

    ghost Value = { List Line };

    ghost view = { λ k. map line_of k.lines.items };
}

impl KeptLines {
    /// No line. Takes no memory.
    pub(crate) fn new(alloc: Global) -> KeptLines
        ensures { result ≡ [] }
    {
        KeptLines {
            lines: Vec::new(alloc),
        }
    }

    /// Whether there is no room for a line more. Its second clause tells that it is a state.
    pub(crate) fn is_full(&self, state: &ProofState) -> bool
        ensures full { MatchBool result (length self.now ≡ 2 ^ 61) (length self.now ≢ 2 ^ 61) }
        ensures state { IsState state.now }
    {
        // Tells that it is a state.
        let _vars = state.vars();
        self.lines.len() as u64 == MAX_LINES
    }

    /// Puts a copy of a line at the end. After `NoMemory` nothing has changed.
    pub(crate) fn push_copy(&mut self, alloc: Global, line: &Line) -> Result<(), NoMemory>
        ensures ok { OnOk result (self.new ≡ self.old ++ line.now ∷ []) }
        ensures err { OnErr result (self.new ≡ self.old) }
    {
        let kept = kept_copy(alloc, line)?;
        self.lines.push(kept)?;
        Ok(())
    }

    /// Takes the last line off. In constant time, but for the line's memory.
    pub(crate) fn pop_last(&mut self)
        ensures { (before : List Line) (line : Line)
            → self.old ≡ before ++ line ∷ [] → self.new ≡ before }
    {
        let _ = self.lines.pop();
    }
}

// A copy of a line.
fn kept_copy(alloc: Global, line: &Line) -> Result<KeptLine, NoMemory>
    ensures { IfOk result (λ kept. line_of kept ≡ line.now) }
{
    match line {
        Line::Learn { goal, hints } => match short_proof(alloc, goal, hints.as_slice())? {
            Some(proof) => Ok(KeptLine::Learned { proof }),
            None => whole_copy(alloc, line),
        },
        Line::Rup { goal, hints } => match short_proof(alloc, goal, hints.as_slice())? {
            Some(proof) => Ok(KeptLine::Implied { proof }),
            None => whole_copy(alloc, line),
        },
        Line::Pol { tokens } => match codes_of(alloc, tokens.as_slice())? {
            Some(numbers) => Ok(KeptLine::Combined { numbers }),
            None => whole_copy(alloc, line),
        },
        Line::Sol { model, cut, rows } => match short_model(alloc, model, cut, rows)? {
            Some(model) => Ok(KeptLine::Logged { model }),
            None => whole_copy(alloc, line),
        },
        _ => whole_copy(alloc, line),
    }
}

// A copy of any line.
fn whole_copy(alloc: Global, line: &Line) -> Result<KeptLine, NoMemory>
    ensures { IfOk result (λ kept. line_of kept ≡ line.now) }
{
    let line = boxed(alloc, line.copy(alloc)?)?;
    Ok(KeptLine::Whole { line })
}

// A model with its cut and rows, or none where its literals aren't those of the variables in order.
fn short_model(
    alloc: Global,
    model: &Items<Lit>,
    cut: &Items<Lit>,
    rows: &Items<u64>,
) -> Result<Option<Box<ShortModel>>, NoMemory>
    ensures { IfOk result (λ found. IfSome found (λ kept. IsModelOf model.now cut.now rows.now kept.value)) }
{
    let Some(values) = values_of(alloc, model.as_slice())? else {
        return Ok(None);
    };
    let model = ShortModel {
        values,
        cut: cut.copy(alloc)?,
        rows: rows.copy(alloc)?,
    };
    Ok(Some(boxed(alloc, model)?))
}

// A clause with its hints, or none where it is no clause or a number is too large.
fn short_proof(
    alloc: Global,
    goal: &Constraint,
    hints: &[Hint],
) -> Result<Option<ShortProof>, NoMemory>
    ensures { IfOk result (λ found. IfSome found (IsProofOf goal.now hints.now)) }
{
    if !goal.is_clause() {
        return Ok(None);
    }
    let Some(codes) = codes_of(alloc, goal.literals())? else {
        return Ok(None);
    };
    let Some(numbers) = codes_of(alloc, hints)? else {
        return Ok(None);
    };
    Ok(Some(ShortProof { codes, numbers }))
}

// What 4 bytes hold, where it isn't too large.
trait Short {
    // What a code stands for.
    ghost meaning: { ℕ → Self };

    // Its code, or none where it has none.
    fn code(&self) -> Option<u32>
        ensures { IfSome result (λ code. meaning code ≡ self.now) };
}

// Twice the variable, plus 1 for a negation.
impl Short for Lit {
    ghost meaning = { literal_of };

    fn code(&self) -> Option<u32> {
        let var = self.var();
        if var > u64::from(u32::MAX / 2) {
            return None;
        }
        Some(2 * var as u32 + u32::from(self.is_neg()))
    }
}

impl Short for Hint {
    ghost meaning = { hint_of };

    fn code(&self) -> Option<u32> {
        match *self {
            Hint::Negated => Some(0),
            Hint::Denied => Some(1),
            Hint::Id(id) => {
                if id > u64::from(u32::MAX - FIRST_ID) {
                    return None;
                }
                Some(id as u32 + FIRST_ID)
            }
        }
    }
}

// What is to be proved has no code.
impl Short for PolToken {
    ghost meaning = { token_of };

    fn code(&self) -> Option<u32> {
        match *self {
            PolToken::Id(id) => joined(0, id),
            PolToken::Add => joined(1, 0),
            PolToken::Saturate => joined(2, 0),
            PolToken::Mul(by) => joined(3, small_positive(by)?),
            PolToken::Div(by) => joined(4, small_positive(by)?),
            PolToken::Weaken(var) => joined(5, var),
            PolToken::Axiom(lit) => joined(6, u64::from(lit.code()?)),
            PolToken::Negated | PolToken::Denied => None,
        }
    }
}

// The codes of these, or none where one has none.
fn codes_of<T: Short>(alloc: Global, items: &[T]) -> Result<Option<Items<u32>>, NoMemory>
    ensures { IfOk result (λ found. IfSome found (λ codes. map T.meaning codes ≡ items.now)) }
{
    let mut codes = Items::with_capacity(alloc, items.len())?;
    for item in items {
        match item.code() {
            Some(code) => codes.push(code)?,
            None => return Ok(None),
        }
    }
    Ok(Some(codes))
}

// The number of a kind of token with this number, or none where that is too large.
fn joined(kind: u32, number: u64) -> Option<u32>
    requires { kind < 8 }
    ensures { IfSome result (λ n. token_of n ≡ token_by kind number) }
{
    if number > u64::from(u32::MAX / 8) {
        return None;
    }
    Some(number as u32 * 8 + kind)
}

// A number that isn't below 0 and isn't large, for `joined`.
fn small_positive(number: i128) -> Option<u64>
    ensures { IfSome result (λ n. pos n ≡ number) }
{
    if number < 0 || number > i128::from(u32::MAX) {
        return None;
    }
    Some(number as u64)
}

// The values of the variables from 1 on in these literals, or none where they are of others.
fn values_of(alloc: Global, model: &[Lit]) -> Result<Option<Items<bool>>, NoMemory>
    ensures { IfOk result (λ found. IfSome found (λ values. literals_at 1 values ≡ model.now)) }
{
    let mut values = Items::with_capacity(alloc, model.len())?;
    let mut var = 0;
    for lit in model {
        var += 1;
        if lit.var() != var {
            return Ok(None);
        }
        values.push(!lit.is_neg())?;
    }
    Ok(Some(values))
}
