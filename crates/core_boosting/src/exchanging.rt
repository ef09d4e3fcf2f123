// A core that is taken up: its literals' terms for those of its outputs.
ghost use Rattle.std.specs.Prelude.{◌≡◌, ◌<◌, IfOk, OnOk};
ghost use Rattle.pb_lin.specs.Constraint.{total};
ghost use Rattle.oracle.specs.Solving.{Reaches};
ghost use Rattle.sum_outputs.specs.Adding.{IsReady, IsRecorded};
ghost use Rattle.core_boosting.specs.Boosting.{HasCoreLine};
ghost use Rattle.core_boosting.specs.Exchanging.{DerivesOwn, IsOfRow, KeepsRow, MakesSome, MayExchange, lower_tokens};

use crate::bounding::upper_line;
use crate::counting::{Counted, count_core, push_factor};
use crate::terms::{exchanged, least_weight, literals_of};
use cutting_planes::PolToken;
use proof_laws::Line;
use proof_rules::{RecordFault, Recorder};
use scut_base::{Items, Lit, NoMemory};
use std::alloc::Global;
use sum_outputs::{in_memory, record};
use totalizer::Reform;

// Takes up the core whose clause is the line of this id: raises the offset by the least weight of its literals, lowers
// the weight of each by it, and gives it to the outputs over them.
pub(crate) fn take_up<R: Recorder>(
    alloc: Global,
    rec: &mut R,
    reform: &mut Reform,
    id: u64,
) -> Result<(), RecordFault>
    requires ready { IsReady (R.seen rec.old) }
    requires row { IsOfRow (R.seen rec.old) reform.old }
    requires core { Reaches (R.seen rec.old).problem (R.seen rec.old).lines
        (HasCoreLine reform.old.terms id) }
    ensures recorded { IsRecorded (R.seen rec.old) (R.seen rec.new) result }
    ensures row { OnOk result (KeepsRow (R.seen rec.old) (R.seen rec.new) reform.old reform.new) }
    ensures falls { OnOk result (total reform.new.terms < total reform.old.terms) }
{
    let state = rec.state();
    // Tells of which kind the live lines are.
    let _vars = state.vars();
    // Of the line itself, whose literals rise.
    let lits = in_memory(literals_of(alloc, state, id))?;
    let weight = least_weight(reform.terms.as_slice(), lits.as_slice());
    let (counted, upper) = count_core(alloc, rec, lits.as_slice(), id)?;
    exchange(alloc, rec, reform, lits.as_slice(), &counted, weight)?;
    reform.upper_line = upper_line(alloc, rec, reform.upper_line, upper.as_slice(), weight)?;
    Ok(())
}

// Exchanges the literals for the outputs over them, each with this weight.
fn exchange<R: Recorder>(
    alloc: Global,
    rec: &mut R,
    reform: &mut Reform,
    lits: &[Lit],
    counted: &Counted,
    weight: u64,
) -> Result<(), RecordFault>
    requires ready { IsReady (R.seen rec.old) }
    requires may { MayExchange (R.seen rec.old) reform.old lits.now counted.now weight }
    ensures recorded { IsRecorded (R.seen rec.old) (R.seen rec.new) result }
    ensures row { OnOk result (KeepsRow (R.seen rec.old) (R.seen rec.new) reform.old reform.new) }
    ensures falls { OnOk result (total reform.new.terms < total reform.old.terms) }
{
    // Tells of which kind the live lines are.
    let _vars = rec.state().vars();
    let outputs = counted.outputs.as_slice();
    let terms = in_memory(exchanged(alloc, reform.terms.as_slice(), lits, weight, outputs))?;
    let tokens = in_memory(lower_tokens(alloc, reform.lower_line, counted.line, weight))?;
    reform.lower_line = derive(rec, tokens)?;
    reform.terms = terms;
    reform.offset += weight as i64;
    Ok(())
}

// The tokens `OLD LINE w * +`, without `OLD` and `+` where there is no old line. Also where nothing is left but `LINE`
// they make a line of their own: that one may be learned.
fn lower_tokens(
    alloc: Global,
    old: u64,
    line: u64,
    weight: u64,
) -> Result<Items<PolToken>, NoMemory>
    ensures { IfOk result (λ tokens. tokens ≡ lower_tokens old line weight) }
{
    let mut tokens = Items::with_capacity(alloc, 4)?;
    if old == 0 {
        tokens.push(PolToken::Id(line))?;
        push_factor(&mut tokens, weight)?;
        return Ok(tokens);
    }
    tokens.push(PolToken::Id(old))?;
    tokens.push(PolToken::Id(line))?;
    push_factor(&mut tokens, weight)?;
    tokens.push(PolToken::Add)?;
    Ok(tokens)
}

// Records the constraint that these tokens make, and answers its id.
pub(crate) fn derive<R: Recorder>(rec: &mut R, tokens: Items<PolToken>) -> Result<u64, RecordFault>
    requires ready { IsReady (R.seen rec.old) }
    requires makes { MakesSome (R.seen rec.old) tokens }
    ensures recorded { IsRecorded (R.seen rec.old) (R.seen rec.new) result }
    ensures own { IfOk result (DerivesOwn (R.seen rec.old) (R.seen rec.new) tokens) }
{
    // Tells of which kind the live lines are.
    let _vars = rec.state().vars();
    record(rec, Line::Pol { tokens })
}
