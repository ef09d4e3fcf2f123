// The line that an objective costs at most what its reform does. Nothing of it is believed.
ghost use Rattle.std.specs.Prelude.{◌<◌};
ghost use Rattle.sum_outputs.specs.Adding.{IsReady, IsRecorded};
ghost use Rattle.totalizer.specs.Totalizing.{FitsSome};

use crate::counting::push_factor;
use cutting_planes::PolToken;
use linear_lines::add_line;
use proof_rules::{RecordFault, Recorder};
use scut_base::{Items, NoMemory};
use std::alloc::Global;
use sum_outputs::in_memory;
use totalizer::Totalizer;

// Tokens of the line that at most one more of a core's literals is true than of its outputs: of the upper lines of the
// outputs, from the last to the first. No tokens where one lacks.
pub(crate) fn upper_tokens(
    alloc: Global,
    totalizer: &Totalizer,
    lits: usize,
) -> Result<Items<PolToken>, NoMemory>
    requires { FitsSome totalizer.now }
{
    let mut tokens = Items::new(alloc);
    for count in 1..lits as u64 {
        let Some(output) = totalizer.made_for(lits as u64 - count + 1) else {
            return Ok(Items::new(alloc));
        };
        push_upper(&mut tokens, output.upper, count)?;
    }
    Ok(tokens)
}

// Adds the upper line of an output to the line of those before it, so many with it.
fn push_upper(tokens: &mut Items<PolToken>, upper: u64, count: u64) -> Result<(), NoMemory>
    requires { 0 < count }
{
    if count == 1 {
        tokens.push(PolToken::Id(upper))?;
        return Ok(());
    }
    // As in `raised_tokens`: the line so far speaks of each output once, and the upper line of its own so many times.
    push_factor(tokens, count - 1)?;
    tokens.push(PolToken::Id(upper))?;
    tokens.push(PolToken::Add)?;
    tokens.push(PolToken::Div(count as i128))?;
    Ok(())
}

// The id of the line that the objective costs at most what its reform does, where these tokens say it of a core that was
// exchanged with this weight, and the line of the old id of what was before. The old one where they make no line.
pub(crate) fn upper_line<R: Recorder>(
    alloc: Global,
    rec: &mut R,
    old: u64,
    upper: &[PolToken],
    weight: u64,
) -> Result<u64, RecordFault>
    requires ready { IsReady (R.seen rec.old) }
    ensures recorded { IsRecorded (R.seen rec.old) (R.seen rec.new) result }
{
    let tokens = in_memory(summed(alloc, old, upper, weight))?;
    match add_line(alloc, rec, tokens)? {
        Some(line) => Ok(line),
        None => Ok(old),
    }
}

// The tokens `UPPER w * OLD +`, without `OLD +` where there is no old line.
fn summed(
    alloc: Global,
    old: u64,
    upper: &[PolToken],
    weight: u64,
) -> Result<Items<PolToken>, NoMemory> {
    let mut tokens = Items::new(alloc);
    if upper.is_empty() {
        return Ok(tokens);
    }
    tokens.extend_from_slice(upper)?;
    push_factor(&mut tokens, weight)?;
    if old != 0 {
        tokens.push(PolToken::Id(old))?;
        tokens.push(PolToken::Add)?;
    }
    Ok(tokens)
}
