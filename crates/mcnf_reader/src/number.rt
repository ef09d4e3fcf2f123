// The numbers of a line: objectives, weights and literals.
ghost use Rattle.std.specs.Prelude.{◌≡◌, ◌<◌, ◌≤◌, ◌+◌, ◌^◌, false, Some, IfOk, IfErr, MatchOption};
ghost use Rattle.scut_base.specs.Number.{IsNatural, natural_value, magnitude_text};
ghost use Rattle.std.specs.Str.Parse.{starts_with_minus};
ghost use Rattle.instance.specs.Shape.{max_vars, max_objectives, magnitude_limit};
ghost use Rattle.mcnf_reader.specs.Grammar.{SpellsObjective, SpellsWeight, SpellsLiteral, SpellsZero};
ghost use Rattle.mcnf_reader.specs.FirstFault.{number_fault, objective_fault, weight_fault, literal_fault, is_zero};

use instance::{BadKind, InstanceLimit, MAX_MAGNITUDE, MAX_OBJECTIVES, MAX_VARS, PlaceFault};
use scut_base::{Lit, NumberFault, read_u64};

// Reads the first word of a soft clause: its objective, from 1 to 64.
pub(crate) fn read_objective(word: &[u8]) -> Result<u64, PlaceFault>
    ensures ok { IfOk result (λ k. SpellsObjective word.now k × (k ≤ max_objectives)) }
    ensures fault { IfErr result (λ f. objective_fault word.now ≡ Some f) }
{
    let digits = match word {
        [b'o', digits @ ..] => digits,
        _ => return Err(PlaceFault::Bad(BadKind::UnknownLine)),
    };
    let objective = read_number(digits, BadKind::UnknownLine)?;
    if objective == 0 {
        return Err(PlaceFault::Bad(BadKind::ObjectiveIndex));
    }
    if objective > MAX_OBJECTIVES as u64 {
        return Err(PlaceFault::Limit(InstanceLimit::Objectives));
    }
    Ok(objective)
}

// Reads a weight that is added to the sum of its objective's weights so far.
pub(crate) fn read_weight(word: &[u8], sum: u64) -> Result<u64, PlaceFault>
    requires { sum < magnitude_limit }
    ensures ok { IfOk result (λ w. SpellsWeight word.now w × (sum + w < magnitude_limit)) }
    ensures fault { IfErr result (λ f. weight_fault sum word.now ≡ Some f) }
{
    let weight = read_number(word, BadKind::WeightExpected)?;
    if sum + weight > MAX_MAGNITUDE {
        return Err(PlaceFault::Limit(InstanceLimit::Weights));
    }
    Ok(weight)
}

// Reads a literal, or the terminator of a clause as `None`.
pub(crate) fn read_literal(word: &[u8]) -> Result<Option<Lit>, PlaceFault>
    ensures ok { IfOk result (λ found. MatchOption found (SpellsZero word.now)
        (λ l. SpellsLiteral word.now l × (l.var ≤ max_vars))) }
    ensures not_zero { IfErr result (λ f. is_zero word.now ≡ false) }
    ensures fault { IfErr result (λ f. literal_fault word.now ≡ Some f) }
{
    let (negative, digits) = split_minus(word);
    let var = read_number(digits, BadKind::LiteralExpected)?;
    if var == 0 {
        if negative {
            return Err(PlaceFault::Bad(BadKind::LiteralExpected));
        }
        return Ok(None);
    }
    if var > MAX_VARS {
        return Err(PlaceFault::Limit(InstanceLimit::Vars));
    }
    Ok(Some(Lit::new(var, negative)))
}

// Whether a word begins with a minus, and what follows it.
fn split_minus(word: &[u8]) -> (bool, &[u8])
    ensures negative { result.0 ≡ starts_with_minus word.entry.now }
    ensures rest { result.1.now ≡ magnitude_text word.entry.now }
{
    match word {
        [b'-', digits @ ..] => (true, digits),
        _ => (false, word),
    }
}

// Reads decimal digits as a number below 2^63. What isn't digits is this kind of bad place.
fn read_number(text: &[u8], kind: BadKind) -> Result<u64, PlaceFault>
    ensures ok { IfOk result (λ n.
        IsNatural text.now × (n < magnitude_limit) × (natural_value text.now ≡ n)) }
    ensures fault { IfErr result (λ f. number_fault kind text.now ≡ Some f) }
{
    match read_u64(text) {
        Err(NumberFault::NotDigits) => Err(PlaceFault::Bad(kind)),
        Err(NumberFault::TooWide) => Err(PlaceFault::Bad(BadKind::NumberTooWide)),
        Ok(value) => {
            if value > MAX_MAGNITUDE {
                return Err(PlaceFault::Bad(BadKind::NumberTooWide));
            }
            Ok(value)
        }
    }
}
