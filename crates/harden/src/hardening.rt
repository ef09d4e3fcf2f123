// Hardening, variable by variable.
ghost use Rattle.std.specs.Prelude.{◌≡◌, ◌+◌, ◌<◌, ◌^◌, ◌++◌, ◌∷◌, [], false, length, IfOk, IfErr, OnOk, OnErr};
ghost use Rattle.proof_laws.specs.WellFormed.{IsWellFormed};
ghost use Rattle.proof_rules.specs.Recording.{KeepsRecorder, MayBeAdded};
ghost use Rattle.harden.specs.Hardened.{fixed, fixed_upto, hardened};
ghost use Rattle.harden.specs.Hardening.{ArePartOf, HardensTo, IsHardeningFault, MayBeSearched};

use crate::fixing::fixing_line;
use crate::occurrences::Occurrences;
use oracle::{Oracle, OracleFault};
use pb_lin::PbProblem;
use proof_laws::Line;
use scut_base::{Items, Lit};
use std::alloc::Global;

/// Makes literals of the problem false that no row wants to be true and whose falsity no objective minds: it adds
/// exactly the lines `hardened` to an oracle that has none, and answers these literals, in rising order of their
/// variables. Of a variable the positive literal goes first.
///
/// `Failed` only where the recorder's count of faults rose, and `NoMemory` where memory was refused; then some first
/// ones of the lines were added, and the oracle isn't used again. `Full` and `Spent` never come: there are fewer
/// lines than variables, or as many, and nothing is learned.
///
/// Costs a pass over rows and objectives, and for each of these literals the length of its line: a proof for each row
/// that has the opposite literal.
pub fn harden<O: Oracle>(
    alloc: Global,
    oracle: &mut O,
    problem: &PbProblem,
) -> Result<Items<Lit>, OracleFault>
    requires problem { (O.seen oracle.old).problem ≡ problem.now }
    requires begun { (O.seen oracle.old).lines ≡ [] }
    requires whole { (O.seen oracle.old).broken ≡ false }
    ensures lines { OnOk result ((O.seen oracle.new).lines ≡ hardened problem.now) }
    ensures fixed { IfOk result (λ lits. lits ≡ fixed problem.now) }
    ensures searched { OnOk result (MayBeSearched (O.seen oracle.new)) }
    ensures part { ArePartOf (O.seen oracle.new).lines problem.now }
    ensures fault { IfErr result (IsHardeningFault (O.seen oracle.old) (O.seen oracle.new)) }
    ensures keeps { KeepsRecorder (O.seen oracle.old) (O.seen oracle.new) }
{
    // Tells that the problem is within its limits.
    let _vars = problem.vars();
    let occurrences = Occurrences::of(alloc, problem)?;
    fix_all(alloc, oracle, &occurrences)
}

// Goes through the variables.
fn fix_all<O: Oracle>(
    alloc: Global,
    oracle: &mut O,
    occurrences: &Occurrences<'_>,
) -> Result<Items<Lit>, OracleFault>
    requires { HardensTo occurrences.now (O.seen oracle.old) 0 }
    ensures lines { OnOk result
        (HardensTo occurrences.now (O.seen oracle.new) occurrences.now.vars) }
    ensures fixed { IfOk result (λ lits. lits ≡ fixed occurrences.now) }
    ensures part { OnErr result (ArePartOf (O.seen oracle.new).lines occurrences.now) }
    ensures fault { IfErr result (IsHardeningFault (O.seen oracle.old) (O.seen oracle.new)) }
    ensures keeps { KeepsRecorder (O.seen oracle.old) (O.seen oracle.new) }
{
    let mut fixed = Items::new(alloc);
    for done in 0..occurrences.vars() {
        fix_next(alloc, oracle, occurrences, done, &mut fixed)?;
    }
    Ok(fixed)
}

// Makes a literal of the next variable false, if one is, after so many variables.
fn fix_next<O: Oracle>(
    alloc: Global,
    oracle: &mut O,
    occurrences: &Occurrences<'_>,
    done: u64,
    fixed: &mut Items<Lit>,
) -> Result<(), OracleFault>
    requires next { done < occurrences.now.vars }
    requires lines { HardensTo occurrences.now (O.seen oracle.old) done }
    requires fixed { fixed.old ≡ fixed_upto occurrences.now done }
    ensures lines { OnOk result (HardensTo occurrences.now (O.seen oracle.new) (done + 1)) }
    ensures fixed { OnOk result (fixed.new ≡ fixed_upto occurrences.now (done + 1)) }
    ensures part { OnErr result ((O.seen oracle.new).lines ≡ (O.seen oracle.old).lines) }
    ensures fault { IfErr result (IsHardeningFault (O.seen oracle.old) (O.seen oracle.new)) }
    ensures keeps { KeepsRecorder (O.seen oracle.old) (O.seen oracle.new) }
{
    // Tells that the problem is within its limits.
    let _vars = occurrences.vars();
    if let Some(lit) = occurrences.first_fixed(done + 1) {
        fixed.push(lit)?;
        add(oracle, &fixing_line(alloc, occurrences, lit)?)?;
    }
    Ok(())
}

// Adds a line, which its caller owns, and for which there is room.
fn add<O: Oracle>(oracle: &mut O, line: &Line) -> Result<(), OracleFault>
    requires formed { IsWellFormed line.now }
    requires legal { MayBeAdded (O.seen oracle.old).problem (O.seen oracle.old).lines line.now }
    requires whole { (O.seen oracle.old).broken ≡ false }
    requires few { length (O.seen oracle.old).lines < 2 ^ 61 }
    ensures added { OnOk result
        ((O.seen oracle.new).lines ≡ (O.seen oracle.old).lines ++ line.now ∷ []) }
    ensures whole { OnOk result ((O.seen oracle.new).broken ≡ false) }
    ensures part { OnErr result ((O.seen oracle.new).lines ≡ (O.seen oracle.old).lines) }
    ensures fault { IfErr result (IsHardeningFault (O.seen oracle.old) (O.seen oracle.new)) }
    ensures keeps { KeepsRecorder (O.seen oracle.old) (O.seen oracle.new) }
{
    oracle.add_line(line)?;
    Ok(())
}
