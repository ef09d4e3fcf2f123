// Long chains of lines, each of which makes the next variable true where its own is: what it costs to go along them,
// and to go along their last part again.
ghost use Rattle.std.specs.Prelude.{◌≡◌, ◌<◌};
ghost use Rattle.search_tests.specs.declared.lines.TheConstants.{VARS};

use crate::fixture::Fixture;
use crate::lines::{VARS, put};
use pb_lin::LinFault;
use scut_base::{Lit, NoMemory};
use std::alloc::Global;
use std::test::Fail;
use watch_prop::WatchProp;

// How many blocks an interrupted chain has, and how many variables each.
const BLOCKS: u64 = 4000;

const BLOCK: u64 = 50;

// Which lines a chain has: with coefficients of 1 they are clauses, which are watched, and with others they are
// counted. There is none from the last variable of a block to the next one.
#[derive(Clone, Copy)]
struct Chain {
    coefficient: i128,
    block: u64,
    ghost long: { 0 < block },
}

// Stores the line of a variable and the next.
fn store_link(
    alloc: Global,
    fixture: &mut Fixture<WatchProp>,
    chain: Chain,
    id: u64,
    var: u64,
) -> Result<(), LinFault>
    requires from_one { 0 < var }
    requires below { var < VARS }
    requires vars { fixture.old ≡ VARS }
    ensures { fixture.new ≡ VARS }
{
    if var % chain.block == 0 {
        return Ok(());
    }
    let terms = [
        (chain.coefficient, Lit::new(var, true)),
        (chain.coefficient, Lit::new(var + 1, false)),
    ];
    put(alloc, fixture, id, &terms, chain.coefficient)
}

// Stores the lines, those of the first half of the variables in falling order.
fn store_chain(
    alloc: Global,
    fixture: &mut Fixture<WatchProp>,
    chain: Chain,
) -> Result<(), LinFault>
    requires { fixture.old ≡ VARS }
    ensures { fixture.new ≡ VARS }
{
    for id in 1..VARS {
        let var = if id > VARS / 2 { id } else { VARS / 2 + 1 - id };
        store_link(alloc, fixture, chain, id, var)?;
    }
    Ok(())
}

// Whether a propagation finds no conflict, and leaves so many steps.
fn goes_to(fixture: &mut Fixture<WatchProp>, steps: u64) -> Result<bool, NoMemory>
    ensures { fixture.new ≡ fixture.old }
{
    let conflict = fixture.propagate()?;
    Ok(conflict.is_none() && fixture.trail().len() == steps)
}

// Whether a propagation goes along a whole chain, whose first variable a line makes true.
fn goes_along(alloc: Global, fixture: &mut Fixture<WatchProp>) -> Result<bool, LinFault>
    requires { fixture.old ≡ VARS }
{
    put(alloc, fixture, VARS, &[(1, Lit::new(1, false))], 1)?;
    Ok(goes_to(fixture, VARS)?)
}

// Whether it goes along each block where its first variable is decided, and many times along the last one.
fn goes_along_again(fixture: &mut Fixture<WatchProp>) -> Result<bool, LinFault>
    requires { fixture.old ≡ VARS }
{
    for block in 0..BLOCKS + 10_000 {
        let before = block.min(BLOCKS - 1) * BLOCK;
        fixture.cut(before);
        if !fixture.decide(Lit::new(before + 1, false)) || !goes_to(fixture, before + BLOCK)? {
            return Ok(false);
        }
    }
    Ok(true)
}

// Stores a chain; whether it is gone along.
fn is_stored_and_gone_along(
    alloc: Global,
    fixture: &mut Fixture<WatchProp>,
    chain: Chain,
) -> Result<bool, LinFault>
    requires { fixture.old ≡ VARS }
{
    store_chain(alloc, fixture, chain)?;
    if chain.block == VARS {
        goes_along(alloc, fixture)
    } else {
        goes_along_again(fixture)
    }
}

// Whether a chain of one block, or of many, is gone along.
fn is_gone_along(alloc: Global, chain: Chain) -> Result<bool, LinFault> {
    let mut fixture = Fixture::new(alloc, VARS, WatchProp::new(alloc))?;
    is_stored_and_gone_along(alloc, &mut fixture, chain)
}

// Whether chains with this coefficient are gone along.
fn are_gone_along(alloc: Global, coefficient: i128) -> Result<bool, LinFault> {
    let (whole, blocks) = (VARS, BLOCK);
    Ok(
        is_gone_along(
            alloc,
            Chain {
                coefficient,
                block: whole,
            },
        )? && is_gone_along(
            alloc,
            Chain {
                coefficient,
                block: blocks,
            },
        )?,
    )
}

// For clauses, and for lines that are counted. It takes two seconds, and would take minutes if a step more made those
// before it be looked at again, or a cut those of lower levels.
#[test]
fn a_step_is_looked_at_once(rt: HostRuntime) -> Result<(), Fail> {
    assert!(rt; are_gone_along(rt.alloc(), 1)? && are_gone_along(rt.alloc(), 2)?);
    Ok(())
}
