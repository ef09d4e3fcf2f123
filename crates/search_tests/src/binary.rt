// All four clauses over two variables: what each propagator forces, and which clause it names as the conflict.
ghost use Rattle.std.specs.Prelude.{◌≡◌, ℕ, []};
ghost use Rattle.std.specs.FinMap.{empty};
ghost use Rattle.search_tests.specs.declared.lines.TheConstants.{VARS};

use crate::fixture::Fixture;
use crate::lines::{VARS, put};
use clause_prop::{PlainProp, Propagator};
use pb_lin::LinFault;
use scut_base::Lit;
use std::alloc::Global;
use std::test::Fail;
use watch_prop::WatchProp;

// By ids from 1 on, which of x1 and of x2 are negated.
const SIGNS: [(bool, bool); 4] = [(false, false), (true, false), (false, true), (true, true)];

// Stores the four clauses, and decides x1.
fn store_clauses<P: Propagator + Drop>(
    alloc: Global,
    fixture: &mut Fixture<P>,
) -> Result<(), LinFault>
    requires { fixture.old ≡ VARS }
    ensures { fixture.new ≡ VARS }
{
    for (before, signs) in SIGNS.iter().enumerate() {
        let terms = [(1, Lit::new(1, signs.0)), (1, Lit::new(2, signs.1))];
        put(alloc, fixture, before as u64 + 1, &terms, 1)?;
    }
    fixture.decide(Lit::new(1, false));
    Ok(())
}

// Whether x2 is true after a propagation, the id of the clause that forced it, and that of the conflict.
type Forced = (Option<bool>, u64, Option<u64>);

// What a propagation makes of the clauses.
fn forced<P: Propagator + Drop>(alloc: Global, fixture: &mut Fixture<P>) -> Result<Forced, LinFault>
    requires { fixture.old ≡ VARS }
{
    store_clauses(alloc, fixture)?;
    let conflict = fixture.propagate()?;
    let trail = fixture.trail();
    let reason = if trail.len() > 1 {
        trail.step_at(1).reason
    } else {
        0
    };
    Ok((trail.value(Lit::new(2, false)), reason, conflict))
}

// What a propagator makes of them.
fn forced_by<P: Propagator + Drop>(alloc: Global, prop: P) -> Result<Forced, LinFault>
    requires { (n : ℕ) → P.in_step prop empty (record { vars = n; steps = [] }) }
{
    let mut fixture = Fixture::new(alloc, VARS, prop)?;
    forced(alloc, &mut fixture)
}

#[test]
fn the_opposite_clause_is_the_conflict(rt: HostRuntime) -> Result<(), Fail> {
    let watched = forced_by(rt.alloc(), WatchProp::new(rt.alloc()))?;
    let plain = forced_by(rt.alloc(), PlainProp)?;
    let first = (Some(true), 2, Some(4));
    let second = (Some(false), 4, Some(2));
    // One goes through the clauses by their ids.
    assert!(rt; plain == first && (watched == first || watched == second));
    Ok(())
}
