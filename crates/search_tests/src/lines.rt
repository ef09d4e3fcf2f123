// Lines that a fixture of many variables is given.
ghost use Rattle.std.specs.Prelude.{◌≡◌, All, IfOk};
ghost use Rattle.pb_lin.specs.Constraint.{IsVariable, UpTo};

use crate::fixture::Fixture;
use clause_prop::Propagator;
use pb_lin::{Constraint, LinFault};
use scut_base::Lit;
use std::alloc::Global;

// The number of variables.
pub const VARS: u64 = 200_001;

// That a sum is at least a degree.
fn line(alloc: Global, terms: &[(i128, Lit)], degree: i128) -> Result<Constraint, LinFault>
    requires { All (λ t. IsVariable VARS t.1.var) terms.now }
    ensures { IfOk result (UpTo VARS) }
{
    let line = Constraint::normal(alloc, terms, degree)?;
    let _normal = line.len();
    Ok(line)
}

// Gives an id the line that a sum is at least a degree.
pub fn put<P: Propagator + Drop>(
    alloc: Global,
    fixture: &mut Fixture<P>,
    id: u64,
    terms: &[(i128, Lit)],
    degree: i128,
) -> Result<(), LinFault>
    requires vars { fixture.old ≡ VARS }
    requires terms { All (λ t. IsVariable VARS t.1.var) terms.now }
    ensures { fixture.new ≡ VARS }
{
    let line = line(alloc, terms, degree)?;
    Ok(fixture.put(id, &line)?)
}
