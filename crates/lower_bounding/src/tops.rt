// What costs are at most.
ghost use Rattle.std.specs.Prelude.{◌≡◌, ◌<◌, ◌^◌};
ghost use Rattle.pb_lin.specs.Constraint.{total};
ghost use Rattle.lower_bounding.specs.Fences.{greatest_cost};

use pb_lin::CostRow;
use scut_base::Lit;

// The cost of the row where each of its literals is true.
pub(crate) fn greatest_cost(row: &CostRow) -> i64
    ensures { result ≡ greatest_cost row.now }
{
    total(row.terms()) as i64 + row.offset()
}

// The coefficients, summed.
fn total(terms: &[(Lit, u64)]) -> u64
    requires { total terms.now < 2 ^ 63 }
    ensures { result ≡ total terms.now }
{
    let mut sum = 0;
    for term in terms {
        sum += term.1;
    }
    sum
}
