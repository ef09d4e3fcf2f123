// The output of a node of one term.
ghost use Rattle.std.specs.Prelude.{◌≡◌};
ghost use Rattle.sum_outputs.specs.Leaves.{leaf_output};

use crate::SumOutput;
use scut_base::Lit;

/// The term's literal, which stands for its weight. It has no line.
pub fn leaf_output(term: (Lit, u64)) -> SumOutput
    ensures { result ≡ leaf_output term }
{
    SumOutput {
        sum: term.1,
        from: 1,
        lit: term.0,
        lower: 0,
        upper: 0,
    }
}
