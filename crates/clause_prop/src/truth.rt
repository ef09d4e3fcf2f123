// The truth of each literal, in a table with two places for each variable.
ghost use Rattle.std.specs.Prelude.{◌≡◌, ◌+◌, ◌*◌, ◌<◌, length, IfOk, slice_set};
ghost use Rattle.scut_base.specs.LiteralCode.{code_of};
ghost use Rattle.pb_lin.specs.Constraint.{opposite};

use crate::literal_code;
use scut_base::{Lit, NoMemory};

/// Whether a literal is true, in one byte.
#[derive(Clone, Copy, Debug)]
pub enum Truth {
    /// Its variable is open.
    Open,
    /// It is true.
    True,
    /// It is false.
    False,
}

/// How many places a table has by the codes of the literals of so many variables.
pub(crate) fn codes_upto(vars: usize) -> Result<usize, NoMemory>
    ensures { IfOk result (λ codes. codes ≡ 2 * vars + 2) }
{
    if vars >= usize::MAX / 2 {
        return Err(NoMemory);
    }
    Ok(2 * vars + 2)
}

/// Writes the truths of a literal and of its negation.
pub(crate) fn set_truths(truths: &mut Vec<Truth>, lit: Lit, own: Truth, other: Truth)
    requires { 2 * lit.var + 1 < length truths.old.items }
    ensures { truths.new.items ≡ slice_set (slice_set truths.old.items (code_of lit) own)
        (code_of (opposite lit)) other }
{
    truths[literal_code(lit)] = own;
    truths[literal_code(lit.not())] = other;
}
