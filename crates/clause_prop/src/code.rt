// Literals in one number, for tables by literals.
ghost use Rattle.std.specs.Prelude.{◌≡◌};
ghost use Rattle.scut_base.specs.LiteralCode.{code_of};

use scut_base::Lit;

/// Twice the variable, plus 1 for a negation: the literal's place in a table with two places for each variable.
pub fn literal_code(lit: Lit) -> usize
    ensures { result ≡ code_of lit }
{
    let var = lit.var();
    (2 * var + u64::from(lit.is_neg())) as usize
}
