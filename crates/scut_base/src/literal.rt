// A literal: a variable, or its negation, in one number.
ghost use Rattle.std.specs.Prelude.{◌≡◌, ◌<◌, ◌^◌, not};

use crate::{Duplicate, NoMemory};
use std::alloc::Global;
use std::cmp::Ordering;
use std::fmt;
use std::hash::{Hash, Hasher};
use std::marker::Model;

/// A variable, counted from 1, or its negation, in 8 bytes. Literals are ordered by variable, the
/// positive one first.
#[derive(Clone, Copy)]
pub struct Lit {
    // Twice the variable, plus 1 for a negation: half of a record of both, and its order is that of
    // literals.
    code: u64,
}

const _: () = prove!(std::mem::size_of::<Lit>() == 8);

impl Model for Lit {
    ghost use Rattle.std.specs.Prelude.{◌<◌, ◌^◌};
    ghost use Rattle.scut_base.specs.Literal.{Literal};
    ghost use Rattle.scut_base.specs.LiteralCode.{code_of, literal_of, code_of-literal_of};

    ghost Value = { Literal };

    ghost view = { λ l. literal_of l.code };

    ghost invariant = { λ l. (1 < l.code) × (l.code < 2 ^ 64) };

    ghost inverse = { λ l. record { code = code_of l } };

    ghost inverse_ok = { λ l h i. record { code = code_of-literal_of l.code i } };
}

impl Lit {
    /// The literal of a variable, negated or not.
    pub fn new(var: u64, neg: bool) -> Lit
        requires from_one { 0 < var }
        requires below { var < 2 ^ 63 }
        ensures var { result.var ≡ var }
        ensures neg { result.neg ≡ neg }
    {
        Lit {
            code: 2 * var + u64::from(neg),
        }
    }

    /// The variable, from 1 to 2^63 - 1.
    pub fn var(&self) -> u64
        ensures value { result ≡ self.now.var }
        ensures from_one { 0 < result }
        ensures below { result < 2 ^ 63 }
    {
        self.code / 2
    }

    /// Whether this is the negation of its variable.
    pub fn is_neg(&self) -> bool
        ensures { result ≡ self.now.neg }
    {
        self.code % 2 == 1
    }

    /// The other literal of the variable.
    pub fn not(&self) -> Lit
        ensures var { result.var ≡ self.now.var }
        ensures neg { result.neg ≡ not self.now.neg }
    {
        Lit {
            code: self.code ^ 1,
        }
    }
}

impl PartialEq for Lit {
    ghost use Rattle.std.specs.Prelude.{◌==◌};
    ghost use Rattle.std.specs.Ordering.{on, eq_of_both};
    ghost use Rattle.std.proofs.Math.Bool.{beq};
    ghost use Rattle.std.proofs.Common.{rules};
    ghost use Rattle.std.specs.Cmp.Rules.{comparing};

    ghost eq = { eq_of_both (on (λ l. l.var) ◌==◌) (on (λ l. l.neg) beq) };

    ghost laws = { Prim.search (comparing, rules) };

    fn eq(&self, other: &Lit) -> bool {
        self.code == other.code
    }
}

impl Eq for Lit {
    ghost use Rattle.std.proofs.Common.{rules};
    ghost use Rattle.std.specs.Cmp.Rules.{comparing};

    ghost laws = { Prim.search (comparing, rules) };
}

impl PartialOrd for Lit {
    ghost use Rattle.std.proofs.Common.{rules};
    ghost use Rattle.std.specs.Cmp.{partial_order_from_own_ties};
    ghost use Rattle.std.specs.Cmp.Rules.{comparing};
    ghost use Rattle.std.specs.Ordering.{on, then_cmp, nat_cmp, bool_cmp, as_partial_cmp};

    ghost partial_cmp = { as_partial_cmp
        (then_cmp (on (λ l. l.var) nat_cmp) (on (λ l. l.neg) bool_cmp)) };

    ghost laws = { partial_order_from_own_ties (Prim.search (comparing, rules))
        (Prim.search (comparing, rules)) };

    fn partial_cmp(&self, other: &Lit) -> Option<Ordering> {
        Some(self.cmp(other))
    }
}

impl Ord for Lit {
    ghost use Rattle.std.proofs.Common.{rules};
    ghost use Rattle.std.specs.Cmp.Rules.{comparing};
    ghost use Rattle.std.specs.Ordering.{on, then_cmp, nat_cmp, bool_cmp};

    ghost cmp = { then_cmp (on (λ l. l.var) nat_cmp) (on (λ l. l.neg) bool_cmp) };

    ghost total = { Prim.search (comparing, rules) };

    ghost matches_partial_cmp = { Prim.search (comparing, rules) };

    ghost matches_eq = { Prim.search (comparing, rules) };

    fn cmp(&self, other: &Lit) -> Ordering {
        self.code.cmp(&other.code)
    }
}

impl Hash for Lit {
    ghost use Rattle.std.specs.Hash as fed;
    ghost use Rattle.scut_base.specs.LiteralCode.{code_of, one_code};

    ghost hash_input = { λ l. fed.u64 (code_of l) };

    ghost respects_eq = { λ l m e. one_code l m e };

    fn hash<H: Hasher>(&self, state: &mut H) {
        self.code.hash(state);
    }
}

impl fmt::Debug for Lit {
    /// As logs spell it: `x3`, and `~x3` for its negation.
    fn fmt<W: fmt::Write>(&self, f: &mut fmt::Formatter<W>) -> fmt::Result {
        let sign = if self.is_neg() { "~" } else { "" };
        let var = self.var();
        write!(f, "{sign}x{var}")
    }
}

impl Default for Lit {
    ghost use Rattle.std.specs.Prelude.{◌≡◌, false};

    ghost is_default = { λ l. (l.var ≡ 1) × (l.neg ≡ false) };

    /// The literal of variable 1, which lists of a fixed room want as a filler.
    fn default() -> Lit {
        Lit { code: 2 }
    }
}

impl Duplicate for Lit {
    fn copy(&self, _alloc: Global) -> Result<Lit, NoMemory> {
        Ok(*self)
    }
}
