// The value of tokens.
ghost use Rattle.std.specs.Prelude.{◌≡◌, ℕ, List, [], Ok, All, IfOk};
ghost use Rattle.pb_lin.specs.Constraint.{ConstraintValue, UpTo};
ghost use Rattle.pb_lin.specs.Given.{Given, GivenWithin, IsImpliedBy, given_of};
ghost use Rattle.cutting_planes.specs.Stack.{Answer, IsPolValue, IsValueOn, TokenUpTo};
ghost use Rattle.cutting_planes.specs.declared.token.PolToken.{PolToken};

use crate::stack::ConstraintStack;
use crate::steps::apply_first;
use crate::{PolFault, PolToken};
use pb_lin::{Constraint, Lines};
use std::alloc::Global;

/// The constraint that the tokens make on a stack that is empty at first; `negated` and `denied` are the
/// constraints that those two tokens push. The rules are those of Cook, Coullard and Turán (1987), with
/// saturation and weakening, as VeriPB's `pol` has them (Gocht and Nordström 2021). Each token costs at
/// most two passes over the terms that it reads, and as many `Weaken` as follow one another cost two
/// passes together and a binary search each. A constraint that is named is pushed by reference, which
/// takes no memory for its terms, and copied once a token changes it, which `Mul(1)` and `Add` of `0 >= 0`
/// don't; `Add` makes one new constraint of two, and the other operations change the topmost in place.
/// Where 16 or more additions of lines follow one another, each pushed, multiplied or not, and added, and
/// of at most a 16th of the topmost's terms, they are made in place as well: together they cost a sort of
/// the lines' terms and the topmost's, and a binary search each.
///
/// The first token that fails decides: `NoSuchId(id)` where no line has this id, and `NoSuchId(0)` where
/// `negated` or `denied` isn't given; `Stack` where a token finds too few constraints, which is judged
/// first, or where not exactly one is left at the end; `BadFactor` where a factor is below 1; `Overflow`
/// where the size of a sum or a product would exceed 2^100 before terms cancel. `NoMemory` where memory
/// was refused.
pub fn evaluate(
    alloc: Global,
    tokens: &[PolToken],
    lines: &Lines,
    negated: Option<&Constraint>,
    denied: Option<&Constraint>,
) -> Result<Constraint, PolFault>
    ensures value { IsPolValue (given_of lines.now negated.entry denied.entry) tokens.now result }
    ensures implied { IfOk result (IsImpliedBy (given_of lines.now negated.entry denied.entry)) }
{
    let mut stack = ConstraintStack::new(alloc);
    let mut at = 0;
    while at < tokens.len() {
        let applied = apply_first(alloc, &mut stack, &tokens[at..], lines, negated, denied)?;
        at += applied;
    }
    stack.into_answer(alloc)
}

/// Law: tokens have at most one value.
pub fn one_value()
    ensures { (given : Given) (tokens : List PolToken) (x y : Answer)
        → IsValueOn given [] tokens x → IsValueOn given [] tokens y → x ≡ y }
{}

/// Law: the value of tokens has no variable that what is given and the tokens' literals lack.
pub fn value_variables()
    ensures { (given : Given) (tokens : List PolToken) (c : ConstraintValue) (n : ℕ)
        → GivenWithin n given → All (TokenUpTo n) tokens
        → IsValueOn given [] tokens (Ok c) → UpTo n c }
{}
