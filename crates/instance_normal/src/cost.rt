// Cost rows: terms merged by variable.
ghost use Rattle.std.specs.Prelude.{◌≡◌, ◌<◌, ◌≤◌, ◌+◌, ◌^◌, ◌+ℤ◌, ℕ, Bool, List, pos, length, map, slice_get, Some, if◌then◌else◌, unsigned_abs, IfOk, OnOk};
ghost use Rattle.scut_base.specs.Assignment.{value_of};
ghost use Rattle.instance.specs.Shape.{terms_magnitude};
ghost use Rattle.pb_lin.specs.CostRow.{IsCostRow, row_cost};
ghost use Rattle.pb_lin.specs.NormalForm.{signed_value, sum_value};
ghost use Rattle.instance_normal.specs.NormalForm.{IsCostRowOf, AreSomeOf, first_seen, with_variable};
ghost use Rattle.instance_normal.specs.Merging.{AreVariables, IsSignedTerm, sums_magnitude, sums_value, variables};

use indexmap::IndexSet;
use pb_lin::CostRow;
use scut_base::{Items, Lit, NoMemory};
use std::alloc::Global;

// The cost row of these terms and this offset. Takes one pass over the terms, in which each variable is
// looked up once, and one over their variables.
pub(crate) fn cost_row(
    alloc: Global,
    terms: &[(i64, Lit)],
    offset: i64,
) -> Result<CostRow, NoMemory>
    requires { terms_magnitude terms.now + unsigned_abs offset < 2 ^ 63 }
    ensures { IfOk result (IsCostRowOf (record { terms = terms.now; offset = offset })) }
{
    let (sums, constant) = merged(alloc, terms)?;
    signed_row(
        alloc,
        sums.as_slice(),
        i128::from(offset) + i128::from(constant),
    )
}

// The sum of each variable's coefficients, in the order in which the variables are first seen, and a
// constant, as c·~x = c - c·x.
fn merged(alloc: Global, terms: &[(i64, Lit)]) -> Result<(Vec<(u64, i64)>, i64), NoMemory>
    requires { terms_magnitude terms.now < 2 ^ 63 }
    ensures order { IfOk result (λ r. variables r.0.items ≡ first_seen terms.now) }
    ensures variables { IfOk result (λ r. AreVariables (variables r.0.items)) }
    ensures value { IfOk result (λ r. (a : List Bool)
        → (sums_value a r.0.items +ℤ r.1) ≡ sum_value a terms.now) }
    ensures magnitude { IfOk result (λ r. sums_magnitude r.0.items ≤ terms_magnitude terms.now) }
    ensures constant { IfOk result (λ r. unsigned_abs r.1 ≤ terms_magnitude terms.now) }
{
    let mut seen = IndexSet::new(alloc);
    let mut sums = Vec::new(alloc);
    let mut constant = 0;
    for term in terms {
        let (by, moved) = on_variable(term);
        add_term(&mut seen, &mut sums, term.1.var(), by)?;
        constant += moved;
    }
    Ok((sums, constant))
}

// The coefficient of the term's variable, and the constant.
fn on_variable(term: &(i64, Lit)) -> (i64, i64)
    requires { unsigned_abs term.now.0 < 2 ^ 63 }
    ensures value { (a : List Bool) → signed_value a term.now
        ≡ ((if value_of a term.now.1.var then result.0 else pos 0) +ℤ result.1) }
    ensures magnitude { unsigned_abs result.0 ≡ unsigned_abs term.now.0 }
    ensures constant { unsigned_abs result.1 ≤ unsigned_abs term.now.0 }
{
    if term.1.is_neg() {
        (-term.0, term.0)
    } else {
        (term.0, 0)
    }
}

// Adds a coefficient to the sum of its variable.
fn add_term(
    seen: &mut IndexSet<u64>,
    sums: &mut Vec<(u64, i64)>,
    var: u64,
    by: i64,
) -> Result<(), NoMemory>
    requires keys { variables sums.old.items ≡ seen.old.keys }
    requires small { sums_magnitude sums.old.items + unsigned_abs by < 2 ^ 63 }
    ensures keys { OnOk result (variables sums.new.items ≡ seen.new.keys) }
    ensures seen { OnOk result (seen.new.keys ≡ with_variable seen.old.keys var) }
    ensures value { OnOk result ((a : List Bool) → sums_value a sums.new.items
        ≡ (sums_value a sums.old.items +ℤ (if value_of a var then by else pos 0))) }
    ensures magnitude { OnOk result
        (sums_magnitude sums.new.items ≤ sums_magnitude sums.old.items + unsigned_abs by) }
{
    let (at, added) = seen.insert_full(var)?;
    if added {
        sums.push((var, by))?;
    } else {
        add_at(sums, at, by);
    }
    Ok(())
}

// Adds to the sum at a place.
fn add_at(sums: &mut Vec<(u64, i64)>, at: usize, by: i64)
    requires within { at < length sums.old.items }
    requires small { sums_magnitude sums.old.items + unsigned_abs by < 2 ^ 63 }
    ensures keys { variables sums.new.items ≡ variables sums.old.items }
    ensures value { (a : List Bool) (var : ℕ) → slice_get (variables sums.old.items) at ≡ Some var
        → sums_value a sums.new.items
        ≡ (sums_value a sums.old.items +ℤ (if value_of a var then by else pos 0)) }
    ensures magnitude { sums_magnitude sums.new.items ≤ sums_magnitude sums.old.items + unsigned_abs by }
{
    sums[at].1 += by;
}

// The cost row of sums with a constant, each value of which is small.
fn signed_row(alloc: Global, sums: &[(u64, i64)], offset: i128) -> Result<CostRow, NoMemory>
    requires variables { AreVariables (variables sums.now) }
    requires small { sums_magnitude sums.now < 2 ^ 63 }
    requires low { unsigned_abs offset < 2 ^ 65 }
    requires bounds { (a : List Bool) → unsigned_abs (sums_value a sums.now +ℤ offset) < 2 ^ 63 }
    ensures value { IfOk result (λ r. (a : List Bool)
        → row_cost a r ≡ (sums_value a sums.now +ℤ offset)) }
    ensures row { IfOk result (λ r. IsCostRow r.terms r.offset) }
    ensures order { IfOk result (λ r. AreSomeOf (map (λ t. t.0.var) r.terms) (variables sums.now)) }
{
    let mut terms = Items::new(alloc);
    let mut offset = offset;
    for sum in sums {
        offset += add_signed(&mut terms, *sum)?;
    }
    Ok(CostRow::from_parts(terms, offset as i64))
}

// Adds a positive term for a variable's sum, if it isn't 0, and answers what else it adds.
fn add_signed(terms: &mut Items<(Lit, u64)>, sum: (u64, i64)) -> Result<i128, NoMemory>
    requires from_one { 0 < sum.0 }
    requires below { sum.0 < 2 ^ 63 }
    ensures added { IfOk result (IsSignedTerm sum terms.old terms.new) }
{
    let (var, coefficient) = sum;
    if coefficient > 0 {
        terms.push((Lit::new(var, false), coefficient.unsigned_abs()))?;
        return Ok(0);
    }
    if coefficient < 0 {
        terms.push((Lit::new(var, true), coefficient.unsigned_abs()))?;
        return Ok(i128::from(coefficient));
    }
    Ok(0)
}
