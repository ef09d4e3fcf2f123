// The rows of clauses.
ghost use Rattle.std.specs.Prelude.{◌≡◌, ◌↔◌, ◌<◌, ◌≤◌, ◌++◌, ◌∷◌, [], ℕ, true, false, All, AllPairs, Contains, IfOk, MatchOption};
ghost use Rattle.std.specs.List.Sorted.{IsNonDecreasingBy};
ghost use Rattle.scut_base.specs.Literal.{Literal};
ghost use Rattle.instance.specs.Shape.{ClauseUpTo};
ghost use Rattle.pb_lin.specs.Constraint.{IsNormal, opposite, ones};
ghost use Rattle.instance_normal.specs.NormalForm.{AreDistinct, Clause, IsRowOf, is_tautology, trivial_row};
ghost use Rattle.instance_normal.specs.Fitting.{Fits};

use pb_lin::Constraint;
use scut_base::{Items, Lit, NoMemory};
use std::alloc::Global;

// The row of a clause.
pub(crate) fn clause_row(alloc: Global, lits: &[Lit]) -> Result<Constraint, NoMemory>
    ensures row { IfOk result (IsRowOf (Clause lits.now)) }
    ensures fits { IfOk result (λ c. (n : ℕ) → ClauseUpTo n lits.now → Fits n c) }
{
    match distinct_literals(alloc, lits)? {
        None => trivial(alloc),
        Some(distinct) => Ok(at_least_one(distinct)),
    }
}

// 0 >= 0.
fn trivial(alloc: Global) -> Result<Constraint, NoMemory>
    ensures value { IfOk result (λ c. c ≡ trivial_row) }
    ensures normal { IfOk result (λ c. IsNormal c.terms c.degree) }
{
    let row = Constraint::from_terms(alloc, &[], 0)?;
    let _normal = row.degree();
    Ok(row)
}

// That one of these literals, whose variables rise, is true.
pub(crate) fn at_least_one(distinct: Items<Lit>) -> Constraint
    requires { AllPairs (λ l m. l.var < m.var) distinct }
    ensures value { result ≡ record { terms = ones distinct; degree = 1 } }
    ensures normal { IsNormal result.terms result.degree }
    ensures fits { (n : ℕ) → ClauseUpTo n distinct → Fits n result }
{
    let row = Constraint::clause(distinct);
    let _normal = row.len();
    row
}

// The literals of a clause, each once, in rising order of variables, or none where one stands beside
// its opposite. Costs a sort of a copy.
pub(crate) fn distinct_literals(alloc: Global, lits: &[Lit]) -> Result<Option<Items<Lit>>, NoMemory>
    ensures { IfOk result (λ found. MatchOption found (is_tautology lits.now ≡ true)
        (λ distinct. (is_tautology lits.now ≡ false) × AreDistinct lits.now distinct)) }
{
    let mut sorted = Vec::from_slice(alloc, lits)?;
    sorted.sort_unstable_by_key(|lit| lit.var());
    distinct_of_sorted(alloc, sorted.as_slice())
}

// The same of literals in order of variables.
fn distinct_of_sorted(alloc: Global, sorted: &[Lit]) -> Result<Option<Items<Lit>>, NoMemory>
    requires { IsNonDecreasingBy (λ l. l.var) sorted.now }
    ensures { IfOk result (λ found. MatchOption found (is_tautology sorted.now ≡ true)
        (λ distinct. AreDistinct sorted.now distinct)) }
{
    let mut distinct = Items::with_capacity(alloc, sorted.len())?;
    for lit in sorted {
        if add_literal(&mut distinct, *lit)? {
            return Ok(None);
        }
    }
    Ok(Some(distinct))
}

// Adds a literal of no lower a variable to others, if it isn't there, and answers whether its opposite
// is.
fn add_literal(distinct: &mut Items<Lit>, lit: Lit) -> Result<bool, NoMemory>
    requires rising { AllPairs (λ l m. l.var < m.var) distinct.old }
    requires upto { All (λ l. l.var ≤ lit.var) distinct.old }
    ensures rising { IfOk result (λ _. AllPairs (λ l m. l.var < m.var) distinct.new) }
    ensures upto { IfOk result (λ _. All (λ l. l.var ≤ lit.var) distinct.new) }
    ensures found { IfOk result (λ found. found ≡ true → Contains distinct.old (opposite lit)) }
    ensures added { IfOk result (λ found. found ≡ false
        → (l : Literal) → Contains distinct.new l ↔ Contains (distinct.old ++ lit ∷ []) l) }
{
    let len = distinct.len();
    if len == 0 {
        distinct.push(lit)?;
        return Ok(false);
    }
    let last = *distinct.at(len - 1);
    if last.var() < lit.var() {
        distinct.push(lit)?;
        return Ok(false);
    }
    Ok(last.is_neg() != lit.is_neg())
}
