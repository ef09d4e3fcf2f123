// Logged models.
ghost use Rattle.std.specs.Prelude.{◌≡◌, ◌≢◌, ◌<◌, ◌≤◌, ◌∷◌, [], None, List, map, length, option_map, All, AllPairs, IfOk};
ghost use Rattle.std.specs.List.Sorted.{IsPermutation};
ghost use Rattle.scut_base.specs.Literal.{Literal};
ghost use Rattle.pb_lin.specs.Constraint.{TermsUpTo, UpTo, opposite, value};
ghost use Rattle.pb_lin.specs.CostRow.{IsCostRow};
ghost use Rattle.pb_lin.specs.Restriction.{restriction};
ghost use Rattle.proof_laws.specs.WellFormed.{AreRisingLiterals};
ghost use Rattle.proof_laws.specs.Refusal.{IsSolFault, IsCutFault, assignment_of, broken_row, line_or_none, misplaced};
ghost use Rattle.proof_rules.specs.Verdict.{IsVerdict};

use crate::StepFault;
use crate::ranges::literals_above;
use crate::reached::Reached;
use pb_lin::{Constraint, CostRow, Lines, PbProblem, row_cost};
use proof_laws::Why;
use scut_base::{Assignment, Items, Lit, NoMemory, boxed};
use std::alloc::Global;

// The literals are a model of the problem's variables in order, and the named lines bound each
// objective from below by its value there, where the cut's literals are false. Answers the model.
// Costs the problem's rows, and a sort of each objective's terms.
pub(crate) fn judge_solution(
    alloc: Global,
    problem: &PbProblem,
    reached: &Reached,
    model: &[Lit],
    cut: &[Lit],
    ids: &[u64],
) -> Result<Assignment, StepFault>
    requires cut { AreRisingLiterals cut.now }
    ensures verdict { IsVerdict
        (IsSolFault problem.now reached.now model.now cut.now ids.now) result }
    ensures model { IfOk result (λ a. a ≡ assignment_of model.now) }
{
    if let Some(place) = misplaced(model, problem.vars()) {
        return Err(StepFault::Refused(Why::VarRange(place)));
    }
    let a = assignment_of(alloc, model)?;
    if let Some(id) = broken_row(&a, problem.rows()) {
        return Err(StepFault::Refused(Why::SolRow(id)));
    }
    if let Some(var) = literals_above(cut, reached.vars) {
        return Err(StepFault::Refused(Why::VarRange(var)));
    }
    judge_cut(alloc, problem.costs(), &reached.live, &a, cut, ids)?;
    Ok(a)
}

// The first place whose literal isn't there or isn't of the variable of that place.
fn misplaced(model: &[Lit], vars: u64) -> Option<u64>
    ensures { result ≡ misplaced 1 vars model.now }
{
    for (at, literal) in model.iter().enumerate() {
        let place = at as u64 + 1;
        if place > vars || literal.var() != place {
            return Some(place);
        }
    }
    let place = model.len() as u64 + 1;
    if place <= vars { Some(place) } else { None }
}

// The assignment that makes these literals, of the variables in order, true.
pub(crate) fn assignment_of(alloc: Global, model: &[Lit]) -> Result<Assignment, NoMemory>
    requires { misplaced 1 (length model.now) model.now ≡ None }
    ensures { IfOk result (λ a. a ≡ assignment_of model.now) }
{
    let mut a = Assignment::new(alloc, model.len() as u64)?;
    for literal in model {
        a.set(*literal);
    }
    Ok(a)
}

// The id of the first row that doesn't hold.
fn broken_row(a: &Assignment, rows: &[Constraint]) -> Option<u64>
    requires { All (UpTo (length a.now)) rows.now }
    ensures { result ≡ broken_row a.now rows.now }
{
    for (at, row) in rows.iter().enumerate() {
        if !row.holds(a) {
            return Some(at as u64 + 1);
        }
    }
    None
}

// Each objective has an id, and its line bounds it from below where the cut's literals are false.
fn judge_cut(
    alloc: Global,
    costs: &[CostRow],
    lines: &Lines,
    a: &Assignment,
    cut: &[Lit],
    ids: &[u64],
) -> Result<(), StepFault>
    requires few { length costs.now ≤ 64 }
    requires variables { All (λ r. TermsUpTo (length a.now) r.terms) costs.now }
    requires rising { AllPairs (λ l m. l.var < m.var) cut.now }
    ensures { IsVerdict (IsCutFault lines.now cut.now a.now 1 costs.now ids.now) result }
{
    let truths = opposites(alloc, cut)?;
    for (at, row) in costs.iter().enumerate() {
        let objective = at as u32 + 1;
        if at >= ids.len() {
            return Err(StepFault::Refused(Why::CutOpen(objective)));
        }
        judge_bound(alloc, objective, row, lines, a, &truths, ids[at])?;
    }
    if ids.len() > costs.len() {
        return Err(StepFault::Refused(Why::CutOpen(costs.len() as u32 + 1)));
    }
    Ok(())
}

// These literals negated.
fn opposites(alloc: Global, literals: &[Lit]) -> Result<Vec<Lit>, NoMemory>
    ensures { IfOk result (λ v. v.items ≡ map opposite literals.now) }
{
    let mut opposites = Vec::with_capacity(alloc, literals.len())?;
    for literal in literals {
        opposites.push(literal.not())?;
    }
    Ok(opposites)
}

// The line of the id bounds the objective of this number from below by its value under the
// assignment, where the literals are true. What is left of both there is compared.
fn judge_bound(
    alloc: Global,
    objective: u32,
    row: &CostRow,
    lines: &Lines,
    a: &Assignment,
    truths: &[Lit],
    id: u64,
) -> Result<(), StepFault>
    requires variables { TermsUpTo (length a.now) row.now.terms }
    requires distinct { AllPairs (λ l m. l.var ≢ m.var) truths.now }
    ensures { (cut : List Literal) → truths.now ≡ map opposite cut
        → IsVerdict (IsCutFault lines.now cut a.now objective (row.now ∷ []) (id ∷ [])) result }
{
    let Some(line) = restricted_line(alloc, lines, id, truths)? else {
        return Err(StepFault::Refused(Why::NoSuchId(id)));
    };
    // In boxes, since the proof of each way out takes apart what is owned there.
    let line = boxed(alloc, line)?;
    let whole = boxed(alloc, bound_of(alloc, row, a)?)?;
    let bound = boxed(alloc, whole.restricted(alloc, truths)?)?;
    if line.covers(&bound) {
        Ok(())
    } else {
        Err(StepFault::Refused(Why::CutOpen(objective)))
    }
}

// What is left of the line of an id where the literals are true; 0 names "0 >= 0".
fn restricted_line(
    alloc: Global,
    lines: &Lines,
    id: u64,
    truths: &[Lit],
) -> Result<Option<Constraint>, NoMemory>
    requires { AllPairs (λ l m. l.var ≢ m.var) truths.now }
    ensures { IfOk result (λ line. line
        ≡ option_map (λ c. restriction c truths.now) (line_or_none lines.now id)) }
{
    if id == 0 {
        return Ok(Some(Constraint::at_least(Items::new(alloc), 0)));
    }
    match lines.get(id) {
        Some(line) => Ok(Some(line.restricted(alloc, truths)?)),
        None => Ok(None),
    }
}

// That the objective, without its offset, is at least its value under the assignment.
fn bound_of(alloc: Global, row: &CostRow, a: &Assignment) -> Result<Constraint, NoMemory>
    requires { TermsUpTo (length a.now) row.now.terms }
    ensures terms { IfOk result (λ c. IsPermutation row.now.terms c.terms) }
    ensures degree { IfOk result (λ c. c.degree ≡ value a.now row.now.terms) }
{
    let terms = sorted_terms(alloc, row)?;
    Constraint::from_terms(alloc, &terms, value_of(row, a) as u128)
}

// The value of an objective, without its offset, under an assignment.
fn value_of(row: &CostRow, a: &Assignment) -> u64
    requires { TermsUpTo (length a.now) row.now.terms }
    ensures value { result ≡ value a.now row.now.terms }
    ensures row { IsCostRow row.now.terms row.now.offset }
{
    // The row's limits, by which the difference fits.
    let _row = row.terms();
    (row_cost(row, a) - row.offset()) as u64
}

// The terms of an objective in rising order of variables.
fn sorted_terms(alloc: Global, row: &CostRow) -> Result<Vec<(Lit, u128)>, NoMemory>
    ensures same { IfOk result (λ v. IsPermutation row.now.terms v.items) }
    ensures rising { IfOk result (λ v. AllPairs (λ s t. s.0.var < t.0.var) v.items) }
{
    let mut terms = wide_terms(alloc, row.terms())?;
    terms.sort_unstable_by_key(|term| term.0.var());
    Ok(terms)
}

// The same terms, with coefficients as those of constraints.
fn wide_terms(alloc: Global, terms: &[(Lit, u64)]) -> Result<Vec<(Lit, u128)>, NoMemory>
    ensures { IfOk result (λ v. v.items ≡ terms.now) }
{
    let mut wide = Vec::with_capacity(alloc, terms.len())?;
    for term in terms {
        wide.push((term.0, u128::from(term.1)))?;
    }
    Ok(wide)
}
