// The lines that the log names for what stands for the costs of a model.
ghost use Rattle.std.specs.Prelude.{◌≡◌, length, sum_by, IfOk};
ghost use Rattle.pb_lin.specs.Restriction.{is_among, met_value};
ghost use Rattle.search_base.specs.Cutting.{AreNamed, IsNamed, answered_literal, answered_literals};

use front_set::CostVec;
use pb_lin::{CostRow, PbProblem};
use scut_base::{Items, Lit, NoMemory};
use std::alloc::Global;
use totalizer::Bound;

// The answers, each with the line that the log names. An objective that always costs so much has none where
// the weights of its own terms whose literals are answered come to its cost by themselves: what the cut leaves
// of such an objective isn't below its reform's line. Costs a walk over the terms of the others that have one.
pub(crate) fn named_answers(
    alloc: Global,
    problem: &PbProblem,
    costs: &CostVec,
    answers: &[Bound],
) -> Result<Items<Bound>, NoMemory>
    requires answers { length answers.now ≡ length problem.now.costs }
    requires costs { length costs.now ≡ length problem.now.costs }
    ensures { IfOk result (AreNamed problem.now costs.now answers.now) }
{
    let mut named = Items::new(alloc);
    for (objective, row) in problem.costs().iter().enumerate() {
        let cost = costs.as_slice()[objective];
        named.push(named_answer(row, cost, answers[objective], answers))?;
    }
    Ok(named)
}

// The answer for one objective, with the line that the log names.
fn named_answer(row: &CostRow, cost: i64, answer: Bound, answers: &[Bound]) -> Bound
    ensures { IsNamed row.now cost (answered_literals answers.now) answer result }
{
    let Bound::Always { .. } = answer else {
        return answer;
    };
    if cost <= row.offset() {
        return Bound::Always { lower_line: 0 };
    }
    if i128::from(cost) <= i128::from(row.offset()) + i128::from(met_by(row, answers)) {
        return Bound::Always { lower_line: 0 };
    }
    answer
}

// The weights of the row's terms whose literals are answered, summed.
fn met_by(row: &CostRow, answers: &[Bound]) -> u64
    ensures { result ≡ sum_by (met_value (answered_literals answers.now)) row.now.terms }
{
    let mut met = 0;
    for term in row.terms() {
        if is_answered(answers, term.0) {
            met += term.1;
        }
    }
    met
}

// Whether the literal is one that is answered.
fn is_answered(answers: &[Bound], lit: Lit) -> bool
    ensures { result ≡ is_among (answered_literals answers.now) lit }
{
    for answer in answers {
        if is_its_literal(answer, lit) {
            return true;
        }
    }
    false
}

// Whether the literal is that of the answer.
fn is_its_literal(answer: &Bound, lit: Lit) -> bool
    ensures { result ≡ is_among (answered_literal answer.now) lit }
{
    match answer {
        Bound::At { lit: own, .. } => own.var() == lit.var() && own.is_neg() == lit.is_neg(),
        _ => false,
    }
}
