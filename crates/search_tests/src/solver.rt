// What a solver over a recorder in memory answers to small problems with assumptions, worked out by hand.
ghost use Rattle.std.specs.Prelude.{[], IfOk};
ghost use Rattle.std.specs.FinMap.{empty};
ghost use Rattle.oracle.specs.Solving.{AreAssumptions};

use crate::problems::problem;
use cdcl_core::Solver;
use clause_prop::{PlainProp, Propagator};
use oracle::{Answer, Oracle, OracleFault};
use pb_lin::PbProblem;
use proof_text::MemRecorder;
use scut_base::Lit;
use std::alloc::Global;
use std::test::Fail;
use watch_prop::WatchProp;

// That the rows can be satisfied, or not, by a core of these literals, or that it isn't known yet where this many
// clauses may be learned. A literal is the number of its variable, below 0 where it is negated.
#[derive(Clone, Copy)]
enum Expected {
    Sat,
    Unsat(&'static [i32]),
    Spent(u64),
}

// More pigeons than holes: each of four sits in some hole, and no two in one.
const PIGEONS: &str = "1 x1 1 x2 1 x3 >= 1 ;
    1 x4 1 x5 1 x6 >= 1 ;
    1 x7 1 x8 1 x9 >= 1 ;
    1 x10 1 x11 1 x12 >= 1 ;
    1 ~x1 1 ~x4 >= 1 ; 1 ~x2 1 ~x5 >= 1 ; 1 ~x3 1 ~x6 >= 1 ;
    1 ~x1 1 ~x7 >= 1 ; 1 ~x2 1 ~x8 >= 1 ; 1 ~x3 1 ~x9 >= 1 ;
    1 ~x4 1 ~x7 >= 1 ; 1 ~x5 1 ~x8 >= 1 ; 1 ~x6 1 ~x9 >= 1 ;
    1 ~x1 1 ~x10 >= 1 ; 1 ~x2 1 ~x11 >= 1 ; 1 ~x3 1 ~x12 >= 1 ;
    1 ~x4 1 ~x10 >= 1 ; 1 ~x5 1 ~x11 >= 1 ; 1 ~x6 1 ~x12 >= 1 ;
    1 ~x7 1 ~x10 >= 1 ; 1 ~x8 1 ~x11 >= 1 ; 1 ~x9 1 ~x12 >= 1 ;";

// The statements of a problem, assumptions, and the answer. An objective brings in variables that no row holds.
static CASES: [(&str, &[i32], Expected); 18] = [
    // no rows, and no variables
    ("", &[], Expected::Sat),
    // no rows, and a variable that only an assumption holds
    ("min: 1 x1 ;", &[], Expected::Sat),
    ("min: 1 x1 ;", &[-1], Expected::Sat),
    ("min: 1 x3 ; 1 x1 1 x2 >= 1 ;", &[-2, 3], Expected::Sat),
    // an assumption that has no part in the conflict isn't in the core
    (
        "min: 1 x3 ; 1 x1 1 x2 >= 1 ;",
        &[-1, -2, 3],
        Expected::Unsat(&[-1, -2]),
    ),
    // assumptions that a row keeps apart
    ("1 ~x1 1 ~x2 >= 1 ;", &[1, 2], Expected::Unsat(&[1, 2])),
    ("1 ~x1 1 ~x2 >= 1 ;", &[1, -2], Expected::Sat),
    // a conflict without assumptions
    (
        "1 x1 >= 1 ; 1 ~x1 >= 1 ; 1 x2 >= 0 ;",
        &[2],
        Expected::Unsat(&[]),
    ),
    (">= 1 ;", &[], Expected::Unsat(&[])),
    // a literal that the rows force is assumed false
    ("1 x1 1 x2 >= 1 ; 2 ~x1 1 x3 >= 2 ;", &[], Expected::Sat),
    (
        "1 x1 1 x2 >= 1 ; 2 ~x1 1 x3 >= 2 ;",
        &[1],
        Expected::Unsat(&[1]),
    ),
    (
        "1 x1 1 x2 >= 1 ; 2 ~x1 1 x3 >= 2 ;",
        &[-2],
        Expected::Unsat(&[-2]),
    ),
    // a row with coefficients is the reason of two literals, and a clause forbids both
    (
        "3 x1 2 x2 2 x3 >= 4 ; 1 ~x2 1 ~x3 >= 1 ;",
        &[-1],
        Expected::Unsat(&[-1]),
    ),
    (
        "3 x1 2 x2 2 x3 >= 4 ; 1 ~x2 1 ~x3 >= 1 ;",
        &[-2],
        Expected::Sat,
    ),
    // one of several coefficients is missed twice
    (
        "3 x1 2 x2 2 x3 1 x4 >= 5 ;",
        &[-2, -3],
        Expected::Unsat(&[-2, -3]),
    ),
    ("2 x1 2 x2 1 x3 = 3 ;", &[-3], Expected::Unsat(&[-3])),
    // clauses have to be learned, and one isn't enough
    (PIGEONS, &[], Expected::Unsat(&[])),
    (PIGEONS, &[], Expected::Spent(1)),
];

// These literals, where they are of rising variables up to a number.
fn assumptions(alloc: Global, vars: u64, codes: &[i32]) -> Result<Vec<Lit>, Fail>
    ensures { IfOk result (λ lits. AreAssumptions vars lits.items) }
{
    let mut lits = Vec::new(alloc);
    let mut last = 0;
    for code in codes {
        let var = u64::from(code.unsigned_abs());
        if var <= last || vars < var {
            return Err(Fail::new("no rising variables"));
        }
        last = var;
        lits.push(Lit::new(var, *code < 0))?;
    }
    Ok(lits)
}

// Whether a literal is among these.
fn has(lits: &[Lit], code: i32) -> bool {
    for lit in lits {
        if lit.var() == u64::from(code.unsigned_abs()) && lit.is_neg() == (code < 0) {
            return true;
        }
    }
    false
}

// Whether these are as many distinct literals, and the same.
fn are_exactly(lits: &[Lit], codes: &[i32]) -> bool {
    for code in codes {
        if !has(lits, *code) {
            return false;
        }
    }
    lits.len() == codes.len()
}

// Whether an answer is the one that is expected.
fn is_as(answer: &Result<Answer, OracleFault>, expected: Expected) -> bool {
    match (answer, expected) {
        (Ok(Answer::Sat(_)), Expected::Sat) => true,
        (Ok(Answer::Unsat(core)), Expected::Unsat(codes)) => {
            are_exactly(core.lits.as_slice(), codes)
        }
        (Err(OracleFault::Spent { learned }), Expected::Spent(most)) => *learned == most,
        _ => false,
    }
}

// How many clauses may be learned.
fn limit_of(expected: Expected) -> Option<u64> {
    match expected {
        Expected::Spent(most) => Some(most),
        _ => None,
    }
}

// Whether a solver with a propagator answers so.
fn answers_so<P: Propagator + Drop>(
    alloc: Global,
    prop: P,
    problem: &PbProblem,
    assumptions: &[Lit],
    expected: Expected,
) -> Result<bool, Fail>
    requires in_step { P.in_step prop empty (record { vars = 0; steps = [] }) }
    requires assumptions { AreAssumptions problem.now.vars assumptions.now }
{
    let limit = limit_of(expected);
    let recorder = MemRecorder::new(alloc, problem, 0)?;
    let Ok(mut solver) = Solver::new(alloc, recorder, prop, problem, limit) else {
        return Err(Fail::new("no memory"));
    };
    let answer = solver.solve(assumptions);
    Ok(is_as(&answer, expected))
}

// Whether solvers with both propagators answer so.
fn both_answer_so(
    alloc: Global,
    problem: &PbProblem,
    codes: &[i32],
    expected: Expected,
) -> Result<bool, Fail> {
    let lits = assumptions(alloc, problem.vars(), codes)?;
    Ok(
        answers_so(alloc, PlainProp, problem, &lits, expected)?
            && answers_so(alloc, WatchProp::new(alloc), problem, &lits, expected)?,
    )
}

// Whether this is the answer to the problem of a text.
fn is_answered(alloc: Global, text: &str, codes: &[i32], expected: Expected) -> Result<bool, Fail> {
    let problem = problem(alloc, text)?;
    both_answer_so(alloc, &problem, codes, expected)
}

#[test]
fn a_solver_answers_as_the_rows_say(rt: HostRuntime) -> Result<(), Fail> {
    for (text, codes, expected) in &CASES {
        assert!(rt;
            is_answered(rt.alloc(), *text, *codes, *expected)?,
            "{text} {codes:?}"
        );
    }
    Ok(())
}
