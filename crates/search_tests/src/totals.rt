// Totalizers of the objectives of texts, over recorders in memory.
ghost use Rattle.std.specs.Prelude.{◌≡◌, [], false, IfOk, OnOk};
ghost use Rattle.search_tests.specs.Asked.{IsAskable};

use crate::problems::problem;
use pb_lin::PbProblem;
use proof_rules::{ProofState, RecordFault, Recorder};
use proof_text::MemRecorder;
use std::alloc::Global;
use std::test::Fail;
use totalizer::{Bound, Totalizer};

// The totalizer of a problem's first objective, over a recorder that has no lines.
fn first_sum<R: Recorder>(alloc: Global, rec: &R, problem: &PbProblem) -> Result<Totalizer, Fail>
    requires problem { (R.seen rec.now).problem ≡ problem.now }
    requires begun { (R.seen rec.now).lines ≡ [] }
    requires whole { (R.seen rec.now).broken ≡ false }
    ensures { IfOk result (IsAskable (R.seen rec.now)) }
{
    // These tell that the rows' variables are the problem's, and that the lines reach a state.
    let _vars = problem.vars();
    let _state = rec.state();
    match problem.costs().first() {
        Some(row) => Ok(Totalizer::build(alloc, row.terms())?),
        None => Err(Fail::new("there is no objective")),
    }
}

// What stands for "the sum is at least `k`".
fn ask<R: Recorder>(rec: &mut R, sum: &mut Totalizer, k: i64) -> Result<Bound, RecordFault>
    requires { IsAskable (R.seen rec.old) sum.old }
    ensures { OnOk result (IsAskable (R.seen rec.new) sum.new) }
{
    sum.output(rec, k)
}

// What stands for "the sum is at least k": the line of this id alone, nothing, or a literal, with a line of this degree;
// or that the recorder failed.
#[derive(Clone, Copy)]
enum Expected {
    Always(u64),
    Never,
    At(u128),
    Failed,
}

// Whether the line of an id is live and has this degree.
fn has_degree(state: &ProofState, id: u64, degree: u128) -> bool {
    match state.live().get(id) {
        Some(line) => line.degree() == degree,
        None => false,
    }
}

// Whether an answer is the one that is expected.
fn is_as(state: &ProofState, answer: Result<Bound, RecordFault>, expected: Expected) -> bool {
    match (answer, expected) {
        (Ok(Bound::Always { lower_line }), Expected::Always(id)) => lower_line == id,
        (Ok(Bound::Never), Expected::Never) => true,
        (Ok(Bound::At { lower_line, .. }), Expected::At(degree)) => {
            has_degree(state, lower_line, degree)
        }
        (Err(RecordFault::Failed), Expected::Failed) => true,
        _ => false,
    }
}

// Whether a sum is answered so for each of these numbers, until the recorder fails.
fn answers_so<R: Recorder>(rec: &mut R, sum: &mut Totalizer, asked: &[(i64, Expected)]) -> bool
    requires { IsAskable (R.seen rec.old) sum.old }
{
    for (k, expected) in asked {
        let answer = ask(rec, sum, *k);
        if !is_as(rec.state(), answer, *expected) {
            return false;
        }
        if answer.is_err() {
            return true;
        }
    }
    true
}

// Whether the sum of a problem's first objective is answered so, and so many variables are defined then.
fn first_answers_so<R: Recorder>(
    alloc: Global,
    rec: &mut R,
    problem: &PbProblem,
    asked: &[(i64, Expected)],
    defined: u64,
) -> Result<bool, Fail>
    requires problem { (R.seen rec.old).problem ≡ problem.now }
    requires begun { (R.seen rec.old).lines ≡ [] }
    requires whole { (R.seen rec.old).broken ≡ false }
{
    let mut sum = first_sum(alloc, rec, problem)?;
    Ok(
        answers_so(rec, &mut sum, asked)
            && rec.state().vars().checked_sub(problem.vars()) == Some(defined),
    )
}

// The same over a recorder whose call of this number fails; none has the number 0.
fn is_recorded(
    alloc: Global,
    problem: &PbProblem,
    failing: u64,
    asked: &[(i64, Expected)],
    defined: u64,
) -> Result<bool, Fail> {
    let mut recorder = MemRecorder::new(alloc, problem, failing)?;
    first_answers_so(alloc, &mut recorder, problem, asked, defined)
}

// The same for the first objective of a text.
fn is_answered(
    alloc: Global,
    text: &str,
    failing: u64,
    asked: &[(i64, Expected)],
    defined: u64,
) -> Result<bool, Fail> {
    let problem = problem(alloc, text)?;
    is_recorded(alloc, &problem, failing, asked, defined)
}

const TWO: &str = "min: 3 x1 2 x2 ;";

// Eight literals of weight 1 have seven inner nodes.
const EIGHT: &str = "min: 1 x1 1 x2 1 x3 1 x4 1 x5 1 x6 1 x7 1 x8 ;";

// 50 literals with random weights from 1 to 100.
const LONG: &str = "min: 75 x1 54 x2 97 x3 71 x4 35 x5 96 x6 31 x7 3 x8 90 x9 47 x10
    24 x11 3 x12 53 x13 1 x14 35 x15 13 x16 91 x17 96 x18 33 x19 66 x20
    28 x21 58 x22 27 x23 11 x24 70 x25 29 x26 5 x27 73 x28 22 x29 69 x30
    8 x31 39 x32 9 x33 26 x34 95 x35 83 x36 87 x37 59 x38 17 x39 90 x40
    56 x41 73 x42 11 x43 81 x44 62 x45 35 x46 9 x47 2 x48 64 x49 95 x50 ;";

// A tenth of their sum, which some of them have too.
const TENTH: (i64, Expected) = (240, Expected::At(240));

// The least that each literal of weight 1 gives, and the failure of the first call.
const ONE: (i64, Expected) = (1, Expected::At(1));

const FAILED: (i64, Expected) = (1, Expected::Failed);

// An objective, the number of the failing call, the numbers that are asked for with their answers, and how many
// variables are defined then: one for each answer at the root, and one for each sum up to it of the inner nodes below.
// That of the long sum is a measure, which was taken from a run: it shows where a change makes more outputs, or fewer.
static CASES: [(&str, u64, [(i64, Expected); 3], u64); 7] = [
    (
        TWO,
        0,
        [
            (0, Expected::Always(0)),
            (1, Expected::At(2)),
            (2, Expected::At(2)),
        ],
        1,
    ),
    (
        TWO,
        0,
        [
            (3, Expected::At(3)),
            (4, Expected::At(5)),
            (5, Expected::At(5)),
        ],
        2,
    ),
    (
        TWO,
        0,
        [
            (5, Expected::At(5)),
            (6, Expected::Never),
            (7, Expected::Never),
        ],
        1,
    ),
    (EIGHT, 0, [ONE, ONE, ONE], 7),
    (
        EIGHT,
        0,
        [ONE, (2, Expected::At(2)), (2, Expected::At(2))],
        14,
    ),
    (EIGHT, 1, [FAILED, FAILED, FAILED], 0),
    (LONG, 0, [TENTH, TENTH, TENTH], 1921),
];

#[test]
fn a_sum_is_answered_by_the_least_attainable_one(rt: HostRuntime) -> Result<(), Fail> {
    for (text, failing, asked, defined) in &CASES {
        assert!(rt;
            is_answered(rt.alloc(), *text, *failing, asked, *defined)?,
            "{text} {defined}"
        );
    }
    Ok(())
}
