// Turns of searches, hardening of problems and boosting of their objectives, over recorders in memory that fail.
ghost use Rattle.std.specs.Prelude.{◌≡◌, [], false};
ghost use Rattle.instance_normal.specs.NormalForm.{IsNormalFormOf};
ghost use Rattle.portfolio.specs.Cycles.{AreTurns};

use crate::noting::order_of;
use cdcl_core::Solver;
use core_boosting::boost_all;
use harden::harden;
use instance::Instance;
use instance_normal::normalise;
use mcnf_reader::read;
use oracle::{Oracle, OracleFault};
use pb_lin::PbProblem;
use proof_text::MemRecorder;
use search_base::{Board, Bounds, beginning_is_good, no_lines_are_prepared, own_reforms};
use std::alloc::Global;
use std::test::Fail;
use watch_prop::WatchProp;

// What is done with a new solver: the problem is hardened, or its objectives are boosted, or searches take turns by the
// list 1, 2, 3, or by 3, 1, 1, 2.
#[derive(Clone, Copy)]
enum Task {
    Harden,
    Boost,
    Turns,
    OtherTurns,
}

// A number: of the literals that hardening fixes, the offset that the first objective is boosted to, or the order of
// turns; or the fault.
type Answer = Result<u64, OracleFault>;

// The answer of a task for a solver that has no lines.
fn answer<O: Oracle>(
    alloc: Global,
    oracle: &mut O,
    inst: &Instance,
    problem: &PbProblem,
    task: Task,
) -> Answer
    requires normal { IsNormalFormOf inst.now problem.now }
    requires problem { (O.seen oracle.old).problem ≡ problem.now }
    requires begun { (O.seen oracle.old).lines ≡ [] }
    requires whole { (O.seen oracle.old).broken ≡ false }
{
    match task {
        Task::Harden => Ok(harden(alloc, oracle, problem)?.len() as u64),
        Task::Boost => boosted(alloc, oracle, problem),
        Task::Turns => order(alloc, oracle, inst, problem, [2, 1, 1], &[1, 2, 3]),
        Task::OtherTurns => order(alloc, oracle, inst, problem, [2, 1, 2], &[3, 1, 1, 2]),
    }
}

// The offset that boosting reaches for the first objective.
fn boosted<O: Oracle>(alloc: Global, oracle: &mut O, problem: &PbProblem) -> Answer
    requires problem { (O.seen oracle.old).problem ≡ problem.now }
    requires begun { (O.seen oracle.old).lines ≡ [] }
    requires whole { (O.seen oracle.old).broken ≡ false }
{
    no_lines_are_prepared();
    // Tells that the problem is within its limits.
    let _vars = problem.vars();
    let reforms = boost_all(alloc, oracle, problem)?;
    match reforms.first() {
        Some(reform) => Ok(reform.offset.unsigned_abs()),
        None => Ok(0),
    }
}

// The order of turns of three searches, which have so many each.
fn order<O: Oracle>(
    alloc: Global,
    oracle: &mut O,
    inst: &Instance,
    problem: &PbProblem,
    left: [u64; 3],
    turns: &[u8],
) -> Answer
    requires normal { IsNormalFormOf inst.now problem.now }
    requires problem { (O.seen oracle.old).problem ≡ problem.now }
    requires begun { (O.seen oracle.old).lines ≡ [] }
    requires whole { (O.seen oracle.old).broken ≡ false }
    requires turns { AreTurns 3 turns.now }
{
    no_lines_are_prepared();
    beginning_is_good();
    let _vars = problem.vars();
    let mut bounds = Bounds::new(alloc, own_reforms(alloc, problem)?)?;
    let mut board = Board::new(alloc, problem, inst);
    Ok(order_of(oracle, &mut bounds, &mut board, left, turns))
}

// The answer for a new solver, over a recorder whose call of this number fails; none has the number 0.
fn solver_answers(
    alloc: Global,
    inst: &Instance,
    problem: &PbProblem,
    task: Task,
    failing: u64,
) -> Result<Answer, Fail>
    requires { IsNormalFormOf inst.now problem.now }
{
    let recorder = MemRecorder::new(alloc, problem, failing)?;
    match Solver::new(alloc, recorder, WatchProp::new(alloc), problem, None) {
        Ok(mut solver) => Ok(answer(alloc, &mut solver, inst, problem, task)),
        Err(_) => Err(Fail::new("no memory")),
    }
}

// The same for the normal form of an instance.
fn instance_answers(
    alloc: Global,
    inst: &Instance,
    task: Task,
    failing: u64,
) -> Result<Answer, Fail> {
    let problem = normalise(alloc, inst)?;
    solver_answers(alloc, inst, &problem, task, failing)
}

// A text is shorter.
const LONGEST: usize = 1000;

// The same for the instance that a text spells.
fn text_answers(alloc: Global, text: &str, task: Task, failing: u64) -> Result<Answer, Fail> {
    if text.len() > LONGEST {
        return Err(Fail::new("the text is too long"));
    }
    match read(alloc, text.as_bytes()) {
        Ok(inst) => instance_answers(alloc, &inst, task, failing),
        Err(_) => Err(Fail::new("no instance")),
    }
}

// One literal that costs something; a core of three literals; and two variables, each of which costs something.
const ONE: &str = "o1 3 -1 0\n";

const THREE: &str = "h 1 2 3 0\no1 2 -1 0\no1 3 -2 0\no1 4 -3 0\n";

const TWO: &str = "h 1 2 0\no1 1 -1 0\no2 1 -2 0\n";

// A text, a task, the number of the failing call, and the answer. After the last turn of a list the first comes again.
static CASES: [(&str, Task, u64, Answer); 6] = [
    (ONE, Task::Harden, 0, Ok(1)),
    (ONE, Task::Harden, 1, Err(OracleFault::Failed)),
    (THREE, Task::Boost, 0, Ok(2)),
    (THREE, Task::Boost, 1, Err(OracleFault::Failed)),
    (TWO, Task::Turns, 0, Ok(1231)),
    (TWO, Task::OtherTurns, 0, Ok(31123)),
];

#[test]
fn tasks_are_done_or_faults_handed_on(rt: HostRuntime) -> Result<(), Fail> {
    for (text, task, failing, expected) in &CASES {
        let found = text_answers(rt.alloc(), *text, *task, *failing)?;
        assert!(rt; found == *expected, "{text} {found:?}");
    }
    Ok(())
}
