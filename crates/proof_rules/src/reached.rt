// What a proof has reached, and what each kind of line makes of it.
ghost use Rattle.std.specs.Prelude.{◌≡◌, ◌+◌, ◌<◌, ◌^◌, [], ◌∷◌, ◌++◌, None, fold, IfOk, OnOk, OnErr};
ghost use Rattle.std.specs.FinMap.{get, insert, remove};
ghost use Rattle.pb_lin.specs.LineMap.{lines_of};
ghost use Rattle.proof_laws.specs.State.{IsState, numbered, start};
ghost use Rattle.proof_laws.specs.Steps.{with_line, with_learned, with_definition, without_lines, with_end, reached_if, reached_only_if};
ghost use Rattle.proof_rules.specs.Verdict.{with_logged};

use front_set::CostVec;
use pb_lin::{Constraint, Lines, PbProblem};
use scut_base::{Duplicate, Items, NoMemory};
use std::alloc::Global;
use std::marker::Model;

// The live constraints with the counts. Each of its values is a state of a proof.
#[derive(Debug, Drop)]
pub(crate) struct Reached {
    pub(crate) vars: u64,
    pub(crate) live: Lines,
    pub(crate) next_id: u64,
    pub(crate) sols: Items<CostVec>,
    pub(crate) lines: u64,
    pub(crate) learned: u64,
    pub(crate) ended: bool,
}

impl Model for Reached {
    ghost use Rattle.proof_laws.specs.State.{StateValue, IsState};
    ghost use Rattle.proof_rules.specs.StateCode.{state_code};

    ghost Value = { StateValue };

    ghost coded = { state_code };

    ghost view = { λ s. record {
      vars = s.vars;
      live = s.live;
      next_id = s.next_id;
      sols = s.sols;
      lines = s.lines;
      learned = s.learned;
      ended = s.ended;
    } };

    ghost invariant = { λ s. IsState (record {
      vars = s.vars;
      live = s.live;
      next_id = s.next_id;
      sols = s.sols;
      lines = s.lines;
      learned = s.learned;
      ended = s.ended;
    }) };
}

impl Reached {
    // The problem's rows live with ids from 1 on, and nothing else.
    pub(crate) fn new(alloc: Global, problem: &PbProblem) -> Result<Reached, NoMemory>
        ensures { IfOk result (λ s. s ≡ start problem.now) }
    {
        let rows = problem.rows();
        Ok(Reached {
            vars: problem.vars(),
            live: numbered(alloc, rows)?,
            next_id: rows.len() as u64 + 1,
            sols: Items::new(alloc),
            lines: 0,
            learned: 0,
            ended: false,
        })
    }

    // One more live constraint.
    pub(crate) fn add(&mut self, c: Constraint) -> Result<(), NoMemory>
        requires { IsState (with_line self.old c) }
        ensures ok { OnOk result (self.new ≡ with_line self.old c) }
        ensures err { OnErr result (self.new ≡ self.old) }
        ensures vars { self.new.vars ≡ self.old.vars }
    {
        self.live.put(self.next_id, c)?;
        self.next_id += 1;
        self.lines += 1;
        Ok(())
    }

    // One more live constraint, which was learned.
    pub(crate) fn learn(&mut self, c: Constraint) -> Result<(), NoMemory>
        requires { IsState (with_learned self.old c) }
        ensures ok { OnOk result (self.new ≡ with_learned self.old c) }
        ensures err { OnErr result (self.new ≡ self.old) }
        ensures vars { self.new.vars ≡ self.old.vars }
    {
        self.live.put(self.next_id, c)?;
        self.next_id += 1;
        self.lines += 1;
        self.learned += 1;
        Ok(())
    }

    // One more variable, with the two constraints that define it.
    #[tactic(auto, using(crate::proofs::LiveLines::next_is_free))]
    pub(crate) fn define(
        &mut self,
        sum: &Constraint,
        upper: Constraint,
        lower: Constraint,
    ) -> Result<(), NoMemory>
        requires upper { upper ≡ reached_if (self.old.vars + 1) sum.now }
        requires lower { lower ≡ reached_only_if (self.old.vars + 1) sum.now }
        requires next { IsState (with_definition self.old sum.now) }
        ensures ok { OnOk result (self.new ≡ with_definition self.old sum.now) }
        ensures err { OnErr result (self.new ≡ self.old) }
    {
        put_two(&mut self.live, self.next_id, upper, lower)?;
        self.vars += 1;
        self.next_id += 2;
        self.lines += 1;
        Ok(())
    }

    // One more logged vector, with the clause of the cut.
    pub(crate) fn log(&mut self, cut: Constraint, costs: CostVec) -> Result<(), NoMemory>
        requires { IsState (with_logged self.old cut costs) }
        ensures ok { OnOk result (self.new ≡ with_logged self.old cut costs) }
        ensures err { OnErr result (self.new ≡ self.old) }
        ensures vars { self.new.vars ≡ self.old.vars }
    {
        put_logged(&mut self.live, &mut self.sols, self.next_id, cut, costs)?;
        self.next_id += 1;
        self.lines += 1;
        Ok(())
    }

    // These constraints live no longer.
    pub(crate) fn delete(&mut self, ids: &[u64])
        requires { IsState (without_lines self.old ids.now) }
        ensures { self.new ≡ without_lines self.old ids.now }
    {
        drop_all(&mut self.live, ids);
        self.lines += 1;
    }

    // The end.
    pub(crate) fn end(&mut self)
        requires { IsState (with_end self.old) }
        ensures { self.new ≡ with_end self.old }
    {
        self.lines += 1;
        self.ended = true;
    }
}

// The constraints by ids from 1 on.
#[tactic(auto, using(crate::proofs::LiveLines::put_next))]
fn numbered(alloc: Global, rows: &[Constraint]) -> Result<Lines, NoMemory>
    ensures { IfOk result (λ lines. lines ≡ lines_of (numbered 1 rows.now)) }
{
    let mut lines = Lines::new(alloc);
    for (at, row) in rows.iter().enumerate() {
        lines.put(at as u64 + 1, row.copy(alloc)?)?;
    }
    Ok(lines)
}

// Two constraints under an id that is free and the one after it, or none.
fn put_two(
    lines: &mut Lines,
    id: u64,
    first: Constraint,
    second: Constraint,
) -> Result<(), NoMemory>
    requires free { get lines.old id ≡ None }
    requires below { id + 1 < 2 ^ 64 }
    ensures ok { OnOk result (lines.new ≡ insert (insert lines.old id first) (id + 1) second) }
    ensures err { OnErr result (lines.new ≡ lines.old) }
{
    lines.put(id, first)?;
    if let Err(refused) = lines.put(id + 1, second) {
        lines.drop_id(id);
        return Err(refused);
    }
    Ok(())
}

// A vector after the others, and a constraint under an id; or neither.
fn put_logged(
    lines: &mut Lines,
    sols: &mut Items<CostVec>,
    id: u64,
    cut: Constraint,
    costs: CostVec,
) -> Result<(), NoMemory>
    ensures line { OnOk result (lines.new ≡ insert lines.old id cut) }
    ensures vector { OnOk result (sols.new ≡ sols.old ++ costs ∷ []) }
    ensures no_line { OnErr result (lines.new ≡ lines.old) }
    ensures no_vector { OnErr result (sols.new ≡ sols.old) }
{
    sols.push(costs)?;
    if let Err(refused) = lines.put(id, cut) {
        let _ = sols.pop();
        return Err(refused);
    }
    Ok(())
}

// Drops each of these.
fn drop_all(lines: &mut Lines, ids: &[u64])
    ensures { lines.new ≡ fold remove lines.old ids.now }
{
    for id in ids {
        lines.drop_id(*id);
    }
}
