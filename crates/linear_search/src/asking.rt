// Questions.
ghost use Rattle.std.specs.Prelude.{◌≡◌, List, IfOk};
ghost use Rattle.scut_base.specs.Literal.{Literal};
ghost use Rattle.recording.specs.Recorded.{IsReady};
ghost use Rattle.recording.specs.Adding.{IsAdded};
ghost use Rattle.recording.specs.Advice.{IsConservative};
ghost use Rattle.linear_search.specs.Relaxations.{IsPaid};
ghost use Rattle.linear_search.specs.Replies.{IsKeptWhereAnswered, IsReply, IsReplyTo};

use crate::Reply;
use crate::closing::may_be_assumed;
use crate::search::LinearSearch;
use crate::writing::write_tree;
use branch_and_bound::{BranchAndBound, Found, Limit, Node, Question, Target};
use oracle::core_of;
use pb_lin::PbProblem;
use proof_rules::{RecordFault, Recorder};
use recording::in_memory;
use scut_base::{Items, Lit};
use std::alloc::Global;

impl LinearSearch {
    /// Whether the assumptions can be true together, which say that objectives keep to the limits: the search
    /// goes by the limits, and each answer `Closed` is what a live clause says of the assumptions. Objectives
    /// without a limit aren't named. Lines are added only where a tree closes. Of models it seeks the best by
    /// the target. What it spends is lost where the answer is `Unknown`, but for more than a quarter of the purse.
    pub fn ask<R: Recorder>(
        &mut self,
        rec: &mut R,
        problem: &PbProblem,
        assumed: &[Lit],
        limits: &[Limit],
        target: Target,
    ) -> Result<Reply, RecordFault>
        requires ready { IsReady (R.seen rec.old) }
        requires problem { (R.seen rec.old).problem ≡ problem.now }
        ensures recorded { IsAdded IsConservative (R.seen rec.old) (R.seen rec.new) result }
        ensures reply { IfOk result (IsReply (R.seen rec.new) assumed.now) }
        ensures paid { IsPaid self.old self.new }
        ensures kept { IfOk result (IsKeptWhereAnswered self.old self.new) }
    {
        let question = Question { assumed, limits };
        let found = in_memory(self.explore(rec.state(), &question, Some(target)))?;
        reply_of(self.alloc, rec, problem, found, assumed, &mut self.search)
    }

    /// The same, in the tree of the last question: its open nodes are taken up again. It serves where nothing is allowed
    /// now that wasn't then, as where a limit is less.
    pub fn ask_further<R: Recorder>(
        &mut self,
        rec: &mut R,
        problem: &PbProblem,
        assumed: &[Lit],
        limits: &[Limit],
    ) -> Result<Reply, RecordFault>
        requires ready { IsReady (R.seen rec.old) }
        requires problem { (R.seen rec.old).problem ≡ problem.now }
        ensures recorded { IsAdded IsConservative (R.seen rec.old) (R.seen rec.new) result }
        ensures reply { IfOk result (IsReply (R.seen rec.new) assumed.now) }
        ensures paid { IsPaid self.old self.new }
        ensures kept { IfOk result (IsKeptWhereAnswered self.old self.new) }
    {
        let question = Question { assumed, limits };
        let found = in_memory(self.explore(rec.state(), &question, None))?;
        reply_of(self.alloc, rec, problem, found, assumed, &mut self.search)
    }
}

// The reply to what was found.
fn reply_of<R: Recorder>(
    alloc: Global,
    rec: &mut R,
    problem: &PbProblem,
    found: Found,
    assumed: &[Lit],
    search: &mut BranchAndBound,
) -> Result<Reply, RecordFault>
    requires ready { IsReady (R.seen rec.old) }
    requires problem { (R.seen rec.old).problem ≡ problem.now }
    ensures recorded { IsAdded IsConservative (R.seen rec.old) (R.seen rec.new) result }
    ensures reply { IfOk result (IsReply (R.seen rec.new) assumed.now) }
    ensures of_found { IfOk result (IsReplyTo found) }
{
    match found {
        Found::Closed(nodes) => close(alloc, rec, problem, nodes.as_slice(), assumed, search),
        Found::Model(lits) => Ok(proposal(rec, lits)),
        Found::Nothing => Ok(Reply::Unknown),
    }
}

// A model's literals, where they may be assumed.
fn proposal<R: Recorder>(rec: &R, lits: Items<Lit>) -> Reply
    ensures reply { (assumed : List Literal) → IsReply (R.seen rec.now) assumed result }
{
    let vars = rec.state().vars();
    if may_be_assumed(lits.as_slice(), vars) {
        return Reply::Model(lits);
    }
    Reply::Unknown
}

// Writes a tree that closed, and answers what its root says of the assumptions.
fn close<R: Recorder>(
    alloc: Global,
    rec: &mut R,
    problem: &PbProblem,
    nodes: &[Node],
    assumed: &[Lit],
    search: &mut BranchAndBound,
) -> Result<Reply, RecordFault>
    requires ready { IsReady (R.seen rec.old) }
    requires problem { (R.seen rec.old).problem ≡ problem.now }
    ensures recorded { IsAdded IsConservative (R.seen rec.old) (R.seen rec.new) result }
    ensures reply { IfOk result (IsReply (R.seen rec.new) assumed.now) }
{
    let Some(line) = write_tree(alloc, rec, problem, nodes, search)? else {
        return Ok(Reply::Unknown);
    };
    match in_memory(core_of(alloc, line.id, line.clause.literals(), assumed))? {
        Some(core) => Ok(Reply::Closed(core)),
        None => Ok(Reply::Unknown),
    }
}
