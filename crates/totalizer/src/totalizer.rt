// The totalizer of one weighted sum.
ghost use Rattle.std.specs.Prelude.{◌≡◌, IfOk, OnOk, MatchOption};
ghost use Rattle.proof_rules.specs.Recording.{Snapshot};
ghost use Rattle.sum_outputs.specs.Totals.{AreWeights};
ghost use Rattle.sum_outputs.specs.Adding.{IsReady, IsRecorded};
ghost use Rattle.totalizer.specs.Meaning.{IsBound};
ghost use Rattle.totalizer.specs.Totalizing.{terms_of, Fits, FitsSome, HasVariables, IsBuilt};
ghost use Rattle.totalizer.specs.Demanding.{AddsFor};
ghost use Rattle.totalizer.specs.Knowing.{IsMadeFor, IsUnmade};

use crate::Bound;
use crate::answering::{bound_at, standing_for};
use crate::building::{first_lists, nodes_of};
use proof_rules::{RecordFault, Recorder};
use scut_base::{Items, Lit, NoMemory};
use std::alloc::Global;
use std::marker::Model;
use sum_outputs::{Node, SumOutput};

/// The sum of weighted literals, as a tree over its terms whose outputs are made as they are asked for.
#[derive(Drop)]
pub struct Totalizer {
    alloc: Global,
    nodes: Items<Node>,
    made: Items<Items<SumOutput>>,
}

impl Model for Totalizer {
    ghost use Rattle.totalizer.specs.Totalizing.{TotalizerValue};

    ghost Value = { TotalizerValue };

    ghost view = { λ t. record { nodes = t.nodes; made = t.made } };
}

impl Totalizer {
    /// The totalizer of these terms, of whose nodes only those of one term have an output yet. Costs a node
    /// for each term and each inner node, with a copy of its terms.
    pub fn build(alloc: Global, terms: &[(Lit, u64)]) -> Result<Totalizer, NoMemory>
        requires { AreWeights terms.now }
        ensures built { IfOk result (IsBuilt terms.now) }
        ensures fits { IfOk result (λ t. (a : Snapshot) → HasVariables a terms.now → Fits a t) }
    {
        let nodes = nodes_of(alloc, terms)?;
        let made = first_lists(alloc, nodes.as_slice())?;
        Ok(Totalizer { alloc, nodes, made })
    }

    /// What stands for "the sum is at least `k`". A recorder's refusal is handed on; then the totalizer isn't
    /// asked again.
    ///
    /// Costs a look-up where that output is there and has stood for so small a number. Else it costs a look at
    /// each node, and the outputs that it makes: for each a definition, at most a line for each output of the
    /// node's first child, and five more.
    pub fn output<R: Recorder>(&mut self, rec: &mut R, k: i64) -> Result<Bound, RecordFault>
        requires ready { IsReady (R.seen rec.old) }
        requires fits { Fits (R.seen rec.old) self.old }
        ensures recorded { IsRecorded (R.seen rec.old) (R.seen rec.new) result }
        ensures bound { IfOk result (IsBound (R.seen rec.new).problem (R.seen rec.new).lines
            (terms_of self.old) k) }
        ensures added { IfOk result (AddsFor (R.seen rec.old)
            (R.seen rec.new) k self.old self.new) }
        ensures fits { OnOk result (Fits (R.seen rec.new) self.new) }
        ensures nodes { self.new.nodes ≡ self.old.nodes }
    {
        if k <= 0 {
            return Ok(Bound::Always { lower_line: 0 });
        }
        bound_at(
            self.alloc,
            rec,
            self.nodes.as_slice(),
            &mut self.made,
            k as u64,
        )
    }

    /// The output that stands for "the sum is at least `k`", where it has been made: the least sum of at least
    /// `k`, and the ids of its two lines. Costs a binary search.
    pub fn made_for(&self, k: u64) -> Option<&SumOutput>
        requires { FitsSome self.now }
        ensures { MatchOption result (IsUnmade self.now k) (λ o. IsMadeFor self.now k o.now) }
    {
        standing_for(self.made.as_slice().last()?.as_slice(), k)
    }
}
