// An inner node, with what its children have.
ghost use Rattle.std.specs.Prelude.{◌≡◌, ◌<◌, ◌++◌, List, length, slice_index_or};
ghost use Rattle.pb_lin.specs.Constraint.{total};
ghost use Rattle.sum_outputs.specs.declared.node.Node.{Node};
ghost use Rattle.sum_outputs.specs.declared.sum_output.SumOutput.{SumOutput};

use crate::SumOutput;
use crate::node::Node;
use scut_base::{Items, Lit};

/// A child of a node: its terms and outputs.
#[derive(Clone, Copy, Debug)]
pub struct Child<'a> {
    pub(crate) terms: &'a [(Lit, u64)],
    pub(crate) outputs: &'a [SumOutput],
}

/// An inner node: its two children with their outputs, and its terms, which are theirs one after another.
#[derive(Clone, Copy, Debug)]
pub struct Inner<'a> {
    pub(crate) first: Child<'a>,
    pub(crate) second: Child<'a>,
    pub(crate) terms: &'a [(Lit, u64)],
    /// The sum of all weights.
    pub(crate) greatest: u64,
    ghost joined: { terms.now ≡ first.terms.now ++ second.terms.now },
    ghost total: { greatest ≡ total terms.now },
}

impl<'a> Inner<'a> {
    ghost use Rattle.std.specs.Prelude.{◌≡◌, ◌<◌, length, slice_index_or};
    ghost use Rattle.sum_outputs.specs.Tree.{IsInnerOf, IsTree};
    ghost use Rattle.sum_outputs.specs.declared.node.Node.{Node};

    /// The node at a place, where it has children.
    pub fn of(nodes: &'a [Node], made: &'a Items<Items<SumOutput>>, at: usize) -> Inner<'a>
        requires tree { IsTree nodes.now }
        requires size { length made.now ≡ length nodes.now }
        requires at { at < length nodes.now }
        requires long { (d : Node) → 1 < length (slice_index_or nodes.now at d).terms }
        ensures { (d : Node) → IsInnerOf nodes.now made.now (slice_index_or nodes.now at d) result }
    {
        let node = &nodes[at];
        Inner {
            first: child_at(nodes, made, node.first),
            second: child_at(nodes, made, node.second),
            terms: node.terms.as_slice(),
            greatest: node.total,
        }
    }
}

// The terms and outputs of a node.
fn child_at<'a>(nodes: &'a [Node], made: &'a Items<Items<SumOutput>>, at: usize) -> Child<'a>
    requires node { at < length nodes.now }
    requires outputs { at < length made.now }
    ensures terms { (d : Node) → result.terms.now ≡ (slice_index_or nodes.now at d).terms }
    ensures outputs { (e : List SumOutput) → result.outputs.now ≡ slice_index_or made.now at e }
{
    Child {
        terms: nodes[at].terms.as_slice(),
        outputs: outputs_at(made, at),
    }
}

// The outputs of a node.
pub(crate) fn outputs_at(made: &Items<Items<SumOutput>>, at: usize) -> &[SumOutput]
    requires { at < length made.now }
    ensures { (e : List SumOutput) → result.now ≡ slice_index_or made.now at e }
{
    made.at(at).as_slice()
}
