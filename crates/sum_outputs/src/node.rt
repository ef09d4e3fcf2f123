// The nodes of a totalizer's tree, each after its children.
ghost use Rattle.std.specs.Prelude.{◌≡◌, ◌+◌, ◌<◌, ◌^◌, ◌++◌, [], ◌∷◌, length, IfOk};
ghost use Rattle.pb_lin.specs.Constraint.{total};
ghost use Rattle.sum_outputs.specs.Totals.{AreWeights};
ghost use Rattle.sum_outputs.specs.Tree.{IsGrown, IsTree};

use scut_base::{Items, Lit, NoMemory};
use std::alloc::Global;

/// A node: its terms, the sum of their weights, and the places of its children; a node of one term has none.
#[derive(Debug, Drop)]
pub struct Node {
    pub terms: Items<(Lit, u64)>,
    pub total: u64,
    pub first: usize,
    pub second: usize,
}

/// Puts the nodes of these terms after the others, and answers the place of the last, which has all of them.
pub fn push_nodes(
    alloc: Global,
    nodes: &mut Items<Node>,
    terms: &[(Lit, u64)],
) -> Result<usize, NoMemory>
    requires tree { IsTree nodes.old }
    requires weights { AreWeights terms.now }
    requires some { 0 < length terms.now }
    ensures { IfOk result (IsGrown nodes.old nodes.new terms.now) }
{
    if terms.len() == 1 {
        return push_node(alloc, nodes, terms, 0, 0);
    }
    let half = terms.len().div_ceil(2);
    let first = push_nodes(alloc, nodes, &terms[..half])?;
    let second = push_nodes(alloc, nodes, &terms[half..])?;
    push_node(alloc, nodes, terms, first, second)
}

// Puts a node after the others, and answers its place.
fn push_node(
    alloc: Global,
    nodes: &mut Items<Node>,
    terms: &[(Lit, u64)],
    first: usize,
    second: usize,
) -> Result<usize, NoMemory>
    requires { AreWeights terms.now }
    ensures { IfOk result (λ at. (at ≡ length nodes.old) × (nodes.new ≡ nodes.old
        ++ record { terms = terms.now; total = total terms.now; first = first; second = second } ∷ [])) }
{
    let mut copy = Items::with_capacity(alloc, terms.len())?;
    copy.extend_from_slice(terms)?;
    let at = nodes.len();
    nodes.push(Node {
        terms: copy,
        total: total_of(terms),
        first,
        second,
    })?;
    Ok(at)
}

/// The weights, summed. Costs a pass over them.
pub fn total_of(terms: &[(Lit, u64)]) -> u64
    requires { total terms.now < 2 ^ 63 }
    ensures { result ≡ total terms.now }
{
    let mut sum = 0;
    for term in terms {
        sum += term.1;
    }
    sum
}
