// The nodes of a new totalizer, and the outputs that they have from the start.
ghost use Rattle.std.specs.Prelude.{◌≡◌, map, IfOk};
ghost use Rattle.sum_outputs.specs.Totals.{AreWeights};
ghost use Rattle.totalizer.specs.Totalizing.{first_outputs};
ghost use Rattle.totalizer.specs.Knowing.{AreNodesOf};

use scut_base::{Items, Lit, NoMemory};
use std::alloc::Global;
use sum_outputs::{Node, SumOutput, leaf_output, push_nodes};

// The tree of these terms; no node where there are none.
pub(crate) fn nodes_of(alloc: Global, terms: &[(Lit, u64)]) -> Result<Items<Node>, NoMemory>
    requires { AreWeights terms.now }
    ensures { IfOk result (AreNodesOf terms.now) }
{
    let mut nodes = Items::new(alloc);
    if terms.is_empty() {
        return Ok(nodes);
    }
    let _root = push_nodes(alloc, &mut nodes, terms)?;
    Ok(nodes)
}

// The outputs that each node has from the start.
pub(crate) fn first_lists(
    alloc: Global,
    nodes: &[Node],
) -> Result<Items<Items<SumOutput>>, NoMemory>
    ensures { IfOk result (λ made. made ≡ map (λ n. first_outputs n.terms) nodes.now) }
{
    let mut made = Items::with_capacity(alloc, nodes.len())?;
    for node in nodes {
        made.push(first_list(alloc, node.terms.as_slice())?)?;
    }
    Ok(made)
}

// That of the only term, or none.
fn first_list(alloc: Global, terms: &[(Lit, u64)]) -> Result<Items<SumOutput>, NoMemory>
    ensures { IfOk result (λ os. os ≡ first_outputs terms.now) }
{
    let mut outputs = Items::new(alloc);
    if let [term] = terms {
        outputs.push(leaf_output(*term))?;
    }
    Ok(outputs)
}
