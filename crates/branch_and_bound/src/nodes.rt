// Clauses by which nodes of a tree are closed.
use cutting_planes::PolToken;
use scut_base::{Items, Lit, NoMemory};
use std::alloc::Global;

// How a clause is made: since tokens contradict its negation, or of two clauses before it.
#[derive(Debug, Drop)]
pub(crate) enum Making {
    Leaf(Items<PolToken>),
    Resolvent { first: usize, second: usize },
}

/// A clause by which a node of a tree is closed.
#[derive(Debug, Drop)]
pub struct Node {
    pub(crate) making: Making,
    // In rising order of variables.
    pub(crate) lits: Items<Lit>,
}

// Whether a clause has a literal.
pub(crate) fn has_literal(nodes: &[Node], at: usize, lit: Lit) -> bool {
    match nodes.get(at) {
        Some(node) => node.lits.as_slice().binary_search(&lit).is_ok(),
        None => false,
    }
}

// The literals of two clauses without those of a variable, each once.
pub(crate) fn resolvent_literals(
    alloc: Global,
    first: &[Lit],
    second: &[Lit],
    var: u64,
) -> Result<Items<Lit>, NoMemory> {
    let mut lits = Vec::with_capacity(alloc, first.len().saturating_add(second.len()))?;
    add_others(&mut lits, first, var)?;
    add_others(&mut lits, second, var)?;
    lits.sort_unstable();
    lits.dedup();
    Ok(Items::from_vec(lits))
}

// Adds the literals that aren't of this variable.
fn add_others(lits: &mut Vec<Lit>, more: &[Lit], var: u64) -> Result<(), NoMemory> {
    for lit in more {
        if lit.var() != var {
            lits.push(*lit)?;
        }
    }
    Ok(())
}

// Which clauses the last one stands on.
pub(crate) fn needed_nodes(alloc: Global, nodes: &[Node]) -> Result<Vec<bool>, NoMemory> {
    let mut needed = vec![in alloc; false; nodes.len()]?;
    let mut at = nodes.len();
    mark(&mut needed, at.saturating_sub(1));
    for node in nodes.iter().rev() {
        at = at.saturating_sub(1);
        if let Making::Resolvent { first, second } = &node.making {
            if needed.get(at) == Some(&true) {
                mark(&mut needed, *first);
                mark(&mut needed, *second);
            }
        }
    }
    Ok(needed)
}

fn mark(needed: &mut [bool], at: usize) {
    if let Some(place) = needed.get_mut(at) {
        *place = true;
    }
}
