// The lines of a tree that closed (DECISIONS, tree-lines).
use crate::cuts::Cuts;
use crate::nodes::{Making, Node, needed_nodes};
use cutting_planes::PolToken;
use pb_lin::{Constraint, LinFault};
use scut_base::{Duplicate, Items, Lit, NoMemory};
use std::alloc::Global;

/// A line of a tree. Nothing is promised of it: whoever adds it judges it.
#[derive(Debug, Drop)]
pub enum TreeLine {
    /// A constraint that these tokens make of lines before it.
    Sum(Items<PolToken>),
    /// A constraint, and tokens that make a contradiction of lines before it and its negation.
    Implied(Constraint, Items<PolToken>),
}

// The lines of the cuts and nodes that the last node stands on, and its own, where the first gets this id; none where the literals
// of a leaf make no clause, as where two are of one variable.
pub(crate) fn lines_of_tree(
    alloc: Global,
    nodes: &[Node],
    cuts: &mut Cuts,
    first: u64,
) -> Result<Vec<TreeLine>, NoMemory> {
    let needed = needed_nodes(alloc, nodes)?;
    let are_needed = needed_cuts(alloc, nodes, needed.as_slice(), cuts)?;
    let mut lines = TreeLines {
        alloc,
        first,
        lines: Vec::new(alloc),
        ids: Vec::with_capacity(alloc, nodes.len())?,
    };
    lines.add_cuts(cuts, are_needed.as_slice())?;
    if !lines.add_nodes(nodes, needed.as_slice(), cuts)? {
        lines.lines.clear();
    }
    Ok(lines.lines)
}

// Which cuts the needed nodes stand on.
fn needed_cuts(
    alloc: Global,
    nodes: &[Node],
    needed: &[bool],
    cuts: &Cuts,
) -> Result<Vec<bool>, NoMemory> {
    let mut are_needed = vec![in alloc; false; cuts.tokens.len()]?;
    for (node, is_needed) in nodes.iter().zip(needed) {
        if let (Making::Leaf(tokens), true) = (&node.making, *is_needed) {
            cuts.mark(are_needed.as_mut_slice(), tokens.as_slice());
        }
    }
    cuts.mark_below(are_needed.as_mut_slice());
    Ok(are_needed)
}

// Lines that are to be written, each of which makes one constraint.
#[derive(Drop)]
struct TreeLines {
    alloc: Global,
    // The id of the first.
    first: u64,
    lines: Vec<TreeLine>,
    // The id of each node's line; 0 where it isn't needed.
    ids: Vec<u64>,
}

impl TreeLines {
    // Adds a line, and answers its id.
    fn add(&mut self, line: TreeLine) -> Result<u64, NoMemory> {
        let id = self.first.saturating_add(self.lines.len() as u64);
        self.lines.push(line)?;
        Ok(id)
    }

    // Adds the lines of cuts that are needed and weren't written before, and notes their ids.
    fn add_cuts(&mut self, cuts: &mut Cuts, are_needed: &[bool]) -> Result<(), NoMemory> {
        for (place, is_needed) in are_needed.iter().enumerate() {
            if *is_needed && !cuts.is_written(place) {
                if let Some(line) = cuts.line(place)? {
                    let id = self.add(line)?;
                    cuts.note(place, id)?;
                }
            }
        }
        Ok(())
    }

    // Adds the lines of nodes that are needed; answers whether each can be made.
    fn add_nodes(
        &mut self,
        nodes: &[Node],
        needed: &[bool],
        cuts: &Cuts,
    ) -> Result<bool, NoMemory> {
        for (node, is_needed) in nodes.iter().zip(needed) {
            let mut id = 0;
            if *is_needed {
                match self.line_of(node, cuts)? {
                    Some(line) => id = self.add(line)?,
                    None => return Ok(false),
                }
            }
            self.ids.push(id)?;
        }
        Ok(true)
    }

    // The line of a node, if it can be made.
    fn line_of(&self, node: &Node, cuts: &Cuts) -> Result<Option<TreeLine>, NoMemory> {
        match &node.making {
            Making::Leaf(tokens) => {
                let tokens = cuts.translated(tokens.as_slice())?;
                let clause = clause_of(self.alloc, node.lits.as_slice())?;
                Ok(clause.map(|clause| TreeLine::Implied(clause, tokens)))
            }
            Making::Resolvent { first, second } => {
                let (first, second) = (self.id_at(*first), self.id_at(*second));
                let tokens = resolvent_tokens(self.alloc, first, second)?;
                Ok(Some(TreeLine::Sum(tokens)))
            }
        }
    }

    // The id of a node's line, and 0 past the end.
    fn id_at(&self, at: usize) -> u64 {
        match self.ids.get(at) {
            Some(id) => *id,
            None => 0,
        }
    }
}

// The tokens `ID ID + s`, by which two clauses that clash in one variable make their resolvent (Robinson 1965): the clashing
// literals cancel, and what both have is saturated.
fn resolvent_tokens(alloc: Global, first: u64, second: u64) -> Result<Items<PolToken>, NoMemory> {
    let mut tokens = Items::with_capacity(alloc, 4)?;
    tokens.push(PolToken::Id(first))?;
    tokens.push(PolToken::Id(second))?;
    tokens.push(PolToken::Add)?;
    tokens.push(PolToken::Saturate)?;
    Ok(tokens)
}

// The clause of literals; `None` where they make none.
fn clause_of(alloc: Global, lits: &[Lit]) -> Result<Option<Constraint>, NoMemory> {
    let mut terms = Vec::with_capacity(alloc, lits.len())?;
    for lit in lits {
        terms.push((1i128, *lit))?;
    }
    match Constraint::normal(alloc, terms.as_slice(), 1) {
        Ok(clause) => Ok(Some(clause)),
        Err(LinFault::NoMemory) => Err(NoMemory),
        Err(_) => Ok(None),
    }
}
