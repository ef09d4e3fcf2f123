// Literals of which at most one can be true: cliques over the problem's rows of two literals (DECISIONS, cliques).
ghost use Rattle.sum_outputs.specs.Adding.{IsReady, IsRecorded};

use crate::limits::{LEAST_MEMBERS, MOST_LOOKS, MOST_MEMBERS};
use cutting_planes::PolToken;
use linear_lines::add_line;
use pb_lin::{Constraint, PbProblem};
use proof_rules::{RecordFault, Recorder};
use scut_base::{Items, Lit, NoMemory};
use std::alloc::Global;
use sum_outputs::in_memory;

// That two literals aren't both true, by the row of this id.
#[derive(Clone, Copy, Debug)]
struct Edge {
    from: Lit,
    to: Lit,
    row: u64,
}

// All such pairs, either way round, in order; and whether a clique has the row.
#[derive(Debug, Drop)]
struct Graph {
    edges: Vec<Edge>,
    is_taken: Vec<bool>,
    looks: usize,
}

// Adds a line "at most one of these literals is true" for each clique of three literals and more, greedily, so that no row is
// in two of them: sums of rows, halved, then thirded and so on. Costs a sort of the rows of two literals, and a search for
// each pair of literals that is looked up.
pub(crate) fn add_cliques<R: Recorder>(
    alloc: Global,
    rec: &mut R,
    problem: &PbProblem,
) -> Result<(), RecordFault>
    requires ready { IsReady (R.seen rec.old) }
    ensures recorded { IsRecorded (R.seen rec.old) (R.seen rec.new) result }
{
    let mut lines = in_memory(lines_of(alloc, problem))?;
    for _line in 0..lines.len() {
        let Some(tokens) = lines.pop() else {
            return Ok(());
        };
        add_line(alloc, rec, tokens)?;
    }
    Ok(())
}

// The tokens of each clique's line, the last first.
fn lines_of(alloc: Global, problem: &PbProblem) -> Result<Vec<Items<PolToken>>, NoMemory> {
    let mut graph = graph_of(alloc, problem.rows())?;
    let mut lines = Vec::new(alloc);
    let mut last = None;
    for at in 0..graph.edges.len() {
        let Some(edge) = graph.edges.get(at).copied() else {
            break;
        };
        if last == Some(edge.from) {
            continue;
        }
        last = Some(edge.from);
        if let Some(tokens) = clique_line(alloc, &mut graph, at, edge.from)? {
            lines.push(tokens)?;
        }
    }
    lines.reverse();
    Ok(lines)
}

// The pairs of the rows of two literals.
fn graph_of(alloc: Global, rows: &[Constraint]) -> Result<Graph, NoMemory> {
    let mut edges = Vec::new(alloc);
    let mut row = 0u64;
    for constraint in rows {
        row = row.saturating_add(1);
        if let [first, second] = constraint.literals() {
            if constraint.is_clause() {
                let (from, to) = (first.not(), second.not());
                edges.push(Edge { from, to, row })?;
                edges.push(Edge {
                    from: to,
                    to: from,
                    row,
                })?;
            }
        }
    }
    edges.sort_unstable_by_key(|edge| (edge.from, edge.to));
    Ok(Graph {
        edges,
        is_taken: vec![in alloc; false; rows.len().saturating_add(1)]?,
        looks: 0,
    })
}

// The tokens of the line of a clique that has this literal, whose pairs begin at this place; none where it has fewer than three.
fn clique_line(
    alloc: Global,
    graph: &mut Graph,
    from: usize,
    lit: Lit,
) -> Result<Option<Items<PolToken>>, NoMemory> {
    let mut members = Vec::new(alloc);
    members.push(lit)?;
    let mut tokens = Items::new(alloc);
    let mut taken = Vec::new(alloc);
    for at in from..graph.edges.len() {
        let Some(edge) = graph.edges.get(at).copied() else {
            break;
        };
        if edge.from != lit || members.len() >= MOST_MEMBERS || graph.looks >= MOST_LOOKS {
            break;
        }
        if let Some(rows) = rows_to(alloc, graph, members.as_slice(), edge.to)? {
            add_member(&mut tokens, rows.as_slice())?;
            taken.extend_from_slice(rows.as_slice())?;
            members.push(edge.to)?;
        }
    }
    if members.len() < LEAST_MEMBERS {
        return Ok(None);
    }
    for row in taken.iter() {
        mark(&mut graph.is_taken, *row);
    }
    Ok(Some(tokens))
}

// The rows by which a literal isn't true together with any of these; none where there isn't one for each that no clique has.
fn rows_to(
    alloc: Global,
    graph: &mut Graph,
    members: &[Lit],
    lit: Lit,
) -> Result<Option<Vec<u64>>, NoMemory> {
    let mut rows = Vec::new(alloc);
    for member in members {
        graph.looks = graph.looks.saturating_add(1);
        match graph.row_between(*member, lit) {
            Some(row) => rows.push(row)?,
            None => return Ok(None),
        }
    }
    Ok(Some(rows))
}

impl Graph {
    // The row by which two literals aren't both true, if there is one that no clique has.
    fn row_between(&self, from: Lit, to: Lit) -> Option<u64> {
        let edges = self.edges.as_slice();
        let at = edges
            .binary_search_by_key(&(from, to), |edge| (edge.from, edge.to))
            .ok()?;
        let row = edges.get(at)?.row;
        if self.is_taken.get(row as usize) == Some(&true) {
            return None;
        }
        Some(row)
    }
}

fn mark(is_taken: &mut [bool], row: u64) {
    if let Some(place) = is_taken.get_mut(row as usize) {
        *place = true;
    }
}

// Adds the tokens by which a line over k literals, and the rows between each of them and one more, make the line over k + 1:
// `(k - 1) *`, the rows, `k d`. The line over one literal is none.
fn add_member(tokens: &mut Items<PolToken>, rows: &[u64]) -> Result<(), NoMemory> {
    let count = rows.len() as i128;
    if count > 2 {
        tokens.push(PolToken::Mul(count - 1))?;
    }
    for row in rows {
        let is_first = tokens.is_empty();
        tokens.push(PolToken::Id(*row))?;
        if !is_first {
            tokens.push(PolToken::Add)?;
        }
    }
    if count > 1 {
        tokens.push(PolToken::Div(count))?;
    }
    Ok(())
}
