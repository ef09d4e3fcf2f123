// The cut of a model: a literal for each objective that says that it costs less than there.
ghost use Rattle.std.specs.Prelude.{◌≡◌, ◌↔◌, ◌++◌, ◌∷◌, ◌≤◌, ◌<◌, [], All, AllPairs, Contains, IfOk, OnOk, map};
ghost use Rattle.std.specs.List.Sorted.{IsNonDecreasingBy};
ghost use Rattle.scut_base.specs.Literal.{Literal};
ghost use Rattle.instance_normal.specs.NormalForm.{AreDistinct};
ghost use Rattle.pb_lin.specs.Constraint.{opposite};
ghost use Rattle.search_base.specs.Cutting.{AreAlike, IsCutOf, answered_line, answered_literals};

use scut_base::{Items, Lit, NoMemory};
use std::alloc::Global;
use totalizer::Bound;

// The opposites of the literals of the answers, each once, in rising order of variables. Two objectives
// may have one literal, but never opposite ones. Costs a sort of them.
pub(crate) fn cut_of(alloc: Global, answers: &[Bound]) -> Result<Items<Lit>, NoMemory>
    requires { AreAlike (answered_literals answers.now) }
    ensures { IfOk result (IsCutOf answers.now) }
{
    let mut opposites = opposites_of(alloc, answers)?;
    opposites.sort_unstable_by_key(|lit| lit.var());
    each_once(alloc, opposites.as_slice())
}

// The opposites of the literals of the answers, in order.
fn opposites_of(alloc: Global, answers: &[Bound]) -> Result<Vec<Lit>, NoMemory>
    ensures { IfOk result (λ opposites. opposites.items
        ≡ map opposite (answered_literals answers.now)) }
{
    let mut opposites = Vec::new(alloc);
    for answer in answers {
        if let Bound::At { lit, .. } = answer {
            opposites.push(lit.not())?;
        }
    }
    Ok(opposites)
}

// The literals, in order of variables, each once.
fn each_once(alloc: Global, sorted: &[Lit]) -> Result<Items<Lit>, NoMemory>
    requires sorted { IsNonDecreasingBy (λ l. l.var) sorted.now }
    requires alike { AreAlike sorted.now }
    ensures { IfOk result (AreDistinct sorted.now) }
{
    let mut distinct = Items::new(alloc);
    for lit in sorted {
        add_once(&mut distinct, *lit)?;
    }
    Ok(distinct)
}

// Adds a literal of no lower a variable to others, if it isn't there.
fn add_once(distinct: &mut Items<Lit>, lit: Lit) -> Result<(), NoMemory>
    requires rising { AllPairs (λ l m. l.var < m.var) distinct.old }
    requires upto { All (λ l. l.var ≤ lit.var) distinct.old }
    requires alike { (l : Literal) → Contains distinct.old l → l.var ≡ lit.var → l ≡ lit }
    ensures rising { OnOk result (AllPairs (λ l m. l.var < m.var) distinct.new) }
    ensures upto { OnOk result (All (λ l. l.var ≤ lit.var) distinct.new) }
    ensures added { OnOk result ((l : Literal)
        → Contains distinct.new l ↔ Contains (distinct.old ++ lit ∷ []) l) }
{
    let len = distinct.len();
    if len == 0 {
        return distinct.push(lit);
    }
    // In order of variables, so that only the last can be the same.
    if distinct.at(len - 1).var() < lit.var() {
        return distinct.push(lit);
    }
    Ok(())
}

// The lines that the answers name, in order.
pub(crate) fn lines_of(alloc: Global, answers: &[Bound]) -> Result<Items<u64>, NoMemory>
    ensures { IfOk result (λ lines. lines ≡ map answered_line answers.now) }
{
    let mut lines = Items::new(alloc);
    for answer in answers {
        lines.push(line_of(answer))?;
    }
    Ok(lines)
}

// The line that an answer names, or 0.
fn line_of(answer: &Bound) -> u64
    ensures { result ≡ answered_line answer.now }
{
    match answer {
        Bound::Always { lower_line } => *lower_line,
        Bound::Never => 0,
        Bound::At { lower_line, .. } => *lower_line,
    }
}
