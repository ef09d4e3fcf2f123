// Making an instance.
ghost use Rattle.std.specs.Prelude.{◌≡◌, ◌<◌, ◌≤◌, ◌*◌, ◌^◌, IfOk, OnOk, length};
ghost use Rattle.command_gen.specs.Draws.{below, next_state, state_after};
ghost use Rattle.command_gen.specs.Generated.{drawn_clause, drawn_clauses, drawn_objective, drawn_objectives, generated, soft_of};
ghost use Rattle.command_gen.specs.Printed.{AllOccur, IsPlain, mcnf_text};

use crate::draws::Draws;
use instance::{Clauses, Instance, Objective, Sense, Soft};
use scut_base::{Items, Lit, NoMemory};
use std::alloc::Global;

/// The instance of this number: so many items, as many hard clauses, each of three drawn items of which one is to be
/// taken, and so many objectives, in each of which every item that is taken costs a drawn weight from 1 to 4.
pub fn make(alloc: Global, number: u64, vars: u32, objectives: u32) -> Result<Instance, NoMemory>
    requires vars { (3 ≤ vars) × (vars ≤ 4096) }
    requires objectives { (1 ≤ objectives) × (objectives ≤ 64) }
    ensures instance { IfOk result (λ i. i ≡ generated number vars objectives) }
    ensures occur { IfOk result AllOccur }
    ensures plain { IfOk result IsPlain }
    ensures short { IfOk result (λ i. length (mcnf_text i) < 2 ^ 32) }
{
    let mut draws = Draws::new(number);
    let clauses = draw_clauses(alloc, &mut draws, vars)?;
    let objectives = draw_objectives(alloc, &mut draws, vars, objectives)?;
    Ok(Instance::new(u64::from(vars), clauses, Items::new(alloc), objectives))
}

// As many clauses as variables.
fn draw_clauses(alloc: Global, draws: &mut Draws, vars: u32) -> Result<Clauses, NoMemory>
    requires { 0 < vars }
    ensures clauses { IfOk result (λ clauses. clauses ≡ drawn_clauses vars draws.old) }
    ensures state { OnOk result (draws.new ≡ state_after (3 * vars) draws.old) }
{
    let mut clauses = Clauses::new(alloc);
    for _clause in 0..vars {
        clauses.push(draw_clause(alloc, draws, vars)?.as_slice())?;
    }
    Ok(clauses)
}

// Three items.
fn draw_clause(alloc: Global, draws: &mut Draws, vars: u32) -> Result<Items<Lit>, NoMemory>
    requires { 0 < vars }
    ensures clause { IfOk result (λ clause. clause ≡ drawn_clause vars draws.old) }
    ensures state { OnOk result (draws.new ≡ state_after 3 draws.old) }
{
    let mut clause = Items::new(alloc);
    for _item in 0..3u32 {
        clause.push(Lit::new(1 + u64::from(draws.below(vars)), false))?;
    }
    Ok(clause)
}

// So many objectives.
fn draw_objectives(
    alloc: Global,
    draws: &mut Draws,
    vars: u32,
    count: u32,
) -> Result<Items<Objective>, NoMemory>
    ensures objectives { IfOk result (λ objectives. objectives ≡ drawn_objectives vars count draws.old) }
{
    let mut objectives = Items::new(alloc);
    for _objective in 0..count {
        objectives.push(draw_objective(alloc, draws, vars)?)?;
    }
    Ok(objectives)
}

// A weight for each item.
fn draw_objective(alloc: Global, draws: &mut Draws, vars: u32) -> Result<Objective, NoMemory>
    ensures objective { IfOk result (λ objective. objective ≡ drawn_objective vars draws.old) }
    ensures state { OnOk result (draws.new ≡ state_after vars draws.old) }
{
    let mut softs = Items::new(alloc);
    for before in 0..vars {
        softs.push(draw_soft(alloc, draws, u64::from(before) + 1)?)?;
    }
    Ok(Objective {
        sense: Sense::Min,
        softs,
        terms: Items::new(alloc),
        offset: 0,
    })
}

// The cost of an item.
fn draw_soft(alloc: Global, draws: &mut Draws, item: u64) -> Result<Soft, NoMemory>
    requires item { (0 < item) × (item < 2 ^ 63) }
    ensures soft { IfOk result (λ soft. soft ≡ soft_of item (below 4 draws.new)) }
    ensures state { OnOk result (draws.new ≡ next_state draws.old) }
{
    let weight = 1 + u64::from(draws.below(4));
    let mut lits = Items::new(alloc);
    lits.push(Lit::new(item, true))?;
    Ok(Soft { weight, lits })
}
