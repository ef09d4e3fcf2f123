// What the statements read so far make.
ghost use Rattle.std.specs.Prelude.{◌≡◌, ◌≤◌, [], length, true, OnOk};
ghost use Rattle.instance.specs.Shape.{IsWithinLimits};
ghost use Rattle.mopb_reader.specs.Tokens.{plain};
ghost use Rattle.mopb_reader.specs.Cuts.{IsSound};
ghost use Rattle.mopb_reader.specs.Drafts.{IsDraft, AddsObjective, AddsRow, AddsStatement, FindsStatement, FindsObjective, FindsRowIn, instance_of};

use crate::statement::{read_objective, read_row};
use crate::token::{Token, begins_row};
use crate::tokens::Tokens;
use instance::{
    BadKind, Clauses, Instance, InstanceLimit, Linear, MAX_OBJECTIVES, Objective, PlaceFault, Sense,
};
use scut_base::Items;
use std::alloc::Global;

/// An instance in the making.
#[derive(Drop)]
pub struct Draft {
    pub objectives: Items<Objective>,
    pub linear: Items<Linear>,
    pub vars: u64,
}

/// The draft of no statements.
pub fn new_draft(alloc: Global) -> Draft
    ensures objectives { result.objectives ≡ [] }
    ensures rows { result.linear ≡ [] }
    ensures draft { IsDraft result }
{
    Draft {
        objectives: Items::new(alloc),
        linear: Items::new(alloc),
        vars: 0,
    }
}

/// Reads a statement into the draft, from its first token and those after it. After a fault the
/// draft is of no use.
pub fn add_statement(
    alloc: Global,
    first: Token,
    tokens: &mut Tokens<'_>,
    draft: &mut Draft,
) -> Result<(), PlaceFault>
    requires { IsSound first }
    ensures ok { OnOk result (AddsStatement first tokens.old tokens.new draft.old draft.new) }
    ensures fewer { length (plain tokens.new.left) ≤ length (plain tokens.old.left) }
    ensures fault { FindsStatement first tokens.old tokens.new draft.old draft.new result }
{
    match first {
        Token::Head { sense } => add_objective(alloc, sense, tokens, draft),
        _ => add_row(alloc, first, tokens, draft),
    }
}

// Reads an objective into the draft, from after its head on.
fn add_objective(
    alloc: Global,
    sense: Sense,
    tokens: &mut Tokens<'_>,
    draft: &mut Draft,
) -> Result<(), PlaceFault>
    ensures ok { OnOk result (AddsObjective sense tokens.old tokens.new draft.old draft.new) }
    ensures fewer { length (plain tokens.new.left) ≤ length (plain tokens.old.left) }
    ensures fault { FindsObjective tokens.old tokens.new draft.old draft.new result }
{
    if !draft.linear.is_empty() {
        return Err(PlaceFault::Bad(BadKind::ObjectiveAfterConstraint));
    }
    if draft.objectives.len() >= MAX_OBJECTIVES {
        return Err(PlaceFault::Limit(InstanceLimit::Objectives));
    }
    let (objective, largest) = read_objective(alloc, sense, tokens)?;
    draft.objectives.push(objective)?;
    draft.vars = draft.vars.max(largest);
    Ok(())
}

// Reads a row into the draft.
fn add_row(
    alloc: Global,
    first: Token,
    tokens: &mut Tokens<'_>,
    draft: &mut Draft,
) -> Result<(), PlaceFault>
    requires { IsSound first }
    ensures ok { OnOk result (AddsRow first tokens.old tokens.new draft.old draft.new) }
    ensures fewer { length (plain tokens.new.left) ≤ length (plain tokens.old.left) }
    ensures fault { FindsRowIn first tokens.old tokens.new draft.old draft.new result }
{
    if !begins_row(first) {
        return Err(PlaceFault::Bad(BadKind::UnknownLine));
    }
    let (row, largest) = read_row(alloc, first, tokens)?;
    draft.linear.push(row)?;
    draft.vars = draft.vars.max(largest);
    Ok(())
}

/// The instance of a draft.
pub fn finish(alloc: Global, draft: Draft) -> Instance
    requires { IsWithinLimits (instance_of draft) }
    ensures { result ≡ instance_of draft }
{
    Instance::new(
        draft.vars,
        Clauses::new(alloc),
        draft.linear,
        draft.objectives,
    )
}
