// One statement: an objective or a row.
ghost use Rattle.std.specs.Prelude.{◌≡◌, ◌<◌, ◌≤◌, ◌^◌, length, unsigned_abs, true, Some, IfOk, OnOk};
ghost use Rattle.mopb_reader.specs.Tokens.{plain};
ghost use Rattle.mopb_reader.specs.FirstFault.{Start, Head, Bound, Progress};
ghost use Rattle.mopb_reader.specs.Cuts.{IsSound};
ghost use Rattle.mopb_reader.specs.Streams.{begins_row};
ghost use Rattle.mopb_reader.specs.Steps.{after_taken, Judges, JudgesRelation, JudgesBound, IsBoundOf, IsReadObjective, IsReadRow, FindsFrom, FindsRow, FindsBound, BeginsWithBound};
ghost use Rattle.mopb_reader.specs.declared.token.Token.TheVariants.{Relation, Semicolon};

use crate::term::{magnitude_within, signed};
use crate::terms::read_terms;
use crate::token::{Token, number_of, relation_of, sign_of};
use crate::tokens::Tokens;
use instance::{BadKind, InstanceLimit, Linear, MAX_MAGNITUDE, Objective, PlaceFault, Rel, Sense};
use scut_base::Items;
use std::alloc::Global;

/// Reads an objective from after its head on, and answers its largest variable too.
pub fn read_objective(
    alloc: Global,
    sense: Sense,
    tokens: &mut Tokens<'_>,
) -> Result<(Objective, u64), PlaceFault>
    ensures ok { IfOk result (λ r. IsReadObjective sense tokens.old tokens.new r.0 r.1) }
    ensures fewer { length (plain tokens.new.left) ≤ length (plain tokens.old.left) }
    ensures fault { (p : Progress) → FindsFrom p Head Start tokens.old tokens.new result }
{
    let first = tokens.next();
    let terms = read_terms(alloc, first, tokens, InstanceLimit::Weights)?;
    end_statement(terms.next)?;
    let objective = Objective {
        sense,
        softs: Items::new(alloc),
        terms: terms.items,
        offset: 0,
    };
    Ok((objective, terms.largest))
}

/// Reads a row from its first token and those after it, and answers its largest variable too.
pub fn read_row(
    alloc: Global,
    first: Token,
    tokens: &mut Tokens<'_>,
) -> Result<(Linear, u64), PlaceFault>
    requires sound { IsSound first }
    requires begins { begins_row first ≡ true }
    ensures ok { IfOk result (λ r. IsReadRow first tokens.old tokens.new r.0 r.1) }
    ensures fewer { length (plain tokens.new.left) ≤ length (plain tokens.old.left) }
    ensures fault { FindsRow first tokens.old tokens.new result }
{
    let terms = read_terms(alloc, Some(first), tokens, InstanceLimit::Row)?;
    let rel = read_relation(terms.next)?;
    let bound = read_bound(tokens, MAX_MAGNITUDE - terms.sum)?;
    let last = tokens.next();
    end_statement(last)?;
    let row = Linear {
        terms: terms.items,
        rel,
        bound,
    };
    Ok((row, terms.largest))
}

// Reads a relation.
fn read_relation(token: Option<Token>) -> Result<Rel, PlaceFault>
    ensures ok { IfOk result (λ rel. token ≡ Some (Relation rel)) }
    ensures fault { JudgesRelation token result }
{
    match relation_of(token) {
        Some(rel) => Ok(rel),
        None => Err(PlaceFault::Bad(BadKind::RelationExpected)),
    }
}

// Reads a bound, whose magnitude is at most what there is room for.
fn read_bound(tokens: &mut Tokens<'_>, room: u64) -> Result<i64, PlaceFault>
    requires { room < 2 ^ 63 }
    ensures ok { IfOk result (BeginsWithBound tokens.old tokens.new) }
    ensures within { IfOk result (λ bound. unsigned_abs bound ≤ room) }
    ensures fewer { length (plain tokens.new.left) ≤ length (plain tokens.old.left) }
    ensures fault { FindsBound room tokens.old tokens.new result }
{
    let first = tokens.next();
    match sign_of(first) {
        Some(minus) => {
            let next = tokens.next();
            read_magnitude(minus, next, room)
        }
        None => read_magnitude(false, first, room),
    }
}

// Reads a bound from after its sign on.
fn read_magnitude(minus: bool, token: Option<Token>, room: u64) -> Result<i64, PlaceFault>
    requires { room < 2 ^ 63 }
    ensures ok { IfOk result (IsBoundOf minus token) }
    ensures within { IfOk result (λ bound. unsigned_abs bound ≤ room) }
    ensures fault { JudgesBound token room result }
{
    match number_of(token) {
        Some(value) => {
            let magnitude = magnitude_within(value, room, InstanceLimit::Row)?;
            Ok(signed(minus, magnitude))
        }
        None => Err(PlaceFault::Bad(BadKind::BoundExpected)),
    }
}

// Reads the end of a statement.
fn end_statement(token: Option<Token>) -> Result<(), PlaceFault>
    ensures ok { OnOk result (token ≡ Some Semicolon) }
    ensures fault { Judges (after_taken Bound token) result (λ _. Start) }
{
    match token {
        Some(Token::Semicolon) => Ok(()),
        _ => Err(PlaceFault::Bad(BadKind::SemicolonMissing)),
    }
}
