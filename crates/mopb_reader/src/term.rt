// One term, and what it is made of.
ghost use Rattle.std.specs.Prelude.{◌≡◌, ◌<◌, ◌≤◌, ◌^◌, length, unsigned_abs, Some, IfOk};
ghost use Rattle.scut_base.specs.Number.{signed_value};
ghost use Rattle.mopb_reader.specs.Tokens.{plain};
ghost use Rattle.mopb_reader.specs.Streams.{IsSoundTaken};
ghost use Rattle.mopb_reader.specs.Steps.{JudgesLiteral, JudgesMagnitude, IsTermWithin, BeginsWithTerm, BeginsUnsigned, FindsTerm, FindsUnsigned};
ghost use Rattle.mopb_reader.specs.declared.token.Token.TheVariants.{Literal};

use crate::token::{Token, number_of, sign_of};
use crate::tokens::Tokens;
use instance::{BadKind, InstanceLimit, MAX_VARS, PlaceFault};
use scut_base::Lit;

/// Reads a term from its first token, if there is one, and those after it. Its magnitude is at most
/// what there is room for.
pub fn read_term(
    first: Option<Token>,
    tokens: &mut Tokens<'_>,
    room: u64,
    limit: InstanceLimit,
) -> Result<(i64, Lit), PlaceFault>
    requires room { room < 2 ^ 63 }
    requires sound { IsSoundTaken first }
    ensures ok { IfOk result (BeginsWithTerm first tokens.old tokens.new) }
    ensures within { IfOk result (IsTermWithin room) }
    ensures fewer { length (plain tokens.new.left) ≤ length (plain tokens.old.left) }
    ensures fault { FindsTerm limit room first tokens.old tokens.new result }
{
    match sign_of(first) {
        Some(minus) => {
            let next = tokens.next();
            read_unsigned(minus, next, tokens, room, limit)
        }
        None => read_unsigned(false, first, tokens, room, limit),
    }
}

// Reads a term from after its sign on.
fn read_unsigned(
    minus: bool,
    first: Option<Token>,
    tokens: &mut Tokens<'_>,
    room: u64,
    limit: InstanceLimit,
) -> Result<(i64, Lit), PlaceFault>
    requires room { room < 2 ^ 63 }
    requires sound { IsSoundTaken first }
    ensures ok { IfOk result (BeginsUnsigned minus first tokens.old tokens.new) }
    ensures within { IfOk result (IsTermWithin room) }
    ensures fewer { length (plain tokens.new.left) ≤ length (plain tokens.old.left) }
    ensures fault { FindsUnsigned limit room first tokens.old tokens.new result }
{
    match number_of(first) {
        Some(value) => {
            let magnitude = magnitude_within(value, room, limit)?;
            let next = tokens.next();
            let lit = read_literal(next)?;
            Ok(term_of(minus, magnitude, lit))
        }
        None => {
            let lit = read_literal(first)?;
            let magnitude = magnitude_within(Some(1), room, limit)?;
            Ok(term_of(minus, magnitude, lit))
        }
    }
}

// The term of a sign, a magnitude and a literal.
fn term_of(minus: bool, magnitude: u64, lit: Lit) -> (i64, Lit)
    requires { magnitude < 2 ^ 63 }
    ensures coefficient { result.0 ≡ signed_value minus magnitude }
    ensures literal { result.1 ≡ lit }
    ensures magnitude { unsigned_abs result.0 ≡ magnitude }
{
    (signed(minus, magnitude), lit)
}

/// Judges a magnitude: it is below 2^63, and there is room for it.
pub fn magnitude_within(
    value: Option<u64>,
    room: u64,
    limit: InstanceLimit,
) -> Result<u64, PlaceFault>
    ensures ok { IfOk result (λ magnitude. (value ≡ Some magnitude) × (magnitude ≤ room)) }
    ensures fault { JudgesMagnitude value room limit result }
{
    match value {
        None => Err(PlaceFault::Bad(BadKind::NumberTooWide)),
        Some(magnitude) => {
            if magnitude > room {
                return Err(PlaceFault::Limit(limit));
            }
            Ok(magnitude)
        }
    }
}

// Reads a literal, whose variable is at most the largest.
fn read_literal(token: Option<Token>) -> Result<Lit, PlaceFault>
    requires { IsSoundTaken token }
    ensures ok { IfOk result (λ l. token ≡ Some (Literal (Some l.var) l.neg)) }
    ensures within { IfOk result (λ l. l.var ≤ 2 ^ 24) }
    ensures fault { JudgesLiteral token result }
{
    match token {
        Some(Token::Literal { var: None, .. }) => Err(PlaceFault::Bad(BadKind::NumberTooWide)),
        Some(
            Token::Literal {
                var: Some(var),
                neg,
            },
        ) => {
            if var > MAX_VARS {
                return Err(PlaceFault::Limit(InstanceLimit::Vars));
            }
            Ok(Lit::new(var, neg))
        }
        _ => Err(PlaceFault::Bad(BadKind::TermExpected)),
    }
}

/// The number of a sign and a magnitude.
pub fn signed(minus: bool, magnitude: u64) -> i64
    requires { magnitude < 2 ^ 63 }
    ensures value { result ≡ signed_value minus magnitude }
    ensures magnitude { unsigned_abs result ≡ magnitude }
{
    let value = magnitude as i64;
    if minus { -value } else { value }
}
