// Terms, one directly after another.
ghost use Rattle.std.specs.Prelude.{[], ◌≡◌, ◌≢◌, ◌≤◌, length, true, false, Some, IfOk};
ghost use Rattle.mopb_reader.specs.Tokens.{plain};
ghost use Rattle.mopb_reader.specs.Streams.{IsSoundTaken, begins_literal};
ghost use Rattle.mopb_reader.specs.Steps.{BeginsWithTerms, AreSummed, FindsTerms};

use crate::term::read_term;
use crate::token::{Token, begins_literal, begins_term};
use crate::tokens::Tokens;
use instance::{BadKind, InstanceLimit, MAX_MAGNITUDE, PlaceFault};
use scut_base::{Items, Lit};
use std::alloc::Global;

/// Terms, the sum of their magnitudes, their largest variable, and the token after them, if there
/// is one.
#[derive(Drop)]
pub struct Terms {
    pub items: Items<(i64, Lit)>,
    pub sum: u64,
    pub largest: u64,
    pub next: Option<Token>,
}

/// Reads terms up to the first token that begins none.
pub fn read_terms(
    alloc: Global,
    first: Option<Token>,
    tokens: &mut Tokens<'_>,
    limit: InstanceLimit,
) -> Result<Terms, PlaceFault>
    requires { IsSoundTaken first }
    ensures ok { IfOk result (BeginsWithTerms first tokens.old tokens.new) }
    ensures sums { IfOk result (λ t. AreSummed t) }
    ensures none { IfOk result (λ t. t.items ≡ [] → t.next ≡ first) }
    ensures fewer { length (plain tokens.new.left) ≤ length (plain tokens.old.left) }
    ensures fault { FindsTerms limit first tokens.old tokens.new result }
{
    let mut items = Items::new(alloc);
    let mut sum = 0u64;
    let mut largest = 0u64;
    let mut next = first;
    while begins_term(next) {
        if is_product(&items, next) {
            return Err(PlaceFault::Bad(BadKind::Product));
        }
        let term = read_term(next, tokens, MAX_MAGNITUDE - sum, limit)?;
        sum += term.0.unsigned_abs();
        largest = largest.max(term.1.var());
        items.push(term)?;
        next = tokens.next();
    }
    Ok(Terms {
        items,
        sum,
        largest,
        next,
    })
}

// Whether a token begins a literal directly after a term.
fn is_product(items: &Items<(i64, Lit)>, next: Option<Token>) -> bool
    ensures some { result ≡ true → (begins_literal next ≡ true) × (items.now ≢ []) }
    ensures none { result ≡ false → begins_literal next ≡ true → items.now ≡ [] }
{
    if items.is_empty() {
        return false;
    }
    begins_literal(next)
}
