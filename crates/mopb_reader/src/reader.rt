// The reader.
ghost use Rattle.std.specs.Prelude.{ℕ, List, ◌≡◌, ◌<◌, ◌≤◌, ◌^◌, length, Some, None, IfOk, IfErr, OnOk};
ghost use Rattle.instance.specs.Shape.{InstanceValue};
ghost use Rattle.instance.specs.declared.fault.ReadFault.{ReadFault};
ghost use Rattle.instance.specs.Reading.{IsFaultOf, HasLine};
ghost use Rattle.mopb_reader.specs.Tokens.{tokens_of, plain};
ghost use Rattle.mopb_reader.specs.FirstFault.{first_fault};
ghost use Rattle.mopb_reader.specs.Cuts.{IsSound};
ghost use Rattle.mopb_reader.specs.Grammar.{IsSpelled, Spells};
ghost use Rattle.mopb_reader.specs.Drafts.{IsDraft, IsSpelledBy, AddsStatement, MeetsStatement};

use crate::draft::{Draft, add_statement, finish, new_draft};
use crate::token::Token;
use crate::tokens::Tokens;
use instance::{Instance, ReadFault};
use std::alloc::Global;

/// Reads the instance that a text of fewer than 2^32 bytes spells. One pass over the tokens;
/// nothing of the text is copied. A refusal names the first bad place or reached limit with its
/// line, counted from 1.
pub fn read(alloc: Global, bytes: &[u8]) -> Result<Instance, ReadFault>
    requires { length bytes.now < 2 ^ 32 }
    ensures spelled { IfOk result (λ inst. Spells bytes.now inst) }
    ensures fault { IfErr result (λ f. IsFaultOf (first_fault bytes.now) f) }
{
    let draft = read_statements(alloc, bytes)?;
    Ok(finish(alloc, draft))
}

// Reads all statements.
fn read_statements(alloc: Global, bytes: &[u8]) -> Result<Draft, ReadFault>
    requires { length bytes.now < 2 ^ 32 }
    ensures ok { IfOk result (IsSpelledBy (tokens_of bytes.now)) }
    ensures draft { IfOk result (λ d. IsDraft d) }
    ensures fault { IfErr result (λ f. IsFaultOf (first_fault bytes.now) f) }
{
    let mut draft = new_draft(alloc);
    let mut tokens = Tokens::new(bytes);
    while let Some(first) = tokens.next() {
        read_statement(alloc, first, &mut tokens, &mut draft)?;
    }
    Ok(draft)
}

// Reads one statement into the draft, from its first token and those after it.
fn read_statement(
    alloc: Global,
    first: Token,
    tokens: &mut Tokens<'_>,
    draft: &mut Draft,
) -> Result<(), ReadFault>
    requires { IsSound first }
    ensures ok { OnOk result (AddsStatement first tokens.old tokens.new draft.old draft.new) }
    ensures fewer { length (plain tokens.new.left) ≤ length (plain tokens.old.left) }
    ensures fault { MeetsStatement first tokens.old tokens.new draft.old draft.new result }
{
    match add_statement(alloc, first, tokens, draft) {
        Ok(()) => Ok(()),
        Err(fault) => Err(fault.at_line(tokens.line())),
    }
}

/// Law: a text spells at most one instance.
pub fn one_instance()
    ensures { (text : List ℕ) (i j : InstanceValue) → Spells text i → Spells text j → i ≡ j }
{}

/// Law: a text that spells an instance has no fault.
pub fn no_fault_where_spelled()
    ensures { (text : List ℕ) (i : InstanceValue) → Spells text i → first_fault text ≡ None }
{}

/// Law: a text of fewer than 2^32 bytes that has no fault spells an instance.
pub fn spelled_where_no_fault()
    ensures { (text : List ℕ) → length text < 2 ^ 32 → first_fault text ≡ None
        → IsSpelled text }
{}

/// Law: the line of a fault is counted from 1.
pub fn faults_have_lines()
    ensures { (text : List ℕ) (f : ReadFault) → first_fault text ≡ Some f → HasLine f }
{}
