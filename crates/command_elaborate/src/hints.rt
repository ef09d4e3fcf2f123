// Hints as a line spells them.
ghost use Rattle.std.specs.Prelude.{◌≡◌, ◌++◌, ◌∷◌, List, IfOk};
ghost use Rattle.hint_rup.specs.declared.hint.Hint.{Hint};
ghost use Rattle.command_elaborate.specs.Spelling.{respelled, same_hint, spelled_hints, squeezed, told};

use hint_rup::Hint;
use scut_base::{Items, NoMemory};
use std::alloc::Global;

/// The hints with the negation in place of this id, where it may propagate again, and each once where it
/// comes several times in turn; the negation, with which a replay begins, isn't told at the front.
pub(crate) fn spelled(
    alloc: Global,
    hints: &[Hint],
    negation: u64,
    again: bool,
) -> Result<Items<Hint>, NoMemory>
    ensures { IfOk result (λ spelled. spelled ≡ spelled_hints again negation hints.now) }
{
    let mut spelled = Items::new(alloc);
    let mut last = Hint::Negated;
    for hint in hints {
        last = put(&mut spelled, last, respelled(*hint, negation), again)?;
    }
    Ok(spelled)
}

// Puts a hint at the end, unless it is the last one, or of a negation that doesn't propagate again; the
// last one then.
fn put(spelled: &mut Items<Hint>, last: Hint, hint: Hint, again: bool) -> Result<Hint, NoMemory>
    ensures { IfOk result (λ now. (rest : List Hint)
        → spelled.old ++ squeezed last (told again (hint ∷ rest))
        ≡ spelled.new ++ squeezed now (told again rest)) }
{
    if is_same(last, hint) || (!again && is_same(Hint::Negated, hint)) {
        return Ok(last);
    }
    spelled.push(hint)?;
    Ok(hint)
}

// Whether two hints name the same line.
fn is_same(first: Hint, second: Hint) -> bool
    ensures { result ≡ same_hint first second }
{
    match (first, second) {
        (Hint::Id(i), Hint::Id(j)) => i == j,
        (Hint::Negated, Hint::Negated) => true,
        (Hint::Denied, Hint::Denied) => true,
        _ => false,
    }
}

// The hint with the negation in place of this id.
fn respelled(hint: Hint, negation: u64) -> Hint
    ensures { result ≡ respelled negation hint }
{
    match hint {
        Hint::Id(id) if id == negation => Hint::Negated,
        _ => hint,
    }
}
