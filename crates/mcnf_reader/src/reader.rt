// The reader.
ghost use Rattle.std.specs.Prelude.{ℕ, List, ◌≡◌, ◌<◌, ◌^◌, ◌++◌, [], ◌∷◌, Some, None, length, IfOk, IfErr, OnOk};
ghost use Rattle.std.specs.Option.{option_map};
ghost use Rattle.instance.specs.Shape.{InstanceValue};
ghost use Rattle.instance.specs.declared.fault.ReadFault.{ReadFault};
ghost use Rattle.instance.specs.Reading.{at_line, IsFaultOf, HasLine};
ghost use Rattle.mcnf_reader.specs.Words.{words_of};
ghost use Rattle.mcnf_reader.specs.Grammar.{Spells, SpellsStatement};
ghost use Rattle.mcnf_reader.specs.FirstFault.{line_fault, first_fault};
ghost use Rattle.mcnf_reader.specs.LineLimits.{IsStatementWithin, IsSumsOf};
ghost use Rattle.mcnf_reader.specs.Draft.{IsReady, IsDraftOf};
ghost use Rattle.mcnf_reader.specs.Reads.{IsReadAs};
ghost use Rattle.mcnf_reader.specs.declared.statement.Statement.{Statement};

use crate::draft::{Draft, add_statement, finish, new_draft};
use crate::line::read_statement;
use crate::lines::Lines;
use instance::{Instance, ReadFault};
use std::alloc::Global;

/// Reads the instance that a text of fewer than 2^32 bytes spells. One pass over the lines; nothing of
/// the text is copied. A refusal names the first bad place or reached limit with its line, from 1.
pub fn read(alloc: Global, bytes: &[u8]) -> Result<Instance, ReadFault>
    requires { length bytes.now < 2 ^ 32 }
    ensures spelled { IfOk result (λ inst. Spells bytes.now inst) }
    ensures fault { IfErr result (λ f. IsFaultOf (first_fault bytes.now) f) }
{
    let draft = read_lines(alloc, bytes)?;
    Ok(finish(alloc, draft))
}

// Reads all lines.
fn read_lines(alloc: Global, bytes: &[u8]) -> Result<Draft, ReadFault>
    requires { length bytes.now < 2 ^ 32 }
    ensures ok { IfOk result (λ d. IsReadAs bytes.now d) }
    ensures fault { IfErr result (λ f. IsFaultOf (first_fault bytes.now) f) }
{
    let mut draft = new_draft(alloc)?;
    let mut lines = Lines::new(bytes);
    let mut number = 0u64;
    while let Some(line) = lines.next() {
        number += 1;
        read_line(alloc, line, number, &mut draft)?;
    }
    Ok(draft)
}

// Reads one line into the draft.
fn read_line(alloc: Global, line: &[u8], number: u64, draft: &mut Draft) -> Result<(), ReadFault>
    requires { IsReady draft.old }
    ensures ready { OnOk result (IsReady draft.new) }
    ensures ok { OnOk result ((s : Statement)
        × SpellsStatement (words_of line.now) s
        × IsStatementWithin draft.old.sums s
        × ((done : List Statement) → IsDraftOf draft.old done
        → IsDraftOf draft.new (done ++ s ∷ []))) }
    ensures fault { IfErr result (λ f. (before : List (List (List ℕ)))
        → IsSumsOf before draft.old.sums
        → IsFaultOf (option_map (at_line number) (line_fault before (words_of line.now))) f) }
{
    match read_statement(alloc, line, &draft.sums) {
        Ok(statement) => {
            add_statement(draft, statement)?;
            Ok(())
        }
        Err(fault) => Err(fault.at_line(number)),
    }
}

/// Law: a text spells at most one instance.
pub fn one_instance()
    ensures { (text : List ℕ) (i j : InstanceValue) → Spells text i → Spells text j → i ≡ j }
{}

/// Law: a text that spells an instance has no fault.
pub fn no_fault_where_spelled()
    ensures { (text : List ℕ) (i : InstanceValue) → Spells text i → first_fault text ≡ None }
{}

/// Law: a text of fewer than 2^32 bytes that has no fault spells an instance.
pub fn spelled_where_no_fault()
    ensures { (text : List ℕ) → length text < 2 ^ 32 → first_fault text ≡ None
        → (i : InstanceValue) × Spells text i }
{}

/// Law: the line of a fault is counted from 1.
pub fn faults_have_lines()
    ensures { (text : List ℕ) (f : ReadFault) → first_fault text ≡ Some f → HasLine f }
{}
