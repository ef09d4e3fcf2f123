// Laws of logs.
ghost use Rattle.std.specs.Prelude.{◌≡◌, ℕ, List, All};
ghost use Rattle.proof_laws.specs.declared.line.Line.{Line};
ghost use Rattle.proof_laws.specs.WellFormed.{IsWellFormed};
ghost use Rattle.proof_lines.specs.declared.spelling.Spelling.{Spelling};
ghost use Rattle.proof_text.specs.Versions.{AllFit, IsFirst, log_text};
ghost use Rattle.proof_text.specs.LogText.{SpellsLog, IsSyntaxAt, IsUnfinishedAt};

/// Law: bytes spell one list of lines at most.
pub fn one_log()
    ensures { (bytes : List ℕ) (lines more : List Line)
        → SpellsLog bytes lines → SpellsLog bytes more → lines ≡ more }
{}

/// Law: bytes that spell a log go wrong nowhere, and don't end in the midst of a line.
pub fn no_fault_where_spelled()
    ensures wrong { (bytes : List ℕ) (lines : List Line) → SpellsLog bytes lines
        → (k : ℕ) → IsSyntaxAt bytes k → ⊥ }
    ensures unfinished { (bytes : List ℕ) (lines : List Line) → SpellsLog bytes lines
        → (k : ℕ) → IsUnfinishedAt bytes k → ⊥ }
{}

/// Law: bytes go wrong at one line at most.
pub fn one_fault()
    ensures { (bytes : List ℕ) (j k : ℕ) → IsSyntaxAt bytes j → IsSyntaxAt bytes k → j ≡ k }
{}

/// Law: what is printed of lines, in either version, spells these lines and no others.
pub fn printed_back()
    ensures spells { (first : Spelling) (lines : List Line) → IsFirst first → AllFit first lines
        → All IsWellFormed lines → SpellsLog (log_text first lines) lines }
    ensures alone { (first : Spelling) (lines more : List Line) → IsFirst first
        → AllFit first lines → All IsWellFormed lines
        → SpellsLog (log_text first lines) more → more ≡ lines }
{
    one_log();
}
