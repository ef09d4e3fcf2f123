// The law of texts.
ghost use Rattle.std.specs.Prelude.{◌≡◌, ℕ, List};
ghost use Rattle.proof_laws.specs.declared.line.Line.{Line};
ghost use Rattle.proof_lines.specs.declared.spelling.Spelling.{Spelling};
ghost use Rattle.proof_lines.specs.Ids.{IsSpelling};
ghost use Rattle.proof_lines.specs.LineText.{SpellsLine};

/// Law: a text is that of one line at most, for each way to spell ids.
pub fn one_line()
    ensures { (spelling : Spelling) → IsSpelling spelling → (text : List ℕ) (l m : Line)
        → SpellsLine spelling text l → SpellsLine spelling text m → l ≡ m }
{}
