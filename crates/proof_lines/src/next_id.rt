// How many ids a line makes.
ghost use Rattle.std.specs.Prelude.{◌≡◌};
ghost use Rattle.proof_laws.specs.Steps.{made};

use proof_laws::Line;

/// How many ids the line makes: two where it defines a variable, none where it deletes or ends the
/// proof, and else one.
pub fn made(line: &Line) -> u64
    ensures { result ≡ made line.now }
{
    match line {
        Line::Def { .. } => 2,
        Line::Del { .. } | Line::Reduce { .. } | Line::End { .. } => 0,
        _ => 1,
    }
}
