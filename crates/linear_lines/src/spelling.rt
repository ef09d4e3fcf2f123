// Whether a text can spell tokens.
ghost use Rattle.std.specs.Prelude.{◌<◌, ◌^◌, ◌↔◌, All, IsTrue};
ghost use Rattle.linear_lines.specs.Stating.{IsSpelledUpTo};

use cutting_planes::PolToken;

// Whether a text can spell all tokens, and their variables are those up to this one.
pub(crate) fn are_spelled(tokens: &[PolToken], vars: u64) -> bool
    requires { vars < 2 ^ 63 }
    ensures { IsTrue result ↔ All (IsSpelledUpTo vars) tokens.now }
{
    tokens.iter().all(|token| is_spelled(*token, vars))
}

// The same of one token.
fn is_spelled(token: PolToken, vars: u64) -> bool
    requires { vars < 2 ^ 63 }
    ensures { IsTrue result ↔ IsSpelledUpTo vars token }
{
    match token {
        PolToken::Id(id) => id < 1 << 63,
        PolToken::Axiom(lit) => lit.var() <= vars,
        PolToken::Weaken(var) => 0 < var && var <= vars,
        PolToken::Mul(factor) => 0 <= factor,
        PolToken::Div(factor) => 0 <= factor,
        PolToken::Negated => true,
        PolToken::Denied => true,
        PolToken::Add => true,
        PolToken::Saturate => true,
    }
}
