// A token.
ghost use Rattle.std.specs.Prelude.{◌≡◌, Some};
ghost use Rattle.mopb_reader.specs.declared.token.Token.TheVariants.{Sign, Number, Relation};
ghost use Rattle.mopb_reader.specs.Streams.{IsOf, begins_literal, begins_term, begins_row};

use instance::{Rel, Sense};

/// A token, with the values of its digits in place of them. A value above 2^63 - 1 is `None`.
#[derive(Clone, Copy, Debug, PartialEq, Eq)]
pub enum Token {
    /// A plus, or a minus.
    Sign { minus: bool },
    /// Digits.
    Number { value: Option<u64> },
    /// A variable, counted from 1, or its negation.
    Literal { var: Option<u64>, neg: bool },
    /// The beginning of a literal, after which there is no variable.
    Misspelled,
    /// The head of an objective: `min:` or `max:`.
    Head { sense: Sense },
    /// A relation.
    Relation { rel: Rel },
    /// The end of a statement.
    Semicolon,
    /// Any other byte.
    Unknown,
}

/// Whether a token is a minus, if it is a sign.
pub fn sign_of(token: Option<Token>) -> Option<bool>
    ensures { IsOf Sign token result }
{
    match token {
        Some(Token::Sign { minus }) => Some(minus),
        _ => None,
    }
}

/// The value of a token, if it is digits.
pub fn number_of(token: Option<Token>) -> Option<Option<u64>>
    ensures { IsOf Number token result }
{
    match token {
        Some(Token::Number { value }) => Some(value),
        _ => None,
    }
}

/// The relation of a token, if it is one.
pub fn relation_of(token: Option<Token>) -> Option<Rel>
    ensures { IsOf Relation token result }
{
    match token {
        Some(Token::Relation { rel }) => Some(rel),
        _ => None,
    }
}

/// Whether a token begins a literal, well spelled or not.
pub fn begins_literal(token: Option<Token>) -> bool
    ensures { result ≡ begins_literal token }
{
    matches!(token, Some(Token::Literal { .. } | Token::Misspelled))
}

/// Whether a token begins a term, well spelled or not.
pub fn begins_term(token: Option<Token>) -> bool
    ensures { result ≡ begins_term token }
{
    match token {
        Some(Token::Sign { .. } | Token::Number { .. }) => true,
        _ => begins_literal(token),
    }
}

/// Whether a token begins a constraint: it begins a term, or is a relation.
pub fn begins_row(token: Token) -> bool
    ensures { result ≡ begins_row token }
{
    match token {
        Token::Relation { .. } => true,
        _ => begins_term(Some(token)),
    }
}
