// The token that a line begins with.
ghost use Rattle.std.specs.Prelude.{ℕ, List, ◌≡◌, ◌<◌, ◌≤◌, [], ◌∷◌, not, length, slice_index, MatchOption, true, false};
ghost use Rattle.std.specs.List.{position_or_len};
ghost use Rattle.std.specs.Char.{is_ascii_digit};
ghost use Rattle.scut_base.specs.Number.{IsNatural};
ghost use Rattle.instance.specs.declared.objective.Sense.{Sense};
ghost use Rattle.mopb_reader.specs.Lexemes.{Other, Digits, is_blank, lexemes_of, with_x, with_tilde, with_m, with_greater, with_less};
ghost use Rattle.mopb_reader.specs.Tokens.{small_value};
ghost use Rattle.mopb_reader.specs.Cuts.{HasFront, BeginsWithDigits, HasVariable, BeginsNoDigits, BeginsNoHead, LeavesX, IsNotBefore, after_m};

use crate::token::Token;
use instance::{MAX_MAGNITUDE, Rel, Sense};
use scut_base::read_u64;

/// The token that a line begins with, and what follows it.
pub fn cut_token(line: &[u8]) -> (Token, &[u8])
    requires some { 0 < length line.now }
    requires token { is_blank (slice_index line.now 0) ≡ false }
    ensures { HasFront (lexemes_of line.entry.now) result.0 result.1.now }
{
    let byte = line[0];
    if byte.is_ascii_digit() {
        return cut_number(line);
    }
    let rest = &line[1..];
    match byte {
        b'x' => cut_positive(rest),
        b'~' => cut_negative(rest),
        b'm' => cut_head(rest),
        b'>' => cut_greater(rest),
        b'<' => cut_less(rest),
        b'=' => (Token::Relation { rel: Rel::Equal }, rest),
        b'+' => (Token::Sign { minus: false }, rest),
        b'-' => (Token::Sign { minus: true }, rest),
        b';' => (Token::Semicolon, rest),
        _ => (Token::Unknown, rest),
    }
}

// A run of digits.
fn cut_number(line: &[u8]) -> (Token, &[u8])
    requires some { 0 < length line.now }
    requires digit { is_ascii_digit (slice_index line.now 0) ≡ true }
    ensures { HasFront (lexemes_of line.entry.now) result.0 result.1.now }
{
    let (digits, rest) = cut_digits(line);
    let value = value_of(digits);
    (Token::Number { value }, rest)
}

// What follows an `x`.
fn cut_positive(text: &[u8]) -> (Token, &[u8])
    ensures { HasFront (with_x (lexemes_of text.entry.now)) result.0 result.1.now }
{
    match cut_variable(text) {
        Some((var, rest)) => (Token::Literal { var, neg: false }, rest),
        None => (Token::Misspelled, text),
    }
}

// What follows a `~`.
fn cut_negative(text: &[u8]) -> (Token, &[u8])
    ensures { HasFront (with_tilde (lexemes_of text.entry.now)) result.0 result.1.now }
{
    match after_byte(text, b'x') {
        Some(after) => cut_negated(text, after),
        None => (Token::Misspelled, text),
    }
}

// What follows a `~`, where an `x` does, with what follows that.
fn cut_negated<'a>(text: &'a [u8], after: &'a [u8]) -> (Token, &'a [u8])
    requires { text.now ≡ 120 ∷ after.now }
    ensures { HasFront (with_tilde (lexemes_of text.entry.now)) result.0 result.1.now }
{
    match cut_variable(after) {
        Some((var, rest)) => (Token::Literal { var, neg: true }, rest),
        None => (Token::Misspelled, text),
    }
}

// What follows an `m`.
fn cut_head(text: &[u8]) -> (Token, &[u8])
    ensures { HasFront (with_m (lexemes_of text.entry.now)) result.0 result.1.now }
{
    match after_head(text) {
        Some((sense, rest)) => (Token::Head { sense }, rest),
        None => (Token::Unknown, text),
    }
}

// What follows a `>`.
fn cut_greater(text: &[u8]) -> (Token, &[u8])
    ensures { HasFront (with_greater (lexemes_of text.entry.now)) result.0 result.1.now }
{
    match after_byte(text, b'=') {
        Some(rest) => (Token::Relation { rel: Rel::AtLeast }, rest),
        None => (Token::Unknown, text),
    }
}

// What follows a `<`.
fn cut_less(text: &[u8]) -> (Token, &[u8])
    ensures { HasFront (with_less (lexemes_of text.entry.now)) result.0 result.1.now }
{
    match after_byte(text, b'=') {
        Some(rest) => (Token::Relation { rel: Rel::AtMost }, rest),
        None => (Token::Unknown, text),
    }
}

// The sense of a head that the text goes on with after its `m`, if it does, and what follows it.
fn after_head(text: &[u8]) -> Option<(Sense, &[u8])>
    ensures { MatchOption result (BeginsNoHead text.entry.now)
        (λ r. text.entry.now ≡ after_m r.0 r.1.now) }
{
    match text {
        [b'i', b'n', b':', rest @ ..] => Some((Sense::Min, rest)),
        [b'a', b'x', b':', rest @ ..] => Some((Sense::Max, rest)),
        _ => None,
    }
}

// What follows a byte, if the text begins with it.
fn after_byte(text: &[u8], byte: u8) -> Option<&[u8]>
    ensures { MatchOption result (IsNotBefore byte text.entry.now)
        (λ rest. text.entry.now ≡ byte ∷ rest.now) }
{
    match text {
        [first, rest @ ..] if *first == byte => Some(rest),
        _ => None,
    }
}

// Digits of a value of at least 1, if the text begins with them, and what follows them.
fn cut_variable(text: &[u8]) -> Option<(Option<u64>, &[u8])>
    ensures { MatchOption result (LeavesX text.entry.now)
        (λ r. HasVariable text.entry.now r.0 r.1.now) }
{
    let (digits, rest) = cut_digits(text);
    if digits.is_empty() {
        return None;
    }
    match value_of(digits) {
        Some(0) => None,
        var => Some((var, rest)),
    }
}

// The digits that a text begins with, and what follows them.
fn cut_digits(text: &[u8]) -> (&[u8], &[u8])
    ensures none { result.0.now ≡ [] → BeginsNoDigits (lexemes_of text.entry.now) }
    ensures some { 0 < length result.0.now
        → BeginsWithDigits text.entry.now result.0.now result.1.now }
    ensures digits { 0 < length result.0.now → IsNatural result.0.now }
    ensures first { 0 < length text.entry.now
        → is_ascii_digit (slice_index text.entry.now 0) ≡ true → 0 < length result.0.now }
{
    let end = digits_len(text);
    (&text[..end], &text[end..])
}

// How many digits a text begins with.
fn digits_len(text: &[u8]) -> usize
    ensures value { result ≡ position_or_len (λ b. not (is_ascii_digit b)) text.now }
    ensures within { result ≤ length text.now }
{
    text.iter()
        .position(|b| !b.is_ascii_digit())
        .unwrap_or(text.len())
}

// The value of digits, where it is below 2^63.
fn value_of(digits: &[u8]) -> Option<u64>
    requires { IsNatural digits.now }
    ensures { result ≡ small_value digits.now }
{
    match read_u64(digits) {
        Ok(value) if value <= MAX_MAGNITUDE => Some(value),
        _ => None,
    }
}
