// Numbers from text.
ghost use Rattle.std.specs.Prelude.{ℕ, ◌≡◌, ◌+◌, ◌*◌, ◌≤◌, ◌^◌, FitsSigned, SomeIff, Option};
ghost use Rattle.std.specs.Int.{w64, w128};
ghost use Rattle.std.specs.Str.Parse.{starts_with_minus};
ghost use Rattle.scut_base.specs.Number.{magnitude_text, signed_value, ReadsNatural, ReadsInteger, Keeps};

use thiserror::Error;

/// Why a text was not read as a number.
#[derive(Clone, Copy, Debug, PartialEq, Eq, Error)]
pub enum NumberFault {
    /// It isn't one or more decimal digits, after one optional minus in the signed forms.
    #[error("decimal digits were expected")]
    NotDigits,
    /// It is, and its value doesn't fit.
    #[error("the number is too wide")]
    TooWide,
}

/// Reads decimal digits as a number below 2^64. Leading zeros are accepted, signs are not. One pass.
pub fn read_u64(text: &[u8]) -> Result<u64, NumberFault>
    ensures { ReadsNatural result (2 ^ 64) text.now }
{
    if text.is_empty() {
        return Err(NumberFault::NotDigits);
    }
    let mut value = Some(0u64);
    for byte in text {
        if !byte.is_ascii_digit() {
            return Err(NumberFault::NotDigits);
        }
        value = narrow_with_digit(value, *byte - b'0');
    }
    value.ok_or(NumberFault::TooWide)
}

/// Reads decimal digits, after one optional minus, as a number of 64 bits. One pass.
pub fn read_i64(text: &[u8]) -> Result<i64, NumberFault>
    ensures { ReadsInteger result (FitsSigned w64) text.now }
{
    let (negative, digits) = split_sign(text);
    let magnitude = i128::from(read_u64(digits)?);
    let value = if negative { -magnitude } else { magnitude };
    match i64::try_from(value) {
        Ok(value) => Ok(value),
        Err(_) => Err(NumberFault::TooWide),
    }
}

/// Reads decimal digits, after one optional minus, as a number of 128 bits. One pass.
pub fn read_i128(text: &[u8]) -> Result<i128, NumberFault>
    ensures { ReadsInteger result (FitsSigned w128) text.now }
{
    let (negative, digits) = split_sign(text);
    let magnitude = read_u128(digits)?;
    match signed(negative, magnitude) {
        Some(value) => Ok(value),
        None => Err(NumberFault::TooWide),
    }
}

// Whether the text begins with a minus, and what follows it.
fn split_sign(text: &[u8]) -> (bool, &[u8])
    ensures negative { result.0 ≡ starts_with_minus text.entry.now }
    ensures rest { result.1.now ≡ magnitude_text text.entry.now }
{
    match text {
        [b'-', rest @ ..] => (true, rest),
        _ => (false, text),
    }
}

// The number of a sign and a magnitude, where it fits.
fn signed(negative: bool, magnitude: u128) -> Option<i128>
    ensures { SomeIff result (FitsSigned w128 (signed_value negative magnitude))
        (signed_value negative magnitude) }
{
    if !negative {
        return i128::try_from(magnitude).ok();
    }
    if magnitude == 1 << 127 {
        return Some(i128::MIN);
    }
    match i128::try_from(magnitude) {
        Ok(value) => Some(-value),
        Err(_) => None,
    }
}

// Decimal digits as a number of 128 bits.
fn read_u128(text: &[u8]) -> Result<u128, NumberFault>
    ensures { ReadsNatural result (2 ^ 128) text.now }
{
    if text.is_empty() {
        return Err(NumberFault::NotDigits);
    }
    let mut value = Some(0u128);
    for byte in text {
        if !byte.is_ascii_digit() {
            return Err(NumberFault::NotDigits);
        }
        value = wide_with_digit(value, *byte - b'0');
    }
    value.ok_or(NumberFault::TooWide)
}

// The running value with one digit more.
fn narrow_with_digit(value: Option<u64>, digit: u8) -> Option<u64>
    ensures { (n : ℕ) → Keeps (2 ^ 64) value n → Keeps (2 ^ 64) result (n * 10 + digit) }
{
    value?.checked_mul(10)?.checked_add(u64::from(digit))
}

// The same of 128 bits.
fn wide_with_digit(value: Option<u128>, digit: u8) -> Option<u128>
    ensures { (n : ℕ) → Keeps (2 ^ 128) value n → Keeps (2 ^ 128) result (n * 10 + digit) }
{
    value?.checked_mul(10)?.checked_add(u128::from(digit))
}
