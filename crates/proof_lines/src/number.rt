// What single words spell: numbers, ids, variables and literals.
ghost use Rattle.std.specs.Prelude.{◌≡◌, ◌≤◌, ◌<◌, ◌+◌, ◌*◌, ◌^◌, ◌↔◌, length, IsTrue, SomeIff};
ghost use Rattle.std.specs.Fmt.{decimal};
ghost use Rattle.proof_laws.specs.WellFormed.{IsId, IsVariable};
ghost use Rattle.proof_lines.specs.LineText.{literal_word, variable_word};
ghost use Rattle.proof_lines.specs.Reading.{IsNumber, IsPlain, IsValueOf, ReadsDigits};

use scut_base::Lit;

// Any number of so many digits fits 64 bits.
const NARROW_DIGITS: usize = 19;

// Ids and variables are at most this.
pub(crate) const MAX_ID: u64 = (1 << 63) - 1;

// Numbers are at most this.
const MAX_NUMBER: u128 = (1 << 127) - 1;

/// The number below 2^127 that a word spells, in decimal digits without a leading zero. One pass.
pub(crate) fn number_of(word: &[u8]) -> Option<u128>
    ensures { IsValueOf decimal IsNumber word.now result }
{
    if !is_plain(word) {
        return None;
    }
    if word.len() > NARROW_DIGITS {
        return wide(word);
    }
    let number = narrow(word)?;
    Some(u128::from(number))
}

/// The id below 2^63 whose digits a word are. One pass.
pub fn plain_id(word: &[u8]) -> Option<u64>
    ensures { IsValueOf decimal IsId word.now result }
{
    if word.len() > NARROW_DIGITS || !is_plain(word) {
        return None;
    }
    let id = narrow(word)?;
    if id > MAX_ID {
        return None;
    }
    Some(id)
}

/// The variable that a word spells, as in `x3`. One pass.
pub(crate) fn variable_of(word: &[u8]) -> Option<u64>
    ensures { IsValueOf variable_word IsVariable word.now result }
{
    let [b'x', digits @ ..] = word else {
        return None;
    };
    let var = plain_id(digits)?;
    if var == 0 {
        return None;
    }
    Some(var)
}

/// The literal that a word spells, as in `x3` or `~x3`. One pass.
pub(crate) fn literal_of(word: &[u8]) -> Option<Lit>
    ensures { IsValueOf literal_word (λ l. IsVariable l.var) word.now result }
{
    match word {
        [b'~', rest @ ..] => {
            let var = variable_of(rest)?;
            Some(Lit::new(var, true))
        }
        _ => {
            let var = variable_of(word)?;
            Some(Lit::new(var, false))
        }
    }
}

/// Whether a word isn't empty, and begins with no zero but in `0`.
pub(crate) fn is_plain(word: &[u8]) -> bool
    ensures { IsTrue result ↔ IsPlain word.now }
{
    match word {
        [] => false,
        [b'0', rest @ ..] => rest.is_empty(),
        _ => true,
    }
}

// The number that few digits spell. None of the sums overflows.
fn narrow(word: &[u8]) -> Option<u64>
    requires { length word.now ≤ 19 }
    ensures { ReadsDigits (10 ^ 19) word.now result }
{
    let mut number = 0u64;
    for byte in word {
        if !byte.is_ascii_digit() {
            return None;
        }
        number = number * 10 + u64::from(*byte - b'0');
    }
    Some(number)
}

// The number below 2^127 that digits spell.
fn wide(word: &[u8]) -> Option<u128>
    ensures { ReadsDigits (2 ^ 127) word.now result }
{
    let mut number = 0u128;
    for byte in word {
        if !byte.is_ascii_digit() {
            return None;
        }
        number = with_digit(number, *byte - b'0')?;
    }
    Some(number)
}

// The number with one digit more, where it is below 2^127 still.
fn with_digit(number: u128, digit: u8) -> Option<u128>
    ensures { SomeIff result (number * 10 + digit < 2 ^ 127) (number * 10 + digit) }
{
    let more = number.checked_mul(10)?.checked_add(u128::from(digit))?;
    if more > MAX_NUMBER {
        return None;
    }
    Some(more)
}
