// The first line of a log (DECISIONS, first-line).
ghost use Rattle.std.specs.Prelude.{◌≢◌, ◌≤◌, ◌^◌, ◌++◌, [], MatchBool};
ghost use Rattle.std.specs.Fmt.{decimal};
ghost use Rattle.scut_base.specs.Files.{IsPrefixOf};
ghost use Rattle.proof_lines.specs.Reading.{IsValueOf};
ghost use Rattle.proof_text.specs.Cutting.{IsOpening, rows_words};

use crate::line_feeds::line_len;
use proof_lines::{Spelling, plain_id};

/// What a log begins with.
#[derive(Clone, Copy, Debug, PartialEq, Eq)]
pub enum Opening {
    /// A part of a header, or the whole of one without its line feed.
    Missing,
    /// A header of so many bytes, without its line feed, and how the first line after it spells its ids.
    There { first: Spelling, len: usize },
    /// Something else.
    Wrong,
}

// The header of version 1, and that of version 2 before its number.
const HEADER_ONE: &[u8] = b"scuttle proof version 1\n";

const HEADER_TWO: &[u8] = b"scuttle proof version 2 rows ";

// A problem has at most so many rows.
const MAX_ROWS: u64 = 1 << 34;

/// What a log begins with whose first bytes are these. Looks at the first line alone.
pub fn opening_of(bytes: &[u8]) -> Opening
    ensures { IsOpening result bytes.now }
{
    if begins_with(bytes, HEADER_ONE) {
        return Opening::There {
            first: Spelling::Plain,
            len: 23,
        };
    }
    if begins_with(&HEADER_ONE[..23], bytes) || begins_with(HEADER_TWO, bytes) {
        return Opening::Missing;
    }
    if begins_with(bytes, HEADER_TWO) {
        return opening_of_rows(&bytes[29..]);
    }
    Opening::Wrong
}

// The same of bytes that follow the words before the number of rows.
fn opening_of_rows(rest: &[u8]) -> Opening
    requires { rest.now ≢ [] }
    ensures { IsOpening result (rows_words ++ rest.now) }
{
    match line_len(rest) {
        Some(len) => match rows_of(&rest[..len]) {
            Some(rows) => Opening::There {
                first: Spelling::Relative {
                    rows,
                    next_id: rows + 1,
                },
                len: 29 + len,
            },
            None => Opening::Wrong,
        },
        None => match rows_of(rest) {
            Some(_) => Opening::Missing,
            None => Opening::Wrong,
        },
    }
}

// The number of rows whose digits a word are.
fn rows_of(word: &[u8]) -> Option<u64>
    ensures { IsValueOf decimal (λ rows. rows ≤ 2 ^ 34) word.now result }
{
    let rows = plain_id(word)?;
    if rows > MAX_ROWS {
        return None;
    }
    Some(rows)
}

fn begins_with(bytes: &[u8], prefix: &[u8]) -> bool
    ensures { MatchBool result (IsPrefixOf prefix.now bytes.now)
        (IsPrefixOf prefix.now bytes.now → ⊥) }
{
    bytes.starts_with(prefix)
}
