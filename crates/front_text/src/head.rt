// The head line of a list.
ghost use Rattle.front_text.specs.Spelling.{kind_text};
ghost use Rattle.front_text.specs.Reading.{Takes, TakesHead, IsCountOf};

use crate::cursor::Cursor;
use scut_base::{NumberFault, read_u64};

/// What a head line says. A count above 2^64 - 1 stands here as that, which no text reaches.
#[derive(Clone, Copy)]
pub(crate) struct Head {
    pub(crate) complete: bool,
    pub(crate) count: u64,
}

/// Takes a head line; `None` where the rest begins with none.
pub(crate) fn read_head(cursor: &mut Cursor<'_>) -> Option<Head>
    ensures { TakesHead cursor.old cursor.new result }
{
    let complete = read_kind(cursor)?;
    let count = count_of(cursor.take_word())?;
    if !cursor.skip(b"\n") {
        return None;
    }
    Some(Head { complete, count })
}

// Takes the words before the count: whether the list claims to be complete.
fn read_kind(cursor: &mut Cursor<'_>) -> Option<bool>
    ensures { Takes kind_text (λ _. Unit {0}) cursor.old cursor.new result }
{
    if cursor.skip(b"s COMPLETE ") {
        return Some(true);
    }
    if cursor.skip(b"s INCOMPLETE ") {
        return Some(false);
    }
    None
}

/// The count that digits with no leading zero spell; one above 2^64 - 1 stands as that, which no text reaches.
pub fn count_of(digits: &[u8]) -> Option<u64>
    ensures { IsCountOf digits.now result }
{
    if digits.len() > 1 && digits[0] == b'0' {
        return None;
    }
    match read_u64(digits) {
        Ok(count) => Some(count),
        Err(NumberFault::TooWide) => Some(u64::MAX),
        Err(NumberFault::NotDigits) => None,
    }
}
