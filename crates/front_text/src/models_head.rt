// The lines that count.
ghost use Rattle.front_text.specs.ModelsReading.{TakesHead, TakesKind, TakesKindText};

use crate::cursor::Cursor;
use crate::head::count_of;

/// What an entry's first line says. A count above 2^64 - 1 stands here as that, which no text reaches.
#[derive(Clone, Copy)]
pub(crate) struct Kind {
    pub(crate) all: bool,
    pub(crate) count: u64,
}

/// Takes the first line: its count; `None` where the rest begins with no such line.
pub(crate) fn take_head(cursor: &mut Cursor<'_>) -> Option<u64>
    ensures { TakesHead cursor.old cursor.new result }
{
    if !cursor.skip(b"s MODELS ") {
        return None;
    }
    let count = count_of(cursor.take_word())?;
    if !cursor.skip(b"\n") {
        return None;
    }
    Some(count)
}

/// Takes an entry's first line; `None` where the rest begins with none.
pub(crate) fn take_kind(cursor: &mut Cursor<'_>) -> Option<Kind>
    ensures { TakesKind cursor.old cursor.new result }
{
    let all = take_kind_text(cursor)?;
    let count = count_of(cursor.take_word())?;
    if !cursor.skip(b"\n") {
        return None;
    }
    Some(Kind { all, count })
}

// Takes the words before the count: whether the models are to be all.
fn take_kind_text(cursor: &mut Cursor<'_>) -> Option<bool>
    ensures { TakesKindText cursor.old cursor.new result }
{
    if cursor.skip(b"e ALL ") {
        return Some(true);
    }
    if cursor.skip(b"e FIRST ") {
        return Some(false);
    }
    None
}
