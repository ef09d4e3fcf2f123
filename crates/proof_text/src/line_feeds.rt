// Line feeds in bytes.
ghost use Rattle.std.specs.Prelude.{◌≡◌, MatchOption, MatchBool};
ghost use Rattle.proof_text.specs.LogText.{IsOneLine, IsWholeLines, newlines};
ghost use Rattle.proof_text.specs.Cutting.{IsLineOf};

use memchr::memchr;

/// How many bytes stand before the first line feed; `None` where there is none.
pub fn line_len(bytes: &[u8]) -> Option<usize>
    ensures { MatchOption result (IsOneLine bytes.now) (IsLineOf bytes.now) }
{
    memchr(b'\n', bytes)
}

/// Whether there is nothing, or the last byte is a line feed.
pub fn ends_whole(bytes: &[u8]) -> bool
    ensures { MatchBool result (IsWholeLines bytes.now) (IsWholeLines bytes.now → ⊥) }
{
    match bytes.last() {
        Some(byte) => *byte == b'\n',
        None => true,
    }
}

/// How many line feeds there are.
pub fn count_line_feeds(bytes: &[u8]) -> usize
    ensures { result ≡ newlines bytes.now }
{
    let mut count = 0;
    for byte in bytes {
        if *byte == b'\n' {
            count += 1;
        }
    }
    count
}
