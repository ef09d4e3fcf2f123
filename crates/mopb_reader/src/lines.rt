// The lines of a text, from first to last.
ghost use Rattle.std.specs.Prelude.{ℕ, ◌≡◌, ◌==◌, ◌≤◌, ◌+◌, not, length, option_map};
ghost use Rattle.std.specs.List.{position_or_len};
ghost use Rattle.mopb_reader.specs.Lexemes.{is_blank};
ghost use Rattle.mopb_reader.specs.Tokens.{is_comment, lines_of, numbered_tokens, tokens_in, tokens_in_line};
ghost use Rattle.mopb_reader.specs.Cuts.{rest_size, BeginsNoBlank};
ghost use Rattle.mopb_reader.specs.Streams.{HasTokens, lines_after};

/// The first line of a text from its first token on, and what follows its line feed, if it has one.
pub fn first_line(text: &[u8]) -> (&[u8], Option<&[u8]>)
    ensures same { HasTokens text.entry.now result.0.now (option_map (λ r. r.now) result.1) }
    ensures lines { lines_after (option_map (λ r. r.now) result.1) + 1 ≡ length
        (lines_of text.entry.now) }
    ensures at_token { BeginsNoBlank result.0.now }
    ensures less { rest_size (option_map (λ r. r.now) result.1) ≤ length text.entry.now }
{
    let end = line_len(text);
    let line = content(&text[..end]);
    if end < text.len() {
        return (line, Some(&text[end + 1..]));
    }
    (line, None)
}

// A line from its first token on; of a comment nothing is left.
fn content(line: &[u8]) -> &[u8]
    ensures same { tokens_in result.now ≡ tokens_in_line line.entry.now }
    ensures at_token { BeginsNoBlank result.now }
{
    let text = skip_blanks(line);
    match text {
        [b'*', ..] => &text[..0],
        _ => text,
    }
}

/// The line from its first byte other than a blank on.
pub fn skip_blanks(line: &[u8]) -> &[u8]
    ensures same { tokens_in result.now ≡ tokens_in line.entry.now }
    ensures comment { is_comment result.now ≡ is_comment line.entry.now }
    ensures at_token { BeginsNoBlank result.now }
{
    let start = blanks_before(line);
    &line[start..]
}

// How many bytes stand before the first line feed.
fn line_len(text: &[u8]) -> usize
    ensures value { result ≡ position_or_len (λ b. b == 10) text.now }
    ensures within { result ≤ length text.now }
{
    text.iter().position(|b| *b == b'\n').unwrap_or(text.len())
}

// How many blanks a text begins with.
fn blanks_before(text: &[u8]) -> usize
    ensures value { result ≡ position_or_len (λ b. not (is_blank b)) text.now }
    ensures within { result ≤ length text.now }
{
    text.iter()
        .position(|b| !is_blank(*b))
        .unwrap_or(text.len())
}

// Whether a byte is a space, a tab or a carriage return.
fn is_blank(byte: u8) -> bool
    ensures { result ≡ is_blank byte }
{
    byte == b' ' || byte == b'\t' || byte == b'\r'
}
