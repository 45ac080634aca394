//! What a line of settings begins with.
ghost use Rattle.std.specs.Prelude.{◌≡◌, option_map};
ghost use Rattle.xdp_load.specs.Lines.{begins_with_one, behind, behind_key, has_key, has_quoted, is_blank, is_closed};
ghost use Rattle.xdp_load.specs.Lines.{is_header, is_pair, is_row, is_table, opens, skip_blanks};

/// Returns whether a byte is TOML's white space.
fn is_blank(byte: u8) -> bool
    ensures { result ≡ is_blank byte }
{
    byte == b' ' || byte == b'\t'
}

/// A text without the white space at its start.
fn skip_blanks(text: &[u8]) -> &[u8]
    ensures { result.now ≡ skip_blanks text.now }
{
    for i in 0..text.len() {
        if !is_blank(text[i]) {
            return &text[i..];
        }
    }
    &[]
}

/// Returns what stands behind a word.
fn behind<'a>(word: &[u8], text: &'a [u8]) -> Option<&'a [u8]>
    ensures { option_map (λ t. t.now) result ≡ behind word.now text.now }
{
    text.strip_prefix(word)
}

/// Returns what stands behind a key in such quotes.
fn behind_key<'a>(quote: &[u8], key: &[u8], text: &'a [u8]) -> Option<&'a [u8]>
    ensures { option_map (λ t. t.now) result ≡ behind_key quote.now key.now text.now }
{
    let inside = behind(quote, text)?;
    let ended = behind(key, inside)?;
    behind(quote, ended)
}

/// Returns whether a text begins with one of those bytes.
fn begins_with_one(ends: &[u8], text: &[u8]) -> bool
    ensures { result ≡ begins_with_one ends.now text.now }
{
    match text.first() {
        Some(byte) => ends.contains(byte),
        None => false,
    }
}

/// Returns whether a text begins with a key in such quotes, and one of those bytes follows.
fn has_quoted(ends: &[u8], key: &[u8], text: &[u8], quote: &[u8]) -> bool
    ensures { result ≡ has_quoted ends.now key.now text.now quote.now }
{
    match behind_key(quote, key, text) {
        Some(rest) => begins_with_one(ends, skip_blanks(rest)),
        None => false,
    }
}

/// Returns whether a text begins with a key, bare or in quotes, and one of those bytes follows.
fn has_key(ends: &[u8], key: &[u8], text: &[u8]) -> bool
    ensures { result ≡ has_key ends.now key.now text.now }
{
    has_quoted(ends, key, text, b"")
        || has_quoted(ends, key, text, b"'")
        || has_quoted(ends, key, text, b"\"")
}

/// Returns whether a line begins so, then has a key, and one of those bytes follows.
fn opens(opening: &[u8], ends: &[u8], key: &[u8], line: &[u8]) -> bool
    ensures { result ≡ opens opening.now ends.now key.now line.now }
{
    match behind(opening, skip_blanks(line)) {
        Some(rest) => has_key(ends, key, skip_blanks(rest)),
        None => false,
    }
}

/// Returns whether a line has a key and its value.
pub fn is_pair(key: &str, line: &str) -> bool
    ensures { result ≡ is_pair key.now line.now }
{
    opens(b"", b"=.", key.as_bytes(), line.as_bytes())
}

/// Returns whether a line is the header of a list's row.
pub fn is_row(name: &str, line: &str) -> bool
    ensures { result ≡ is_row name.now line.now }
{
    opens(b"[[", b"]", name.as_bytes(), line.as_bytes())
}

/// Returns whether a line is the header of a table or of a list's row.
pub fn is_table(name: &str, line: &str) -> bool
    ensures { result ≡ is_table name.now line.now }
{
    opens(b"[", b"].", name.as_bytes(), line.as_bytes())
        || opens(b"[[", b"].", name.as_bytes(), line.as_bytes())
}

/// Returns whether `]` comes before any comma.
fn is_closed(text: &[u8]) -> bool
    ensures { result ≡ is_closed text.now }
{
    match text.iter().find(|byte| **byte == b']' || **byte == b',') {
        Some(byte) => *byte == b']',
        None => false,
    }
}

/// Returns whether a line is any header.
pub fn is_header(line: &str) -> bool
    ensures { result ≡ is_header line.now }
{
    match behind(b"[", skip_blanks(line.as_bytes())) {
        Some(rest) => is_closed(rest),
        None => false,
    }
}
