//! Parts of a line: its columns, and the blanks at its end.
ghost use Rattle.std.specs.Prelude.{◌≡◌, drop, take};
ghost use Rattle.pp_decks.specs.Blanks.{BLANKS, in_columns, is_among, length_without, without_end};

/// The column after the last one of a statement; what is there is a sequence number.
pub const LAST_COLUMN: usize = 72;

/// What is a blank at the end of a line.
const ENDS: &[u8; 10] = b"\t\n\x0b\x0c\r\x1c\x1d\x1e\x1f ";

/// Returns a line from a column on.
pub fn tail(line: &[u8], from: usize) -> &[u8]
    ensures { result.now ≡ drop from line.now }
{
    line.get(from..).unwrap_or(b"")
}

/// Returns a line up to a column.
fn head(line: &[u8], end: usize) -> &[u8]
    ensures { result.now ≡ take end line.now }
{
    line.get(..end).unwrap_or(line)
}

/// Returns whether a symbol is a blank, as at the end of a line.
pub fn is_space(symbol: u8) -> bool
    ensures { result ≡ is_among BLANKS symbol }
{
    matches!(symbol, b' ' | 0x09..=0x0d | 0x1c..=0x1f)
}

/// Returns whether a text has nothing but blanks.
pub fn is_empty(text: &[u8]) -> bool {
    text.iter().all(|symbol| is_space(*symbol))
}

/// Returns the length of a text without the symbols at its end that are among some.
fn length_without(ends: &[u8], text: &[u8]) -> usize
    ensures { result ≡ length_without ends.now text.now }
{
    for count in 0..text.len() {
        let end = text.len() - count;
        if !ends.contains(&text[end - 1]) {
            return end;
        }
    }
    0
}

/// Returns a text without the symbols at its end that are among some.
pub fn without_end<'a>(ends: &[u8], text: &'a [u8]) -> &'a [u8]
    ensures { result.now ≡ without_end ends.now text.now }
{
    text.get(..length_without(ends, text)).unwrap_or(text)
}

/// Returns the length of a text without the blanks at its end.
pub fn length_without_blanks(text: &[u8]) -> usize
    ensures { result ≡ length_without BLANKS text.now }
{
    length_without(ENDS, text)
}

/// Returns a text without the blanks at its end.
pub fn without_blanks(text: &[u8]) -> &[u8]
    ensures { result.now ≡ without_end BLANKS text.now }
{
    without_end(ENDS, text)
}

/// Returns the columns of a line that a statement has.
pub fn in_columns(line: &[u8]) -> &[u8]
    ensures { result.now ≡ in_columns line.now }
{
    head(line, LAST_COLUMN)
}
