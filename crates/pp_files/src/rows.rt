//! Reads the numbers in the text of a line.
ghost use Rattle.std.specs.Prelude.{◌≡◌, ◌<◌, ◌≤◌, length, map, IfSome, IsTrue, MatchOption, All};
ghost use Rattle.std.specs.List.{list_all};
ghost use Rattle.pp_lines.specs.Words.{words};
ghost use Rattle.pp_arith.specs.Octal.{octal_value};
ghost use Rattle.pp_files.specs.Rows.{is_number};

use arrayvec::ArrayVec;
use pp_arith::read_octal;
use pp_lines::next_word;

/// The largest number in a file.
const MOST: u64 = 0o7777;

/// Returns whether all words of the text are octal and at most the largest number.
pub fn are_numbers(text: &[u8]) -> bool
    ensures { result ≡ list_all is_number (words text.now) }
{
    let mut rest = text;
    'words: while let Some((word, others)) = next_word(rest) {
        if read_octal(word, MOST).is_err() {
            return false;
        }
        rest = others;
    }
    true
}

/// Returns the numbers in the text, or `None` if there are more than `ROOM`.
pub fn numbers<const ROOM: usize>(text: &[u8]) -> Option<ArrayVec<u16, ROOM>>
    requires { IsTrue (list_all is_number (words text.now)) }
    ensures at_most { MatchOption result (ROOM < length (words text.now))
        (λ row. row.items ≡ map octal_value (words text.now)) }
    ensures short { IfSome result (λ row. length row.items ≤ ROOM) }
    ensures within { IfSome result (λ row. All (λ value. value < 0o10000) row.items) }
{
    let mut row = ArrayVec::new();
    let mut rest = text;
    'words: while let Some((word, others)) = next_word(rest) {
        if row.is_full() {
            return None;
        }
        row.push(read_octal(word, MOST).unwrap() as u16);
        rest = others;
    }
    Some(row)
}
