//! How names are written.
ghost use Rattle.std.specs.Prelude.{◌≡◌, ◌≤◌, IfSome, length, not, option_map};
ghost use Rattle.std.specs.List.{prefix_len};
ghost use Rattle.pp_source.specs.Names.{begins_name, ends_name, full_name, is_joined, name_size};

use crate::wordings::Wording;
use pp_decks::tail;

/// How many characters a symbol has.
const LONGEST: usize = 8;

/// Returns whether a name may begin with a symbol.
fn begins_name(symbol: u8) -> bool
    ensures { result ≡ begins_name symbol }
{
    symbol.is_ascii_uppercase() || b".#%@&!?<>[];\\':".contains(&symbol)
}

/// Returns whether a symbol ends a name.
fn ends_name(symbol: u8) -> bool
    ensures { result ≡ ends_name symbol }
{
    symbol.is_ascii_lowercase() || b"\t\n\x0b\x0c\r +-*/,^\"()_".contains(&symbol)
}

/// Returns how many symbols of a text are before one that ends a name.
fn size_before_end(text: &[u8]) -> usize
    ensures at_most { result ≤ length text.now }
    ensures found { result ≡ prefix_len (λ d. not (ends_name d)) text.now }
{
    text.iter()
        .take_while(|symbol| !ends_name(**symbol))
        .count()
}

/// Returns how many symbols the name has that a text begins with, if it does.
pub fn name_size(text: &[u8]) -> Option<usize>
    ensures at_most { IfSome result (λ size. size ≤ length text.now) }
    ensures found { result ≡ name_size text.now }
{
    match text {
        [first, rest @ ..] if begins_name(*first) => Some(1 + size_before_end(rest)),
        _ => None,
    }
}

/// Returns the column after the name that begins at a column, if one does.
pub fn end_of_name(text: &[u8], at: usize) -> Option<usize> {
    name_size(tail(text, at))?.checked_add(at)
}

/// Returns what is wrong with a name as a symbol, if something is.
pub fn wrong_symbol(name: &[u8]) -> Option<Wording> {
    if end_of_name(name, 0) == Some(name.len()) {
        return (name.len() > LONGEST).then_some(Wording::LongSymbol);
    }
    match name {
        [b'$' | b'=' | b'0'..=b'9', ..] => Some(Wording::WrongFirstSymbol),
        _ => Some(Wording::WrongSymbol),
    }
}

/// Returns whether a text is a name after a prefix.
pub fn is_joined(text: &[u8], prefix: &[u8], name: &[u8]) -> bool
    ensures { result ≡ is_joined text.now prefix.now name.now }
{
    match text.split_at_checked(prefix.len()) {
        Some((first, rest)) => first == prefix && rest == name,
        None => false,
    }
}

/// Returns the key of a name that is written in full, with its qualifier, or // before it if it has none.
pub fn full_name(name: &[u8]) -> Option<&[u8]>
    ensures { option_map (λ x. x.now) result ≡ full_name name.now }
{
    match name {
        [b'/', b'/', rest @ ..] => Some(rest),
        [b'/', ..] => Some(name),
        _ => None,
    }
}
