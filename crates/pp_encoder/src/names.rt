//! The names of symbols.
ghost use Rattle.std.specs.Prelude.{◌≡◌, ◌≢◌, ◌⊎◌, ◌<◌, ◌+◌, ℕ, IfOk, IsTrue, length, slice_get, true};
ghost use Rattle.std.specs.List.{AllByRecursion, list_all};
ghost use Rattle.pp_meaning.specs.Lines.{symbol_name};
ghost use Rattle.pp_meaning.specs.Names.{AreNames, IsLast, begins, has_name_behind, is_behind_slash, is_fixed, is_full_name};
ghost use Rattle.pp_meaning.specs.Names.{is_name, is_renamed, is_sign, last_of};

use pp_meaning::{Symbol, Validity, may_qualify};
use std::alloc::{AllocError, Global};
use std::collections::BTreeMap;

/// How many characters a name has.
const LONGEST: usize = 8;

/// Returns whether a name may have a byte.
fn may_have(byte: u8) -> bool
    ensures { result ≡ is_sign byte }
{
    byte > 32 && !(40 <= byte && byte <= 45) && byte != 34 && byte != 47 && byte != 94 && byte != 95
}

/// Returns whether a text begins as a name does.
fn begins_so(name: &[u8]) -> bool
    ensures { result ≡ begins name.now }
{
    match name {
        [] => false,
        [first, ..] => !(48 <= *first && *first <= 57) && *first != 36 && *first != 61,
    }
}

/// Returns whether a name may have all bytes.
fn may_have_all(name: &[u8]) -> bool
    ensures { result ≡ list_all is_sign name.now }
{
    name.iter().all(|byte| may_have(*byte))
}

/// Returns whether a text is a name.
fn is_right(name: &[u8]) -> bool
    ensures { result ≡ is_name name.now }
{
    begins_so(name) && name.len() <= LONGEST && may_have_all(name)
}

/// Returns whether the rest of a qualifier and a name are behind the first / of a text.
fn is_name_behind(text: &[u8]) -> bool
    ensures { result ≡ has_name_behind text.now }
{
    let mut rest = text;
    while let [byte, behind @ ..] = rest {
        if *byte == b'/' {
            return is_right(behind);
        }
        if !may_qualify(*byte) {
            return false;
        }
        rest = behind;
    }
    false
}

/// Returns whether a qualifier, / and a name are behind the first / of a text.
fn is_right_behind_slash(text: &[u8]) -> bool
    ensures { result ≡ is_behind_slash text.now }
{
    match text {
        [] => false,
        [byte, rest @ ..] => may_qualify(*byte) && is_name_behind(rest),
    }
}

/// Returns whether a text is a name, which may have a qualifier.
fn is_right_in_full(name: &[u8]) -> bool
    ensures { result ≡ is_full_name name.now }
{
    match name {
        [] => false,
        [b'/', rest @ ..] => is_right_behind_slash(rest),
        _ => is_right(name),
    }
}

/// Returns whether all are names.
fn all_right(symbols: &[Symbol]) -> bool
    ensures { IsTrue result → AllByRecursion (λ symbol. is_full_name symbol.name.items ≡ true) symbols.now }
{
    for symbol in symbols {
        if !is_right_in_full(&symbol.name) {
            return false;
        }
    }
    true
}

/// Returns whether a symbol has its number everywhere.
fn is_fixed(validity: Validity) -> bool
    ensures { result ≡ is_fixed validity }
{
    matches!(validity, Validity::Fixed)
}

/// Returns whether the next symbol of the name of a symbol is at an index, or before.
fn has_next(symbols: &[Symbol], one: usize, index: usize) -> bool
    ensures { result ≡ is_renamed index (slice_get symbols.now one) }
{
    match symbols.get(one) {
        Some(symbol) => !is_fixed(symbol.validity) && symbol.next <= index,
        None => false,
    }
}

/// Returns the name of the symbol at an index.
fn name_of(symbols: &[Symbol], index: usize) -> &[u8]
    ensures { result.now ≡ symbol_name (slice_get symbols.now index) }
{
    match symbols.get(index) {
        Some(symbol) => &symbol.name,
        None => b"",
    }
}

/// Notes that a symbol is the last one of its name. Returns whether each one before it says that it is renamed by then.
fn note<'a>(
    last: &mut BTreeMap<&'a [u8], usize>,
    symbols: &'a [Symbol],
    index: usize,
) -> Result<bool, AllocError>
    requires { IsLast symbols.now (last_of last.old) index }
    ensures last { IfOk result (λ yes. IsTrue yes → IsLast symbols.now (last_of last.new) (index + 1)) }
    ensures different { IfOk result (λ yes. IsTrue yes → (i : ℕ) → i < index →
        (symbol_name (slice_get symbols.now i) ≢ symbol_name (slice_get symbols.now index))
        ⊎ (is_renamed index (slice_get symbols.now i) ≡ true)) }
{
    match last.insert(name_of(symbols, index), index)? {
        None => Ok(true),
        Some(before) => Ok(has_next(symbols, before, index)),
    }
}

/// Returns whether no two symbols are one.
fn all_new(alloc: Global, symbols: &[Symbol]) -> Result<bool, AllocError>
    ensures { IfOk result (λ yes. IsTrue yes → (i j : ℕ) → i < j → j < length symbols.now →
        (symbol_name (slice_get symbols.now i) ≢ symbol_name (slice_get symbols.now j))
        ⊎ (is_renamed j (slice_get symbols.now i) ≡ true)) }
{
    let mut last: BTreeMap<&[u8], usize> = BTreeMap::new(alloc);
    for index in 0..symbols.len() {
        if !note(&mut last, symbols, index)? {
            return Ok(false);
        }
    }
    Ok(true)
}

/// Returns whether the names of symbols are names, and no two are one.
pub fn are_names(alloc: Global, symbols: &[Symbol]) -> Result<bool, AllocError>
    ensures { IfOk result (λ yes. IsTrue yes → AreNames symbols.now) }
{
    if !all_right(symbols) {
        return Ok(false);
    }
    all_new(alloc, symbols)
}
