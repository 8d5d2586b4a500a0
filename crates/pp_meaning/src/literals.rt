//! Words that operands name by what they are.
ghost use Rattle.std.specs.Prelude.{◌≡◌, IfOk, IfSome, IsTrue, Some, bytes_eq, length, slice_get, true};
ghost use Rattle.pp_meaning.specs.Literals.{are_placed, has_words, index_from, index_of, is_at, words_of_literals};

use crate::expressions::Literal;
use std::alloc::{AllocError, Global};

/// Returns whether two lists of words are the same.
fn are_same(words: &[u32], others: &[u32]) -> bool
    ensures { result ≡ bytes_eq words.now others.now }
{
    words == others
}

/// Returns the index of the literal with these words.
pub fn find(literals: &[Literal], words: &[u32]) -> Option<usize>
    ensures { IfSome result (λ index. index_of literals.now (Some words.now) ≡ Some index) }
{
    let mut index: usize = 0;
    for literal in literals {
        if are_same(&literal.words, words) {
            return Some(index);
        }
        index = index.checked_add(1)?;
    }
    None
}

/// Returns whether the literal at an index is at an address.
pub fn is_literal_at(literals: &[Literal], index: usize, address: usize) -> bool
    ensures { result ≡ is_at address (slice_get literals.now index) }
{
    match literals.get(index) {
        Some(literal) => literal.address == address,
        None => false,
    }
}

/// Returns whether literals follow one another.
pub fn follow_one_another(literals: &[Literal], first: usize) -> bool
    ensures { IsTrue result → are_placed first literals.now ≡ true }
{
    let mut address = first;
    for literal in literals {
        if literal.address != address {
            return false;
        }
        match address.checked_add(literal.words.len()) {
            Some(next) => address = next,
            None => return false,
        }
    }
    true
}

/// Returns how many words literals have.
pub fn size_of_all(literals: &[Literal]) -> Option<usize>
    ensures { IfSome result (λ size. size ≡ length (words_of_literals literals.now)) }
{
    let mut size: usize = 0;
    for literal in literals {
        size = size.checked_add(literal.words.len())?;
    }
    Some(size)
}

/// Returns the words of literals.
pub fn words_in(alloc: Global, literals: &[Literal]) -> Result<Vec<u32>, AllocError>
    ensures { IfOk result (λ words. words.items ≡ words_of_literals literals.now) }
{
    let mut words = Vec::new(alloc);
    for literal in literals {
        words.extend_from_slice(&literal.words)?;
    }
    Ok(words)
}
