//! An index of names, by a number that is made of their bytes.
ghost use Rattle.std.specs.Prelude.{◌≡◌, ℕ, ◌∷◌, ◌++◌, List, [], None, fold, is_ok, length, slice_index_or, if◌then◌else◌};
ghost use Rattle.std.specs.BTreeMap.{get};
ghost use Rattle.std.specs.Ordering.{nat_cmp};
ghost use Rattle.pp_source.specs.Index.{IsIndex, number_of, with_byte};

use std::alloc::{AllocError, Global};
use std::collections::BTreeMap;

/// The numbers that are made of names: an offset and a prime, of FNV-1a.
const OFFSET: u64 = 0xcbf2_9ce4_8422_2325;

const PRIME: u64 = 0x0100_0000_01b3;

/// Which names, counted from 0, may be one that is looked for.
#[derive(Drop)]
pub struct Index {
    /// The last name with a number.
    last: BTreeMap<u64, usize>,
    /// Of each name the one before it with the same number.
    before: Vec<Option<usize>>,
}

/// Returns the number of a name that is a prefix and what follows it.
#[tactic(auto, unfolding(crate::specs::Index::number_of))]
pub fn number_of_name(prefix: &[u8], rest: &[u8]) -> u64
    ensures { result ≡ number_of (prefix.now ++ rest.now) }
{
    with_bytes(with_bytes(OFFSET, prefix), rest)
}

fn with_bytes(first: u64, bytes: &[u8]) -> u64
    ensures { result ≡ fold with_byte first bytes.now }
{
    let mut number = first;
    for byte in bytes {
        number = (number ^ u64::from(*byte)).wrapping_mul(PRIME);
    }
    number
}

impl Index {
    pub fn new(alloc: Global) -> Self
        ensures { IsIndex [] result.last result.before.items }
    {
        Index {
            last: BTreeMap::new(alloc),
            before: Vec::new(alloc),
        }
    }

    /// Adds the next name, which has a number.
    pub fn add(&mut self, number: u64) -> Result<(), AllocError>
        ensures { (numbers : List ℕ) → IsIndex numbers self.old.last self.old.before.items →
            IsIndex (if is_ok result then numbers ++ number ∷ [] else numbers) self.new.last self.new.before.items }
    {
        let at = self.before.len();
        let before = self.last(number);
        self.before.push(before)?;
        match self.last.insert(number, at) {
            Ok(_) => Ok(()),
            Err(failed) => {
                let _ = self.before.pop();
                Err(failed.into())
            }
        }
    }

    /// Forgets all names.
    pub fn clear(&mut self)
        ensures { IsIndex [] self.new.last self.new.before.items }
    {
        self.last.clear();
        self.before.clear();
    }

    /// Returns how many names there are.
    pub fn len(&self) -> usize
        ensures { result ≡ length self.now.before.items }
    {
        self.before.len()
    }

    /// Returns the last name with a number.
    pub fn last(&self, number: u64) -> Option<usize>
        ensures { result ≡ get nat_cmp self.now.last number }
    {
        self.last.get(&number).copied()
    }

    /// Returns the name before another one that has the same number.
    pub fn before(&self, name: usize) -> Option<usize>
        ensures { result ≡ slice_index_or self.now.before.items name None }
    {
        match self.before.get(name) {
            Some(before) => *before,
            None => None,
        }
    }

    /// Returns the last name with a number that passes a test.
    pub fn find<F: FnMut(usize) -> bool>(&self, number: u64, mut test: F) -> Option<usize>
        requires { (state : F) (x : _) → F.pre state x }
    {
        let mut next = self.last(number);
        for _ in 0..self.len() {
            let name = next?;
            if test(name) {
                return Some(name);
            }
            next = self.before(name);
        }
        None
    }
}
