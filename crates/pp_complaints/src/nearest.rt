//! The name that may be meant by one that is not known.
use arrayvec::ArrayVec;
use pp_decks::tail;
use pp_source::find;
use std::mem;

/// How many names are looked at for the nearest.
const MOST_NEAR: usize = 9;
/// By how many characters these may be longer or shorter.
const MOST_LONGER: usize = 3;
/// How many characters a name has that is looked for, which may have a qualifier.
const LONGEST: usize = 24;
/// Parts of two names that are still to be compared.
const MOST_PARTS: usize = 2 * LONGEST;

/// A name that is near another one: the characters that both have, and those of both together.
#[derive(Clone, Copy, Default)]
struct Near<'a> {
    name: &'a [u8],
    equal: usize,
    all: usize,
}

impl Near<'_> {
    /// Returns whether this name is nearer than another one, or as near and later in the alphabet.
    fn is_before(&self, other: &Near) -> bool {
        let one = self.equal.wrapping_mul(other.all);
        let two = other.equal.wrapping_mul(self.all);
        one > two || one == two && self.name > other.name
    }
}

/// The names nearest to one.
#[derive(Drop)]
pub struct Nearest<'a> {
    name: &'a [u8],
    near: ArrayVec<Near<'a>, MOST_NEAR>,
}

impl<'a> Nearest<'a> {
    /// Returns a search that has seen no names yet.
    pub fn new(name: &'a [u8]) -> Self {
        Nearest {
            name,
            near: ArrayVec::new(),
        }
    }

    /// Looks at a name.
    pub fn see(&mut self, one: &'a [u8]) {
        if !are_alike(one, self.name) {
            return;
        }
        let near = Near {
            name: one,
            equal: equal_characters(one, self.name),
            all: one.len().saturating_add(self.name.len()),
        };
        if near.equal.wrapping_mul(10) >= near.all.wrapping_mul(3) {
            self.keep(near);
        }
    }

    /// Keeps a name in its place, if it is among the nearest.
    fn keep(&mut self, near: Near<'a>) {
        let mut last = near;
        for kept in &mut self.near {
            if last.is_before(kept) {
                mem::swap(kept, &mut last);
            }
        }
        let _ = self.near.try_push(last);
    }

    /// Returns the name that may be meant: of the nearest ones, the first that begins alike the longest.
    pub fn found(&self) -> Option<&'a [u8]> {
        let alike = |near: &&Near| equal_at_beginning(near.name, self.name);
        let best = self.near.iter().rev().max_by_key(alike)?;
        Some(best.name)
    }
}

/// Returns how many characters are equal at the beginning of two names.
fn equal_at_beginning(one: &[u8], other: &[u8]) -> usize {
    let mut pairs = one.iter().zip(other);
    let end = one.len().min(other.len());
    pairs.position(|(one, other)| one != other).unwrap_or(end)
}

/// Returns whether names have about the same length, and one has more than half of the characters of the other.
fn are_alike(one: &[u8], name: &[u8]) -> bool {
    if name.len() > LONGEST || one.len().abs_diff(name.len()) > MOST_LONGER {
        return false;
    }
    let mut all: usize = 0;
    let mut common: usize = 0;
    for (at, symbol) in name.iter().enumerate() {
        if find(name, 0, *symbol) == Some(at) {
            all = all.wrapping_add(1);
            common = common.wrapping_add(usize::from(one.contains(symbol)));
        }
    }
    common.wrapping_mul(2) > all
}

/// Returns how many characters two names have in common: the longest run of equal ones, and likewise before it and after it.
fn equal_characters<'a>(one: &'a [u8], other: &'a [u8]) -> usize {
    let mut parts: ArrayVec<(&'a [u8], &'a [u8]), MOST_PARTS> = ArrayVec::new();
    let _ = parts.try_push((one, other));
    let mut equal: usize = 0;
    for _ in 0..=one.len().saturating_mul(2) {
        let Some((one, other)) = parts.pop() else {
            break;
        };
        let (length, first, other_first) = longest_run(one, other);
        if length > 0 {
            equal = equal.wrapping_add(length);
            let (before, other_before) = (one.get(..first), other.get(..other_first));
            let _ = parts.try_push((before.unwrap_or(b""), other_before.unwrap_or(b"")));
            let (end, other_end) = (first.wrapping_add(length), other_first.wrapping_add(length));
            let _ = parts.try_push((tail(one, end), tail(other, other_end)));
        }
    }
    equal
}

/// Returns the length of the longest run of equal characters in two names, the first one of several, and where it begins in each.
fn longest_run(one: &[u8], other: &[u8]) -> (usize, usize, usize) {
    let mut best = (0, 0, 0);
    for first in 0..one.len() {
        best = longest_run_at(tail(one, first), first, other, best);
    }
    best
}

/// Returns the longest run that begins with the rest of a name from a character on, or the best one before it if none is longer.
fn longest_run_at(
    rest: &[u8],
    first: usize,
    other: &[u8],
    best: (usize, usize, usize),
) -> (usize, usize, usize) {
    let mut best = best;
    for other_first in 0..other.len() {
        let length = equal_at_beginning(rest, tail(other, other_first));
        if length > best.0 {
            best = (length, first, other_first);
        }
    }
    best
}
