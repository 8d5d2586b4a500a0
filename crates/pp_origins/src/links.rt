//! Links, one after another in a slice.
ghost use Rattle.pp_origins.specs.Links.{link_of_constant, links_of_one};
ghost use Rattle.pp_origins.specs.Rows as spec;
ghost use Rattle.std.specs.Prelude.{◌≡◌, ◌+◌, ◌<◌, ◌≤◌, ◌++◌, ◌∷◌, [], length, take};

use crate::origin::{Field, Link, NOTHING, Operation, Read};
use pp_machine::{Place, place_number};

/// Returns a place of which all is read.
#[inline(always)]
pub fn whole(place: Place) -> Read
    ensures { result ≡ spec.whole place }
{
    Read {
        place,
        field: Field::Whole,
    }
}

/// Writes the link of a place whose new number is read nowhere into a slice, behind the first `used` that are there. Returns
/// how many are there then.
#[inline(always)]
pub fn put_constant(place: Place, operation: Operation, links: &mut [Link], used: usize) -> usize
    requires { used < length links.old }
    ensures items { take result links.new ≡ take used links.old ++ link_of_constant place operation ∷ [] }
    ensures count { result ≡ used + 1 }
{
    links[used] = Link {
        place: place_number(&place),
        source: NOTHING,
        operation: operation as u8,
        field: Field::Whole as u8,
        further: 0,
    };
    used + 1
}

/// Writes the links of a place whose new number is made from 1 to 5 numbers that are read into a slice, behind the first
/// `used` that are there. Returns how many are there then.
#[inline(always)]
#[tactic(auto, using(crate::proofs::ReadLinks::read_links_more))]
pub fn put(
    place: Place,
    operation: Operation,
    reads: &[Read],
    links: &mut [Link],
    used: usize,
) -> usize
    requires some { 0 < length reads.now }
    requires few { length reads.now ≤ 5 }
    requires room { used + length reads.now ≤ length links.old }
    ensures items { take result links.new ≡ take used links.old ++ links_of_one place operation reads.now }
    ensures count { result ≡ used + length reads.now }
{
    let count = reads.len();
    for k in 0..count {
        links[used + k] = Link {
            place: place_number(&place),
            source: place_number(&reads[k].place),
            operation: operation as u8,
            field: reads[k].field as u8,
            further: (count - 1 - k) as u16,
        };
    }
    used + count
}
