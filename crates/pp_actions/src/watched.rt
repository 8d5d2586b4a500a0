//! The places that a run watches.
ghost use Rattle.std.specs.Prelude.{◌≡◌, ◌==◌, ◌+◌, ◌<◌, ◌≤◌, length, nat_le, position, slice_index, slice_set, replicate};
ghost use Rattle.std.specs.List.{list_any};
ghost use Rattle.pp_actions.specs.Admitting.{is_watchable};
ghost use Rattle.pp_actions.specs.Watches.{watched_at, watched_in, watched_place};
ghost use Rattle.pp_actions.specs.WatchCodes.{watch_code, watch_entries, first_zero};

mod removing;

use arrayvec::ArrayVec;
use pp_machine::Place;
use std::marker::Model;

/// The channel whose register is the clock.
const CLOCK: u8 = 0o14;

/// The distance between the codes of two kinds of places: 2 to the power of 21.
const KIND: u64 = 2_097_152;

/// A place that a run watches.
///
/// Processors are numbered 0 to 0o11 and cells 0 to 0o7777. Central addresses are below the size of the machine's
/// central memory. The registers are those of channels 0 to 0o14, where 0o14 is the clock. [P28]
#[derive(Clone, Copy, PartialEq, Eq, Debug, Drop)]
pub enum Watched {
    /// A cell of a processor's memory.
    Cell { pp: u8, a: u16 },
    /// A of a processor.
    RegA { pp: u8 },
    /// P of a processor.
    RegP { pp: u8 },
    /// Q of a processor.
    RegQ { pp: u8 },
    /// A word of central memory.
    Central { a: u32 },
    /// The register of channel c; that of channel 0o14 is the clock.
    Register { c: u8 },
}

impl Default for Watched {
    fn default() -> Watched {
        Watched::RegA { pp: 0 }
    }
}

impl Watched {
    /// Returns the code of a watched place. No two places have the same code, and no code is 0.
    pub fn code(self) -> u64
        ensures { result ≡ watch_code self }
    {
        match self {
            Watched::Cell { pp, a } => KIND + u64::from(pp) * 4096 + u64::from(a),
            Watched::RegA { pp } => 2 * KIND + u64::from(pp),
            Watched::RegP { pp } => 3 * KIND + u64::from(pp),
            Watched::RegQ { pp } => 4 * KIND + u64::from(pp),
            Watched::Central { a } => 5 * KIND + u64::from(a),
            Watched::Register { c } => 6 * KIND + u64::from(c),
        }
    }

    /// Returns the place of the machine that is watched: the clock for register 0o14, and the channel's register for
    /// any other.
    pub fn place(&self) -> Place
        ensures { result ≡ watched_place self.now }
    {
        match *self {
            Watched::Cell { pp, a } => Place::Cell { pp, a },
            Watched::RegA { pp } => Place::RegA { pp },
            Watched::RegP { pp } => Place::RegP { pp },
            Watched::RegQ { pp } => Place::RegQ { pp },
            Watched::Central { a } => Place::Central { a },
            Watched::Register { c: CLOCK } => Place::Clock,
            Watched::Register { c } => Place::ChannelWord { c },
        }
    }

    /// Returns whether a machine with this many central words has the place.
    pub fn is_watchable(&self, central_words: u32) -> bool
        ensures { result ≡ is_watchable central_words self.now }
    {
        match *self {
            Watched::Cell { pp, a } => pp < 10 && a < 4096,
            Watched::RegA { pp } | Watched::RegP { pp } | Watched::RegQ { pp } => pp < 10,
            Watched::Central { a } => a < central_words,
            Watched::Register { c } => c <= CLOCK,
        }
    }
}

/// Returns whether the place is in the list.
fn is_among(places: &[Watched], watched: Watched) -> bool
    ensures { result ≡ list_any (λ place. watch_code place == watch_code watched) places.now }
{
    places.iter().any(|place| place.code() == watched.code())
}

/// Returns the position of the place in the list, or `None` if it is not there.
fn position_among(places: &[Watched], watched: Watched) -> Option<usize>
    ensures { result ≡ position (λ place. watch_code place == watch_code watched) places.now }
{
    places
        .iter()
        .position(|place| place.code() == watched.code())
}

/// The watched places in their order, at most eight.
#[derive(Drop)]
pub struct WatchList {
    places: ArrayVec<Watched, 8>,
}

impl Model for WatchList {
    ghost use Rattle.std.specs.Prelude.{List, ℕ};

    ghost Value = { List ℕ };

    ghost use Rattle.pp_actions.specs.WatchCodes.{watch_entries};
    ghost use Rattle.pp_actions.specs.Watches.{HaveCodes};

    ghost view = { λ w. watch_entries w.places.items };

    ghost invariant = { λ w. HaveCodes w.places.items };
}

#[tactic(auto, using(crate::proofs::WatchCodes::entries))]
impl WatchList {
    /// Returns a list without places.
    pub fn new() -> WatchList
        ensures { result ≡ replicate 8 0 }
    {
        WatchList {
            places: ArrayVec::new(),
        }
    }

    /// Returns whether eight places are watched.
    pub fn is_full(&self) -> bool
        ensures { result ≡ nat_le 8 (length (watched_in self.now)) }
    {
        self.places.len() >= 8
    }

    /// Returns whether the place is watched.
    pub fn is_watched(&self, watched: Watched) -> bool
        ensures { result ≡ list_any (λ code. code == watch_code watched) self.now }
    {
        is_among(self.places.as_slice(), watched)
    }

    /// Returns the watched places in their order.
    pub fn places(&self) -> &[Watched]
        ensures value { result.now ≡ watched_in self.now }
        ensures at_most { length result.now ≤ 8 }
    {
        self.places.as_slice()
    }

    /// Returns how many places are watched.
    pub fn count(&self) -> u8
        ensures { result ≡ first_zero self.now }
    {
        self.places.len() as u8
    }

    /// Returns the code of entry i, or 0 if the entry has no place.
    pub fn entry(&self, i: u8) -> u64
        ensures { result ≡ slice_index self.now i }
    {
        self.places.get(i as usize).map_or(0, |place| place.code())
    }

    /// Adds a place after the others.
    pub fn push(&mut self, watched: Watched)
        requires room { first_zero self.old < 8 }
        requires has_code { watched_at (watch_code watched) ≡ watched }
        ensures puts_code { self.new ≡ slice_set self.old (first_zero self.old) (watch_code watched) }
        ensures count { first_zero self.new ≡ first_zero self.old + 1 }
    {
        self.places.push(watched);
    }
}
