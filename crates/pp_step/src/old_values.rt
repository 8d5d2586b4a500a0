//! The old values of a step, in a slice.
#![tactic(auto, using(pp_machine::proofs::PushedLists::pushed_lists))]

ghost use Rattle.std.specs.Prelude.{◌≡◌, ◌+◌, ◌<◌, ◌≤◌, ◌++◌, ◌∷◌, [], length, take, ℕ};
ghost use Rattle.pp_machine.specs.Olds.{numbered};
ghost use Rattle.pp_machine.specs.Prelude.{renamed, state_number, words_of, written};
ghost use Rattle.pp_machine.specs.Ranges.{past_sixty_bits, twelve_bits};
ghost use Rattle.pp_arith.specs.Words60.{split60};
ghost use Rattle.pp_step.specs.Exchange.{frame_pairs, word_pairs};
ghost use Rattle.pp_step.specs.Pairs.{Fits, FitsTarget, exchange_pairs, pairs, target_pairs};
ghost use Rattle.pp_step.specs.Step.{FitsPp, most_short_places, most_step_places, pp_pairs};
ghost use Rattle.pp_step.specs.{Rows.five_cells, View.Phase, View.Q, View.pp_place, Words.cell_after as cell_at};

use crate::cells::cell_after;
use crate::package::central_after;
use crate::record::{ExchangeRecord, PpRecord, StepRecord, Target};
use pp_arith::split60;
use pp_machine::{CentralSize, Old, Place, put_old, put_old_if};

impl PpRecord {
    /// Writes each place that the record has, of a step of processor pp, with its old number into a slice, behind the first
    /// `used` that are there. Returns how many are there then. The record must fit a machine, as it does right after its step.
    #[inline(always)]
    #[tactic(auto, using(pp_machine::proofs::PushedLists::pushed_lists), unfolding(crate::specs::Step::pp_pairs, crate::specs::Step::FitsPp))]
    pub fn put_old_values(&self, pp: u8, olds: &mut [Old], used: usize) -> usize
        requires fits { (size : ℕ) × FitsPp size self.now }
        requires room { used + most_step_places ≤ length olds.old }
        ensures items { take result olds.new ≡ take used olds.old ++ numbered (renamed (pp_place pp) (pp_pairs self.now)) }
        ensures at_most { result ≤ used + most_step_places }
    {
        match self {
            PpRecord::Step(step) => step.put_pairs(pp, olds, used),
            PpRecord::Exchange(exchange) => exchange.put_pairs(pp, olds, used),
        }
    }
}

impl StepRecord {
    /// Does what `PpRecord::put_old_values` does, for a step that is no exchange.
    #[inline(always)]
    #[tactic(auto, using(pp_machine::proofs::PushedLists::pushed_lists), unfolding(crate::specs::Step::pp_pairs, crate::specs::Step::FitsPp))]
    pub fn put_old_values(&self, pp: u8, olds: &mut [Old], used: usize) -> usize
        requires fits { (size : ℕ) × FitsPp size (PpRecord.Step self.now) }
        requires room { used + most_short_places ≤ length olds.old }
        ensures items { take result olds.new
            ≡ take used olds.old ++ numbered (renamed (pp_place pp) (pp_pairs (PpRecord.Step self.now))) }
        ensures at_most { result ≤ used + most_short_places }
    {
        self.put_pairs(pp, olds, used)
    }

    #[inline(always)]
    fn put_pairs(&self, pp: u8, olds: &mut [Old], used: usize) -> usize
        requires fits { (size : ℕ) × Fits size self.now }
        requires room { used + most_short_places ≤ length olds.old }
        ensures items { take result olds.new ≡ take used olds.old ++ numbered (renamed (pp_place pp) (pairs self.now)) }
        ensures at_most { result ≤ used + most_short_places }
    {
        let p = u64::from(self.p);
        let used = put_old_if(olds, used, self.target.writes_p(), Place::RegP { pp }, p);
        let a = u64::from(self.a.get());
        let used = put_old_if(olds, used, self.writes_a, Place::RegA { pp }, a);
        let used = self.put_transfer(pp, olds, used);
        self.put_target(pp, olds, used)
    }

    /// Writes Q and the phase. Most steps write neither, and the processor predicts that.
    #[inline(always)]
    fn put_transfer(&self, pp: u8, olds: &mut [Old], used: usize) -> usize
        requires { used + 2 ≤ length olds.old }
        ensures items { take result olds.new ≡ take used olds.old ++ numbered (renamed (pp_place pp)
            (written self.now.writes_q Q self.now.q (written self.now.writes_phase Phase self.now.phase []))) }
        ensures at_most { result ≤ used + 2 }
    {
        if !self.writes_q && !self.writes_phase {
            return used;
        }
        let q = u64::from(self.q);
        let used = put_old_if(olds, used, self.writes_q, Place::RegQ { pp }, q);
        let phase = u64::from(self.phase);
        put_old_if(olds, used, self.writes_phase, Place::Phase { pp }, phase)
    }

    /// Writes the places of the target, with their old numbers.
    #[inline(always)]
    fn put_target(&self, pp: u8, olds: &mut [Old], used: usize) -> usize
        requires fits { (size : ℕ) × FitsTarget size self.now }
        requires room { used + 5 ≤ length olds.old }
        ensures items { take result olds.new ≡ take used olds.old ++ numbered (renamed (pp_place pp) (target_pairs self.now)) }
        ensures at_most { result ≤ used + 5 }
    {
        let address = self.address.get();
        match self.target {
            Target::Wait | Target::Nothing => used,
            Target::State => self.put_state(olds, used),
            Target::Cell => put_cell(pp, address, 0, self.value, olds, used),
            Target::Cells => put_cells(pp, address, self.word.get(), olds, used),
            Target::CellAndState => {
                let used = put_cell(pp, address, 0, self.value, olds, used);
                self.put_state(olds, used)
            }
            Target::Word => put_old(olds, used, Place::Central { a: address }, self.word.get()),
            Target::Channel => {
                let used = self.put_state(olds, used);
                let word = Place::ChannelWord { c: self.channel };
                put_old(olds, used, word, u64::from(self.value))
            }
        }
    }

    /// Writes the state of the channel.
    #[inline(always)]
    fn put_state(&self, olds: &mut [Old], used: usize) -> usize
        requires { used < length olds.old }
        ensures items { take result olds.new
            ≡ take used olds.old ++ numbered ((Place.ChannelMode self.now.channel, state_number self.now.state) ∷ []) }
        ensures count { result ≡ used + 1 }
    {
        let place = Place::ChannelMode { c: self.channel };
        put_old(olds, used, place, self.state as u64)
    }
}

/// Writes the cell i cells after an address, with its old number.
#[inline(always)]
fn put_cell(pp: u8, address: u32, i: u16, number: u16, olds: &mut [Old], used: usize) -> usize
    requires address_in { address ≤ twelve_bits }
    requires room { used < length olds.old }
    ensures items { take result olds.new ≡ take used olds.old ++ numbered ((Place.Cell pp (cell_at address i), number) ∷ []) }
    ensures count { result ≡ used + 1 }
{
    let a = cell_after(address as u16, i);
    put_old(olds, used, Place::Cell { pp, a }, u64::from(number))
}

/// Writes the five cells from an address on, which held the parts of a word.
#[inline(always)]
fn put_cells(pp: u8, address: u32, word: u64, olds: &mut [Old], used: usize) -> usize
    requires address_in { address ≤ twelve_bits }
    requires word_in { word < past_sixty_bits }
    requires room { used + 5 ≤ length olds.old }
    ensures items { take result olds.new
        ≡ take used olds.old ++ numbered (renamed (pp_place pp) (five_cells address (split60 word))) }
    ensures at_most { result ≤ used + 5 }
{
    let parts = split60(word);
    let used = put_cell(pp, address, 0, parts[0], olds, used);
    let used = put_cell(pp, address, 1, parts[1], olds, used);
    let used = put_cell(pp, address, 2, parts[2], olds, used);
    let used = put_cell(pp, address, 3, parts[3], olds, used);
    put_cell(pp, address, 4, parts[4], olds, used)
}

impl ExchangeRecord {
    fn put_pairs(&self, pp: u8, olds: &mut [Old], used: usize) -> usize
        requires room { used + most_step_places ≤ length olds.old }
        ensures items { take result olds.new ≡ take used olds.old ++ numbered (renamed (pp_place pp) (exchange_pairs self.now)) }
        ensures at_most { result ≤ used + most_step_places }
    {
        let used = put_old(olds, used, Place::RegP { pp }, u64::from(self.p));
        let used = put_frame(pp, &self.registers, olds, used);
        put_words(pp, self.size, self.central, &self.words, olds, used)
    }
}

/// Writes the sixteen frame words.
#[inline(always)]
#[tactic(auto, using(crate::proofs::ExchangeLists::exchange_lists))]
fn put_frame(pp: u8, words: &[u64; 16], olds: &mut [Old], used: usize) -> usize
    requires { used + 16 ≤ length olds.old }
    ensures items { take result olds.new ≡ take used olds.old ++ numbered (renamed (pp_place pp) (frame_pairs 0 words.now)) }
    ensures at_most { result ≤ used + 16 }
{
    let mut end = used;
    for i in 0..16u8 {
        end = put_old(olds, end, Place::FrameWord { i }, words[i as usize]);
    }
    end
}

/// Writes those of sixteen central words, from an address on, that are not past the size.
#[inline(always)]
#[tactic(auto, using(crate::proofs::ExchangeLists::exchange_lists))]
fn put_words(
    pp: u8,
    size: CentralSize,
    first: u32,
    words: &[u64; 16],
    olds: &mut [Old],
    used: usize,
) -> usize
    requires { used + 16 ≤ length olds.old }
    ensures items { take result olds.new
        ≡ take used olds.old ++ numbered (renamed (pp_place pp) (word_pairs (words_of size) first 0 words.now)) }
    ensures at_most { result ≤ used + 16 }
{
    let mut end = used;
    for i in 0..16u8 {
        let a = central_after(first, i);
        let is_there = a < size.words();
        end = put_old_if(olds, end, is_there, Place::Central { a }, words[i as usize]);
    }
    end
}
