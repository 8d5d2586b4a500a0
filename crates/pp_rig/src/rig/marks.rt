//! Marks of cells, central words, registers of channels and registers of processors. Cells and central words have marks by
//! blocks of addresses. The five cells of a block write begin in the block of each of them or in that of four cells before
//! it; a place has both as its marks, so one look, at the mark of the first cell, is enough for all five. The sixteen words
//! of an exchange likewise.
ghost use Rattle.std.specs.Prelude.{◌≡◌, ◌||◌, ℕ, true, false, None, Some, IfSome};
ghost use Rattle.pp_history.specs.Marks.{covers, is_set};
ghost use Rattle.pp_machine.specs.Prelude.{lookup};
ghost use Rattle.pp_rig.specs.Inner.Marks as spec;
ghost use Rattle.pp_rig.specs.Inner.Marks.{AreUnmarked, marks_of};
ghost use Rattle.pp_rig.specs.Inner.Short.{whole_turn};
ghost use Rattle.pp_rig.specs.Inner.TurnRecords.{turn_pairs};
ghost use Rattle.pp_step.specs.Exchange.{word_pairs};
ghost use Rattle.pp_step.specs.Pairs.{target_pairs};

use super::{ShortTurn, TurnRecord, TurnRest};
use pp_history::Marks;
use pp_machine::Place;
use pp_step::{PpRecord, StepRecord, Target};

/// Returns the number of the mark of a cell: 0 to 639 (decimal), by processor and block of eight cells.
#[inline(always)]
fn cell_mark(pp: u8, a: u64) -> u16
    ensures { result ≡ spec.cell_mark pp a }
{
    u16::from(pp) * 64 + (a / 8 % 64) as u16
}

/// Returns the number of the mark of a central word: 768 to 1023 (decimal), by block of sixteen words.
#[inline(always)]
fn central_mark(a: u64) -> u16
    ensures { result ≡ spec.central_mark a }
{
    768 + (a / 16 % 256) as u16
}

/// Returns the number of the mark of a channel's register: 640 to 651 (decimal).
#[inline(always)]
fn channel_mark(c: u8) -> u16
    ensures { result ≡ spec.channel_mark c }
{
    640 + u16::from(c)
}

/// Returns the number of the mark that A, P, Q and the phase of a processor share: 652 to 661 (decimal). With it each turn of
/// the processor is searched, since nearly all write P, and no turn of another processor.
#[inline(always)]
fn register_mark(pp: u8) -> u16
    ensures { result ≡ spec.register_mark pp }
{
    652 + u16::from(pp)
}

/// Returns the numbers of the two marks of a place, or `None` if places of its kind have none, as the slot, which is in the
/// undo record of every turn. Cells and central words repeat after 0o10000 addresses.
pub(super) fn marks_of(place: &Place) -> Option<(u16, u16)>
    ensures { IfSome result (λ marks. marks_of place.now ≡ Some marks) }
{
    match *place {
        Place::Cell { pp, a } => {
            let a = u64::from(a);
            Some((cell_mark(pp, a), cell_mark(pp, a + 0o10000 - 4)))
        }
        Place::Central { a } => {
            let a = u64::from(a);
            Some((central_mark(a), central_mark(a + 0o10000 - 15)))
        }
        Place::ChannelWord { c } => Some((channel_mark(c), channel_mark(c))),
        Place::RegA { pp } => Some((register_mark(pp), register_mark(pp))),
        Place::RegP { pp } => Some((register_mark(pp), register_mark(pp))),
        Place::RegQ { pp } => Some((register_mark(pp), register_mark(pp))),
        Place::Phase { pp } => Some((register_mark(pp), register_mark(pp))),
        _ => None,
    }
}

impl TurnRest {
    /// Returns whether marks say nothing of the turn: a place without marks was given, or a device was called.
    #[inline(always)]
    fn must_search(&self, marks: &Marks) -> bool
        ensures { result ≡ (self.now.are_devices_called || (marks.now.has_unmarked || is_set marks.now (spec.register_mark self.now.slot))) }
    {
        self.are_devices_called | (marks.has_unmarked() | marks.is_set(register_mark(self.slot)))
    }
}

impl ShortTurn {
    /// Returns `false` only if the record has none of the places that the marks cover.
    #[inline(always)]
    #[tactic(auto, using(crate::proofs::Marks::not_in_turn, crate::proofs::Marks::step_unmarked))]
    pub(super) fn may_be_marked(&self, marks: &Marks) -> bool
        ensures { result ≡ false → (p : Place) → covers marks_of marks.now p ≡ true →
            lookup (turn_pairs (whole_turn self.now)) p ≡ None }
    {
        self.rest.must_search(marks) || is_target_marked(self.rest.slot, &self.pp, marks)
    }
}

impl TurnRecord {
    /// Returns `false` only if the record has none of the places that the marks cover. Here it is the record of an
    /// exchange: any other turn has a short one.
    #[inline(always)]
    pub(super) fn may_be_marked(&self, marks: &Marks) -> bool
        ensures { result ≡ false → (p : Place) → covers marks_of marks.now p ≡ true → lookup (turn_pairs self.now) p ≡ None }
    {
        match &self.pp {
            PpRecord::Step(_) => true,
            PpRecord::Exchange(exchange) => {
                self.rest.must_search(marks)
                    || are_words_marked(exchange.central, &exchange.words, marks)
            }
        }
    }
}

/// Returns whether a place of the step's target may be marked.
#[inline(always)]
fn is_target_marked(slot: u8, step: &StepRecord, marks: &Marks) -> bool
    ensures { result ≡ false → AreUnmarked marks.now slot (target_pairs step.now) }
{
    // A comparison is faster than a table of jumps, and most steps end here.
    if matches!(step.target, Target::Wait | Target::Nothing | Target::State) {
        return false;
    }
    match step.target {
        Target::Wait | Target::Nothing | Target::State => false,
        Target::Cell | Target::Cells | Target::CellAndState => {
            marks.is_set(cell_mark(slot, u64::from(step.address.get())))
        }
        Target::Word => marks.is_set(central_mark(u64::from(step.address.get()))),
        Target::Channel => marks.is_set(channel_mark(step.channel)),
    }
}

/// Returns whether one of the sixteen central words from an address on may be marked.
#[inline(always)]
fn are_words_marked(first: u32, words: &[u64; 16], marks: &Marks) -> bool
    ensures { result ≡ false → (slot size : ℕ) → AreUnmarked marks.now slot (word_pairs size first 0 words.now) }
{
    marks.is_set(central_mark(u64::from(first)))
}
