//! The origins of what the devices, the clock and the slot write in a turn. The turn has been performed: which places it
//! overwrote, and the numbers there now, tell what each device did.
#![tactic(auto, using(pp_origins::proofs::LinkLists::link_lists))]

ghost use Rattle.pp_history.specs.UndoRecord.{whole_record};
ghost use Rattle.pp_machine.specs.Machine.{Machine, lookup, number};
ghost use Rattle.pp_origins.specs.Links.{links_of};
ghost use Rattle.pp_rig.specs.Inner.ActionRecords.{record_pairs};
ghost use Rattle.pp_rig.specs.Inner.Short.{unpacked};
ghost use Rattle.pp_rig.specs.Inner.TurnRecords.{turn_old_values};
ghost use Rattle.pp_rig.specs.Turn.{turn};
ghost use Rattle.pp_rig.specs.WellFormed.{IsWellFormed};
ghost use Rattle.pp_turn_origins.specs.Devices.{from, set_to, word_origins};
ghost use Rattle.pp_turn_origins.specs.Inner.{clock_by, printer_by, reader_by, rest_origins};
ghost use Rattle.std.specs.Prelude.{◌≡◌, ◌+◌, ◌<◌, ◌≤◌, ◌++◌, ◌∷◌, ◌^◌, [], is_some, length, take, true};

use crate::reading::read;
use pp_history::{Reversible, UndoRecord};
use pp_machine::Place;
use pp_origins::{Field, Link, Operation, Read, constant, put, put_constant, whole};
use pp_rig::{Rig, RigRecord, ShortTurn, old_value};

/// The most links of the devices, the clock and the slot (decimal).
pub const MOST_REST_LINKS: usize = 11;

/// The numbers before a turn that its record and the machine after it do not tell.
#[derive(Clone, Copy)]
pub struct Before {
    slot: u8,
    /// How many symbols the paper has, and the column.
    symbols: u32,
    column: u64,
}

impl Before {
    /// Returns the numbers of a machine before its next turn.
    #[inline(always)]
    #[tactic(auto, using(crate::proofs::InRange::paper_in))]
    pub fn of(machine: &Rig) -> Before
        ensures slot { result.slot ≡ machine.now.slot }
        ensures symbols { result.symbols ≡ machine.now.printer.length }
        ensures small { result.symbols ≤ 65536 }
        ensures column { result.column ≡ machine.now.printer.column }
    {
        machine.keeps_ranges();
        let symbols = machine.value(&Place::PaperLength);
        Before {
            slot: machine.slot(),
            symbols: symbols as u32,
            column: machine.value(&Place::PaperColumn),
        }
    }
}

/// Writes that a place is set to a constant.
fn set(place: Place, number: u64, links: &mut [Link], used: usize) -> usize
    requires { used < length links.old }
    ensures items { take result links.new ≡ take used links.old ++ links_of ((place, set_to number) ∷ []) }
    ensures count { result ≡ used + 1 }
{
    put_constant(place, constant(number), links, used)
}

/// Writes that the number at a place is made from the one before.
fn count(place: Place, operation: Operation, links: &mut [Link], used: usize) -> usize
    requires { used < length links.old }
    ensures items { take result links.new ≡ take used links.old ++ links_of ((place, from operation (place ∷ [])) ∷ []) }
    ensures count { result ≡ used + 1 }
{
    put(place, operation, &[whole(place)], links, used)
}

/// What the reader did: the places that it wrote, its new mode, and the new number of its channel's register.
#[derive(Clone, Copy)]
struct ReaderTurn {
    channel: u8,
    has_mode: bool,
    has_column: bool,
    has_card: bool,
    mode: u64,
    word: u64,
}

/// Writes how a card ended, or a new one began.
fn put_card(t: &ReaderTurn, links: &mut [Link], used: usize) -> usize
    requires mode { t.now.has_mode ≡ true }
    requires column { t.now.has_column ≡ true }
    requires room { used + 4 ≤ length links.old }
    ensures items { take result links.new ≡ take used links.old
        ++ links_of (reader_by t.now.channel t.now.has_mode t.now.has_column t.now.has_card t.now.mode t.now.word) }
    ensures at_most { result ≤ used + 4 }
{
    let used = set(Place::ChannelMode { c: t.channel }, 0, links, used);
    let used = if t.has_card {
        count(Place::Card, Operation::CountUp, links, used)
    } else {
        used
    };
    let used = set(Place::CardColumn, 0, links, used);
    set(Place::ReaderMode, t.mode, links, used)
}

/// Writes the links of what the reader did.
fn put_reader(t: &ReaderTurn, links: &mut [Link], used: usize) -> usize
    requires { used + 4 ≤ length links.old }
    ensures items { take result links.new ≡ take used links.old
        ++ links_of (reader_by t.now.channel t.now.has_mode t.now.has_column t.now.has_card t.now.mode t.now.word) }
    ensures at_most { result ≤ used + 4 }
{
    let state = Place::ChannelMode { c: t.channel };
    let register = Place::ChannelWord { c: t.channel };
    if t.has_mode {
        if t.has_column {
            return put_card(t, links, used);
        }
        if t.mode == 3 {
            let used = set(register, t.word, links, used);
            let used = set(state, 2, links, used);
            return set(Place::ReaderMode, t.mode, links, used);
        }
        let used = set(state, 0, links, used);
        set(Place::ReaderMode, t.mode, links, used)
    } else if t.has_column {
        let column = [whole(Place::Card), whole(Place::CardColumn)];
        let used = put(register, Operation::Punched, &column, links, used);
        let used = set(state, 2, links, used);
        count(Place::CardColumn, Operation::CountUp, links, used)
    } else {
        used
    }
}

/// What the printer did: the places that it wrote, how many symbols the paper had, the column before, and the new mode,
/// column, and number of its channel's register.
#[derive(Clone, Copy)]
struct PrinterTurn {
    channel: u8,
    has_mode: bool,
    has_paper: bool,
    symbols: u32,
    before: u64,
    mode: u64,
    column: u64,
    word: u64,
}

/// Returns six bits of the printer's word.
fn half(field: Field, c: u8) -> Read
    ensures { result ≡ record { place = Place.ChannelWord c; field = field } }
{
    Read {
        place: Place::ChannelWord { c },
        field,
    }
}

/// Writes how the paper gets a word.
fn put_word(t: &PrinterTurn, links: &mut [Link], used: usize) -> usize
    requires small { t.now.symbols < 2 ^ 31 }
    requires room { used + 5 ≤ length links.old }
    ensures items { take result links.new
        ≡ take used links.old ++ links_of (word_origins t.now.channel t.now.before t.now.symbols) }
    ensures at_most { result ≤ used + 5 }
{
    let lower = [half(Field::LowerSix, t.channel)];
    let upper = [half(Field::UpperSix, t.channel)];
    let moved = Operation::Moved;
    let first = Place::PaperSymbol { k: t.symbols };
    let used = set(Place::ChannelMode { c: t.channel }, 1, links, used);
    if t.before <= 134 {
        let second = Place::PaperSymbol { k: t.symbols + 1 };
        let used = put(second, moved, &lower, links, used);
        let used = put(first, moved, &upper, links, used);
        let used = count(Place::PaperLength, Operation::CountUp2, links, used);
        count(Place::PaperColumn, Operation::CountUp2, links, used)
    } else if t.before <= 135 {
        let used = put(first, moved, &upper, links, used);
        let used = count(Place::PaperLength, Operation::CountUp, links, used);
        count(Place::PaperColumn, Operation::CountUp, links, used)
    } else {
        let used = count(Place::PaperLength, moved, links, used);
        count(Place::PaperColumn, moved, links, used)
    }
}

/// Writes the links of what the printer did.
fn put_printer(t: &PrinterTurn, links: &mut [Link], used: usize) -> usize
    requires small { t.now.symbols < 2 ^ 31 }
    requires room { used + 5 ≤ length links.old }
    ensures items { take result links.new ≡ take used links.old ++ links_of (printer_by t.now.channel t.now.has_mode t.now.has_paper
        t.now.symbols t.now.before t.now.mode t.now.column t.now.word) }
    ensures at_most { result ≤ used + 5 }
{
    let state = Place::ChannelMode { c: t.channel };
    if t.has_mode {
        if t.mode == 3 {
            let used = set(Place::ChannelWord { c: t.channel }, t.word, links, used);
            let used = set(state, 2, links, used);
            return set(Place::PrinterMode, t.mode, links, used);
        }
        let used = set(state, 0, links, used);
        return set(Place::PrinterMode, t.mode, links, used);
    }
    if !t.has_paper {
        return used;
    }
    if t.column != 0 {
        return put_word(t, links, used);
    }
    let used = set(state, 0, links, used);
    let used = set(Place::PaperSymbol { k: t.symbols }, 0o100, links, used);
    let used = count(Place::PaperLength, Operation::CountUp, links, used);
    set(Place::PaperColumn, 0, links, used)
}

// ---- a turn

/// Writes the links of what the reader did in the turn with this record. The machine is that after the turn.
#[inline(always)]
fn put_reader_turn(
    machine: &Rig,
    back: &UndoRecord<ShortTurn, RigRecord>,
    links: &mut [Link],
    used: usize,
) -> usize
    requires { used + 4 ≤ length links.old }
    ensures items { let pairs = record_pairs (whole_record unpacked back.now) in let c = machine.now.setup.reader_channel in
        take result links.new ≡ take used links.old ++ links_of (reader_by c (is_some (lookup pairs Place.ReaderMode))
        (is_some (lookup pairs Place.CardColumn)) (is_some (lookup pairs Place.Card)) (number machine.now Place.ReaderMode)
        (number machine.now (Place.ChannelWord c))) }
    ensures at_most { result ≤ used + 4 }
{
    let has_mode = old_value(back, &Place::ReaderMode).is_some();
    let has_column = old_value(back, &Place::CardColumn).is_some();
    if !has_mode && !has_column {
        return used;
    }
    let channel = machine.reader_channel();
    let turn = ReaderTurn {
        channel,
        has_mode,
        has_column,
        has_card: old_value(back, &Place::Card).is_some(),
        mode: read(machine, Place::ReaderMode),
        word: read(machine, Place::ChannelWord { c: channel }),
    };
    put_reader(&turn, links, used)
}

/// Writes the links of what the printer did in the turn with this record. The machine is that after the turn.
#[inline(always)]
fn put_printer_turn(
    machine: &Rig,
    before: &Before,
    back: &UndoRecord<ShortTurn, RigRecord>,
    links: &mut [Link],
    used: usize,
) -> usize
    requires small { before.now.symbols ≤ 65536 }
    requires room { used + 5 ≤ length links.old }
    ensures items { let pairs = record_pairs (whole_record unpacked back.now) in let c = machine.now.setup.printer_channel in
        take result links.new ≡ take used links.old ++ links_of (printer_by c (is_some (lookup pairs Place.PrinterMode))
        (is_some (lookup pairs Place.PaperLength)) before.now.symbols before.now.column (number machine.now Place.PrinterMode)
        (number machine.now Place.PaperColumn) (number machine.now (Place.ChannelWord c))) }
    ensures at_most { result ≤ used + 5 }
{
    let has_mode = old_value(back, &Place::PrinterMode).is_some();
    let has_paper = old_value(back, &Place::PaperLength).is_some();
    if !has_mode && !has_paper {
        return used;
    }
    let channel = machine.printer_channel();
    let turn = PrinterTurn {
        channel,
        has_mode,
        has_paper,
        symbols: before.symbols,
        before: before.column,
        mode: read(machine, Place::PrinterMode),
        column: read(machine, Place::PaperColumn),
        word: read(machine, Place::ChannelWord { c: channel }),
    };
    put_printer(&turn, links, used)
}

/// Writes the links of what the clock and the slot did in the turn of this slot.
#[inline(always)]
fn put_end(slot: u8, links: &mut [Link], used: usize) -> usize
    requires { used + 2 ≤ length links.old }
    ensures items { take result links.new ≡ take used links.old ++ (links_of (clock_by slot)
        ++ links_of ((Place.Slot, from Operation.NextSlot (Place.Slot ∷ [])) ∷ [])) }
    ensures at_most { result ≤ used + 2 }
{
    let used = if slot == 9 {
        count(Place::Clock, Operation::After1, links, used)
    } else {
        used
    };
    count(Place::Slot, Operation::NextSlot, links, used)
}

/// Writes the links of what the devices, the clock and the slot did in the turn with this record into a slice, behind the
/// first `used` that are there. Returns how many are there then. The machine is that after the turn.
#[inline(always)]
pub fn put_rest(
    machine: &Rig,
    before: &Before,
    back: &UndoRecord<ShortTurn, RigRecord>,
    links: &mut [Link],
    used: usize,
) -> usize
    requires small { before.now.symbols ≤ 65536 }
    requires room { used + MOST_REST_LINKS ≤ length links.old }
    ensures items { (s : Machine) → IsWellFormed s → machine.now ≡ turn s →
        record_pairs (whole_record unpacked back.now) ≡ turn_old_values s →
        before.now.slot ≡ s.slot → before.now.symbols ≡ s.printer.length → before.now.column ≡ s.printer.column →
        take result links.new ≡ take used links.old ++ links_of (rest_origins s) }
    ensures at_most { result ≤ used + MOST_REST_LINKS }
{
    let used = put_reader_turn(machine, back, links, used);
    let used = put_printer_turn(machine, before, back, links, used);
    put_end(before.slot, links, used)
}
