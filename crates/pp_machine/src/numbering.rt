//! One order of all places of a machine, so that a place is one number.
ghost use Rattle.pp_machine.specs.Numbering.{fixed_places, frame_or_device_place, place_at, place_number};
ghost use Rattle.pp_machine.specs.Prelude.{Has};
ghost use Rattle.std.specs.Prelude.{◌≡◌, ◌+◌, ◌<◌, ◌≤◌, ◌^◌, ℕ};

use crate::place::Place;

/// How many places every machine has. Its words of central memory are numbered behind these.
pub const FIXED_PLACES: u32 = 106_592;

/// Returns the place with a number from 41025 to 41046 (decimal): a word of the frame, or a number of a device.
fn frame_or_device_place(i: u32) -> Place
    requires { (41025 ≤ i) × (i < 41047) }
    ensures place { result ≡ frame_or_device_place i }
    ensures has { (size : ℕ) → Has size result }
{
    match i {
        41025..=41040 => Place::FrameWord {
            i: (i - 41025) as u8,
        },
        41041 => Place::Card,
        41042 => Place::CardColumn,
        41043 => Place::ReaderMode,
        41044 => Place::PaperLength,
        41045 => Place::PaperColumn,
        _ => Place::PrinterMode,
    }
}

/// Returns the place with this number. The machine has it if the number is below `FIXED_PLACES` and the words of its
/// central memory together.
#[tactic(auto, unfolding(crate::specs::Numbering::place_at))]
pub fn place_at(i: u32) -> Place
    ensures place { result ≡ place_at i }
    ensures has { (size : ℕ) → i < fixed_places + size → Has size result }
{
    match i {
        0..=40959 => Place::Cell {
            pp: (i / 4096) as u8,
            a: (i % 4096) as u16,
        },
        40960..=40969 => Place::RegA {
            pp: (i - 40960) as u8,
        },
        40970..=40979 => Place::RegP {
            pp: (i - 40970) as u8,
        },
        40980..=40989 => Place::RegQ {
            pp: (i - 40980) as u8,
        },
        40990..=40999 => Place::Phase {
            pp: (i - 40990) as u8,
        },
        41000..=41011 => Place::ChannelMode {
            c: (i - 41000) as u8,
        },
        41012..=41023 => Place::ChannelWord {
            c: (i - 41012) as u8,
        },
        41024 => Place::Clock,
        41025..=41046 => frame_or_device_place(i),
        41047..=106_582 => Place::PaperSymbol { k: i - 41047 },
        106_583 => Place::Slot,
        106_584..=106_591 => Place::WatchEntry {
            i: (i - 106_584) as u8,
        },
        _ => Place::Central {
            a: i - FIXED_PLACES,
        },
    }
}

/// Returns the number of a place.
pub fn place_number(place: &Place) -> u64
    ensures { result ≡ place_number place.now }
{
    match *place {
        Place::Cell { pp, a } => u64::from(pp) * 4096 + u64::from(a),
        Place::RegA { pp } => 40960 + u64::from(pp),
        Place::RegP { pp } => 40970 + u64::from(pp),
        Place::RegQ { pp } => 40980 + u64::from(pp),
        Place::Phase { pp } => 40990 + u64::from(pp),
        Place::ChannelMode { c } => 41000 + u64::from(c),
        Place::ChannelWord { c } => 41012 + u64::from(c),
        Place::Clock => 41024,
        Place::FrameWord { i } => 41025 + u64::from(i),
        Place::Card => 41041,
        Place::CardColumn => 41042,
        Place::ReaderMode => 41043,
        Place::PaperLength => 41044,
        Place::PaperColumn => 41045,
        Place::PrinterMode => 41046,
        Place::PaperSymbol { k } => 41047 + u64::from(k),
        Place::Slot => 106_583,
        Place::WatchEntry { i } => 106_584 + u64::from(i),
        Place::Central { a } => 106_592 + u64::from(a),
    }
}

/// The place with the number of a place is that place, if a machine has it. So no two places have one number.
#[tactic(auto, unfolding(crate::specs::Numbering::place_at))]
pub fn each_place_has_a_number_of_its_own()
    ensures place { (size : ℕ) (p : Place) → Has size p → place_at (place_number p) ≡ p }
    ensures within { (size : ℕ) (p : Place) → Has size p → place_number p < fixed_places + size }
{}
