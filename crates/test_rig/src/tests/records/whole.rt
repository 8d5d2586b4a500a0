//! All numbers of a machine, by their places.
use crate::tests::has;
use pp_history::{Reversible, Session};
use pp_machine::Place;
use pp_rig::{Rig, old_value};
use std::alloc::{AllocError, Global};

/// Adds these places.
fn push_all(places: &mut Vec<Place>, others: &[Place]) -> Result<(), AllocError> {
    for place in others {
        places.push(*place)?;
    }
    Ok(())
}

/// Adds the places of a processor: its memory, its registers and its phase.
fn push_processor(places: &mut Vec<Place>, pp: u8) -> Result<(), AllocError> {
    for a in 0..4096u16 {
        places.push(Place::Cell { pp, a })?;
    }
    let registers = [
        Place::RegA { pp },
        Place::RegP { pp },
        Place::RegQ { pp },
        Place::Phase { pp },
    ];
    push_all(places, &registers)
}

/// The places of the devices and of the barrel.
const PARTS: [Place; 8] = [
    Place::Clock,
    Place::Slot,
    Place::Card,
    Place::CardColumn,
    Place::ReaderMode,
    Place::PaperLength,
    Place::PaperColumn,
    Place::PrinterMode,
];

/// Adds the places of the channels, of the devices and of the barrel.
fn push_parts(places: &mut Vec<Place>) -> Result<(), AllocError> {
    for c in 0..12u8 {
        places.push(Place::ChannelMode { c })?;
        places.push(Place::ChannelWord { c })?;
    }
    for i in 0..8u8 {
        places.push(Place::WatchEntry { i })?;
    }
    push_all(places, &PARTS)
}

/// Adds the places of central memory, of the frame and of the paper.
fn push_words(places: &mut Vec<Place>, central_words: u32) -> Result<(), AllocError> {
    for a in 0..central_words {
        places.push(Place::Central { a })?;
    }
    for i in 0..16u8 {
        places.push(Place::FrameWord { i })?;
    }
    for k in 0..65536u32 {
        places.push(Place::PaperSymbol { k })?;
    }
    Ok(())
}

/// Returns every place of a machine with this many central words.
pub fn places_of(alloc: Global, central_words: u32) -> Result<Vec<Place>, AllocError> {
    let mut places = Vec::new(alloc);
    for pp in 0..10u8 {
        push_processor(&mut places, pp)?;
    }
    push_parts(&mut places)?;
    push_words(&mut places, central_words)?;
    Ok(places)
}

/// Returns the numbers at the places. There are fewer if the machine lacks a place.
pub fn numbers_at(alloc: Global, rig: &Rig, places: &[Place]) -> Result<Vec<u64>, AllocError> {
    let mut numbers = Vec::new(alloc);
    for place in places {
        if has(rig, place) {
            numbers.push(rig.value(place))?;
        }
    }
    Ok(numbers)
}

/// Returns whether the newest undo record has the old number of each place that changed, and only old numbers.
pub fn is_true_of(session: &Session<Rig>, places: &[Place], before: &[u64], after: &[u64]) -> bool {
    let Some(back) = session.newest() else {
        return false;
    };
    for i in 0..places.len().min(before.len()).min(after.len()) {
        if old_value(&back, &places[i]).unwrap_or(after[i]) != before[i] {
            return false;
        }
    }
    true
}
