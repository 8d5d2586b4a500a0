//! The calls of `pp_machine`: the parts of a machine.

use pp_console::{Counted, load_deck};
use pp_machine::{
    Central, CentralSize, Channel, ChannelState, Channels, Frame, MakeFault, Memory12, Place, Pp,
    Printer, PrinterMode, Reader, ReaderMode,
};
use std::alloc::Global;

/// Writes a cell, a channel and the clock, and reads them.
fn show_channels(rt: &HostRuntime) -> Option<()> {
    let mut memory = Memory12::new(rt.alloc()).ok()?;
    memory.set(0o50, 5);
    let mut channels = Channels::new();
    channels.set(
        0o12,
        Channel {
            state: ChannelState::Empty,
            word: 0o17,
        },
    );
    channels.set_clock(0o7777);
    let (cell, p) = (memory.get(0o50), Pp::new().p);
    let (word, clock) = (channels.get(0o12).word, channels.clock());
    let _ = println!(rt; "cell {cell}, P {p}, channel {word:o}, clock {clock:o}");
    Some(())
}

/// Writes a central word and a frame word, and reads them.
fn show_words(rt: &HostRuntime) -> Option<()> {
    let mut central = Central::new(rt.alloc(), CentralSize::K32).ok()?;
    central.set(0o1000, 5);
    let mut frame = Frame::new();
    frame.unpack(0, 0o1234000005123456);
    let (size, past) = (central.size().words(), central.get(0o100000));
    let word = central.get(0o1000);
    let _ = println!(rt; "central {word} of {size:o}, past the end {past}");
    let (packed, address) = (frame.pack(0), frame.program_address());
    let _ = println!(rt; "frame {packed:o} at {address:o}");
    Some(())
}

/// Starts a card, reads its first column, and undoes that.
fn show_reader(rt: &HostRuntime) -> Option<()> {
    let deck = load_deck(rt.alloc(), &mut Counted::new(b"1 2 3\n".as_slice())).ok()?;
    let mut reader = Reader::new(deck).ok()?;
    let mut line = Channel {
        state: ChannelState::Function,
        word: 1,
    };
    let was = reader
        .step(&mut line)
        .was(0o12, &Place::ChannelMode { c: 0o12 });
    line.state = ChannelState::Empty;
    let sent = reader.step(&mut line);
    let (word, column) = (line.word, reader.column());
    reader.undo(sent, &mut line);
    let (card, cards, before) = (reader.card(), reader.cards(), reader.column());
    let reading = reader.mode() == ReaderMode::Reading;
    let _ = println!(rt; "reader was {was:?}, word {word}, column {column} and {before}");
    let _ = println!(rt; "card {card} of {cards}, reading {reading}");
    Some(())
}

/// Prints a word of two symbols, and undoes that.
fn show_printer(rt: &HostRuntime) -> Option<()> {
    let mut printer = Printer::new(rt.alloc()).ok()?;
    let mut line = Channel {
        state: ChannelState::Function,
        word: 1,
    };
    let _started = printer.step(&mut line);
    line = Channel {
        state: ChannelState::Full,
        word: 0o102,
    };
    let printed = printer.step(&mut line);
    let was = printed.was(0o13, &Place::PaperLength);
    let (symbols, column) = (printer.paper().len(), printer.column());
    printer.undo(printed, &mut line);
    let before = printer.paper().len();
    let printing = printer.mode() == PrinterMode::Printing;
    let _ = println!(rt;
        "printer was {was:?}, symbols {symbols} and {before}, column {column}, printing {printing}"
    );
    Some(())
}

/// Returns what a reader says of a deck of this many cards without a hole.
fn fault_of(alloc: Global, cards: u16) -> Option<&'static str> {
    let mut text = Vec::new(alloc);
    for _ in 0..cards {
        text.push(b'0').ok()?;
        text.push(b'\n').ok()?;
    }
    let deck = load_deck(alloc, &mut Counted::new(text.as_slice())).ok()?;
    match Reader::new(deck) {
        Ok(_reader) => Some("none"),
        Err(MakeFault::NoMemory) => Some("no memory"),
        Err(MakeFault::DeckTooLong) => Some("deck too long"),
    }
}

/// Makes a reader of a deck that has one card too many.
fn show_fault(rt: &HostRuntime) -> Option<()> {
    let fault = fault_of(rt.alloc(), 2001)?;
    let _ = println!(rt; "fault of a reader: {fault}");
    Some(())
}

/// Makes each call of the crate.
pub fn show(rt: &HostRuntime) -> Option<()> {
    show_channels(rt)?;
    show_words(rt)?;
    show_reader(rt)?;
    show_printer(rt)?;
    show_fault(rt)
}
