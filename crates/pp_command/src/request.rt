//! What a line asks for.
use pp_actions::Action;

/// What a line asks for. Only a `Command` guarantees the ranges.
#[derive(Drop)]
pub enum Request {
    /// A change by the operator.
    Act(Action),
    /// Make at most this many turns, 1 to 1000000 (octal).
    Step(u32),
    /// Undo this many actions, 1 to 1000000 (octal).
    Back(u32),
    /// Undo the actions back to the latest change of a watched place.
    BackToChange,
    /// Redo this many actions, 1 to 1000000 (octal).
    Forward(u32),
    /// Dump the cells of a processor (0 to 11 octal) from the first address to the last, 0 to 7777 octal.
    DumpCells { pp: u8, first: u16, last: u16 },
    /// Dump the registers of a processor, 0 to 11 octal.
    DumpProcessor(u8),
    /// Dump the channels and the clock.
    DumpChannels,
    /// Dump the central words from the first address to the last, below 400000 octal.
    DumpCentral { first: u32, last: u32 },
    /// Dump the exchange package.
    DumpFrame,
    /// Dump the card reader.
    DumpReader,
    /// Dump the line printer and its paper.
    DumpPrinter,
    /// Dump the watched places.
    DumpWatches,
}
