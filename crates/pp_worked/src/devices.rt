//! The card reader and the printer, in single steps.

ghost use Rattle.std.specs.Prelude.{[], ◌∷◌};
ghost use Rattle.pp_machine.specs.Inner.Device.{AtOwn, AtState, AtWord};
ghost use Rattle.pp_machine.specs.Inner.Printer.{Length, Symbol, Column as PaperColumn, Mode as PrinterMode};
ghost use Rattle.pp_machine.specs.Inner.Reader.{Card, Column, Mode};
ghost use Rattle.pp_worked.specs.Devices.{PrinterLeads, ReaderLeads, card, one_card};

/// Function 0001 starts the reader at the first column of a card. The rest of a card that was begun is skipped.
/// The reader has no function 0004, so that code stays in the channel.
pub fn reader_functions()
    ensures starts { ReaderLeads one_card ((AtState, 3) ∷ (AtWord, 1) ∷ [])
        ((AtState, 0) ∷ (AtOwn Card, 0) ∷ (AtOwn Column, 0) ∷ (AtOwn Mode, 1) ∷ []) }
    ensures leaves_a_card_behind { ReaderLeads one_card ((AtState, 3) ∷ (AtWord, 1) ∷ (AtOwn Column, 1) ∷ (AtOwn Mode, 1) ∷ [])
        ((AtState, 0) ∷ (AtOwn Card, 1) ∷ (AtOwn Column, 0) ∷ (AtOwn Mode, 0) ∷ []) }
    ensures none_of_its_own { ReaderLeads one_card ((AtState, 3) ∷ (AtWord, 4) ∷ [])
        ((AtState, 3) ∷ (AtWord, 4) ∷ (AtOwn Mode, 0) ∷ []) }
{}

/// While it reads, the reader puts a column into an empty channel and waits while the channel is full. After the last
/// of 120 columns it makes the channel inactive.
pub fn columns()
    ensures first { ReaderLeads one_card ((AtState, 1) ∷ (AtOwn Mode, 1) ∷ [])
        ((AtState, 2) ∷ (AtWord, 1) ∷ (AtOwn Column, 1) ∷ (AtOwn Mode, 1) ∷ []) }
    ensures waits { ReaderLeads one_card ((AtState, 2) ∷ (AtWord, 1) ∷ (AtOwn Column, 1) ∷ (AtOwn Mode, 1) ∷ [])
        ((AtState, 2) ∷ (AtWord, 1) ∷ (AtOwn Column, 1) ∷ (AtOwn Mode, 1) ∷ []) }
    ensures second { ReaderLeads one_card ((AtState, 1) ∷ (AtWord, 1) ∷ (AtOwn Column, 1) ∷ (AtOwn Mode, 1) ∷ [])
        ((AtState, 2) ∷ (AtWord, 2) ∷ (AtOwn Column, 2) ∷ (AtOwn Mode, 1) ∷ []) }
    ensures last { ReaderLeads one_card ((AtState, 1) ∷ (AtOwn Column, 0o117) ∷ (AtOwn Mode, 1) ∷ [])
        ((AtState, 2) ∷ (AtWord, 0) ∷ (AtOwn Column, 0o120) ∷ (AtOwn Card, 0) ∷ (AtOwn Mode, 1) ∷ []) }
    ensures end_of_card { ReaderLeads one_card ((AtState, 1) ∷ (AtOwn Column, 0o120) ∷ (AtOwn Mode, 1) ∷ [])
        ((AtState, 0) ∷ (AtOwn Column, 0) ∷ (AtOwn Card, 1) ∷ (AtOwn Mode, 0) ∷ []) }
{}

/// Function 0002 asks for the status: 0000 if a card is left, otherwise 0001. Then the channel becomes inactive.
pub fn reader_status()
    ensures asked { ReaderLeads [] ((AtState, 3) ∷ (AtWord, 2) ∷ []) ((AtState, 0) ∷ (AtOwn Mode, 2) ∷ []) }
    ensures card_left { ReaderLeads (card [] ∷ []) ((AtState, 1) ∷ (AtWord, 0o1234) ∷ (AtOwn Mode, 2) ∷ [])
        ((AtState, 2) ∷ (AtWord, 0) ∷ (AtOwn Mode, 3) ∷ []) }
    ensures no_card_left { ReaderLeads (card [] ∷ []) ((AtState, 1) ∷ (AtOwn Card, 1) ∷ (AtOwn Mode, 2) ∷ [])
        ((AtState, 2) ∷ (AtWord, 1) ∷ (AtOwn Mode, 3) ∷ []) }
    ensures ended { ReaderLeads [] ((AtState, 1) ∷ (AtOwn Mode, 3) ∷ []) ((AtState, 0) ∷ (AtOwn Mode, 0) ∷ []) }
{}

/// Function 0001 makes the printer print, 0002 asks for its status, and 0003 ends a line in any mode.
pub fn printer_functions()
    ensures prints { PrinterLeads ((AtState, 3) ∷ (AtWord, 1) ∷ [])
        ((AtState, 0) ∷ (AtOwn PrinterMode, 1) ∷ (AtOwn Length, 0) ∷ []) }
    ensures status { PrinterLeads ((AtState, 3) ∷ (AtWord, 2) ∷ [])
        ((AtState, 0) ∷ (AtOwn PrinterMode, 2) ∷ (AtOwn Length, 0) ∷ []) }
    ensures line_end { PrinterLeads ((AtState, 3) ∷ (AtWord, 3) ∷ (AtOwn Length, 2) ∷ (AtOwn PaperColumn, 2) ∷ [])
        ((AtState, 0) ∷ (AtOwn PrinterMode, 0) ∷ (AtOwn (Symbol 2), 0o100) ∷ (AtOwn Length, 3) ∷ (AtOwn PaperColumn, 0) ∷ []) }
    ensures no_line_end_on_full_paper { PrinterLeads ((AtState, 3) ∷ (AtWord, 3) ∷ (AtOwn Length, 0o200000) ∷ [])
        ((AtState, 3) ∷ (AtWord, 3) ∷ (AtOwn Length, 0o200000) ∷ []) }
{}

/// A word has two symbols, the upper six bits first. Symbols past column 210 are dropped. If fewer than two symbols
/// fit on the paper, the word stays in the channel and the status is 0001.
pub fn printed_words()
    ensures two_symbols { PrinterLeads ((AtState, 2) ∷ (AtWord, 0o0102) ∷ (AtOwn PrinterMode, 1) ∷ [])
        ((AtState, 1) ∷ (AtOwn (Symbol 0), 0o01) ∷ (AtOwn (Symbol 1), 0o02) ∷ (AtOwn Length, 2) ∷ (AtOwn PaperColumn, 2) ∷ []) }
    ensures upper_symbol { PrinterLeads ((AtState, 2) ∷ (AtWord, 0o0102) ∷ (AtOwn PrinterMode, 1) ∷ (AtOwn PaperColumn, 0o207) ∷ [])
        ((AtState, 1) ∷ (AtOwn (Symbol 0), 0o01) ∷ (AtOwn (Symbol 1), 0) ∷ (AtOwn Length, 1) ∷ (AtOwn PaperColumn, 0o210) ∷ []) }
    ensures none { PrinterLeads ((AtState, 2) ∷ (AtWord, 0o0102) ∷ (AtOwn PrinterMode, 1) ∷ (AtOwn PaperColumn, 0o210) ∷ [])
        ((AtState, 1) ∷ (AtOwn (Symbol 0), 0) ∷ (AtOwn Length, 0) ∷ (AtOwn PaperColumn, 0o210) ∷ []) }
    ensures no_room { PrinterLeads ((AtState, 2) ∷ (AtWord, 0o0102) ∷ (AtOwn PrinterMode, 1) ∷ (AtOwn Length, 0o177777) ∷ [])
        ((AtState, 2) ∷ (AtWord, 0o0102) ∷ (AtOwn PrinterMode, 1) ∷ (AtOwn Length, 0o177777) ∷ []) }
    ensures no_room_status { PrinterLeads ((AtState, 1) ∷ (AtOwn PrinterMode, 2) ∷ (AtOwn Length, 0o177777) ∷ [])
        ((AtState, 2) ∷ (AtWord, 1) ∷ (AtOwn PrinterMode, 3) ∷ []) }
{}
