//! The setup of a machine.
use pp_machine::CentralSize;

/// What is chosen before a machine is made.
#[derive(Drop)]
pub struct Setup {
    /// How many words central memory has.
    pub central: CentralSize,
    /// The channel of the reader, 0 to 0o13.
    pub reader: u8,
    /// The channel of the printer, 0 to 0o13.
    pub printer: u8,
    /// The reader's cards, of eighty columns of twelve bits each.
    pub deck: Vec<[u16; 80]>,
    /// The dead start panel, twelve words of twelve bits.
    pub panel: Option<[u16; 12]>,
}

/// Why a machine was not made.
#[derive(Clone, Copy, Debug, PartialEq, Eq, Drop)]
pub enum SetupFault {
    /// There was no memory left for it.
    NoMemory,
    /// Reader and printer are to be on one channel.
    SameChannel,
    /// The deck has more than 2000 (decimal) cards.
    DeckTooLong,
}
