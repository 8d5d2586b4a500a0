//! The calls of a machine that name its devices: how it is made, and how they are read.
ghost use Rattle.std.specs.Prelude.{◌≡◌, ◌<◌, ◌≤◌, true, All, IfErr, IfOk, IfSome, None, OnOk, length, take, unwrap_or};
ghost use Rattle.pp_machine.specs.Inner.Attached.{of_device};
ghost use Rattle.pp_machine.specs.Prelude.{number, Has};
ghost use Rattle.pp_machine.specs.ReaderNumbers.{IsCard};
ghost use Rattle.pp_machine.specs.Ranges.{IsInRange, channel_count, twelve_bits};
ghost use Rattle.pp_rig.specs.Starting.{setup_fault, starting};

use super::Rig;
use super::starting::allocate;
use pp_actions::{Setup, SetupFault, WatchList};
use pp_machine::{Channels, Frame, Place, Printer, Reader, all_devices};
use std::alloc::Global;

impl Rig {
    /// Makes the machine at its start: every number is 0, both devices are idle, and nothing is printed or watched
    /// [P30].
    ///
    /// # Errors
    /// The first fault that applies: `SameChannel` if reader and printer are to be on one channel, `DeckTooLong` if
    /// there are more than 2000 (decimal) cards, and `NoMemory` if there is no memory left. The setup is then dropped.
    pub fn new(alloc: Global, setup: Setup) -> Result<Rig, SetupFault>
        requires reads { setup.reader ≤ 0o13 }
        requires prints { setup.printer ≤ 0o13 }
        requires cards { All IsCard setup.deck.items }
        requires panel { IfSome setup.panel (λ panel. All (λ word. word ≤ twelve_bits) panel) }
        ensures returns { IfOk result (λ rig. rig ≡ starting setup) }
        ensures admitted { OnOk result (setup_fault setup ≡ None) }
        ensures fails { IfErr result (λ fault. fault ≡ unwrap_or (setup_fault setup) SetupFault.NoMemory) }
    {
        if setup.reader == setup.printer {
            return Err(SetupFault::SameChannel);
        }
        let Setup {
            central: central_size,
            reader: reader_channel,
            printer: printer_channel,
            deck,
            panel,
        } = setup;
        let Ok(reader) = Reader::new(deck) else {
            return Err(SetupFault::DeckTooLong);
        };
        let Ok((processors, central)) = allocate(alloc, central_size) else {
            return Err(SetupFault::NoMemory);
        };
        let Ok(printer) = Printer::new(alloc) else {
            return Err(SetupFault::NoMemory);
        };
        Ok(Rig {
            processors,
            channels: Channels::new(),
            central,
            frame: Frame::new(),
            devices: all_devices(reader_channel, reader, printer_channel, printer),
            slot: 0,
            watches: WatchList::new(),
            central_size,
            panel,
        })
    }

    /// Returns how many cards the reader's deck has, including those that were read.
    pub fn cards(&self) -> u32
        ensures { result ≡ length self.now.reader.deck }
    {
        self.devices.device().cards()
    }

    /// Returns what the printer has printed: symbols 0 to 0o77 in display code, and 0o100 for the end of a line.
    pub fn paper(&self) -> &[u8]
        ensures { result.now ≡ take self.now.printer.length self.now.printer.symbols }
    {
        self.devices.others().device().paper()
    }

    /// Returns the channel of the reader, 0 to 0o13.
    pub fn reader_channel(&self) -> u8
        ensures value { result ≡ self.now.setup.reader_channel }
        ensures in_range { result < channel_count }
    {
        self.devices.channel()
    }

    /// Returns the channel of the printer, 0 to 0o13.
    pub fn printer_channel(&self) -> u8
        ensures value { result ≡ self.now.setup.printer_channel }
        ensures in_range { result < channel_count }
    {
        self.devices.others().channel()
    }

    /// Returns the number at a place of a device or of a channel.
    pub(super) fn device_number(&self, place: &Place) -> u64
        requires has { Has self.now.setup.central_words place.now }
        requires of_device { of_device place.now ≡ true }
        ensures value { result ≡ number self.now place.now }
        ensures in_range { IsInRange place.now result }
    {
        match *place {
            Place::ChannelMode { c } => self.channels.get(c).state as u64,
            Place::ChannelWord { c } => u64::from(self.channels.get(c).word),
            Place::Card => u64::from(self.devices.device().card()),
            Place::CardColumn => u64::from(self.devices.device().column()),
            Place::ReaderMode => self.devices.device().mode() as u64,
            Place::PaperLength => u64::from(self.devices.others().device().length()),
            Place::PaperColumn => u64::from(self.devices.others().device().column()),
            Place::PrinterMode => self.devices.others().device().mode() as u64,
            Place::PaperSymbol { k } => u64::from(self.devices.others().device().symbol(k)),
            _ => 0,
        }
    }
}
