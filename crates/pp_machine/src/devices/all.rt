//! The devices that every machine has, one after another, and what holds of each.
ghost use Rattle.std.specs.Prelude.{◌≡◌, ◌≢◌, ◌<◌, ℕ, unwrap_or};
ghost use Rattle.std.specs.List.{AllPairs};
ghost use Rattle.pp_machine.specs.Prelude.{Machine, over, number, renamed, places, IsShaped, lookup};
ghost use Rattle.pp_machine.specs.Inner.Printer.{PrinterView, FitsPrinter, printer_pairs, printer_place, printer_writes};
ghost use Rattle.pp_machine.specs.PrinterNumbers.{IsPrinter};
ghost use Rattle.pp_machine.specs.Inner.Reader.{ReaderView, reader_pairs, reader_place, reader_writes};
ghost use Rattle.pp_machine.specs.ReaderNumbers.{IsReader};
ghost use Rattle.pp_machine.specs.Ranges.{channel_count};

use super::{NoDevices, On, OnRecords};
use crate::place::Place;
use crate::printer::{Printer, PrinterRecord};
use crate::reader::{Reader, ReaderRecord};

/// The devices of every machine, in the order of their steps.
pub type AllDevices = On<Reader, On<Printer, NoDevices>>;

/// Their undo records.
pub type AllRecords = OnRecords<ReaderRecord, OnRecords<PrinterRecord, NoDevices>>;

/// Puts the devices on their channels, each 0 to 0o13.
#[tactic(auto, using(crate::proofs::AllDevices::printer_joined, crate::proofs::AllDevices::reader_joined))]
pub fn all_devices(
    reader_channel: u8,
    reader: Reader,
    printer_channel: u8,
    printer: Printer,
) -> AllDevices
    requires reads { reader_channel < channel_count }
    requires prints { printer_channel < channel_count }
    ensures { result ≡ record {
      channel = reader_channel;
      device = reader;
      others = record { channel = printer_channel; device = printer; others = record {} };
    } }
{
    let others = On::new(printer_channel, printer, NoDevices);
    On::new(reader_channel, reader, others)
}

/// Theorem: the numbers of each device are in range. The function does nothing.
pub fn devices_keep_ranges(devices: &AllDevices)
    ensures reader { IsReader devices.now.device }
    ensures printer { IsPrinter devices.now.others.device }
{
    let _cards = devices.device().cards();
    let _paper = devices.others().device().paper();
}

/// After the undo record of a device is written back into a machine, each place in the record has the number that
/// the record holds for it, and every other place keeps its number.
#[tactic(auto, using(crate::proofs::ReaderLaws::reader_restores, crate::proofs::PrinterLaws::printer_restores))]
pub fn device_records_restore()
    ensures reader { (m : Machine) (c : ℕ) (back : ReaderRecord) (place : Place) →
        IsShaped m.setup.central_words m → c < 12 →
        number (over m (renamed (reader_place c) (reader_pairs back))) place
        ≡ unwrap_or (lookup (renamed (reader_place c) (reader_pairs back)) place) (number m place) }
    ensures printer { (m : Machine) (c : ℕ) (back : PrinterRecord) (s : PrinterView) (place : Place) →
        IsShaped m.setup.central_words m → c < 12 → FitsPrinter back s →
        number (over m (renamed (printer_place c) (printer_pairs back))) place
        ≡ unwrap_or (lookup (renamed (printer_place c) (printer_pairs back)) place) (number m place) }
{}

/// No step of a device writes a place twice.
#[tactic(auto, using(crate::proofs::ReaderLaws::reader_distinct, crate::proofs::PrinterLaws::printer_distinct))]
pub fn device_writes_are_distinct()
    ensures reader { (s : ReaderView) → AllPairs (λ one other. one ≢ other) (places (reader_writes s)) }
    ensures printer { (s : PrinterView) → AllPairs (λ one other. one ≢ other) (places (printer_writes s)) }
{}
