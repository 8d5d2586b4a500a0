//! Theorems about the origins of a turn, each the contract of a function that does nothing.
ghost use Rattle.pp_machine.specs.Machine.{Machine, lookup, number};
ghost use Rattle.pp_machine.specs.{Printer.printer_step, Reader.reader_step};
ghost use Rattle.pp_origins.specs.Origin.{Origin, result as number_of, results};
ghost use Rattle.pp_origins.specs.Step.{AreEnough, AreReadSame, AreSame, origin_of};
ghost use Rattle.pp_rig.specs.Turn.{clock_step, processor_step, slot_step, turn};
ghost use Rattle.pp_rig.specs.WellFormed.{IsWellFormed};
ghost use Rattle.pp_turn_origins.specs.Devices.{clock_origins, printer_control, printer_origins};
ghost use Rattle.pp_turn_origins.specs.Devices.{reader_control, reader_origins, slot_origins};
ghost use Rattle.pp_turn_origins.specs.Turn.{is_of_processors, processor_origins, turn_control};
ghost use Rattle.std.specs.Prelude.{◌≡◌, None, Some, true};

use pp_machine::Place;

/// Each part of a turn writes the places of its list and no others, in the order of the list, and each new number is the one
/// that its origin makes. Each part reads the machine that the parts before it left.
#[tactic(auto, using(crate::proofs::TurnOrigins::processor_explained, crate::proofs::DeviceOrigins::reader_explained, crate::proofs::DeviceOrigins::printer_explained, crate::proofs::DeviceOrigins::clock_explained))]
pub fn parts_come_from_their_origins()
    ensures processor { (s : Machine) → IsWellFormed s → processor_step s ≡ results s (processor_origins s) }
    ensures reader { (s : Machine) → reader_step s ≡ results s (reader_origins s) }
    ensures printer { (s : Machine) → printer_step s ≡ results s (printer_origins s) }
    ensures clock { (s : Machine) → clock_step s ≡ results s (clock_origins s) }
    ensures slot { (s : Machine) → slot_step s ≡ results s (slot_origins s) }
{}

/// A well-formed machine t that has the same numbers as s at the control places of a turn of s, and where the origin of a
/// place reads, gets the same new number there. If no device writes the place, it has this number after the turn.
pub fn reads_decide_the_turn()
    ensures part { (s t : Machine) (place : Place) (origin : Origin) → IsWellFormed s → IsWellFormed t → t.setup ≡ s.setup →
        t.reader.deck ≡ s.reader.deck → AreSame s t (turn_control s) → origin_of (processor_origins s) place ≡ Some origin →
        AreEnough processor_step s t place origin }
    ensures turn { (s t : Machine) (place : Place) (origin : Origin) → IsWellFormed s → IsWellFormed t → t.setup ≡ s.setup →
        t.reader.deck ≡ s.reader.deck → AreSame s t (turn_control s) → origin_of (processor_origins s) place ≡ Some origin →
        is_of_processors place ≡ true → AreReadSame s t origin.reads →
        (number (turn s) place ≡ number_of s origin) × (number (turn t) place ≡ number_of s origin) }
{}

/// The same of the devices: a machine with the same deck, the same numbers at the control places of a device, and where the
/// origin of a place reads, gets the same new number there. A place that is not in the list of s is not written.
pub fn device_reads_are_enough()
    ensures reader { (s t : Machine) (place : Place) (origin : Origin) → t.setup ≡ s.setup → t.reader.deck ≡ s.reader.deck →
        AreSame s t (reader_control s) → origin_of (reader_origins s) place ≡ Some origin → AreEnough reader_step s t place origin }
    ensures printer { (s t : Machine) (place : Place) (origin : Origin) → t.setup ≡ s.setup → t.reader.deck ≡ s.reader.deck →
        AreSame s t (printer_control s) → origin_of (printer_origins s) place ≡ Some origin → AreEnough printer_step s t place
        origin }
    ensures reader_others { (s t : Machine) (place : Place) → t.setup ≡ s.setup → t.reader.deck ≡ s.reader.deck →
        AreSame s t (reader_control s) → origin_of (reader_origins s) place ≡ None → lookup (reader_step t) place ≡ None }
    ensures printer_others { (s t : Machine) (place : Place) → t.setup ≡ s.setup → AreSame s t (printer_control s) →
        origin_of (printer_origins s) place ≡ None → lookup (printer_step t) place ≡ None }
{}
