//! Making a machine, and reading it.
ghost use Rattle.std.specs.Prelude.{◌≤◌};

use super::*;

/// Makes a machine with this many blank cards.
fn make_of(alloc: Global, cards: usize, reader: u8, printer: u8) -> Result<Rig, SetupFault>
    requires reads { reader ≤ 0o13 }
    requires prints { printer ≤ 0o13 }
{
    let Ok(deck) = deck_of(alloc, cards, 0) else {
        return Err(SetupFault::NoMemory);
    };
    Rig::new(alloc, setup_of(reader, printer, deck, None))
}

/// Returns why no machine is made with 2001 blank cards, if none is. The reader is on channel 0o12.
fn fault_of(alloc: Global, printer: u8) -> Option<SetupFault>
    requires { printer ≤ 0o13 }
{
    make_of(alloc, 2001, 0o12, printer).err()
}

#[test]
fn refuses_one_channel_before_a_long_deck(rt: HostRuntime) {
    assert!(rt; fault_of(rt.alloc(), 0o12) == Some(SetupFault::SameChannel));
    assert!(rt; fault_of(rt.alloc(), 0o13) == Some(SetupFault::DeckTooLong));
}

#[test]
fn makes_a_machine_of_the_longest_deck(rt: HostRuntime) -> Result<(), Fail> {
    let Ok(rig) = make_of(rt.alloc(), 2000, 0o12, 0o13) else {
        return Err("refused".into());
    };
    assert!(rt; rig.cards() == 2000);
    drop(rig);
    Ok(())
}

/// Makes a machine with an empty reader and a panel.
fn make_empty(alloc: Global, central: CentralSize) -> Result<Rig, SetupFault> {
    let mut setup = setup_of(8, 9, Vec::new(alloc), Some([0o7777; 12]));
    setup.central = central;
    Rig::new(alloc, setup)
}

/// Returns whether the machine has not begun: no turn, no card, no paper, and no watch.
fn is_at_its_start(rig: &Rig) -> bool {
    rig.slot() == 0 && rig.cards() == 0 && rig.paper().len() == 0 && rig.watches().len() == 0
}

/// Returns whether the machine has its devices on channels 0o10 and 0o11, and a panel.
fn has_devices(rig: &Rig) -> bool {
    rig.reader_channel() == 0o10 && rig.printer_channel() == 0o11 && rig.has_panel()
}

/// Checks the parts of a machine that `make_empty` made.
fn check_parts(rt: &impl Abort, rig: &Rig, words: u32) {
    assert!(rt; rig.central_size().words() == words);
    assert!(rt; is_at_its_start(rig));
    assert!(rt; has_devices(rig));
    rig.keeps_ranges();
}

const SIZES: [(CentralSize, u32); 3] = [
    (CentralSize::K32, 0o100000),
    (CentralSize::K64, 0o200000),
    (CentralSize::K128, 0o400000),
];

#[test]
fn tells_its_parts(rt: HostRuntime) -> Result<(), Fail> {
    for (size, words) in SIZES {
        let Ok(rig) = make_empty(rt.alloc(), size) else {
            return Err("refused".into());
        };
        check_parts(&rt, &rig, words);
        drop(rig);
    }
    Ok(())
}
