//! What an action sets, without a machine.

use arrayvec::ArrayVec;
use pp_actions::*;
use pp_machine::{Place, first_write};

/// Returns the words 0007 and 1234.
fn two_words() -> Values {
    let mut words = ArrayVec::new();
    words.push(7);
    words.push(0o1234);
    Values::new(words)
}

/// Returns the number that the action sets at a place.
fn set_at(action: &Action, place: Place) -> Option<u64> {
    first_write(settings_of(action).as_slice(), &place)
}

#[test]
fn the_first_cell_follows_the_last(rt: HostRuntime) {
    let action = Action::SetCells {
        pp: 3,
        a: 0o7777,
        values: two_words(),
    };
    assert!(rt; set_at(&action, Place::Cell { pp: 3, a: 0o7777 }) == Some(7));
    assert!(rt; set_at(&action, Place::Cell { pp: 3, a: 0 }) == Some(0o1234));
    assert!(rt; set_at(&action, Place::Cell { pp: 3, a: 1 }) == None);
}

#[test]
fn setting_p_ends_a_block_transfer(rt: HostRuntime) {
    let action = Action::SetP { pp: 0, v: 0o100 };
    assert!(rt; set_at(&action, Place::RegP { pp: 0 }) == Some(0o100));
    assert!(rt; set_at(&action, Place::Phase { pp: 0 }) == Some(0));
}

#[test]
fn register_14_is_the_clock(rt: HostRuntime) {
    assert!(rt; Watched::Register { c: 0o14 }.place() == Place::Clock);
    assert!(rt; Watched::Register { c: 0o13 }.place() == Place::ChannelWord { c: 0o13 });
}
