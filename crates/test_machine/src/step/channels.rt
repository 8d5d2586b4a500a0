//! Codes 64 to 67, 70, 72 and 74 to 77.

use super::*;
use pp_machine::ChannelState::{Empty, Full, Function, Inactive};

const STATES: [ChannelState; 4] = [Inactive, Empty, Full, Function];

/// For each code, the states in which it does not wait; afterwards the state, the register, A and P.
const EFFECTS: [(u16, ChannelState, ChannelState, u16, u32, u16); 8] = [
    (0o7003, Full, Empty, 0o1234, 0o001234, 0o101),
    (0o7203, Empty, Full, 0o4321, 0o654321, 0o101),
    (0o7403, Inactive, Empty, 0o1234, 0o654321, 0o101),
    (0o7503, Empty, Inactive, 0o1234, 0o654321, 0o101),
    (0o7503, Full, Inactive, 0o1234, 0o654321, 0o101),
    (0o7503, Function, Inactive, 0o1234, 0o654321, 0o101),
    (0o7603, Inactive, Function, 0o4321, 0o654321, 0o101),
    (0o7703, Inactive, Function, 0o0017, 0o654321, 0o102),
];

const CODES: [u16; 6] = [0o7003, 0o7203, 0o7403, 0o7503, 0o7603, 0o7703];

/// Returns whether channel 3 has this state and register, and the processor this A and P.
fn is_at(m: &Machine, state: ChannelState, register: u16, a: u32, p: u16) -> bool {
    has_channel(m, 3, state, register) && m.pp.a == a && m.pp.p == p
}

/// Returns whether nothing has changed.
fn is_waiting(m: &Machine, before: ChannelState) -> bool {
    is_at(m, before, 0o1234, 0o654321, 0o100)
}

/// Returns whether the machine is as it should be after a code in a state.
fn is_after(m: &Machine, word: u16, before: ChannelState) -> bool {
    for i in 0..EFFECTS.len() {
        let (code, from, to, register, a, p) = EFFECTS[i];
        if code == word && from == before {
            return is_at(m, to, register, a, p);
        }
    }
    is_waiting(m, before)
}

/// Performs a code and undoes it. Returns whether the machine is as it should be each time.
fn is_right(m: &mut Machine, word: u16, before: ChannelState) -> bool {
    put_channel(m, 3, before, 0o1234);
    run(m, &[word, 0o17], 0o654321, 0);
    let back = forward(m);
    let is_done = is_after(m, word, before);
    take_back(m, back);
    is_done && is_waiting(m, before)
}

fn compare_code(rt: &impl Abort, m: &mut Machine, word: u16) {
    for k in 0..STATES.len() {
        assert!(rt; is_right(m, word, STATES[k]), "{word:o} in state {k}");
    }
}

/// A wait changes nothing, not even P.
#[test]
fn each_code_in_each_state(rt: HostRuntime) -> Result<(), Fail> {
    let mut m = make(rt.alloc(), CentralSize::K32)?;
    for i in 0..CODES.len() {
        compare_code(&rt, &mut m, CODES[i]);
    }
    drop(m);
    Ok(())
}

/// For each code, P after it in each state.
const TARGETS: [(u16, [u16; 4]); 4] = [
    (0o6403, [0o102, 0o200, 0o200, 0o200]),
    (0o6503, [0o200, 0o102, 0o102, 0o102]),
    (0o6603, [0o102, 0o102, 0o200, 0o200]),
    (0o6703, [0o200, 0o200, 0o102, 0o102]),
];

/// Returns whether a code leaves this P if channel 3 is in this state.
fn goes_to(m: &mut Machine, word: u16, state: ChannelState, p: u16) -> bool {
    put_channel(m, 3, state, 0);
    run(m, &[word, 0o200], 0, 1);
    m.pp.p == p
}

fn compare_targets(rt: &impl Abort, m: &mut Machine, word: u16, targets: [u16; 4]) {
    for k in 0..4 {
        assert!(rt;
            goes_to(m, word, STATES[k], targets[k]),
            "{word:o} in state {k}"
        );
    }
}

#[test]
fn each_test_in_each_state(rt: HostRuntime) -> Result<(), Fail> {
    let mut m = make(rt.alloc(), CentralSize::K32)?;
    for i in 0..TARGETS.len() {
        let (word, targets) = TARGETS[i];
        compare_targets(&rt, &mut m, word, targets);
    }
    drop(m);
    Ok(())
}

/// Words, and A and P after them.
const PAST_THE_TWELVE: [(u16, u32, u16); 22] = [
    (0o6414, 0o000005, 0o200),
    (0o6514, 0o000005, 0o102),
    (0o6614, 0o000005, 0o200),
    (0o6714, 0o000005, 0o102),
    (0o7014, 0o007776, 0o101),
    (0o7214, 0o000005, 0o100),
    (0o7414, 0o000005, 0o100),
    (0o7514, 0o000005, 0o101),
    (0o7614, 0o000005, 0o100),
    (0o7714, 0o000005, 0o100),
    (0o6415, 0o000005, 0o102),
    (0o6515, 0o000005, 0o200),
    (0o6615, 0o000005, 0o102),
    (0o6715, 0o000005, 0o200),
    (0o7015, 0o000005, 0o100),
    (0o7215, 0o000005, 0o100),
    (0o7415, 0o000005, 0o100),
    (0o7515, 0o000005, 0o100),
    (0o7615, 0o000005, 0o100),
    (0o7715, 0o000005, 0o100),
    (0o6577, 0o000005, 0o200),
    (0o7077, 0o000005, 0o100),
];

/// Returns whether the clock has this number, and the channels are as in a new machine.
fn has_new_channels(m: &Machine, clock: u16) -> bool {
    for c in 0..CHANNELS {
        if !has_channel(m, c, Inactive, 0) {
            return false;
        }
    }
    m.channels.clock() == clock
}

/// Performs a code with 5 in A. Returns whether it leaves these A and P, and no channel changes.
fn leaves(m: &mut Machine, word: u16, a: u32, p: u16) -> bool {
    run(m, &[word, 0o200], 5, 1);
    m.pp.a == a && m.pp.p == p && has_new_channels(m, 0o7776)
}

/// Channel 14 is the clock, always active and full; 15 to 77 name no channel and are inactive.
#[test]
fn codes_on_channels_past_the_twelve(rt: HostRuntime) -> Result<(), Fail> {
    let mut m = make(rt.alloc(), CentralSize::K32)?;
    m.channels.set_clock(0o7776);
    for i in 0..PAST_THE_TWELVE.len() {
        let (word, a, p) = PAST_THE_TWELVE[i];
        assert!(rt; leaves(&mut m, word, a, p), "after {word:o}");
    }
    drop(m);
    Ok(())
}
