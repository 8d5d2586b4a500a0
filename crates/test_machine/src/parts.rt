//! Each constructor once, and the parts that no clause compares with the manual.

ghost use Rattle.std.specs.Prelude.{◌≤◌};

use pp_machine::{Central, CentralSize, Channel, ChannelState, Frame, Memory12};
use std::alloc::Global;
use std::test::Fail;

pub fn channel(state: ChannelState, word: u16) -> Channel
    requires { word ≤ 0o7777 }
{
    Channel { state, word }
}

/// Returns whether a new central memory of this size has this many words.
fn has_words(alloc: Global, size: CentralSize, words: u32) -> Result<bool, Fail> {
    let mut central = Central::new(alloc, size)?;
    let last = words.saturating_sub(1);
    central.set(last, 1);
    central.set(words, 1);
    let has_size = central.size() == size && size.words() == words;
    let is_right = has_size && central.get(last) == 1 && central.get(words) == 0;
    drop(central);
    Ok(is_right)
}

#[test]
fn memories_are_made(rt: HostRuntime) -> Result<(), Fail> {
    let mut memory = Memory12::new(rt.alloc())?;
    memory.set(0o7777, 0o1234);
    assert!(rt; memory.get(0o7777) == 0o1234);
    assert!(rt; memory.get(0) == 0);
    drop(memory);
    Ok(())
}

const SIZES: [(CentralSize, u32); 3] = [
    (CentralSize::K32, 0o100000),
    (CentralSize::K64, 0o200000),
    (CentralSize::K128, 0o400000),
];

#[test]
fn central_memories_are_made(rt: HostRuntime) -> Result<(), Fail> {
    for i in 0..SIZES.len() {
        let (size, words) = SIZES[i];
        assert!(rt; has_words(rt.alloc(), size, words)?, "row {i}");
    }
    Ok(())
}

#[test]
fn frame_word_0_has_no_b0(rt: HostRuntime) {
    let mut frame = Frame::new();
    frame.unpack(0, 0o00001234000005123456);
    assert!(rt; frame.pack(0) == 0o00001234000005000000);
    assert!(rt; frame.program_address() == 0o1234);
}

const WORDS: [u64; 16] = [1, 2, 3, 4, 5, 6, 7, 8, 9, 10, 11, 12, 13, 14, 15, 16];

/// Puts sixteen (decimal) words at the end of central memory. Returns whether they are there.
fn holds_sixteen(central: &mut Central) -> bool {
    let is_done = central.set_sixteen(0o77760, &WORDS);
    let is_whole = central.sixteen(0o77760) == Some(&WORDS[..]);
    is_done && is_whole && central.get(0o77757) == 0 && central.get(0o77777) == 16
}

/// Returns whether sixteen words from one word further on are refused, and nothing changes.
fn refuses_sixteen(central: &mut Central) -> bool {
    let is_done = central.set_sixteen(0o77761, &WORDS);
    !is_done && central.get(0o77761) == 2 && central.sixteen(0o77761).is_none()
}

#[test]
fn sixteen_words_are_one_piece(rt: HostRuntime) -> Result<(), Fail> {
    let mut central = Central::new(rt.alloc(), CentralSize::K32)?;
    assert!(rt; holds_sixteen(&mut central));
    assert!(rt; refuses_sixteen(&mut central));
    drop(central);
    Ok(())
}
