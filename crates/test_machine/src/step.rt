//! Worked steps. Words, addresses and numbers are octal.

mod blocks;
mod central;
mod channels;
mod codes;
mod records;

ghost use Rattle.std.specs.Prelude.{◌<◌, length};
ghost use Rattle.pp_step.specs.Step.{FitsPp};

use pp_machine::{
    CHANNELS, Central, CentralSize, Channel, ChannelState, Channels, Frame, Memory12, Pp,
};
use pp_step::{PpRecord, StepRecord, step_into, undo_by};
use std::alloc::Global;
use std::process::Abort;
use std::test::Fail;

/// The parts of a machine that a step reads and writes.
#[derive(Drop)]
struct Machine {
    pp: Pp,
    memory: Memory12,
    channels: Channels,
    central: Central,
    frame: Frame,
}

fn make(alloc: Global, size: CentralSize) -> Result<Machine, Fail> {
    Ok(Machine {
        pp: Pp::new(),
        memory: Memory12::new(alloc)?,
        channels: Channels::new(),
        central: Central::new(alloc, size)?,
        frame: Frame::new(),
    })
}

/// A machine, and its twin, which is equal.
#[derive(Drop)]
struct Twins {
    machine: Machine,
    twin: Machine,
}

fn make_twins(alloc: Global, size: CentralSize) -> Result<Twins, Fail> {
    Ok(Twins {
        machine: make(alloc, size)?,
        twin: make(alloc, size)?,
    })
}

fn forward(m: &mut Machine) -> PpRecord
    ensures { FitsPp (length m.new.central) result }
{
    let mut back = PpRecord::Step(StepRecord::nothing());
    step_into(
        &mut m.pp,
        &mut m.memory,
        &mut m.channels,
        &mut m.central,
        &mut m.frame,
        &mut back,
    );
    back
}

fn take_back(m: &mut Machine, back: PpRecord)
    requires { FitsPp (length m.old.central) back }
{
    undo_by(
        &back,
        &mut m.pp,
        &mut m.memory,
        &mut m.channels,
        &mut m.central,
        &mut m.frame,
    );
}

/// Performs a step and undoes it.
fn forward_and_back(m: &mut Machine) {
    let back = forward(m);
    take_back(m, back);
}

/// Returns P, A, Q and the phase.
fn registers(m: &Machine) -> (u16, u32, u16, u16) {
    (m.pp.p, m.pp.a, m.pp.q, m.pp.phase)
}

/// Returns whether a data channel has this state and register.
fn has_channel(m: &Machine, c: u8, state: ChannelState, word: u16) -> bool {
    if c >= CHANNELS {
        return false;
    }
    let channel = m.channels.get(c);
    channel.state == state && channel.word == word
}

fn has_package(m: &Machine, i: u8, word: u64) -> bool {
    i < 16 && m.frame.pack(i) == word
}

fn is_same(m: &Machine, other: &Machine) -> bool {
    registers(m) == registers(other)
        && has_same_cells(m, other)
        && has_same_channels(m, other)
        && has_same_words(m, other)
        && m.frame.package() == other.frame.package()
}

fn has_same_cells(m: &Machine, other: &Machine) -> bool {
    for a in 0..0o10000 {
        if m.memory.get(a) != other.memory.get(a) {
            return false;
        }
    }
    true
}

fn has_same_channels(m: &Machine, other: &Machine) -> bool {
    for c in 0..CHANNELS {
        if m.channels.get(c) != other.channels.get(c) {
            return false;
        }
    }
    m.channels.clock() == other.channels.clock()
}

fn has_same_words(m: &Machine, other: &Machine) -> bool {
    for a in 0..0o400000 {
        if m.central.get(a) != other.central.get(a) {
            return false;
        }
    }
    true
}

/// Puts words into the cells from an address on. Cell 7777 is followed by cell 0000.
fn put_cells(m: &mut Machine, address: u16, words: &[u16]) {
    let mut at = address;
    for word in words {
        m.memory.set(at & 0o7777, *word & 0o7777);
        at = (at & 0o7777) + 1;
    }
}

/// Returns whether the cells from an address on have these words.
fn has_cells(m: &Machine, address: u16, words: &[u16]) -> bool {
    let mut at = address;
    for word in words {
        if m.memory.get(at & 0o7777) != *word {
            return false;
        }
        at = (at & 0o7777) + 1;
    }
    true
}

fn put_registers(m: &mut Machine, p: u16, a: u32) {
    m.pp.p = p & 0o7777;
    m.pp.a = a & 0o777777;
    m.pp.q = 0;
    m.pp.phase = 0;
}

/// Puts a phase that a test uses.
fn put_phase(m: &mut Machine, phase: u16) {
    if let 0o6320 | 0o7103 | 0o7105 | 0o7305 = phase {
        m.pp.phase = phase;
    }
}

fn go_forward(m: &mut Machine, steps: usize) {
    for _ in 0..steps {
        let _ = forward(m);
    }
}

/// Performs steps of the program in `words`, which goes to cells 0100 and on, with this number in A.
fn run(m: &mut Machine, words: &[u16], a: u32, steps: usize) {
    put_cells(m, 0o100, words);
    put_registers(m, 0o100, a);
    go_forward(m, steps);
}

fn put_channel(m: &mut Machine, c: u8, state: ChannelState, word: u16) {
    if c < CHANNELS {
        m.channels.set(
            c,
            Channel {
                state,
                word: word & 0o7777,
            },
        );
    }
}

fn put_word(m: &mut Machine, a: u32, word: u64) {
    m.central.set(a, word & 0o77777777777777777777);
}

/// Returns the number of word `i` of those that count up from `first`. They are shifted past the place of B0.
fn counting(first: u64, i: u64) -> u64 {
    first.wrapping_add(i) << 18
}

/// Puts numbers that count up from `first` into the frame.
fn put_counting_package(m: &mut Machine, first: u64) {
    for i in 0..16 {
        put_package(m, i, counting(first, u64::from(i)));
    }
}

/// Puts numbers that count up from `first` into sixteen (decimal) central words.
fn put_counting_words(m: &mut Machine, address: u32, first: u64) {
    for i in 0..16u32 {
        put_word(m, address.wrapping_add(i), counting(first, u64::from(i)));
    }
}

fn has_counting_package(m: &Machine, count: u8, first: u64) -> bool {
    for i in 0..count {
        if !has_package(m, i, counting(first, u64::from(i))) {
            return false;
        }
    }
    true
}

fn has_counting_words(m: &Machine, address: u32, count: u32, first: u64) -> bool {
    for i in 0..count {
        if m.central.get(address.wrapping_add(i)) != counting(first, u64::from(i)) {
            return false;
        }
    }
    true
}

/// Returns whether words of the frame and of central memory are zero.
fn has_zeros(m: &Machine, frame: (u8, u8), central: (u32, u32)) -> bool {
    let mut are_zero = true;
    for i in frame.0..frame.1 {
        are_zero &= has_package(m, i, 0);
    }
    for a in central.0..central.1 {
        are_zero &= m.central.get(a) == 0;
    }
    are_zero
}

fn put_package(m: &mut Machine, i: u8, word: u64) {
    if i < 16 {
        m.frame.unpack(i, word & 0o77777777777777777777);
    }
}

/// A row of a test: numbers that are put into a machine, steps, or numbers that it must have.
enum Row {
    /// Words, which go to the cells from an address on.
    Cells(u16, &'static [u16]),
    /// P and A. Q and the phase become zero.
    Registers(u16, u32),
    Q(u16),
    Phase(u16),
    Word(u32, u64),
    Channel(u8, ChannelState, u16),
    Clock(u16),
    Package(u8, u64),
    /// Numbers that count up from this one in all words of the frame, shifted past the place of B0.
    CountingPackage(u64),
    /// The same in sixteen (decimal) central words from an address on.
    CountingWords(u32, u64),
    Steps(usize),
    /// A program for cells 0100 and on, A, and the number of its steps.
    Run(&'static [u16], u32, usize),
    /// A step that is undone.
    ForwardAndBack,
    /// P, A, Q and the phase.
    HasRegisters(u16, u32, u16, u16),
    HasP(u16),
    HasQ(u16),
    HasCells(u16, &'static [u16]),
    HasWord(u32, u64),
    HasChannel(u8, ChannelState, u16),
    HasClock(u16),
    HasPackage(u8, u64),
    HasProgramAddress(u32),
    /// How many words of the frame count up, from which number.
    HasCountingPackage(u8, u64),
    /// The address of central words that count up, how many, and from which number.
    HasCountingWords(u32, u32, u64),
    /// Words of the frame and of central memory that are zero, from the first number up to the second.
    HasZeros((u8, u8), (u32, u32)),
}

/// Puts the numbers of a row into a machine, or performs its steps.
fn put(m: &mut Machine, row: &Row) {
    match *row {
        Row::Cells(address, words) => put_cells(m, address, words),
        Row::Registers(p, a) => put_registers(m, p, a),
        Row::Q(q) => m.pp.q = q & 0o7777,
        Row::Phase(phase) => put_phase(m, phase),
        Row::Word(a, word) => put_word(m, a, word),
        Row::Channel(c, state, word) => put_channel(m, c, state, word),
        Row::Clock(n) => m.channels.set_clock(n & 0o7777),
        Row::Package(i, word) => put_package(m, i, word),
        Row::CountingPackage(first) => put_counting_package(m, first),
        Row::CountingWords(a, first) => put_counting_words(m, a, first),
        Row::Steps(n) => go_forward(m, n),
        Row::Run(words, a, n) => run(m, words, a, n),
        Row::ForwardAndBack => forward_and_back(m),
        _ => {}
    }
}

/// Returns whether a machine has the numbers of a row, if the row names what it must have.
fn has(m: &Machine, row: &Row) -> bool {
    match *row {
        Row::HasRegisters(p, a, q, phase) => registers(m) == (p, a, q, phase),
        Row::HasP(p) => m.pp.p == p,
        Row::HasQ(q) => m.pp.q == q,
        Row::HasCells(address, words) => has_cells(m, address, words),
        Row::HasWord(a, word) => m.central.get(a) == word,
        Row::HasChannel(c, state, word) => has_channel(m, c, state, word),
        Row::HasClock(n) => m.channels.clock() == n,
        Row::HasPackage(i, word) => has_package(m, i, word),
        Row::HasProgramAddress(p) => m.frame.program_address() == p,
        Row::HasCountingPackage(count, first) => has_counting_package(m, count, first),
        Row::HasCountingWords(a, count, first) => has_counting_words(m, a, count, first),
        Row::HasZeros(frame, central) => has_zeros(m, frame, central),
        _ => true,
    }
}

/// Follows the rows of an example. Its name and the number of a row that fails are written.
fn follow(rt: &impl Abort, m: &mut Machine, name: &str, rows: &[Row]) {
    for i in 0..rows.len() {
        put(m, &rows[i]);
        assert!(rt; has(m, &rows[i]), "{name}, row {i}");
    }
}

/// Follows the rows of an example on a new machine.
fn follow_anew(rt: &impl Abort, alloc: Global, name: &str, rows: &[Row]) -> Result<(), Fail> {
    let mut m = make(alloc, CentralSize::K32)?;
    follow(rt, &mut m, name, rows);
    drop(m);
    Ok(())
}

/// What an example shows, and its rows.
type Example = (&'static str, &'static [Row]);

/// Follows each example on a new machine.
fn follow_each(rt: &impl Abort, alloc: Global, examples: &[Example]) -> Result<(), Fail> {
    for i in 0..examples.len() {
        let (name, rows) = examples[i];
        follow_anew(rt, alloc, name, rows)?;
    }
    Ok(())
}

fn put_in_twin(twin: &mut Machine, row: &Row) {
    match row {
        Row::ForwardAndBack => {}
        _ => put(twin, row),
    }
}

/// Returns whether a machine has the numbers of a row, and its twin is equal.
fn has_with_twin(twins: &Twins, row: &Row) -> bool {
    has(&twins.machine, row) && is_same(&twins.machine, &twins.twin)
}

/// Follows the rows of an example on a machine and its twin. A step that is undone is the machine's alone, and makes it
/// equal to its twin again.
fn follow_twins(rt: &impl Abort, twins: &mut Twins, name: &str, rows: &[Row]) {
    for i in 0..rows.len() {
        put(&mut twins.machine, &rows[i]);
        put_in_twin(&mut twins.twin, &rows[i]);
        assert!(rt; has_with_twin(twins, &rows[i]), "{name}, row {i}");
    }
}

/// What an example of a machine and its twin shows, the size of its central memory, and its rows.
type TwinExample = (&'static str, CentralSize, &'static [Row]);

fn follow_twins_anew(rt: &impl Abort, alloc: Global, example: &TwinExample) -> Result<(), Fail> {
    let (name, size, rows) = *example;
    let mut twins = make_twins(alloc, size)?;
    follow_twins(rt, &mut twins, name, rows);
    drop(twins);
    Ok(())
}

/// Follows each example on a new machine and its twin.
fn follow_twins_each(rt: &impl Abort, alloc: Global, examples: &[TwinExample]) -> Result<(), Fail> {
    for i in 0..examples.len() {
        follow_twins_anew(rt, alloc, &examples[i])?;
    }
    Ok(())
}
