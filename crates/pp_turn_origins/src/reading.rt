//! The origins of what the next turn's processor writes, read from the machine.
ghost use Rattle.pp_machine.specs.Machine.{Has, number, processor};
ghost use Rattle.pp_machine.specs.Ranges.{IsInRange, eighteen_bits, twelve_bits};
ghost use Rattle.pp_origins.specs.Blocks.{block_row};
ghost use Rattle.pp_origins.specs.Links.{links_of};
ghost use Rattle.pp_origins.specs.Rows.{row_of};
ghost use Rattle.pp_origins.specs.Step.{block_origins, decided, instruction_origins, operand_address, step_origins};
ghost use Rattle.pp_step.specs.Codes.{number_of};
ghost use Rattle.pp_step.specs.Instruction.{address_of as mode_address, Memory};
ghost use Rattle.pp_step.specs.InstructionTable.{row_of as step_row_of};
ghost use Rattle.pp_step.specs.Words.{cell_after as address_after};
ghost use Rattle.pp_turn_origins.specs.Turn.{address_of, kind_of, processor_origins, word_of, writes_nothing};
ghost use Rattle.std.specs.Prelude.{◌≡◌, ◌≢◌, ◌+◌, ◌%◌, ◌<◌, ◌≤◌, ◌++◌, length, slice_index, take};

use crate::kind::{TurnKind, kind};
use pp_arith::index12;
use pp_history::Reversible;
use pp_machine::{CHANNELS, Place};
use pp_origins::{Link, MOST_LINKS, Situation, put_block, put_row};
use pp_rig::Rig;
use pp_step::Code::{self, *};
use pp_step::decode;

/// Returns the number at a place that the machine has.
#[inline(always)]
#[tactic(auto, using(crate::proofs::InRange::in_range))]
pub fn read(machine: &Rig, place: Place) -> u64
    requires { Has machine.now.setup.central_words place }
    ensures value { result ≡ number machine.now place }
    ensures in_range { IsInRange place result }
{
    machine.keeps_ranges();
    machine.value(&place)
}

/// Returns the number in a cell.
#[inline(always)]
pub fn cell(machine: &Rig, pp: u8, a: u16) -> u16
    requires pp_in { pp < 10 }
    requires a_in { a ≤ twelve_bits }
    ensures value { result ≡ slice_index (processor machine.now pp).cells a }
    ensures in_range { result ≤ twelve_bits }
{
    read(machine, Place::Cell { pp, a }) as u16
}

/// Returns an address in memory mode.
fn indexed(machine: &Rig, pp: u8, p: u16, d: u8) -> u16
    requires pp_in { pp < 10 }
    requires d_in { d ≤ 0o77 }
    ensures value { result ≡ mode_address Memory d (slice_index (processor machine.now pp).cells (address_after p 1))
        (processor machine.now pp).cells }
    ensures in_range { result ≤ twelve_bits }
{
    let m = cell(machine, pp, ((u32::from(p) + 1) & 0o7777) as u16);
    if d == 0 {
        m
    } else {
        index12(m, cell(machine, pp, u16::from(d)))
    }
}

/// Returns the address of the operand, as a row sees it: d of an instruction without one, and 0 where m is used as it is.
fn operand(machine: &Rig, pp: u8, p: u16, code: Code, d: u8) -> u16
    requires pp_in { pp < 10 }
    requires d_in { d ≤ 0o77 }
    ensures value { result ≡ operand_address (step_row_of (number_of code)).mode (mode_address (step_row_of (number_of code)).mode d
        (slice_index (processor machine.now pp).cells (address_after p 1)) (processor machine.now pp).cells) }
    ensures in_range { result ≤ twelve_bits }
{
    match code {
        Ldi | Adi | Sbi | Lmi | Sti | Rai | Aoi | Soi => cell(machine, pp, u16::from(d)),
        Ljm | Rjm | Ldm | Adm | Sbm | Lmm | Stm | Ram | Aom | Som => indexed(machine, pp, p, d),
        Ldc | Adc | Lpc | Lmc | Crm | Cwm | Ajm | Ijm | Fjm | Ejm | Iam | Oam | Fnc => 0,
        _ => u16::from(d),
    }
}

/// Returns A.
#[inline(always)]
fn a(machine: &Rig, pp: u8) -> u32
    requires pp_in { pp < 10 }
    ensures value { result ≡ (processor machine.now pp).a }
    ensures in_range { result ≤ eighteen_bits }
{
    read(machine, Place::RegA { pp }) as u32
}

/// Returns the number of a channel's state, or 0 if there is no such channel.
#[tactic(auto, using(crate::proofs::InRange::no_state))]
fn state(machine: &Rig, c: u8) -> u8
    ensures value { result ≡ slice_index machine.now.channels.states c }
    ensures in_range { result < 4 }
{
    if c < CHANNELS {
        read(machine, Place::ChannelMode { c }) as u8
    } else {
        machine.keeps_ranges();
        0
    }
}

/// Returns A if it decides what an instruction does, or 0.
fn deciding_a(machine: &Rig, pp: u8, code: Code) -> u32
    requires pp_in { pp < 10 }
    ensures { result ≡ decided (row_of (number_of code)).deciding.a (processor machine.now pp).a }
{
    match code {
        Zjn | Njn | Pjn | Mjn | Exn | Crd | Cwd => a(machine, pp),
        _ => 0,
    }
}

/// Returns the state of channel d if it decides what an instruction does, or 0.
fn deciding_state(machine: &Rig, code: Code, d: u8) -> u8
    ensures { result ≡ decided (row_of (number_of code)).deciding.state (slice_index machine.now.channels.states d) }
{
    match code {
        Ajm | Ijm | Fjm | Ejm | Ian | Oan | Acn | Dcn | Fan | Fnc => state(machine, d),
        _ => 0,
    }
}

/// Returns Q if it decides what a step of a block transfer does, or 0.
fn block_q(machine: &Rig, pp: u8, code: Code) -> u16
    requires pp_in { pp < 10 }
    ensures { result ≡ decided (block_row (number_of code)).deciding.q (processor machine.now pp).q }
{
    match code {
        Crm | Cwm => read(machine, Place::RegQ { pp }) as u16,
        _ => 0,
    }
}

/// Returns A if it decides what a step of a block transfer does, or 0.
fn block_a(machine: &Rig, pp: u8, code: Code) -> u32
    requires pp_in { pp < 10 }
    ensures { result ≡ decided (block_row (number_of code)).deciding.a (processor machine.now pp).a }
{
    match code {
        Crm | Cwm | Iam | Oam => a(machine, pp),
        _ => 0,
    }
}

/// Returns the state of channel d if it decides what a step of a block transfer does, or 0.
fn block_state(machine: &Rig, code: Code, d: u8) -> u8
    ensures { result ≡ decided (block_row (number_of code)).deciding.state (slice_index machine.now.channels.states d) }
{
    match code {
        Iam | Oam => state(machine, d),
        _ => 0,
    }
}

/// Returns the phase and P of a processor.
pub fn phase_and_p(machine: &Rig, pp: u8) -> (u16, u16)
    requires pp_in { pp < 10 }
    ensures phase { result.0 ≡ (processor machine.now pp).phase }
    ensures phase_in { result.0 ≤ twelve_bits }
    ensures p { result.1 ≡ (processor machine.now pp).p }
    ensures p_in { result.1 ≤ twelve_bits }
{
    let phase = read(machine, Place::Phase { pp }) as u16;
    let p = read(machine, Place::RegP { pp }) as u16;
    (phase, p)
}

/// Writes the links of the instruction at P, which is this word.
#[tactic(auto, using(crate::proofs::Deciding::no_q))]
fn put_instruction(
    machine: &Rig,
    pp: u8,
    p: u16,
    word: u16,
    links: &mut [Link],
    used: usize,
) -> usize
    requires pp_in { pp < 10 }
    requires p { p ≡ (processor machine.now pp).p }
    requires p_in { p ≤ twelve_bits }
    requires word { word ≡ slice_index (processor machine.now pp).cells p }
    requires word_in { word ≤ twelve_bits }
    requires room { used + MOST_LINKS ≤ length links.old }
    ensures items { take result links.new ≡ take used links.old ++ links_of (instruction_origins pp machine.now) }
    ensures at_most { result ≤ used + MOST_LINKS }
{
    let op = decode(word);
    machine.keeps_ranges();
    let situation = Situation {
        pp,
        p,
        d: op.d,
        address: operand(machine, pp, p, op.code, op.d),
        a: deciding_a(machine, pp, op.code),
        q: 0,
        state: deciding_state(machine, op.code, op.d),
        size: machine.central_size().words(),
    };
    put_row(op.code, &situation, links, used)
}

/// Writes the links of a step of a block transfer.
fn put_transfer(machine: &Rig, pp: u8, p: u16, phase: u16, links: &mut [Link], used: usize) -> usize
    requires pp_in { pp < 10 }
    requires phase { phase ≡ (processor machine.now pp).phase }
    requires phase_in { phase ≤ twelve_bits }
    requires p { p ≡ (processor machine.now pp).p }
    requires room { used + MOST_LINKS ≤ length links.old }
    ensures items { take result links.new ≡ take used links.old ++ links_of (block_origins pp machine.now) }
    ensures at_most { result ≤ used + MOST_LINKS }
{
    let op = decode(phase);
    machine.keeps_ranges();
    let situation = Situation {
        pp,
        p,
        d: op.d,
        address: 0,
        a: block_a(machine, pp, op.code),
        q: block_q(machine, pp, op.code),
        state: block_state(machine, op.code, op.d),
        size: machine.central_size().words(),
    };
    put_block(op.code, &situation, links, used)
}

/// The next turn.
#[derive(Clone, Copy, Drop)]
pub struct NextTurn {
    /// The processor, 0 to 9 (decimal).
    pub processor: u8,
    /// The address of its instruction, 0 to 7777.
    pub address: u16,
    /// The word of its instruction, 0 to 7777.
    pub word: u16,
    pub kind: TurnKind,
    /// How many links there are in the slice, with those of its processor's step.
    pub links: usize,
}

/// Writes the links of what a processor will write, whose instruction is this word.
#[tactic(auto, unfolding(pp_origins::specs::Step::step_origins))]
fn put_step(
    machine: &Rig,
    pp: u8,
    phase: u16,
    p: u16,
    word: u16,
    links: &mut [Link],
    used: usize,
) -> usize
    requires pp_in { pp < 10 }
    requires phase { phase ≡ (processor machine.now pp).phase }
    requires phase_in { phase ≤ twelve_bits }
    requires p { p ≡ (processor machine.now pp).p }
    requires p_in { p ≤ twelve_bits }
    requires word { phase ≡ 0 → word ≡ slice_index (processor machine.now pp).cells p }
    requires word_in { word ≤ twelve_bits }
    requires room { used + MOST_LINKS ≤ length links.old }
    ensures items { take result links.new ≡ take used links.old ++ links_of (step_origins pp machine.now) }
    ensures at_most { result ≤ used + MOST_LINKS }
{
    if phase == 0 {
        put_instruction(machine, pp, p, word, links, used)
    } else {
        put_transfer(machine, pp, p, phase, links, used)
    }
}

/// Returns the address and the word of the instruction of the processor in the slot, with this phase and this P.
fn address_and_word(machine: &Rig, pp: u8, phase: u16, p: u16) -> (u16, u16)
    requires pp { pp ≡ machine.now.slot }
    requires pp_in { pp < 10 }
    requires phase { phase ≡ (processor machine.now pp).phase }
    requires phase_in { phase ≤ twelve_bits }
    requires p { p ≡ (processor machine.now pp).p }
    requires p_in { p ≤ twelve_bits }
    ensures address { result.0 ≡ address_of machine.now }
    ensures word { result.1 ≡ word_of machine.now }
    ensures at_p { phase ≡ 0 → result.1 ≡ slice_index (processor machine.now pp).cells p }
    ensures word_in { result.1 ≤ twelve_bits }
{
    if phase == 0 {
        (p, cell(machine, pp, p))
    } else {
        let address = (u32::from(cell(machine, pp, 0)) + 0o7777) & 0o7777;
        (address as u16, phase)
    }
}

/// Writes the links of what the processor in the slot will write into a slice, behind the first `used` that are there.
/// Returns what the turn is.
#[inline(always)]
pub fn next_origins(machine: &Rig, links: &mut [Link], used: usize) -> NextTurn
    requires room { used + MOST_LINKS ≤ length links.old }
    ensures processor { result.processor ≡ machine.now.slot }
    ensures address { result.address ≡ address_of machine.now }
    ensures word { result.word ≡ word_of machine.now }
    ensures kind { result.kind ≡ kind_of (writes_nothing (processor_origins machine.now))
        (processor machine.now machine.now.slot).phase (word_of machine.now) }
    ensures items { take result.links links.new ≡ take used links.old ++ links_of (processor_origins machine.now) }
    ensures at_most { result.links ≤ used + MOST_LINKS }
{
    let pp = machine.slot();
    let (phase, p) = phase_and_p(machine, pp);
    let (address, word) = address_and_word(machine, pp, phase, p);
    let end = put_step(machine, pp, phase, p, word, links, used);
    NextTurn {
        processor: pp,
        address,
        word,
        kind: kind(end == used, phase, word),
        links: end,
    }
}
