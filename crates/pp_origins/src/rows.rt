//! The origins of an instruction, by its row.
#![tactic(auto, using(crate::proofs::LinkLists::link_lists))]

ghost use Rattle.pp_machine.specs.ChannelNumbers.{state_number};
ghost use Rattle.pp_machine.specs.Ranges.{eighteen_bits, twelve_bits};
ghost use Rattle.pp_origins.specs.Links.{links_of, links_of_one};
ghost use Rattle.pp_origins.specs.Rows as spec;
ghost use Rattle.pp_step.specs.Codes.{number_of};
ghost use Rattle.std.specs.List.{range_with_len};
ghost use Rattle.std.specs.Prelude.{◌≡◌, ◌+◌, ◌%◌, ◌<◌, ◌≤◌, ◌++◌, ◌∷◌, [], if◌then◌else◌, length, nat_lt, take};

use crate::links::{put, put_constant, whole};
use crate::origin::Operation::{self, *};
use crate::origin::{Field, Link, Read, constant};
use crate::situation::Situation;
use pp_machine::ChannelState::{self, *};
use pp_machine::{CHANNELS, Place};
use pp_step::Code::{self, *};

/// The most links of a step: those of an exchange (decimal).
pub const MOST_LINKS: usize = 33;

const SIGN: u32 = 0o400000;

/// Returns the address of the cell i cells after a cell, 0 to 0o7777. The last cell is followed by the first.
pub fn cell_after(address: u16, i: u16) -> u16
    ensures value { result ≡ (address + i) % 0o10000 }
    ensures in_range { result ≤ twelve_bits }
{
    ((u32::from(address) + u32::from(i)) & 0o7777) as u16
}

/// Returns the central address i words after a, 0 to 0o777777.
pub fn central_after(a: u32, i: u8) -> u32
    ensures value { result ≡ (a + i) % 0o1000000 }
    ensures in_range { result ≤ eighteen_bits }
{
    ((u64::from(a) + u64::from(i)) & 0o777777) as u32
}

// ---- what is read

pub fn a(c: &Situation) -> Read
    ensures { result ≡ spec.a c.now }
{
    whole(Place::RegA { pp: c.pp })
}

fn low_a(c: &Situation) -> Read
    ensures { result ≡ spec.low_a c.now }
{
    Read {
        place: Place::RegA { pp: c.pp },
        field: Field::Low,
    }
}

pub fn p(c: &Situation) -> Read
    ensures { result ≡ spec.p c.now }
{
    whole(Place::RegP { pp: c.pp })
}

fn word(c: &Situation) -> Read
    ensures { result ≡ spec.word c.now }
{
    Read {
        place: Place::Cell { pp: c.pp, a: c.p },
        field: Field::Word,
    }
}

fn d(c: &Situation) -> Read
    ensures { result ≡ spec.d c.now }
{
    Read {
        place: Place::Cell { pp: c.pp, a: c.p },
        field: Field::D,
    }
}

fn m(c: &Situation) -> Read
    ensures { result ≡ spec.m c.now }
{
    let a = cell_after(c.p, 1);
    Read {
        place: Place::Cell { pp: c.pp, a },
        field: Field::M,
    }
}

fn x(c: &Situation) -> Read
    ensures { result ≡ spec.x c.now }
{
    whole(operand_cell(c))
}

/// Returns the operand's cell.
fn operand_cell(c: &Situation) -> Place
    ensures { result ≡ Place.Cell c.now.pp c.now.address }
{
    Place::Cell {
        pp: c.pp,
        a: c.address,
    }
}

fn cell_d(c: &Situation) -> Read
    ensures { result ≡ spec.cell_d c.now }
{
    let a = u16::from(c.d);
    whole(Place::Cell { pp: c.pp, a })
}

pub fn register(c: &Situation) -> Read
    ensures { result ≡ spec.register c.now }
{
    whole(Place::ChannelWord { c: c.d })
}

// ---- channels

/// Returns whether channel d is in a state.
pub fn is_in(state: ChannelState, c: &Situation) -> bool
    ensures { result ≡ spec.is_in state c.now }
{
    c.d < CHANNELS && c.state == state as u8
}

pub fn is_active(c: &Situation) -> bool
    ensures { result ≡ spec.is_active c.now }
{
    c.d == CHANNELS || c.d < CHANNELS && c.state > 0
}

fn is_full(c: &Situation) -> bool
    ensures { result ≡ spec.is_full c.now }
{
    c.d == CHANNELS || c.d < CHANNELS && c.state > 1
}

/// Writes that channel d gets a state.
pub fn put_state(state: ChannelState, c: &Situation, links: &mut [Link], used: usize) -> usize
    requires { used < length links.old }
    ensures items { take result links.new ≡ take used links.old
        ++ links_of ((Place.ChannelMode c.now.d, spec.set_to (state_number state) c.now) ∷ []) }
    ensures count { result ≡ used + 1 }
{
    let place = Place::ChannelMode { c: c.d };
    put_constant(place, constant(state as u64), links, used)
}

// ---- the shapes of the rows

/// Writes how P changes, to the cell that is one or two further.
pub fn advance(next: Operation, c: &Situation, links: &mut [Link], used: usize) -> usize
    requires { used < length links.old }
    ensures items { take result links.new ≡ take used links.old ++ links_of_one (Place.RegP c.now.pp) next (spec.p c.now ∷ []) }
    ensures count { result ≡ used + 1 }
{
    put(Place::RegP { pp: c.pp }, next, &[p(c)], links, used)
}

/// Writes how P gets the address of an instruction's operand.
fn indexed(
    plain: Operation,
    with_index: Operation,
    c: &Situation,
    links: &mut [Link],
    used: usize,
) -> usize
    requires { used + 2 ≤ length links.old }
    ensures items { take result links.new ≡ take used links.old
        ++ links_of ((Place.RegP c.now.pp, spec.indexed plain with_index c.now) ∷ []) }
    ensures at_most { result ≤ used + 2 }
{
    let place = Place::RegP { pp: c.pp };
    if c.d == 0 {
        put(place, plain, &[m(c)], links, used)
    } else {
        put(place, with_index, &[m(c), cell_d(c)], links, used)
    }
}

/// Writes how P jumps by d, or goes on.
fn branch(taken: bool, c: &Situation, links: &mut [Link], used: usize) -> usize
    requires { used + 2 ≤ length links.old }
    ensures items { take result links.new ≡ take used links.old ++ links_of (spec.branch (λ c. taken) c.now) }
    ensures at_most { result ≤ used + 2 }
{
    if taken {
        let place = Place::RegP { pp: c.pp };
        put(place, Relative, &[p(c), d(c)], links, used)
    } else {
        advance(After1, c, links, used)
    }
}

/// Writes how P jumps to m, or goes on.
fn test(taken: bool, c: &Situation, links: &mut [Link], used: usize) -> usize
    requires { used + 2 ≤ length links.old }
    ensures items { take result links.new ≡ take used links.old ++ links_of (spec.test (λ c. taken) c.now) }
    ensures at_most { result ≤ used + 2 }
{
    if taken {
        put(Place::RegP { pp: c.pp }, Moved, &[m(c)], links, used)
    } else {
        advance(After2, c, links, used)
    }
}

/// Writes how A gets its number, and P goes on.
fn load(
    next: Operation,
    operation: Operation,
    reads: &[Read],
    c: &Situation,
    links: &mut [Link],
    used: usize,
) -> usize
    requires some { 0 < length reads.now }
    requires few { length reads.now ≤ 3 }
    requires room { used + 4 ≤ length links.old }
    ensures items { take result links.new ≡ take used links.old
        ++ (links_of_one (Place.RegP c.now.pp) next (spec.p c.now ∷ []) ++ links_of_one (Place.RegA c.now.pp) operation reads.now) }
    ensures count { result ≡ used + 1 + length reads.now }
{
    let used = advance(next, c, links, used);
    put(Place::RegA { pp: c.pp }, operation, reads, links, used)
}

/// Writes how A and the operand's cell get their numbers, and P goes on.
fn replace(
    next: Operation,
    operation: Operation,
    low: Operation,
    reads: &[Read],
    c: &Situation,
    links: &mut [Link],
    used: usize,
) -> usize
    requires some { 0 < length reads.now }
    requires few { length reads.now ≤ 2 }
    requires room { used + 5 ≤ length links.old }
    ensures items { take result links.new ≡ take used links.old
        ++ (links_of_one (Place.RegP c.now.pp) next (spec.p c.now ∷ []) ++ (links_of_one (Place.RegA c.now.pp) operation reads.now
        ++ links_of_one (Place.Cell c.now.pp c.now.address) low reads.now)) }
    ensures at_most { result ≤ used + 5 }
{
    let used = load(next, operation, reads, c, links, used);
    put(operand_cell(c), low, reads, links, used)
}

/// Writes how a channel gets its state and its register, or nothing of a wait.
fn output(
    before: ChannelState,
    next: Operation,
    state: ChannelState,
    read: Read,
    c: &Situation,
    links: &mut [Link],
    used: usize,
) -> usize
    requires { used + 3 ≤ length links.old }
    ensures items { take result links.new ≡ take used links.old ++ (if spec.is_in before c.now
        then links_of_one (Place.RegP c.now.pp) next (spec.p c.now ∷ [])
        ++ links_of ((Place.ChannelMode c.now.d, spec.set_to (state_number state) c.now) ∷ [])
        ++ links_of_one (Place.ChannelWord c.now.d) Operation.Moved (read ∷ []) else []) }
    ensures at_most { result ≤ used + 3 }
{
    if !is_in(before, c) {
        return used;
    }
    let used = advance(next, c, links, used);
    let used = put_state(state, c, links, used);
    let place = Place::ChannelWord { c: c.d };
    put(place, Moved, &[read], links, used)
}

/// Writes how a channel gets its state, or nothing of a wait.
fn activity(
    ready: bool,
    state: ChannelState,
    c: &Situation,
    links: &mut [Link],
    used: usize,
) -> usize
    requires { used + 2 ≤ length links.old }
    ensures items { take result links.new ≡ take used links.old ++ links_of (spec.activity (λ c. ready) state c.now) }
    ensures at_most { result ≤ used + 2 }
{
    if !ready {
        return used;
    }
    let used = advance(After1, c, links, used);
    put_state(state, c, links, used)
}

/// Writes how A gets the clock or a channel's register, or nothing of a wait.
fn input(c: &Situation, links: &mut [Link], used: usize) -> usize
    requires { used + 5 ≤ length links.old }
    ensures items { take result links.new ≡ take used links.old ++ links_of (spec.input c.now) }
    ensures at_most { result ≤ used + 5 }
{
    if c.d == CHANNELS {
        load(After1, Moved, &[whole(Place::Clock)], c, links, used)
    } else if is_in(Full, c) {
        let used = load(After1, Moved, &[register(c)], c, links, used);
        put_state(Empty, c, links, used)
    } else {
        used
    }
}

/// Writes how a block transfer begins: P, perhaps Q, the phase and cell 0000.
fn issue(is_counted: bool, c: &Situation, links: &mut [Link], used: usize) -> usize
    requires { used + 4 ≤ length links.old }
    ensures items { take result links.new
        ≡ take used links.old ++ links_of (if is_counted then spec.issue_counted c.now else spec.issue c.now) }
    ensures at_most { result ≤ used + 4 }
{
    let pp = c.pp;
    let used = put(Place::RegP { pp }, Moved, &[m(c)], links, used);
    let used = if is_counted {
        put(Place::RegQ { pp }, Moved, &[cell_d(c)], links, used)
    } else {
        used
    };
    let used = put(Place::Phase { pp }, Moved, &[word(c)], links, used);
    let place = Place::Cell { pp, a: 0 };
    put(place, After1, &[p(c)], links, used)
}

// ---- central memory

/// Writes how a place gets a field of a central word.
#[inline(always)]
fn put_part(
    place: Place,
    field: Field,
    address: u32,
    c: &Situation,
    links: &mut [Link],
    used: usize,
) -> usize
    requires { used < length links.old }
    ensures items { take result links.new ≡ take used links.old ++ links_of ((place, spec.part field address c.now) ∷ []) }
    ensures count { result ≡ used + 1 }
{
    if address < c.size {
        let read = Read {
            place: Place::Central { a: address },
            field,
        };
        put(place, Moved, &[read], links, used)
    } else {
        put_constant(place, NoWord, links, used)
    }
}

/// Returns the cell i cells after a cell.
fn nth_cell(address: u16, i: u16, c: &Situation) -> Place
    ensures { result ≡ Place.Cell c.now.pp ((address + i) % 0o10000) }
{
    Place::Cell {
        pp: c.pp,
        a: cell_after(address, i),
    }
}

/// Writes how the five cells from `address` on get the parts of the central word at A.
pub fn put_five(address: u16, c: &Situation, links: &mut [Link], used: usize) -> usize
    requires { used + 5 ≤ length links.old }
    ensures items { take result links.new ≡ take used links.old ++ links_of (spec.five_cells address c.now.a c.now) }
    ensures count { result ≡ used + 5 }
{
    let used = put_part(nth_cell(address, 0, c), Field::First, c.a, c, links, used);
    let used = put_part(nth_cell(address, 1, c), Field::Second, c.a, c, links, used);
    let used = put_part(nth_cell(address, 2, c), Field::Third, c.a, c, links, used);
    let used = put_part(nth_cell(address, 3, c), Field::Fourth, c.a, c, links, used);
    put_part(nth_cell(address, 4, c), Field::Fifth, c.a, c, links, used)
}

/// Writes how the central word at A gets the numbers of the five cells from `address` on.
pub fn put_joined(address: u16, c: &Situation, links: &mut [Link], used: usize) -> usize
    requires { used + 5 ≤ length links.old }
    ensures items { take result links.new ≡ take used links.old
        ++ links_of ((Place.Central c.now.a, spec.joined address c.now) ∷ []) }
    ensures count { result ≡ used + 5 }
{
    let reads = [
        whole(nth_cell(address, 0, c)),
        whole(nth_cell(address, 1, c)),
        whole(nth_cell(address, 2, c)),
        whole(nth_cell(address, 3, c)),
        whole(nth_cell(address, 4, c)),
    ];
    put(Place::Central { a: c.a }, Joined, &reads, links, used)
}

/// Writes how the frame words get those of central memory.
#[tactic(auto, using(crate::proofs::ExchangeLinks::exchange_links))]
fn put_frame(c: &Situation, links: &mut [Link], used: usize) -> usize
    requires { used + 16 ≤ length links.old }
    ensures items { take result links.new ≡ take used links.old ++ links_of (spec.frame_origins c.now (range_with_len 0 0o20)) }
    ensures count { result ≡ used + 16 }
{
    let mut end = used;
    for i in 0..16u8 {
        let field = if i == 0 {
            Field::WithoutB0
        } else {
            Field::Whole
        };
        end = put_part(
            Place::FrameWord { i },
            field,
            central_after(c.a, i),
            c,
            links,
            end,
        );
    }
    end
}

/// Writes how the central words get those of the frame.
#[tactic(auto, using(crate::proofs::ExchangeLinks::exchange_links))]
fn put_words(c: &Situation, links: &mut [Link], used: usize) -> usize
    requires { used + 16 ≤ length links.old }
    ensures items { take result links.new ≡ take used links.old ++ links_of (spec.word_origins c.now (range_with_len 0 0o20)) }
    ensures at_most { result ≤ used + 16 }
{
    let mut end = used;
    for i in 0..16u8 {
        let address = central_after(c.a, i);
        if address < c.size {
            let frame = whole(Place::FrameWord { i });
            end = put(Place::Central { a: address }, Moved, &[frame], links, end);
        }
    }
    end
}

#[tactic(auto, using(crate::proofs::ExchangeLinks::exchange_links))]
fn exchange(c: &Situation, links: &mut [Link], used: usize) -> usize
    requires { used + MOST_LINKS ≤ length links.old }
    ensures items { take result links.new ≡ take used links.old ++ links_of (spec.exchange c.now) }
    ensures at_most { result ≤ used + MOST_LINKS }
{
    let used = advance(After1, c, links, used);
    let used = put_frame(c, links, used);
    put_words(c, links, used)
}

// ---- the rows

/// Writes the links of an instruction whose operand is in a cell, 30 to 57.
fn with_cell(code: Code, next: Operation, c: &Situation, links: &mut [Link], used: usize) -> usize
    requires from_30 { 0o30 ≤ number_of code }
    requires to_57 { number_of code ≤ 0o57 }
    requires next { next ≡ if nat_lt (number_of code) 0o50 then Operation.After1 else Operation.After2 }
    requires room { used + 5 ≤ length links.old }
    ensures items { take result links.new ≡ take used links.old ++ links_of ((spec.row_of (number_of code)).origins c.now) }
    ensures at_most { result ≤ used + 5 }
{
    match code {
        Ldd | Ldi | Ldm => load(next, Moved, &[x(c)], c, links, used),
        Add | Adi | Adm => load(next, Sum, &[a(c), x(c)], c, links, used),
        Sbd | Sbi | Sbm => load(next, Difference, &[a(c), x(c)], c, links, used),
        Lmd | Lmi | Lmm => load(next, LogicalDifference, &[a(c), x(c)], c, links, used),
        Std | Sti | Stm => {
            let used = advance(next, c, links, used);
            put(operand_cell(c), Moved, &[low_a(c)], links, used)
        }
        Rad | Rai | Ram => replace(next, Sum, LowSum, &[a(c), x(c)], c, links, used),
        Aod | Aoi | Aom => replace(next, OneMore, LowOneMore, &[x(c)], c, links, used),
        Sod | Soi | Som => replace(next, OneLess, LowOneLess, &[x(c)], c, links, used),
        _ => unreachable!(),
    }
}

/// Writes how P goes on, and how a central word gets the numbers of five cells.
fn cells_to_word(c: &Situation, links: &mut [Link], used: usize) -> usize
    requires { used + 6 ≤ length links.old }
    ensures items { take result links.new ≡ take used links.old
        ++ links_of ((Place.RegP c.now.pp, spec.next1 c.now) ∷ (Place.Central c.now.a, spec.joined c.now.d c.now) ∷ []) }
    ensures at_most { result ≤ used + 6 }
{
    let used = advance(After1, c, links, used);
    put_joined(u16::from(c.d), c, links, used)
}

/// Writes the same, if there is such a word. If not, P goes on.
fn cells_to_central(c: &Situation, links: &mut [Link], used: usize) -> usize
    requires { used + 6 ≤ length links.old }
    ensures items { take result links.new ≡ take used links.old ++ links_of (if nat_lt c.now.a c.now.size
        then (Place.RegP c.now.pp, spec.next1 c.now) ∷ (Place.Central c.now.a, spec.joined c.now.d c.now) ∷ []
        else spec.jump spec.next1 c.now) }
    ensures at_most { result ≤ used + 6 }
{
    if c.a < c.size {
        cells_to_word(c, links, used)
    } else {
        advance(After1, c, links, used)
    }
}

/// Writes how a return jump gets P, and the cell its address.
fn return_jump(c: &Situation, links: &mut [Link], used: usize) -> usize
    requires { used + 3 ≤ length links.old }
    ensures items { take result links.new ≡ take used links.old ++ links_of ((
      Place.RegP c.now.pp,
      spec.indexed Operation.After1 Operation.AfterIndexed c.now,
    ) ∷ (Place.Cell c.now.pp c.now.address, spec.next2 c.now) ∷ []) }
    ensures at_most { result ≤ used + 3 }
{
    let used = indexed(After1, AfterIndexed, c, links, used);
    put(operand_cell(c), After2, &[p(c)], links, used)
}

/// Writes the links of an instruction into a slice, behind the first `used` that are there. Returns how many are there then.
pub fn put_row(code: Code, c: &Situation, links: &mut [Link], used: usize) -> usize
    requires room { used + MOST_LINKS ≤ length links.old }
    ensures items { take result links.new ≡ take used links.old ++ links_of ((spec.row_of (number_of code)).origins c.now) }
    ensures at_most { result ≤ used + MOST_LINKS }
{
    match code {
        Psn | Psn24 | Psn25 => advance(After1, c, links, used),
        Ljm => indexed(Moved, Indexed, c, links, used),
        Rjm => return_jump(c, links, used),
        Ujn => branch(true, c, links, used),
        Zjn => branch(c.a == 0, c, links, used),
        Njn => branch(c.a != 0, c, links, used),
        Pjn => branch(c.a < SIGN, c, links, used),
        Mjn => branch(c.a >= SIGN, c, links, used),
        Shn => load(After1, Shifted, &[a(c), d(c)], c, links, used),
        Lmn => load(After1, LogicalDifference, &[a(c), d(c)], c, links, used),
        Lpn => load(After1, LogicalProduct, &[a(c), d(c)], c, links, used),
        Scn => load(After1, Cleared, &[a(c), d(c)], c, links, used),
        Ldn => load(After1, Moved, &[d(c)], c, links, used),
        Lcn => load(After1, Complement, &[d(c)], c, links, used),
        Adn => load(After1, Sum, &[a(c), d(c)], c, links, used),
        Sbn => load(After1, Difference, &[a(c), d(c)], c, links, used),
        Ldc => load(After2, Moved, &[d(c), m(c)], c, links, used),
        Adc => load(After2, Sum, &[a(c), d(c), m(c)], c, links, used),
        Lpc => load(After2, LogicalProduct, &[a(c), d(c), m(c)], c, links, used),
        Lmc => {
            let reads = [a(c), d(c), m(c)];
            load(After2, LogicalDifference, &reads, c, links, used)
        }
        Exn => exchange(c, links, used),
        Rpn => {
            let read = Read {
                place: Place::FrameWord { i: 0 },
                field: Field::ProgramAddress,
            };
            load(After1, Moved, &[read], c, links, used)
        }
        Ldd | Add | Sbd | Lmd | Std | Rad | Aod | Sod => with_cell(code, After1, c, links, used),
        Ldi | Adi | Sbi | Lmi | Sti | Rai | Aoi | Soi => with_cell(code, After1, c, links, used),
        Ldm | Adm | Sbm | Lmm | Stm | Ram | Aom | Som => with_cell(code, After2, c, links, used),
        Crd => {
            let used = advance(After1, c, links, used);
            put_five(u16::from(c.d), c, links, used)
        }
        Crm | Cwm => issue(true, c, links, used),
        Cwd => cells_to_central(c, links, used),
        Ajm => test(is_active(c), c, links, used),
        Ijm => test(!is_active(c), c, links, used),
        Fjm => test(is_full(c), c, links, used),
        Ejm => test(!is_full(c), c, links, used),
        Ian => input(c, links, used),
        Iam | Oam => issue(false, c, links, used),
        Oan => output(Empty, After1, Full, low_a(c), c, links, used),
        Acn => activity(is_in(Inactive, c), Empty, c, links, used),
        Dcn if c.d == CHANNELS => advance(After1, c, links, used),
        Dcn => activity(is_active(c), Inactive, c, links, used),
        Fan => output(Inactive, After1, Function, low_a(c), c, links, used),
        Fnc => output(Inactive, After2, Function, m(c), c, links, used),
    }
}
