//! The origins of a step of a block transfer.
#![tactic(auto, using(crate::proofs::LinkLists::link_lists))]

ghost use Rattle.pp_origins.specs.Blocks as spec;
ghost use Rattle.pp_origins.specs.Links.{links_of, links_of_one};
ghost use Rattle.pp_step.specs.Codes.{number_of};
ghost use Rattle.std.specs.Prelude.{◌≡◌, ◌+◌, ◌≤◌, ◌++◌, ◌∷◌, [], length, take};

use crate::links::{put, put_constant, whole};
use crate::origin::{Link, Operation, Read};
use crate::rows::{a, advance, is_active, is_in, p, put_five, put_joined, put_state, register};
use crate::situation::Situation;
use pp_machine::{CHANNELS, ChannelState, Place};
use pp_step::Code;

fn finish(c: &Situation, links: &mut [Link], used: usize) -> usize
    requires { used + 2 ≤ length links.old }
    ensures items { take result links.new ≡ take used links.old ++ links_of (spec.finish c.now) }
    ensures count { result ≡ used + 2 }
{
    let pp = c.pp;
    let cell = whole(Place::Cell { pp, a: 0 });
    let used = put(Place::RegP { pp }, Operation::After1, &[cell], links, used);
    put_constant(Place::Phase { pp }, Operation::Zero, links, used)
}

/// Writes how P, A and Q get their numbers in a move of a central word.
fn counted(c: &Situation, links: &mut [Link], used: usize) -> usize
    requires { used + 3 ≤ length links.old }
    ensures items { take result links.new ≡ take used links.old ++ links_of (spec.counted [] c.now) }
    ensures count { result ≡ used + 3 }
{
    let pp = c.pp;
    let q = Place::RegQ { pp };
    let used = advance(Operation::After5, c, links, used);
    let used = put(
        Place::RegA { pp },
        Operation::CentralAfter,
        &[a(c)],
        links,
        used,
    );
    put(q, Operation::CountDown, &[whole(q)], links, used)
}

fn central_input(c: &Situation, links: &mut [Link], used: usize) -> usize
    requires { used + 8 ≤ length links.old }
    ensures items { take result links.new ≡ take used links.old ++ links_of (spec.central_input c.now) }
    ensures at_most { result ≤ used + 8 }
{
    if c.q == 0 {
        return finish(c, links, used);
    }
    let used = counted(c, links, used);
    put_five(c.p, c, links, used)
}

fn central_output(c: &Situation, links: &mut [Link], used: usize) -> usize
    requires { used + 8 ≤ length links.old }
    ensures items { take result links.new ≡ take used links.old ++ links_of (spec.central_output c.now) }
    ensures at_most { result ≤ used + 8 }
{
    if c.q == 0 {
        return finish(c, links, used);
    }
    let used = counted(c, links, used);
    if c.a < c.size {
        put_joined(c.p, c, links, used)
    } else {
        used
    }
}

/// Writes how P and A get their numbers in a move of a channel's word.
fn stepped(c: &Situation, links: &mut [Link], used: usize) -> usize
    requires { used + 2 ≤ length links.old }
    ensures items { take result links.new ≡ take used links.old ++ links_of (spec.stepped [] c.now) }
    ensures count { result ≡ used + 2 }
{
    let used = advance(Operation::After1, c, links, used);
    let place = Place::RegA { pp: c.pp };
    put(place, Operation::CountDown, &[a(c)], links, used)
}

/// Returns cell P, where a word is moved.
fn next_cell(c: &Situation) -> Place
    ensures { result ≡ Place.Cell c.now.pp c.now.p }
{
    Place::Cell { pp: c.pp, a: c.p }
}

/// Writes how an input ends on an inactive channel.
fn cut_off(c: &Situation, links: &mut [Link], used: usize) -> usize
    requires { used + 3 ≤ length links.old }
    ensures items { take result links.new ≡ take used links.old ++ links_of (spec.cut_off c.now) }
    ensures count { result ≡ used + 3 }
{
    let pp = c.pp;
    let place = Place::RegP { pp };
    let used = if c.p == 0 {
        put_constant(place, Operation::One, links, used)
    } else {
        let cell = whole(Place::Cell { pp, a: 0 });
        put(place, Operation::After1, &[cell], links, used)
    };
    let used = put_constant(Place::Phase { pp }, Operation::Zero, links, used);
    put_constant(next_cell(c), Operation::Zero, links, used)
}

fn channel_input(c: &Situation, links: &mut [Link], used: usize) -> usize
    requires { used + 8 ≤ length links.old }
    ensures items { take result links.new ≡ take used links.old ++ links_of (spec.channel_input c.now) }
    ensures at_most { result ≤ used + 8 }
{
    let moved = Operation::Moved;
    if c.a == 0 {
        finish(c, links, used)
    } else if c.d == CHANNELS {
        let used = stepped(c, links, used);
        put(next_cell(c), moved, &[whole(Place::Clock)], links, used)
    } else if !is_active(c) {
        cut_off(c, links, used)
    } else if is_in(ChannelState::Full, c) {
        let used = stepped(c, links, used);
        let used = put(next_cell(c), moved, &[register(c)], links, used);
        put_state(ChannelState::Empty, c, links, used)
    } else {
        used
    }
}

fn channel_output(c: &Situation, links: &mut [Link], used: usize) -> usize
    requires { used + 8 ≤ length links.old }
    ensures items { take result links.new ≡ take used links.old ++ links_of (spec.channel_output c.now) }
    ensures at_most { result ≤ used + 8 }
{
    if c.a == 0 || !is_active(c) {
        finish(c, links, used)
    } else if is_in(ChannelState::Empty, c) {
        let used = stepped(c, links, used);
        let used = put_state(ChannelState::Full, c, links, used);
        let place = Place::ChannelWord { c: c.d };
        put(place, Operation::Moved, &[whole(next_cell(c))], links, used)
    } else {
        used
    }
}

/// Writes the links of a step of a block transfer into a slice, behind the first `used` that are there. Returns how many
/// are there then.
pub fn put_block(code: Code, c: &Situation, links: &mut [Link], used: usize) -> usize
    requires { used + 8 ≤ length links.old }
    ensures items { take result links.new ≡ take used links.old ++ links_of ((spec.block_row (number_of code)).origins c.now) }
    ensures at_most { result ≤ used + 8 }
{
    match code {
        Code::Crm => central_input(c, links, used),
        Code::Cwm => central_output(c, links, used),
        Code::Iam => channel_input(c, links, used),
        Code::Oam => channel_output(c, links, used),
        _ => used,
    }
}
