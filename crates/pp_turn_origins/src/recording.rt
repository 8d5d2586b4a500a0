//! Turns, with where each number that they wrote comes from.
ghost use Rattle.pp_actions.specs.declared.action.Action.TheVariants.{Turn};
ghost use Rattle.pp_history.specs.SessionValue.{IsAt, Moves, SessionValue, replay};
ghost use Rattle.pp_machine.specs.Machine.{Machine};
ghost use Rattle.pp_machine.specs.Olds.{numbered};
ghost use Rattle.pp_machine.specs.Prelude.{list_room};
ghost use Rattle.pp_origins.specs.Links.{links_of};
ghost use Rattle.pp_rig.specs.Columns.{EndsAsStep};
ghost use Rattle.pp_rig.specs.Inner.ActionRecords.{old_values_of};
ghost use Rattle.pp_rig.specs.Recording.{olds_of};
ghost use Rattle.pp_rig.specs.Rules.{rules};
ghost use Rattle.pp_rig.specs.Stopping.{after_turns, hit_of};
ghost use Rattle.pp_rig.specs.Turn.{turn};
ghost use Rattle.pp_rig.specs.WellFormed.{IsWellFormed};
ghost use Rattle.pp_turn_origins.specs.Inner.{IsBegun, IsEnded, rest_origins};
ghost use Rattle.pp_turn_origins.specs.Recording.{all_links, all_made, coming, made_of};
ghost use Rattle.pp_turn_origins.specs.Turn.{processor_origins, turn_origins};
ghost use Rattle.std.specs.Prelude.{◌≡◌, ◌+◌, ◌<◌, ◌≤◌, ◌++◌, ◌∷◌, ◌⊎◌, List, false, is_some, length, replicate, take};

use crate::devices::{Before, MOST_REST_LINKS, put_rest};
use crate::reading::{NextTurn, next_origins};
use pp_history::Session;
use pp_machine::Old;
use pp_origins::{Link, MOST_LINKS};
use pp_rig::{Action, MOST_OLDS, Rig, newest_changed, put_newest_old_values};

/// The most links of one turn (decimal).
pub const MOST_TURN_LINKS: usize = MOST_LINKS + MOST_REST_LINKS;

/// One turn of a recording.
#[repr(C)]
#[derive(Clone, Copy, Default, Drop)]
pub struct Made {
    /// The processor, 0 to 9, or 10 (decimal) if the action is no turn.
    pub processor: u16,
    /// The address of its instruction, 0 to 7777. In a block transfer it is the one before that in cell 0000.
    pub address: u16,
    /// The word of its instruction, 0 to 7777. In a block transfer it is the phase.
    pub word: u16,
    /// What the turn is, by its position in `TurnKind`, from 0.
    pub kind: u16,
    /// How many links it has.
    pub links: u16,
    /// How many of the links are its processor's, the first ones.
    pub own: u16,
    /// How many places it overwrote.
    pub olds: u32,
}

/// Returns the next turn, and writes the links of what its processor will write into a slice, from its beginning. No turn is
/// performed: of links there are those of the processor alone, and no place is overwritten.
pub fn coming(machine: &Rig, links: &mut [Link]) -> Made
    requires { MOST_LINKS ≤ length links.old }
    ensures made { result ≡ coming machine.now }
    ensures links { take result.links links.new ≡ links_of (processor_origins machine.now) }
    ensures at_most { result.links ≤ MOST_LINKS }
{
    let next = next_origins(machine, links, 0);
    Made {
        processor: u16::from(next.processor),
        address: next.address,
        word: next.word,
        kind: next.kind as u16,
        links: next.links as u16,
        own: next.links as u16,
        olds: 0,
    }
}

/// How far a recording came.
#[derive(Clone, Copy, Drop)]
pub struct Recorded {
    /// How many turns were performed.
    pub turns: usize,
    /// How many links they have.
    pub links: usize,
    /// How many places they overwrote.
    pub olds: usize,
    /// Whether the last one changed the number of a watched place.
    pub hit: bool,
}

/// Performs one turn, and returns whether it changed the number of a watched place.
#[inline(always)]
#[tactic(auto, unfolding(pp_actions::specs::Admitting::first_fault), using(pp_rig::proofs::Runs::one_turn_acts))]
fn turn_once(session: &mut Session<Rig>) -> bool
    ensures hit { result ≡ is_some (hit_of session.old.machine) }
    ensures machine { session.new.machine ≡ turn session.old.machine }
    ensures at { Moves rules session.old session.new (after_turns 1) }
{
    session.has_session_value();
    let _capacity = session.capacity();
    session.act(Action::Turn);
    if session.machine().watches().is_empty() {
        return false;
    }
    newest_changed(session)
}

/// Writes what the newest action overwrote into a slice, behind the first `used` that are there. Returns how many places
/// that are.
#[inline(always)]
pub fn put_overwritten(session: &Session<Rig>, olds: &mut [Old], used: usize) -> usize
    requires some { 1 ≤ length session.now.records }
    requires room { used + list_room ≤ length olds.old }
    ensures at_most { result ≤ list_room }
    ensures olds { (v : SessionValue Machine Action) (action : Action) (earlier : List Action) → IsAt rules session.now v →
        v.standing ≡ action ∷ earlier → (result ≡ length (old_values_of (replay rules v.start earlier) action))
        × (take (used + result) olds.new ≡ take used olds.old ++ numbered (old_values_of (replay rules v.start earlier) action)) }
{
    session.has_session_value();
    match put_newest_old_values(session, olds, used) {
        Some(end) => end - used,
        None => unreachable!(),
    }
}

/// Writes the links of what the devices, the clock and the slot did in the newest action, a turn. Returns how many links
/// there are then.
#[inline(always)]
fn put_newest_rest(
    session: &Session<Rig>,
    before: &Before,
    links: &mut [Link],
    used: usize,
) -> usize
    requires some { 1 ≤ length session.now.records }
    requires small { before.now.symbols ≤ 65536 }
    requires room { used + MOST_REST_LINKS ≤ length links.old }
    ensures at_most { result ≤ used + MOST_REST_LINKS }
    ensures links { (v : SessionValue Machine Action) (earlier : List Action) → IsAt rules session.now v →
        v.standing ≡ Turn ∷ earlier → let s = replay rules v.start earlier in IsWellFormed s → before.now.slot ≡ s.slot →
        before.now.symbols ≡ s.printer.length → before.now.column ≡ s.printer.column →
        take result links.new ≡ take used links.old ++ links_of (rest_origins s) }
{
    let Some(back) = session.newest() else {
        unreachable!()
    };
    put_rest(session.machine(), before, &back, links, used)
}

/// A turn that is about to be performed: what its record will not tell, and what its processor will do.
#[derive(Clone, Copy)]
pub struct Begun {
    before: Before,
    next: NextTurn,
}

/// Returns the next turn, and writes the links of its processor into a slice, behind the first `used` that are there.
#[inline(always)]
pub fn begin_turn(machine: &Rig, links: &mut [Link], used: usize) -> Begun
    requires room { used + MOST_LINKS ≤ length links.old }
    ensures begun { IsBegun machine.now (take used links.old) links.new result }
    ensures small { result.before.symbols ≤ 65536 }
    ensures at_most { result.next.links ≤ used + MOST_LINKS }
{
    machine.keeps_ranges();
    Begun {
        before: Before::of(machine),
        next: next_origins(machine, links, used),
    }
}

/// Writes the other links of a turn that has been performed and is the newest action, and what it overwrote, into the
/// slices, behind those that are there. Returns the turn.
#[inline(always)]
pub fn end_turn(
    session: &Session<Rig>,
    begun: &Begun,
    links: &mut [Link],
    used: usize,
    olds: &mut [Old],
    overwritten: usize,
) -> Made
    requires some { 1 ≤ length session.now.records }
    requires small { begun.now.before.symbols ≤ 65536 }
    requires at_most { begun.now.next.links ≤ used + MOST_LINKS }
    requires links { used + MOST_TURN_LINKS ≤ length links.old }
    requires olds { overwritten + list_room ≤ length olds.old }
    ensures links_at_most { result.links ≤ MOST_TURN_LINKS }
    ensures olds_at_most { result.olds ≤ list_room }
    ensures ended { (v : SessionValue Machine Action) (earlier : List Action) (front : List Link) → IsAt rules session.now v →
        v.standing ≡ Turn ∷ earlier → length front ≡ used → IsBegun (replay rules v.start earlier) front links.old begun.now →
        IsEnded (replay rules v.start earlier) front links.new (take overwritten olds.old) olds.new result }
{
    let Begun { before, next } = *begun;
    let end = put_newest_rest(session, &before, links, next.links);
    let count = put_overwritten(session, olds, overwritten);
    Made {
        processor: u16::from(next.processor),
        address: next.address,
        word: next.word,
        kind: next.kind as u16,
        links: end.saturating_sub(used) as u16,
        own: next.links.saturating_sub(used) as u16,
        olds: count as u32,
    }
}

/// Performs one turn, and writes its links and what it overwrote into the slices, behind those that are there. Returns the
/// turn, and whether it changed the number of a watched place.
#[inline(always)]
fn record_turn(
    session: &mut Session<Rig>,
    links: &mut [Link],
    used: usize,
    olds: &mut [Old],
    overwritten: usize,
) -> (Made, bool)
    requires links { used + MOST_TURN_LINKS ≤ length links.old }
    requires olds { overwritten + list_room ≤ length olds.old }
    ensures hit { result.1 ≡ is_some (hit_of session.old.machine) }
    ensures machine { session.new.machine ≡ turn session.old.machine }
    ensures at { Moves rules session.old session.new (after_turns 1) }
    ensures links_at_most { result.0.links ≤ MOST_TURN_LINKS }
    ensures olds_at_most { result.0.olds ≤ list_room }
    ensures made { result.0 ≡ made_of session.old.machine }
    ensures links { take (used + result.0.links) links.new ≡ take used links.old ++ links_of (turn_origins session.old.machine) }
    ensures olds { take (overwritten + result.0.olds) olds.new
        ≡ take overwritten olds.old ++ numbered (old_values_of session.old.machine Turn) }
{
    session.has_session_value();
    let _capacity = session.capacity();
    let begun = begin_turn(session.machine(), links, used);
    let hit = turn_once(session);
    let made = end_turn(session, &begun, links, used, olds, overwritten);
    (made, hit)
}

/// Performs turns until there were `most`, or one changed the number of a watched place, or there is no more room: in
/// `made` for one turn, in `links` for `MOST_TURN_LINKS` links, or in `olds` for `MOST_OLDS` places. Writes each turn into
/// `made`; into `links`, turn after turn, where each number that the turn wrote comes from; and into `olds` what it
/// overwrote, as `pp_rig`'s `record` does. The links of a turn are those of its processor, the reader, the printer, the
/// clock and the slot; if two write one place, the last one counts.
pub fn record_origins(
    session: &mut Session<Rig>,
    most: usize,
    made: &mut [Made],
    links: &mut [Link],
    olds: &mut [Old],
) -> Recorded
    ensures moves { Moves rules session.old session.new (after_turns result.turns) }
    ensures stops { EndsAsStep result.turns session.old.machine result.hit }
    ensures made { take result.turns made.new ≡ all_made result.turns session.old.machine }
    ensures links { take result.links links.new ≡ all_links result.turns session.old.machine }
    ensures olds { take result.olds olds.new ≡ olds_of session.old.machine (replicate result.turns Turn) }
    ensures within { (result.turns ≤ most) × (result.turns ≤ length made.new) × (result.links ≤ length links.new)
        × (result.olds ≤ length olds.new) }
    ensures full { result.hit ≡ false → (most ≤ result.turns) ⊎ ((length made.new ≤ result.turns)
        ⊎ ((length links.new < result.links + MOST_TURN_LINKS) ⊎ (length olds.new < result.olds + list_room))) }
{
    let mut turns = 0;
    let mut used = 0;
    let mut overwritten = 0;
    while turns < most
        && turns < made.len()
        && links.len() - used >= MOST_TURN_LINKS
        && olds.len() - overwritten >= MOST_OLDS
    {
        let (turn, hit) = record_turn(session, links, used, olds, overwritten);
        made[turns] = turn;
        turns += 1;
        used += turn.links as usize;
        overwritten += turn.olds as usize;
        if hit {
            return Recorded {
                turns,
                links: used,
                olds: overwritten,
                hit,
            };
        }
    }
    Recorded {
        turns,
        links: used,
        olds: overwritten,
        hit: false,
    }
}
