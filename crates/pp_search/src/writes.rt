//! The newest action that wrote a place.
ghost use Rattle.pp_history.specs.SessionValue.{AtEach, Moves, after_back};
ghost use Rattle.pp_machine.specs.Numbering.{fixed_places};
ghost use Rattle.pp_rig.specs.Rules.{rules};
ghost use Rattle.pp_search.specs.Search.{last_write, wrote_newest};
ghost use Rattle.std.specs.Prelude.{◌≡◌, ◌+◌, ◌<◌, ◌≤◌, IfSome, length, unwrap_or};

use crate::judging::has_written;
use pp_history::Session;
use pp_rig::Rig;

/// Returns whether the newest action wrote one of `count` places, from the one with number `first` on.
fn has_newest_written(session: &Session<Rig>, first: u32, count: u32) -> bool
    requires some { 1 ≤ length session.now.records }
    requires has { first + count ≤ fixed_places + session.now.machine.setup.central_words }
    ensures { AtEach rules session.now (λ v. result ≡ wrote_newest first count v.start v.standing) }
{
    match session.newest() {
        Some(back) => has_written(session.machine(), &back, first, count),
        None => unreachable!(),
    }
}

/// Undoes the actions that are newer than the newest one that wrote one of the places, and returns how many these are. If
/// no action that can be undone wrote one, all are undone.
fn back_to_write(session: &mut Session<Rig>, first: u32, count: u32) -> Option<u32>
    requires has { first + count ≤ fixed_places + session.old.machine.setup.central_words }
    ensures write { AtEach rules session.old (λ v. result ≡ last_write first count v) }
    ensures kept { IfSome result (λ k. k < length session.old.records) }
    ensures moves { Moves rules session.old session.new (λ v. after_back v (unwrap_or result v.kept)) }
{
    session.has_session_value();
    let kept = session.kept();
    let mut undone = 0;
    while undone < kept {
        if has_newest_written(session, first, count) {
            return Some(undone);
        }
        let Ok(()) = session.back(1) else {
            unreachable!()
        };
        undone += 1;
    }
    None
}

/// Returns how many actions are newer than the newest one that wrote one of `count` places, from the one with number
/// `first` on, with another number or with the same. If no action that can be undone wrote one, returns `None`. The session
/// is then as it was.
pub fn last_write(session: &mut Session<Rig>, first: u32, count: u32) -> Option<u32>
    requires has { first + count ≤ fixed_places + session.old.machine.setup.central_words }
    ensures write { AtEach rules session.old (λ v. result ≡ last_write first count v) }
    ensures kept { IfSome result (λ k. k < length session.new.records) }
    ensures stays { Moves rules session.old session.new (λ v. v) }
{
    session.has_session_value();
    let kept = session.kept();
    let found = back_to_write(session, first, count);
    let Ok(()) = session.forward(found.unwrap_or(kept)) else {
        unreachable!()
    };
    found
}
