//! Which actions the machine admits.
ghost use Rattle.std.specs.Prelude.{◌≡◌, ◌&&◌, nat_le, MatchResult, None, Some};
ghost use Rattle.std.specs.List.{list_all};
ghost use Rattle.pp_machine.specs.Ranges.{twelve_bits};
ghost use Rattle.pp_actions.specs.Admitting.{first_fault, is_in_range, is_watchable, is_word_or_none, state_fault};

use super::Rig;
use pp_actions::{Action, ActionFault};
use pp_machine::ChannelState;

/// One past the greatest word of sixty bits.
const WORD_END: u64 = 1 << 60;

/// Returns whether each value has twelve bits.
fn are_words(values: &[u16]) -> bool
    ensures { result ≡ list_all (λ value. nat_le value twelve_bits) values.now }
{
    values.iter().all(|value| *value <= 0o7777)
}

/// Returns whether a number, if there is one, has twelve bits.
fn is_small(word: Option<u16>) -> bool
    ensures { result ≡ is_word_or_none word }
{
    match word {
        None => true,
        Some(word) => word <= 0o7777,
    }
}

impl Rig {
    /// Returns whether each number of the action is in its range.
    fn has_range(&self, action: &Action) -> bool
        ensures { result ≡ is_in_range self.now.setup.central_words action.now }
    {
        match action {
            Action::Turn | Action::Deadstart => true,
            Action::SetCells { pp, a, values } => {
                *pp < 10 && *a < 4096 && values.as_slice().len() > 0 && are_words(values.as_slice())
            }
            Action::SetA { pp, v } => *pp < 10 && *v <= 0o777777,
            Action::SetP { pp, v } | Action::SetQ { pp, v } => *pp < 10 && *v <= 0o7777,
            Action::SetWord { a, v } => *a < self.central_size.words() && *v < WORD_END,
            // Function comes only from a processor.
            Action::SetChannel { c, state, word } => {
                *c < 12 && *state != ChannelState::Function && is_small(*word)
            }
            Action::Watch(watched) | Action::Unwatch(watched) => {
                watched.is_watchable(self.central_size.words())
            }
        }
    }

    /// Checks an action whose numbers are in their ranges. Fails with the first cause for which it is not admitted.
    fn check_state(&self, action: &Action) -> Result<(), ActionFault>
        ensures { MatchResult result (λ _. state_fault self.now action.now ≡ None)
            (λ fault. state_fault self.now action.now ≡ Some fault) }
    {
        let fault = match action {
            Action::Watch(_) if self.watches.is_full() => ActionFault::WatchesFull,
            Action::Watch(watched) if self.watches.is_watched(*watched) => {
                ActionFault::AlreadyWatched
            }
            Action::Unwatch(watched) if !self.watches.is_watched(*watched) => {
                ActionFault::NotWatched
            }
            Action::Deadstart if self.panel.is_none() => ActionFault::NoPanel,
            _ => return Ok(()),
        };
        Err(fault)
    }

    /// Checks whether the machine admits the action [P27].
    ///
    /// # Errors
    /// The first cause that applies:
    /// - `Range` if a number is outside its range, there is no value to set, or a channel would be set to `Function`
    /// - `WatchesFull` if eight places are watched already
    /// - `AlreadyWatched` if the place to watch is watched already
    /// - `NotWatched` if the place to remove is not watched
    /// - `NoPanel` if a machine without a dead start panel is to be dead started
    #[tactic(auto, unfolding(pp_actions::specs::Admitting::first_fault))]
    pub fn check(&self, action: &Action) -> Result<(), ActionFault>
        ensures { MatchResult result (λ _. first_fault self.now action.now ≡ None)
            (λ fault. first_fault self.now action.now ≡ Some fault) }
    {
        if self.has_range(action) {
            self.check_state(action)
        } else {
            Err(ActionFault::Range)
        }
    }
}
