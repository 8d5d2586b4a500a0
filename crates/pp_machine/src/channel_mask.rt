//! Sets of channels in one number: channel c is in the set if bit c is 1.
ghost use Rattle.std.specs.Prelude.{◌≡◌, ◌<◌, ℕ, List, slice_index, slice_set};
ghost use Rattle.pp_machine.specs.ChannelNumbers.{state_number};
ghost use Rattle.pp_machine.specs.Inner.ChannelMasks.{HasActive, mask_with};
ghost use Rattle.pp_machine.specs.Ranges.{channel_count};

use crate::channel::ChannelState;

/// Returns a mask with channel c, 0 to 0o13, added.
#[tactic(auto, using(crate::proofs::ChannelMasks::shifted))]
pub(crate) fn mask_with(mask: u16, c: u8) -> u16
    requires { c < channel_count }
    ensures { result ≡ mask_with mask c }
{
    mask | 1u16 << c
}

/// Returns the mask of the active channels after channel c has changed from the old to the new state, from the mask before
/// that. Only opening or closing the channel changes a bit.
pub(crate) fn mask_after(active: u16, c: u8, old: ChannelState, new: ChannelState) -> u16
    requires { c < channel_count }
    ensures { (states : List ℕ) → slice_index states c ≡ state_number old → HasActive active states
        → HasActive result (slice_set states c (state_number new)) }
{
    match (old, new) {
        (ChannelState::Inactive, ChannelState::Inactive) => active,
        (ChannelState::Inactive, _) => active | 1u16 << c,
        (_, ChannelState::Inactive) => active & !(1u16 << c),
        _ => active,
    }
}
