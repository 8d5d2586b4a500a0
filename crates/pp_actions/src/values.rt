//! The words of one action that sets cells.
ghost use Rattle.std.proofs.Common.{ap₂};
ghost use Rattle.std.specs.Prelude.{◌≡◌, ℕ, ◌≤◌, List, length, take};
ghost use Rattle.pp_actions.specs.Padding.{padded};

use arrayvec::ArrayVec;
use std::marker::Model;

/// Words for cells, at most eight. Contracts see them as a list. [P27]
#[derive(Clone, Copy, Drop)]
pub struct Values {
    count: u8,
    /// The words, followed by zeros.
    words: [u16; 8],
}

impl Model for Values {
    ghost Value = { List ℕ };

    ghost view = { λ values. take values.count values.words };

    ghost invariant = { λ values. (values.count ≤ 8)
        × (length (take values.count values.words) ≡ values.count) × (padded (take values.count values.words) ≡ values.words) };

    ghost inverse = { λ list. record { count = length list; words = padded list } };

    ghost inverse_ok = { λ values (few, same_count, same_words).
        ap₂ (λ count words. record { count = count; words = words }) same_count same_words };
}

impl Values {
    /// Returns a value with these words.
    #[tactic(auto, using(crate::proofs::Padding::padding))]
    pub fn new(words: ArrayVec<u16, 8>) -> Values
        ensures { result ≡ words.items }
    {
        let count = words.len();
        let mut all = [0; 8];
        all[..count].copy_from_slice(words.as_slice());
        Values {
            count: count as u8,
            words: all,
        }
    }

    /// Returns the words in their order.
    pub fn as_slice(&self) -> &[u16]
        ensures value { result.now ≡ self.now }
        ensures at_most { length result.now ≤ 8 }
    {
        &self.words[..self.count as usize]
    }
}
