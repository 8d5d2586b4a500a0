//! Loads decks and panels.
ghost use Rattle.std.specs.Io.KnownBytes.{Consumes, IsAtEnd};
ghost use Rattle.std.specs.Prelude.{◌≡◌, ◌≢◌, ◌<◌, ◌++◌, ℕ, List, All, Ok, IfOk, IfErr, OnOk, MatchResult, true};
ghost use Rattle.pp_lines.specs.Device.{all_bytes};
ghost use Rattle.pp_files.specs.Files.{card_rule, panel_rule, deck_of_file, panel_of_file};
ghost use Rattle.pp_files.specs.Fault.{CountsLoadReads, IsLoadCause};

use crate::fault::LoadFault;
use crate::loading::read_sheet;
use crate::sheet::{COLUMNS, Deck, PANEL_WORDS, Panel};
use arrayvec::ArrayVec;
use pp_lines::Source;
use std::alloc::Global;

/// Reads the cards of a deck file to the end of input.
///
/// Each line of words is a card. A line without words is skipped, and so is a line whose first byte
/// that is not a blank or a tab is `*`. The words are octal, 0 to 7777, for the columns from the first
/// on. Columns without a word are 0. A file without cards is an empty deck.
///
/// # Errors
/// The file's first fault, in the order of `LoadFault`. `NoMemory` is reported only at a card.
#[tactic(auto, unfolding(crate::specs::Files::deck_of_file))]
pub fn load_deck<R: Source>(alloc: Global, source: &mut R) -> Result<Vec<[u16; COLUMNS]>, LoadFault>
    // For every source: the bytes read are the file, or after a fault the part of it that was read.
    ensures file { (taken : List ℕ) × Consumes (R.rest source.old) (R.rest source.new) taken
        × (R.given source.new ≡ R.given source.old ++ taken)
        × MatchResult result
        (λ deck. deck_of_file taken ≡ Ok deck.items)
        (λ fault. IsLoadCause card_rule deck_of_file (R.ended source.new) taken (all_bytes (R.rest source.old) taken) fault) }
    ensures within { IfOk result (λ deck. All (All (λ value. value < 0o10000)) deck.items) }
    ensures all { OnOk result (IsAtEnd (R.rest source.new)) }
    ensures ended { OnOk result (R.ended source.new ≡ true) }
    ensures reads { CountsLoadReads (R.failure_count source.old) (R.failure_count source.new) result }
{
    let mut deck = Deck {
        cards: Vec::new(alloc),
    };
    read_sheet(source, &mut deck)?;
    Ok(deck.cards)
}

/// Reads the twelve words of a panel file to the end of input: the words of all lines together, each
/// octal, 0 to 7777. Lines are skipped as in a deck.
///
/// # Errors
/// The file's first fault, in the order of `LoadFault`, and `PanelCount` if it ends with fewer than
/// twelve words. It is never `NoMemory` or `TooManyWords`.
#[tactic(auto, unfolding(crate::specs::Files::panel_of_file))]
pub fn load_panel<R: Source>(source: &mut R) -> Result<[u16; PANEL_WORDS], LoadFault>
    // For every source: the bytes read are the file, or after a fault the part of it that was read.
    ensures file { (taken : List ℕ) × Consumes (R.rest source.old) (R.rest source.new) taken
        × (R.given source.new ≡ R.given source.old ++ taken)
        × MatchResult result
        (λ panel. panel_of_file taken ≡ Ok panel)
        (λ fault. IsLoadCause panel_rule panel_of_file (R.ended source.new) taken (all_bytes (R.rest source.old) taken) fault) }
    ensures within { IfOk result (λ panel. All (λ value. value < 0o10000) panel) }
    ensures no_memory { IfErr result (λ fault. fault ≢ LoadFault.NoMemory) }
    ensures all { OnOk result (IsAtEnd (R.rest source.new)) }
    ensures ended { OnOk result (R.ended source.new ≡ true) }
    ensures reads { CountsLoadReads (R.failure_count source.old) (R.failure_count source.new) result }
{
    let mut panel = Panel {
        words: ArrayVec::new(),
    };
    read_sheet(source, &mut panel)?;
    panel.words.into_inner().map_err(|_| LoadFault::PanelCount)
}
