//! The sheets that a file is read into.
#![tactic(auto, using(crate::proofs::MoreRows::rows))]

ghost use Rattle.std.specs.Prelude.{◌≡◌, ◌<◌, ◌≤◌, ◌++◌, length, drop, Bool, List, true, false, map, All, IfErr, IsTrue};
ghost use Rattle.std.specs.Prelude.{MatchResult};
ghost use Rattle.std.specs.List.{list_all, concat};
ghost use Rattle.pp_lines.specs.Words.{words};
ghost use Rattle.pp_arith.specs.Octal.{octal_value};
ghost use Rattle.pp_files.specs.Rows.{Row, is_number};
ghost use Rattle.pp_files.specs.Files.{Rule, card_rule, panel_rule};
ghost use Rattle.pp_files.specs.Inner.Loading.{card_of_row, Reads, FailsBy, IsLineFault};

use crate::fault::LoadFault;
use crate::rows::numbers;
use arrayvec::ArrayVec;

/// The number of columns on a card.
pub const COLUMNS: usize = 80;

/// The number of words in a panel.
pub const PANEL_WORDS: usize = 12;

/// The destination of a file, which takes it row by row.
pub trait Sheet {
    // Adds the row of a line to the rows so far, or fails.
    ghost rule: { Rule };

    // The sheet holds these rows.
    ghost holds: { Self → List Row → Type 0 };

    // Whether a row may need memory.
    ghost needs_memory: { Bool };

    /// Adds the row of a line of numbers. `line` is the number of the line.
    ///
    /// # Errors
    /// The fault of the rule, or `NoMemory` if memory runs out.
    fn add(&mut self, line: u32, text: &[u8]) -> Result<(), LoadFault>
        requires { IsTrue (list_all is_number (words text.now)) }
        ensures row { (rows : List Row) → holds self.old rows →
            MatchResult result
            (λ _. Reads (holds self.new) (rule line rows (map octal_value (words text.now))))
            (λ fault. FailsBy (rule line rows (map octal_value (words text.now))) fault) }
        ensures faults { IfErr result (IsLineFault needs_memory) };
}

/// The cards of a deck: each column a number from 0 to 7777.
#[derive(Drop)]
pub struct Deck {
    pub cards: Vec<[u16; COLUMNS]>,
    ghost small: { All (All (λ value. value < 0o10000)) cards.items },
}

impl Sheet for Deck {
    ghost rule = { card_rule };

    ghost holds = { λ deck rows. deck.cards.items ≡ map card_of_row rows };

    ghost needs_memory = { true };

    fn add(&mut self, line: u32, text: &[u8]) -> Result<(), LoadFault> {
        let row = numbers::<COLUMNS>(text).ok_or(LoadFault::TooManyWords(line))?;
        self.cards.push(card(&row)).map_err(|_| LoadFault::NoMemory)
    }
}

/// Returns the card of a row, with zeros for the columns that have no number.
fn card(row: &ArrayVec<u16, COLUMNS>) -> [u16; COLUMNS]
    ensures row { result ≡ card_of_row row.now.items }
    ensures within { All (λ value. value < 0o10000) row.now.items
        → All (λ value. value < 0o10000) result }
{
    let mut card = [0; COLUMNS];
    card[..row.len()].copy_from_slice(row);
    card
}

/// The words of a panel, 0 to 7777, as far as they were read.
#[derive(Drop)]
pub struct Panel {
    pub words: ArrayVec<u16, PANEL_WORDS>,
    ghost small: { All (λ value. value < 0o10000) words.items },
}

impl Sheet for Panel {
    ghost rule = { panel_rule };

    ghost holds = { λ panel rows. panel.words.items ≡ concat rows };

    ghost needs_memory = { false };

    fn add(&mut self, _line: u32, text: &[u8]) -> Result<(), LoadFault> {
        let Some(row) = numbers::<PANEL_WORDS>(text) else {
            return Err(LoadFault::PanelCount);
        };
        match self.words.try_extend_from_slice(row.as_slice()) {
            Ok(()) => Ok(()),
            Err(_) => Err(LoadFault::PanelCount),
        }
    }
}
