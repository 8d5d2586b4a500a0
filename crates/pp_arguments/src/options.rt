//! The options of the program: what the words of the command line ask for, or why they are rejected.
ghost use Rattle.pp_arguments.specs.CommandLine.{Text, faults_of};
ghost use Rattle.pp_arguments.specs.Inner.{AreGiven};
ghost use Rattle.pp_arguments.specs.Options.{AreInRange, IsCauseOf, IsMemoryOrChannel, are_admitted, asked_by, asked_of};
ghost use Rattle.pp_arguments.specs.Options.{asked_or, central_read, channel_read, history_read};
ghost use Rattle.std.specs.Prelude.{◌≡◌, ◌≤◌, [], List, Ok, map, option_map, IfErr, IfOk, IfSome, IsTrue, OnOk};
ghost use Rattle.std.specs.String.{string_bytes};

use crate::command_line::read_words;
use crate::decimal::read_decimal;
use clap::ArgMatches;
use pp_arith::read_octal;
use pp_machine::CentralSize;
use std::alloc::Global;

/// What the words of the command line ask for.
#[derive(Drop)]
pub struct Options {
    /// How many actions the undo history holds, 1 to 10,000 decimal: `--history`, by default 10,000.
    pub history: u32,
    /// How many words central memory has: `--central` 32, 64 or 128 (decimal) for 32,768, 65,536 or
    /// 131,072 words, by default 128.
    pub central: CentralSize,
    /// The file with the reader's cards: `--deck`, by default none.
    pub deck: Option<String>,
    /// The card reader's channel, octal 0 to 13: `--reader`, by default 12.
    pub reader: u8,
    /// The line printer's channel, octal 0 to 13: `--printer`, by default 13.
    pub printer: u8,
    /// The file with the twelve words of the dead start panel: `--panel`, by default none.
    pub panel: Option<String>,
    /// The file with the console's lines: the word that belongs to no option, by default none.
    pub script: Option<String>,
}

/// Why the words of the command line are rejected.
#[derive(Clone, Copy, Debug, PartialEq, Eq, Drop)]
pub enum ArgFault {
    /// Memory ran out.
    NoMemory,
    /// The words ask for help.
    Help,
    /// The words are not those of this command line, or a number of actions or a size of central
    /// memory is out of range.
    BadArguments,
    /// A device's channel is not octal, or is above 13 octal.
    BadChannel,
}

/// The largest number of actions in an undo history.
const MOST_KEPT: u32 = 10_000;

/// The highest channel that a device can be on.
const LAST_CHANNEL: u64 = 0o13;

/// The channels of the card reader and the line printer, if the words name none.
const READER_CHANNEL: u8 = 0o12;

const PRINTER_CHANNEL: u8 = 0o13;

fn history(word: Option<&str>) -> Option<u32>
    ensures value { result ≡ asked_or 10000 history_read (option_map (λ text. text.now) word.entry) }
    ensures within { IfSome result (λ count. (1 ≤ count) × (count ≤ 10000)) }
{
    let Some(word) = word else {
        return Some(MOST_KEPT);
    };
    read_decimal(word, MOST_KEPT).filter(|count| *count >= 1)
}

fn central(word: Option<&str>) -> Option<CentralSize>
    ensures { result ≡ asked_or CentralSize.K128 central_read (option_map (λ text. text.now) word.entry) }
{
    let Some(word) = word else {
        return Some(CentralSize::K128);
    };
    match read_decimal(word, 128)? {
        32 => Some(CentralSize::K32),
        64 => Some(CentralSize::K64),
        128 => Some(CentralSize::K128),
        _ => None,
    }
}

fn channel(word: Option<&str>, usual: u8) -> Option<u8>
    requires { usual ≤ 0o13 }
    ensures value { result ≡ asked_or usual channel_read (option_map (λ text. text.now) word.entry) }
    ensures within { IfSome result (λ number. number ≤ 0o13) }
{
    let Some(word) = word else {
        return Some(usual);
    };
    let number = read_octal(word.as_bytes(), LAST_CHANNEL).ok()?;
    Some(number as u8)
}

fn file(alloc: Global, word: Option<&str>) -> Result<Option<String>, ArgFault>
    ensures name { IfOk result (λ name. option_map (λ text. text.now) word.entry ≡ option_map string_bytes name) }
    ensures memory { IfErr result (λ fault. fault ≡ ArgFault.NoMemory) }
{
    let Some(word) = word else {
        return Ok(None);
    };
    Ok(Some(word.to_string(alloc).map_err(|_| ArgFault::NoMemory)?))
}

/// Returns the options that the words with these matches ask for.
///
/// # Errors
/// `NoMemory`, `BadArguments` and `BadChannel`.
#[tactic(auto, unfolding(crate::specs::Options::asked_by))]
fn options_of(alloc: Global, matches: &ArgMatches) -> Result<Options, ArgFault>
    ensures asked { (words : List Text) → AreGiven words matches.now →
        IfOk result (λ options. asked_by words ≡ Ok (asked_of options)) }
    ensures ranges { IfOk result AreInRange }
    ensures cause { (words : List Text) → AreGiven words matches.now → faults_of words ≡ [] → IfErr result (IsCauseOf words) }
    ensures admitted { (words : List Text) → AreGiven words matches.now →
        IsTrue (are_admitted words) → IfErr result IsMemoryOrChannel }
{
    let history = history(matches.get_str("history")).ok_or(ArgFault::BadArguments)?;
    let central = central(matches.get_str("central")).ok_or(ArgFault::BadArguments)?;
    let reader = channel(matches.get_str("reader"), READER_CHANNEL).ok_or(ArgFault::BadChannel)?;
    let printer = channel(matches.get_str("printer"), PRINTER_CHANNEL).ok_or(ArgFault::BadChannel)?;
    Ok(Options {
        history,
        central,
        deck: file(alloc, matches.get_str("deck"))?,
        reader,
        printer,
        panel: file(alloc, matches.get_str("panel"))?,
        script: file(alloc, matches.get_str("script"))?,
    })
}

/// Returns the options that the words ask for. The first word is the program's name:
/// `pp6600 [--history N] [--central K] [--deck F] [--reader C] [--printer C] [--panel F] [SCRIPT]`
/// N and K are decimal, C is octal, and any number of leading zeros is allowed. N is 1 to 10,000, K is
/// 32, 64 or 128, and C is 0 to 13 octal.
///
/// # Errors
/// `NoMemory` if memory runs out. `Help` or `BadArguments` if the words are not those of this command line, as `clap`
/// reads it. Otherwise `BadArguments` if N or K is out of range, and otherwise `BadChannel` if a channel is.
pub fn read_arguments(alloc: Global, words: Vec<String>) -> Result<Options, ArgFault>
    ensures asked { IfOk result (λ options. asked_by (map string_bytes words.items) ≡ Ok (asked_of options)) }
    ensures ranges { IfOk result AreInRange }
    ensures line { OnOk result (faults_of (map string_bytes words.items) ≡ []) }
    ensures cause { IfErr result (IsCauseOf (map string_bytes words.items)) }
    ensures admitted { IsTrue (are_admitted (map string_bytes words.items)) → IfErr result IsMemoryOrChannel }
{
    let matches = read_words(alloc, words.as_slice())?;
    options_of(alloc, &matches)
}
