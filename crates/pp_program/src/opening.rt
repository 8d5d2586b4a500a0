//! Opens a session with options and the bytes of files.
ghost use Rattle.pp_arguments.specs.Options.{AreInRange};
ghost use Rattle.pp_history.specs.SessionValue.{IsAt};
ghost use Rattle.pp_host.specs.Calls.{asked_of};
ghost use Rattle.pp_lines.specs.Device.{Ends, Logs};
ghost use Rattle.pp_machine.specs.CentralSizes.{words_of};
ghost use Rattle.pp_program.specs.Opening.{IsOpened, cards_in, opened, options_of, size_of, wanted_of, words_in};
ghost use Rattle.pp_rig.specs.Rules.{rules};
ghost use Rattle.pp_trouble.specs.declared.trouble.Trouble.TheVariants.{BadArguments, BadChannel, NoMemory};
ghost use Rattle.std.specs.Io.KnownBytes.{ReadConsumes};
ghost use Rattle.std.specs.Prelude.{◌≡◌, ◌⊎◌, ◌<◌, ◌≤◌, All, Err, IfSome, MatchResult, Ok, Some, None};

use crate::console::session;
use pp_arguments::Options;
use pp_files::{load_deck, load_panel};
use pp_history::Session;
use pp_lines::{Failed, Log, Source};
use pp_machine::CentralSize;
use pp_rig::Rig;
use pp_trouble::{FileKind, Trouble};
use std::alloc::Global;

/// What a session is opened with.
#[derive(Clone, Copy, Drop)]
pub struct OpenOptions<'a> {
    /// How many actions the undo history holds, 1 to 10,000 (decimal).
    pub history: u32,
    /// The words of central memory: 32,768, 65,536 or 131,072 (decimal).
    pub central: u32,
    /// The card reader's channel, 0 to 13 (octal).
    pub reader: u8,
    /// The printer's channel, 0 to 13 (octal), and not the reader's.
    pub printer: u8,
    /// The bytes of the deck file, or none.
    pub deck: &'a [u8],
    /// The bytes of the panel file, or none.
    pub panel: &'a [u8],
}

/// A source of the bytes of a slice, which never fails.
#[derive(Drop)]
struct Bytes<'a> {
    rest: &'a [u8],
    log: Log,
}

impl Source for Bytes<'_> {
    ghost rest = { λ bytes. Some bytes.rest.now };

    ghost given = { λ bytes. bytes.log.bytes };

    ghost ended = { λ bytes. bytes.log.ended };

    ghost calls = { λ bytes. bytes.log.calls };

    ghost failure_count = { λ _. 0 };

    fn take(&mut self, into: &mut [u8]) -> Result<usize, Failed> {
        let rest = self.rest;
        let count = rest.len().min(into.len());
        into[..count].copy_from_slice(&rest[..count]);
        self.log.note(into, count);
        self.rest = &rest[count..];
        Ok(count)
    }

    fn failures(&self) -> u64 {
        0
    }

    fn log(&self) -> &Log {
        &self.log
    }
}

/// Returns the size of a central memory of so many words, if there is one.
fn size_of(words: u32) -> Option<CentralSize>
    ensures { result ≡ size_of words }
{
    match words {
        0o100000 => Some(CentralSize::K32),
        0o200000 => Some(CentralSize::K64),
        0o400000 => Some(CentralSize::K128),
        _ => None,
    }
}

/// Returns the options.
///
/// # Errors
/// `BadArguments` if the history or central memory is out of range, and otherwise `BadChannel` if a channel is.
fn options_of(wanted: &OpenOptions) -> Result<Options, Trouble>
    ensures options { MatchResult result
        (λ options. options_of (wanted_of wanted.now) ≡ Ok (asked_of options))
        (λ trouble. options_of (wanted_of wanted.now) ≡ Err trouble) }
    ensures in_range { MatchResult result AreInRange (λ trouble. trouble ≡ trouble) }
{
    if wanted.history < 1 || wanted.history > 10_000 {
        return Err(Trouble::BadArguments);
    }
    let central = size_of(wanted.central).ok_or(Trouble::BadArguments)?;
    if wanted.reader > 0o13 || wanted.printer > 0o13 {
        return Err(Trouble::BadChannel);
    }
    Ok(Options {
        history: wanted.history,
        central,
        deck: None,
        reader: wanted.reader,
        printer: wanted.printer,
        panel: None,
        script: None,
    })
}

/// Returns the cards of a deck file with these bytes.
///
/// # Errors
/// `Load` and `NoMemory`.
fn cards_in(alloc: Global, bytes: &[u8]) -> Result<Vec<[u16; 80]>, Trouble>
    ensures cards { MatchResult result
        (λ cards. cards_in bytes.now ≡ Ok cards.items)
        (λ trouble. (cards_in bytes.now ≡ Err trouble) ⊎ (trouble ≡ NoMemory)) }
    ensures within { MatchResult result (λ cards. All (All (λ word. word < 0o10000)) cards.items) (λ trouble. trouble ≡ trouble) }
{
    let mut file = Bytes {
        rest: bytes,
        log: Log::new(),
    };
    load_deck(alloc, &mut file).map_err(|fault| Trouble::load(FileKind::Deck, fault))
}

/// Returns the words of a panel file with these bytes, or `None` if there are no bytes.
///
/// # Errors
/// `Load`.
fn words_in(bytes: &[u8]) -> Result<Option<[u16; 12]>, Trouble>
    ensures words { MatchResult result
        (λ words. words_in bytes.now ≡ Ok words)
        (λ trouble. words_in bytes.now ≡ Err trouble) }
    ensures within { MatchResult result (λ words. IfSome words (All (λ word. word ≤ 0o7777))) (λ trouble. trouble ≡ trouble) }
{
    if bytes.is_empty() {
        return Ok(None);
    }
    let mut file = Bytes {
        rest: bytes,
        log: Log::new(),
    };
    load_panel(&mut file)
        .map(Some)
        .map_err(|fault| Trouble::load(FileKind::Panel, fault))
}

/// Opens a session: a new machine at its start, with no action kept.
///
/// # Errors
/// The first trouble, in the program's order: `BadArguments`, `BadChannel`, `Load` of the deck and of the panel,
/// `SameChannel` and `DeckTooLong`. Or `NoMemory`.
#[tactic(auto, unfolding(crate::specs::Opening::opened))]
pub fn open(alloc: Global, wanted: &OpenOptions) -> Result<Session<Rig>, Trouble>
    ensures { MatchResult result
        (λ session. IsOpened (wanted_of wanted.now) (IsAt rules session))
        (λ trouble. (opened (wanted_of wanted.now) ≡ Err trouble) ⊎ (trouble ≡ NoMemory)) }
{
    let options = options_of(wanted)?;
    let cards = cards_in(alloc, wanted.deck)?;
    let words = words_in(wanted.panel)?;
    session(alloc, &options, cards, words)
}
