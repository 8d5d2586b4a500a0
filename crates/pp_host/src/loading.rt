//! Loads the files that the options name.
ghost use Rattle.pp_files.specs.Files.{card_rule, panel_rule};
ghost use Rattle.pp_host.specs.Calls.{IsAllRead, Loads};
ghost use Rattle.pp_host.specs.Events.{Missing, Opened};
ghost use Rattle.pp_host.specs.Failures.{reads_by, writes_by};
ghost use Rattle.pp_host.specs.Host.{IsOpened};
ghost use Rattle.pp_host.specs.Known.{Agrees, Found};
ghost use Rattle.pp_host.specs.Loading.{IsFoundSettled, IsLost, deck_at, panel_at};
ghost use Rattle.pp_trouble.specs.declared.trouble.Trouble.TheVariants.{CannotOpen, ReadFailed};
ghost use Rattle.std.specs.Prelude.{◌≡◌, ◌⊎◌, ◌<◌, ◌≤◌, ◌++◌, ◌∷◌, [], All, Err, false, IfOk};
ghost use Rattle.std.specs.Prelude.{IfSome, MatchResult, Ok, option_map, ℕ};
ghost use Rattle.std.specs.String.{string_bytes};

use crate::host::Host;
use pp_files::{load_deck, load_panel};
use pp_trouble::{FileKind, Trouble};
use std::alloc::Global;

/// Opens a file of the program.
///
/// # Errors
/// `CannotOpen` if the host can't open it.
pub fn open<H: Host>(host: &mut H, kind: FileKind, path: &str) -> Result<H::File, Trouble>
    ensures files { H.known_files host.new ≡ H.known_files host.old }
    ensures failures { H.failure_count host.new ≡ H.failure_count host.old }
    ensures log { MatchResult result
        (λ _. H.log host.new ≡ H.log host.old ++ Opened kind path.now ∷ [])
        (λ _. H.log host.new ≡ H.log host.old ++ Missing kind path.now ∷ []) }
    ensures content { MatchResult result
        (λ file. IsOpened (H.known_files host.old path.now) (H.File.rest file))
        (λ trouble. (trouble ≡ CannotOpen kind) × Agrees (H.known_files host.old path.now) Found.Missing) }
    ensures unread { IfOk result
        (λ file. (H.File.given file ≡ []) × (H.File.ended file ≡ false) × (H.File.failure_count file ≡ 0)) }
{
    host.open(kind, path).ok_or(Trouble::CannotOpen(kind))
}

/// Loads the named deck, cards of 80 (decimal) columns with numbers from 0 to 7777. Without a name the deck is empty.
///
/// # Errors
/// `CannotOpen`, `Load`, `ReadFailed` and `NoMemory`.
pub fn deck<H: Host>(
    alloc: Global,
    host: &mut H,
    path: &Option<String>,
) -> Result<Vec<[u16; 80]>, Trouble>
    ensures files { H.known_files host.new ≡ H.known_files host.old }
    ensures deck { Loads (H.known_files host.old) (H.log host.old) (H.log host.new) FileKind.Deck (option_map string_bytes path.now)
        (λ read ended content. MatchResult result
        (λ deck. (deck_at (option_map string_bytes path.now) content ≡ Ok deck.items)
        × IsAllRead (option_map string_bytes path.now) ended)
        (λ trouble. IsFoundSettled ended read content (λ found. deck_at (option_map string_bytes path.now) found ≡ Err trouble)
        ⊎ IsLost card_rule (option_map string_bytes path.now) read ended content trouble)) }
    ensures reads { H.failure_count host.new ≡ reads_by result (H.failure_count host.old) }
    ensures early { (count : ℕ) → writes_by result count ≡ count }
    ensures within { IfOk result (λ deck. All (All (λ word. word < 0o10000)) deck.items) }
{
    let Some(path) = path else {
        return Ok(Vec::new(alloc));
    };
    let mut file = open(host, FileKind::Deck, path.as_str())?;
    let read = load_deck(alloc, &mut file);
    host.close(file);
    match read {
        Ok(cards) => Ok(cards),
        Err(fault) => Err(Trouble::load(FileKind::Deck, fault)),
    }
}

/// Loads the named dead start panel, or returns `None` without a name.
///
/// # Errors
/// `CannotOpen`, `Load` and `ReadFailed`.
pub fn panel<H: Host>(host: &mut H, path: &Option<String>) -> Result<Option<[u16; 12]>, Trouble>
    ensures files { H.known_files host.new ≡ H.known_files host.old }
    ensures panel { Loads (H.known_files host.old) (H.log host.old)
        (H.log host.new) FileKind.Panel (option_map string_bytes path.now) (λ read ended content. MatchResult result
        (λ panel. (panel_at (option_map string_bytes path.now) content ≡ Ok panel)
        × IsAllRead (option_map string_bytes path.now) ended)
        (λ trouble. IsFoundSettled ended read content (λ found. panel_at (option_map string_bytes path.now) found ≡ Err trouble)
        ⊎ ((trouble ≡ ReadFailed) × IsLost panel_rule (option_map string_bytes path.now) read ended content ReadFailed))) }
    ensures reads { H.failure_count host.new ≡ reads_by result (H.failure_count host.old) }
    ensures early { (count : ℕ) → writes_by result count ≡ count }
    ensures within { IfOk result (λ panel. IfSome panel (All (λ word. word ≤ 0o7777))) }
{
    let Some(path) = path else {
        return Ok(None);
    };
    let mut file = open(host, FileKind::Panel, path.as_str())?;
    let read = load_panel(&mut file);
    host.close(file);
    match read {
        Ok(words) => Ok(Some(words)),
        Err(fault) => Err(Trouble::load(FileKind::Panel, fault)),
    }
}
