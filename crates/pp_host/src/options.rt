//! Reads the options from the words of the host.
ghost use Rattle.pp_arguments.specs.Options.{AreInRange};
ghost use Rattle.pp_host.specs.Calls.{ReadsWords, asked_of};
ghost use Rattle.pp_host.specs.Failures.{reads_by, writes_by};
ghost use Rattle.pp_host.specs.Options.{Means};
ghost use Rattle.pp_trouble.specs.declared.trouble.Trouble.TheVariants.{NoMemory};
ghost use Rattle.std.specs.Prelude.{◌≡◌, ◌⊎◌, Err, IfOk, MatchResult, Ok, ℕ};

use crate::host::{Host, WordsFault};
use pp_arguments::{Options, read_arguments};
use pp_trouble::Trouble;
use std::alloc::Global;

/// Returns the options that the words of the host ask for.
///
/// # Errors
/// `Help`, `BadArguments` or `BadChannel` if the words are rejected, and `NoMemory` if memory runs out.
pub fn options_of<H: Host>(alloc: Global, host: &mut H) -> Result<Options, Trouble>
    ensures files { H.known_files host.new ≡ H.known_files host.old }
    ensures log { H.log host.new ≡ H.log host.old }
    ensures failures { H.failure_count host.new ≡ H.failure_count host.old }
    ensures early { (count : ℕ) → writes_by result count ≡ count }
    ensures reads { (count : ℕ) → reads_by result count ≡ count }
    ensures in_range { IfOk result AreInRange }
    ensures meaning { ReadsWords (H.known_words host.old) (λ words. MatchResult result
        (λ options. Means words (Ok (asked_of options)))
        (λ trouble. (trouble ≡ NoMemory) ⊎ Means words (Err trouble))) }
{
    let words = match host.words() {
        Ok(words) => words,
        Err(WordsFault::NoMemory) => return Err(Trouble::NoMemory),
        Err(WordsFault::NotText) => return Err(Trouble::BadArguments),
    };
    Ok(read_arguments(alloc, words)?)
}
