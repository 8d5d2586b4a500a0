//! The words of a command line.
ghost use Rattle.std.specs.Vec.Iter.{into_iter_items};
ghost use Rattle.std.specs.IoError.{error_kind};
ghost use Rattle.std.specs.declared.io.ErrorKind.TheVariants.{OutOfMemory};
ghost use Rattle.std.specs.Io.{WritesAtMost};
ghost use Rattle.std.specs.Prelude.{◌≡◌, ◌≢◌, ◌<◌, Err, IfErr, IfOk, MatchResult, codes, length, take};

use crate::host::WordsFault;
use std::alloc::Global;
use std::env::{Args, FillError};
use std::io;
use std::rt::Env;

/// The program's name.
const NAME: &[u8] = b"pp6600";

/// The environment of the program under its own name. The program does not look at the name by which it was called: it may be
/// no text, or missing.
#[derive(Drop)]
pub struct Named<R> {
    pub environment: R,
}

/// Copies the program's name to the start of the buffer, and returns its length.
///
/// # Errors
/// `TooLong` if the buffer is shorter.
fn fill_name(buffer: &mut [u8]) -> Result<usize, FillError>
    ensures name { MatchResult result (λ count. take count buffer.new ≡ codes "pp6600") (λ _. length buffer.old < 6) }
    ensures within { WritesAtMost result buffer.new }
{
    if buffer.len() < NAME.len() {
        return Err(FillError::TooLong);
    }
    buffer[..NAME.len()].copy_from_slice(NAME);
    Ok(NAME.len())
}

impl<R: Env> Env for Named<R> {
    fn arg(&self, i: usize, buf: &mut [u8]) -> Result<usize, FillError> {
        match i {
            0 => fill_name(buf),
            _ => self.environment.arg(i, buf),
        }
    }

    fn var(&self, name: &str, buf: &mut [u8]) -> Result<usize, FillError> {
        self.environment.var(name, buf)
    }

    fn var_at(&self, i: usize, buf: &mut [u8]) -> Result<usize, FillError> {
        self.environment.var_at(i, buf)
    }
}

/// Returns these words in a list.
fn collected(alloc: Global, words: Args) -> Result<Vec<String>, WordsFault>
    ensures { MatchResult result (λ kept. kept.items ≡ into_iter_items words) (λ fault. fault ≡ WordsFault.NoMemory) }
{
    let mut kept = Vec::new(alloc);
    for word in words {
        kept.push(word).or(Err(WordsFault::NoMemory))?;
    }
    Ok(kept)
}

/// Returns the words that a system hands to a program.
///
/// # Errors
/// `NoMemory` if memory runs out, and `NotText` if the system fails for any other cause.
pub fn words_of(alloc: Global, given: io::Result<Args>) -> Result<Vec<String>, WordsFault>
    ensures words { IfOk given (λ words. MatchResult result
        (λ kept. kept.items ≡ into_iter_items words)
        (λ fault. fault ≡ WordsFault.NoMemory)) }
    ensures no_memory { IfErr given (λ error. error_kind error ≡ OutOfMemory → result ≡ Err WordsFault.NoMemory) }
    ensures not_text { IfErr given (λ error. error_kind error ≢ OutOfMemory → result ≡ Err WordsFault.NotText) }
{
    match given {
        Ok(words) => collected(alloc, words),
        Err(error) if error.kind() == io::ErrorKind::OutOfMemory => Err(WordsFault::NoMemory),
        Err(_) => Err(WordsFault::NotText),
    }
}
