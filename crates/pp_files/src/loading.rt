//! Reads a file into a sheet.
ghost use Rattle.std.specs.Io.KnownBytes.{Consumes, IsAtEnd};
ghost use Rattle.std.specs.Prelude.{◌≡◌, ◌+◌, ◌∷◌, ◌++◌, [], ℕ, List, IfErr, OnOk, MatchResult, length, true};
ghost use Rattle.pp_lines.specs.Device.{all_bytes};
ghost use Rattle.pp_files.specs.Rows.{Row};
ghost use Rattle.pp_files.specs.Files.{file_limit, rows_of_file};
ghost use Rattle.pp_files.specs.Fault.{CountsLoadReads, IsLoadCause};
ghost use Rattle.pp_files.specs.Inner.Loading.{with_line, HasReadFile, Reads, FailsAfter};
ghost use Rattle.pp_files.specs.Inner.Loading.{FailsAt, FailsIn, IsLineFault, IsSheetFault};

use crate::fault::LoadFault;
use crate::progress::{FILE_LIMIT, LONGEST, Progress};
use crate::rows::are_numbers;
use crate::sheet::Sheet;
use pp_lines::{Failed, LINE_FEED, LineCutter, Source, are_octal, is_ignored, without_return};

/// The largest number of bytes read at once.
const PIECE: usize = 4096;

/// Reads the line with this number into the sheet.
#[tactic(auto, unfolding(crate::specs::Rows::row_of_line))]
fn read_line<S: Sheet>(sheet: &mut S, number: u32, line: &[u8]) -> Result<(), LoadFault>
    ensures row { (rows : List Row) → S.holds sheet.old rows →
        MatchResult result (λ _. Reads (S.holds sheet.new) (with_line S.rule number rows line.now))
        (λ fault. FailsAt S.rule number rows line.now fault) }
    ensures faults { IfErr result (IsLineFault S.needs_memory) }
{
    let text = without_return(line);
    if text.len() > LONGEST {
        return Err(LoadFault::LineTooLong(number));
    }
    if is_ignored(text) {
        return Ok(());
    }
    if !are_octal(text) {
        return Err(LoadFault::NotOctal(number));
    }
    if !are_numbers(text) {
        return Err(LoadFault::TooLarge(number));
    }
    sheet.add(number, text)
}

/// Processes one more byte of the file.
#[tactic(auto, using(crate::proofs::Loads::bytes_read))]
fn feed_byte<S: Sheet>(progress: &mut Progress, sheet: &mut S, byte: u8) -> Result<(), LoadFault>
    ensures has_read { (bytes : List ℕ) → HasReadFile progress.old S.rule (S.holds sheet.old) bytes →
        MatchResult result
        (λ _. HasReadFile progress.new S.rule (S.holds sheet.new) (bytes ++ byte ∷ []))
        (λ fault. FailsAfter S.rule (bytes ++ byte ∷ []) fault) }
    ensures bytes { OnOk result (progress.new.bytes ≡ progress.old.bytes + 1) }
    ensures faults { IfErr result (IsLineFault S.needs_memory) }
{
    if progress.bytes == FILE_LIMIT {
        return Err(LoadFault::FileTooLong);
    }
    progress.bytes += 1;
    if byte != LINE_FEED {
        progress.cutter.take_byte(byte);
        return Ok(());
    }
    read_line(sheet, progress.lines + 1, progress.cutter.line())?;
    progress.cutter.end_line();
    progress.lines += 1;
    Ok(())
}

/// Processes one more piece of the file.
fn feed<S: Sheet>(progress: &mut Progress, sheet: &mut S, piece: &[u8]) -> Result<(), LoadFault>
    ensures has_read { (bytes : List ℕ) → HasReadFile progress.old S.rule (S.holds sheet.old) bytes →
        MatchResult result
        (λ _. HasReadFile progress.new S.rule (S.holds sheet.new) (bytes ++ piece.now))
        (λ fault. FailsAfter S.rule (bytes ++ piece.now) fault) }
    ensures bytes { OnOk result (progress.new.bytes ≡ progress.old.bytes + length piece.now) }
    ensures faults { IfErr result (IsLineFault S.needs_memory) }
{
    for byte in piece {
        feed_byte(progress, sheet, *byte)?;
    }
    Ok(())
}

/// Reads the last line, if no line feed ended it.
#[tactic(auto, using(crate::proofs::Loads::bytes_read))]
fn finish<S: Sheet>(progress: &Progress, sheet: &mut S) -> Result<(), LoadFault>
    ensures read { (bytes : List ℕ) → HasReadFile progress.now S.rule (S.holds sheet.old) bytes →
        MatchResult result
        (λ _. Reads (S.holds sheet.new) (rows_of_file S.rule file_limit bytes))
        (λ fault. FailsIn S.rule bytes fault) }
    ensures faults { IfErr result (IsLineFault S.needs_memory) }
{
    let line = progress.cutter.line();
    if line.is_empty() {
        return Ok(());
    }
    read_line(sheet, progress.lines + 1, line)
}

/// Reads all of the source into an empty sheet.
///
/// # Errors
/// The file's first fault, in the order of `LoadFault`.
pub fn read_sheet<R: Source, S: Sheet>(source: &mut R, sheet: &mut S) -> Result<(), LoadFault>
    requires { S.holds sheet.old [] }
    ensures file { (taken : List ℕ) × Consumes (R.rest source.old) (R.rest source.new) taken
        × (R.given source.new ≡ R.given source.old ++ taken)
        × MatchResult result
        (λ _. Reads (S.holds sheet.new) (rows_of_file S.rule file_limit taken))
        (λ fault. IsLoadCause S.rule (rows_of_file S.rule file_limit) (R.ended source.new)
        taken (all_bytes (R.rest source.old) taken) fault) }
    ensures all { OnOk result (IsAtEnd (R.rest source.new)) }
    ensures ended { OnOk result (R.ended source.new ≡ true) }
    ensures reads { CountsLoadReads (R.failure_count source.old) (R.failure_count source.new) result }
    ensures faults { IfErr result (IsSheetFault S.needs_memory) }
{
    let mut progress = Progress {
        cutter: LineCutter::new(),
        bytes: 0,
        lines: 0,
    };
    let mut piece = [0; PIECE];
    'pieces: loop {
        match source.take(&mut piece) {
            Err(Failed) => return Err(LoadFault::ReadFailed),
            Ok(0) => return finish(&progress, sheet),
            Ok(count) => feed(&mut progress, sheet, &piece[..count])?,
        }
    }
}
