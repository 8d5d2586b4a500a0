//! Writes text to a sink.
ghost use Rattle.pp_lines.specs.Puts.{Puts};

use crate::device::{Failed, Sink};

/// Writes all of the text to the sink, in as many pieces as the sink takes.
///
/// # Errors
/// `Failed` if a call of the sink fails. A proper prefix of the text was then written.
pub fn put_all<W: Sink>(out: &mut W, text: &[u8]) -> Result<(), Failed>
    ensures { Puts ⟦<W as Sink>⟧ out.old out.new result text.now }
{
    let mut written = 0;
    while written < text.len() {
        written += out.put(&text[written..])?;
    }
    Ok(())
}
