//! Texts that calls write.
ghost use Rattle.pp_library.specs.Outcomes.{PutsText};

use crate::status::{DONE, ROOM};

/// Writes a text into a slice, if it has room for all of it, and the count of its bytes. Returns `DONE` or `ROOM`.
pub fn put_text(text: &[u8], into: &mut [u8], count: &mut usize) -> u32
    ensures { PutsText text.now into.old into.new count.new result }
{
    *count = text.len();
    if text.len() > into.len() {
        return ROOM;
    }
    into[..text.len()].copy_from_slice(text);
    DONE
}
