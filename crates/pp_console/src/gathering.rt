//! Gathers an answer in pieces, so that a long one takes few calls of the sink.
ghost use Rattle.std.specs.Prelude.{◌≤◌, length};
ghost use Rattle.pp_console.specs.Inner.Gathering.{Gathers};

use arrayvec::ArrayVec;
use pp_lines::{Failed, Sink, push_text, put_all};

/// The largest number of bytes that are written at once.
pub const PIECE: usize = 4096;

/// Appends a text to the piece. If the piece has no room for it, the piece is written first. The caller writes the last piece.
///
/// # Errors
/// `Failed` if a call of the sink fails.
pub fn gather<W: Sink>(
    piece: &mut ArrayVec<u8, PIECE>,
    text: &[u8],
    out: &mut W,
) -> Result<(), Failed>
    requires { length text.now ≤ PIECE }
    ensures { Gathers ⟦<W as Sink>⟧ out.old out.new piece.old.items piece.new.items result text.now }
{
    if text.len() > piece.remaining_capacity() {
        put_all(out, piece.as_slice())?;
        piece.clear();
    }
    push_text(piece, text);
    Ok(())
}
