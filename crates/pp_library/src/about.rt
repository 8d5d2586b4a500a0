//! What the library says of itself, and of an instruction.
ghost use Rattle.pp_library.specs.About.{WritesInstruction, WritesStatus, status_text};
ghost use Rattle.std.specs.Prelude.{◌≡◌};

use crate::status::{CLOSED, DONE, LIMIT, NO_MEMORY, NOT_FOUND, OPEN, REFUSED, ROOM, WATCHED};
use crate::texts::put_text;
use pp_notation::{INSTRUCTIONS, form_of, name_of, size_of};

/// The version of the library: 1,000,000 times its major number, 1,000 times its minor number, and its patch number (decimal).
pub const VERSION: u32 = 6_000_000;

/// Returns the version of the library.
#[unsafe(no_mangle)]
pub extern "C" fn pp6600_version() -> u32
    ensures { result ≡ VERSION }
{
    VERSION
}

/// Returns the text of a status, 0 to 8.
fn text_of(status: u32) -> &'static [u8]
    ensures { result.now ≡ status_text status }
{
    match status {
        DONE => b"done".as_slice(),
        ROOM => b"no room".as_slice(),
        WATCHED => b"a watched number changed".as_slice(),
        CLOSED => b"the session is closed".as_slice(),
        OPEN => b"the session is open".as_slice(),
        NO_MEMORY => b"no memory".as_slice(),
        REFUSED => b"refused".as_slice(),
        LIMIT => b"a line is past a limit".as_slice(),
        _ => b"not found".as_slice(),
    }
}

/// Writes the text of a status into a slice. `count` is how many bytes that are. Returns `DONE`; `ROOM` if the slice has room for
/// fewer bytes, and then it is as it was; or `REFUSED` if there is no such status.
#[unsafe(no_mangle)]
pub extern "C" fn pp6600_text_of_status(status: u32, into: &mut [u8], count: &mut usize) -> u32
    ensures { WritesStatus status
        (record { into = into.old; count = count.old })
        (record { into = into.new; count = count.new }) result }
{
    if status > NOT_FOUND {
        return REFUSED;
    }
    put_text(text_of(status), into, count)
}

/// Writes the name of the instruction with a code, 0 to 77 (octal), into a slice. `count` is its three bytes, `words` how
/// many words it has, and `form` what it has as operand, by its position in `Form`, from 0. Returns `DONE`; `ROOM` if the
/// slice has room for fewer bytes, and then it is as it was; or `REFUSED` if there is no such code.
#[unsafe(no_mangle)]
pub extern "C" fn pp6600_instruction(
    code: u32,
    into: &mut [u8],
    count: &mut usize,
    words: &mut u32,
    form: &mut u32,
) -> u32
    ensures { WritesInstruction code
        (record { into = into.old; count = count.old; words = words.old; form = form.old })
        (record { into = into.new; count = count.new; words = words.new; form = form.new }) result }
{
    if code as usize >= INSTRUCTIONS {
        return REFUSED;
    }
    *words = size_of(code as u8) as u32;
    *form = form_of(code as u8) as u32;
    put_text(name_of(code as u8), into, count)
}
