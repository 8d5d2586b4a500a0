//! The line of a trouble, as bytes. What `thiserror` derives has no contract, so the texts of `#[error(..)]` are here again.
ghost use Rattle.arrayvec.specs.ArrayVec.{array_vec_len};
ghost use Rattle.pp_lines.specs.Device.{Counts};
ghost use Rattle.pp_lines.specs.Output.{Writes};
ghost use Rattle.pp_trouble.specs.Message.{file_name, line_fault, line_of, load_text, text_of};
ghost use Rattle.std.specs.Prelude.{◌≡◌, ◌+◌, ◌≤◌, ◌++◌, length};

use crate::trouble::{FileKind, Trouble};
use arrayvec::ArrayVec;
use itoa::Buffer;
use pp_files::LoadFault;
use pp_lines::{Failed, Sink, push_text, put_all};

/// The largest number of bytes in a line.
const ROOM: usize = 128;

fn file_name(file: FileKind) -> &'static [u8]
    ensures name { result.now ≡ file_name file }
    ensures short { length result.now ≤ 6 }
{
    match file {
        FileKind::Deck => b"DECK",
        FileKind::Panel => b"PANEL",
        FileKind::Script => b"SCRIPT",
    }
}

/// Appends the fault of line k of a file.
fn push_line_fault(row: &mut ArrayVec<u8, ROOM>, k: u32, what: &[u8])
    requires { array_vec_len row.old + (45 + length what.now) ≤ ROOM }
    ensures items { row.new.items ≡ row.old.items ++ line_fault k what.now }
    ensures at_most { array_vec_len row.new ≤ array_vec_len row.old + (45 + length what.now) }
{
    push_text(row, b"LINE ");
    push_text(row, Buffer::new().format(k).as_bytes());
    push_text(row, what);
}

/// Appends the text of a fault.
fn push_fault(row: &mut ArrayVec<u8, ROOM>, fault: LoadFault)
    requires { array_vec_len row.old + 60 ≤ ROOM }
    ensures items { row.new.items ≡ row.old.items ++ load_text fault }
    ensures at_most { array_vec_len row.new ≤ array_vec_len row.old + 60 }
{
    match fault {
        LoadFault::NoMemory => push_text(row, b"NO MEMORY"),
        LoadFault::ReadFailed => push_text(row, b"READ FAILED"),
        LoadFault::FileTooLong => push_text(row, b"FILE TOO LONG"),
        LoadFault::LineTooLong(k) => push_line_fault(row, k, b" TOO LONG"),
        LoadFault::NotOctal(k) => push_line_fault(row, k, b" NOT OCTAL"),
        LoadFault::TooLarge(k) => push_line_fault(row, k, b" TOO LARGE"),
        LoadFault::TooManyWords(k) => push_line_fault(row, k, b" TOO MANY WORDS"),
        LoadFault::PanelCount => push_text(row, b"PANEL COUNT"),
    }
}

/// Appends the text of a trouble.
fn push_trouble(row: &mut ArrayVec<u8, ROOM>, trouble: &Trouble)
    requires { array_vec_len row.old ≡ 0 }
    ensures items { row.new.items ≡ row.old.items ++ text_of trouble.now }
    ensures at_most { array_vec_len row.new ≤ 110 }
{
    match trouble {
        Trouble::Help => push_text(
            row,
            b"usage: pp6600 [--history N] [--central K] [--deck F] [--reader C] [--printer C] [--panel F] [SCRIPT]",
        ),
        Trouble::BadArguments => push_text(row, b"pp6600: BAD ARGUMENTS"),
        Trouble::BadChannel => push_text(row, b"pp6600: BAD CHANNEL"),
        Trouble::SameChannel => push_text(row, b"pp6600: SAME CHANNEL"),
        Trouble::DeckTooLong => push_text(row, b"pp6600: DECK TOO LONG"),
        Trouble::NoMemory => push_text(row, b"pp6600: NO MEMORY"),
        Trouble::CannotOpen(file) => {
            push_text(row, b"pp6600: CANNOT OPEN ");
            push_text(row, file_name(*file));
        }
        Trouble::Load(file, fault) => {
            push_text(row, b"pp6600: ");
            push_text(row, file_name(*file));
            push_text(row, b" ");
            push_fault(row, *fault);
        }
        Trouble::ReadFailed => push_text(row, b"pp6600: READ FAILED"),
        Trouble::WriteFailed => push_text(row, b"pp6600: WRITE FAILED"),
        Trouble::LineLimit => push_text(row, b"pp6600: LINE LIMIT"),
    }
}

impl Trouble {
    /// Returns the text of the trouble, without a line feed: at most 110 (decimal) bytes.
    pub fn text(&self) -> ArrayVec<u8, ROOM>
        ensures items { result.items ≡ text_of self.now }
        ensures at_most { array_vec_len result ≤ 110 }
    {
        let mut row = ArrayVec::new();
        push_trouble(&mut row, self);
        row
    }

    /// Writes the line of the trouble.
    ///
    /// # Errors
    /// `Failed` if a call of the sink fails. A proper prefix of the line was then written.
    pub fn put<W: Sink>(&self, out: &mut W) -> Result<(), Failed>
        ensures text { Writes (W.text out.old) (W.text out.new) result (line_of self.now) }
        ensures counts { Counts (W.failure_count out.old) (W.failure_count out.new) result }
    {
        let mut row = self.text();
        push_text(&mut row, b"\n");
        put_all(out, row.as_slice())
    }
}
