//! Texts in columns: fields with blanks after them, and the lines that they make.
ghost use Rattle.std.specs.Prelude.{◌≡◌, ◌≤◌, ◌++◌, OnOk};
ghost use Rattle.pp_arith.specs.Octal.{octal_text};
ghost use Rattle.pp_notation.specs.Columns.{ended, in_columns};

use pp_arith::octal;
use std::alloc::AllocError;

/// Writes a number in octal, with zeros up to a width, 1 to 22.
pub fn put_number(out: &mut Vec<u8>, number: u64, width: u8) -> Result<(), AllocError>
    requires some { 1 ≤ width }
    requires at_most { width ≤ 22 }
    ensures { OnOk result (out.new.items ≡ out.old.items ++ octal_text number width) }
{
    out.extend_from_slice(octal(number, width).as_slice())
}

/// Writes a text and blanks up to a width in bytes.
pub fn put_field(out: &mut Vec<u8>, text: &[u8], width: usize) -> Result<(), AllocError>
    ensures { OnOk result (out.new.items ≡ out.old.items ++ in_columns width text.now) }
{
    out.extend_from_slice(text)?;
    'blanks: for _ in 0..width.saturating_sub(text.len()) {
        out.push(b' ')?;
    }
    Ok(())
}

/// Writes a line without the blanks at its end.
pub fn put_line(out: &mut Vec<u8>, line: &[u8]) -> Result<(), AllocError>
    ensures { OnOk result (out.new.items ≡ out.old.items ++ ended line.now) }
{
    out.extend_from_slice(line.trim_ascii_end())?;
    out.push(b'\n')?;
    Ok(())
}
