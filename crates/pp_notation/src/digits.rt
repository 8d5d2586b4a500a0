//! Octal and decimal digits.
ghost use Rattle.std.specs.Prelude.{◌≡◌, ◌≤◌, ◌++◌, OnOk, decimal};
ghost use Rattle.pp_notation.specs.Columns.{signed_octal};

use crate::columns::put_number;
use std::alloc::{AllocError, Global};

/// Writes an octal number, with zeros up to a width, 1 to 22.
pub fn put_octal(out: &mut Vec<u8>, number: i64, width: u8) -> Result<(), AllocError>
    requires some { 1 ≤ width }
    requires at_most { width ≤ 22 }
    ensures { OnOk result (out.new.items ≡ out.old.items ++ signed_octal number width) }
{
    if number < 0 {
        out.push(b'-')?;
    }
    put_number(out, number.unsigned_abs(), width)
}

/// Writes a decimal number.
pub fn put_decimal(alloc: Global, out: &mut Vec<u8>, number: u32) -> Result<(), AllocError>
    ensures { OnOk result (out.new.items ≡ out.old.items ++ decimal number) }
{
    let digits = format!(in alloc; "{number}")?;
    out.extend_from_slice(digits.as_bytes())
}

/// Writes the digits of a number after its sign, with zeros up to a width.
pub fn put_digits(
    out: &mut Vec<u8>,
    number: i64,
    digits: &[u8],
    width: usize,
) -> Result<(), AllocError> {
    let mut size = digits.len();
    if number < 0 {
        out.push(b'-')?;
        size = size.saturating_add(1);
    }
    for _ in size..width {
        out.push(b'0')?;
    }
    out.extend_from_slice(digits)
}
