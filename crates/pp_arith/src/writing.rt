//! Writes octal numbers.
ghost use Rattle.std.specs.Prelude.{◌≡◌, ℕ, ◌+◌, ◌≤◌, ◌++◌, max, Ok};
ghost use Rattle.arrayvec.specs.ArrayVec.{array_vec_len};
ghost use Rattle.pp_arith.specs.Octal.{octal_digits, octal_length, octal_text};
ghost use Rattle.pp_arith.specs.OctalRead.{octal_read};

use arrayvec::ArrayVec;

/// Appends the last `digits` octal digits of the value to the line, most significant first: a number of
/// fixed width. `digits` is 0 to 22, and the line has room for them.
#[tactic(auto, using(crate::proofs::OctalDigits::digits_pushed), unfolding(crate::specs::Octal::octal_digits))]
pub fn push_octal<const N: usize>(line: &mut ArrayVec<u8, N>, value: u64, digits: u8)
    requires at_most { digits ≤ 22 }
    requires room { array_vec_len line.old + digits ≤ N }
    ensures items { line.new.items ≡ line.old.items ++ octal_digits digits value }
    ensures len { array_vec_len line.new ≡ array_vec_len line.old + digits }
{
    let mut left = digits;
    while left > 0 {
        left -= 1;
        line.push(b'0' + (value >> (3 * left) & 7) as u8);
    }
}

/// Returns the smallest width, in octal digits, that is at least `digits` and holds the value.
#[tactic(auto, using(crate::proofs::OctalDigits::widths))]
fn width(value: u64, digits: u8) -> u8
    requires { digits ≤ 22 }
    ensures value { result ≡ max digits (octal_length 22 value) }
    ensures within { result ≤ 22 }
{
    let mut width = digits;
    while width < 22 && value >> (3 * width) != 0 {
        width += 1;
    }
    width
}

#[tactic(auto, using(crate::proofs::OctalTexts::text_read), unfolding(crate::specs::Octal::octal_text))]
/// Returns the octal digits of the value as ASCII `0` to `7`, most significant first. There are at least
/// `digits` (1 to 22), with leading zeros, and more if the value needs more.
pub fn octal(value: u64, digits: u8) -> ArrayVec<u8, 22>
    requires some { 1 ≤ digits }
    requires at_most { digits ≤ 22 }
    ensures value { result.items ≡ octal_text value digits }
    ensures reads_back { (most : ℕ) → value ≤ most → octal_read result.items most ≡ Ok value }
{
    let mut line = ArrayVec::new();
    push_octal(&mut line, value, width(value, digits));
    line
}
