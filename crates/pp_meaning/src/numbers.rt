//! Numbers: digits, sums and products.
ghost use Rattle.std.specs.Prelude.{◌≡◌, ◌^◌, IfSome, Some};
ghost use Rattle.pp_meaning.specs.Expressions.{difference, plus, shifted, times};
ghost use Rattle.pp_meaning.specs.Numbers.{are_digits, decimal_number, each_digit, number_value};
ghost use Rattle.pp_meaning.specs.Numbers.{octal_number, plain_number, small, value_from};

use crate::expressions::{Base, Radix, Sign};

/// Returns the number that digits write.
fn digits_value(digits: &[u8], radix: u64) -> Option<u64>
    ensures { IfSome result (λ value. value ≡ value_from radix 0 digits.now) }
{
    let mut value: u64 = 0;
    for digit in digits {
        let more = u64::from(digit.checked_sub(b'0')?);
        value = value.checked_mul(radix)?.checked_add(more)?;
    }
    Some(value)
}

/// Returns whether none is above the last digit of a radix.
fn has_digits_alone(digits: &[u8], last: u8) -> bool
    ensures { result ≡ each_digit last digits.now }
{
    digits.iter().all(|digit| b'0' <= *digit && *digit <= last)
}

/// Returns whether there are digits, none of which is above the last one.
fn all_digits(digits: &[u8], last: u8) -> bool
    ensures { result ≡ are_digits last digits.now }
{
    match digits {
        [] => false,
        [_, ..] => has_digits_alone(digits, last),
    }
}

fn octal_value(digits: &[u8]) -> Option<i64>
    ensures { IfSome result (λ value. octal_number digits.now ≡ Some value) }
{
    if !all_digits(digits, b'7') {
        return None;
    }
    i64::try_from(digits_value(digits, 8)?).ok()
}

pub fn decimal_value(digits: &[u8]) -> Option<i64>
    ensures { IfSome result (λ value. decimal_number digits.now ≡ Some value) }
{
    if !all_digits(digits, b'9') {
        return None;
    }
    i64::try_from(digits_value(digits, 10)?).ok()
}

/// Returns a number up to 7.
fn small_value(digits: &[u8]) -> Option<i64>
    ensures { IfSome result (λ value. small (decimal_number digits.now) ≡ Some value) }
{
    let value = decimal_value(digits)?;
    if value < 0 || value > 7 {
        return None;
    }
    Some(value)
}

/// Returns the number that digits without a letter write.
fn plain_value(digits: &[u8], base: Option<Base>) -> Option<i64>
    ensures { IfSome result (λ value. plain_number base digits.now ≡ Some value) }
{
    match base {
        Some(Base::Octal | Base::Mixed) => octal_value(digits),
        Some(Base::Decimal) => decimal_value(digits),
        None => small_value(digits),
    }
}

/// Returns the number that digits and a letter write.
pub fn value_of(digits: &[u8], radix: Radix, base: Option<Base>) -> Option<i64>
    ensures { IfSome result (λ value. number_value base digits.now radix ≡ Some value) }
{
    match radix {
        Radix::B | Radix::O => octal_value(digits),
        Radix::D => decimal_value(digits),
        Radix::Plain => plain_value(digits, base),
    }
}

/// Returns the bits in which two numbers differ, in ones complement.
fn difference_of(a: i64, b: i64) -> Option<i64>
    ensures { IfSome result (λ value. difference a b ≡ value) }
{
    let bits = i64::try_from(a.unsigned_abs() ^ b.unsigned_abs()).ok()?;
    if (a < 0) == (b < 0) {
        Some(bits)
    } else {
        0i64.checked_sub(bits)
    }
}

/// Returns a sum or a difference.
pub fn sum_of(a: i64, b: i64, sign: Sign) -> Option<i64>
    ensures { IfSome result (λ value. plus sign (Some a) (Some b) ≡ Some value) }
{
    match sign {
        Sign::Plus => a.checked_add(b),
        Sign::Minus => a.checked_sub(b),
        Sign::Differ => difference_of(a, b),
    }
}

/// Returns two to a power.
pub fn power_of_two(bits: u32) -> Option<u64>
    ensures { IfSome result (λ power. power ≡ 2 ^ bits) }
{
    let mut power: u64 = 1;
    for _bit in 0..bits {
        power = power.checked_mul(2)?;
    }
    Some(power)
}

/// Returns a number shifted to the left by as many bits as digits say.
pub fn shifted_by(number: i64, digits: &[u8]) -> Option<i64>
    ensures { IfSome result (λ value. shifted (Some number) (decimal_number digits.now) ≡ Some value) }
{
    let bits = decimal_value(digits)?;
    let power = power_of_two(u32::try_from(bits).ok()?)?;
    number.checked_mul(i64::try_from(power).ok()?)
}

/// Returns a product or a quotient.
pub fn product_of(a: i64, b: i64, is_quotient: bool) -> Option<i64>
    ensures { IfSome result (λ value. times is_quotient (Some a) (Some b) ≡ Some value) }
{
    if !is_quotient {
        return a.checked_mul(b);
    }
    if b == 0 { Some(0) } else { a.checked_div(b) }
}
