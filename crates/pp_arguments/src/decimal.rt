//! Reads decimal numbers.
ghost use Rattle.pp_arguments.specs.Decimal.{decimal_read};
ghost use Rattle.std.specs.Char.{is_ascii_digit};
ghost use Rattle.std.specs.List.{list_all};
ghost use Rattle.std.specs.Prelude.{◌≡◌};

fn are_digits(word: &str) -> bool
    ensures { result ≡ list_all is_ascii_digit word.now }
{
    word.as_bytes().iter().all(|byte| byte.is_ascii_digit())
}

/// Returns the value of a decimal word, 0 to `most`, or `None` for any other word. Any number of leading
/// zeros is allowed, and no sign.
pub fn read_decimal(word: &str, most: u32) -> Option<u32>
    ensures { result ≡ decimal_read word.now most }
{
    if !are_digits(word) {
        return None;
    }
    let Ok(number) = word.parse::<u32>() else {
        return None;
    };
    if number <= most { Some(number) } else { None }
}
