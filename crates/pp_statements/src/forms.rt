//! The words of instructions, of operands that are numbers.
ghost use Rattle.std.specs.Prelude.{◌≡◌, ◌<◌, IfSome, Some};
ghost use Rattle.pp_meaning.specs.Expressions.{address_around};
ghost use Rattle.pp_statements.specs.Forms.{cell_at, d_of, field_of_bits, jump, short_word, then_d, two_words};

/// How many bits a field has at most.
const MOST_BITS: u32 = 60;

/// How many cells a relative jump reaches, either way.
const NEAR: u16 = 0o37;

/// Returns a number as one of so many bits: minus is the ones complement, and minus zero is all ones.
pub fn field_of(number: i64, bits: u32, is_ones: bool) -> Option<u64>
    ensures { result ≡ field_of_bits bits is_ones number }
{
    if bits > MOST_BITS {
        return None;
    }
    let most = (1u64 << bits) - 1;
    let size = number.unsigned_abs();
    if size > most {
        return None;
    }
    Some(if number < 0 || is_ones {
        most - size
    } else {
        size
    })
}

/// Returns an address, around 0000 and 7777.
fn address_of(number: i64) -> Option<u16>
    ensures at_most { IfSome result (λ address. address < 0o10000) }
    ensures found { result ≡ address_around (Some number) }
{
    if number < -0o7777 || number > 0o17777 {
        return None;
    }
    let size = (number.unsigned_abs() % 0o10000) as u16;
    Some(if number < 0 { 0o10000 - size } else { size })
}

/// Returns the cell of a counter.
fn cell_of(counter: i64) -> u16
    ensures at_most { result < 0o10000 }
    ensures found { result ≡ cell_at counter }
{
    let size = counter.unsigned_abs();
    if counter < 0 {
        0o7777 - ((size - 1) % 0o10000) as u16
    } else {
        (size % 0o10000) as u16
    }
}

/// How many cells a target is away, on and back. Cell 0000 follows 7777.
#[derive(Clone, Copy)]
pub struct Way {
    pub on: u16,
    pub back: u16,
}

impl Way {
    /// Returns the way from a counter to a number, if that is an address.
    pub fn new(counter: i64, number: i64) -> Option<Self>
        ensures { then_d result ≡ jump counter number }
    {
        let here = cell_of(counter);
        match address_of(number) {
            Some(target) => Some(Way {
                on: (target + 0o10000 - here) % 0o10000,
                back: (here + 0o10000 - target) % 0o10000,
            }),
            None => None,
        }
    }

    /// Returns d of the relative jump that goes so far.
    pub fn d(self) -> Option<u16>
        ensures { result ≡ d_of self }
    {
        if self.on <= NEAR {
            Some(self.on)
        } else if self.back <= NEAR {
            Some(0o77 - self.back)
        } else {
            None
        }
    }
}

/// Returns the word of LDK or ADK, if its number is small. One code is for numbers without minus, and one for minus, also minus zero.
pub fn short_word(number: i64, is_ones: bool, small: u8, minus: u8) -> Option<u16>
    ensures { result ≡ short_word small minus is_ones number }
{
    let size = number.unsigned_abs();
    if size > 0o77 {
        return None;
    }
    let is_minus = number < 0 || is_ones && size == 0;
    let code = if is_minus { minus } else { small };
    Some(code as u16 * 0o100 + size as u16)
}

/// Returns the two words of a code, d and m.
pub fn two_words(code: u8, d: u64, m: u64) -> [u16; 2]
    ensures { result ≡ two_words code d m }
{
    [
        code as u16 * 0o100 + (d % 0o100) as u16,
        (m % 0o10000) as u16,
    ]
}
