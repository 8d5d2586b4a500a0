//! Operations, fields and links.
ghost use Rattle.pp_origins.specs.Origin as spec;
ghost use Rattle.std.specs.Prelude.{◌≡◌};

use pp_machine::Place;

/// What is read of the number at a place.
#[derive(Clone, Copy, PartialEq, Eq, Default, Drop)]
pub enum Field {
    /// All of it.
    #[default]
    Whole,
    /// The lower twelve bits.
    Low,
    /// One of the five parts of a word of sixty bits, of twelve bits each; `First` is the leftmost.
    First,
    Second,
    Third,
    Fourth,
    Fifth,
    /// A word of sixty bits with its lower 18 bits as 0.
    WithoutB0,
    /// The central processor's P, bits 53 to 36 (decimal) of a word.
    ProgramAddress,
    /// The upper and the lower six bits of twelve.
    UpperSix,
    LowerSix,
    /// An instruction's first word, d in that word, and m, its second word.
    Word,
    D,
    M,
}

/// How a new number is made from the numbers that are read. d and m together are one number of 18 bits.
#[derive(Clone, Copy, PartialEq, Eq, Default, Drop)]
pub enum Operation {
    /// The number that is read.
    #[default]
    Moved,
    /// A word of sixty bits, of five numbers of twelve.
    Joined,
    /// The first number plus the other, in one's complement, and minus the other.
    Sum,
    Difference,
    /// The bits in which the numbers differ, and those that both have.
    LogicalDifference,
    LogicalProduct,
    /// The first number without the bits of the other.
    Cleared,
    /// The first number shifted by the other.
    Shifted,
    /// 777777 less the number.
    Complement,
    /// The number plus 1 and minus 1, in one's complement.
    OneMore,
    OneLess,
    /// The lower twelve bits of the sum, of the number plus 1 and of the number minus 1.
    LowSum,
    LowOneMore,
    LowOneLess,
    /// The number 1, 2 and 5 further, in twelve bits: 7777 is followed by 0000.
    After1,
    After2,
    After5,
    /// The target of a relative jump from the first number, by the second.
    Relative,
    /// The first number indexed by the second, and the address after that.
    Indexed,
    AfterIndexed,
    /// The next central address: 777777 is followed by 000000.
    CentralAfter,
    /// A count less 1, and more by 1 and by 2.
    CountDown,
    CountUp,
    CountUp2,
    /// The next processor: 11 is followed by 00.
    NextSlot,
    /// What is punched in the deck, by card and column.
    Punched,
    /// 0, for a central word that is not there.
    NoWord,
    /// The constants 0, 1, 2, 3 and 100.
    Zero,
    One,
    Two,
    Three,
    LineEnd,
}

/// Returns the operation that sets a constant: 0 to 3, or 0o100.
pub fn constant(number: u64) -> Operation
    ensures { result ≡ spec.constant number }
{
    match number {
        0 => Operation::Zero,
        1 => Operation::One,
        2 => Operation::Two,
        3 => Operation::Three,
        0o100 => Operation::LineEnd,
        _ => Operation::Moved,
    }
}

/// A place that is read, and what is read there.
#[derive(Clone, Copy)]
pub struct Read {
    pub place: Place,
    pub field: Field,
}

/// One number that is read for a place that is written. If several are read for one place, their links follow one another.
#[repr(C)]
#[derive(Clone, Copy, Default, Drop)]
pub struct Link {
    /// The place that is written, by its number.
    pub place: u64,
    /// The place that is read, by its number, or `NOTHING` if the new number is read nowhere.
    pub source: u64,
    /// The number of the operation: its position in `Operation`, from 0.
    pub operation: u8,
    /// The number of the field that is read: its position in `Field`, from 0.
    pub field: u8,
    /// How many links of the same place follow.
    pub further: u16,
}

/// No place.
pub const NOTHING: u64 = 0xFFFF_FFFF_FFFF_FFFF;
