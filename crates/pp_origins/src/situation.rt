//! What a row of the table of origins sees of a machine.

/// A processor and what decides in its step. What does not decide is 0.
#[derive(Clone, Copy)]
pub struct Situation {
    /// The processor, 0 to 9 (decimal).
    pub pp: u8,
    /// Its P, 0 to 7777.
    pub p: u16,
    /// d of its instruction, 0 to 77.
    pub d: u8,
    /// The address of the operand, 0 to 7777.
    pub address: u16,
    /// Its A, of 18 (decimal) bits.
    pub a: u32,
    /// Its Q, of 12 (decimal) bits.
    pub q: u16,
    /// The state of channel d, by its number.
    pub state: u8,
    /// The size of central memory in words.
    pub size: u32,
}
