//! The names of the 64 (decimal) instructions, and what each has as operand.
ghost use Rattle.std.specs.Prelude.{◌≡◌, ◌<◌, IfNone, IfSome};
ghost use Rattle.pp_notation.specs.Mnemonics.{mnemonic};
ghost use Rattle.pp_notation.specs.Instructions.{IsNoneBelow, form, size};

/// What an instruction has as operand.
#[derive(Clone, Copy, Debug, PartialEq, Eq)]
pub enum Form {
    /// One operand at most, which is d and means nothing.
    Alone,
    /// One operand, which is d.
    D,
    /// The address to which it jumps; d is the distance.
    Target,
    /// One operand of 18 (decimal) bits, which is dm.
    Constant,
    /// An address m and, if it is indexed, a cell d.
    Indexed,
    /// An address m, and a channel or a cell d.
    Both,
}

/// The number of instructions.
pub const INSTRUCTIONS: usize = 64;

/// The names in the order of their codes. Codes 24 and 25 pass, as 00 does, and are named like it.
static NAMES: [[u8; 3]; INSTRUCTIONS] = [
    *b"PSN", *b"LJM", *b"RJM", *b"UJN", *b"ZJN", *b"NJN", *b"PJN", *b"MJN", *b"SHN", *b"LMN",
    *b"LPN", *b"SCN", *b"LDN", *b"LCN", *b"ADN", *b"SBN", *b"LDC", *b"ADC", *b"LPC", *b"LMC",
    *b"PSN", *b"PSN", *b"EXN", *b"RPN", *b"LDD", *b"ADD", *b"SBD", *b"LMD", *b"STD", *b"RAD",
    *b"AOD", *b"SOD", *b"LDI", *b"ADI", *b"SBI", *b"LMI", *b"STI", *b"RAI", *b"AOI", *b"SOI",
    *b"LDM", *b"ADM", *b"SBM", *b"LMM", *b"STM", *b"RAM", *b"AOM", *b"SOM", *b"CRD", *b"CRM",
    *b"CWD", *b"CWM", *b"AJM", *b"IJM", *b"FJM", *b"EJM", *b"IAN", *b"IAM", *b"OAN", *b"OAM",
    *b"ACN", *b"DCN", *b"FAN", *b"FNC",
];

/// Returns the name of the instruction with a code, up to octal 77.
pub fn name_of(code: u8) -> &'static [u8]
    requires { code < 0o100 }
    ensures { result.now ≡ mnemonic code }
{
    NAMES[code as usize].as_slice()
}

/// Returns the code of the instruction with a name, in capitals; of PSN, which is three, the first.
pub fn code_of(name: &[u8]) -> Option<u8>
    ensures at_most { IfSome result (λ code. code < 0o100) }
    ensures named { IfSome result (λ code. mnemonic code ≡ name.now) }
    ensures first { IfSome result (IsNoneBelow name.now) }
    ensures none { IfNone result (IsNoneBelow name.now 0o100) }
{
    for code in 0..INSTRUCTIONS {
        if name_of(code as u8) == name {
            return Some(code as u8);
        }
    }
    None
}

/// Returns what the instruction with a code, up to octal 77, has as operand.
pub fn form_of(code: u8) -> Form
    ensures { result ≡ form code }
{
    match code {
        0o00 | 0o24..=0o27 => Form::Alone,
        0o03..=0o07 => Form::Target,
        0o20..=0o23 => Form::Constant,
        0o01 | 0o02 | 0o50..=0o57 => Form::Indexed,
        0o61 | 0o63..=0o67 | 0o71 | 0o73 | 0o77 => Form::Both,
        _ => Form::D,
    }
}

/// Returns how many words the instruction with a code has.
pub fn size_of(code: u8) -> usize
    ensures { result ≡ size (form code) }
{
    match form_of(code) {
        Form::Constant | Form::Indexed | Form::Both => 2,
        Form::Alone | Form::D | Form::Target => 1,
    }
}
