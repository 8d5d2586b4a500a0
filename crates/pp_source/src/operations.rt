//! The operations that are no instructions.
use crate::openings::Opening;
use crate::orders::Order;
use crate::scan::has_word;
use crate::wordings::Wording;
use Operation::{
    Base, Bits, Block, Data, Deck, End, Equate, Error, Expressions, Greatest, Ignored, Inside,
    Least, Lines, Literals, Location, Origin, Position, Qualifier, Refused, Set, Shortest, Space,
    SystemText, TextCode, Use, Zeros,
};
use pp_notation::code_of;

/// What a name in the operation field is.
#[derive(Clone, Copy)]
pub enum Operation {
    /// No operation.
    None,
    /// The instruction with this code.
    Instruction(u8),
    /// LDK or ADK: one of the instructions with these codes, for a small number, for a small one that is minus, and for others.
    Shortest(u8, u8, u8),
    Expressions,
    Data,
    Bits,
    /// POS.
    Position,
    Text,
    Zeros,
    Space,
    Origin,
    Location,
    Equate,
    Set,
    Greatest,
    Least,
    /// ERR, or one of those that are errors if their operand has an order to zero.
    Error(Option<Order>),
    Name,
    Base,
    /// CODE.
    TextCode,
    Deck,
    End,
    /// What makes no words here.
    Ignored,
    Use,
    Qualifier,
    Literals,
    Micro,
    /// DECMIC, or OCTMIC.
    NumberMicro { is_decimal: bool },
    MicroCount,
    Block(Opening),
    Lines(Elsewhere),
    /// What is only within a block.
    Inside,
    /// STEXT, which says in a system text that it is one, and is not taken elsewhere.
    SystemText,
    /// What is never taken, and what to write instead.
    Refused(Wording),
    /// No operation that is known.
    Unknown,
}

/// Where lines are that a directive performs, or what it does with operations.
#[derive(Clone, Copy)]
pub enum Elsewhere {
    Deck,
    Here,
    Synonym,
    Purge,
    /// STOPDUP.
    Stop,
    /// COL.
    Column,
}

/// The operations that are no instructions, each with its names.
pub static OPERATIONS: [(&str, Operation); 63] = [
    ("CON", Expressions),
    ("DATA", Data),
    ("VFD", Bits),
    ("POS", Position),
    ("DIS", Operation::Text),
    ("BSSZ", Zeros),
    ("BSS", Space),
    ("ORG", Origin),
    ("LOC", Location),
    ("EQU =", Equate),
    ("SET", Set),
    ("MAX", Greatest),
    ("MIN", Least),
    ("ERR", Error(None)),
    ("ERRNZ", Error(Some(Order::NotEqual))),
    ("ERRZR", Error(Some(Order::Equal))),
    ("ERRPL", Error(Some(Order::NotLess))),
    ("ERRMI ERRNG", Error(Some(Order::Less))),
    ("IDENT", Operation::Name),
    ("BASE", Base),
    ("CODE", TextCode),
    ("PERIPH", Deck),
    ("END", End),
    ("LDK", Shortest(0o14, 0o15, 0o20)),
    ("ADK", Shortest(0o16, 0o17, 0o21)),
    (
        "ABS SST ENTRY TITLE TTL SPACE EJECT LIST NOREF XREF COMMENT CTEXT ENDX NOLABEL NIL SEG LCC",
        Ignored,
    ),
    ("USE", Use),
    ("QUAL", Qualifier),
    ("LIT", Literals),
    ("MICRO", Operation::Micro),
    ("DECMIC", Operation::NumberMicro { is_decimal: true }),
    ("OCTMIC", Operation::NumberMicro { is_decimal: false }),
    ("MICCNT", Operation::MicroCount),
    ("IF", Block(Opening::Attribute)),
    ("IFC", Block(Opening::Texts)),
    ("IFEQ", Block(Opening::Numbers(Order::Equal))),
    ("IFNE", Block(Opening::Numbers(Order::NotEqual))),
    ("IFGT", Block(Opening::Numbers(Order::Greater))),
    ("IFGE", Block(Opening::Numbers(Order::NotLess))),
    ("IFLT", Block(Opening::Numbers(Order::Less))),
    ("IFLE", Block(Opening::Numbers(Order::NotGreater))),
    ("IFPL", Block(Opening::Sign { is_minus: false })),
    ("IFMI", Block(Opening::Sign { is_minus: true })),
    ("IFPP", Block(Opening::Fixed(true))),
    ("IFCP SKIP", Block(Opening::Fixed(false))),
    ("DUP", Block(Opening::Repeat)),
    ("ECHO", Block(Opening::Echo)),
    ("MACRO", Block(Opening::Macro { has_names: false })),
    ("MACROE", Block(Opening::Macro { has_names: true })),
    ("RMT", Block(Opening::Remote)),
    ("XTEXT", Lines(Elsewhere::Deck)),
    ("HERE", Lines(Elsewhere::Here)),
    ("OPSYN", Lines(Elsewhere::Synonym)),
    ("PURGMAC", Lines(Elsewhere::Purge)),
    ("STOPDUP", Lines(Elsewhere::Stop)),
    ("COL", Lines(Elsewhere::Column)),
    ("ENDIF ELSE ENDD ENDM LOCAL IRP", Inside),
    ("OPDEF PPOP", Refused(Wording::UseMacro)),
    ("EXT", Refused(Wording::UseEqu)),
    ("SEGMENT ORGC", Refused(Wording::UseOrg)),
    ("STEXT", SystemText),
    ("PPU", Refused(Wording::OtherMachine)),
    (
        "MXN MAN SCF CCF SFM CFM IAPM OAPM",
        Refused(Wording::NoSuchInstruction),
    ),
];

/// Returns the operation with a name, in capitals.
pub fn operation_of(name: &[u8]) -> Operation {
    if name.is_empty() {
        return Operation::None;
    }
    if let Some(code) = code_of(name) {
        return Operation::Instruction(code);
    }
    for (names, operation) in &OPERATIONS {
        if has_word(names, name) {
            return *operation;
        }
    }
    Operation::Unknown
}

/// Returns whether a name is that of an instruction or a directive.
pub fn is_operation(name: &[u8]) -> bool {
    !matches!(
        operation_of(name),
        Operation::None
            | Block(_)
            | Lines(_)
            | Inside
            | SystemText
            | Refused(_)
            | Operation::Unknown
    )
}
