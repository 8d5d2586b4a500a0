//! Statements that other lines belong to.
use crate::message::Field;
use crate::orders::Order;
use crate::wordings::Wording;

/// What begins a block.
#[derive(Clone, Copy)]
pub enum Opening {
    /// IF.
    Attribute,
    /// IFC.
    Texts,
    Numbers(Order),
    /// IFMI, or IFPL.
    Sign { is_minus: bool },
    /// A condition that holds always or never.
    Fixed(bool),
    Repeat,
    Echo,
    /// MACROE has the names of its operands before them in a call.
    Macro { has_names: bool },
    Remote,
}

impl Opening {
    pub fn is_condition(self) -> bool {
        matches!(self.end(), "ENDIF")
    }

    /// Returns the operation that ends the block.
    pub fn end(self) -> &'static str {
        self.ending().text()
    }

    /// Returns what a message calls the operation that ends the block.
    pub fn ending(self) -> Wording {
        match self {
            Opening::Repeat | Opening::Echo => Wording::EndsRepeat,
            Opening::Macro { .. } => Wording::EndsMacro,
            Opening::Remote => Wording::EndsRemote,
            _ => Wording::EndsIf,
        }
    }

    /// Returns how many operands are before the count of lines, if there may be one.
    pub fn operands(self) -> Option<usize> {
        match self {
            Opening::Attribute | Opening::Numbers(_) => Some(2),
            Opening::Sign { .. } | Opening::Repeat => Some(1),
            Opening::Fixed(_) => Some(0),
            _ => None,
        }
    }

    /// Returns the operand that counts the lines, or an empty one: the first one of ECHO, else the last one after the others.
    pub fn count_in(self, operands: &[Field]) -> Field {
        let count = match self {
            Opening::Echo => operands.first(),
            _ => match self.operands() {
                Some(before) if operands.len() > before => operands.last(),
                _ => None,
            },
        };
        count.copied().unwrap_or(Field::none())
    }
}
