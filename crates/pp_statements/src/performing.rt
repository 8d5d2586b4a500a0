//! The statements of a source, performed one after another.
use crate::scope::Scope;
use pp_source::{
    Argument, Fault, Field, Here, Operation, Outcome, Statement, Stop, Wording, is_operation,
};

impl Scope {
    /// Passes over a statement after END, of which the first one is reported.
    pub fn after_end(&mut self, here: &Here, statement: Statement) -> Outcome {
        if !self.is_last {
            self.symbols.pass_over(statement.location.of(here.text))?;
        }
        if !self.programs.has_more {
            self.programs.has_more = true;
            return self.report(here, 0, Fault::new(Wording::AfterEnd));
        }
        Ok(())
    }

    /// Performs an instruction or a directive.
    pub fn one(&mut self, here: &Here, statement: Statement, operation: Operation) -> Outcome {
        match operation {
            Operation::Equate | Operation::Set | Operation::Greatest | Operation::Least =>
                self.equate(here, statement, operation),
            Operation::Error(test) => self.error(here, statement, test),
            Operation::Ignored => self.plain_row(here, false),
            Operation::SystemText if !here.line.system.is_empty() => self.plain_row(here, false),
            Operation::Name => self.name_program(here, statement),
            Operation::Base => self.set_base(here, statement),
            Operation::TextCode => self.set_code(here, statement),
            Operation::Deck => {
                self.counters.is_deck = true;
                self.plain_row(here, false)
            }
            Operation::Origin => self.set_origin(here, statement),
            Operation::Location => self.set_location(here, statement),
            Operation::Use => self.set_block(here, statement),
            Operation::Qualifier => self.set_qualifier(here, statement),
            Operation::Literals => self.literals(here, statement),
            _ => {
                self.label(here, statement)?;
                self.labelled(here, statement, operation)
            }
        }
    }

    /// Performs an instruction or a directive whose label has been defined.
    fn labelled(&mut self, here: &Here, statement: Statement, operation: Operation) -> Outcome {
        match operation {
            Operation::None => self.plain_row(here, true),
            Operation::Instruction(code) => self.instruction(here, statement, code),
            Operation::Shortest { .. } => self.shortest(here, statement, operation),
            Operation::Space => self.space(here, statement),
            _ => {
                let mut words = Vec::new(self.alloc);
                self.make(here, statement, operation, &mut words)?;
                self.put(here, &words)
            }
        }
    }

    /// Returns what is wrong with an operation that is none.
    pub fn why_not(&self, here: &Here, statement: Statement, operation: Operation) -> Stop {
        let name = statement.operation;
        if self.symbols.is_passed_over(name.of(here.text)) {
            return Stop::Follows;
        }
        let fault = match operation {
            Operation::Inside => Fault::new(Wording::EndsNothing).part(name),
            Operation::SystemText => not_taken(name, Wording::UseXtext),
            Operation::Refused(instead) => not_taken(name, instead),
            _ if is_operation(statement.location.of(here.text)) => Fault::new(
                Wording::LabelIsOperation,
            ).part(name)
                .part(statement.location),
            _ if is_operation(statement.operand.of(here.text)) => Fault::new(
                Wording::LabelIsLater,
            ).part(name),
            _ => Fault::new(Wording::NoOperation)
                .part(name)
                .with(Argument::NearestOperation(name, self.output.performed)),
        };
        Stop::At(name.first, fault)
    }
}

/// Returns that an operation is not taken, and what to write instead.
fn not_taken(name: Field, instead: Wording) -> Fault {
    Fault::new(Wording::NotTaken)
        .part(name)
        .with(Argument::Text(instead))
}

/// Returns that a statement has a symbol that is not known yet, if one of its fields has: only the comment may have letters beyond
/// ASCII.
pub fn is_known(here: &Here, statement: Statement) -> Outcome {
    for field in &[statement.location, statement.operation, statement.operand] {
        for symbol in field.of(here.text) {
            if !(symbol.is_ascii_graphic() || *symbol == b' ' || *symbol == b'\t') {
                return Err(Stop::not_yet(*field));
            }
        }
    }
    Ok(())
}
