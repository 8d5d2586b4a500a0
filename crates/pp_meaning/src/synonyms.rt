//! Names that OPSYN gives to operations.
ghost use Rattle.std.specs.Prelude.{◌≡◌, ◌++◌, ◌∷◌, [], IfOk, IfSome, OnOk, Some, bytes_eq, map};
ghost use Rattle.pp_meaning.specs.Standing.{standing, synonym_pair};
ghost use Rattle.pp_meaning.specs.Synonyms.{meant_name, named, renamed, with_synonym};

use crate::expressions::Operand;
use crate::lines::name_of_operation;
use crate::statements::{Operation, State, Statement, Synonym};
use std::alloc::{AllocError, Global};

/// Returns whether two names are one.
fn are_same(name: &[u8], other: &[u8]) -> bool
    ensures { result ≡ bytes_eq name.now other.now }
{
    name == other
}

/// Returns the name of the operation that a name is, or that the last OPSYN of it says.
fn name_meant<'a>(synonyms: &'a [Synonym], name: &'a [u8]) -> &'a [u8]
    ensures { result.now ≡ meant_name (map synonym_pair synonyms.now) name.now }
{
    let mut meant = name;
    for synonym in synonyms {
        meant = name_meant_by(synonym, name, meant);
    }
    meant
}

/// Returns the name of the operation that one OPSYN says of a name, or else what is known.
fn name_meant_by<'a>(synonym: &'a Synonym, name: &[u8], meant: &'a [u8]) -> &'a [u8]
    ensures { result.now ≡ renamed name.now meant.now (synonym_pair synonym.now) }
{
    if are_same(&synonym.name, name) {
        &synonym.operation
    } else {
        meant
    }
}

impl State {
    /// Returns whether the name of a statement says its operation.
    pub(crate) fn is_named(&self, statement: &Statement) -> Option<()>
        ensures { IfSome result (λ done. named (Some (standing self.now)) statement.now ≡ Some (standing self.now)) }
    {
        let name = name_of_operation(statement.operation)?;
        are_same(name_meant(&self.synonyms, &statement.name), name).then_some(())
    }

    /// Keeps the name that OPSYN gives to an operation.
    pub(crate) fn keep_synonym(
        &mut self,
        alloc: Global,
        name: &[u8],
        operation: Operation,
        operands: &[Operand],
    ) -> Result<(), AllocError>
        ensures { OnOk result (with_synonym (Some (standing self.old)) name.now operation operands.now ≡ Some (standing self.new)) }
    {
        match (operation, operands) {
            (Operation::Synonym, [Operand::Word(old)]) => self.add_synonym(alloc, name, old),
            _ => Ok(()),
        }
    }

    /// Gives a name to the operation that another one means.
    fn add_synonym(&mut self, alloc: Global, name: &[u8], old: &[u8]) -> Result<(), AllocError>
        ensures { OnOk result (record (standing self.old) {
          synonyms = (standing self.old).synonyms
              ++ (name.now, meant_name (standing self.old).synonyms old.now) ∷ [];
        } ≡ standing self.new) }
    {
        let operation = Vec::from_slice(alloc, name_meant(&self.synonyms, old))?;
        let name = Vec::from_slice(alloc, name)?;
        self.synonyms.push(Synonym { name, operation })?;
        Ok(())
    }
}
