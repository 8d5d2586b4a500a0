//! Names with a qualifier, and QUAL.
ghost use Rattle.std.specs.Prelude.{◌≡◌, ◌-◌, ◌++◌, IfOk, IfSome, OnOk, Some, length, take};
ghost use Rattle.std.specs.List.{list_all};
ghost use Rattle.pp_meaning.specs.Lines.{full_name, name_at, short_name};
ghost use Rattle.pp_meaning.specs.Qualifiers.{full_text, has_prefix, in_qualifier, is_hidden, is_in_qualifier, is_own};
ghost use Rattle.pp_meaning.specs.Qualifiers.{is_prefixed, is_qualified};
ghost use Rattle.pp_meaning.specs.Qualifiers.{names_in, prefix_with, prefixes_after, present_prefix, qualified, short_text};
ghost use Rattle.pp_meaning.specs.Qualifiers.{without_prefix};
ghost use Rattle.pp_meaning.specs.Standing.{prefix_text, standing};

use crate::expressions::{Operand, Symbol};
use crate::statements::{State, Statement};
use std::alloc::{AllocError, Global};

/// What names in a line may be: the symbols, and what is before a name with the present qualifier.
#[derive(Clone, Copy)]
pub struct Scope<'a> {
    pub symbols: &'a [Symbol],
    pub prefix: &'a [u8],
}

/// Returns whether a name has a qualifier.
fn has_qualifier(name: &[u8]) -> bool
    ensures { result ≡ is_qualified name.now }
{
    match name {
        [] => false,
        [byte, ..] => *byte == b'/',
    }
}

/// Writes a name in full: with its qualifier, or with // if it has none.
fn put_full_text(out: &mut Vec<u8>, name: &[u8]) -> Result<(), AllocError>
    ensures { OnOk result (out.new.items ≡ out.old.items ++ full_text name.now) }
{
    if !has_qualifier(name) {
        out.extend_from_slice(b"//")?;
    }
    out.extend_from_slice(name)
}

impl<'a> Scope<'a> {
    /// Returns the name of the symbol at an index.
    fn name_at(&self, index: usize) -> &'a [u8]
        ensures { result.now ≡ name_at (names_in self.now) index }
    {
        match self.symbols.get(index) {
            Some(symbol) => &symbol.name,
            None => b"",
        }
    }

    /// Returns whether a name has the present qualifier.
    fn has_prefix(&self, name: &[u8]) -> bool
        ensures { result ≡ has_prefix (names_in self.now) name.now }
    {
        name.starts_with(self.prefix)
    }

    /// Returns what is behind the present qualifier.
    fn without_prefix<'b>(&self, name: &'b [u8]) -> &'b [u8]
        ensures { result.now ≡ without_prefix (names_in self.now) name.now }
    {
        name.get(self.prefix.len()..).unwrap_or(b"")
    }

    /// Returns whether a symbol has the present qualifier and a name.
    fn is_at(&self, symbol: &Symbol, name: &[u8]) -> bool
        ensures { result ≡ is_prefixed (names_in self.now) name.now symbol.now }
    {
        self.has_prefix(&symbol.name) && self.without_prefix(&symbol.name) == name
    }

    /// Returns whether a symbol with the present qualifier has a name too.
    fn is_hidden(&self, name: &[u8]) -> bool
        ensures { result ≡ is_hidden (names_in self.now) name.now }
    {
        self.symbols.iter().any(|symbol| self.is_at(symbol, name))
    }

    /// Writes a name without the present qualifier, or with // if such a name hides it.
    fn put_short_text(&self, out: &mut Vec<u8>, name: &[u8]) -> Result<(), AllocError>
        ensures { OnOk result (out.new.items ≡ out.old.items ++ short_text (names_in self.now) name.now) }
    {
        if self.has_prefix(name) {
            return out.extend_from_slice(self.without_prefix(name));
        }
        if self.is_hidden(name) {
            out.extend_from_slice(b"//")?;
        }
        out.extend_from_slice(name)
    }

    /// Writes the name of the symbol at an index, as short as it may be.
    pub(crate) fn put_short(&self, out: &mut Vec<u8>, index: usize) -> Result<(), AllocError>
        ensures { OnOk result (out.new.items ≡ out.old.items ++ short_name (names_in self.now) index) }
    {
        self.put_short_text(out, self.name_at(index))
    }

    /// Writes the name of the symbol at an index in full.
    pub(crate) fn put_full(&self, out: &mut Vec<u8>, index: usize) -> Result<(), AllocError>
        ensures { OnOk result (out.new.items ≡ out.old.items ++ full_name (names_in self.now) index) }
    {
        put_full_text(out, self.name_at(index))
    }

    /// Returns the label that names the symbol at an index.
    pub(crate) fn label_at(&self, index: usize) -> &'a [u8]
        ensures { result.now ≡ without_prefix (names_in self.now) (name_at (names_in self.now) index) }
    {
        self.without_prefix(self.name_at(index))
    }

    /// Returns whether a label may name the symbol at an index: if it has the present qualifier.
    pub(crate) fn may_define(&self, index: usize) -> bool
        ensures { result ≡ is_own (names_in self.now) (name_at (names_in self.now) index) }
    {
        let name = self.name_at(index);
        self.has_prefix(name) && !has_qualifier(self.without_prefix(name))
    }
}

/// Returns whether a byte may be one of a qualifier: no blank, comma or `/`, and nothing below a blank.
pub fn may_qualify(byte: u8) -> bool
    ensures { result ≡ is_in_qualifier byte }
{
    byte > b' ' && byte != b',' && byte != b'/'
}

/// Returns whether a qualifier may have all bytes.
fn may_all_qualify(name: &[u8]) -> bool
    ensures { result ≡ list_all is_in_qualifier name.now }
{
    name.iter().all(|byte| may_qualify(*byte))
}

/// Returns what is before a name with a qualifier.
fn prefix_of(alloc: Global, name: &[u8]) -> Result<Vec<u8>, AllocError>
    ensures { IfOk result (λ prefix. prefix.items ≡ prefix_with name.now) }
{
    let mut prefix = Vec::new(alloc);
    if name.is_empty() {
        return Ok(prefix);
    }
    prefix.push(b'/')?;
    prefix.extend_from_slice(name)?;
    prefix.push(b'/')?;
    Ok(prefix)
}

impl State {
    /// Returns what is before a name with the present qualifier.
    fn prefix(&self) -> &[u8]
        ensures { result.now ≡ present_prefix (standing self.now) }
    {
        match self.prefixes.last() {
            Some(prefix) => prefix,
            None => b"",
        }
    }

    /// Returns whether the names of a statement are read with the present qualifier.
    pub(crate) fn is_in_qualifier(&self, statement: &Statement) -> Option<()>
        ensures { IfSome result (λ done. in_qualifier (Some (standing self.now)) statement.now ≡ Some (standing self.now)) }
    {
        (statement.prefix.as_slice() == self.prefix()).then_some(())
    }

    /// Goes back to the qualifier before.
    fn leave_qualifier(&mut self)
        ensures { record (standing self.old) {
          prefixes = take (length (standing self.old).prefixes - 1) (standing self.old).prefixes;
        } ≡ standing self.new }
    {
        self.prefixes
            .truncate(self.prefixes.len().saturating_sub(1));
    }

    /// Makes a qualifier the present one, or the one before.
    fn use_qualifier(&mut self, alloc: Global, name: &[u8]) -> Result<(), AllocError>
        ensures { OnOk result (record (standing self.old) { prefixes = prefixes_after (standing self.old).prefixes name.now }
            ≡ standing self.new) }
    {
        if name == b"*".as_slice() {
            self.leave_qualifier();
            return Ok(());
        }
        let prefix = prefix_of(alloc, name)?;
        self.prefixes.push(prefix)?;
        Ok(())
    }

    /// QUAL.
    pub(crate) fn qualify(
        &mut self,
        alloc: Global,
        operands: &[Operand],
    ) -> Result<Option<()>, AllocError>
        ensures { IfOk result (λ made. IfSome made (λ done. qualified (standing self.old) operands.now ≡ Some
            (standing self.new))) }
    {
        match operands {
            [] => {
                self.prefixes.push(Vec::new(alloc))?;
                Ok(Some(()))
            }
            [Operand::Word(name)] if may_all_qualify(name) => {
                self.use_qualifier(alloc, name)?;
                Ok(Some(()))
            }
            _ => Ok(None),
        }
    }
}
