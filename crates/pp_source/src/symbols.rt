//! The names of a source: labels, and names of numbers.
ghost use Rattle.std.specs.Prelude.{◌≡◌, ◌<◌, IfSome, Some, length};
ghost use Rattle.pp_source.specs.Index.{IsTable};

use crate::index::{Index, number_of_name};
use crate::message::{Argument, Fault, Field, Outcome, Stop};
use crate::names::{full_name, is_joined, wrong_symbol};
use crate::wordings::Wording;
use pp_decks::Span;
use std::alloc::{AllocError, Global};

/// What a name stands for. It has no value if its definition is wrong.
#[derive(Clone, Copy, PartialEq, Eq, Default)]
pub struct Definition {
    pub value: Option<i64>,
    /// From 1.
    pub line: u32,
    pub is_address: bool,
    /// By SET, so that another SET may change it.
    pub is_set: bool,
    /// By EQU *.
    pub is_here: bool,
    /// By a system text.
    pub is_system: bool,
}

impl Definition {
    /// Returns what a name of an address stands for.
    pub fn address(address: i64) -> Self
        ensures { result.value ≡ Some address }
    {
        Definition {
            value: Some(address),
            is_address: true,
            ..Definition::default()
        }
    }
}

/// What a name stands for in the pass before and in this one. Its key is the name, or with a qualifier /Q/NAME.
#[derive(Clone, Copy)]
pub struct Symbol {
    pub key: Span,
    pub before: Option<Definition>,
    pub seen: Option<Definition>,
}

/// The names that a pass has met, and those that the pass before met.
#[derive(Drop)]
pub struct Symbols {
    /// The text of all keys and other names.
    pub text: Vec<u8>,
    pub all: Vec<Symbol>,
    index: Index,
    /// The labels of lines that are left out.
    passed_over: Vec<Span>,
    /// The qualifiers that QUAL names, the present one last, and their text: each between slashes.
    qualifiers: Vec<Span>,
    qualifier_text: Vec<u8>,
    ghost indexed: { IsTable text.items all.items index.last index.before.items },
}

/// Where a name is looked up, the column of a message about it, and whether only names of the lines above count.
#[derive(Clone, Copy)]
pub struct Place {
    pub name: Field,
    pub column: usize,
    pub is_from_above: bool,
}

impl Symbols {
    ghost use Rattle.pp_source.specs.Names.{has_key_at, index_of, is_named, kept_text, meant, name_value, prefix, seen, symbol_of, value_in};

    pub fn new(alloc: Global) -> Self {
        Symbols {
            text: Vec::new(alloc),
            all: Vec::new(alloc),
            index: Index::new(alloc),
            passed_over: Vec::new(alloc),
            qualifiers: Vec::new(alloc),
            qualifier_text: Vec::new(alloc),
        }
    }

    /// Keeps a text.
    pub fn keep(&mut self, text: &[u8]) -> Result<Span, AllocError> {
        let first = self.text.len();
        self.text.extend_from_slice(text)?;
        Ok(Span::new(first, self.text.len()))
    }

    /// Returns a text that is kept.
    pub fn text_of(&self, text: Span) -> &[u8]
        ensures { result.now ≡ kept_text self.now text }
    {
        text.of(&self.text)
    }

    /// Gives each name what it stands for in the pass before and in this one.
    fn renew<F: FnMut(Symbol) -> (Option<Definition>, Option<Definition>)>(
        &mut self,
        mut meanings: F,
    )
        requires { F.IsAlwaysCallable meanings }
    {
        for at in 0..self.all.len() {
            let Some(symbol) = self.all.get(at).copied() else {
                return;
            };
            let (before, seen) = meanings(symbol);
            self.all[at] = Symbol {
                before,
                seen,
                ..symbol
            };
        }
    }

    /// Begins the next pass.
    pub fn begin_pass(&mut self) {
        self.renew(|symbol| (symbol.seen, None));
        self.qualifiers.clear();
    }

    /// Ends a system text: the names that are known are those of a system.
    pub fn end_system(&mut self) {
        self.renew(|symbol| {
            let seen = symbol.seen.map(|seen| Definition {
                is_system: true,
                ..seen
            });
            (symbol.before, seen)
        });
        self.qualifiers.clear();
    }

    /// Begins the source. A name that it has itself, as the pass before has found, is no longer that of a system; but one of SET
    /// is, up to the first SET of the source.
    pub fn begin_source(&mut self) {
        self.renew(|symbol| match symbol.before {
            Some(own) if !own.is_system && !own.is_set => (symbol.before, None),
            _ => (symbol.before, symbol.seen),
        });
    }

    /// Returns whether each name stands for the same as in the pass before.
    pub fn have_settled(&self) -> bool {
        self.all.iter().all(|symbol| symbol.before == symbol.seen)
    }

    /// Qualifies the names that are defined from here on; * goes back to the qualifier before.
    pub fn qualify(&mut self, name: &[u8]) -> Result<(), AllocError> {
        if matches!(name, b"*") {
            let _ = self.qualifiers.pop();
            return Ok(());
        }
        let first = self.qualifier_text.len();
        if !name.is_empty() {
            self.qualifier_text.extend_from_slice(b"/")?;
            self.qualifier_text.extend_from_slice(name)?;
            self.qualifier_text.extend_from_slice(b"/")?;
        }
        let qualifier = Span::new(first, self.qualifier_text.len());
        Ok(self.qualifiers.push(qualifier)?)
    }

    /// Returns what is before a name with the present qualifier.
    #[tactic(auto, unfolding(crate::specs::Names::prefix))]
    fn prefix(&self) -> &[u8]
        ensures { result.now ≡ prefix self.now }
    {
        match self.qualifiers.last() {
            Some(qualifier) => qualifier.of(&self.qualifier_text),
            None => b"",
        }
    }

    /// Returns the present qualifier, which is empty if there is none.
    pub fn qualifier(&self) -> &[u8] {
        match self.prefix() {
            [b'/', name @ .., b'/'] => name,
            _ => b"",
        }
    }

    /// Keeps the label of a line that is left out.
    pub fn pass_over(&mut self, label: &[u8]) -> Result<(), AllocError> {
        let label = self.keep(label)?;
        Ok(self.passed_over.push(label)?)
    }

    /// Forgets the labels of lines that are left out. Returns whether there were any.
    pub fn forget_passed_over(&mut self) -> bool {
        let had_any = !self.passed_over.is_empty();
        self.passed_over.clear();
        had_any
    }

    /// Returns whether a name is the label of a line that is left out, or that label and an X, as of a subroutine's exit.
    pub fn is_passed_over(&self, name: &[u8]) -> bool {
        let subroutine = name.strip_suffix(b"X").unwrap_or(name);
        for label in &self.passed_over {
            let label = self.text_of(*label);
            if label == name || label == subroutine {
                return true;
            }
        }
        false
    }

    /// Returns whether the key of a symbol is a name after a prefix.
    fn has_key(&self, at: usize, prefix: &[u8], name: &[u8]) -> bool
        ensures { result ≡ has_key_at self.now prefix.now name.now at }
    {
        match self.all.get(at) {
            Some(symbol) => is_joined(self.text_of(symbol.key), prefix, name),
            None => false,
        }
    }

    /// Returns the index of the symbol whose key is a name after a prefix.
    #[tactic(auto, unfolding(crate::specs::Names::index_of))]
    fn index_of(&self, prefix: &[u8], name: &[u8]) -> Option<usize>
        ensures found { result ≡ index_of self.now prefix.now name.now }
        ensures within { IfSome result (λ at. at < length self.now.all.items) }
    {
        let mut next = self.index.last(number_of_name(prefix, name));
        for _turn in 0..self.index.len() {
            let at = next?;
            if self.has_key(at, prefix, name) {
                return Some(at);
            }
            next = self.index.before(at);
        }
        None
    }

    #[tactic(auto, unfolding(crate::specs::Names::symbol_of))]
    fn symbol(&self, prefix: &[u8], name: &[u8]) -> Option<Symbol>
        ensures { result ≡ symbol_of self.now prefix.now name.now }
    {
        match self.index_of(prefix, name) {
            Some(at) => self.all.get(at).copied(),
            None => None,
        }
    }

    /// Returns the symbol that a name means: with its qualifier, or else with the present one, or else without.
    #[tactic(auto, unfolding(crate::specs::Names::meant))]
    pub fn meant(&self, name: &[u8]) -> Option<Symbol>
        ensures { result ≡ meant self.now name.now }
    {
        if let Some(full) = full_name(name) {
            return self.symbol(b"", full);
        }
        match self.symbol(self.prefix(), name) {
            Some(symbol) if symbol.is_known() => Some(symbol),
            _ => self.symbol(b"", name),
        }
    }

    /// Returns whether a line above or the pass before has defined a name.
    pub fn is_named(&self, name: &[u8]) -> bool
        ensures { result ≡ is_named self.now name.now }
    {
        self.seen(name).is_some()
            || matches!(self.symbol(b"", name), Some(symbol) if symbol.before.is_some())
    }

    /// Gives a name of a line its meaning.
    pub fn define(&mut self, line: &[u8], field: Field, definition: Definition) -> Outcome {
        let name = field.of(line);
        if let Some(text) = wrong_symbol(name) {
            return Err(Stop::of(text, field));
        }
        let Some(at) = self.index_of(self.prefix(), name) else {
            return self.add(name, definition);
        };
        let symbol = self.all[at];
        if let Some(old) = symbol.seen
            && !(definition.is_set && old.is_set || old.is_system)
        {
            let fault = Fault::new(Wording::DefinedTwice);
            return Err(fault.part(field).decimal(old.line).at(field.first));
        }
        self.all[at] = Symbol {
            seen: Some(definition),
            ..symbol
        };
        Ok(())
    }

    /// Adds a name with the present qualifier.
    fn add(&mut self, name: &[u8], definition: Definition) -> Outcome {
        let first = self.text.len();
        let qualifier = self.qualifiers.last().copied().unwrap_or_default();
        let prefix = qualifier.of(&self.qualifier_text);
        let number = number_of_name(prefix, name);
        self.text.extend_from_slice(prefix)?;
        self.text.extend_from_slice(name)?;
        let symbol = Symbol {
            key: Span {
                first,
                end: self.text.len(),
            },
            before: None,
            seen: Some(definition),
        };
        self.all.push(symbol)?;
        match self.index.add(number) {
            Ok(()) => Ok(()),
            Err(failed) => {
                let _ = self.all.pop();
                Err(failed.into())
            }
        }
    }

    /// Returns what a name stands for by a line above.
    pub fn seen(&self, name: &[u8]) -> Option<Definition>
        ensures { result ≡ seen self.now name.now }
    {
        self.meant(name)?.seen
    }

    /// Returns what a name stands for. Only a name of a line above counts if that is asked, and of SET in any case. In the first
    /// pass a name may stand for nothing yet.
    #[tactic(auto, unfolding(crate::specs::Names::name_value))]
    pub fn look_up(&self, name: &[u8], at: Place, is_last: bool) -> Outcome<Definition>
        ensures { value_in result ≡ name_value self.now at.is_from_above is_last name.now }
    {
        let (seen, before) = match self.meant(name) {
            Some(symbol) => (symbol.seen, symbol.before),
            None => (None, None),
        };
        match (seen, before) {
            (Some(seen), _) => Ok(seen),
            (_, Some(later)) if !at.is_from_above && !later.is_set => Ok(later),
            (_, Some(later)) => {
                let fault = Fault::new(Wording::DefinedLater);
                Err(fault.part(at.name).decimal(later.line).at(at.column))
            }
            _ if !at.is_from_above && !is_last => Ok(Definition::address(0)),
            _ if self.is_passed_over(name) => Err(Stop::Follows),
            _ => {
                let fault = Fault::new(Wording::NotDefined).part(at.name);
                Err(fault.with(Argument::NearestSymbol(at.name)).at(at.column))
            }
        }
    }
}

impl Symbol {
    ghost use Rattle.pp_source.specs.Names.{is_known};

    /// Returns whether this pass or the one before has met the name.
    pub fn is_known(&self) -> bool
        ensures { result ≡ is_known self.now }
    {
        self.seen.is_some() || self.before.is_some()
    }
}
