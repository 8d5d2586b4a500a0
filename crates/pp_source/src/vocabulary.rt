//! What a source adds to the notation: macros, other names of operations, micros, and lines for HERE.
use crate::index::{Index, number_of_name};
use pp_decks::Span;
use std::alloc::{AllocError, Global};

/// A name, and the text that it stands for.
#[derive(Clone, Copy)]
pub struct Meaning {
    pub name: Span,
    pub text: Span,
}

/// A macro.
#[derive(Clone, Copy)]
pub struct Macro {
    pub name: Span,
    /// The name that stands for the label of a call, if one does.
    pub label: Span,
    /// Where the names of its operands are, with what these are if a call says nothing else.
    pub operands: Span,
    /// A call has the names of its operands before them.
    pub has_names: bool,
    /// Its lines.
    pub body: Span,
    /// The statements, by their numbers, that define it and after which its name means it no longer: PURGMAC, OPSYN or another macro.
    pub from: u32,
    pub until: u32,
}

/// Lines of RMT, until they are performed.
#[derive(Clone, Copy)]
pub struct Remote {
    pub name: Span,
    pub lines: Span,
    /// The index of those before with the same name that are kept too.
    before: Option<usize>,
    is_taken: bool,
}

/// The column, from 0, from which on no operand begins if COL says nothing else.
pub const FIRST_OF_COMMENTS: usize = 29;

/// The names that a source gives, with what they stand for. Their texts are in one.
#[derive(Drop)]
pub struct Vocabulary {
    pub text: Vec<u8>,
    pub macros: Vec<Macro>,
    macro_names: Index,
    /// The operands of all macros.
    pub operands: Vec<Meaning>,
    /// Operations that OPSYN names.
    pub synonyms: Vec<Meaning>,
    synonym_names: Index,
    micros: Vec<Meaning>,
    micro_names: Index,
    pub remote: Vec<Remote>,
    remote_names: Index,
    /// How many names LOCAL has made.
    pub locals: u32,
    /// What a call gives to the names of a macro, or ECHO to its names.
    pub values: Vec<Meaning>,
    /// The lists of ECHO.
    pub lists: Vec<Meaning>,
    /// The line that is being made.
    pub made: Vec<u8>,
    /// The column, from 0, from which on no operand begins.
    pub comments: usize,
}

impl Vocabulary {
    pub fn new(alloc: Global) -> Self {
        Vocabulary {
            text: Vec::new(alloc),
            macros: Vec::new(alloc),
            macro_names: Index::new(alloc),
            operands: Vec::new(alloc),
            synonyms: Vec::new(alloc),
            synonym_names: Index::new(alloc),
            micros: Vec::new(alloc),
            micro_names: Index::new(alloc),
            remote: Vec::new(alloc),
            remote_names: Index::new(alloc),
            locals: 0,
            values: Vec::new(alloc),
            lists: Vec::new(alloc),
            made: Vec::new(alloc),
            comments: FIRST_OF_COMMENTS,
        }
    }

    /// Keeps a text.
    pub fn keep(&mut self, text: &[u8]) -> Result<Span, AllocError> {
        let first = self.text.len();
        self.text.extend_from_slice(text)?;
        Ok(Span::new(first, self.text.len()))
    }

    /// Returns a text that is kept.
    pub fn text_of(&self, text: Span) -> &[u8] {
        text.of(&self.text)
    }

    /// Adds a text that is kept to the line that is made.
    pub fn add_kept(&mut self, text: Span) -> Result<(), AllocError> {
        self.made.extend_from_slice(text.of(&self.text))
    }

    /// Returns the number of a name that is kept.
    fn number(&self, name: Span) -> u64 {
        number_of_name(b"", self.text_of(name))
    }

    /// Returns the index of the last macro with a name, which may be forgotten.
    fn index_of_macro(&self, name: &[u8]) -> Option<usize> {
        self.macro_names.find(number_of_name(b"", name), |at| {
            self.macros
                .get(at)
                .is_some_and(|one| self.text_of(one.name) == name)
        })
    }

    /// Returns the macro with a name.
    pub fn macro_of(&self, name: &[u8]) -> Option<Macro> {
        let last = self.macros.get(self.index_of_macro(name)?)?;
        (last.until == u32::MAX).then_some(*last)
    }

    /// Forgets the macro with a name, at the statement with a number.
    pub fn purge(&mut self, name: &[u8], statement: u32) {
        let index = self.index_of_macro(name);
        self.forget(index, statement);
    }

    /// Forgets the macro with an index, at the statement with a number.
    fn forget(&mut self, index: Option<usize>, statement: u32) {
        let Some(index) = index else {
            return;
        };
        if let Some(one) = self.macros.get_mut(index) {
            one.until = one.until.min(statement);
        }
    }

    /// Adds a macro, which takes the place of another one with its name.
    pub fn add_macro(&mut self, one: Macro) -> Result<(), AllocError> {
        let before = self.index_of_macro(self.text_of(one.name));
        self.forget(before, one.from);
        let number = self.number(one.name);
        self.macro_names.add(number)?;
        Ok(self.macros.push(one)?)
    }

    /// Gives a name to an operation, in place of a macro, at the statement with a number.
    pub fn add_synonym(&mut self, synonym: Meaning, statement: u32) -> Result<(), AllocError> {
        let before = self.index_of_macro(self.text_of(synonym.name));
        self.forget(before, statement);
        let number = self.number(synonym.name);
        self.synonym_names.add(number)?;
        Ok(self.synonyms.push(synonym)?)
    }

    pub fn add_micro(&mut self, micro: Meaning) -> Result<(), AllocError> {
        let number = self.number(micro.name);
        self.micro_names.add(number)?;
        Ok(self.micros.push(micro)?)
    }

    /// Keeps lines of RMT with a name.
    pub fn add_remote(&mut self, name: Span, lines: Span) -> Result<(), AllocError> {
        let before = self.last_remote(name);
        let number = self.number(name);
        self.remote_names.add(number)?;
        Ok(
            self.remote.push(Remote {
                name,
                lines,
                before,
                is_taken: false,
            })?,
        )
    }

    /// Forgets the lines of RMT.
    pub fn forget_remote(&mut self) {
        self.remote.clear();
        self.remote_names.clear();
    }

    /// Returns the text that a name stands for, the last one of several.
    pub fn meaning(&self, all: &[Meaning], name: &[u8]) -> Option<Span> {
        Some(self.last_named(all, name)?.text)
    }

    /// Returns the last meaning of a name.
    pub(crate) fn last_named(&self, all: &[Meaning], name: &[u8]) -> Option<Meaning> {
        for one in all.iter().rev() {
            if self.text_of(one.name) == name {
                return Some(*one);
            }
        }
        None
    }

    /// Returns the text of the last meaning of a name, which an index has.
    fn text_in(&self, index: &Index, all: &[Meaning], name: &[u8]) -> Option<Span> {
        let last = index.find(number_of_name(b"", name), |at| {
            all.get(at)
                .is_some_and(|one| self.text_of(one.name) == name)
        })?;
        Some(all.get(last)?.text)
    }

    /// Returns the text of a micro that the source names.
    pub fn micro_of(&self, name: &[u8]) -> Option<Span> {
        self.text_in(&self.micro_names, &self.micros, name)
    }

    /// Returns the name of the operation that OPSYN gives a name to.
    pub fn synonym_of(&self, name: &[u8]) -> Option<Span> {
        self.text_in(&self.synonym_names, &self.synonyms, name)
    }

    /// Returns the index of the last lines of RMT that are kept with a name.
    fn last_remote(&self, name: Span) -> Option<usize> {
        let text = self.text_of(name);
        let last = self.remote_names.find(self.number(name), |at| {
            self.remote
                .get(at)
                .is_some_and(|one| self.text_of(one.name) == text)
        })?;
        (!self.remote.get(last)?.is_taken).then_some(last)
    }

    /// Returns the lines of RMT with a name, in their order, and keeps them no longer.
    pub fn take_remote(&mut self, alloc: Global, name: Span) -> Result<Vec<Span>, AllocError> {
        let mut taken = Vec::new(alloc);
        let mut next = self.last_remote(name);
        for _ in 0..self.remote.len() {
            let Some(one) = next.and_then(|at| self.remote.get_mut(at)) else {
                break;
            };
            one.is_taken = true;
            taken.push(one.lines)?;
            next = one.before;
        }
        taken.reverse();
        Ok(taken)
    }
}
