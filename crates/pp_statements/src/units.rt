//! The programs of a source, with the blocks of USE and the literals of each.
use crate::encoding::index_of;
use crate::scope::{CELLS, Named, Scope};
use pp_decks::Span;
use pp_notation::{Program, Slot, program_of};
use pp_source::{
    Argument, Fault, Field, Here, Index, Outcome, Place, Stop, Wording, is_alphanumeric,
    number_of_name,
};
use std::alloc::{AllocError, Global};
use std::mem::replace;

/// The index of the nominal block, which has no name. That of the literals is behind it.
const NOMINAL: usize = 0;
/// The index of the first block that USE names.
const FIRST_NAMED: usize = 2;

/// The name of the block of the literals.
pub const NAME_OF_LITERALS: &[u8; 9] = b"LITERALS*";

/// The counters of a block of USE, and the cell after its last one.
#[derive(Clone, Copy)]
struct Block {
    name: Span,
    base: i64,
    origin: i64,
    location: i64,
    end: i64,
}

/// Where a block of a program begins.
#[derive(Clone, Copy)]
struct Placed {
    unit: usize,
    name: Span,
    base: i64,
}

/// The blocks of the present program.
#[derive(Drop)]
pub struct Blocks {
    /// First the nominal one and that of the literals.
    all: Vec<Block>,
    names: Index,
    /// The blocks that USE * goes back to, the present one last.
    used: Vec<usize>,
    /// Where the blocks of all programs begin, as the pass before has found.
    before: Vec<Placed>,
    names_before: Index,
    /// The same, as this pass has found.
    placed: Vec<Placed>,
    names_placed: Index,
    /// How many programs are before the present one.
    unit: usize,
}

/// A program of a source, with the name that its IDENT has.
#[derive(Drop)]
pub struct Unit {
    pub name: Vec<u8>,
    pub program: Program,
}

/// The literals and the blocks of USE of a program, in the order in which they are named first.
#[derive(Drop)]
pub struct Layout {
    pub literals: Vec<pp_meaning::Literal>,
    pub blocks: Vec<pp_meaning::Block>,
}

/// Words that are named by what they are, from an address on.
#[derive(Drop)]
pub struct Literals {
    first: i64,
    words: Vec<u16>,
    all: Vec<Span>,
}

impl Blocks {
    pub fn new(alloc: Global) -> Self {
        Blocks {
            all: Vec::new(alloc),
            names: Index::new(alloc),
            used: Vec::new(alloc),
            before: Vec::new(alloc),
            names_before: Index::new(alloc),
            placed: Vec::new(alloc),
            names_placed: Index::new(alloc),
            unit: 0,
        }
    }

    /// Returns the blocks of the next pass, before its first program.
    pub fn next(self, alloc: Global) -> Self {
        let Blocks {
            placed,
            names_placed,
            ..
        } = self;
        Blocks {
            before: placed,
            names_before: names_placed,
            ..Blocks::new(alloc)
        }
    }

    /// Returns whether the blocks are where the pass before has put them.
    pub fn have_settled(&self, text: &[u8]) -> bool {
        for (one, other) in self.placed.iter().zip(&self.before) {
            if one.base != other.base || !one.is(other.unit, other.name.of(text), text) {
                return false;
            }
        }
        self.placed.len() == self.before.len()
    }

    /// Returns the index of the present block.
    fn present(&self) -> usize {
        self.used.last().copied().unwrap_or(NOMINAL)
    }
}

impl Literals {
    pub fn new(alloc: Global) -> Self {
        Literals {
            first: 0,
            words: Vec::new(alloc),
            all: Vec::new(alloc),
        }
    }

    /// Returns the address of these words; equal ones are there once.
    pub fn address_of(&mut self, words: &[u16]) -> Result<i64, AllocError> {
        for literal in &self.all {
            if self.words_of(*literal) == words {
                return Ok(self.address_at(*literal));
            }
        }
        let first = self.words.len();
        self.words.extend_from_slice(words)?;
        let literal = Span::new(first, self.words.len());
        self.all.push(literal)?;
        Ok(self.address_at(literal))
    }

    /// Returns the address of a literal.
    fn address_at(&self, literal: Span) -> i64 {
        self.first
            .wrapping_add(i64::try_from(literal.first).unwrap_or(0))
    }

    /// Returns the words of a literal.
    fn words_of(&self, literal: Span) -> &[u16] {
        self.words.get(literal.first..literal.end).unwrap_or(&[])
    }
}

/// Returns the number by which the block of a program with a name is found.
fn number_of_block(unit: usize, name: &[u8]) -> u64 {
    number_of_name(b"", name).wrapping_add(unit as u64)
}

impl Placed {
    /// Returns whether this is the block of a program with a name.
    fn is(&self, unit: usize, name: &[u8], text: &[u8]) -> bool {
        self.unit == unit && self.name.of(text) == name
    }
}

impl Scope {
    /// Keeps the layout of the present program, in the last pass.
    pub fn keep_layout(&mut self) -> Result<(), AllocError> {
        if !self.is_last {
            return Ok(());
        }
        let literals = self.literals_kept()?;
        let blocks = self.blocks_kept()?;
        Ok(self.programs.layouts.push(Layout { literals, blocks })?)
    }

    /// Returns the literals of the present program.
    fn literals_kept(&self) -> Result<Vec<pp_meaning::Literal>, AllocError> {
        let mut literals = Vec::new(self.alloc);
        for literal in &self.literals.all {
            let mut words = Vec::new(self.alloc);
            for word in self.literals.words_of(*literal) {
                words.push(u32::from(*word))?;
            }
            let address = index_of(self.literals.address_at(*literal));
            literals.push(pp_meaning::Literal { address, words })?;
        }
        Ok(literals)
    }

    /// Returns the blocks of the present program that USE has named.
    fn blocks_kept(&self) -> Result<Vec<pp_meaning::Block>, AllocError> {
        let mut blocks = Vec::new(self.alloc);
        for block in self.blocks.all.iter().skip(FIRST_NAMED) {
            let name = Vec::from_slice(self.alloc, self.symbols.text_of(block.name))?;
            let base = index_of(block.base);
            blocks.push(pp_meaning::Block { name, base })?;
        }
        Ok(blocks)
    }

    /// Begins a program, whose blocks are where the pass before has found room for them.
    pub fn begin_unit(&mut self) -> Result<(), AllocError> {
        self.programs.start = None;
        self.output.cells = vec![in self.alloc; Slot::default(); CELLS]?;
        self.blocks.all.clear();
        self.blocks.names.clear();
        self.blocks.used.clear();
        self.block_named(b"")?;
        self.block_named(NAME_OF_LITERALS)?;
        self.literals = Literals::new(self.alloc);
        self.literals.first = self.base_of(NAME_OF_LITERALS);
        self.enter(NOMINAL)
    }

    /// Begins the first program again.
    pub fn restart_blocks(&mut self) -> Result<(), AllocError> {
        self.blocks.unit = 0;
        self.blocks.placed.clear();
        self.blocks.names_placed.clear();
        self.programs.name.clear();
        self.begin_unit()
    }

    /// Ends a program: the literals are after the nominal block, and then come the others as USE named them.
    pub fn end_unit(&mut self, here: &Here) -> Outcome {
        self.use_block(b"")?;
        self.leave_block();
        self.put_literals(here)?;
        self.place_blocks()?;
        self.keep_layout()?;
        let program = program_of(self.alloc, &self.output.cells, self.programs.start)?;
        let name = replace(&mut self.programs.name, Vec::new(self.alloc));
        self.programs.ended.push(Unit { name, program })?;
        self.blocks.unit = self.blocks.unit.saturating_add(1);
        Ok(())
    }

    /// Returns where a block begins, as the pass before has found.
    fn base_of(&self, name: &[u8]) -> i64 {
        let Blocks {
            before,
            names_before,
            unit,
            ..
        } = &self.blocks;
        let found = names_before.find(number_of_block(*unit, name), |at| {
            before
                .get(at)
                .is_some_and(|placed| placed.is(*unit, name, &self.symbols.text))
        });
        let placed = found.and_then(|at| before.get(at));
        placed.map_or(0, |placed| placed.base)
    }

    /// Returns the index of the block with a name, which may be a new one.
    fn block_named(&mut self, name: &[u8]) -> Result<usize, AllocError> {
        let all = &self.blocks.all;
        let found = self.blocks.names.find(number_of_block(0, name), |at| {
            all.get(at)
                .is_some_and(|block| self.symbols.text_of(block.name) == name)
        });
        if let Some(index) = found {
            return Ok(index);
        }
        let base = self.base_of(name);
        let index = self.blocks.all.len();
        self.blocks.names.add(number_of_block(0, name))?;
        self.blocks.all.push(Block {
            name: self.symbols.keep(name)?,
            base,
            origin: base,
            location: base,
            end: base,
        })?;
        Ok(index)
    }

    /// Goes on with a block.
    fn enter(&mut self, index: usize) -> Result<(), AllocError> {
        self.blocks.used.push(index)?;
        if let Some(block) = self.blocks.all.get(index) {
            self.counters.origin = block.origin;
            self.counters.location = block.location;
        }
        self.counters.open = None;
        Ok(())
    }

    /// Keeps the counters of the present block.
    fn leave_block(&mut self) {
        let index = self.blocks.present();
        if let Some(block) = self.blocks.all.get_mut(index) {
            block.origin = self.counters.origin;
            block.location = self.counters.location;
        }
        self.reach();
    }

    /// Keeps that the present block has the cells up to here.
    pub fn reach(&mut self) {
        let index = self.blocks.present();
        if let Some(block) = self.blocks.all.get_mut(index) {
            block.end = block.end.max(self.counters.origin);
        }
    }

    /// Goes on with the block that has a name; * is the one before the present one.
    pub fn use_block(&mut self, name: &[u8]) -> Result<(), AllocError> {
        self.leave_block();
        let index = if matches!(name, b"*") {
            let _ = self.blocks.used.pop();
            self.blocks.used.pop().unwrap_or(NOMINAL)
        } else {
            self.block_named(name)?
        };
        self.enter(index)
    }

    /// Returns the name of the present block, if it is not the nominal one.
    pub fn named_block(&self) -> Option<Span> {
        match self.blocks.present() {
            NOMINAL => None,
            index => Some(self.blocks.all.get(index)?.name),
        }
    }

    /// Puts the literals after the highest address of the nominal block.
    fn put_literals(&mut self, here: &Here) -> Outcome {
        if self.literals.all.is_empty() {
            return Ok(());
        }
        self.use_block(NAME_OF_LITERALS)?;
        let mut line = here.line;
        line.call = None;
        let row = Here {
            index: usize::MAX,
            line,
            text: b"",
            joins: &[],
        };
        let literals = replace(&mut self.literals, Literals::new(self.alloc));
        for literal in &literals.all {
            self.put(&row, literals.words_of(*literal))?;
        }
        self.literals = literals;
        self.leave_block();
        if let Some((key, line)) = self.name_of_literals() {
            let fault = Fault::new(Wording::BehindLiterals).with(Argument::Kept(key));
            let mut message = here.last_message(fault);
            message.line = line;
            self.warn_at(message)?;
        }
        Ok(())
    }

    /// Returns the name, and its line, that EQU gives to the cell behind the program, as to a buffer, where the literals begin.
    fn name_of_literals(&self) -> Option<(Span, u32)> {
        for symbol in &self.symbols.all {
            if let Some(seen) = symbol.seen
                && seen.is_here
                && seen.value == Some(self.literals.first)
            {
                return Some((symbol.key, seen.line));
            }
        }
        None
    }

    /// Finds room for the blocks of a program, one behind another.
    fn place_blocks(&mut self) -> Result<(), AllocError> {
        let unit = self.blocks.unit;
        let mut base: i64 = 0;
        for block in &self.blocks.all {
            let name = block.name;
            let number = number_of_block(unit, self.symbols.text_of(name));
            self.blocks.names_placed.add(number)?;
            self.blocks.placed.push(Placed { unit, name, base })?;
            base = base.wrapping_add(block.end.wrapping_sub(block.base));
        }
        Ok(())
    }

    /// Returns the address of the words that a = names, or what the name after =X, =S or =Y stands for.
    pub fn literal(&mut self, here: &Here, operand: Field) -> Outcome<i64> {
        let text = operand.of(here.text);
        let Some(name) = name_in(text) else {
            let item = Field::new(operand.first.saturating_add(1), operand.end);
            let mut words = Vec::new(self.alloc);
            self.datum(here, item, &mut words)?;
            let address = self.literals.address_of(&words)?;
            if self.is_last {
                let column = operand.first;
                self.output.named.push(Named { column, address })?;
            }
            return Ok(address);
        };
        if !self.symbols.is_named(name) {
            return Err(Stop::of(Wording::OfAnotherProgram, operand));
        }
        let place = Place {
            name: Field::new(operand.end.saturating_sub(name.len()), operand.end),
            column: operand.first,
            is_from_above: false,
        };
        let found = self.symbols.look_up(name, place, self.is_last)?;
        found.value.ok_or(Stop::Follows)
    }
}

/// Returns the name after =X, =S or =Y.
fn name_in(text: &[u8]) -> Option<&[u8]> {
    let [b'=', b'X' | b'S' | b'Y', name @ ..] = text else {
        return None;
    };
    if !name.first()?.is_ascii_uppercase() {
        return None;
    }
    for symbol in name {
        if !is_alphanumeric(*symbol) && !b".$=".contains(symbol) {
            return None;
        }
    }
    Some(name)
}
