//! Which cells are instructions: those that a processor reaches from given entries. And which cells need a name.
ghost use Rattle.std.specs.Prelude.{◌≡◌, ◌<◌, ◌≤◌, ◌/◌, ◌%◌, ◌==◌, ◌||◌, vec_len};

use crate::statement::{Kind, Name};
use pp_arith::relative;
use pp_notation::{Cell, Form, form_of, size_of};
use std::alloc::{AllocError, Global};

/// The number of cells of a memory.
const CELLS: usize = 0o10000;
/// The codes of the jumps after which the flow does not go on, and of the return jump.
const LJM: u8 = 0o01;

const RJM: u8 = 0o02;

const UJN: u8 = 0o03;

/// What a cell is a part of.
#[derive(Clone, Copy, PartialEq, Eq)]
pub enum Role {
    /// Of no instruction that is reached.
    Data,
    /// The only word of an instruction.
    Single,
    /// The first of two words of an instruction.
    First,
    /// The second word of an instruction.
    Second,
}

/// What is known of a cell.
#[derive(Clone, Copy)]
pub struct Mark {
    /// Its word, if there is one.
    pub word: Option<u16>,
    pub role: Role,
    /// What its name is of, if it needs one.
    pub label: Option<Kind>,
    /// Whether it is the exit of a subroutine: the jump before its entry.
    pub is_exit: bool,
}

/// A cell of which nothing is known.
const UNKNOWN: Mark = Mark {
    word: None,
    role: Role::Data,
    label: None,
    is_exit: false,
};

/// The instructions in some cells, and the cells that need a name.
#[derive(Drop)]
pub struct Flow {
    marks: Vec<Mark>,
    /// The addresses of the instructions in the order in which they were reached.
    reached: Vec<u16>,
    /// The addresses from which the flow is still to be followed, the next one last.
    waiting: Vec<u16>,
    ghost all: { vec_len marks ≡ 0o10000 },
}

/// Returns whether the flow ends after the instruction with a code.
fn ends(code: u8) -> bool {
    code == LJM || code == UJN
}

/// Returns whether the code is of a jump that depends on a channel.
fn is_channel_jump(code: u8) -> bool {
    (0o64..=0o67).contains(&code)
}

/// Returns whether the second word of the instruction with a code is the address of an instruction.
fn leads_to_code(code: u8) -> bool {
    code == LJM || code == RJM || is_channel_jump(code)
}

/// Returns whether no name is of the code alone: it passes, as code 00 does.
pub fn is_unnamed(code: u8) -> bool
    ensures { result ≡ (code == 0o24 || code == 0o25) }
{
    code == 0o24 || code == 0o25
}

/// Returns the code and d of an instruction word.
pub fn parts(word: u16) -> (u8, u8)
    ensures code { result.0 ≡ word / 0o100 % 0o100 }
    ensures d { result.1 ≡ word % 0o100 }
{
    ((word >> 6 & 0o77) as u8, (word & 0o77) as u8)
}

/// Returns whether the second word of an instruction names another cell, and is not a 0 to which a cell is added.
pub fn names_cell(address: u16, word: u16, second: u16) -> bool {
    let (code, d) = parts(word);
    match form_of(code) {
        Form::Indexed => second != address && (d == 0 || second != 0),
        Form::Both => second != address,
        _ => false,
    }
}

impl Flow {
    /// Returns the flow in some cells from the entries on.
    ///
    /// # Errors
    /// `AllocError` if memory runs out.
    pub fn new(alloc: Global, cells: &[Cell], entries: &[u16]) -> Result<Flow, AllocError> {
        let mut flow = Flow {
            marks: vec![in alloc; UNKNOWN; CELLS]?,
            reached: Vec::new(alloc),
            waiting: Vec::new(alloc),
        };
        flow.put_words(cells);
        for entry in entries {
            flow.enter(*entry)?;
        }
        // Each instruction leads to two others at most, beside the next one.
        for _ in 0..entries.len().saturating_add(2 * CELLS) {
            flow.follow_next()?;
        }
        flow.name_operands();
        Ok(flow)
    }

    /// Names an entry that is a cell, and lets the flow be followed from it.
    fn enter(&mut self, entry: u16) -> Result<(), AllocError> {
        if self.mark(entry).word.is_some() {
            self.name(entry, Kind::Code);
            self.waiting.push(entry)?;
        }
        Ok(())
    }

    /// Follows the flow from the next address that waits, if one does.
    fn follow_next(&mut self) -> Result<(), AllocError> {
        match self.waiting.pop() {
            Some(address) => self.follow(address),
            None => Ok(()),
        }
    }

    /// Returns what is known of the cell at an address.
    pub fn mark(&self, address: u16) -> Mark {
        let mark = self.marks.get(usize::from(address));
        mark.copied().unwrap_or(UNKNOWN)
    }

    /// Returns whether the cell at an address is the exit of a subroutine.
    pub fn is_exit(&self, address: u16) -> bool {
        let mark = self.mark(address);
        mark.is_exit && mark.role == Role::First
    }

    /// Returns the name of the cell at an address that begins a statement.
    pub fn name_of(&self, address: u16) -> Name
        ensures { result.address ≡ address }
    {
        let kind = if self.is_exit(address) {
            Kind::Exit
        } else {
            self.mark(address).label.unwrap_or(Kind::Code)
        };
        Name { kind, address }
    }

    /// Returns whether the statement that begins at an address has a label: a cell of it has a name.
    pub fn is_head(&self, address: u16) -> bool {
        let mark = self.mark(address);
        mark.role != Role::Second && mark.label.is_some()
            || mark.role == Role::First && self.mark(address.saturating_add(1)).label.is_some()
    }

    /// Puts the words of cells into their marks.
    fn put_words(&mut self, cells: &[Cell]) {
        for cell in cells {
            let mut mark = self.mark(cell.address);
            mark.word = Some(cell.word);
            self.put(cell.address, mark);
        }
    }

    /// Puts what is known of the cell at an address.
    fn put(&mut self, address: u16, mark: Mark) {
        if let Some(place) = self.marks.get_mut(usize::from(address)) {
            *place = mark;
        }
    }

    /// Gives a cell a name of this kind, if it has none.
    fn name(&mut self, address: u16, kind: Kind) {
        let mut mark = self.mark(address);
        mark.label = Some(mark.label.unwrap_or(kind));
        self.put(address, mark);
    }

    /// Makes a cell a part of an instruction.
    fn put_role(&mut self, address: u16, role: Role) {
        let mark = self.mark(address);
        self.put(address, Mark { role, ..mark });
    }

    /// Returns the word of a cell that is there and is of no instruction.
    fn free_word(&self, address: u16) -> Option<u16> {
        let mark = self.mark(address);
        mark.word.filter(|_| mark.role == Role::Data)
    }

    /// Returns the words of the instruction at an address, if there can be one: they are there, and of no other
    /// instruction. A word of zero is none.
    fn words_at(&self, address: u16) -> Option<(u16, Option<u16>)>
        requires { address < 0o10000 }
    {
        let word = self.free_word(address)?;
        let (code, _) = parts(word);
        match size_of(code) {
            _ if word == 0 || is_unnamed(code) => None,
            1 => Some((word, None)),
            _ => Some((word, Some(self.free_word(address + 1)?))),
        }
    }

    /// Takes the instructions from an address on, up to one after which the flow ends.
    fn follow(&mut self, first: u16) -> Result<(), AllocError> {
        let mut address = first;
        for _ in 0..CELLS {
            if usize::from(address) >= CELLS {
                break;
            }
            let Some((word, second)) = self.words_at(address) else {
                break;
            };
            self.reached.push(address)?;
            if second.is_some() {
                self.put_role(address, Role::First);
                self.put_role(address + 1, Role::Second);
            } else {
                self.put_role(address, Role::Single);
            }
            self.add_targets(address, word, second)?;
            if ends(parts(word).0) {
                break;
            }
            address += if second.is_some() { 2 } else { 1 };
        }
        Ok(())
    }

    /// Names the cells to which an instruction leads, beside the next one, and lets the flow be followed from them.
    fn add_targets(
        &mut self,
        address: u16,
        word: u16,
        second: Option<u16>,
    ) -> Result<(), AllocError>
        requires { address < 0o10000 }
    {
        let (code, d) = parts(word);
        if form_of(code) == Form::Target {
            let target = relative(address, d);
            if target != address {
                self.name(target, Kind::Code);
            }
            self.waiting.push(target)?;
        }
        match second {
            Some(second) if code == RJM && d == 0 => self.add_subroutine(second)?,
            Some(second) if is_channel_jump(code) || code == LJM && d == 0 => self
                .waiting
                .push(second)?,
            _ => {}
        }
        Ok(())
    }

    /// Names a subroutine, and lets the flow be followed from its first instruction, and from its exit if that is a long jump.
    fn add_subroutine(&mut self, entry: u16) -> Result<(), AllocError> {
        let mut mark = self.mark(entry);
        mark.label = Some(Kind::Subroutine);
        self.put(entry, mark);
        self.waiting.push((entry & 0o7777) + 1 & 0o7777)?;
        if entry == 0 || self.free_word(entry).is_none() {
            return Ok(());
        }
        let exit = entry - 1;
        if self.free_word(exit) == Some(u16::from(LJM) << 6) {
            let mut mark = self.mark(exit);
            mark.is_exit = true;
            self.put(exit, mark);
            self.waiting.push(exit)?;
        }
        Ok(())
    }

    /// Names the cells that second words name.
    fn name_operands(&mut self) {
        for index in 0..self.reached.len() {
            if let Some(address) = self.reached.get(index).copied() {
                self.name_operand(address);
            }
        }
    }

    /// Names the cell that the second word of the instruction at an address names, if it names one.
    fn name_operand(&mut self, address: u16) {
        let first = self.mark(address);
        let second = self.mark(address.saturating_add(1));
        let (Some(word), Some(operand)) = (first.word, second.word) else {
            return;
        };
        if first.role == Role::First && names_cell(address, word, operand) {
            let is_code = leads_to_code(parts(word).0);
            self.name(operand, if is_code { Kind::Code } else { Kind::Data });
        }
    }
}
