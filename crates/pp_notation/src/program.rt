//! The cells of a program.
ghost use Rattle.std.specs.Prelude.{◌≡◌};
ghost use Rattle.pp_notation.specs.Cells.{IsProgram, IsStart};

/// A word that a source puts into a cell of the memory.
#[repr(C)]
#[derive(Clone, Copy, Debug, PartialEq, Eq)]
pub struct Cell {
    /// Up to octal 7777.
    pub address: u16,
    /// Twelve bits.
    pub word: u16,
    /// The line of the source, from 1; 0 if the word is of no source.
    pub line: u32,
}

/// What a source makes: its cells, in the order of their addresses and each address once, and where a processor begins.
#[derive(Drop)]
pub struct Program {
    pub cells: Vec<Cell>,
    /// The operand of END, up to octal 7777.
    pub start: Option<u16>,
    ghost program: { IsProgram cells.items },
    ghost in_range: { IsStart start },
}

impl Program {
    /// Returns a program of these cells alone.
    pub fn new(cells: Vec<Cell>, start: Option<u16>) -> Self
        requires program { IsProgram cells.items }
        requires start { IsStart start }
        ensures cells { result.cells ≡ cells }
        ensures start { result.start ≡ start }
    {
        Program { cells, start }
    }

    /// Returns the cells, in the order of their addresses.
    pub fn cells(&self) -> &[Cell]
        ensures same { result.now ≡ self.now.cells.items }
        ensures program { IsProgram result.now }
    {
        &self.cells
    }

    /// Returns the address at which a processor begins, if END names one.
    pub fn start(&self) -> Option<u16>
        ensures same { result ≡ self.now.start }
        ensures in_range { IsStart result }
    {
        self.start
    }
}
