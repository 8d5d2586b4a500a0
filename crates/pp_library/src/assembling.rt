//! The assembler and the disassembler for C.
ghost use Rattle.pp_assembler.specs.Decks.{AreRead};
ghost use Rattle.pp_assembler.specs.Meaning.{IsMeant, IsSaid};
ghost use Rattle.pp_assembler.specs.Sources.{IsOfSource};
ghost use Rattle.pp_library.specs.Assembling.{Assembles, Disassembles, LoadsLines, form_text, text_of};
ghost use Rattle.pp_notation.specs.Cells.{IsProgram, IsStart};
ghost use Rattle.pp_decks.specs.Places.{IsOfLine, line_lengths};
ghost use Rattle.std.specs.Prelude.{◌≡◌, ◌≢◌, ◌↔◌, [], All, AllPairs, Any, IfOk, IsTrue, map};

use crate::status::{NO_MEMORY, REFUSED};
use crate::texts::put_text;
use pp_assembler::{Assembly, Text, assemble, assemble_with};
use pp_disassembly::{disassemble, write_source};
use pp_listing::{
    complaints_text, lines_text, listing_text, names_text, rows_text, units_text, words_text,
};
use pp_loading::load_lines;
use pp_notation::{Cell, are_cells};
use std::alloc::{AllocError, Global};

/// A common deck as C has it: its name, in letters of either case, and its lines. With the word SYSTEM and a blank before its name
/// it is a system text.
#[repr(C)]
#[derive(Clone, Copy)]
pub struct CommonDeck<'a> {
    pub name: &'a [u8],
    pub lines: &'a [u8],
}

/// What is written of a source.
const COMPLAINTS: u32 = 0;

const WORDS: u32 = 1;

const LISTING: u32 = 2;

const LINES: u32 = 3;

const NAMES: u32 = 4;

const ROWS: u32 = 5;

const UNITS: u32 = 6;

/// How many processors there are.
const PROCESSORS: u32 = 10;

/// Returns what is written of a source in a form.
fn text_of(alloc: Global, made: &Assembly, form: u32) -> Result<Vec<u8>, AllocError>
    ensures { IfOk result (λ text. text.items ≡ form_text form made.now) }
{
    match form {
        COMPLAINTS => complaints_text(alloc, made),
        WORDS => words_text(alloc, made),
        LISTING => listing_text(alloc, made),
        LINES => lines_text(alloc, made),
        NAMES => names_text(alloc, made),
        ROWS => rows_text(alloc, made),
        _ => units_text(alloc, made),
    }
}

/// Returns common decks as the assembler has them.
fn texts_of<'a>(alloc: Global, decks: &[CommonDeck<'a>]) -> Result<Vec<Text<'a>>, AllocError>
    ensures { IfOk result (λ texts. texts.items ≡ map text_of decks.now) }
{
    let mut texts = Vec::new(alloc);
    for deck in decks {
        texts.push(Text {
            name: deck.name,
            lines: deck.lines,
        })?;
    }
    Ok(texts)
}

/// Returns what a source with common decks makes.
fn assembled_with(
    alloc: Global,
    source: &[u8],
    decks: &[CommonDeck],
) -> Result<Assembly, AllocError>
    ensures cells { IfOk result (λ made. IsProgram made.program.cells.items) }
    ensures start { IfOk result (λ made. IsStart made.program.start) }
    ensures meaning { IfOk result IsMeant }
    ensures said { IfOk result (IsSaid (line_lengths source.now)) }
    ensures source_lines { IfOk result (IsOfSource source.now (map text_of decks.now)) }
    ensures messages { IfOk result (λ made. All (IsOfLine (line_lengths source.now)) made.messages.items) }
    ensures warnings { IfOk result (λ made. All (IsOfLine (line_lengths source.now)) made.warnings.items) }
    ensures decks { IfOk result (AreRead (map text_of decks.now)) }
{
    let texts = texts_of(alloc, decks)?;
    assemble_with(alloc, source, &texts)
}

/// Returns whether a cell has this address.
fn has_address(cells: &[Cell], address: u16) -> bool
    ensures { IsTrue result ↔ Any (λ cell. cell.address ≡ address) cells.now }
{
    cells.iter().any(|cell| cell.address == address)
}

/// Returns whether each address is there once.
fn have_own_addresses(cells: &[Cell]) -> bool
    ensures { IsTrue result ↔ AllPairs (λ a b. a.address ≢ b.address) cells.now }
{
    for k in 0..cells.len() {
        if has_address(&cells[..k], cells[k].address) {
            return false;
        }
    }
    true
}

/// Assembles a source, and writes into a slice what is wrong with it (`form` 0), its words (1), its listing (2), the numbers of the
/// lines that the words are of (3), its names (4), all that is known of its rows (5) or the words of each of its programs (6).
/// `count` is how many bytes that are, and `messages` how many faults the source has. Returns `DONE`; `ROOM` if the slice has room
/// for fewer bytes, and then it is as it was; `REFUSED` if there is no such form; or `NO_MEMORY`.
#[unsafe(no_mangle)]
pub extern "C" fn pp6600_assemble(
    alloc: Global,
    source: &[u8],
    form: u32,
    into: &mut [u8],
    count: &mut usize,
    messages: &mut usize,
) -> u32
    ensures { Assembles source.now [] form
        (record { into = into.old; count = count.old; messages = messages.old })
        (record { into = into.new; count = count.new; messages = messages.new }) result }
{
    pp6600_assemble_with(alloc, source, &[], form, into, count, messages)
}

/// Assembles a source with common decks and system texts, and writes what `pp6600_assemble` does.
#[unsafe(no_mangle)]
pub extern "C" fn pp6600_assemble_with(
    alloc: Global,
    source: &[u8],
    decks: &[CommonDeck],
    form: u32,
    into: &mut [u8],
    count: &mut usize,
    messages: &mut usize,
) -> u32
    ensures { Assembles source.now decks.now form
        (record { into = into.old; count = count.old; messages = messages.old })
        (record { into = into.new; count = count.new; messages = messages.new }) result }
{
    if form > UNITS {
        return REFUSED;
    }
    let Ok(made) = assembled_with(alloc, source, decks) else {
        return NO_MEMORY;
    };
    let Ok(text) = text_of(alloc, &made, form) else {
        return NO_MEMORY;
    };
    *messages = made.messages.len();
    put_text(text.as_slice(), into, count)
}

/// Assembles a source, and writes into a slice the lines of the console that load its program into a processor. `count` is how many
/// bytes that are, and `messages` how many faults the source has. Returns `DONE`; `ROOM` if the slice has room for fewer bytes, and
/// then nothing is written; `REFUSED` if there is a fault, or no such processor; or `NO_MEMORY`.
#[unsafe(no_mangle)]
pub extern "C" fn pp6600_load_lines(
    alloc: Global,
    source: &[u8],
    processor: u32,
    into: &mut [u8],
    count: &mut usize,
    messages: &mut usize,
) -> u32
    ensures { LoadsLines source.now processor
        (record { into = into.old; count = count.old; messages = messages.old })
        (record { into = into.new; count = count.new; messages = messages.new }) result }
{
    if processor >= PROCESSORS {
        return REFUSED;
    }
    let Ok(made) = assemble(alloc, source) else {
        return NO_MEMORY;
    };
    let faults = made.messages.len();
    if faults > 0 {
        *messages = faults;
        return REFUSED;
    }
    let program = &made.program;
    let Ok(text) = load_lines(alloc, program.cells(), program.start(), processor as u8) else {
        return NO_MEMORY;
    };
    *messages = 0;
    put_text(text.as_slice(), into, count)
}

/// Writes into a slice a source that assembles to cells. What a processor reaches from the entries on is code, and the rest is
/// data. `count` is how many bytes the source has. Returns `DONE`; `ROOM` if the slice has room for fewer bytes, and then nothing
/// is written; `REFUSED` if an address or a word has more than twelve bits; or `NO_MEMORY`.
#[unsafe(no_mangle)]
pub extern "C" fn pp6600_disassemble(
    alloc: Global,
    cells: &[Cell],
    entries: &[u16],
    into: &mut [u8],
    count: &mut usize,
) -> u32
    ensures { Disassembles cells.now
        (record { into = into.old; count = count.old })
        (record { into = into.new; count = count.new }) result }
{
    if !are_cells(cells) || !have_own_addresses(cells) {
        return REFUSED;
    }
    let Ok(statements) = disassemble(alloc, cells, entries) else {
        return NO_MEMORY;
    };
    let Ok(text) = write_source(alloc, statements.as_slice()) else {
        return NO_MEMORY;
    };
    put_text(text.as_slice(), into, count)
}
