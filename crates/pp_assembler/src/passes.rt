//! A source in two passes: the first one finds what its names stand for, the second one makes its words and reports what is wrong.
ghost use Rattle.std.specs.Prelude.{ℕ, ◌∷◌, [], All, IfOk, IfSome, List, None, map};
ghost use Rattle.std.specs.List.{AllByRecursion};
ghost use Rattle.pp_notation.specs.Cells.{IsProgram, IsStart};
ghost use Rattle.pp_assembler.specs.Decks.{AreRead, IsRead, IsReading};
ghost use Rattle.pp_assembler.specs.Meaning.{AreMeant, AreMessages, IsFound, IsMeant, IsNothingWithout, IsSaid};
ghost use Rattle.pp_assembler.specs.Sources.{IsOfLines, IsOfSource};
ghost use Rattle.pp_decks.specs.Decks.{AreOf};
ghost use Rattle.pp_decks.specs.declared.decks.Text.{Text as DeckText};
ghost use Rattle.pp_decks.specs.declared.lines.Lines.{Lines as AllLines};
ghost use Rattle.pp_statements.specs.declared.scope.Row.{Row};
ghost use Rattle.pp_statements.specs.declared.scope.SystemRows.{SystemRows};
ghost use Rattle.pp_decks.specs.Places.{IsOfLine, length_of, line_lengths, text_in};

use crate::meaning::{Found, encode_performed};
use crate::program::{Assembly, Performed};
use crate::readings::{are_read, are_readings};
use crate::sources::is_of_lines;
use pp_complaints::{Known, complaints};
use pp_decks::{Complaint, Decks, Lines, Span, Text, cut_lines, placed, read_lines};
use pp_expansion::{Ending, Pass, Reading};
use pp_notation::Program;
use pp_source::{Fault, Message, Symbols, Vocabulary, Wording};
use pp_statements::{Blocks, Scope, Unit};
use std::alloc::{AllocError, Global};
use std::mem::replace;

/// How many passes there are, until each block is where the pass before has put it.
const MOST_PASSES: usize = 10;

/// Returns what a source makes that reads no common decks.
///
/// # Errors
/// Memory ran out.
pub fn assemble(alloc: Global, source: &[u8]) -> Result<Assembly, AllocError>
    ensures cells { IfOk result (λ made. IsProgram made.program.cells.items) }
    ensures start { IfOk result (λ made. IsStart made.program.start) }
    ensures messages { IfOk result (λ made. All (IsOfLine (line_lengths source.now)) made.messages.items) }
    ensures warnings { IfOk result (λ made. All (IsOfLine (line_lengths source.now)) made.warnings.items) }
    // The words are what the statements mean, and without a meaning there is a message.
    ensures meaning { IfOk result IsMeant }
    ensures said { IfOk result (IsSaid (line_lengths source.now)) }
    // What has a meaning is of the lines of the source.
    ensures source { IfOk result (IsOfSource source.now []) }
    // No deck is read.
    ensures decks { IfOk result (AreRead []) }
{
    assemble_with(alloc, source, &[])
}

/// Returns what a source makes that may read common decks, by XTEXT or *CALL. Of two with one name the first one counts. A message
/// about a line of a deck is about the line that reads it.
///
/// # Errors
/// Memory ran out.
pub fn assemble_with(alloc: Global, source: &[u8], texts: &[Text]) -> Result<Assembly, AllocError>
    ensures cells { IfOk result (λ made. IsProgram made.program.cells.items) }
    ensures start { IfOk result (λ made. IsStart made.program.start) }
    ensures messages { IfOk result (λ made. All (IsOfLine (line_lengths source.now)) made.messages.items) }
    ensures warnings { IfOk result (λ made. All (IsOfLine (line_lengths source.now)) made.warnings.items) }
    // The words are what the statements mean, and without a meaning there is a message.
    ensures meaning { IfOk result IsMeant }
    ensures said { IfOk result (IsSaid (line_lengths source.now)) }
    // What has a meaning is of the lines of the source, and decks have those of their texts.
    ensures source { IfOk result (IsOfSource source.now texts.now) }
    // Each line that reads a deck has taken the lines of the first one with its name.
    ensures decks { IfOk result (AreRead texts.now) }
{
    let spans = cut_lines(alloc, source)?;
    let (mut lines, decks) = read_lines(alloc, source, &spans, texts)?;
    let mut pass = last_pass(alloc, &mut lines, &decks)?;
    let readings = readings_of(alloc, &lines, &decks, &mut pass)?;
    let found = encode_performed(alloc, &lines, &pass)?;
    if let Found::Refused(message) = &found {
        pass.scope.output.messages.push(*message)?;
    }
    let Pass {
        scope,
        vocabulary,
        ..
    } = pass;
    let read = Read {
        lines,
        decks,
        readings,
        vocabulary,
    };
    assembly_of(alloc, source, texts, read, scope, found, &spans)
}

/// What is known of the lines of a source.
#[derive(Drop)]
struct Read {
    lines: Lines,
    decks: Decks,
    readings: Vec<Reading>,
    vocabulary: Vocabulary,
}

/// Returns what a pass has taken from common decks. If that is not their lines, or a line that reads one has taken none, a message
/// says so, and there are no rows.
fn readings_of(
    alloc: Global,
    lines: &Lines,
    decks: &Decks,
    pass: &mut Pass,
) -> Result<Vec<Reading>, AllocError>
    ensures taken { IfOk result (λ readings. AllByRecursion (IsReading lines.now decks.now.all.items) readings.items) }
    ensures read { IfOk result (λ readings.
        AllByRecursion (IsRead lines.now decks.now.all.items pass.new.vocabulary readings.items) pass.new.scope.output.rows.items) }
{
    let readings = replace(&mut pass.readings, Vec::new(alloc));
    if are_readings(lines, decks, &readings)
        && are_read(
            lines,
            decks,
            &pass.vocabulary,
            &readings,
            &pass.scope.output.rows,
        )
    {
        return Ok(readings);
    }
    if pass.scope.output.messages.is_empty() {
        let message = Message::new(1, 1, usize::MAX, Fault::new(Wording::NotEncoded));
        pass.scope.output.messages.push(message)?;
    }
    pass.scope.output.rows = Vec::new(alloc);
    Ok(Vec::new(alloc))
}

/// Returns the last pass over lines.
fn last_pass(alloc: Global, lines: &mut Lines, decks: &Decks) -> Result<Pass, AllocError> {
    let mut pass = Pass::new(alloc, Symbols::new(alloc), Blocks::new(alloc), false)?;
    for number in 0..MOST_PASSES {
        if number > 0 {
            pass = next_pass(alloc, pass)?;
        }
        match pass.run(lines, decks) {
            Ok(()) => {
                if number > 0 && is_done(&mut pass) {
                    return Ok(pass);
                }
            }
            Err(Ending::NoMemory) => return Err(AllocError),
            Err(Ending::At(message)) => {
                pass.scope.output.messages.clear();
                pass.scope.output.messages.push(message)?;
                return Ok(pass);
            }
        }
    }
    let message = Message::new(1, 1, usize::MAX, Fault::new(Wording::Unsettled));
    pass.scope.output.messages.push(message)?;
    Ok(pass)
}

/// Returns whether a pass has found what there is to find. A name that only lines have that are left out is no fault of its own. But
/// an IF may ask for a name of its own lines, and leave them out for that: if there is no message, they are forgotten, and the next
/// pass says what is wrong.
fn is_done(pass: &mut Pass) -> bool {
    let scope = &mut pass.scope;
    let is_silent = scope.output.messages.is_empty() && scope.symbols.forget_passed_over();
    !is_silent && scope.has_settled()
}

/// Returns the pass after one, which knows what this one has found.
fn next_pass(alloc: Global, pass: Pass) -> Result<Pass, AllocError> {
    let Scope {
        mut symbols,
        blocks,
        ..
    } = pass.scope;
    symbols.begin_pass();
    Pass::new(alloc, symbols, blocks.next(alloc), true)
}

/// Returns what a pass has made, if it is of the lines of the source.
fn assembly_of(
    alloc: Global,
    source: &[u8],
    texts: &[Text],
    read: Read,
    scope: Scope,
    found: Found,
    spans: &[Span],
) -> Result<Assembly, AllocError>
    ensures messages { IfOk result (λ made. All (IsOfLine (map length_of spans.now)) made.messages.items) }
    ensures warnings { IfOk result (λ made. All (IsOfLine (map length_of spans.now)) made.warnings.items) }
    ensures meaning { IsFound read.lines scope.output.rows.items scope.output.systems.items found → IfOk result IsMeant }
    ensures said { IfOk result (IsSaid (map length_of spans.now)) }
    ensures source { IfOk result (IsOfLines (map (text_in source.now) spans.now) texts.now) }
    ensures decks { (texts : List DeckText) → AreOf texts read.decks.all.items →
        AllByRecursion (IsReading read.lines read.decks.all.items) read.readings.items →
        AllByRecursion (IsRead read.lines read.decks.all.items read.vocabulary read.readings.items) scope.output.rows.items →
        IfOk result (AreRead texts) }
{
    let wrong = Vec::from_slice(alloc, &scope.output.messages)?;
    let noticed = Vec::from_slice(alloc, &scope.output.warnings)?;
    let made = without_messages(alloc, read, scope, found);
    let right = checked(alloc, source, spans, texts, made)?;
    with_messages(alloc, right, &wrong, &noticed, spans)
}

/// Returns what a source has made, if it is of its lines. If it is not, it is refused, and has no words.
fn checked(
    alloc: Global,
    source: &[u8],
    spans: &[Span],
    texts: &[Text],
    made: Assembly,
) -> Result<Assembly, AllocError>
    ensures source { IfOk result (IsOfLines (map (text_in source.now) spans.now) texts.now) }
    ensures meaning { IsMeant made → IfOk result IsMeant }
    ensures decks { (texts : List DeckText) → AreRead texts made → IfOk result (AreRead texts) }
{
    if is_of_lines(alloc, source, spans, texts, &made)? {
        return Ok(made);
    }
    Ok(Assembly {
        program: Program::new(Vec::new(alloc), None),
        meaning: None,
        others: Vec::new(alloc),
        ..made
    })
}

/// Returns what a source has made, with its messages.
fn with_messages(
    alloc: Global,
    made: Assembly,
    wrong: &[Message],
    noticed: &[Message],
    spans: &[Span],
) -> Result<Assembly, AllocError>
    ensures messages { IfOk result (λ made. All (IsOfLine (map length_of spans.now)) made.messages.items) }
    ensures warnings { IfOk result (λ made. All (IsOfLine (map length_of spans.now)) made.warnings.items) }
    ensures meaning { IsMeant made → IfOk result IsMeant }
    ensures said { IfOk result (IsSaid (map length_of spans.now)) }
    ensures source { (own : List (List ℕ)) (texts : List DeckText) → IsOfLines own texts made → IfOk result (IsOfLines own texts) }
    ensures decks { (texts : List DeckText) → AreRead texts made → IfOk result (AreRead texts) }
{
    let messages = messages_of(alloc, &made, wrong, spans)?;
    let warnings = complaints_at(alloc, &made, noticed, spans)?;
    Ok(Assembly {
        messages,
        warnings,
        ..made
    })
}

/// Returns what a pass has made, without its messages.
fn without_messages(alloc: Global, read: Read, scope: Scope, found: Found) -> Assembly
    ensures decks { (texts : List DeckText) → AreOf texts read.decks.all.items →
        AllByRecursion (IsReading read.lines read.decks.all.items) read.readings.items →
        AllByRecursion (IsRead read.lines read.decks.all.items read.vocabulary read.readings.items) scope.output.rows.items →
        AreRead texts result }
    ensures meaning { IsFound read.lines scope.output.rows.items scope.output.systems.items found → IsMeant result }
{
    let Scope {
        symbols,
        output,
        ..
    } = scope;
    let Made {
        program,
        others,
        words,
        meaning,
    } = made_by(alloc, found, output.words);
    Assembly {
        program,
        meaning,
        others,
        lines: read.lines,
        decks: read.decks,
        readings: read.readings,
        symbols,
        vocabulary: read.vocabulary,
        words,
        rows: output.rows,
        systems: output.systems,
        messages: Vec::new(alloc),
        warnings: Vec::new(alloc),
    }
}

/// Returns what is wrong with a source: nothing, if its statements have a meaning.
fn messages_of(
    alloc: Global,
    made: &Assembly,
    messages: &[Message],
    spans: &[Span],
) -> Result<Vec<Complaint>, AllocError>
    ensures places { IfOk result (λ wrong. All (IsOfLine (map length_of spans.now)) wrong.items) }
    ensures said { IfOk result (λ wrong. AreMessages made.now.meaning (map length_of spans.now) wrong.items) }
{
    match made.meaning {
        Some(_) => Ok(Vec::new(alloc)),
        None => wrong_at(alloc, made, messages, spans),
    }
}

/// Returns what is wrong with a source that has no meaning: if no message says it, a message asks for a report.
fn wrong_at(
    alloc: Global,
    made: &Assembly,
    messages: &[Message],
    spans: &[Span],
) -> Result<Vec<Complaint>, AllocError>
    ensures places { IfOk result (λ wrong. All (IsOfLine (map length_of spans.now)) wrong.items) }
    ensures some { IfOk result (λ wrong. AreMessages None (map length_of spans.now) wrong.items) }
{
    let mut wrong = complaints_at(alloc, made, messages, spans)?;
    if wrong.is_empty() && !spans.is_empty() {
        let text = Vec::from_slice(alloc, Wording::NotEncoded.text().as_bytes())?;
        wrong.push(Complaint {
            line: 1,
            column: 1,
            text,
        })?;
    }
    Ok(wrong)
}

/// Returns what messages say, each at its place in a source with these lines.
fn complaints_at(
    alloc: Global,
    made: &Assembly,
    messages: &[Message],
    spans: &[Span],
) -> Result<Vec<Complaint>, AllocError>
    ensures { IfOk result (λ placed. All (IsOfLine (map length_of spans.now)) placed.items) }
{
    placed(alloc, &complaints(alloc, known_of(made), messages)?, spans)
}

/// Returns what messages may name.
fn known_of(made: &Assembly) -> Known<'_> {
    Known {
        lines: &made.lines,
        symbols: &made.symbols,
        vocabulary: &made.vocabulary,
    }
}

/// What a source makes: its first program and the others, their words, and the statements that these are of.
#[derive(Drop)]
struct Made {
    program: Program,
    others: Vec<Unit>,
    words: Vec<u16>,
    meaning: Option<Performed>,
}

/// Returns what the statements mean, if that has been found. Else there is no program, and the words are those of the rows of a source with
/// which something is wrong.
fn made_by(alloc: Global, found: Found, words: Vec<u16>) -> Made
    ensures meaning { (lines : AllLines) (rows : List Row) (systems : List SystemRows) →
        IsFound lines rows systems found → IfSome result.meaning (AreMeant lines rows systems
        (result.program ∷ map (λ unit. unit.program) result.others.items) result.words.items) }
    ensures nothing { IsNothingWithout result.meaning result.program result.others.items }
{
    match found {
        Found::Words(made) => Made {
            program: made.program,
            others: made.others,
            words: made.words,
            meaning: Some(made.performed),
        },
        _ => Made {
            program: Program::new(Vec::new(alloc), None),
            others: Vec::new(alloc),
            words,
            meaning: None,
        },
    }
}
