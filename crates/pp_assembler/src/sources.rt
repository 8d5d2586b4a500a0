//! Whether what a source makes is of its lines.
ghost use Rattle.std.specs.Prelude.{IfOk, IsTrue, map};
ghost use Rattle.pp_decks.specs.Places.{text_in};
ghost use Rattle.pp_assembler.specs.Sources.{AreOfSource, IsOfLines};

use crate::deck_lines::are_decks_of;
use crate::order::are_in_order;
use crate::parts::part;
use crate::program::{Assembly, Performed};
use crate::row_statements::{are_of_rows, are_of_system_rows};
use pp_decks::{Span, Text, are_cut};
use std::alloc::{AllocError, Global};

/// Returns whether the lines are those of a source and of the texts that it may read, and the rows are of them.
fn are_of_source(
    alloc: Global,
    source: &[u8],
    spans: &[Span],
    texts: &[Text],
    made: &Assembly,
    performed: &Performed,
) -> Result<bool, AllocError>
    ensures { IfOk result (λ right. IsTrue right → AreOfSource (map (text_in source.now) spans.now) texts.now made.now performed.now) }
{
    let lines = &made.lines;
    let words = &made.vocabulary;
    let own = part(&lines.all, lines.source);
    let is_cut = are_cut(alloc, lines, source, spans, 0, own)?;
    let are_decks = are_decks_of(alloc, lines, texts, &made.decks)?;
    let are_rows = are_in_order(lines, words, &made.rows);
    let have_rows = are_of_rows(lines, words, &performed.units, &made.rows);
    let are_of_systems = are_of_system_rows(lines, words, &performed.systems, &made.systems);
    Ok(is_cut && are_decks && are_rows && have_rows && are_of_systems)
}

/// Returns whether what a source makes is of its lines.
///
/// # Errors
/// Memory ran out.
pub fn is_of_lines(
    alloc: Global,
    source: &[u8],
    spans: &[Span],
    texts: &[Text],
    made: &Assembly,
) -> Result<bool, AllocError>
    ensures { IfOk result (λ right. IsTrue right → IsOfLines (map (text_in source.now) spans.now) texts.now made.now) }
{
    match &made.meaning {
        Some(performed) => are_of_source(alloc, source, spans, texts, made, performed),
        None => Ok(true),
    }
}
