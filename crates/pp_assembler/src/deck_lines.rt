//! Whether the lines of common decks and of system texts are those of their texts.
ghost use Rattle.std.specs.Prelude.{◌≡◌, IfOk, IsTrue, map, not, position};
ghost use Rattle.pp_decks.specs.Places.{text_in};
ghost use Rattle.pp_decks.specs.Cuts.{without_mark};
ghost use Rattle.pp_lines.specs.Lines.{lines as lines_of_text};
ghost use Rattle.pp_notation.specs.Columns.{between};
ghost use Rattle.pp_assembler.specs.DeckLines.{AreDecksOf, HasDeck, IsDeckOf, IsEnd, is_endx, is_space, without_blanks_before};
ghost use Rattle.pp_assembler.specs.DeckLines.{word_of};

use crate::naming::{from_place, up_to_place};
use crate::parts::{head, part};
use pp_decks::{Deck, Decks, Line, Lines, Span, Text, are_cut, cut_lines, is_space, without_mark};
use std::alloc::{AllocError, Global};

/// How many lines of a deck may name it.
const MOST_NAMING: usize = 2;

fn first_symbol(line: &[u8]) -> Option<usize>
    ensures { result ≡ position (λ symbol. not (is_space symbol)) line.now }
{
    line.iter().position(|symbol| !is_space(*symbol))
}

fn first_blank(line: &[u8]) -> Option<usize>
    ensures { result ≡ position is_space line.now }
{
    line.iter().position(|symbol| is_space(*symbol))
}

fn without_blanks_before(line: &[u8]) -> &[u8]
    ensures { result.now ≡ without_blanks_before line.now }
{
    from_place(line, first_symbol(line))
}

/// Returns the first word of a line.
fn word_of(line: &[u8]) -> &[u8]
    ensures { result.now ≡ word_of line.now }
{
    let rest = without_blanks_before(line);
    up_to_place(rest, first_blank(rest))
}

/// Returns whether a line ends a deck.
fn is_endx(alloc: Global, line: &[u8]) -> Result<bool, AllocError>
    ensures { IfOk result (λ right. right ≡ is_endx line.now) }
{
    let word = word_of(line).to_ascii_uppercase(alloc)?;
    Ok(word.as_slice() == b"ENDX".as_slice())
}

/// Returns how many lines a deck has up to ENDX, with those that name it.
fn end_of(alloc: Global, text: &[u8], spans: &[Span]) -> Result<usize, AllocError>
    ensures { IfOk result (λ end. IsEnd (map (text_in text.now) spans.now) end) }
{
    for index in 0..spans.len() {
        if is_endx(alloc, spans[index].of(text))? {
            return Ok(index + 1);
        }
    }
    Ok(spans.len())
}

/// Returns the number of the first line, or if there is none that of the line behind the last one of so many.
fn first_number(own: &[Line], count: usize) -> usize {
    match own.first() {
        Some(line) => line.number as usize,
        None => count.saturating_add(1),
    }
}

/// Returns whether some lines are those of a text up to ENDX, but for at most two before them.
fn is_deck_of(
    alloc: Global,
    lines: &Lines,
    text: &[u8],
    spans: &[Span],
    own: &[Line],
) -> Result<bool, AllocError>
    ensures { IfOk result (λ right. IsTrue right → IsDeckOf lines.now (map (text_in text.now) spans.now) own.now) }
{
    let end = end_of(alloc, text, spans)?;
    let spans = head(spans, end);
    let first = first_number(own, end).saturating_sub(1);
    if first > MOST_NAMING {
        return Ok(false);
    }
    let is_cut = are_cut(alloc, lines, text, spans, first, own)?;
    Ok(is_cut)
}

/// Returns whether the lines of a deck are those of its text.
fn is_deck(alloc: Global, lines: &Lines, text: &Text, deck: &Deck) -> Result<bool, AllocError>
    ensures { IfOk result (λ right. IsTrue right →
        IsDeckOf lines.now (lines_of_text (without_mark text.now.lines.now)) (between lines.now.all.items deck.now.lines.first deck.now.lines.end)) }
{
    let text = without_mark(text.lines);
    let spans = cut_lines(alloc, text)?;
    is_deck_of(alloc, lines, text, &spans, part(&lines.all, deck.lines))
}

/// Returns whether there is a deck for the text at an index, and its lines are those of the text.
fn has_deck(
    alloc: Global,
    lines: &Lines,
    texts: &[Text],
    decks: &Decks,
    at: usize,
) -> Result<bool, AllocError>
    ensures { IfOk result (λ right. IsTrue right → HasDeck lines.now texts.now decks.now.all.items at) }
{
    if at >= texts.len() {
        return Ok(false);
    }
    if at >= decks.all.len() {
        return Ok(false);
    }
    let (text, deck) = (texts[at], &decks.all[at]);
    let is_own = is_deck(alloc, lines, &text, deck)?;
    Ok(is_own)
}

/// Returns whether the lines of decks are those of the texts that were given.
///
/// # Errors
/// Memory ran out.
pub fn are_decks_of(
    alloc: Global,
    lines: &Lines,
    texts: &[Text],
    decks: &Decks,
) -> Result<bool, AllocError>
    ensures { IfOk result (λ right. IsTrue right → AreDecksOf lines.now texts.now decks.now.all.items) }
{
    for at in 0..texts.len() {
        if !has_deck(alloc, lines, texts, decks, at)? {
            return Ok(false);
        }
    }
    Ok(true)
}
