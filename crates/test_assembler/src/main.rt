//! Assembles the sources of standard input, each ended by a line `----`, and writes a checksum of each text that one makes. A text whose
//! first line has `++++` and a name is a common deck, which the sources after it may read.
#![tactic(auto)]

use pp_assembler::{Assembly, Text, assemble_with};
use pp_disassembly::{disassemble, write_source};
use pp_listing::{complaints_text, listing_text, words_text};
use pp_notation::put_decimal;
use sha2::{Digest, Sha256};
use std::alloc::{AllocError, Global};
use std::io;
use std::io::{Read, Write};

/// The line after a source.
const END: &[u8; 5] = b"----\n";
/// What is before the name of a common deck.
const DECK: &[u8; 4] = b"++++";

/// Of how many sources, the first ones, the words are written.
const IN_FULL: u32 = 10;
/// How many digits of a checksum are written.
const DIGITS: usize = 12;

/// Returns a source that assembles to the words of a program. Its code is what a processor reaches from the start.
fn source_text(alloc: Global, made: &Assembly) -> Result<Vec<u8>, AllocError> {
    let cells = made.program.cells();
    let statements = match made.program.start() {
        Some(start) => disassemble(alloc, cells, &[start])?,
        None => disassemble(alloc, cells, &[])?,
    };
    write_source(alloc, statements.as_slice())
}

/// Writes the first digits of the checksum of a text, and what follows them.
fn put_sum(alloc: Global, out: &mut Vec<u8>, text: &[u8], after: &[u8]) -> Result<(), AllocError> {
    let digits = hex::encode(alloc, Sha256::digest(text))?;
    out.extend_from_slice(digits.as_bytes().get(..DIGITS).unwrap_or(b""))?;
    out.extend_from_slice(after)
}

/// How many sources there are, how many nothing is wrong with, and how many of these `pp_meaning` has the meaning of.
#[derive(Clone, Copy)]
struct Counts {
    all: u32,
    right: u32,
    meant: u32,
}

/// Writes the checksums of what a source makes: its faults, words, listing, and the source of its words if it has no fault. Counts it.
fn put(
    alloc: Global,
    out: &mut Vec<u8>,
    source: &[u8],
    decks: &[Text],
    counts: &mut Counts,
) -> Result<(), AllocError> {
    let made = assemble_with(alloc, source, decks)?;
    let words = words_text(alloc, &made)?;
    if counts.all < IN_FULL {
        out.extend_from_slice(words.as_slice())?;
    }
    counts.all = counts.all.saturating_add(1);
    put_sum(alloc, out, complaints_text(alloc, &made)?.as_slice(), b" ")?;
    put_sum(alloc, out, words.as_slice(), b" ")?;
    put_sum(alloc, out, listing_text(alloc, &made)?.as_slice(), b" ")?;
    if made.meaning.is_some() {
        counts.meant = counts.meant.saturating_add(1);
    }
    if made.messages.is_empty() {
        counts.right = counts.right.saturating_add(1);
        return put_sum(alloc, out, source_text(alloc, &made)?.as_slice(), b"\n");
    }
    out.extend_from_slice(b"-\n")
}

/// Returns the common deck that a text is, if it is one.
fn deck_of(text: &[u8]) -> Option<Text<'_>> {
    let named = text.strip_prefix(DECK.as_slice())?;
    let end = named.iter().position(|byte| *byte == b'\n')?;
    Some(Text {
        name: named.get(..end)?,
        lines: named.get(end.saturating_add(1)..)?,
    })
}

/// Writes how many sources there are with a meaning. A change of the assembler must not leave fewer of them.
fn put_counts(alloc: Global, out: &mut Vec<u8>, counts: Counts) -> Result<(), AllocError> {
    put_decimal(alloc, out, counts.meant)?;
    out.extend_from_slice(b" of ")?;
    put_decimal(alloc, out, counts.right)?;
    out.extend_from_slice(b" right sources have a meaning\n")
}

/// Writes the checksums of all sources.
fn put_all(alloc: Global, input: &[u8]) -> Result<Vec<u8>, AllocError> {
    let mut out = Vec::new(alloc);
    let mut decks = Vec::new(alloc);
    let mut counts = Counts {
        all: 0,
        right: 0,
        meant: 0,
    };
    let mut first: usize = 0;
    for at in 0..input.len() {
        let end = at.saturating_add(END.len());
        let is_new = at == first || at > 0 && input.get(at.wrapping_sub(1)) == Some(&b'\n');
        if at >= first && is_new && input.get(at..end) == Some(END.as_slice()) {
            let text = input.get(first..at).unwrap_or(b"");
            match deck_of(text) {
                Some(deck) => decks.push(deck)?,
                None => put(alloc, &mut out, text, &decks, &mut counts)?,
            }
            first = end;
        }
    }
    put_counts(alloc, &mut out, counts)?;
    Ok(out)
}

fn main(rt: HostRuntime) -> io::Result<()> {
    let mut input = Vec::new(rt.alloc());
    rt.stdin().read_to_end(&mut input)?;
    let out = put_all(rt.alloc(), input.as_slice())?;
    rt.stdout().write_all(out.as_slice())
}
