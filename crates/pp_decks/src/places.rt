//! The places of a source that complaints are about.
ghost use Rattle.std.specs.Prelude.{◌<◌, All, IfOk, length, map};
ghost use Rattle.pp_decks.specs.Places.{IsOfLine, length_of};

use crate::spans::Span;
use std::alloc::{AllocError, Global};

/// What is wrong with a source, or what is to be known, at a place of it.
#[derive(Drop, PartialEq, Eq, PartialOrd, Ord)]
pub struct Complaint {
    /// From 1.
    pub line: u32,
    /// From 1.
    pub column: u32,
    pub text: Vec<u8>,
}

/// Returns complaints, each at a place that is in a source with these lines: its own, if it is one.
///
/// # Errors
/// Memory ran out.
pub fn placed(
    alloc: Global,
    complaints: &[Complaint],
    spans: &[Span],
) -> Result<Vec<Complaint>, AllocError>
    ensures { IfOk result (λ placed. All (IsOfLine (map length_of spans.now)) placed.items) }
{
    let mut placed = Vec::new(alloc);
    if spans.is_empty() {
        return Ok(placed);
    }
    for complaint in complaints {
        let text = Vec::from_slice(alloc, &complaint.text)?;
        placed.push(within(complaint.line, complaint.column, text, spans))?;
    }
    Ok(placed)
}

/// Returns a complaint at a place that is in a source with these lines: the same place, if it is.
fn within(line: u32, column: u32, text: Vec<u8>, spans: &[Span]) -> Complaint
    requires { 0 < length spans.now }
    ensures { IsOfLine (map length_of spans.now) result }
{
    let index = (line.max(1) as usize - 1).min(spans.len() - 1);
    let span = spans[index];
    let most = span.end.saturating_sub(span.first).saturating_add(1);
    let column = (column.max(1) as usize).min(most);
    Complaint {
        line: (index + 1) as u32,
        column: column as u32,
        text,
    }
}
