//! The texts of messages, in the order of their places.

use crate::wording::{Known, message_text};
use pp_decks::Complaint;
use pp_source::Message;
use std::alloc::{AllocError, Global};

/// Returns messages with their texts, in the order of their places, each once.
pub fn complaints(
    alloc: Global,
    known: Known,
    messages: &[Message],
) -> Result<Vec<Complaint>, AllocError> {
    let mut found = Vec::new(alloc);
    for message in messages {
        found.push(Complaint {
            line: message.line,
            column: message.column,
            text: message_text(alloc, known, message)?,
        })?;
    }
    found.sort()?;
    unique(alloc, found)
}

/// Returns sorted complaints, each once.
fn unique(alloc: Global, sorted: Vec<Complaint>) -> Result<Vec<Complaint>, AllocError> {
    let mut unique: Vec<Complaint> = Vec::new(alloc);
    for complaint in sorted {
        if unique.last() != Some(&complaint) {
            unique.push(complaint)?;
        }
    }
    Ok(unique)
}
