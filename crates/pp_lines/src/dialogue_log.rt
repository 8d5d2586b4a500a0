//! What a terminal had read and written at each read, as contracts see it.
ghost use Rattle.pp_lines.specs.Dialogue.{Dialogue, coded_dialogue};
ghost use Rattle.std.specs.Borrow.{ftrue};
ghost use Rattle.std.specs.Coded.{coded_list};
ghost use Rattle.std.specs.Prelude.{◌≡◌, ◌∷◌, [], List};

use crate::log::Log;
use std::marker::Model;
use std::mem::size_of;

/// What had been read and written before each read of a terminal, the latest read first. Only contracts see it. At run time
/// the log has size zero.
#[derive(Drop)]
pub struct DialogueLog {
    pub ghost at_reads: { List Dialogue } by { coded_list coded_dialogue },
}

const _: () = prove!(size_of::<DialogueLog>() == 0);

impl Model for DialogueLog {
    ghost also_owns = { λ _. ftrue };
}

impl DialogueLog {
    /// Returns an empty log.
    pub fn new() -> DialogueLog
        ensures { result.at_reads ≡ [] }
    {
        DialogueLog {}
    }

    /// Returns the log with one more read, before which these bytes had been read and written.
    pub fn with_read(_before: &DialogueLog, _read: &Log, _written: &Log) -> DialogueLog
        ensures { result.at_reads ≡ record { read = _read.now.bytes; written = _written.now.bytes } ∷ _before.now.at_reads }
    {
        DialogueLog {}
    }
}
