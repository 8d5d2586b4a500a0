//! What happened to the files of a program, as contracts see it.
ghost use Rattle.pp_host.specs.EventCode.{coded_event};
ghost use Rattle.pp_host.specs.Events.{Closed, Event, file_event};
ghost use Rattle.pp_host.specs.FileEvent.{event_of};
ghost use Rattle.std.specs.Borrow.{ftrue};
ghost use Rattle.std.specs.Coded.{coded_list};
ghost use Rattle.std.specs.Prelude.{◌≡◌, ◌∷◌, ◌++◌, [], List};

use pp_lines::Log;
use pp_trouble::FileKind;
use std::marker::Model;
use std::mem::size_of;

/// What a host logs about a file that the program asked for.
#[derive(Drop)]
pub enum FileEvent {
    /// The file of this path was opened.
    Opened(FileKind),
    /// The file of this path could not be opened.
    Missing(FileKind),
    /// The file that was opened last was closed, after these bytes were read from it, to its end or not.
    Closed,
}

// Beside `pp_lines::Log`, and not one generic log: the logic stores ghost data by a code, and `coded_event` is that of
// an event.
/// What happened to the files of a program so far, in order. Only contracts see it. At run time the log has size zero.
#[derive(Drop)]
pub struct FileLog {
    pub ghost events: { List Event } by { coded_list coded_event },
}

const _: () = prove!(size_of::<FileLog>() == 0);

impl Model for FileLog {
    ghost also_owns = { λ _. ftrue };
}

impl FileLog {
    /// Returns an empty log.
    pub fn new() -> FileLog
        ensures { result.events ≡ [] }
    {
        FileLog {}
    }

    /// Returns the log with one more event, whose path or bytes are those of this log.
    pub fn with(_before: &FileLog, _event: &FileEvent, _bytes: &Log) -> FileLog
        ensures { result.events ≡ _before.now.events ++ event_of _event.now _bytes.now ∷ [] }
    {
        FileLog {}
    }

    /// Returns the log with one more file that was asked for, opened or not.
    pub fn with_file(before: &FileLog, kind: FileKind, path: &str, is_opened: bool) -> FileLog
        ensures { result.events ≡ before.now.events ++ file_event is_opened kind path.now ∷ [] }
    {
        let mut path_log = Log::new();
        path_log.note(path.as_bytes(), path.len());
        let event = match is_opened {
            true => FileEvent::Opened(kind),
            false => FileEvent::Missing(kind),
        };
        FileLog::with(before, &event, &path_log)
    }

    /// Returns the log with the end of the file that was opened last, of which these bytes were read.
    pub fn with_end(before: &FileLog, bytes: &Log) -> FileLog
        ensures { result.events ≡ before.now.events ++ Closed bytes.now.bytes bytes.now.ended ∷ [] }
    {
        FileLog::with(before, &FileEvent::Closed, bytes)
    }
}
