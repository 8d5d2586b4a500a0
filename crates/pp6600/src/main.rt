//! The program: hands its words, the files and the standard streams of the system to `pp_program::run`.
#![tactic(auto)]

ghost use Rattle.std.specs.Prelude.{None};

use pp_lines::{Counted, Source, Terminal};
use pp_program::{FileKind, FileLog, FileSystem, Named, System, run, words_of};
use std::env;
use std::fs::File;
use std::process::ExitCode;

/// The files of the system that the program runs in.
#[derive(Drop)]
struct SystemFiles<'a> {
    rt: &'a HostRuntime,
    log: FileLog,
}

impl FileSystem for SystemFiles<'_> {
    type File = Counted<File>;

    ghost known_files = { λ _ _. None };

    ghost asked = { λ files. files.log.events };

    // The kit's `File` has no ghost of its path or its bytes, so no clause ties the two bodies below to the system. Seen by
    // reading: `open` opens the path that it logs, once, and `close` drops the file whose bytes it logs.
    fn open(&mut self, kind: FileKind, path: &str) -> Option<Counted<File>> {
        let file = File::open(self.rt, path).ok().map(Counted::new);
        self.log = FileLog::with_file(&self.log, kind, path, file.is_some());
        file
    }

    fn close(&mut self, file: Counted<File>) {
        self.log = FileLog::with_end(&self.log, file.log());
    }
}

fn main(rt: HostRuntime) -> ExitCode {
    let environment = Named { environment: &rt };
    let words = words_of(rt.alloc(), env::args(&(environment, rt.alloc())));
    let files = SystemFiles {
        rt: &rt,
        log: FileLog::new(),
    };
    let (mut input, mut output) = (Counted::new(rt.stdin()), Counted::new(rt.stdout()));
    ExitCode::from(run(
        rt.alloc(),
        &mut System::new(words, files),
        &mut Terminal::new(&mut input, &mut output),
        &mut Counted::new(rt.stderr()),
    ))
}
