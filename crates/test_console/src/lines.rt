//! Tests of the devices, the lines and the words.
use crate::rows::check_rows;
use arrayvec::ArrayVec;
use pp_lines::{
    Counted, Endless, Failed, Feed, IoFault, LineCutter, Log, Sink, Source, Terminal, Tray,
    are_octal, is_ignored, next_line, next_word, push_text, put_all, without_return,
};
use std::alloc::Global;
use std::collections::VecDeque;
use std::io::{self, Error, ErrorKind, Read, Write};

/// A device whose first call fails with an error of this kind. After that it reads the byte `x`, and writes nothing.
#[derive(Drop)]
struct Uneasy {
    kind: ErrorKind,
    has_failed: bool,
}

impl Uneasy {
    /// Returns a device that was not called yet.
    fn new(kind: ErrorKind) -> Self {
        Uneasy {
            kind,
            has_failed: false,
        }
    }

    fn begin(&mut self) -> io::Result<()> {
        if self.has_failed {
            return Ok(());
        }
        self.has_failed = true;
        Err(Error::new(self.kind, "failed"))
    }
}

impl Read for Uneasy {
    fn read(&mut self, buf: &mut [u8]) -> io::Result<usize> {
        self.begin()?;
        if buf.is_empty() {
            return Ok(0);
        }
        buf[0] = b'x';
        Ok(1)
    }
}

impl Write for Uneasy {
    fn write(&mut self, _buf: &[u8]) -> io::Result<usize> {
        self.begin()?;
        Ok(0)
    }

    fn flush(&mut self) -> io::Result<()> {
        Ok(())
    }
}

/// Reads once, and returns whether these bytes are read, or whether the call fails if there are none.
fn reads<R: Source>(source: &mut R, into: &mut [u8], bytes: Option<&[u8]>) -> bool {
    match source.take(into) {
        Ok(count) => bytes == Some(&into[..count]),
        Err(Failed) => bytes.is_none(),
    }
}

/// Writes once, and returns whether this many bytes are taken, or whether the call fails if there is no number.
fn writes(sink: &mut Counted<Uneasy>, text: &[u8], count: Option<usize>) -> bool {
    sink.put(text).ok() == count
}

/// Writes a text, and returns whether all of it is taken.
fn takes_all(tray: &mut Tray, text: &[u8]) -> bool {
    put_all(tray, text).is_ok()
}

#[test]
fn a_counted_device_passes_bytes_on(rt: HostRuntime) {
    let mut queue = Counted::new(VecDeque::new(rt.alloc()));
    assert!(rt; put_all(&mut queue, b"abc").is_ok());
    assert!(rt; queue.device().len() == 3);
    let mut piece = [0; 2];
    assert!(rt; queue.take(&mut piece) == Ok(2));
    assert!(rt; piece == [b'a', b'b']);
    let rows = [
        reads(&mut queue, &mut piece, Some(b"c")),
        reads(&mut queue, &mut piece, Some(b"")),
    ];
    check_rows(&rt, &rows);
    assert!(rt; Source::failures(&queue) == 0);
    drop(queue);
}

fn a_failed_read_is_not_repeated(kind: ErrorKind) -> bool {
    let mut source = Counted::new(Uneasy::new(kind));
    let mut piece = [0; 2];
    reads(&mut source, &mut piece, None)
        && reads(&mut source, &mut piece, Some(b"x"))
        && Source::failures(&source) == 1
}

fn a_failed_write_is_not_repeated(kind: ErrorKind) -> bool {
    let mut sink = Counted::new(Uneasy::new(kind));
    writes(&mut sink, b"", None) && writes(&mut sink, b"", Some(0)) && Sink::failures(&sink) == 1
}

fn a_write_that_takes_nothing_is_a_failure() -> bool {
    let mut sink = Counted::new(Uneasy::new(ErrorKind::Interrupted));
    writes(&mut sink, b"a", None) && writes(&mut sink, b"a", None) && Sink::failures(&sink) == 2
}

/// Errors after which a device may be asked again, and one after which it may not.
#[test]
fn a_failed_call_is_not_repeated(rt: HostRuntime) {
    let rows = [
        a_failed_read_is_not_repeated(ErrorKind::Interrupted),
        a_failed_read_is_not_repeated(ErrorKind::WouldBlock),
        a_failed_read_is_not_repeated(ErrorKind::TimedOut),
        a_failed_read_is_not_repeated(ErrorKind::Other),
        a_failed_write_is_not_repeated(ErrorKind::Interrupted),
        a_failed_write_is_not_repeated(ErrorKind::WouldBlock),
        a_failed_write_is_not_repeated(ErrorKind::TimedOut),
        a_failed_write_is_not_repeated(ErrorKind::Other),
        a_write_that_takes_nothing_is_a_failure(),
    ];
    check_rows(&rt, &rows);
}

fn a_feed_fails_once_and_goes_on() -> bool {
    let mut feed = Feed::failing(b"abc", 2, 2);
    let mut piece = [0; 8];
    reads(&mut feed, &mut piece, Some(b"ab"))
        && reads(&mut feed, &mut piece, None)
        && reads(&mut feed, &mut piece, Some(b"c"))
        && reads(&mut feed, &mut piece, Some(b""))
        && feed.failures() == 1
}

fn an_endless_source_fills_the_room() -> bool {
    let mut endless = Endless {
        byte: b'\n',
        log: Log::new(),
    };
    reads(&mut endless, &mut [0; 8], Some(&[b'\n'; 8]))
}

fn a_tray_fails_once() -> bool {
    let mut tray = Tray::failing(2, 3);
    !takes_all(&mut tray, b"abcde")
        && tray.text() == b"abcd".as_slice()
        && takes_all(&mut tray, b"e")
}

fn a_tray_fails_when_it_is_full() -> bool {
    let mut tray = Tray::new(4096);
    takes_all(&mut tray, &[b'a'; 4095])
        && !takes_all(&mut tray, b"bc")
        && tray.text().len() == 4096
        && Sink::failures(&tray) == 1
}

/// Reads and writes in turn at a terminal, whose second read fails.
fn uses_terminal(terminal: &mut Terminal<Feed, Tray>) -> bool {
    let mut piece = [0; 4];
    terminal.take(&mut piece) == Ok(2)
        && takes_all(terminal.output, b"xyz")
        && terminal.take(&mut piece) == Err(Failed)
        && terminal.take(&mut piece) == Ok(1)
}

fn a_terminal_reads_and_writes() -> bool {
    let mut feed = Feed::failing(b"abc", 2, 2);
    let mut tray = Tray::new(8);
    let is_used = uses_terminal(&mut Terminal::new(&mut feed, &mut tray));
    is_used && tray.text() == b"xyz".as_slice() && Source::failures(&feed) == 1
}

#[test]
fn devices_for_tests(rt: HostRuntime) {
    let rows = [
        a_feed_fails_once_and_goes_on(),
        reads(&mut Feed::new(b"abc", 2), &mut [0; 8], Some(b"ab")),
        an_endless_source_fills_the_room(),
        a_tray_fails_once(),
        a_tray_fails_when_it_is_full(),
        a_terminal_reads_and_writes(),
    ];
    check_rows(&rt, &rows);
}

/// Returns whether a line has this first word, and this rest after it.
fn begins(line: &[u8], word: &[u8], rest: &[u8]) -> bool {
    match next_word(line) {
        Some((first, others)) => first == word && others == rest,
        None => false,
    }
}

/// Words stand between blanks and tabs. Blank lines and notes are ignored.
#[test]
fn words(rt: HostRuntime) {
    let rows = [
        begins(b" \tSET  M\t0 ", b"SET", b"  M\t0 "),
        next_word(b" \t ").is_none(),
        is_ignored(b""),
        is_ignored(b"\t "),
        is_ignored(b" * note"),
        !is_ignored(b"A *"),
        are_octal(b" 17\t0"),
        !are_octal(b"17 8"),
    ];
    check_rows(&rt, &rows);
}

/// Returns whether a text is cut into this line and this rest.
fn cuts(text: &[u8], line: &[u8], rest: &[u8]) -> bool {
    match next_line(text) {
        Some((first, others)) => first == line && others == rest,
        None => false,
    }
}

/// Returns whether this is left of a text without a return at its end.
fn leaves(text: &[u8], rest: &[u8]) -> bool {
    without_return(text) == rest
}

/// A text is cut at its first line feed. One return is dropped.
#[test]
fn lines(rt: HostRuntime) {
    let rows = [
        cuts(b"a\n\nb", b"a", b"\nb"),
        cuts(b"\n", b"", b""),
        next_line(b"ab").is_none(),
        leaves(b"a\r\r", b"a\r"),
        leaves(b"a\rb", b"a\rb"),
        leaves(b"\r", b""),
        leaves(b"", b""),
    ];
    check_rows(&rt, &rows);
}

fn a_cutter_keeps_the_front_of_a_line() -> bool {
    let mut cutter = LineCutter::<3>::new();
    for i in 0..4 {
        cutter.take_byte(b"abcd"[i]);
    }
    let is_kept = cutter.line() == b"abc".as_slice();
    cutter.end_line();
    is_kept && cutter.line().is_empty()
}

fn a_cutter_takes_a_text_up_to_its_room() -> bool {
    let mut cutter = LineCutter::<3>::new();
    cutter.take_byte(b'a');
    cutter.take_text(b"b");
    let is_kept = cutter.line() == b"ab".as_slice();
    cutter.take_text(b"cd");
    is_kept && cutter.line() == b"abc".as_slice()
}

fn a_row_grows() -> bool {
    let mut row = ArrayVec::<u8, 4>::new();
    push_text(&mut row, b"P ");
    push_text(&mut row, b"01");
    row.as_slice() == b"P 01".as_slice()
}

fn is_text(alloc: Global, fault: IoFault, text: &str) -> bool {
    match format!(in alloc; "{fault}") {
        Ok(found) => found.as_str() == text,
        Err(_) => false,
    }
}

#[test]
fn texts(rt: HostRuntime) {
    let alloc = rt.alloc();
    let rows = [
        a_cutter_keeps_the_front_of_a_line(),
        a_cutter_takes_a_text_up_to_its_room(),
        a_row_grows(),
        is_text(alloc, IoFault::ReadFailed, "READ FAILED"),
        is_text(alloc, IoFault::WriteFailed, "WRITE FAILED"),
        is_text(alloc, IoFault::LineLimit, "LINE LIMIT"),
    ];
    check_rows(&rt, &rows);
}
