//! Worked steps of the printer and its channel.

use crate::parts::channel;
use pp_machine::ChannelState::{Empty, Full, Function, Inactive};
use pp_machine::PrinterMode::{Idle, Printing, Sent, Status};
use pp_machine::PrinterRecord::{
    Called, LineEnded, Nothing, StatusEnded, StatusSent, WordDropped, WordPrinted,
};
use pp_machine::{Channel, ChannelState, Printer, PrinterMode, PrinterRecord, Unaligned16};
use std::process::Abort;
use std::test::Fail;

/// Returns the printer's length, column and mode.
fn numbers(printer: &Printer) -> (u32, u32, PrinterMode) {
    (printer.length(), printer.column(), printer.mode())
}

/// A step: the channel before it, the undo record, and afterwards the channel, the printer's length, column and mode, and
/// the end of its paper.
type Step = (
    (ChannelState, u16),
    PrinterRecord,
    (ChannelState, u16),
    (u32, u32, PrinterMode),
    &'static [u8],
);

/// Returns whether the two symbols after the paper's end, if there is room for them, are 0.
fn is_blank_past_the_end(printer: &Printer) -> bool {
    let length = printer.length();
    length >= 65535 || (printer.symbol(length) == 0 && printer.symbol(length + 1) == 0)
}

/// Makes a step and undoes it. Returns whether the record is the expected one, and all is as before.
fn is_undone(printer: &mut Printer, line: &mut Channel, record: PrinterRecord) -> bool {
    let (before, earlier) = (*line, numbers(printer));
    let back = printer.step(line);
    printer.undo(back, line);
    let is_as_before = *line == before && numbers(printer) == earlier;
    back == record && is_as_before && is_blank_past_the_end(printer)
}

/// Makes a step, undoes it and makes it again. Returns whether its row is right.
fn is_right(printer: &mut Printer, step: &Step) -> bool {
    let ((state, word), record, after, left, paper) = *step;
    let mut line = channel(state, word & 0o7777);
    let is_undone = is_undone(printer, &mut line, record);
    let is_made = printer.step(&mut line) == record && (line.state, line.word) == after;
    is_undone && is_made && numbers(printer) == left && printer.paper().ends_with(paper)
}

fn follow(rt: &impl Abort, printer: &mut Printer, steps: &[Step]) {
    for i in 0..steps.len() {
        assert!(rt; is_right(printer, &steps[i]), "row {i}");
    }
}

fn printed() -> [Step; 3] {
    [
        (
            (Function, 1),
            Called { mode: Idle },
            (Inactive, 1),
            (0, 0, Printing),
            &[],
        ),
        (
            (Full, 0o0102),
            WordPrinted {
                length: Unaligned16::new(0),
                column: 0,
            },
            (Empty, 0o0102),
            (2, 2, Printing),
            &[0o01, 0o02],
        ),
        (
            (Function, 3),
            LineEnded {
                length: Unaligned16::new(2),
                column: 2,
            },
            (Inactive, 3),
            (3, 0, Printing),
            &[0o01, 0o02, 0o100],
        ),
    ]
}

#[test]
fn prints_words_and_line_ends(rt: HostRuntime) -> Result<(), Fail> {
    let mut printer = Printer::new(rt.alloc())?;
    follow(&rt, &mut printer, &printed());
    drop(printer);
    Ok(())
}

fn dropped() -> [Step; 1] {
    [(
        (Full, 0o0304),
        WordDropped {
            length: Unaligned16::new(136),
            column: 136,
        },
        (Empty, 0o0304),
        (136, 136, Printing),
        &[0o01, 0o02],
    )]
}

/// Prints a line of 136 (decimal) symbols.
fn print_line(printer: &mut Printer) {
    let _ = printer.step(&mut channel(Function, 1));
    for _word in 0..68 {
        let _ = printer.step(&mut channel(Full, 0o0102));
    }
}

#[test]
fn drops_what_is_past_the_line(rt: HostRuntime) -> Result<(), Fail> {
    let mut printer = Printer::new(rt.alloc())?;
    print_line(&mut printer);
    follow(&rt, &mut printer, &dropped());
    drop(printer);
    Ok(())
}

/// The paper has room for one more symbol, which is too few for a word.
fn almost_full_paper() -> [Step; 5] {
    [
        (
            (Function, 1),
            Called { mode: Idle },
            (Inactive, 1),
            (65535, 0, Printing),
            &[0o100],
        ),
        (
            (Full, 0o0102),
            Nothing,
            (Full, 0o0102),
            (65535, 0, Printing),
            &[0o100],
        ),
        (
            (Function, 2),
            Called { mode: Printing },
            (Inactive, 2),
            (65535, 0, Status),
            &[0o100],
        ),
        (
            (Empty, 2),
            StatusSent {
                word: Unaligned16::new(2),
            },
            (Full, 1),
            (65535, 0, Sent),
            &[0o100],
        ),
        (
            (Empty, 1),
            StatusEnded,
            (Inactive, 1),
            (65535, 0, Idle),
            &[0o100],
        ),
    ]
}

/// The last symbol is a line end.
fn full_paper() -> [Step; 2] {
    [
        (
            (Function, 3),
            LineEnded {
                length: Unaligned16::new(0xffff),
                column: 0,
            },
            (Inactive, 3),
            (65536, 0, Idle),
            &[0o100],
        ),
        (
            (Function, 3),
            Nothing,
            (Function, 3),
            (65536, 0, Idle),
            &[0o100],
        ),
    ]
}

fn end_lines(printer: &mut Printer, lines: u32) {
    for _line in 0..lines {
        let _ = printer.step(&mut channel(Function, 3));
    }
}

#[test]
fn tells_whether_the_paper_is_full(rt: HostRuntime) -> Result<(), Fail> {
    let mut printer = Printer::new(rt.alloc())?;
    end_lines(&mut printer, 65535);
    follow(&rt, &mut printer, &almost_full_paper());
    follow(&rt, &mut printer, &full_paper());
    drop(printer);
    Ok(())
}

/// Checks that a record is small enough to be passed by value.
#[test]
fn record_takes_few_bytes(rt: HostRuntime) {
    assert!(rt; size_of::<PrinterRecord>() <= 4);
}
