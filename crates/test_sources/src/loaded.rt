//! The texts of the lines.
use pp_loading::load_lines;
use pp_notation::{Cell, are_cells};
use std::process::Abort;

/// Returns a cell that was made by line 1.
fn cell(address: u16, word: u16) -> Cell {
    Cell {
        address,
        word,
        line: 1,
    }
}

/// Checks the lines that load cells into processor 11, octal.
fn check(rt: &(impl Abort + AllocGlobal), cells: &[Cell], start: Option<u16>, lines: &[u8]) {
    assert!(rt; are_cells(cells));
    assert!(rt; start.is_none_or(|address| address < 0o10000));
    let text = load_lines(rt.alloc(), cells, start, 0o11);
    assert!(rt; text.is_ok_and(|text| text.as_slice() == lines));
}

#[test]
fn rows_end_at_eight_words_and_where_an_address_is_left_out(rt: HostRuntime) {
    let mut cells = Vec::new(rt.alloc());
    for i in 0..10 {
        assert!(rt; cells.push(cell(0o100 + i, i + 1)).is_ok());
    }
    assert!(rt; cells.push(cell(0o113, 0)).is_ok());
    assert!(rt; cells.push(cell(0o7777, 0o7777)).is_ok());
    let lines = b"SET M 11 100 1 2 3 4 5 6 7 10
SET M 11 110 11 12
SET M 11 113 0
SET M 11 7777 7777
SET P 11 100
";
    check(&rt, &cells, Some(0o100), lines.as_slice());
}

#[test]
fn without_a_start_p_is_not_set(rt: HostRuntime) {
    check(&rt, &[cell(0, 0o7112)], None, b"SET M 11 0 7112\n");
    check(&rt, &[], None, b"");
}
