//! Worked examples of sums, shifts, addresses and octal texts.

use arrayvec::ArrayVec;
use pp_arith::*;
use std::process::Abort;

/// Checks that each row of a test is so.
fn check_rows(rt: &impl Abort, rows: &[bool]) {
    for i in 0..rows.len() {
        assert!(rt; rows[i], "row {i}");
    }
}

#[test]
fn adds_and_subtracts_ones_complement(rt: HostRuntime) {
    let rows = [
        add18(0o777776, 1) == 0,
        add18(0o777777, 0) == 0,
        add18(0o777777, 0o777777) == 0o777777,
        sub18(0, 1) == 0o777776,
        sub18(0, 0o777777) == 0,
        sub18(0o777777, 0o777777) == 0,
        sub18(0o777777, 0) == 0o777777,
    ];
    check_rows(&rt, &rows);
}

#[test]
fn shifts_left_in_a_circle_and_right_end_off(rt: HostRuntime) {
    let rows = [
        shift18(0o400000, 0o01) == 0o000001,
        shift18(0o777777, 0o76) == 0o377777,
        shift18(0o123456, 0o77) == 0o123456,
        shift18(0o123456, 0o22) == 0o123456,
        shift18(0o777777, 0o40) == 0,
    ];
    check_rows(&rt, &rows);
}

#[test]
fn wraps_addresses(rt: HostRuntime) {
    let rows = [
        index12(0o7777, 0) == 0o7777,
        index12(0o7777, 1) == 1,
        relative(0o0100, 0o05) == 0o0105,
        relative(0o0100, 0o72) == 0o0073,
        relative(0, 0o76) == 0o7777,
        relative(0o7777, 0o01) == 0,
    ];
    check_rows(&rt, &rows);
}

#[test]
fn takes_words_apart_and_joins_them(rt: HostRuntime) {
    let parts = [0o0123, 0o4567, 0o0123, 0o4567, 0o0123];
    assert!(rt; split60(0o01234567012345670123) == parts);
    assert!(rt; join60(&parts) == 0o01234567012345670123);
}

/// Words, the greatest number that each may be, and what is read.
const READ: [(&[u8], u64, Result<u64, OctalFault>); 8] = [
    (b"", 7, Err(OctalFault::NotOctal)),
    (b"8", 7, Err(OctalFault::NotOctal)),
    (b"778", 7, Err(OctalFault::NotOctal)),
    (b"0007", 7, Ok(7)),
    (b"00010", 7, Err(OctalFault::TooLarge)),
    (&[b'7'; 100], 0, Err(OctalFault::TooLarge)),
    (&[b'7'; 100], 7, Err(OctalFault::TooLarge)),
    (&[b'7'; 100], u64::MAX, Err(OctalFault::TooLarge)),
];

#[test]
fn reads_octal_words(rt: HostRuntime) {
    for i in 0..READ.len() {
        let (word, max, number) = READ[i];
        assert!(rt; read_octal(word, max) == number, "row {i}");
    }
}

/// Numbers, how many digits they have at least, and their texts.
const WRITTEN: [(u64, u8, &[u8]); 3] = [
    (5, 4, b"0005"),
    (0o1465, 1, b"1465"),
    (u64::MAX, 1, b"1777777777777777777777"),
];

fn is_written(value: u64, digits: u8, text: &[u8]) -> bool {
    1 <= digits && digits <= 22 && octal(value, digits).as_slice() == text
}

#[test]
fn writes_octal_digits(rt: HostRuntime) {
    for i in 0..WRITTEN.len() {
        let (value, digits, text) = WRITTEN[i];
        assert!(rt; is_written(value, digits, text), "row {i}");
    }
}

#[test]
fn writes_numbers_of_fixed_width(rt: HostRuntime) {
    let mut line: ArrayVec<u8, 8> = ArrayVec::new();
    push_octal(&mut line, 0o12345, 3);
    push_octal(&mut line, 0o7, 2);
    assert!(rt; line.as_slice() == b"34507".as_slice());
}
