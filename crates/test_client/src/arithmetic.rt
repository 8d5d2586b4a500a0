//! The calls of `pp_arith`.

use pp_arith::{
    OctalFault, add18, index12, join60, octal, read_octal, relative, shift18, split60, sub18,
};

/// Adds, subtracts, indexes and shifts.
fn show_sums(rt: &HostRuntime) {
    let (sum, difference) = (add18(0o777776, 1), sub18(0, 1));
    let (index, place) = (index12(0o7777, 1), relative(0o100, 0o72));
    let shifted = shift18(0o400000, 1);
    let _ = println!(rt;
        "sums {sum:o} {difference:o}, addresses {index:o} {place:o}, shifted {shifted:o}"
    );
}

/// Takes a word apart and joins it again.
fn show_parts(rt: &HostRuntime) {
    let word = 0o01234567012345670123;
    let parts = split60(word);
    let joined = join60(&parts) == word;
    let _ = println!(rt;
        "parts {:o} {:o} {:o}, joined {joined}",
        parts[0], parts[1], parts[4]
    );
}

/// Reads and writes numbers.
fn show_numbers(rt: &HostRuntime) {
    let read = read_octal(b"0007", 7) == Ok(7);
    let refused = read_octal(b"778", 7) == Err(OctalFault::NotOctal);
    let written = octal(5, 4).as_slice() == b"0005".as_slice();
    let _ = println!(rt; "read {read}, refused {refused}, written {written}");
}

/// Makes each call of the crate.
pub fn show(rt: &HostRuntime) {
    show_sums(rt);
    show_parts(rt);
    show_numbers(rt);
}
