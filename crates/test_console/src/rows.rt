//! Checks of tables.
use std::process::Abort;

/// Checks that each row of a table is so. Asserts one after the other take longer to prove.
pub(crate) fn check_rows(rt: &impl Abort, rows: &[bool]) {
    for i in 0..rows.len() {
        assert!(rt; rows[i], "row {i}");
    }
}
