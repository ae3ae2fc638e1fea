//! Tables of rows.
use std::process::Abort;

/// Fails with the row of a table that differs from what is wanted, if one does.
pub(super) fn assert_no_row_differs(rt: &impl Abort, row: Option<usize>) {
    assert!(rt; row.is_none(), "row {row:?}");
}
