//! What refuses a row.

use std::fmt::Debug;
use std::process::Abort;

/// Refuses where a row was answered otherwise. One assertion serves all rows, since each is proved anew.
pub(crate) fn same<R: Debug, T: PartialEq + Debug>(
    rt: &impl Abort,
    row: &R,
    found: &T,
    wanted: &T,
) {
    assert_eq!(rt; found, wanted, "{row:?}");
}
