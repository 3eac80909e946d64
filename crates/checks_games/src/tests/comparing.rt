//! Comparisons, without contracts, so that a test that makes many stays small.

use std::fmt::Debug;
use std::process::Abort;

/// What was told is what was wanted.
pub(crate) fn check_same<T: PartialEq + Debug + Copy>(
    rt: &impl Abort,
    told: T,
    wanted: T,
    row: &str,
) {
    assert_eq!(rt; told, wanted, "{row}");
}

/// The bytes that were told are those that were wanted.
pub(crate) fn check_bytes(rt: &impl Abort, told: &[u8], wanted: &[u8], row: &str) {
    assert_eq!(rt; told, wanted, "{row}");
}

/// Appends bytes.
pub(crate) fn push_bytes(rt: &impl Abort, bytes: &mut Vec<u8>, more: &[u8]) {
    assert!(rt; bytes.extend_from_slice(more).is_ok());
}
