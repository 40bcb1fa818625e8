//! What `holds!` and `same!` of `test_support` call.

use std::fmt::Debug;
use std::process::Abort;

/// Ends the test where the condition does not hold, and prints it with the note.
pub fn assert_holds<R: Abort, D: Debug>(rt: &R, holds: bool, condition: &str, note: &D) {
    assert!(rt; holds, "it does not hold: {condition} ({note:?})");
}

/// Ends the test where the two are not equal, and prints them with the note.
pub fn assert_same<R: Abort, T: PartialEq + Debug, D: Debug>(
    rt: &R,
    left: &T,
    right: &T,
    note: &D,
) {
    assert_eq!(rt; *left, *right, "({note:?})");
}
