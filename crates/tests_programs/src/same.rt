//! Comparing.

use std::fmt::Debug;
use std::process::Abort;

/// Wants that both are the same. Here `assert_eq!` is proved once, and not wherever two values are
/// compared: a test calls this.
pub fn same<T: PartialEq + Debug>(rt: &impl Abort, got: &T, want: &T) {
    assert_eq!(rt; *got, *want);
}
