//! What tests expect.
use std::fmt::Debug;
use std::process::Abort;

/// Ends a test that found another value than it wants. It does what `assert_eq!` does, which would be proved anew
/// wherever it stands.
pub(crate) fn expect_equal<T: PartialEq + Debug + Drop>(rt: &impl Abort, found: T, want: T) {
    assert_eq!(rt; found, want);
}
