//! How tests compare where no proof rests on it: in a function that they share, which is proved once.
use std::fmt::Debug;
use std::process::Abort;

/// What was found is what was expected.
pub fn assert_same<T: PartialEq + Debug + Drop>(rt: &impl Abort, found: T, expected: T) {
    assert_eq!(rt; found, expected);
}
