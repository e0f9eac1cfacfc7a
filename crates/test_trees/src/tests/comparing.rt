//! How tests compare where no proof rests on it: in functions that they share, each of which is proved once.
use std::fmt::Debug;
use std::process::Abort;

/// What was found is what was expected.
pub fn assert_same<T: PartialEq + Debug + Drop>(rt: &impl Abort, found: T, expected: T) {
    assert_eq!(rt; found, expected);
}

/// What was found is what was expected. A failure names the one of these things at which it wasn't.
pub fn assert_same_at<T: PartialEq + Debug + Drop>(
    rt: &impl Abort,
    found: T,
    expected: T,
    thing: &str,
    number: usize,
) {
    assert_eq!(rt; found, expected, "{thing} {number}");
}
