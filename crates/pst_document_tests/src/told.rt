//! What a test asks. The values stand in calls, and not in the test's own code, so that its proof passes them over.

use std::fmt::Debug;
use std::process::Abort;

/// What a test ends with where memory was refused. What goes wrong in a helper ends the test, so that no caller has a way out to
/// prove.
pub(crate) const MEMORY: &str = "no memory";

/// Stops the test where what is told is not what is wanted.
pub(crate) fn is<R: Abort, T: PartialEq + Debug + Copy>(rt: &R, told: T, wanted: T) {
    if told != wanted {
        panic!(rt; "told {told:?}, wanted {wanted:?}");
    }
}
