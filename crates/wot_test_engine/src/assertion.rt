//! The one assertion of this crate's tests, so that each use costs one call.
use std::process::Abort;

/// Fails the test unless this holds. An `assert!` in each test would cost each its text and its place.
pub(crate) fn expect_that(rt: &impl Abort, so: bool) {
    assert!(rt; so);
}
