//! Asserts several results at once. A test with one assertion for each result is proved more
//! slowly.
use std::process::Abort;

// Asserts that each of `answers` is true. If one is false, the message of the failure is its index.
pub(super) fn assert_each(rt: &impl Abort, answers: &[bool]) {
    for (place, answer) in answers.iter().enumerate() {
        assert!(rt; *answer, "{place}");
    }
}
