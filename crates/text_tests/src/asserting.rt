//! An assertion that says of which text it is.
use std::process::Abort;

/// What was found out of a text is right.
pub(crate) fn assert_of(rt: &impl Abort, text: &str, is_right: bool) {
    assert!(rt; is_right, "{text}");
}
