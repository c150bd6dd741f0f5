//! Places in an LDF text.

/// A place in a text: its line and its column, in bytes, both from 1. Lines end with LF.
#[derive(Clone, Copy, Debug, PartialEq, Eq)]
pub struct Location {
    pub line: u64,
    pub column: u64,
}
