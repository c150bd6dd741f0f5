//! Texts that calls write.

/// A text that was written, or that there is no room for.
#[derive(Clone, Copy, Drop)]
pub(crate) struct Told {
    /// How many bytes it has.
    pub length: usize,
    /// What the report has as its number: how the answer to a line of a bench script ended, 1 to 6; the
    /// number of the version; 0 for the text of entries.
    pub number: u32,
}
