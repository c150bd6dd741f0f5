//! The clusters of LDF texts, and what `check` finds in texts that describe none.

mod checks;
mod findings;
mod lints;
