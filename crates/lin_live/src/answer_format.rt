//! How answers tell entries.

/// How an answer tells the entries that its line makes.
#[derive(Clone, Copy, Debug, Drop, PartialEq)]
pub enum AnswerFormat {
    /// By numbers, as the log's own text.
    Log,
    /// With names, as the log with names.
    Named,
    /// As objects of JSON (RFC 8259), one a line; the last line of an answer is one, too.
    Jsonl,
}
