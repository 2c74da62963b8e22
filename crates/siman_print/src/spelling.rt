//! Spellings of a row.

/// Spelling of a row.
#[derive(Clone, Copy)]
pub enum Spelling {
    /// Words with blanks between, for people.
    Text,
    /// One object of JSON, for programs.
    Json,
}
