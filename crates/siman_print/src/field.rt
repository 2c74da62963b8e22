//! A field of a row.

use crate::value::Value;

/// A field of a row: its key in JSON, and its value.
#[derive(Clone, Copy)]
pub enum Field<'a> {
    /// In text only the value.
    Bare(&'a str, Value<'a>),
    /// In text the key, `=` and the value.
    Keyed(&'a str, Value<'a>),
    /// In text the key, a blank and the value.
    Spelt(&'a str, Value<'a>),
    /// In text a word other than the key, `=` and the value.
    Called(&'a str, &'a str, Value<'a>),
}
