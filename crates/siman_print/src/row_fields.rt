//! The fields of a row, each with the room that it takes.

ghost use Rattle.std.specs.Prelude.{◌≡◌, ◌+◌, ◌≤◌, ◌++◌, ◌∷◌, [], length};
ghost use Rattle.siman_print.specs.Line.{Keyed, Bare, Called};
ghost use Rattle.siman_print.specs.Spelled.{fields_spelled};
ghost use Rattle.siman_print.specs.Fields.{keyed_before, bare_before};

use crate::key::Key;
use crate::printed_value::PrintedValue;
use crate::spelling::Spelling;
use crate::text_line::TextLine;

/// Fields that follow one another in a row, and take a bounded number of bytes: one that
/// [`keyed!`](crate::keyed), [`bare!`](crate::bare) or [`called!`](crate::called) makes, or a tuple
/// of such.
pub trait RowFields {
    ghost use Rattle.std.specs.Prelude.{ℕ, List};
    ghost use Rattle.siman_print.specs.Line.{Field};

    ghost fields: { Self → List Field };

    // Most bytes that they take, in either spelling.
    ghost most: { ℕ };

    /// Appends the fields in a spelling.
    fn add_fields(&self, line: &mut TextLine, spelling: Spelling)
        requires room { length line.old.bytes + most ≤ 1024 }
        ensures bytes { line.new.bytes ≡ line.old.bytes ++ fields_spelled spelling (fields self.now) }
        ensures grown { length line.new.bytes ≤ length line.old.bytes + most };
}

/// A value with its key.
#[derive(Clone, Copy)]
pub struct WithKey<'k, V> {
    pub key: Key<'k>,
    pub value: V,
}

/// A value that has its key in JSON alone.
#[derive(Clone, Copy)]
pub struct WithoutKey<'k, V> {
    pub key: Key<'k>,
    pub value: V,
}

/// A value that has another key in text.
#[derive(Clone, Copy)]
pub struct WithWord<'k, V> {
    pub word: Key<'k>,
    pub key: Key<'k>,
    pub value: V,
}

/// The field of a key and a value.
#[macro_export]
macro_rules! keyed {
    ($key:literal, $value:expr) => {
        $crate::WithKey {
            key: $crate::key!($key),
            value: $value,
        }
    };
}

/// The field of a value that has its key in JSON alone.
#[macro_export]
macro_rules! bare {
    ($key:literal, $value:expr) => {
        $crate::WithoutKey {
            key: $crate::key!($key),
            value: $value,
        }
    };
}

/// The field of a value with its key in text, and its key in JSON.
#[macro_export]
macro_rules! called {
    ($word:literal, $key:literal, $value:expr) => {
        $crate::WithWord {
            word: $crate::key!($word),
            key: $crate::key!($key),
            value: $value,
        }
    };
}

/// Appends what stands before a value with a key.
#[inline(always)]
fn open_keyed(line: &mut TextLine, spelling: Spelling, key: Key<'_>)
    requires { length line.old.bytes + 18 ≤ 1024 }
    ensures bytes { line.new.bytes ≡ line.old.bytes ++ keyed_before spelling key.entry.name.now }
    ensures grown { length line.new.bytes ≤ length line.old.bytes + 18 }
{
    match spelling {
        Spelling::Text => line.push_str(key.text),
        Spelling::Json => line.push_str(key.json),
    }
}

/// Appends what stands before a value that has a key in JSON alone.
#[inline(always)]
fn open_bare(line: &mut TextLine, spelling: Spelling, key: Key<'_>)
    requires { length line.old.bytes + 18 ≤ 1024 }
    ensures bytes { line.new.bytes ≡ line.old.bytes ++ bare_before spelling key.entry.name.now }
    ensures grown { length line.new.bytes ≤ length line.old.bytes + 18 }
{
    match spelling {
        Spelling::Text => line.push(' '),
        Spelling::Json => line.push_str(key.json),
    }
}

impl<'k, V: PrintedValue> RowFields for WithKey<'k, V> {
    ghost fields = { λ f. Keyed f.key.name.now (V.value f.value) ∷ [] };

    ghost most = { V.most + 18 };

    #[inline(always)]
    fn add_fields(&self, line: &mut TextLine, spelling: Spelling) {
        open_keyed(line, spelling, self.key);
        self.value.add_value(line, spelling, self.key)
    }
}

impl<'k, V: PrintedValue> RowFields for WithoutKey<'k, V> {
    ghost fields = { λ f. Bare f.key.name.now (V.value f.value) ∷ [] };

    ghost most = { V.most + 18 };

    #[inline(always)]
    fn add_fields(&self, line: &mut TextLine, spelling: Spelling) {
        open_bare(line, spelling, self.key);
        self.value.add_value(line, spelling, self.key)
    }
}

impl<'k, V: PrintedValue> RowFields for WithWord<'k, V> {
    ghost fields = { λ f. Called f.word.name.now f.key.name.now (V.value f.value) ∷ [] };

    ghost most = { V.most + 18 };

    #[inline(always)]
    fn add_fields(&self, line: &mut TextLine, spelling: Spelling) {
        match spelling {
            Spelling::Text => {
                line.push_str(self.word.text);
                self.value.add_value(line, Spelling::Text, self.key)
            }
            Spelling::Json => {
                line.push_str(self.key.json);
                self.value.add_value(line, Spelling::Json, self.key)
            }
        }
    }
}

impl RowFields for () {
    ghost fields = { λ _. [] };

    ghost most = { 0 };

    #[inline(always)]
    fn add_fields(&self, line: &mut TextLine, spelling: Spelling) {}
}

impl<F: RowFields> RowFields for Option<F> {
    ghost use Rattle.std.specs.Option.{option_map_or};

    ghost fields = { λ o. option_map_or F.fields o [] };

    ghost most = { F.most };

    #[inline(always)]
    fn add_fields(&self, line: &mut TextLine, spelling: Spelling) {
        match self {
            Some(fields) => fields.add_fields(line, spelling),
            None => (),
        }
    }
}

impl<A: RowFields, B: RowFields> RowFields for (A, B) {
    ghost fields = { λ p. A.fields p.0 ++ B.fields p.1 };

    ghost most = { A.most + B.most };

    #[inline(always)]
    fn add_fields(&self, line: &mut TextLine, spelling: Spelling) {
        self.0.add_fields(line, spelling);
        self.1.add_fields(line, spelling)
    }
}

impl<A: RowFields, B: RowFields, C: RowFields> RowFields for (A, B, C) {
    ghost fields = { λ p. A.fields p.0 ++ B.fields p.1 ++ C.fields p.2 };

    ghost most = { A.most + B.most + C.most };

    #[inline(always)]
    fn add_fields(&self, line: &mut TextLine, spelling: Spelling) {
        self.0.add_fields(line, spelling);
        self.1.add_fields(line, spelling);
        self.2.add_fields(line, spelling)
    }
}

impl<A: RowFields, B: RowFields, C: RowFields, D: RowFields> RowFields for (A, B, C, D) {
    ghost fields = { λ p. A.fields p.0 ++ B.fields p.1 ++ C.fields p.2 ++ D.fields p.3 };

    ghost most = { A.most + B.most + C.most + D.most };

    #[inline(always)]
    fn add_fields(&self, line: &mut TextLine, spelling: Spelling) {
        self.0.add_fields(line, spelling);
        self.1.add_fields(line, spelling);
        self.2.add_fields(line, spelling);
        self.3.add_fields(line, spelling)
    }
}

impl<A: RowFields, B: RowFields, C: RowFields, D: RowFields, E: RowFields> RowFields
    for (A, B, C, D, E) {
    ghost fields = { λ p. A.fields p.0 ++ B.fields p.1 ++ C.fields p.2 ++ D.fields p.3 ++ E.fields p.4 };

    ghost most = { A.most + B.most + C.most + D.most + E.most };

    #[inline(always)]
    fn add_fields(&self, line: &mut TextLine, spelling: Spelling) {
        self.0.add_fields(line, spelling);
        self.1.add_fields(line, spelling);
        self.2.add_fields(line, spelling);
        self.3.add_fields(line, spelling);
        self.4.add_fields(line, spelling)
    }
}

impl<A: RowFields, B: RowFields, C: RowFields, D: RowFields, E: RowFields, F: RowFields> RowFields
    for (A, B, C, D, E, F) {
    ghost fields = { λ p. A.fields p.0 ++ B.fields p.1 ++ C.fields p.2 ++ D.fields p.3 ++ E.fields p.4 ++ F.fields p.5 };

    ghost most = { A.most + B.most + C.most + D.most + E.most + F.most };

    #[inline(always)]
    fn add_fields(&self, line: &mut TextLine, spelling: Spelling) {
        self.0.add_fields(line, spelling);
        self.1.add_fields(line, spelling);
        self.2.add_fields(line, spelling);
        self.3.add_fields(line, spelling);
        self.4.add_fields(line, spelling);
        self.5.add_fields(line, spelling)
    }
}
