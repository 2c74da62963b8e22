//! Rows that are made in a buffer, which has room for more than the longest of them.

ghost use Rattle.std.specs.Prelude.{◌≡◌, ◌+◌, ◌≤◌, ◌++◌, length, Some, None, OnOk, string_bytes};
ghost use Rattle.siman_print.specs.Line.{Keyed, Bare, named_line, opened_line};
ghost use Rattle.siman_print.specs.Spelled.{opening_spelled, fields_spelled, end_spelled, line_spelled};

use crate::printed_value::PrintedValue;
use crate::row_fields::{RowFields, WithKey, WithoutKey};
use crate::spelling::Spelling;
use crate::text_line::TextLine;
use std::alloc::AllocError;

/// Starts a row with its name; the buffer is overwritten.
#[inline(always)]
fn begin_row(line: &mut TextLine, spelling: Spelling, name: &str)
    requires { length name.now ≤ 14 }
    ensures bytes { line.new.bytes ≡ opening_spelled spelling name.now None }
    ensures grown { length line.new.bytes ≤ 24 }
{
    line.clear();
    match spelling {
        Spelling::Text => line.push_str(name),
        Spelling::Json => {
            line.push_str("{\"line\":\"");
            line.push_str(name);
            line.push('"');
        }
    }
}

/// Ends a row, with its line end.
#[inline(always)]
fn end_row(line: &mut TextLine, spelling: Spelling)
    requires { length line.old.bytes + 2 ≤ 1024 }
    ensures { line.new.bytes ≡ line.old.bytes ++ end_spelled spelling }
{
    match spelling {
        Spelling::Text => line.push('\n'),
        Spelling::Json => line.push_str("}\n"),
    }
}

/// A field that replaces the name of a row in text.
pub trait RowOpening {
    ghost use Rattle.std.specs.Prelude.{ℕ};
    ghost use Rattle.siman_print.specs.Line.{Field};

    ghost field: { Self → Field };

    // Most bytes that it takes, in either spelling.
    ghost most: { ℕ };

    /// Starts a row of this name with the field; the buffer is overwritten.
    fn begin(&self, line: &mut TextLine, spelling: Spelling, name: &str)
        requires short { length name.now ≤ 14 }
        requires room { 24 + most ≤ 1024 }
        ensures bytes { line.new.bytes ≡ opening_spelled spelling name.now (Some (field self.now)) }
        ensures grown { length line.new.bytes ≤ 24 + most };
}

impl<'k, V: PrintedValue> RowOpening for WithoutKey<'k, V> {
    ghost field = { λ f. Bare f.key.name.now (V.value f.value) };

    ghost most = { V.most + 18 };

    #[inline(always)]
    fn begin(&self, line: &mut TextLine, spelling: Spelling, name: &str) {
        match spelling {
            Spelling::Text => {
                line.clear();
                self.value.add_value(line, Spelling::Text, self.key)
            }
            Spelling::Json => {
                begin_row(line, Spelling::Json, name);
                self.add_fields(line, Spelling::Json)
            }
        }
    }
}

impl<'k, V: PrintedValue> RowOpening for WithKey<'k, V> {
    ghost field = { λ f. Keyed f.key.name.now (V.value f.value) };

    ghost most = { V.most + 18 };

    #[inline(always)]
    fn begin(&self, line: &mut TextLine, spelling: Spelling, name: &str) {
        match spelling {
            Spelling::Text => {
                line.clear();
                line.push_str(self.key.name);
                line.push('=');
                self.value.add_value(line, Spelling::Text, self.key)
            }
            Spelling::Json => {
                begin_row(line, Spelling::Json, name);
                self.add_fields(line, Spelling::Json)
            }
        }
    }
}

/// Makes a row in a spelling that is a constant of the caller, so that the choice is made once.
#[inline(always)]
fn make_row_in<F: RowFields>(line: &mut TextLine, spelling: Spelling, name: &str, fields: &F)
    requires short { length name.now ≤ 14 }
    requires room { 32 + F.most ≤ 1024 }
    ensures { line.new.bytes ≡ line_spelled spelling (named_line name.now (F.fields fields.now)) }
{
    begin_row(line, spelling, name);
    fields.add_fields(line, spelling);
    end_row(line, spelling)
}

/// Makes a row; the buffer is overwritten.
#[inline(always)]
pub fn make_row<F: RowFields>(line: &mut TextLine, spelling: Spelling, name: &str, fields: &F)
    requires short { length name.now ≤ 14 }
    requires room { 32 + F.most ≤ 1024 }
    ensures { line.new.bytes ≡ line_spelled spelling (named_line name.now (F.fields fields.now)) }
{
    match spelling {
        Spelling::Text => make_row_in(line, Spelling::Text, name, fields),
        Spelling::Json => make_row_in(line, Spelling::Json, name, fields),
    }
}

/// Makes a row that begins with a field in text, in a spelling that is a constant of the caller.
#[inline(always)]
fn make_opened_row<O: RowOpening, F: RowFields>(
    line: &mut TextLine,
    spelling: Spelling,
    name: &str,
    opening: &O,
    fields: &F,
)
    requires short { length name.now ≤ 14 }
    requires room { 32 + O.most + F.most ≤ 1024 }
    ensures { line.new.bytes ≡ line_spelled spelling (opened_line name.now (O.field opening.now) (F.fields fields.now)) }
{
    opening.begin(line, spelling, name);
    fields.add_fields(line, spelling);
    end_row(line, spelling)
}

/// Writes a row; the buffer is overwritten.
#[inline(always)]
pub fn put_row<F: RowFields>(
    text: &mut String,
    line: &mut TextLine,
    spelling: Spelling,
    name: &str,
    fields: &F,
) -> Result<(), AllocError>
    requires short { length name.now ≤ 14 }
    requires room { 32 + F.most ≤ 1024 }
    ensures { OnOk result (string_bytes text.new ≡ string_bytes text.old ++ line_spelled spelling (named_line name.now (F.fields fields.now))) }
{
    make_row(line, spelling, name, fields);
    text.push_str(line.as_str())
}

/// Writes a row without its end, so that longer fields can follow; the buffer is overwritten.
pub fn put_front<F: RowFields>(
    text: &mut String,
    line: &mut TextLine,
    spelling: Spelling,
    name: &str,
    fields: &F,
) -> Result<(), AllocError>
    requires short { length name.now ≤ 14 }
    requires room { 32 + F.most ≤ 1024 }
    ensures { OnOk result (string_bytes text.new ≡ string_bytes text.old ++ (opening_spelled spelling name.now None ++ fields_spelled spelling (F.fields fields.now))) }
{
    begin_row(line, spelling, name);
    fields.add_fields(line, spelling);
    text.push_str(line.as_str())
}

/// Writes a row that begins with a field in text; the buffer is overwritten.
#[inline(always)]
pub fn put_opened_row<O: RowOpening, F: RowFields>(
    text: &mut String,
    line: &mut TextLine,
    spelling: Spelling,
    name: &str,
    opening: &O,
    fields: &F,
) -> Result<(), AllocError>
    requires short { length name.now ≤ 14 }
    requires room { 32 + O.most + F.most ≤ 1024 }
    ensures { OnOk result (string_bytes text.new ≡ string_bytes text.old ++ line_spelled spelling (opened_line name.now (O.field opening.now) (F.fields fields.now))) }
{
    match spelling {
        Spelling::Text => make_opened_row(line, Spelling::Text, name, opening, fields),
        Spelling::Json => make_opened_row(line, Spelling::Json, name, opening, fields),
    }
    text.push_str(line.as_str())
}
