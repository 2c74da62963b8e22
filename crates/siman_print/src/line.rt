//! A row, and its two spellings.

ghost use Rattle.std.specs.Prelude.{◌≡◌, ◌++◌, IfOk, OnOk, string_bytes, option_map};
ghost use Rattle.siman_print.specs.Line.{named_line};
ghost use Rattle.siman_print.specs.Spelled.{opening_spelled, field_spelled, fields_spelled, end_spelled, line_spelled, line_text};
ghost use Rattle.siman_print.specs.Lent.{field_of, fields_of, line_of};

use crate::field::Field;
use crate::json::put_member;
use crate::spelling::Spelling;
use crate::text::put_as_text;
use std::alloc::{AllocError, Global};

/// A row: one printed line as a value, with a name and fields in order.
#[derive(Clone, Copy)]
pub struct PrintedRow<'a> {
    /// The kind of row.
    pub name: &'a str,
    /// A field that replaces the name in text.
    pub opening: Option<Field<'a>>,
    /// The fields after the name.
    pub fields: &'a [Field<'a>],
}

impl<'a> PrintedRow<'a> {
    /// A row that begins with its name in text.
    pub fn named(name: &'a str, fields: &'a [Field<'a>]) -> PrintedRow<'a>
        ensures { line_of result ≡ named_line name.now (fields_of fields.now) }
    {
        PrintedRow {
            name,
            opening: None,
            fields,
        }
    }
}

/// Writes the beginning of a row: its name, and the field that replaces it in text.
pub fn put_opening(
    text: &mut String,
    spelling: Spelling,
    name: &str,
    opening: &Option<Field<'_>>,
) -> Result<(), AllocError>
    ensures { OnOk result (string_bytes text.new ≡ string_bytes text.old ++ opening_spelled spelling name.now (option_map field_of opening.now)) }
{
    match spelling {
        Spelling::Text => match opening {
            None => text.push_str(name),
            Some(field) => put_as_text(text, field),
        },
        Spelling::Json => {
            text.push_str("{\"line\":\"")?;
            text.push_str(name)?;
            text.push('"')?;
            match opening {
                None => Ok(()),
                Some(field) => put_member(text, field),
            }
        }
    }
}

/// Writes fields of a row, one after the other.
pub fn put_fields(
    text: &mut String,
    spelling: Spelling,
    fields: &[Field<'_>],
) -> Result<(), AllocError>
    ensures { OnOk result (string_bytes text.new ≡ string_bytes text.old ++ fields_spelled spelling (fields_of fields.now)) }
{
    for field in fields {
        put_field(text, spelling, field)?;
    }
    Ok(())
}

/// Writes a further field of a row.
pub fn put_field(text: &mut String, spelling: Spelling, field: &Field<'_>) -> Result<(), AllocError>
    ensures { OnOk result (string_bytes text.new ≡ string_bytes text.old ++ field_spelled spelling (field_of field.now)) }
{
    match spelling {
        Spelling::Text => {
            text.push(' ')?;
            put_as_text(text, field)
        }
        Spelling::Json => put_member(text, field),
    }
}

/// Writes the end of a row, with its line end.
pub fn put_end(text: &mut String, spelling: Spelling) -> Result<(), AllocError>
    ensures { OnOk result (string_bytes text.new ≡ string_bytes text.old ++ end_spelled spelling) }
{
    match spelling {
        Spelling::Text => text.push('\n'),
        Spelling::Json => text.push_str("}\n"),
    }
}

/// Writes a row in a spelling, with its line end.
pub fn put_line(
    text: &mut String,
    spelling: Spelling,
    line: &PrintedRow<'_>,
) -> Result<(), AllocError>
    ensures { OnOk result (string_bytes text.new ≡ string_bytes text.old ++ line_spelled spelling (line_of line.now)) }
{
    put_opening(text, spelling, line.name, &line.opening)?;
    put_fields(text, spelling, line.fields)?;
    put_end(text, spelling)
}

/// Writes a row with a name and fields in a spelling, with its line end.
pub fn put_named(
    text: &mut String,
    spelling: Spelling,
    name: &str,
    fields: &[Field<'_>],
) -> Result<(), AllocError>
    ensures { OnOk result (string_bytes text.new ≡ string_bytes text.old ++ line_spelled spelling (named_line name.now (fields_of fields.now))) }
{
    put_line(text, spelling, &PrintedRow::named(name, fields))
}

/// A row with a name and fields, as text. It takes memory.
pub fn named_line(alloc: Global, name: &str, fields: &[Field<'_>]) -> Result<String, AllocError>
    ensures { IfOk result (λ line. string_bytes line ≡ line_text (named_line name.now (fields_of fields.now))) }
{
    let mut line = String::new(alloc);
    put_named(&mut line, Spelling::Text, name, fields)?;
    Ok(line)
}
