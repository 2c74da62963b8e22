//! Values and fields as JSON.

ghost use Rattle.std.specs.Prelude.{◌≡◌, ◌++◌, OnOk, codes, decimal, string_bytes, option_map};
ghost use Rattle.std.specs.List.{flat_map};
ghost use Rattle.siman_print.specs.Spelled.{quoted, escaped, escaped_character, address_text, further_json, ring_json, name_json, value_text, value_json, member_json, field_json};
ghost use Rattle.siman_print.specs.Lent.{value_of, field_of};

use crate::field::Field;
use crate::text::{put_address, put_number, put_value};
use crate::value::Value;
use dis_records::Address;
use std::alloc::AllocError;

/// Writes a value as a string, without escapes.
fn put_quoted(json: &mut String, value: &Value<'_>) -> Result<(), AllocError>
    ensures { OnOk result (string_bytes json.new ≡ string_bytes json.old ++ quoted (value_text (value_of value.now))) }
{
    json.push('"')?;
    put_value(json, value)?;
    json.push('"')
}

/// Writes a word as a string, or null for none.
fn put_name(json: &mut String, name: Option<&str>) -> Result<(), AllocError>
    ensures { OnOk result (string_bytes json.new ≡ string_bytes json.old ++ name_json (option_map (λ word. word.now) name.entry)) }
{
    match name {
        None => json.push_str("null"),
        Some(name) => {
            json.push('"')?;
            json.push_str(name)?;
            json.push('"')
        }
    }
}

/// Writes printable ASCII as a string, with `\` before each `"` and `\`.
fn put_phrase(json: &mut String, phrase: &str) -> Result<(), AllocError>
    ensures { OnOk result (string_bytes json.new ≡ string_bytes json.old ++ quoted (escaped phrase.now)) }
{
    json.push('"')?;
    put_escaped(json, phrase)?;
    json.push('"')
}

/// Writes characters, with `\` before each `"` and `\`.
fn put_escaped(json: &mut String, phrase: &str) -> Result<(), AllocError>
    ensures { OnOk result (string_bytes json.new ≡ string_bytes json.old ++ escaped phrase.now) }
{
    for character in phrase.chars() {
        put_character(json, character)?;
    }
    Ok(())
}

/// Writes a character of a string.
fn put_character(json: &mut String, character: char) -> Result<(), AllocError>
    ensures { OnOk result (string_bytes json.new ≡ string_bytes json.old ++ escaped_character character) }
{
    match character {
        '"' => json.push_str("\\\""),
        '\\' => json.push_str("\\\\"),
        _ => json.push(character),
    }
}

/// Writes an address as a string.
fn put_address_string(json: &mut String, address: Address) -> Result<(), AllocError>
    ensures { OnOk result (string_bytes json.new ≡ string_bytes json.old ++ quoted (address_text address)) }
{
    json.push('"')?;
    put_address(json, address)?;
    json.push('"')
}

/// Writes addresses as a list of strings.
fn put_ring(json: &mut String, ring: &[Address]) -> Result<(), AllocError>
    ensures { OnOk result (string_bytes json.new ≡ string_bytes json.old ++ ring_json ring.now) }
{
    match ring.split_first() {
        None => json.push_str("[]"),
        Some((first, further)) => {
            json.push('[')?;
            put_address_string(json, *first)?;
            put_further(json, further)?;
            json.push(']')
        }
    }
}

/// Writes addresses, each after a comma.
fn put_further(json: &mut String, ring: &[Address]) -> Result<(), AllocError>
    ensures { OnOk result (string_bytes json.new ≡ string_bytes json.old ++ flat_map further_json ring.now) }
{
    for address in ring {
        json.push(',')?;
        put_address_string(json, *address)?;
    }
    Ok(())
}

/// Writes a number, then its name under the key `KEY_name`, or null.
fn put_named(
    json: &mut String,
    key: &str,
    number: u64,
    name: Option<&str>,
) -> Result<(), AllocError>
    ensures { OnOk result (string_bytes json.new ≡ string_bytes json.old ++ (decimal number ++ codes ",\"" ++ key.now ++ codes "_name\":" ++ name_json (option_map (λ word. word.now) name.entry))) }
{
    put_number(json, number)?;
    json.push_str(",\"")?;
    json.push_str(key)?;
    json.push_str("_name\":")?;
    put_name(json, name)
}

/// Writes the JSON of a value, given its key.
fn put_under(json: &mut String, key: &str, value: &Value<'_>) -> Result<(), AllocError>
    ensures { OnOk result (string_bytes json.new ≡ string_bytes json.old ++ value_json key.now (value_of value.now)) }
{
    match *value {
        Value::Number(number) => put_number(json, number),
        Value::Clock(_)
        | Value::Word(_)
        | Value::Kind(_)
        | Value::State(_)
        | Value::Entity(_)
        | Value::Address(_)
        | Value::Time(_) => put_quoted(json, value),
        Value::Named(number, name) => put_named(json, key, number, name),
        Value::Truth(true) => json.push_str("true"),
        Value::Truth(false) => json.push_str("false"),
        Value::Phrase(phrase) => put_phrase(json, phrase),
        Value::Ring(ring) => put_ring(json, ring),
        Value::Missing => json.push_str("null"),
    }
}

/// Writes a field as JSON, after a comma.
pub(crate) fn put_member(json: &mut String, field: &Field<'_>) -> Result<(), AllocError>
    ensures { OnOk result (string_bytes json.new ≡ string_bytes json.old ++ field_json (field_of field.now)) }
{
    match field {
        Field::Bare(key, value)
        | Field::Keyed(key, value)
        | Field::Spelt(key, value)
        | Field::Called(_, key, value) => put_pair(json, key, value),
    }
}

/// Writes a key and its value, after a comma.
fn put_pair(json: &mut String, key: &str, value: &Value<'_>) -> Result<(), AllocError>
    ensures { OnOk result (string_bytes json.new ≡ string_bytes json.old ++ member_json key.now (value_of value.now)) }
{
    json.push_str(",\"")?;
    json.push_str(key)?;
    json.push_str("\":")?;
    put_under(json, key, value)
}
