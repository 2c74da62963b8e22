//! Elements of SVG, with their attributes.

ghost use Rattle.std.specs.Prelude.{◌≡◌, ◌++◌, map, OnOk, string_bytes};
ghost use Rattle.exercise_chart.specs.Element.{shown_text, attribute_of, attribute_text, attributes_text, element_text, begun_words, words_text};

use crate::ClockUnit;
use crate::clock::put_clock;
use dis_records::{Address, EntityId, EntityState, SiteApplication};
use siman_print::{Field, Spelling, Value, put_opening};
use std::alloc::AllocError;

/// Value of an attribute, or text of a word. Words are ASCII without quotes, `<` and `&`.
#[derive(Clone, Copy)]
pub(crate) enum Shown<'a> {
    /// A number.
    Number(u64),
    /// A word.
    Word(&'a str),
    /// An entity identifier.
    Entity(EntityId),
    /// The state of an entity.
    State(EntityState),
    /// The address of a station.
    Address(Address),
    /// An address that nobody recorded.
    SiteApplication(SiteApplication),
    /// The time of day of a stamp.
    Clock(ClockUnit, u64),
    /// Nothing: `-`.
    Missing,
}

/// An attribute: its key and its value.
#[derive(Clone, Copy)]
pub(crate) struct Attribute<'a>(pub &'a str, pub Shown<'a>);

/// Writes a value.
fn put_shown(text: &mut String, shown: &Shown<'_>) -> Result<(), AllocError>
    ensures { OnOk result (string_bytes text.new ≡ string_bytes text.old ++ shown_text shown.now) }
{
    match shown {
        Shown::Number(number) => {
            let number = Some(Field::Bare("", Value::Number(*number)));
            put_opening(text, Spelling::Text, "", &number)
        }
        Shown::Word(word) => text.push_str(word),
        Shown::Entity(id) => write!(text, "{id}"),
        Shown::State(state) => write!(text, "{state}"),
        Shown::Address(address) => {
            let address = Some(Field::Bare("", Value::Address(*address)));
            put_opening(text, Spelling::Text, "", &address)
        }
        Shown::SiteApplication(by) => write!(text, "{}:{}", by.site, by.application),
        Shown::Clock(unit, stamp) => put_clock(text, *unit, *stamp),
        Shown::Missing => text.push('-'),
    }
}

/// Writes `KEY="VALUE"` after a blank.
fn put_attribute(text: &mut String, attribute: &Attribute<'_>) -> Result<(), AllocError>
    ensures { OnOk result (string_bytes text.new ≡ string_bytes text.old ++ attribute_text (attribute_of attribute.now)) }
{
    text.push(' ')?;
    text.push_str(attribute.0)?;
    text.push_str("=\"")?;
    put_shown(text, &attribute.1)?;
    text.push('"')
}

/// Writes attributes, one after the other.
fn put_attributes(text: &mut String, attributes: &[Attribute<'_>]) -> Result<(), AllocError>
    ensures { OnOk result (string_bytes text.new ≡ string_bytes text.old ++ attributes_text (map attribute_of attributes.now)) }
{
    for attribute in attributes {
        put_attribute(text, attribute)?;
    }
    Ok(())
}

/// Writes an empty element, on a line of its own.
#[tactic(auto, unfolding(crate::specs::Element::element_text))]
pub(crate) fn put_element(
    text: &mut String,
    name: &str,
    attributes: &[Attribute<'_>],
) -> Result<(), AllocError>
    ensures { OnOk result (string_bytes text.new ≡ string_bytes text.old ++ element_text name.now (map attribute_of attributes.now)) }
{
    text.push('<')?;
    text.push_str(name)?;
    put_attributes(text, attributes)?;
    text.push_str("/>\n")
}

/// Writes the start tag of a `text` element.
#[tactic(auto, unfolding(crate::specs::Element::begun_words))]
pub(crate) fn begin_words(text: &mut String, attributes: &[Attribute<'_>]) -> Result<(), AllocError>
    ensures { OnOk result (string_bytes text.new ≡ string_bytes text.old ++ begun_words (map attribute_of attributes.now)) }
{
    text.push_str("<text")?;
    put_attributes(text, attributes)?;
    text.push('>')
}

/// Writes a `text` element with one word, on a line of its own.
pub(crate) fn put_words(
    text: &mut String,
    attributes: &[Attribute<'_>],
    word: &Shown<'_>,
) -> Result<(), AllocError>
    ensures { OnOk result (string_bytes text.new ≡ string_bytes text.old ++ words_text (map attribute_of attributes.now) (shown_text word.now)) }
{
    begin_words(text, attributes)?;
    put_shown(text, word)?;
    text.push_str("</text>\n")
}
