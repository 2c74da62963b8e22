//! A label as a value of a row.

ghost use Rattle.std.specs.Prelude.{◌≡◌, ◌≤◌, ◌+◌, ◌++◌, ◌∷◌, [], length, option_map, true};
ghost use Rattle.std.specs.Option.{option_map_or};
ghost use Rattle.siman_print.specs.Line.{Keyed, Word as WordValue};
ghost use Rattle.siman_plans.specs.MoveLines.{label_fields};
ghost use Rattle.siman_plans.specs.SourceWords.{is_label};

use crate::source_word::is_label;
use siman_print::{Key, PrintedValue, Spelling, TextLine, WithKey, add_quote, keyed};

/// A label: up to 64 bytes of ASCII.
#[derive(Clone, Copy)]
pub(crate) struct LabelName<'l> {
    label: &'l [u8],
    ghost label_is: { is_label label.now ≡ true },
}

/// The field of a label.
pub(crate) fn label_field<'l>(label: Option<&'l [u8]>) -> Option<WithKey<'static, LabelName<'l>>>
    ensures { option_map_or (λ l. Keyed l.key.name.now (WordValue l.value.label.now) ∷ []) result [] ≡ label_fields (option_map (λ l. l.now) label.entry) }
{
    match label {
        Some(label) if is_label(label) => Some(keyed!("label", LabelName { label })),
        _ => None,
    }
}

/// Appends the bytes of a label.
fn add_label(line: &mut TextLine, label: &[u8])
    requires label { is_label label.now ≡ true }
    requires room { length line.old.bytes + 64 ≤ 1024 }
    ensures bytes { line.new.bytes ≡ line.old.bytes ++ label.now }
    ensures grown { length line.new.bytes ≤ length line.old.bytes + 64 }
{
    for byte in label {
        line.push(*byte as char);
    }
}

impl<'l> PrintedValue for LabelName<'l> {
    ghost value = { λ l. WordValue l.label.now };

    ghost most = { 66 };

    fn add_value(&self, line: &mut TextLine, spelling: Spelling, key: Key<'_>) {
        add_quote(line, spelling);
        add_label(line, self.label);
        add_quote(line, spelling)
    }
}
