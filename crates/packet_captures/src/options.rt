//! Options of a block of pcapng.

ghost use Rattle.std.specs.Prelude.{◌≡◌, ◌+◌, ◌<◌, ◌^◌, length, drop, false, IfSome};
ghost use Rattle.std.specs.Option.{option_map};
ghost use Rattle.packet_captures.specs.Options.{padded, has_length, ends_options, found_at, option_value};

use crate::byte_order::{ByteOrder, u16_at};

/// A length with its padding to a multiple of four bytes.
pub(crate) fn padded(length: usize) -> usize
    requires { length + 3 < 2 ^ 64 }
    ensures { result ≡ padded length }
{
    (length + 3) / 4 * 4
}

/// The bytes behind the first ones, if there are any.
pub(crate) fn behind(bytes: &[u8], count: usize) -> &[u8]
    ensures { result.now ≡ drop count bytes.now }
{
    if count < bytes.len() {
        &bytes[count..]
    } else {
        &[]
    }
}

/// Whether the options end here.
fn ends_options(order: ByteOrder, options: &[u8]) -> bool
    ensures { result ≡ ends_options order options.now }
{
    if options.len() < 4 || u16_at(order, options, 0) == 0 {
        return true;
    }
    options.len() < 4 + usize::from(u16_at(order, options, 2))
}

/// Whether a length is the required one, if one is required.
fn has_length(size: Option<u16>, length: u16) -> bool
    ensures { result ≡ has_length size length }
{
    match size {
        None => true,
        Some(size) => size == length,
    }
}

/// The value of the option at the front, if it is the one that is looked for, or else what was
/// found before.
fn found_at<'a>(
    order: ByteOrder,
    code: u16,
    size: Option<u16>,
    found: Option<&'a [u8]>,
    options: &'a [u8],
) -> Option<&'a [u8]>
    requires more { ends_options order options.now ≡ false }
    requires before { IfSome found (λ v. IfSome size (λ n. length v.now ≡ n)) }
    ensures value { option_map (λ v. v.now) result ≡ found_at order code size (option_map (λ v. v.now) found.entry) options.now }
    ensures length { IfSome result (λ v. IfSome size (λ n. length v.now ≡ n)) }
{
    let length = u16_at(order, options, 2);
    if u16_at(order, options, 0) == code && has_length(size, length) {
        Some(&options[4..4 + usize::from(length)])
    } else {
        found
    }
}

/// The value of the last option of this code, and of this length if one is given.
pub(crate) fn option_value(
    order: ByteOrder,
    code: u16,
    size: Option<u16>,
    options: &[u8],
) -> Option<&[u8]>
    ensures value { option_map (λ v. v.now) result ≡ option_value order code size options.now }
    // The value has the length that is asked for.
    ensures length { IfSome result (λ v. IfSome size (λ n. length v.now ≡ n)) }
{
    let mut rest = options;
    let mut found = None;
    for _ in 0..options.len() {
        if ends_options(order, rest) {
            return found;
        }
        found = found_at(order, code, size, found, rest);
        rest = behind(rest, 4 + padded(usize::from(u16_at(order, rest, 2))));
    }
    found
}
