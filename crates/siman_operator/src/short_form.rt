//! The short form of a station in a script, which says nothing of its orders.

ghost use Rattle.std.specs.Prelude.{◌≡◌};
ghost use Rattle.siman_operator.specs.ShortForm.{is_address, is_short_line, is_short_form};

use byte_files::{first_line, split_once};
use dis_records::Address;
use siman_scripts::address_of;

/// Whether a word is this address.
fn is_address(word: &[u8], address: Address) -> bool
    ensures { result ≡ is_address address word.now }
{
    match address_of(word) {
        Some(found) => found == address,
        None => false,
    }
}

/// Whether a line is `station S:A` with this address.
fn is_short_line(line: &[u8], address: Address) -> bool
    ensures { result ≡ is_short_line address line.now }
{
    match split_once(line, b' ') {
        Some((name, word)) => name == b"station".as_slice() && is_address(word, address),
        None => false,
    }
}

/// Whether a text has the station at this address in the short form.
pub fn is_short_form(text: &[u8], address: Address) -> bool
    ensures { result ≡ is_short_form address text.now }
{
    let mut rest = text;
    while !rest.is_empty() {
        let (line, others) = first_line(rest);
        if is_short_line(line, address) {
            return true;
        }
        rest = others;
    }
    false
}
