//! Decoding hex text.

ghost use Rattle.std.specs.Prelude.{◌≡◌, ◌⊎◌, IfOk, IfErr, Some, None};
ghost use Rattle.siman_file_commands.specs.HexText.{bytes_of};

use siman_outside::Fault;
use std::alloc::Global;

/// Size in bytes of the longest hex text that is read.
pub const LONGEST_HEX: usize = 65_536;

/// The bytes that a text spells in pairs of hex digits of either case, with nothing else before,
/// between or after them. `NotBytePairs` for any other text and for one of more than 65,536 bytes.
pub fn hex_bytes(alloc: Global, text: &[u8]) -> Result<Vec<u8>, Fault<'static>>
    ensures read { IfOk result (λ bytes. bytes_of text.now ≡ Some bytes.items) }
    ensures refused { IfErr result (λ fault. (fault ≡ Fault.Memory) ⊎ ((fault ≡ Fault.NotBytePairs) × (bytes_of text.now ≡ None))) }
{
    if text.len() > LONGEST_HEX {
        return Err(Fault::NotBytePairs);
    }
    match hex::decode(alloc, text) {
        Ok(bytes) => Ok(bytes),
        Err(hex::FromHexError::OutOfMemory) => Err(Fault::Memory),
        Err(_) => Err(Fault::NotBytePairs),
    }
}
