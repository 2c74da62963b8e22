//! Short texts, which a fault carries with it.

ghost use Rattle.std.specs.Prelude.{◌≡◌, ◌<◌, length, IfSome, None};
ghost use Rattle.byte_files.specs.Pieces.{placed_text};
ghost use Rattle.siman_outside.specs.ShortTexts.{short_bytes};

use byte_files::{PlacedText, put_placed};
use std::alloc::Global;

/// A text of at most 255 bytes.
#[derive(Clone, Copy)]
pub struct ShortText {
    bytes: [u8; 255],
    /// Number of its bytes.
    length: u8,
}

impl ShortText {
    /// The bytes of the text.
    pub(crate) fn bytes(&self) -> &[u8]
        ensures { result.now ≡ short_bytes self.now }
    {
        &self.bytes[..usize::from(self.length)]
    }
}

/// The text of these bytes, if it has at most 255.
pub fn short_of(text: &[u8]) -> Option<ShortText>
    ensures some { IfSome result (λ short. short_bytes short ≡ text.now) }
    ensures none { result ≡ None → 255 < length text.now }
{
    if text.len() > 255 {
        return None;
    }
    let mut bytes = [0u8; 255];
    bytes[..text.len()].copy_from_slice(text);
    Some(ShortText {
        bytes,
        length: text.len() as u8,
    })
}

/// A place and the text about it. `None` if both together have more than 255 bytes, or if memory
/// runs out.
pub fn short_text(alloc: Global, placed: PlacedText<'_>) -> Option<ShortText>
    ensures { IfSome result (λ short. short_bytes short ≡ placed_text placed.entry) }
{
    let mut bytes = Vec::new(alloc);
    match put_placed(&mut bytes, placed) {
        Ok(()) => short_of(&bytes),
        Err(_) => None,
    }
}
