//! What IPv4 and IPv6 share, and links that carry nothing else.

ghost use Rattle.std.specs.Prelude.{◌≡◌, take, drop};

/// Protocol number of UDP (RFC 768).
pub(crate) const USER_DATAGRAM: u8 = 17;

/// The bytes from an offset on; none, if there are not so many.
pub(crate) fn behind(bytes: &[u8], at: usize) -> &[u8]
    ensures { result.now ≡ drop at bytes.now }
{
    &bytes[at.min(bytes.len())..]
}

/// The `size` bytes from an offset on, or as many of them as are there.
pub(crate) fn part(bytes: &[u8], at: usize, size: usize) -> &[u8]
    ensures { result.now ≡ take size (drop at bytes.now) }
{
    let rest = behind(bytes, at);
    &rest[..size.min(rest.len())]
}
