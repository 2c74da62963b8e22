//! Links, by the link types of captures.

ghost use Rattle.std.specs.Prelude.{◌≡◌, ◌↔◌, IsSome, IsTrue};
ghost use Rattle.packet_captures.specs.Link.{link_of, is_link};

/// The header that stands before the packet of a frame, by tcpdump's link-layer header types
/// (LINKTYPE_ values).
#[derive(Clone, Copy, Debug, PartialEq, Eq)]
pub enum Link {
    /// Ethernet (1).
    Ethernet,
    /// Loopback of a capturing host with little-endian numbers (0).
    LoopbackLittle,
    /// Loopback of a capturing host with big-endian numbers (0), or of OpenBSD (108).
    LoopbackBig,
    /// No header: IPv4 or IPv6 (101).
    Raw,
    /// No header: IPv4 (228).
    Raw4,
    /// No header: IPv6 (229).
    Raw6,
    /// Linux cooked capture (113).
    Cooked,
    /// Linux cooked capture, version 2 (276).
    Cooked2,
}

impl Link {
    /// Link of a link type, in a capture whose host has little-endian numbers or not, if it is read.
    pub fn of(code: u16, is_little: bool) -> Option<Link>
        ensures link { result ≡ link_of code is_little }
        ensures read { IsSome result ↔ IsTrue (is_link code) }
    {
        match code {
            0 if is_little => Some(Link::LoopbackLittle),
            0 | 108 => Some(Link::LoopbackBig),
            1 => Some(Link::Ethernet),
            101 => Some(Link::Raw),
            113 => Some(Link::Cooked),
            228 => Some(Link::Raw4),
            229 => Some(Link::Raw6),
            276 => Some(Link::Cooked2),
            _ => None,
        }
    }
}
