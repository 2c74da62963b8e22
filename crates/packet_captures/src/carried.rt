//! What a frame carries.

ghost use Rattle.std.specs.Prelude.{◌≡◌, ℕ, ◌<◌, ◌≤◌, List, length, take};
ghost use Rattle.packet_captures.specs.Carried.{shown, ended};
ghost use Rattle.packet_captures.specs.Frame.{contents};
ghost use Rattle.packet_captures.specs.Cutting.{Agrees, IsWhole};
ghost use Rattle.packet_captures.specs.declared.link.Link.{Link};

use crate::cooked::{cooked, cooked_2};
use crate::ethernet::ethernet;
use crate::fragment::Fragment;
use crate::host::Host;
use crate::internet_4::internet_4;
use crate::internet_6::internet_6;
use crate::link::Link;
use crate::loopback::{loopback, raw};
use crate::user_datagram::Datagram;

/// From where an IP packet comes, and to whom it goes.
#[derive(Clone, Copy, Debug, PartialEq, Eq)]
pub struct Addresses {
    pub source: Host,
    pub target: Host,
    /// The link says that the packet is for all: it goes to an Ethernet group address, or is a
    /// broadcast or multicast of Linux cooked capture.
    pub to_group: bool,
}

impl Addresses {
    ghost use Rattle.std.specs.Prelude.{◌||◌};
    ghost use Rattle.packet_captures.specs.Host.{is_for_all};

    /// Whether the packet is for all, by its target address or by the link.
    pub fn are_for_all(self) -> bool
        ensures { result ≡ (self.to_group || is_for_all self.target) }
    {
        self.to_group || self.target.is_for_all()
    }
}

/// What a frame carries, as far as the bytes that the capture kept of it say.
#[derive(Clone, Copy, PartialEq, Eq)]
pub enum Carried<'a> {
    /// Nothing that is read: no UDP datagram over IPv4 or IPv6 and no fragment of one. So is what is
    /// malformed, and an IP packet that is longer than its frame though that was not cut.
    Other,
    /// The capture cut the frame before it says whether it carries a UDP datagram or a fragment of
    /// one. The addresses are there if both were kept.
    Unsettled(Option<Addresses>),
    /// A UDP datagram, or what the capture kept of it.
    Datagram(Datagram<'a>),
    /// A fragment of a UDP datagram, or what the capture kept of it.
    Fragment(Fragment<'a>),
}

/// What a frame carries whose header ends too early: nothing; if the capture cut it, that is not
/// settled.
pub(crate) fn ended<'a>(cut: bool) -> Carried<'a>
    ensures { shown result ≡ ended cut }
{
    if cut {
        Carried::Unsettled(None)
    } else {
        Carried::Other
    }
}

/// What a frame carries that had `original` bytes, of which the capture kept these. It was cut if
/// there are fewer; bytes beyond `original` are read as the others.
#[tactic(auto, unfolding(crate::specs::Frame::contents))]
pub fn contents(link: Link, original: u32, bytes: &[u8]) -> Carried<'_>
    ensures { shown result ≡ contents link original bytes.now }
{
    let cut = bytes.len() < original as usize;
    match link {
        Link::Ethernet => ethernet(bytes, cut),
        Link::LoopbackLittle => loopback(bytes, true, cut),
        Link::LoopbackBig => loopback(bytes, false, cut),
        Link::Raw => raw(bytes, cut),
        Link::Raw4 => internet_4(bytes, false, cut),
        Link::Raw6 => internet_6(bytes, false, cut),
        Link::Cooked => cooked(bytes, cut),
        Link::Cooked2 => cooked_2(bytes, cut),
    }
}

/// Law: what a cut frame says is so. Of a frame of which fewer bytes were kept it is said what is
/// said with more of them, or it is left open, or more bytes show that the frame is malformed.
pub fn cut_frames_say_what_is_so()
    ensures { (link : Link) (original n : ℕ) (b : List ℕ) → length b ≤ original → n < length b → Agrees (contents link original (take n b)) (contents link original b) }
{}

/// Law: of a frame that was not cut it is settled what it carries, and all bytes of that are there.
pub fn whole_frames_carry_wholes()
    ensures { (link : Link) (original : ℕ) (b : List ℕ) → original ≤ length b → IsWhole (contents link original b) }
{}
