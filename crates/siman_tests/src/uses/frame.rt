//! Frames of a capture.

ghost use Rattle.std.specs.Prelude.{IfSome, length, take, true, ◌<◌, ◌≡◌, ◌≤◌};
ghost use Rattle.packet_captures.specs.Carried.{Other, plain_datagram};
ghost use Rattle.packet_captures.specs.Frame.{contents};
ghost use Rattle.packet_captures.specs.UserDatagram.{is_whole};

use packet_captures::{
    Carried, Datagram, Link, contents, cut_frames_say_what_is_so, whole_frames_carry_wholes,
};

/// Who has all bytes of a frame has all data of its datagram, and need not compare sizes.
pub fn carries_all_its_data(link: Link, frame: &[u8]) -> Option<Datagram<'_>>
    ensures { IfSome result (λ datagram. is_whole (plain_datagram datagram) ≡ true) }
{
    whole_frames_carry_wholes();
    match contents(link, 0, frame) {
        Carried::Datagram(datagram) => Some(datagram),
        _ => None,
    }
}

/// Who captures only the front of each frame passes over no datagram: where the front carries
/// nothing, the frame carries nothing.
pub fn is_as_its_front_says(link: Link, original: u32, kept: usize, frame: &[u8])
    ensures { length frame.now ≤ original → kept < length frame.now → contents link original (take kept frame.now) ≡ Other → contents link original frame.now ≡ Other }
{
    cut_frames_say_what_is_so();
}
