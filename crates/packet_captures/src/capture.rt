//! A packet capture that is read packet after packet.

ghost use Rattle.std.specs.Prelude.{◌≡◌, Some, IfSome, IfOk};
ghost use Rattle.std.specs.Option.{option_map};
ghost use Rattle.packet_captures.specs.Answers.{FindsNext};
ghost use Rattle.packet_captures.specs.Capture.{capture_of, next_found};
ghost use Rattle.packet_captures.specs.Reading.{ReadsNext, capture_ahead, reading_of};
ghost use Rattle.packet_captures.specs.State.{lost_of};
ghost use Rattle.packet_captures.specs.Window.{bytes_ahead};

use crate::capture_fault::CaptureFault;
use crate::form::Form;
use crate::front::{front, is_whole};
use crate::packet::PacketHead;
use crate::state::CaptureState;
use crate::window::Window;
use std::alloc::{AllocError, Global};
use std::io::Read;
use std::marker::Model;

/// Reads records and blocks up to the next packet; gives its head, or none at the end.
fn next_packet<R: Read>(
    window: &mut Window<R>,
    state: &mut CaptureState,
    name: Option<&[u8]>,
) -> Result<Option<PacketHead>, CaptureFault>
    ensures { IfSome (bytes_ahead window.old) (λ b. FindsNext result window.new state.new (next_found (option_map (λ n. n.now) name.entry) state.old window.old.at b)) }
{
    for _ in 0..u64::MAX {
        if is_whole(window, state)? {
            return Ok(None);
        }
        if let Some(head) = front(window, state, name)? {
            return Ok(Some(head));
        }
    }
    Err(CaptureFault::Read)
}

/// A capture of either format, over a reader, and the name of the wanted interface, if one is given.
#[derive(Drop)]
pub struct Capture<'a, R: Read> {
    window: Window<R>,
    state: CaptureState,
    name: Option<&'a [u8]>,
}

impl<'a, R: Read> Model for Capture<'a, R> {
    ghost use Rattle.std.specs.Option.{option_map};
    ghost use Rattle.packet_captures.specs.Reading.{Reading};

    ghost Value = { Reading };

    ghost view = { λ c. record { ahead = c.window; state = c.state; name = option_map (λ n. n.now) c.name } };
}

impl<'a, R: Read + Drop> Capture<'a, R> {
    /// Capture over a whole reader; where a name is given, packets of interfaces of this name are
    /// wanted, and no others. Takes memory for a buffer.
    pub fn new(
        alloc: Global,
        reader: R,
        name: Option<&'a [u8]>,
    ) -> Result<Capture<'a, R>, AllocError>
        ensures all { IfOk result (λ c. c ≡ reading_of (R.remaining reader) (option_map (λ n. n.now) name.entry)) }
        // All of the file's capture is ahead.
        ensures capture { IfSome (R.remaining reader) (λ file. IfOk result (λ c. capture_ahead c ≡ Some (capture_of (option_map (λ n. n.now) name.entry) file))) }
    {
        let window = Window::new(alloc, reader)?;
        Ok(Capture {
            window,
            state: CaptureState::new(alloc),
            name,
        })
    }
}

impl<'a, R: Read> Capture<'a, R> {
    /// Reads up to the next packet, and gives its head; its bytes are those of
    /// [`Capture::packet_bytes`] until the next call. `None` where the capture ends whole. After a
    /// fault no more packets may be read, but [`Capture::lost`] still counts.
    pub fn next(&mut self) -> Result<Option<PacketHead>, CaptureFault>
        ensures packet { IfSome (capture_ahead self.old) (ReadsNext result self.new) }
        ensures next { IfSome (bytes_ahead self.old.ahead) (λ b. FindsNext result self.new.ahead self.new.state (next_found self.old.name self.old.state self.old.ahead.at b)) }
        ensures name { self.new.name ≡ self.old.name }
    {
        next_packet(&mut self.window, &mut self.state, self.name)
    }

    /// The captured bytes of the last packet.
    pub fn packet_bytes(&self) -> &[u8]
        ensures { result.now ≡ self.now.ahead.kept }
    {
        self.window.kept()
    }

    /// Form of the bytes that follow: behind a packet that of its record or block, which says in which
    /// byte order the capturing host has numbers.
    pub fn form(&self) -> Form
        ensures { result ≡ self.now.state.form }
    {
        self.state.form()
    }

    /// Number of packets that the capturing system says that it lost, as far as the capture was
    /// read; no more than 64 bits hold.
    pub fn lost(&self) -> u64
        ensures { result ≡ lost_of self.now.state }
    {
        self.state.lost()
    }
}
