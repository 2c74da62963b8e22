//! A link over a socket of datagrams.

ghost use Rattle.std.specs.Prelude.{◌≡◌};
ghost use Rattle.siman_lines.specs.Udp.{v4_of, SendsToAll};

use crate::line::{Line, LineFault, PassedOver};
use crate::socket::{Hearing, Socket};
use crate::trouble::{LineCall, LineTrouble};
use arrayvec::ArrayVec;
use http_server::Log;
use std::io::ErrorKind;
use std::net::{SocketAddr, SocketAddrV4};

/// Most datagrams that one receive passes over.
const MOST_PASSED_OVER: u32 = 64;

/// Most strangers whose addresses are kept.
const MOST_STRANGERS: usize = 64;

/// The protocol family of Simulation Management.
const FAMILY: u8 = 5;

/// A link over a socket. Each datagram goes to every peer. It passes over the datagrams that it is
/// not to hear, and counts them.
#[derive(Drop)]
pub struct UdpLine<S: Drop> {
    socket: S,
    peers: Vec<SocketAddr>,
    hearing: Hearing,
    passed: PassedOver,
    /// The strangers that came first, in the order in which they came.
    strangers: ArrayVec<Option<SocketAddr>, MOST_STRANGERS>,
    failures: Log<(), ()>,
    trouble: Option<LineTrouble>,
}

impl<S: Drop> UdpLine<S> {
    ghost use Rattle.std.specs.Prelude.{◌≡◌, ◌+◌, [], length};
    ghost use Rattle.siman_lines.specs.Passed.{passed_nothing};
    ghost use Rattle.siman_lines.specs.Udp.{is_stranger, is_other, is_passed_over, passed_on, strangers_with, strangers_after};

    /// Makes a link over a socket whose receives never wait. It sends to each of these peers, in
    /// their order, and returns datagrams from them alone, unless it hears anyone, and of
    /// Simulation Management alone, unless it hears all. One receive passes over at most 64
    /// datagrams, and then finds nothing.
    pub fn over(socket: S, peers: Vec<SocketAddr>, hearing: Hearing) -> UdpLine<S>
        ensures socket { result.socket ≡ socket }
        ensures peers { result.peers ≡ peers }
        ensures hearing { result.hearing ≡ hearing }
        ensures passed { result.passed ≡ passed_nothing }
        ensures strangers { result.strangers.items ≡ [] }
        ensures trouble { result.trouble ≡ None }
        ensures failures { length result.failures.items ≡ 0 }
    {
        UdpLine {
            socket,
            peers,
            hearing,
            passed: PassedOver::nothing(),
            strangers: ArrayVec::new(),
            failures: Log::new(),
            trouble: None,
        }
    }

    /// Its socket.
    pub fn socket(&self) -> &S
        ensures { result.now ≡ self.now.socket }
    {
        &self.socket
    }

    /// Counts a failed call, and stores which it was.
    fn fail(&mut self, trouble: LineTrouble) -> LineFault
        ensures counted { length self.new.failures.items ≡ length self.old.failures.items + 1 }
        ensures socket { self.new.socket ≡ self.old.socket }
        ensures peers { self.new.peers ≡ self.old.peers }
        ensures hearing { self.new.hearing ≡ self.old.hearing }
        ensures passed { self.new.passed ≡ self.old.passed }
        ensures kept { self.new.trouble ≡ Some trouble }
    {
        self.failures = self.failures.and(&(), &());
        self.trouble = Some(trouble);
        LineFault::Failed
    }

    /// Whether a sender is a stranger.
    fn is_stranger(&self, from: SocketAddr) -> bool
        ensures { result ≡ is_stranger self.now.peers.items self.now.hearing from }
    {
        !(self.hearing.anyone || self.peers.contains(&from))
    }

    /// Whether a datagram is of a protocol family that it does not hear.
    fn is_other(&self, datagram: &[u8]) -> bool
        ensures { result ≡ is_other self.now.hearing datagram.now }
    {
        !self.hearing.all && datagram.len() > 3 && datagram[3] != FAMILY
    }

    /// Keeps the address of a stranger, if it is none of those that are kept, and there are fewer
    /// than 64.
    fn keep_stranger(&mut self, from: SocketAddr)
        ensures strangers { self.new.strangers.items ≡ strangers_with from self.old.strangers.items }
        ensures passed { self.new.passed ≡ self.old.passed }
        ensures socket { self.new.socket ≡ self.old.socket }
        ensures peers { self.new.peers ≡ self.old.peers }
        ensures hearing { self.new.hearing ≡ self.old.hearing }
        ensures failures { self.new.failures ≡ self.old.failures }
        ensures trouble { self.new.trouble ≡ self.old.trouble }
    {
        let from = Some(from);
        if !self.strangers.contains(&from) && self.strangers.len() < MOST_STRANGERS {
            self.strangers.push(from);
        }
    }

    /// Whether a datagram is passed over. Counts it, if so, and keeps the address of a stranger.
    fn passes_over(&mut self, datagram: &[u8], from: SocketAddr) -> bool
        ensures result { result ≡ is_passed_over self.old.peers.items self.old.hearing (record { address = from; bytes = datagram.now }) }
        ensures passed { self.new.passed ≡ passed_on self.old.peers.items self.old.hearing (record { address = from; bytes = datagram.now }) self.old.passed }
        ensures strangers { self.new.strangers.items ≡ strangers_after self.old.peers.items self.old.hearing from self.old.strangers.items }
        ensures socket { self.new.socket ≡ self.old.socket }
        ensures peers { self.new.peers ≡ self.old.peers }
        ensures hearing { self.new.hearing ≡ self.old.hearing }
        ensures failures { self.new.failures ≡ self.old.failures }
        ensures trouble { self.new.trouble ≡ self.old.trouble }
    {
        if self.is_stranger(from) {
            self.passed.strangers = self.passed.strangers.saturating_add(1);
            self.keep_stranger(from);
            return true;
        }
        if self.is_other(datagram) {
            self.passed.others = self.passed.others.saturating_add(1);
            return true;
        }
        false
    }
}

/// The IPv4 address, if it is one.
fn v4_of(address: SocketAddr) -> Option<SocketAddrV4>
    ensures { result ≡ v4_of address }
{
    match address {
        SocketAddr::V4(address) => Some(address),
        SocketAddr::V6(_) => None,
    }
}

/// Sends a datagram to each of these peers, also behind one whose send failed. Returns the failure
/// of the first that failed.
fn send_to_all<S: Socket>(
    socket: &mut S,
    datagram: &[u8],
    peers: &[SocketAddr],
) -> Option<LineTrouble>
    ensures { SendsToAll (record { handed = S.handed; came = S.came; failed = S.failed }) datagram.now peers.now socket.old socket.new result }
{
    let mut first: Option<LineTrouble> = None;
    for peer in peers {
        if let Err(kind) = socket.send_to(datagram, *peer) {
            first = first.or(Some(LineTrouble {
                call: LineCall::Send,
                peer: v4_of(*peer),
                kind,
            }));
        }
    }
    first
}

/// Description of a failed receive.
fn receive_trouble(kind: ErrorKind) -> LineTrouble
    ensures { result ≡ record { call = LineCall.Receive; peer = None; kind = kind } }
{
    LineTrouble {
        call: LineCall::Receive,
        peer: None,
        kind,
    }
}

impl<S: Socket + Drop> UdpLine<S> {
    ghost use Rattle.std.specs.Prelude.{◌≡◌, ◌<◌, OnOk, OnErr, length};
    ghost use Rattle.siman_lines.specs.Udp.{Receives};

    /// Receives the next datagram that it hears into the front of the buffer.
    fn receive_next(&mut self, buffer: &mut [u8]) -> Result<Option<usize>, LineFault>
        ensures ends { Receives (record { handed = S.handed; came = S.came; failed = S.failed }) S.finds_nothing buffer.new self.old self.new result }
        ensures worked { OnOk result (self.new.failures ≡ self.old.failures) }
        ensures failed { OnErr result (length self.old.failures.items < length self.new.failures.items) }
    {
        for _ in 0..MOST_PASSED_OVER {
            match self.socket.receive_from(buffer) {
                Ok(Some((taken, from))) => {
                    if !self.passes_over(&buffer[..taken], from) {
                        return Ok(Some(taken));
                    }
                }
                Ok(None) => return Ok(None),
                Err(kind) => return Err(self.fail(receive_trouble(kind))),
            }
        }
        Ok(None)
    }
}

impl<S: Socket + Drop> Line for UdpLine<S> {
    ghost use Rattle.std.specs.Prelude.{◌≡◌, ℕ, List, length};
    ghost use Rattle.siman_lines.specs.Udp.{Sends, Receives, heard_of};

    ghost received = { λ l. heard_of l.peers.items l.hearing (S.came l.socket) };

    ghost failures = { λ l. length l.failures.items };

    ghost finds_nothing = { λ old new. new.failures ≡ old.failures };

    ghost passed = { λ l. l.passed };

    ghost sends = { Sends (record { handed = S.handed; came = S.came; failed = S.failed }) };

    ghost receives = { λ old new result. (buffer : List ℕ) × Receives (record { handed = S.handed; came = S.came; failed = S.failed }) S.finds_nothing buffer old new result };

    fn send(&mut self, datagram: &[u8]) -> Result<(), LineFault> {
        match send_to_all(&mut self.socket, datagram, &self.peers) {
            None => Ok(()),
            Some(trouble) => Err(self.fail(trouble)),
        }
    }

    fn receive(&mut self, buffer: &mut [u8]) -> Result<Option<usize>, LineFault> {
        self.receive_next(buffer)
    }

    fn passed(&self) -> PassedOver {
        self.passed
    }

    fn stranger(&self, place: usize) -> Option<SocketAddr> {
        match self.strangers.as_slice().get(place) {
            Some(stranger) => *stranger,
            None => None,
        }
    }

    fn trouble(&self) -> Option<LineTrouble> {
        self.trouble
    }

    fn lost(&self) -> Option<u64> {
        self.socket.lost()
    }

    fn buffer(&self) -> Option<u64> {
        self.socket.buffer()
    }
}
