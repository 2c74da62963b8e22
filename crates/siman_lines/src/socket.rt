//! The trait of a socket, and whom a link over it hears.

ghost use Rattle.std.specs.Prelude.{◌≡◌, List, Option, Some, None, ⊤, IfOk, IfErr, OnOk, OnErr, MatchOption};
ghost use Rattle.siman_lines.specs.Socket.{Hands, MayHand, Comes, Fails};

use std::io::ErrorKind;
use std::net::SocketAddr;

/// Whom a link hears, and what.
#[derive(Clone, Copy, Debug, PartialEq, Eq)]
pub struct Hearing {
    /// Datagrams from anyone, and not from its peers alone.
    pub anyone: bool,
    /// Datagrams of every protocol family, and not of Simulation Management alone.
    pub all: bool,
}

/// A socket of datagrams, whose calls never wait.
pub trait Socket {
    ghost use Rattle.siman_lines.specs.Socket.{Addressed, Failure};

    // Datagrams that were handed to it, oldest first, if sockets of this kind specify them.
    ghost handed: { Self → Option (List Addressed) } = { λ _. None };

    // Datagrams that it returned, each cut to its buffer, oldest first, if sockets of this kind
    // specify them.
    ghost came: { Self → Option (List Addressed) } = { λ _. None };

    // Its failed calls, oldest first, if sockets of this kind specify them.
    ghost failed: { Self → Option (List Failure) } = { λ _. None };

    // Relation between the states before and after a receive that found nothing.
    ghost finds_nothing: { Self → Self → Type 0 } = { λ _ _. ⊤ };

    /// Hands a datagram to the system, which is to send it to the peer. After a fault it may have
    /// been handed over or not.
    fn send_to(&mut self, datagram: &[u8], peer: SocketAddr) -> Result<(), ErrorKind>
        ensures handed { OnOk result (Hands (handed self.old) (handed self.new) datagram.now peer) }
        ensures lost { OnErr result (MayHand (handed self.old) (handed self.new) datagram.now peer) }
        ensures came { came self.new ≡ came self.old }
        ensures worked { OnOk result (failed self.new ≡ failed self.old) }
        ensures fails { IfErr result (λ kind. Fails (failed self.old) (failed self.new) (Some peer) kind) };

    /// Receives the next datagram into the front of the buffer, cut to the size of the buffer.
    /// Returns how many bytes it wrote there, and who sent it; `None` if no datagram is waiting.
    fn receive_from(&mut self, buffer: &mut [u8]) -> Result<Option<(usize, SocketAddr)>, ErrorKind>
        ensures came { IfOk result (λ r. MatchOption r (came self.new ≡ came self.old) (λ t. Comes (came self.old) (came self.new) t.0 t.1 buffer.new)) }
        ensures nothing { IfOk result (λ r. MatchOption r (finds_nothing self.old self.new) (λ t. Unit {0})) }
        ensures none { OnErr result (came self.new ≡ came self.old) }
        ensures handed { handed self.new ≡ handed self.old }
        ensures worked { OnOk result (failed self.new ≡ failed self.old) }
        ensures fails { IfErr result (λ kind. Fails (failed self.old) (failed self.new) None kind) };

    /// How many datagrams the system dropped before they could be received here, if it is known. No
    /// contract speaks of it: it is the system's own count.
    fn lost(&self) -> Option<u64> {
        None
    }

    /// How many bytes of datagrams the system keeps until they are received here, if it is known.
    /// No contract speaks of it.
    fn buffer(&self) -> Option<u64> {
        None
    }
}
