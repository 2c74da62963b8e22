//! A socket in memory.

ghost use Rattle.std.specs.Prelude.{◌≡◌, IfOk};

use http_server::Log;
use siman_lines::Socket;
use std::alloc::{AllocError, Global};
use std::io::ErrorKind;
use std::net::SocketAddr;

/// A datagram, with the address that it goes to or comes from.
#[derive(Drop)]
pub struct AddressedDatagram {
    pub address: SocketAddr,
    pub bytes: Vec<u8>,
}

/// A copy of a datagram.
fn addressed(
    alloc: Global,
    address: SocketAddr,
    datagram: &[u8],
) -> Result<AddressedDatagram, AllocError>
    ensures { IfOk result (λ d. (d.address ≡ address) × (d.bytes.items ≡ datagram.now)) }
{
    Ok(AddressedDatagram {
        address,
        bytes: Vec::from_slice(alloc, datagram)?,
    })
}

/// A socket in memory: datagrams to receive, those that it returned, those that were handed to it,
/// and one peer to whom no send succeeds.
#[derive(Drop)]
pub struct MemorySocket {
    alloc: Global,
    coming: Vec<AddressedDatagram>,
    given: usize,
    came: Vec<AddressedDatagram>,
    handed: Vec<AddressedDatagram>,
    refused: Option<SocketAddr>,
    failed: Log<Option<SocketAddr>, ErrorKind>,
}

impl MemorySocket {
    ghost use Rattle.std.specs.Prelude.{◌≡◌, ◌++◌, ◌∷◌, []};
    ghost use Rattle.siman_trials.specs.MemorySocket.{addressed_of, failures_of};

    /// Makes a socket that returns the datagrams of `coming`, in this order. Every send to the peer
    /// `refused` fails, and hands nothing over. A call also fails if memory for a copy of its
    /// datagram is refused.
    pub fn new(
        alloc: Global,
        coming: Vec<AddressedDatagram>,
        refused: Option<SocketAddr>,
    ) -> MemorySocket
        ensures came { addressed_of result.came.items ≡ [] }
        ensures handed { addressed_of result.handed.items ≡ [] }
        ensures coming { result.coming ≡ coming }
        ensures given { result.given ≡ 0 }
        ensures refused { result.refused ≡ refused }
        ensures failed { failures_of result.failed.items ≡ [] }
    {
        MemorySocket {
            alloc,
            coming,
            given: 0,
            came: Vec::new(alloc),
            handed: Vec::new(alloc),
            refused,
            failed: Log::new(),
        }
    }

    /// Datagrams that were handed to it, oldest first.
    pub fn handed(&self) -> &[AddressedDatagram]
        ensures { result.now ≡ self.now.handed.items }
    {
        &self.handed
    }

    /// Counts a failed call.
    fn fail(&mut self, peer: Option<SocketAddr>, kind: ErrorKind) -> ErrorKind
        ensures counted { failures_of self.new.failed.items ≡ failures_of self.old.failed.items ++ record { peer = peer; kind = kind } ∷ [] }
        ensures came { self.new.came ≡ self.old.came }
        ensures handed { self.new.handed ≡ self.old.handed }
        ensures kind { result ≡ kind }
    {
        self.failed = self.failed.and(&peer, &kind);
        kind
    }
}

impl Socket for MemorySocket {
    ghost use Rattle.std.specs.Prelude.{Some, ◌≤◌, length};
    ghost use Rattle.siman_trials.specs.MemorySocket.{addressed_of, failures_of};

    ghost handed = { λ s. Some (addressed_of s.handed.items) };

    ghost came = { λ s. Some (addressed_of s.came.items) };

    ghost failed = { λ s. Some (failures_of s.failed.items) };

    ghost finds_nothing = { λ old new. length old.coming.items ≤ old.given };

    fn send_to(&mut self, datagram: &[u8], peer: SocketAddr) -> Result<(), ErrorKind> {
        if self.refused == Some(peer) {
            return Err(self.fail(Some(peer), ErrorKind::ConnectionRefused));
        }
        let Ok(copy) = addressed(self.alloc, peer, datagram) else {
            return Err(self.fail(Some(peer), ErrorKind::OutOfMemory));
        };
        if self.handed.push(copy).is_err() {
            return Err(self.fail(Some(peer), ErrorKind::OutOfMemory));
        }
        Ok(())
    }

    fn receive_from(
        &mut self,
        buffer: &mut [u8],
    ) -> Result<Option<(usize, SocketAddr)>, ErrorKind> {
        let Some(next) = self.coming.get(self.given) else {
            return Ok(None);
        };
        let from = next.address;
        let taken = next.bytes.len().min(buffer.len());
        buffer[..taken].copy_from_slice(&next.bytes[..taken]);
        let Ok(copy) = addressed(self.alloc, from, &buffer[..taken]) else {
            return Err(self.fail(None, ErrorKind::OutOfMemory));
        };
        if self.came.push(copy).is_err() {
            return Err(self.fail(None, ErrorKind::OutOfMemory));
        }
        self.given += 1;
        Ok(Some((taken, from)))
    }
}
