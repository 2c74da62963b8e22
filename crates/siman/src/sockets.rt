//! UDP sockets: of the loopback, and at endpoints that the command line names. Their calls never wait,
//! and the system says what it dropped.

use crate::host_line::{HostLine, host_line};
use libc::net::{SO_RCVBUF, SOL_SOCKET, getsockopt, setsockopt};
use siman_console::{Endpoint, Listening};
use siman_lines::{Hearing, Socket, UdpLine};
use std::alloc::Global;
use std::io::ErrorKind;
use std::net::{Ipv4Addr, SocketAddr, SocketAddrV4, UdpSocket};
use std::os::fd::AsRawFd;
use std::{fs, io};

/// Bytes that the system is asked to keep until they are received.
const WANTED_BUFFER: i32 = 8 * 1024 * 1024;

/// Where the system lists its UDP sockets, with what it dropped of each.
const LISTS: [&str; 2] = ["/proc/net/udp", "/proc/net/udp6"];

/// Place of the inode of a socket in its row of such a list, from 0.
const INODE: usize = 9;

/// Place of the number of dropped datagrams.
const DROPS: usize = 12;

/// A UDP socket of the system.
#[derive(Drop)]
pub(crate) struct HostSocket<'a> {
    rt: &'a HostRuntime,
    socket: UdpSocket,
    /// Bytes that the system keeps until they are received, if it said so.
    buffer: Option<u64>,
}

impl<'a> HostSocket<'a> {
    /// Sets the socket to nonblocking, and asks for a large buffer. The system may give a smaller
    /// one.
    pub(crate) fn over(rt: &'a HostRuntime, socket: UdpSocket) -> io::Result<HostSocket<'a>> {
        socket.set_nonblocking(true)?;
        let buffer = ask_buffer(socket.as_raw_fd());
        Ok(HostSocket { rt, socket, buffer })
    }

    /// The number by which the system knows it in this process.
    pub(crate) fn descriptor(&self) -> i32 {
        self.socket.as_raw_fd()
    }
}

/// Asks for a receive buffer. Returns how many bytes the system gave.
fn ask_buffer(descriptor: i32) -> Option<u64> {
    let mut value = [0u8; 16];
    value[..4].copy_from_slice(&WANTED_BUFFER.to_ne_bytes());
    let mut length = 4;
    unsafe {
        if setsockopt(descriptor, SOL_SOCKET, SO_RCVBUF, &value, 4) != 0 {
            return None;
        }
        if getsockopt(descriptor, SOL_SOCKET, SO_RCVBUF, &mut value, &mut length) != 0 {
            return None;
        }
    }
    let [first, second, third, fourth, ..] = value;
    Some(u64::from(u32::from_ne_bytes([first, second, third, fourth])))
}

/// The number of dropped datagrams in a row of a list, if it is the row of the socket with this
/// inode.
fn drops_in(row: &str, inode: &str) -> Option<u64> {
    if row.split_whitespace().nth(INODE) != Some(inode) {
        return None;
    }
    row.split_whitespace().nth(DROPS)?.parse().ok()
}

/// How many datagrams the system dropped at the socket with this descriptor.
fn dropped_at(rt: &HostRuntime, descriptor: i32) -> Option<u64> {
    let path = format!(in rt.alloc(); "/proc/self/fd/{descriptor}").ok()?;
    let link = fs::read_link(rt, path.as_str()).ok()?;
    let inode = link.to_str()?.strip_prefix("socket:[")?.strip_suffix("]")?;
    for list in LISTS {
        let Ok(rows) = fs::read_to_string(rt, list) else {
            continue;
        };
        for row in rows.lines() {
            if let Some(drops) = drops_in(row, inode) {
                return Some(drops);
            }
        }
    }
    None
}

impl Socket for HostSocket<'_> {
    fn send_to(&mut self, datagram: &[u8], peer: SocketAddr) -> Result<(), ErrorKind> {
        match self.socket.send_to(datagram, peer) {
            Ok(count) => {
                if count == datagram.len() {
                    Ok(())
                } else {
                    Err(ErrorKind::Other)
                }
            }
            Err(error) => Err(error.kind()),
        }
    }

    fn receive_from(
        &mut self,
        buffer: &mut [u8],
    ) -> Result<Option<(usize, SocketAddr)>, ErrorKind> {
        match self.socket.recv_from(buffer) {
            Ok(received) => Ok(Some(received)),
            Err(error) => match error.kind() {
                ErrorKind::WouldBlock => Ok(None),
                kind => Err(kind),
            },
        }
    }

    fn lost(&self) -> Option<u64> {
        dropped_at(self.rt, self.socket.as_raw_fd())
    }

    fn buffer(&self) -> Option<u64> {
        self.buffer
    }
}

/// `count` sockets of the loopback, each bound to a free port.
fn sockets(rt: &HostRuntime, alloc: Global, count: usize) -> io::Result<Vec<UdpSocket>> {
    let mut sockets = Vec::new(alloc);
    for _ in 0..count {
        sockets.push(UdpSocket::bind(rt, (Ipv4Addr::LOCALHOST, 0))?)?;
    }
    Ok(sockets)
}

/// The local address of each socket.
fn addresses(alloc: Global, sockets: &[UdpSocket]) -> io::Result<Vec<SocketAddr>> {
    let mut addresses = Vec::new(alloc);
    for socket in sockets {
        addresses.push(socket.local_addr()?)?;
    }
    Ok(addresses)
}

/// All addresses but the one at `index`.
fn others(alloc: Global, addresses: &[SocketAddr], index: usize) -> io::Result<Vec<SocketAddr>> {
    let mut others = Vec::new(alloc);
    for (number, address) in addresses.iter().enumerate() {
        if number != index {
            others.push(*address)?;
        }
    }
    Ok(others)
}

/// The links of `stations` stations over the loopback, each of which sends to all others, and hears
/// them alone, whatever they send.
pub(crate) fn lines_of(
    rt: &HostRuntime,
    alloc: Global,
    stations: usize,
) -> io::Result<Vec<HostLine<'_>>> {
    let hearing = Hearing {
        anyone: false,
        all: true,
    };
    let sockets = sockets(rt, alloc, stations)?;
    let addresses = addresses(alloc, &sockets)?;
    let mut lines = Vec::new(alloc);
    for (index, socket) in sockets.into_iter().enumerate() {
        let peers = others(alloc, &addresses, index)?;
        let socket = HostSocket::over(rt, socket)?;
        lines.push(host_line(UdpLine::over(socket, peers, hearing)))?;
    }
    Ok(lines)
}

/// The socket address of an endpoint.
fn address_of(endpoint: Endpoint) -> SocketAddr {
    let (first, second, third, fourth) = endpoint.ip;
    let ip = Ipv4Addr::new(first, second, third, fourth);
    SocketAddr::V4(SocketAddrV4::new(ip, endpoint.port))
}

/// The link of one station: a socket bound to `bind` that may broadcast. It sends to each of
/// `endpoints`, and hears whom and what `listening` says.
pub(crate) fn line_at<'a>(
    rt: &'a HostRuntime,
    alloc: Global,
    bind: Endpoint,
    endpoints: &[Endpoint],
    listening: Listening,
) -> io::Result<HostLine<'a>> {
    let mut peers = Vec::new(alloc);
    for endpoint in endpoints {
        peers.push(address_of(*endpoint))?;
    }
    let socket = UdpSocket::bind(rt, address_of(bind))?;
    socket.set_broadcast(true)?;
    let hearing = Hearing {
        anyone: listening.anyone,
        all: listening.all,
    };
    let socket = HostSocket::over(rt, socket)?;
    Ok(host_line(UdpLine::over(socket, peers, hearing)))
}
