//! Links over a socket in memory: to whom a datagram goes, and which datagrams are passed over.

use siman_lines::{Hearing, Line, LineCall, PassedOver, UdpLine};
use siman_trials::{AddressedDatagram, MemorySocket};
use std::alloc::{AllocError, Global};
use std::io::ErrorKind;
use std::net::{Ipv4Addr, SocketAddr, SocketAddrV4};

/// A Stop/Freeze PDU has the family 5 in its fourth byte, an Entity State PDU the family 1.
const STOP: [u8; 5] = [7, 1, 14, 5, 0];

const STATE: [u8; 4] = [7, 1, 1, 1];

const SHORT: [u8; 3] = [7, 1, 1];

const PEERS_ALONE: Hearing = Hearing {
    anyone: false,
    all: false,
};

const ALL: Hearing = Hearing {
    anyone: false,
    all: true,
};

const ANYONE: Hearing = Hearing {
    anyone: true,
    all: false,
};

/// The address of a host of the network 10.0.0.0.
fn host(number: u8) -> SocketAddr {
    SocketAddr::V4(SocketAddrV4::new(Ipv4Addr::new(10, 0, 0, number), 3000))
}

/// Datagrams, each with the number of the host that sent it.
fn datagrams(alloc: Global, sent: &[(u8, &[u8])]) -> Result<Vec<AddressedDatagram>, AllocError> {
    let mut datagrams = Vec::new(alloc);
    for (number, bytes) in sent {
        datagrams.push(AddressedDatagram {
            address: host(*number),
            bytes: Vec::from_slice(alloc, bytes)?,
        })?;
    }
    Ok(datagrams)
}

/// A link to the hosts 1 and 2, to which these datagrams come. No send to the host `refused` succeeds.
fn line(
    alloc: Global,
    sent: &[(u8, &[u8])],
    refused: Option<u8>,
    hearing: Hearing,
) -> Result<UdpLine<MemorySocket>, AllocError> {
    let refused = match refused {
        Some(number) => Some(host(number)),
        None => None,
    };
    let mut peers = Vec::new(alloc);
    peers.push(host(1))?;
    peers.push(host(2))?;
    let socket = MemorySocket::new(alloc, datagrams(alloc, sent)?, refused);
    Ok(UdpLine::over(socket, peers, hearing))
}

/// What the receives of a link return, and what it passed over: as many bytes as each wanted
/// datagram has, these bytes at the front of the buffer, and then nothing.
fn hears(
    alloc: Global,
    sent: &[(u8, &[u8])],
    hearing: Hearing,
    buffer: &mut [u8],
    wanted: &[&[u8]],
    passed: PassedOver,
) -> bool {
    let Ok(mut line) = line(alloc, sent, None, hearing) else {
        return false;
    };
    for bytes in wanted {
        match line.receive(buffer) {
            Ok(Some(size)) => {
                if &buffer[..size] != *bytes {
                    return false;
                }
            }
            _ => return false,
        }
    }
    line.receive(buffer) == Ok(None) && line.passed() == passed
}

#[test]
fn a_send_goes_to_each_peer_behind_one_that_fails(rt: HostRuntime) {
    let mut line = line(rt.alloc(), &[], Some(1), PEERS_ALONE).expect(&rt, "there is memory");
    assert!(rt; line.send(&STOP).is_err());
    let handed = line.socket().handed();
    assert!(rt; handed.len() == 1);
    assert!(rt; handed[0].address == host(2) && &handed[0].bytes[..] == &STOP[..]);
    let trouble = line.trouble().expect(&rt, "a call failed");
    assert!(rt; trouble.call == LineCall::Send && trouble.kind == ErrorKind::ConnectionRefused);
    assert!(rt; trouble.peer == Some(SocketAddrV4::new(Ipv4Addr::new(10, 0, 0, 1), 3000)));
}

#[test]
fn a_send_goes_to_each_peer_in_order(rt: HostRuntime) {
    let mut line = line(rt.alloc(), &[], None, PEERS_ALONE).expect(&rt, "there is memory");
    assert!(rt; line.send(&STOP).is_ok());
    let handed = line.socket().handed();
    assert!(rt; handed.len() == 2);
    assert!(rt; handed[0].address == host(1) && handed[1].address == host(2));
    assert!(rt; line.trouble().is_none());
}

/// A stranger, whatever it sends, counts as one; of peers another family counts, and three bytes
/// have none.
#[test]
fn strangers_and_other_families_are_passed_over(rt: HostRuntime) {
    let sent: [(u8, &[u8]); 6] = [
        (3, &STOP),
        (3, &STATE),
        (1, &STATE),
        (2, &SHORT),
        (2, &STATE),
        (1, &STOP),
    ];
    let of_both = PassedOver {
        strangers: 2,
        others: 2,
    };
    let of_strangers = PassedOver {
        strangers: 2,
        others: 0,
    };
    let of_others = PassedOver {
        strangers: 0,
        others: 3,
    };
    assert!(rt;
        hears(
            rt.alloc(),
            &sent,
            PEERS_ALONE,
            &mut [0u8; 16],
            &[&SHORT, &STOP],
            of_both
        )
    );
    assert!(rt;
        hears(
            rt.alloc(),
            &sent,
            ALL,
            &mut [0u8; 16],
            &[&STATE, &SHORT, &STATE, &STOP],
            of_strangers
        )
    );
    assert!(rt;
        hears(
            rt.alloc(),
            &sent,
            ANYONE,
            &mut [0u8; 16],
            &[&STOP, &SHORT, &STOP],
            of_others
        )
    );
}

#[test]
fn a_datagram_is_cut_to_the_buffer(rt: HostRuntime) {
    let sent: [(u8, &[u8]); 2] = [(1, &STATE), (2, &STOP)];
    let nothing = PassedOver {
        strangers: 0,
        others: 0,
    };
    let other = PassedOver {
        strangers: 0,
        others: 1,
    };
    // In three bytes no family is seen.
    assert!(rt;
        hears(
            rt.alloc(),
            &sent,
            PEERS_ALONE,
            &mut [0u8; 3],
            &[&[7, 1, 1], &[7, 1, 14]],
            nothing
        )
    );
    assert!(rt;
        hears(
            rt.alloc(),
            &sent,
            PEERS_ALONE,
            &mut [0u8; 4],
            &[&[7, 1, 14, 5]],
            other
        )
    );
}

#[test]
fn one_receive_passes_64_over(rt: HostRuntime) {
    let mut sent: [(u8, &[u8]); 66] = [(1, &STATE); 66];
    sent[65] = (1, &STOP);
    let mut line = line(rt.alloc(), &sent, None, PEERS_ALONE).expect(&rt, "there is memory");
    let mut buffer = [0u8; 16];
    assert!(rt; line.receive(&mut buffer) == Ok(None) && line.passed().others == 64);
    assert!(rt; line.receive(&mut buffer) == Ok(Some(5)) && line.passed().others == 65);
    assert!(rt; line.receive(&mut buffer) == Ok(None) && line.passed().others == 65);
}
