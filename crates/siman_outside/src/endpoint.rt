//! Endpoints of sockets, parsed from words of a command line.

ghost use Rattle.std.specs.Prelude.{◌≡◌, IfOk, IfErr, string_bytes, map};
ghost use Rattle.siman_outside.specs.Endpoints.{byte_of, ip_of, port_of, endpoint_of};

use byte_files::{number_16, split_once};

/// The endpoint of a socket: its IP version 4 address, and its port, from 1 to 65535.
#[derive(Clone, Copy)]
pub struct Endpoint {
    pub ip: (u8, u8, u8, u8),
    pub port: u16,
}

/// The number from 0 to 255 that a word spells.
fn byte_of(word: &[u8]) -> Option<u8>
    ensures { result ≡ byte_of word.now }
{
    let number = number_16(word)?;
    if number > 255 {
        return None;
    }
    Some(number as u8)
}

/// The IP version 4 address that a word `N.N.N.N` spells.
fn ip_of(word: &[u8]) -> Option<(u8, u8, u8, u8)>
    ensures { result ≡ ip_of word.now }
{
    let (first, rest) = split_once(word, b'.')?;
    let (second, rest) = split_once(rest, b'.')?;
    let (third, fourth) = split_once(rest, b'.')?;
    Some((
        byte_of(first)?,
        byte_of(second)?,
        byte_of(third)?,
        byte_of(fourth)?,
    ))
}

/// The port, from 1 to 65535, that a word spells.
pub(crate) fn port_of(word: &[u8]) -> Option<u16>
    ensures { result ≡ port_of word.now }
{
    let port = number_16(word)?;
    if port == 0 { None } else { Some(port) }
}

/// The endpoint that a word `IP:PORT` spells.
pub fn endpoint_of(word: &[u8]) -> Option<Endpoint>
    ensures { result ≡ endpoint_of word.now }
{
    let (ip, port) = split_once(word, b':')?;
    Some(Endpoint {
        ip: ip_of(ip)?,
        port: port_of(port)?,
    })
}
