//! Hosts, parsed from words of a command line.

ghost use Rattle.std.specs.Prelude.{◌≡◌};
ghost use Rattle.siman_outside.specs.Hosts.{host_by, NamesHost};

use packet_captures::Host;
use std::net::IpAddr;

/// The host of an address; of an IPv4-mapped one the host of its IPv4 address.
fn host_by(address: IpAddr) -> Host
    ensures { result ≡ host_by address }
{
    match address {
        IpAddr::V4(address) => Host::V4(address.to_bits()),
        IpAddr::V6(address) => {
            let bits = address.to_bits();
            let host = Host::V6 {
                upper: (bits / 0x1_0000_0000_0000_0000) as u64,
                lower: (bits % 0x1_0000_0000_0000_0000) as u64,
            };
            host.unmapped()
        }
    }
}

/// The host whose address, of IPv4 or IPv6 and without a zone, a word spells.
pub fn host_of(word: &[u8]) -> Option<Host>
    ensures { NamesHost word.now result }
{
    match IpAddr::parse_ascii(word) {
        Ok(address) => Some(host_by(address)),
        Err(_) => None,
    }
}
