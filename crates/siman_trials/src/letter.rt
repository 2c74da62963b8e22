//! PDUs of exercise 1 between the stations 1:1, 2:1, 3:1 and 4:1.

use std::alloc::{AllocError, Global};

/// The entity number that means all entities.
pub const ALL: u8 = 0xFF;

/// The content of a PDU; each number is one byte.
#[derive(Clone, Copy)]
pub struct Letter {
    /// PDU type: 11 to 14 and 16 for a request, 15 and 17 for an answer, 22 for a Comment, and 99
    /// for a datagram that is no PDU of the protocol.
    pub kind: u8,
    /// Originating and receiving station; station 0 is site 1.
    pub from: usize,
    pub to: usize,
    /// Originating and receiving entity; [`ALL`] is written as 0xFFFF.
    pub origin: u8,
    pub target: u8,
    pub request: u8,
    pub flag: u8,
    pub response: u8,
    pub stamp: u8,
}

/// The six bytes of an entity identifier: site, application 1, entity.
fn id(station: usize, entity: u8) -> [u8; 6] {
    let site = (station % 200) as u8;
    let high = if entity == ALL { 0xFF } else { 0 };
    [0, site.saturating_add(1), 0, 1, high, entity]
}

impl Letter {
    /// Length of the PDU, and offset of the last byte of its request identifier.
    fn sizes(&self) -> (u8, usize) {
        match self.kind {
            11 | 12 => (28, 27),
            13 => (44, 43),
            14 => (40, 39),
            16 | 17 => (40, 27),
            _ => (32, 31),
        }
    }

    /// The bytes of the PDU.
    pub fn datagram(&self, alloc: Global) -> Result<Vec<u8>, AllocError> {
        let (length, place) = self.sizes();
        let mut bytes = [0; 44];
        bytes[..4].copy_from_slice(&[7, 1, self.kind, 5]);
        bytes[7] = self.stamp;
        bytes[9] = length;
        bytes[12..18].copy_from_slice(&id(self.from, self.origin));
        bytes[18..24].copy_from_slice(&id(self.to, self.target));
        if self.kind == 15 {
            bytes[25] = self.flag;
            bytes[27] = self.response;
        }
        bytes[place.min(43)] = self.request;
        Vec::from_slice(alloc, &bytes[..usize::from(length.min(44))])
    }
}
