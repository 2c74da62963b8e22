//! Contradictions of an entry, and where they are.

use crate::field::PduField;
use dis_records::{EntityId, EntityState};

/// Why an answer does not answer the request that it takes up. There is no third reason, since an
/// answer takes up a request only if all else matches.
#[derive(Clone, Copy, PartialEq, Eq)]
pub enum AnswerMismatch {
    /// Its kind is not one that answers requests of that kind.
    Kind,
    /// The entity numbers do not fit.
    Entity,
}

/// The other side of the first cause that its station's log shows against an entry. Entries are
/// named by their numbers, stations by their indices in the recording, both from 0.
#[derive(Clone, Copy, PartialEq, Eq)]
pub enum Clash {
    /// It sends under an address other than that of its station.
    WrongSender {
        /// Whose address is used.
        from: EntityId,
        /// The station that uses it.
        station: u16,
    },
    /// It sends a different request under a request identifier that its station has used.
    ReusedIdentifier {
        /// The first different request under that identifier.
        earlier: usize,
        /// The first field in which the two differ.
        differs: PduField,
    },
    /// It answers a request that its station has not received.
    NoRequest {
        /// The first request that it could take up, received too late.
        later: Option<usize>,
        /// The first request of the asker under the identifier that its station received before and
        /// that does not address the station.
        overheard: Option<usize>,
        /// The first request under the identifier that the asker sent.
        sent: Option<usize>,
    },
    /// It takes up a request that it does not answer.
    WrongAnswer {
        /// The request.
        earlier: usize,
        /// Why it does not answer it.
        differs: AnswerMismatch,
    },
    /// It sends the answer opposite to one that its station has sent under the same key.
    ChangedAnswer {
        /// The first opposite answer.
        earlier: usize,
    },
    /// It reports a change of an entity that cannot be changed so.
    Impossible {
        /// The request.
        earlier: usize,
        /// The station.
        station: u16,
        /// The number of the entity, 0xFFFF for all.
        entity: u16,
        /// The entity's state; `None` if all entities are meant, or no entity can have that number.
        state: Option<EntityState>,
        /// The change that made that state; `None` for the initial state.
        change: Option<usize>,
    },
    /// It receives a datagram from a station that is not recorded, in a closed recording.
    Stranger {
        /// The sender.
        from: EntityId,
    },
    /// It receives a datagram that a recorded station must have sent before.
    NeverSent {
        /// The sender.
        from: EntityId,
        /// The first entry of that station that sends equal bytes.
        sent: Option<usize>,
        /// The first entry of that station that sends a PDU of equal kind, receiver and request
        /// identifier (for an Event Report or a Comment: a PDU that is equal except for timestamp
        /// and status).
        near: Option<usize>,
        /// The first field in which that PDU differs from the received one; `None` without such a
        /// PDU, or if the bytes are equal.
        differs: Option<PduField>,
    },
    /// It tells a state that the entity does not have.
    WrongState {
        /// The station.
        station: u16,
        /// The number of the entity.
        entity: u16,
        /// The state that it has.
        state: EntityState,
        /// The change that made that state; `None` for the initial state.
        change: Option<usize>,
    },
}
