//! Look-up keys of a station's entries.

ghost use Rattle.std.specs.Prelude.{◌≡◌};
ghost use Rattle.siman_pdus.specs.Reading.{pdu_of};
ghost use Rattle.exercise_findings.specs.Firsts.{acknowledged_key, sent_key, received_key, answered_key};

use dis_records::{Address, addressed};
use exercise_model::{AcknowledgeKey, key_of, responds};
use siman_pdus::{ABLE, Message, PduView, UNABLE, is_request, request_id};

/// Look-up key that related entries of one station share: requests that it received, or
/// Acknowledges that it sent.
#[derive(Clone, Copy, PartialEq, Eq)]
pub(crate) struct Key {
    /// 0 for a request, 1 for an Acknowledge.
    pub role: u16,
    /// The response flag of an Acknowledge, 0 for a request.
    pub response: u16,
    /// The station, from 0.
    pub station: u16,
    /// The acknowledge flag, 0 for a request.
    pub flag: u16,
    /// The request identifier.
    pub request: u32,
    /// The other side's site: of the sender of a request, of the receiver of an Acknowledge.
    pub site: u16,
    /// The other side's application.
    pub application: u16,
    /// The originating entity number of an Acknowledge, 0 for a request.
    pub entity: u16,
}

/// The key of an Acknowledge that a station sends with this response flag under a key.
pub(crate) fn acknowledged_key(station: u16, response: u16, key: &AcknowledgeKey) -> Key
    ensures { result ≡ acknowledged_key station response key.now }
{
    Key {
        role: 1,
        response,
        station,
        flag: key.flag,
        request: key.request,
        site: key.site,
        application: key.application,
        entity: key.entity,
    }
}

/// The key of a PDU that a station sends, where it is an Able or an Unable.
pub(crate) fn sent_key(station: u16, pdu: &PduView<'_>) -> Option<Key>
    ensures { result ≡ sent_key station (pdu_of pdu.now) }
{
    let Some(key) = key_of(pdu) else {
        return None;
    };
    if responds(ABLE, pdu) {
        Some(acknowledged_key(station, ABLE, &key))
    } else if responds(UNABLE, pdu) {
        Some(acknowledged_key(station, UNABLE, &key))
    } else {
        None
    }
}

/// The key of a request, from a site and an application under an identifier, at a station.
fn request_key(station: u16, site: u16, application: u16, request: u32) -> Key
    ensures { result ≡ record { role = 0; response = 0; station = station; flag = 0; request = request; site = site; application = application; entity = 0 } }
{
    Key {
        role: 0,
        response: 0,
        station,
        flag: 0,
        request,
        site,
        application,
        entity: 0,
    }
}

/// The key of a PDU that the station at an address receives, where it is a request to it.
pub(crate) fn received_key(station: u16, address: Address, pdu: &PduView<'_>) -> Option<Key>
    ensures { result ≡ received_key station address (pdu_of pdu.now) }
{
    if !is_request(pdu) || !addressed(pdu.target(), address) {
        return None;
    }
    let origin = pdu.origin();
    match request_id(pdu) {
        Some(request) => Some(request_key(station, origin.site, origin.application, request)),
        None => None,
    }
}

/// The key of the requests that an answer of a station could take up.
pub(crate) fn answered_key(station: u16, pdu: &PduView<'_>) -> Option<Key>
    ensures { result ≡ answered_key station (pdu_of pdu.now) }
{
    let target = pdu.target();
    match request_id(pdu) {
        Some(request) => Some(request_key(station, target.site, target.application, request)),
        None => None,
    }
}
