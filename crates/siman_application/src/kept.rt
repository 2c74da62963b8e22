//! Table of the requests that were answered.

ghost use Rattle.std.specs.Prelude.{◌≡◌, ◌<◌, ◌++◌, [], ◌∷◌, true, None, length};
ghost use Rattle.indexmap.specs.IndexMap.{values, index_map_len, spare};
ghost use Rattle.siman_pdus.specs.Role.{is_request_body};
ghost use Rattle.siman_application.specs.Distinct.{first_under};
ghost use Rattle.siman_application.specs.KeptRequests.{IsKey, AreKeyed, IsPlace, requests, stamped_at};
ghost use Rattle.siman_application.specs.declared.kept.AnsweredRequest.{AnsweredRequest};

use indexmap::IndexMap;
use siman_pdus::{Pdu, request_id};

/// Key of a request: its originating site and application, and its request identifier.
#[derive(Clone, Copy, PartialEq, Eq, Hash)]
pub(crate) struct RequestKey {
    pub site: u16,
    pub application: u16,
    pub request: u32,
}

/// A request that was answered.
#[derive(Drop)]
pub(crate) struct AnsweredRequest {
    pub request: Pdu,
    /// Its answer, with the timestamp of its last sending.
    pub answer: Pdu,
}

/// Answered requests by key, in order of arrival.
pub(crate) type RequestTable = IndexMap<RequestKey, AnsweredRequest>;

/// Key of a request.
pub(crate) fn key_of(pdu: &Pdu) -> RequestKey
    requires { is_request_body pdu.now.body ≡ true }
    ensures { IsKey result pdu.now }
{
    RequestKey {
        site: pdu.origin.site,
        application: pdu.origin.application,
        request: request_id(pdu).unwrap(),
    }
}

/// Index of the first request with this key, if any.
pub(crate) fn place_of(kept: &RequestTable, key: RequestKey, pdu: &Pdu) -> Option<usize>
    requires keyed { AreKeyed kept.now.entries }
    requires key { IsKey key pdu.now }
    ensures { IsPlace pdu.now (values kept.now) result }
{
    kept.get_index_of(&key)
}

/// Appends a request, the first with its key, with its answer. Returns its index.
pub(crate) fn keep(kept: &mut RequestTable, key: RequestKey, request: Pdu, answer: Pdu) -> usize
    requires keyed { AreKeyed kept.old.entries }
    requires key { IsKey key request }
    requires first { first_under request (requests (values kept.old)) ≡ None }
    requires room { 0 < spare kept.old }
    ensures place { result ≡ length (values kept.old) }
    ensures kept { let one : AnsweredRequest = record { request = request; answer = answer } in kept.new.entries ≡ kept.old.entries ++ (key, one) ∷ [] }
{
    let place = kept.len();
    let _none = kept
        .insert(key, AnsweredRequest { request, answer })
        .unwrap();
    place
}

/// Changes the timestamp of a stored answer.
pub(crate) fn stamp_again(kept: &mut RequestTable, place: usize, stamp: u32)
    requires { place < index_map_len kept.old }
    ensures kept { kept.new.entries ≡ stamped_at place stamp kept.old.entries }
{
    kept[place].answer.stamp = stamp;
}
