//! Taking of requests.

ghost use Rattle.std.specs.Prelude.{◌≡◌, ◌<◌, ◌∷◌, ◌&&◌, true, false, Some, None, Ok, is_none, IsOk, IfOk, IfErr, IfSome, OnOk, OnErr, MatchOption, slice_get, if◌then◌else◌};
ghost use Rattle.std.specs.Option.{option_map, option_and_then, unwrap_or};
ghost use Rattle.indexmap.specs.IndexMap.{values, index_map_len};
ghost use Rattle.siman_pdus.specs.Same.{is_same_order};
ghost use Rattle.siman_application.specs.Distinct.{is_for, first_under, with_request};
ghost use Rattle.siman_application.specs.Answer.{answer, brought, no_datums};
ghost use Rattle.siman_application.specs.Holding.{held_by, held_in, stored_in};
ghost use Rattle.siman_application.specs.Knows.{knows};
ghost use Rattle.siman_application.specs.Listed.{after, states_in};
ghost use Rattle.siman_application.specs.KeptRequests.{AreRight, IsKey, requests, stamped_at};
ghost use Rattle.siman_application.specs.Play.{known, reply_after};

use crate::answering::{RequestResult, answer};
use crate::entities::Entities;
use crate::fault::AppFault;
use crate::held::Held;
use crate::kept::{RequestTable, keep, key_of, place_of, stamp_again};
use crate::outfit::AppProfile;
use siman_pdus::{Datums, Pdu, numbers_are_in_range, same_order};
use std::alloc::{AllocError, Global};

/// Stores the datums of a request, if any.
fn store(held: &mut Held, brought: Option<Datums>)
    ensures { held_in held.new ≡ stored_in (held_by (unwrap_or brought no_datums)) (held_in held.old) }
{
    if let Some(datums) = brought {
        held.store(datums);
    }
}

/// Answers a new request, and makes the change of the entities that the answer says. A fault leaves
/// them unchanged.
fn answer_and_obey(
    alloc: Global,
    outfit: &AppProfile,
    entities: &mut Entities,
    held: &Held,
    pdu: &Pdu,
    stamp: u32,
) -> Result<RequestResult, AllocError>
    requires { is_for outfit.now pdu.now ≡ true }
    ensures answer { IfOk result (λ outcome. outcome.answer ≡ answer outfit.now (knows entities.old (held_in held.now)) pdu.now stamp) }
    ensures brought { IfOk result (λ outcome. unwrap_or outcome.brought no_datums ≡ brought pdu.now.body) }
    ensures obeyed { IfOk result (λ outcome. states_in entities.new ≡ after outcome.answer pdu.now (states_in entities.old)) }
    ensures err { OnErr result (entities.new ≡ entities.old) }
{
    let outcome = answer(alloc, outfit, entities, held, pdu, stamp)?;
    entities.obey(&outcome.answer, pdu)?;
    Ok(outcome)
}

/// Answers a request that is the first with its key, and stores it. Returns its index. A fault
/// leaves everything unchanged: whatever may fail is done before the first change.
fn take_first(
    alloc: Global,
    outfit: &AppProfile,
    kept: &mut RequestTable,
    entities: &mut Entities,
    held: &mut Held,
    pdu: &Pdu,
    stamp: u32,
) -> Result<usize, AppFault>
    requires right { AreRight outfit.now kept.old entities.old (held_in held.old) }
    requires own { is_for outfit.now pdu.now ≡ true }
    requires first { first_under pdu.now (requests (values kept.old)) ≡ None }
    ensures right { AreRight outfit.now kept.new entities.new (held_in held.new) }
    ensures err { OnErr result (values kept.new ≡ values kept.old) }
    ensures fault { IfErr result (λ fault. fault ≡ AppFault.Memory) }
    ensures came { OnOk result (requests (values kept.new) ≡ pdu.now ∷ requests (values kept.old)) }
    ensures answer { IfOk result (λ place. option_map (λ k. k.answer) (slice_get (values kept.new) place) ≡ Some (answer outfit.now (known outfit.now (requests (values kept.old))) pdu.now stamp)) }
    ensures within { IfOk result (λ place. place < index_map_len kept.new) }
{
    numbers_are_in_range(pdu);
    kept.reserve(1)?;
    let request = pdu.copy(alloc)?;
    let outcome = answer_and_obey(alloc, outfit, entities, held, pdu, stamp)?;
    let place = keep(kept, key_of(pdu), request, outcome.answer);
    store(held, outcome.brought);
    Ok(place)
}

/// Index of the stored answer to a request with a known key, after its timestamp is changed. `None`
/// for another order.
fn take_again(kept: &mut RequestTable, place: usize, pdu: &Pdu, stamp: u32) -> Option<usize>
    requires { place < index_map_len kept.old }
    ensures result { result ≡ option_and_then (λ k. if is_same_order pdu.now k.request then Some place else None) (slice_get (values kept.old) place) }
    ensures kept { MatchOption result (kept.new.entries ≡ kept.old.entries) (λ place. kept.new.entries ≡ stamped_at place stamp kept.old.entries) }
{
    if !same_order(pdu, &kept[place].request) {
        return None;
    }
    stamp_again(kept, place, stamp);
    Some(place)
}

/// Takes a PDU, and returns the index of its stored answer, if it has one. Takes memory only for a
/// new answer.
pub(crate) fn take(
    alloc: Global,
    outfit: &AppProfile,
    kept: &mut RequestTable,
    entities: &mut Entities,
    held: &mut Held,
    pdu: &Pdu,
    stamp: u32,
) -> Result<Option<usize>, AppFault>
    requires { AreRight outfit.now kept.old entities.old (held_in held.old) }
    ensures right { AreRight outfit.now kept.new entities.new (held_in held.new) }
    ensures err { OnErr result (values kept.new ≡ values kept.old) }
    ensures fault { IfErr result (λ fault. fault ≡ AppFault.Memory) }
    ensures no_memory { (is_for outfit.now pdu.now && is_none (first_under pdu.now (requests (values kept.old)))) ≡ false → IsOk result }
    ensures came { OnOk result (requests (values kept.new) ≡ with_request outfit.now (requests (values kept.old)) pdu.now) }
    ensures reply { IfOk result (λ place. option_and_then (λ i. option_map (λ k. k.answer) (slice_get (values kept.new) i)) place ≡ reply_after outfit.now (requests (values kept.old)) pdu.now stamp) }
    ensures within { IfOk result (λ place. IfSome place (λ i. i < index_map_len kept.new)) }
{
    if !outfit.is_for(pdu) {
        return Ok(None);
    }
    let key = key_of(pdu);
    match place_of(kept, key, pdu) {
        Some(place) => Ok(take_again(kept, place, pdu, stamp)),
        None => {
            let place = take_first(alloc, outfit, kept, entities, held, pdu, stamp)?;
            Ok(Some(place))
        }
    }
}
