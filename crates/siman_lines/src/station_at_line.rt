//! A station at its link: the calls at one station, and the rounds that serve all.

ghost use Rattle.std.specs.Prelude.{◌≡◌, ◌≤◌, ◌⊎◌, ◌^◌, ◌++◌, [], ◌∷◌, None, OnOk, IfOk, IfErr, length};
ghost use Rattle.siman_stations.specs.Asked.{order_fault, tell_fault};
ghost use Rattle.siman_lines.specs.AtLine.{Hinders};
ghost use Rattle.siman_lines.specs.AtLines.{Telling, AtLines, posts_from, posts_of, Misfits, KeepsCounts, LeavesRefused, OrdersAt, RepeatsAt, TellsAt, ServesAt, RoundEnds, RoundsEnd, Follows};
ghost use Rattle.siman_lines.specs.KeptAtLine.{Keeps};

use crate::fault::{AtLineFault, IssueFault, ServeFault};
use crate::line::Line;
use crate::ordering::{issue_stamped, nudge_stamped};
use crate::serving::serve_stamped;
use crate::telling::tell;
use exercise_model::is_entity;
use exercise_recording::RecordingWriter;
use siman_manager::{Order, OrderFault};
use siman_stations::{Moment, Node, StationFault};
use std::alloc::{AllocError, Global};
use std::io::Write;

/// A station at its link.
#[derive(Drop)]
pub struct StationAtLine<L: Drop> {
    /// Its index, from 0.
    pub index: u16,
    /// Its manager and application.
    pub node: Node,
    /// Its own link.
    pub line: L,
    /// Datagrams of over 8192 bytes that it dropped so far; saturates at the greatest `u64`.
    pub dropped: u64,
    /// Whether something may be left to serve after its last service: it took or dropped a
    /// datagram, its link passed one over, or its last receive found one.
    pub busy: bool,
}

/// Appends a station at its link.
fn add_station<L: Line + Drop>(
    stations: &mut Vec<StationAtLine<L>>,
    index: u16,
    node: Node,
    line: L,
) -> Result<(), AllocError>
    ensures { OnOk result (stations.new.items ≡ stations.old.items ++ posts_from index ((node, line) ∷ [])) }
{
    stations.push(StationAtLine {
        index,
        node,
        line,
        dropped: 0,
        busy: false,
    })?;
    Ok(())
}

/// Attaches each station to the link of the same index. Fails with Line if there are not as many
/// links as stations, or more than 65,536 of them.
pub fn stations_at_lines<L: Line + Drop>(
    alloc: Global,
    nodes: Vec<Node>,
    lines: Vec<L>,
) -> Result<Vec<StationAtLine<L>>, AtLineFault>
    ensures lines { OnOk result (length lines.items ≡ length nodes.items) }
    ensures posts { IfOk result (λ stations. stations.items ≡ posts_of nodes.items lines.items) }
    ensures fault { IfErr result (λ fault. ((fault ≡ AtLineFault.Line) × Misfits nodes.items lines.items) ⊎ (fault ≡ AtLineFault.Memory)) }
{
    if lines.len() != nodes.len() {
        return Err(AtLineFault::Line);
    }
    let mut stations = Vec::new(alloc);
    for (node, line) in nodes.into_iter().zip(lines.into_iter()) {
        let Ok(index) = u16::try_from(stations.len()) else {
            return Err(AtLineFault::Line);
        };
        if add_station(&mut stations, index, node, line).is_err() {
            return Err(AtLineFault::Memory);
        }
    }
    Ok(stations)
}

/// Records and sends a new order, as [`issue_stamped`] does. Refuses an order that is no request.
pub fn order_at<L: Line + Drop, W: Write>(
    alloc: Global,
    station: &mut StationAtLine<L>,
    recorder: &mut RecordingWriter<'_, W>,
    moment: Moment,
    order: Order,
) -> Result<(), AtLineFault>
    ensures ends { let told : Telling L = record { received = L.received; sent = L.sent; failures = L.failures; passed = L.passed } in
        OrdersAt told moment order station.old recorder.old station.new recorder.new result }
    ensures made { OnOk result (order_fault station.old.node.manager moment.stamp order ≡ None) }
    ensures fault { IfErr result (Hinders (order_fault station.old.node.manager moment.stamp order)) }
    ensures refused { let told : Telling L = record { received = L.received; sent = L.sent; failures = L.failures; passed = L.passed } in
        IfErr result (LeavesRefused told station.old recorder.old station.new recorder.new) }
    ensures index { station.new.index ≡ station.old.index }
    ensures counts { KeepsCounts station.old station.new }
    // The invariant of the station is preserved, with a fault too.
    ensures keeps { Keeps station.old.index station.old.node recorder.old (L.sent station.old.line) station.new.node recorder.new (L.sent station.new.line) }
{
    if !order.body.is_request() {
        return Err(AtLineFault::Station(StationFault::NotARequest));
    }
    let StationAtLine {
        index,
        node,
        line,
        ..
    } = station;
    match issue_stamped(alloc, line, node, recorder, *index, order, moment) {
        Ok(_) => Ok(()),
        Err(IssueFault::Order(OrderFault::Memory) | IssueFault::Memory) => Err(AtLineFault::Memory),
        Err(IssueFault::Order(fault)) => Err(AtLineFault::Station(StationFault::Order(fault))),
        Err(IssueFault::Send) => Err(AtLineFault::Line),
        Err(IssueFault::Record(fault)) => Err(AtLineFault::Record(fault)),
    }
}

/// Records and sends the repeat that is due, if any, as [`nudge_stamped`] does.
pub fn repeat_at<L: Line + Drop, W: Write>(
    alloc: Global,
    station: &mut StationAtLine<L>,
    recorder: &mut RecordingWriter<'_, W>,
    moment: Moment,
) -> Result<(), AtLineFault>
    ensures ends { let told : Telling L = record { received = L.received; sent = L.sent; failures = L.failures; passed = L.passed } in
        RepeatsAt told moment station.old recorder.old station.new recorder.new result }
    ensures fault { IfErr result (Hinders None) }
    ensures index { station.new.index ≡ station.old.index }
    ensures counts { KeepsCounts station.old station.new }
    // The invariant of the station is preserved, with a fault too.
    ensures keeps { Keeps station.old.index station.old.node recorder.old (L.sent station.old.line) station.new.node recorder.new (L.sent station.new.line) }
{
    let StationAtLine {
        index,
        node,
        line,
        ..
    } = station;
    match nudge_stamped(alloc, line, node, recorder, *index, moment) {
        Ok(_) => Ok(()),
        Err(IssueFault::Order(_) | IssueFault::Memory) => Err(AtLineFault::Memory),
        Err(IssueFault::Send) => Err(AtLineFault::Line),
        Err(IssueFault::Record(fault)) => Err(AtLineFault::Record(fault)),
    }
}

/// Records the state of an entity as told, as [`tell`] does. Refuses a number that is no entity's.
pub fn tell_at<L: Line + Drop, W: Write>(
    station: &StationAtLine<L>,
    recorder: &mut RecordingWriter<'_, W>,
    entity: u16,
) -> Result<(), AtLineFault>
    ensures ends { TellsAt entity station.now recorder.old recorder.new result }
    ensures made { OnOk result (tell_fault entity ≡ None) }
    ensures fault { IfErr result (Hinders (tell_fault entity)) }
    ensures refused { let told : Telling L = record { received = L.received; sent = L.sent; failures = L.failures; passed = L.passed } in
        IfErr result (LeavesRefused told station.now recorder.old station.now recorder.new) }
    // The invariant of the station is preserved, with a fault too.
    ensures keeps { Keeps station.now.index station.now.node recorder.old (L.sent station.now.line) station.now.node recorder.new (L.sent station.now.line) }
{
    if !is_entity(entity) {
        return Err(AtLineFault::Station(StationFault::NoSuchEntity));
    }
    match tell(&station.node, recorder, station.index, entity) {
        Ok(()) => Ok(()),
        Err(fault) => Err(AtLineFault::Record(fault)),
    }
}

/// Serves a station once, with at most `turns` receives, as [`serve_stamped`] does.
fn serve_at<L: Line + Drop, W: Write>(
    alloc: Global,
    station: &mut StationAtLine<L>,
    recorder: &mut RecordingWriter<'_, W>,
    moment: Moment,
    turns: u32,
) -> Result<(), AtLineFault>
    ensures ends { let told : Telling L = record { received = L.received; sent = L.sent; failures = L.failures; passed = L.passed } in
        ServesAt told moment turns station.old recorder.old station.new recorder.new result }
    ensures fault { IfErr result (Hinders None) }
    ensures keeps { Keeps station.old.index station.old.node recorder.old (L.sent station.old.line) station.new.node recorder.new (L.sent station.new.line) }
{
    let StationAtLine {
        index,
        node,
        line,
        dropped,
        busy,
    } = station;
    let met = line.passed();
    match serve_stamped(alloc, line, node, recorder, *index, moment, turns) {
        Ok(served) => {
            *dropped = dropped.saturating_add(u64::from(served.dropped));
            *busy = served.is_busy(line.passed().differs_from(met));
            Ok(())
        }
        Err(ServeFault::Receive | ServeFault::Send) => Err(AtLineFault::Line),
        Err(ServeFault::Record(fault)) => Err(AtLineFault::Record(fault)),
        Err(ServeFault::Memory) => Err(AtLineFault::Memory),
    }
}

/// Serves each station once, in their order, with at most `turns` receives each.
fn serve_round<L: Line + Drop, W: Write>(
    alloc: Global,
    stations: &mut Vec<StationAtLine<L>>,
    recorder: &mut RecordingWriter<'_, W>,
    moment: Moment,
    turns: u32,
) -> Result<(), AtLineFault>
    ensures ends { let told : Telling L = record { received = L.received; sent = L.sent; failures = L.failures; passed = L.passed } in
        let old : AtLines L = record { stations = stations.old.items; recorder = recorder.old } in
        let new : AtLines L = record { stations = stations.new.items; recorder = recorder.new } in
        RoundEnds told moment turns old new result }
    ensures fault { IfErr result (Hinders None) }
    ensures follows { let told : Telling L = record { received = L.received; sent = L.sent; failures = L.failures; passed = L.passed } in
        let old : AtLines L = record { stations = stations.old.items; recorder = recorder.old } in
        let new : AtLines L = record { stations = stations.new.items; recorder = recorder.new } in
        Follows told old new }
{
    for number in 0..stations.len() {
        serve_at(alloc, &mut stations[number], recorder, moment, turns)?;
    }
    Ok(())
}

/// Serves stations in `rounds` rounds, in each of them every station once, in their order, with at
/// most `turns` receives each, as [`serve_stamped`] does.
pub fn serve_rounds<L: Line + Drop, W: Write>(
    alloc: Global,
    stations: &mut Vec<StationAtLine<L>>,
    recorder: &mut RecordingWriter<'_, W>,
    moment: Moment,
    rounds: u32,
    turns: u32,
) -> Result<(), AtLineFault>
    ensures ends { let told : Telling L = record { received = L.received; sent = L.sent; failures = L.failures; passed = L.passed } in
        let old : AtLines L = record { stations = stations.old.items; recorder = recorder.old } in
        let new : AtLines L = record { stations = stations.new.items; recorder = recorder.new } in
        RoundsEnd told moment rounds turns old new result }
    ensures fault { IfErr result (Hinders None) }
    // All that changed follows from calls at these stations, with a fault too.
    ensures follows { let told : Telling L = record { received = L.received; sent = L.sent; failures = L.failures; passed = L.passed } in
        let old : AtLines L = record { stations = stations.old.items; recorder = recorder.old } in
        let new : AtLines L = record { stations = stations.new.items; recorder = recorder.new } in
        Follows told old new }
{
    for _ in 0..rounds {
        serve_round(alloc, stations, recorder, moment, turns)?;
    }
    Ok(())
}
