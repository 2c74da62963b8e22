//! Calls of a station at its link, and the text of their answers.

use crate::{Asked, Call};
use exercise_recording::RecordingWriter;
use siman_lines::{IssueFault, MemoryLine, ServeFault, Served, issue, nudge, serve};
use siman_manager::OrderStatus;
use siman_scripts::{Act, Move};
use siman_stations::Node;
use std::alloc::{AllocError, Global};
use std::fmt::Display;
use std::io::Write;
use std::vec::IntoIter;

fn put_served(told: &mut String, served: Result<Served, ServeFault>) -> Result<(), AllocError> {
    match served {
        Ok(
            Served {
                taken,
                sent,
                dropped,
                idle,
            },
        ) => writeln!(
            told,
            "serve: taken {taken}, sent {sent}, dropped {dropped}, idle {idle}"
        ),
        Err(fault) => writeln!(told, "serve: {fault}"),
    }
}

/// Writes the answer of `issue` or `nudge`.
fn tell<T: Display + Drop>(
    told: &mut String,
    name: &str,
    answer: Result<T, IssueFault>,
) -> Result<(), AllocError> {
    match answer {
        Ok(answer) => writeln!(told, "{name}: {answer}"),
        Err(fault) => writeln!(told, "{name}: {fault}"),
    }
}

fn put_order_status(told: &mut String, status: Option<OrderStatus>) -> Result<(), AllocError> {
    match status {
        None => told.push_str("order: none\n"),
        Some(OrderStatus::Waiting(sends)) => writeln!(told, "order: waiting, sent {sends}"),
        Some(OrderStatus::Answered) => told.push_str("order: answered\n"),
        Some(OrderStatus::GivenUp) => told.push_str("order: given up\n"),
    }
}

fn put_datum(told: &mut String, value: Option<u32>) -> Result<(), AllocError> {
    match value {
        None => told.push_str("datum: none\n"),
        Some(value) => writeln!(told, "datum: {value}"),
    }
}

/// A station in the hands of a case: its number, its link, its two halves, and the moves that supply
/// the orders that it issues.
#[derive(Drop)]
pub struct CalledStation<'a> {
    pub station: u16,
    pub line: &'a mut MemoryLine,
    pub node: &'a mut Node,
    pub moves: &'a mut IntoIter<Move, Global>,
}

/// Issues the order of a move, and writes the answer.
fn issue_act<W: Write>(
    alloc: Global,
    called: &mut CalledStation<'_>,
    recorder: &mut RecordingWriter<'_, W>,
    act: Act,
    now: u64,
    told: &mut String,
) -> Result<(), AllocError> {
    let (station, line, node) = (called.station, &mut *called.line, &mut *called.node);
    match act {
        Act::Command(order) if order.body.is_request() => tell(
            told,
            "issue",
            issue(alloc, line, node, recorder, station, order, now),
        ),
        _ => told.push_str("issue: the move is no order\n"),
    }
}

/// Makes a call, and writes its answer as one line.
pub fn make_call<W: Write>(
    alloc: Global,
    call: Call,
    called: &mut CalledStation<'_>,
    recorder: &mut RecordingWriter<'_, W>,
    told: &mut String,
) -> Result<(), AllocError> {
    let Call {
        asked,
        number: now,
        turns,
    } = call;
    let (id, entity) = (now.min(0xFFFF_FFFF) as u32, now.min(0xFFFF) as u16);
    let turns = turns.min(0xFFFF_FFFF) as u32;
    let station = called.station;
    match asked {
        Asked::Serve => put_served(
            told,
            serve(
                alloc,
                called.line,
                called.node,
                recorder,
                station,
                now,
                turns,
            ),
        ),
        Asked::Issue => match called.moves.next() {
            Some(Move { act, .. }) => issue_act(alloc, called, recorder, act, now, told),
            None => told.push_str("issue: no move is left\n"),
        },
        Asked::Nudge => tell(
            told,
            "nudge",
            nudge(alloc, called.line, called.node, recorder, station, now),
        ),
        Asked::Order => put_order_status(told, called.node.manager.status(id)),
        Asked::Entity => writeln!(told, "entity: {}", called.node.application.state(entity)),
        Asked::Datum => put_datum(told, called.node.application.datum(id)),
        Asked::GivenUp => writeln!(told, "given up: {}", called.node.manager.given_up()),
    }
}
