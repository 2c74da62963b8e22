//! The notes of a session that answer a question, and those of its link.

ghost use Rattle.std.specs.Prelude.{◌≡◌, ◌++◌, IfOk, List, OnOk, length, string_bytes};
ghost use Rattle.siman_lines.specs.Trouble.{address_text};
ghost use Rattle.siman_print.specs.Line.{Line as Row};
ghost use Rattle.siman_print.specs.Spelled.{line_spelled, lines_spelled};
ghost use Rattle.siman_print.specs.declared.spelling.Spelling.TheVariants.{Text};
ghost use Rattle.siman_operator.specs.Notes.{AreNotes, standing_rows, entity_rows, status_row, clock_row, help_rows, stranger_row, station_row, greeting_rows};

use crate::closing::number_value;
use crate::notes::{put_entities, put_standing};
use dis_records::Address;
use siman_application::Application;
use siman_lines::{Line, PassedOver};
use siman_manager::Manager;
use siman_print::{Field, Spelling, Value, put_named};
use std::alloc::{AllocError, Global};
use std::net::{SocketAddr, SocketAddrV4};

/// Most strangers that are noted.
const MOST_STRANGERS: usize = 64;

/// What a session has counted.
#[derive(Clone, Copy)]
pub(crate) struct SessionCounts {
    /// Time of the clock.
    pub clock: u64,
    /// Entries of the recording.
    pub records: u32,
    /// Datagrams of more than 8192 bytes.
    pub dropped: u64,
    pub passed: PassedOver,
    /// Datagrams that the system dropped, if it says so.
    pub lost: Option<u64>,
}

/// Writes the row of the counts of a session.
fn put_counts(text: &mut String, counts: SessionCounts, orders: usize) -> Result<(), AllocError>
    ensures { OnOk result (string_bytes text.new ≡ string_bytes text.old ++ line_spelled Text (status_row counts.clock counts.records orders counts.dropped counts.passed counts.lost)) }
{
    let fields = [
        Field::Keyed("clock", Value::Clock(counts.clock)),
        Field::Keyed("records", Value::Number(u64::from(counts.records))),
        Field::Keyed("orders", Value::Number(orders as u64)),
        Field::Keyed("dropped", Value::Number(counts.dropped)),
        Field::Keyed("strangers", Value::Number(counts.passed.strangers)),
        Field::Keyed("other", Value::Number(counts.passed.others)),
        Field::Keyed("lost", number_value(counts.lost)),
    ];
    put_named(text, Spelling::Text, "# status", &fields)
}

/// The state of a session: its counts, its orders that are not answered, and the entities that are
/// there.
pub(crate) fn status_text(
    alloc: Global,
    counts: SessionCounts,
    address: Address,
    manager: &Manager,
    application: &Application,
) -> Result<String, AllocError>
    ensures { IfOk result (λ text. string_bytes text ≡ line_spelled Text (status_row counts.clock counts.records (length manager.now.orders) counts.dropped counts.passed counts.lost)
        ++ lines_spelled Text (standing_rows manager.now counts.clock) ++ lines_spelled Text (entity_rows address application.now)) }
{
    let mut text = String::new(alloc);
    put_counts(&mut text, counts, manager.order_count())?;
    put_standing(&mut text, manager, counts.clock)?;
    put_entities(&mut text, address, application)?;
    Ok(text)
}

/// What sets the clock, and the lines that go by it.
fn clock_help(by_system: bool) -> &'static str
    ensures { result.now ≡ line_spelled Text (clock_row by_system) }
{
    if by_system {
        "# the system's clock sets the time; tick OWN: sends an order that is due again; tell OWN E: tells the state of its entity E\n"
    } else {
        "# at N: the clock shows N; tick OWN: sends an order that is due again; tell OWN E: tells the state of its entity E\n"
    }
}

/// Which lines a station takes, whose clock is the system's if `by_system`.
pub(crate) fn help_text(alloc: Global, by_system: bool) -> Result<String, AllocError>
    ensures { IfOk result (λ text. string_bytes text ≡ lines_spelled Text (help_rows by_system)) }
{
    let mut text = String::new(alloc);
    text.push_str(
        "# create OWN TO, remove OWN TO, start OWN TO, stop OWN TO: an order; OWN is this station, S:A, and TO an entity, S:A:E\n",
    )?;
    text.push_str(
        "# do OWN TO ACTION, query OWN TO ID .., set OWN TO ID VALUE: orders an action, asks for data, sets a datum\n",
    )?;
    text.push_str(clock_help(by_system))?;
    text.push_str(
        "# status: the orders that are not answered, the entities and the counts; quit, or Ctrl-D: the end\n",
    )?;
    Ok(text)
}

/// The address and the port of a stranger in IPv4.
fn endpoint_words(alloc: Global, from: SocketAddrV4) -> Result<String, AllocError>
    ensures { IfOk result (λ words. string_bytes words ≡ address_text from) }
{
    let [first, second, third, last] = from.ip().octets();
    let port = from.port();
    format!(in alloc; "{first}.{second}.{third}.{last}:{port}")
}

/// Writes the row of a stranger.
fn put_stranger(alloc: Global, text: &mut String, from: SocketAddr) -> Result<(), AllocError>
    ensures { OnOk result (string_bytes text.new ≡ string_bytes text.old ++ line_spelled Text (stranger_row from)) }
{
    match from {
        SocketAddr::V4(from) => {
            let words = endpoint_words(alloc, from)?;
            let fields = [Field::Bare("address", Value::Phrase(&words))];
            put_named(text, Spelling::Text, "# stranger", &fields)
        }
        SocketAddr::V6(_) => {
            let fields = [Field::Bare("address", Value::Missing)];
            put_named(text, Spelling::Text, "# stranger", &fields)
        }
    }
}

/// What was noted of a link.
#[derive(Clone, Copy)]
pub(crate) struct LinkNoted {
    /// Strangers.
    pub strangers: usize,
    /// Datagrams that the system dropped.
    pub lost: u64,
}

impl LinkNoted {
    /// Nothing.
    pub(crate) fn nothing() -> LinkNoted
        ensures { result ≡ record { strangers = 0; lost = 0 } }
    {
        LinkNoted {
            strangers: 0,
            lost: 0,
        }
    }
}

/// Writes the rows of the strangers that came since so many were noted, and returns how many are.
fn put_strangers<L: Line>(
    alloc: Global,
    text: &mut String,
    line: &L,
    noted: usize,
) -> Result<usize, AllocError>
    ensures { IfOk result (λ _. (rows : List Row) × AreNotes rows × (string_bytes text.new ≡ string_bytes text.old ++ lines_spelled Text rows)) }
{
    for place in noted..MOST_STRANGERS {
        match line.stranger(place) {
            Some(from) => put_stranger(alloc, text, from)?,
            None => return Ok(place),
        }
    }
    Ok(MOST_STRANGERS)
}

/// Writes the row of what the system dropped, if it is more than was noted, and returns it.
fn put_lost(text: &mut String, lost: Option<u64>, noted: u64) -> Result<u64, AllocError>
    ensures { IfOk result (λ _. (rows : List Row) × AreNotes rows × (string_bytes text.new ≡ string_bytes text.old ++ lines_spelled Text rows)) }
{
    match lost {
        Some(lost) if lost > noted => {
            let fields = [Field::Keyed("datagrams", Value::Number(lost))];
            put_named(text, Spelling::Text, "# lost", &fields)?;
            Ok(lost)
        }
        _ => Ok(noted),
    }
}

/// Writes the rows of what is new at a link: strangers, and what the system dropped. Returns what is
/// noted then.
pub(crate) fn put_link<L: Line>(
    alloc: Global,
    text: &mut String,
    line: &L,
    noted: LinkNoted,
) -> Result<LinkNoted, AllocError>
    ensures { IfOk result (λ _. (rows : List Row) × AreNotes rows × (string_bytes text.new ≡ string_bytes text.old ++ lines_spelled Text rows)) }
{
    let strangers = put_strangers(alloc, text, line, noted.strangers)?;
    let lost = put_lost(text, line.lost_lately(), noted.lost)?;
    Ok(LinkNoted { strangers, lost })
}

/// The first notes of a session, as text.
pub(crate) fn greeting_text(
    alloc: Global,
    address: Address,
    buffer: Option<u64>,
) -> Result<String, AllocError>
    ensures { IfOk result (λ text. string_bytes text ≡ lines_spelled Text (greeting_rows address buffer)) }
{
    let mut text = String::new(alloc);
    let fields = [
        Field::Bare("address", Value::Address(address)),
        Field::Keyed("buffer", number_value(buffer)),
    ];
    put_named(&mut text, Spelling::Text, "# station", &fields)?;
    text.push_str(
        "# quit, or Ctrl-D, ends the recording whole; after Ctrl-C it has no end, and siman mend keeps its entries; help lists the lines\n",
    )?;
    Ok(text)
}
