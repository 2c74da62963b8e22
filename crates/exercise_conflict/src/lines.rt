//! Rows of waits, cycles, further causes, missing sends, repairs and faults.

ghost use Rattle.std.specs.Prelude.{◌≡◌, ◌<◌, ◌++◌, length, IfOk, OnOk, All, string_bytes};
ghost use Rattle.siman_print.specs.Lent.{value_of};
ghost use Rattle.siman_print.specs.Spelled.{line_spelled};
ghost use Rattle.exercise_conflict.specs.Lines.{entry_value, final_line, wait_line, also_line, missing_line, fault_text, fault_line, addresses_of, cycle_line, repair_line};

use crate::{Blame, MissingSend, Repair, Wait};
use dis_records::Address;
use exercise_model::{Cause, ExerciseLog};
use siman_print::{Field, Spelling, Value, put_named};
use std::alloc::{AllocError, Global};

/// An entry number, or a missing value.
pub(crate) fn entry_value<'a>(entry: Option<usize>) -> Value<'a>
    ensures { value_of result ≡ entry_value entry }
{
    match entry {
        Some(entry) => Value::Number(entry as u64),
        None => Value::Missing,
    }
}

/// `waits ENTRY at=ADDRESS sent=ENTRY on=ADDRESS next=ENTRY`.
pub fn put_wait<L: ExerciseLog>(
    text: &mut String,
    spelling: Spelling,
    log: &L,
    wait: Wait,
) -> Result<(), AllocError>
    requires at { wait.station < length (L.recording log.now).setting.stations }
    requires on { wait.on < length (L.recording log.now).setting.stations }
    ensures { OnOk result (string_bytes text.new ≡ string_bytes text.old ++ line_spelled spelling (wait_line (L.recording log.now) wait)) }
{
    let fields = [
        Field::Bare("entry", Value::Number(wait.entry as u64)),
        Field::Keyed("at", Value::Address(log.station(wait.station).address())),
        Field::Keyed("sent", Value::Number(wait.sent as u64)),
        Field::Keyed("on", Value::Address(log.station(wait.on).address())),
        Field::Keyed("next", Value::Number(wait.next as u64)),
    ];
    put_named(text, spelling, "waits", &fields)
}

/// `final ENTRY`.
pub fn put_final(text: &mut String, spelling: Spelling, entry: usize) -> Result<(), AllocError>
    ensures { OnOk result (string_bytes text.new ≡ string_bytes text.old ++ line_spelled spelling (final_line entry)) }
{
    let fields = [Field::Bare("entry", Value::Number(entry as u64))];
    put_named(text, spelling, "final", &fields)
}

/// `also ENTRY at=ADDRESS cause=N NAME`.
pub fn put_also<L: ExerciseLog>(
    alloc: Global,
    text: &mut String,
    spelling: Spelling,
    log: &L,
    entry: usize,
    station: u16,
    cause: Cause,
) -> Result<(), AllocError>
    requires { station < length (L.recording log.now).setting.stations }
    ensures { OnOk result (string_bytes text.new ≡ string_bytes text.old ++ line_spelled spelling (also_line (L.recording log.now) entry station cause)) }
{
    let name = format!(in alloc; "{cause}")?;
    let fields = [
        Field::Bare("entry", Value::Number(entry as u64)),
        Field::Keyed(
            "at",
            Value::Address(log.station(usize::from(station)).address()),
        ),
        Field::Keyed("cause", Value::Number(u64::from(cause.number()))),
        Field::Bare("name", Value::Word(&name)),
    ];
    put_named(text, spelling, "also", &fields)
}

/// `missing ENTRY at=ADDRESS after=ENTRY`.
pub fn put_missing<L: ExerciseLog>(
    text: &mut String,
    spelling: Spelling,
    log: &L,
    lack: MissingSend,
) -> Result<(), AllocError>
    requires { lack.missing.sender < length (L.recording log.now).setting.stations }
    ensures { OnOk result (string_bytes text.new ≡ string_bytes text.old ++ line_spelled spelling (missing_line (L.recording log.now) lack)) }
{
    let sender = usize::from(lack.missing.sender);
    let fields = [
        Field::Bare("entry", Value::Number(lack.entry as u64)),
        Field::Keyed("at", Value::Address(log.station(sender).address())),
        Field::Keyed("after", entry_value(lack.missing.after)),
    ];
    put_named(text, spelling, "missing", &fields)
}

/// The word for what is at fault.
fn fault_word(fault: Blame) -> &'static str
    ensures { result.now ≡ fault_text fault }
{
    match fault {
        Blame::Certificate => "certificate",
        Blame::Recording => "recording",
    }
}

/// `fault certificate`, or `fault recording`.
pub fn put_fault(text: &mut String, spelling: Spelling, fault: Blame) -> Result<(), AllocError>
    ensures { OnOk result (string_bytes text.new ≡ string_bytes text.old ++ line_spelled spelling (fault_line fault)) }
{
    let fields = [Field::Bare("of", Value::Word(fault_word(fault)))];
    put_named(text, spelling, "fault", &fields)
}

/// The addresses of stations.
fn addresses_of<L: ExerciseLog>(
    alloc: Global,
    log: &L,
    stations: &[usize],
) -> Result<Vec<Address>, AllocError>
    requires { All (λ s. s < length (L.recording log.now).setting.stations) stations.now }
    ensures { IfOk result (λ addresses. addresses.items ≡ addresses_of (L.recording log.now) stations.now) }
{
    let mut addresses = Vec::new(alloc);
    for station in stations {
        addresses.push(log.station(*station).address())?;
    }
    Ok(addresses)
}

/// `cycle ADDRESS ADDRESS ..`.
pub fn put_cycle<L: ExerciseLog>(
    alloc: Global,
    text: &mut String,
    spelling: Spelling,
    log: &L,
    stations: &[usize],
) -> Result<(), AllocError>
    requires { All (λ s. s < length (L.recording log.now).setting.stations) stations.now }
    ensures { OnOk result (string_bytes text.new ≡ string_bytes text.old ++ line_spelled spelling (cycle_line (L.recording log.now) stations.now)) }
{
    let addresses = addresses_of(alloc, log, stations)?;
    let fields = [Field::Bare("ring", Value::Ring(&addresses))];
    put_named(text, spelling, "cycle", &fields)
}

/// `repair sends=N enough=WORD`.
pub fn put_repair(text: &mut String, spelling: Spelling, repair: Repair) -> Result<(), AllocError>
    ensures { OnOk result (string_bytes text.new ≡ string_bytes text.old ++ line_spelled spelling (repair_line repair)) }
{
    let fields = [
        Field::Keyed("sends", Value::Number(repair.sends as u64)),
        Field::Keyed("enough", Value::Word(repair.enough.name())),
    ];
    put_named(text, spelling, "repair", &fields)
}
