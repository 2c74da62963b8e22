//! The file of a recording that was made of a capture, its answer, and what there is to warn of.

ghost use Rattle.std.specs.Prelude.{◌≡◌, ◌++◌, drop, length, nat_lt, Some, IfOk, OnOk, string_bytes};
ghost use Rattle.exercise_recording.specs.Reading.{recording_at};
ghost use Rattle.siman_print.specs.Lent.{fields_of};
ghost use Rattle.siman_print.specs.Spelled.{line_text};
ghost use Rattle.siman_exercise_commands.specs.Assumed.{assumed_in};
ghost use Rattle.siman_exercise_commands.specs.Import.{first_opening, assumed_as_read, assumed_of, assuming_head, entry_fields, other_fields, counted_line, assumed_line, assumed_lines, written_text, FilesOf};

use crate::assumed::{assumed_in, with_all_stopped};
use byte_files::put_both;
use dis_records::{Address, EntityId};
use exercise_findings::Findings;
use exercise_model::{ExerciseLog, Form, Station};
use exercise_recording::{
    Import, ImportFault, PacketRule, RecordingFault, RecordingView, put_head,
};
use siman_outside::{
    Fault, ImportOpening, LARGEST_RECORDING, Making, Notes, Settling, Warning, put_settled,
    short_of,
};
use siman_print::{Field, Spelling, Value, named_line, put_named};
use std::alloc::{AllocError, Global};
use std::io::Write;

/// A recording that was made of a capture, and the answer. Where the station opens with what its log
/// assumes, the file has a head of its own.
#[derive(Drop)]
pub struct ImportedFile {
    pub made: Import,
    /// What is written before the bytes of `made` from `start` on.
    pub head: Vec<u8>,
    pub start: usize,
    pub line: String,
}

/// The entities that a log assumes beside those with which its first station opens.
fn assumed_in_log<L: ExerciseLog>(alloc: Global, log: &L) -> Result<Vec<u16>, AllocError>
    ensures { let r = L.recording log.now in IfOk result (λ entities. entities.items ≡ assumed_in r (first_opening r.setting.stations)) }
{
    let findings = Findings::of(alloc, log)?;
    if log.station_count() == 0 {
        return assumed_in(alloc, &findings, &[]);
    }
    assumed_in(alloc, &findings, log.station(0).opening())
}

/// The entities that the recording of a file assumes; none where it is no recording.
fn assumed_in_file(alloc: Global, bytes: &[u8]) -> Result<Vec<u16>, AllocError>
    ensures { IfOk result (λ entities. entities.items ≡ assumed_as_read (recording_at LARGEST_RECORDING bytes.now)) }
{
    match RecordingView::over_limited(alloc, bytes, LARGEST_RECORDING) {
        Ok(log) => assumed_in_log(alloc, &log),
        Err(RecordingFault::Format(_)) => Ok(Vec::new(alloc)),
        Err(RecordingFault::Read | RecordingFault::Memory) => Err(AllocError),
    }
}

/// The head of the file of a station that opens with these entities, stopped, too.
fn assuming_head(
    alloc: Global,
    exercise: u8,
    station: &Station,
    entities: &[u16],
) -> Result<Vec<u8>, AllocError>
    ensures { IfOk result (λ head. head.items ≡ assuming_head exercise station.now entities.now) }
{
    let opening = with_all_stopped(alloc, station.opening(), entities)?;
    let opened = match Station::new(station.address(), opening) {
        Some(opened) => opened,
        None => unreachable!(),
    };
    let mut stations = Vec::new(alloc);
    stations.push(opened)?;
    let mut head: Vec<u8> = Vec::new(alloc);
    match put_head(&mut head, Form::Open, exercise, &stations) {
        Ok(()) => Ok(head),
        Err(_) => Err(AllocError),
    }
}

/// The counts of the answer: of packets, and of those that became entries.
fn entry_counts<'a>(made: &'a Import) -> [Field<'a>; 5]
    ensures { fields_of result ≡ entry_fields made.now }
{
    let counts = &made.counts;
    [
        Field::Keyed("packets", Value::Number(counts.packets)),
        Field::Keyed("records", Value::Number(u64::from(made.entries))),
        Field::Keyed("sent", Value::Number(counts.sent)),
        Field::Keyed("received", Value::Number(counts.received)),
        Field::Keyed("echoes", Value::Number(counts.echoes)),
    ]
}

/// The counts of packets that became no entry, and of what may be missing.
fn other_counts<'a>(made: &'a Import) -> [Field<'a>; 8]
    ensures { fields_of result ≡ other_fields made.now }
{
    let counts = &made.counts;
    [
        Field::Keyed("other", Value::Number(counts.other)),
        Field::Keyed("elsewhere", Value::Number(counts.elsewhere)),
        Field::Keyed("passing", Value::Number(counts.passing)),
        Field::Keyed("shared", Value::Number(counts.shared)),
        Field::Keyed("fragments", Value::Number(counts.fragments)),
        Field::Keyed("cut", Value::Number(counts.cut)),
        Field::Keyed("dropped", Value::Number(made.dropped)),
        Field::Keyed("bundled", Value::Number(counts.bundled)),
    ]
}

/// The line of the answer, without those of assumed entities.
fn counted_line(alloc: Global, made: &Import) -> Result<String, AllocError>
    ensures { IfOk result (λ line. string_bytes line ≡ counted_line made.now) }
{
    let mut fields = Vec::new(alloc);
    fields.extend_from_slice(&entry_counts(made))?;
    fields.extend_from_slice(&other_counts(made))?;
    named_line(alloc, "imported", &fields)
}

/// Appends the line of an assumed entity.
fn put_assumed_entity(text: &mut String, id: EntityId) -> Result<(), AllocError>
    ensures { OnOk result (string_bytes text.new ≡ string_bytes text.old ++ line_text (assumed_line id)) }
{
    let fields = [
        Field::Bare("entity", Value::Entity(&id)),
        Field::Bare("state", Value::Word("stopped")),
    ];
    put_named(text, Spelling::Text, "assumed", &fields)
}

/// Appends the lines of assumed entities of a station.
fn put_assumed(text: &mut String, address: Address, entities: &[u16]) -> Result<(), AllocError>
    ensures { OnOk result (string_bytes text.new ≡ string_bytes text.old ++ assumed_lines address entities.now) }
{
    for entity in entities {
        let id = EntityId {
            site: address.site(),
            application: address.application(),
            entity: *entity,
        };
        put_assumed_entity(text, id)?;
    }
    Ok(())
}

/// The file of a recording as it was made, and its answer.
fn file_as_made(alloc: Global, made: Import) -> Result<ImportedFile, AllocError>
    ensures made { IfOk result (λ file. file.made ≡ made) }
    ensures text { IfOk result (λ file. written_text file ≡ made.text) }
    ensures line { IfOk result (λ file. string_bytes file.line ≡ counted_line made) }
{
    let line = counted_line(alloc, &made)?;
    Ok(ImportedFile {
        made,
        head: Vec::new(alloc),
        start: 0,
        line,
    })
}

/// The file of a recording whose station opens with what its log assumes, and its answer.
fn file_assuming(
    alloc: Global,
    exercise: u8,
    station: &Station,
    made: Import,
    entities: &[u16],
) -> Result<ImportedFile, AllocError>
    requires { entities.now ≡ assumed_of made }
    ensures made { IfOk result (λ file. file.made ≡ made) }
    ensures text { IfOk result (λ file. written_text file ≡ assuming_head exercise station.now entities.now ++ drop made.start made.text) }
    ensures line { IfOk result (λ file. string_bytes file.line ≡ counted_line made ++ assumed_lines station.now.address entities.now) }
{
    let mut line = counted_line(alloc, &made)?;
    put_assumed(&mut line, station.address(), entities)?;
    let head = assuming_head(alloc, exercise, station, entities)?;
    let start = made.start;
    Ok(ImportedFile {
        made,
        head,
        start,
        line,
    })
}

/// Whether a file is longer than a recording may be.
fn is_too_long(file: &ImportedFile) -> bool
    ensures { result ≡ nat_lt LARGEST_RECORDING (length (written_text file.now)) }
{
    let behind = file.made.bytes.len().saturating_sub(file.start);
    file.head.len() as u64 + behind as u64 > LARGEST_RECORDING
}

/// The warning that a log may not be whole, if that is so.
fn not_whole(made: &Import) -> Option<Warning> {
    let dropped = made.dropped > 0;
    let fragments = made.counts.fragments > 0;
    let bundled = made.counts.bundled > 0;
    if !(dropped || fragments || bundled) {
        return None;
    }
    Some(Warning::NotWhole {
        dropped,
        fragments,
        bundled,
    })
}

/// Most bytes of the names in a warning.
const NAMED: usize = 120;

/// The text that names entities which a log assumes, as many as have room, and counts the others.
fn unopened_text(alloc: Global, entities: &[u16]) -> Result<String, AllocError> {
    let mut text = String::from_str(
        alloc,
        "the log assumes entities with which the station does not open:",
    )?;
    for (index, entity) in entities.iter().enumerate() {
        if text.len() > NAMED {
            let others = entities.len() - index;
            text.push_str(&format!(in alloc; " and {others} more")?)?;
            break;
        }
        text.push_str(&format!(in alloc; " {entity}")?)?;
    }
    text.push_str("; the setup names them, or opening=assumed opens them, stopped")?;
    Ok(text)
}

/// The warning about entities which a log assumes, if there are some.
fn unopened(alloc: Global, entities: &[u16]) -> Result<Option<Warning>, AllocError> {
    if entities.is_empty() {
        return Ok(None);
    }
    let text = unopened_text(alloc, entities)?;
    match short_of(text.as_bytes()) {
        Some(text) => Ok(Some(Warning::Unopened(text))),
        None => Ok(None),
    }
}

/// The file of a recording whose station opens with what its log assumes, if it is not too long.
fn file_if_short(
    alloc: Global,
    rule: &PacketRule,
    station: &Station,
    made: Import,
) -> Result<ImportedFile, Fault<'static>>
    ensures { FilesOf (Some ImportOpening.Assumed) rule.now station.now made result }
{
    let entities = assumed_in_file(alloc, &made.bytes)?;
    let file = file_assuming(alloc, rule.exercise, station, made, &entities)?;
    if is_too_long(&file) {
        return Err(Fault::Import(ImportFault::Size));
    }
    Ok(file)
}

/// The file of a recording whose station opens otherwise than the setup says.
fn file_opened(
    alloc: Global,
    opening: ImportOpening,
    rule: &PacketRule,
    station: &Station,
    made: Import,
) -> Result<ImportedFile, Fault<'static>>
    ensures { FilesOf (Some opening) rule.now station.now made result }
{
    match opening {
        ImportOpening::Assumed => file_if_short(alloc, rule, station, made),
        ImportOpening::Nothing => Ok(file_as_made(alloc, made)?),
    }
}

/// The file of a recording that was made. Notes what there is to warn of.
pub(crate) fn file_of(
    alloc: Global,
    opening: Option<ImportOpening>,
    rule: &PacketRule,
    station: &Station,
    made: Import,
    notes: &mut Notes,
) -> Result<ImportedFile, Fault<'static>>
    ensures { FilesOf opening rule.now station.now made result }
{
    notes.note(not_whole(&made));
    match opening {
        Some(opening) => file_opened(alloc, opening, rule, station, made),
        None => {
            let entities = assumed_in_file(alloc, &made.bytes)?;
            notes.note_further(unopened(alloc, &entities)?);
            Ok(file_as_made(alloc, made)?)
        }
    }
}

/// The bytes from a place on.
fn behind(bytes: &[u8], start: usize) -> &[u8]
    ensures { result.now ≡ drop start bytes.now }
{
    match bytes.get(start..) {
        Some(behind) => behind,
        None => &[],
    }
}

/// The file of a recording that was made of a capture.
impl Making for ImportedFile {
    ghost use Rattle.siman_exercise_commands.specs.Import.{PutsImported};

    ghost puts = { PutsImported };

    fn put<S: Settling<F>, F: Write, W: Write>(
        &self,
        _alloc: Global,
        settling: &S,
        file: &mut F,
        out: &mut W,
    ) -> Result<u8, Fault<'static>> {
        match put_both(file, &self.head, behind(&self.made.bytes, self.start)) {
            Ok(()) => put_settled(settling, file, &self.line, out),
            Err(_) => Err(Fault::Output),
        }
    }
}
