//! The command `import`: makes the recording of a station of a capture of its host.

ghost use Rattle.std.specs.Prelude.{◌≡◌, ◌∷◌, [], ℕ, List, Ok, option_map};
ghost use Rattle.siman_outside.specs.Making.{MakesProduct};
ghost use Rattle.siman_outside.specs.Opening.{MakesOfFiles};
ghost use Rattle.siman_outside.specs.Outside.{Did, Has, Reads, Adds, stream};
ghost use Rattle.siman_scripts.specs.Script.{script_at};
ghost use Rattle.siman_outside.specs.Words.{import_named};
ghost use Rattle.siman_exercise_commands.specs.Explained.{text_read};
ghost use Rattle.siman_exercise_commands.specs.Import.{importing_of, rule_of, opened_as, FindsAddress, FindsHost, AsksBy, IsImportFault, GivesFile, ImportsText, ImportsFiles, PutsImported, ImportsNamed};

use crate::explained::refused;
use crate::imported_file::{ImportedFile, file_of};
use dis_records::Address;
use exercise_model::Station;
use exercise_recording::{ImportFault, PacketRule, import_log};
use packet_captures::{Capture, Host};
use siman_operator::station_at;
use siman_outside::{
    Fault, ImportChoices, ImportOpening, ImportWords, LARGEST_RECORDING, Notes, Outside, Product,
    host_of, if_free, open_inputs, read_text,
};
use siman_scripts::{LARGEST_SCRIPT, Script, WorldStation, address_of, read_script};
use std::alloc::Global;
use std::io::{Read, Write};

/// The UDP port to which datagrams of an exercise go, where no word says another one.
const USUAL_PORT: u16 = 3000;

/// Bytes that a recording may have before its end, which has five.
const ROOM: u64 = LARGEST_RECORDING - 5;

/// The station that is asked for, its host, and how the capture is read.
#[derive(Clone, Copy)]
pub(crate) struct Importing<'a> {
    pub address: Address,
    pub host: Host,
    pub choices: ImportChoices<'a>,
}

/// Address that a word spells.
fn address_in(word: &str) -> Result<Address, Fault<'_>>
    ensures { FindsAddress word.now result }
{
    match address_of(word.as_bytes()) {
        Some(address) => Ok(address),
        None => Err(Fault::ImportAddress(word)),
    }
}

/// Host whose address a word spells.
fn host_in(word: &str) -> Result<Host, Fault<'_>>
    ensures { FindsHost word.now result }
{
    match host_of(word.as_bytes()) {
        Some(host) => Ok(host),
        None => Err(Fault::ImportHost(word)),
    }
}

/// What the words ask for.
fn importing_in<'a>(words: &ImportWords<'a>) -> Result<Importing<'a>, Fault<'a>>
    ensures { AsksBy (import_named words.now) result }
{
    let address = address_in(words.address)?;
    let host = host_in(words.host)?;
    Ok(Importing {
        address,
        host,
        choices: words.choices,
    })
}

/// The rule by which packets of a capture become entries of the station's log.
fn rule_of(exercise: u8, importing: &Importing<'_>) -> PacketRule
    ensures { result ≡ rule_of exercise (importing_of importing.now) }
{
    let choices = &importing.choices;
    PacketRule {
        host: importing.host,
        port: choices.port.unwrap_or(USUAL_PORT),
        exercise,
        address: importing.address.site_application(),
        keeps_cut: choices.keeps_cut,
        is_shared: choices.is_shared,
        hears_itself: choices.hears_itself,
    }
}

/// The station as it opens: as the setup says, or with no entity.
fn opened_as(alloc: Global, opening: Option<ImportOpening>, station: Station) -> Station
    ensures { result ≡ opened_as opening station }
{
    match opening {
        Some(ImportOpening::Nothing) => {}
        None | Some(ImportOpening::Assumed) => return station,
    }
    match Station::new(station.address(), Vec::new(alloc)) {
        Some(station) => station,
        None => unreachable!(),
    }
}

/// The fault of a capture of which no recording is made.
fn import_fault(fault: ImportFault) -> Fault<'static>
    ensures { IsImportFault fault result }
{
    match fault {
        ImportFault::Memory => Fault::Memory,
        _ => Fault::Import(fault),
    }
}

/// Reads a capture to its end, and makes the recording of a station of it, by a rule.
fn import_by<C: Read + Drop>(
    alloc: Global,
    choices: &ImportChoices<'_>,
    rule: &PacketRule,
    station: &Station,
    capture: C,
    notes: &mut Notes,
) -> Result<ImportedFile, Fault<'static>>
    ensures { GivesFile choices.now.opening rule.now station.now (option_map (λ name. name.now) choices.now.interface) (C.remaining capture) result }
{
    let mut capture = Capture::new(alloc, capture, choices.interface)?;
    match import_log(alloc, rule, ROOM, station, &mut capture) {
        Ok(made) => file_of(alloc, choices.opening, rule, station, made, notes),
        Err(fault) => Err(import_fault(fault)),
    }
}

/// Makes the recording of a station of a script of this exercise.
fn import_station<C: Read + Drop>(
    alloc: Global,
    exercise: u8,
    found: WorldStation,
    importing: &Importing<'_>,
    capture: C,
    notes: &mut Notes,
) -> Result<ImportedFile, Fault<'static>>
    ensures { let i = importing_of importing.now in GivesFile i.choices.opening (rule_of exercise i) (opened_as i.choices.opening found.station) i.choices.interface (C.remaining capture) result }
{
    let WorldStation { station, .. } = found;
    let rule = rule_of(exercise, importing);
    let station = opened_as(alloc, importing.choices.opening, station);
    import_by(alloc, &importing.choices, &rule, &station, capture, notes)
}

/// Makes the recording of the station of a script, given its text.
fn import_script<C: Read + Drop>(
    alloc: Global,
    text: &[u8],
    script: Script,
    importing: &Importing<'_>,
    capture: C,
    notes: &mut Notes,
) -> Result<ImportedFile, Fault<'static>>
    requires { script_at text.now ≡ Ok script }
    ensures { ImportsText (importing_of importing.now) (text_read text.now) (C.remaining capture) result }
{
    let Script {
        exercise,
        stations,
        ..
    } = script;
    match station_at(stations, importing.address) {
        Some(found) => import_station(alloc, exercise, found, importing, capture, notes),
        None => Err(Fault::NotInImport),
    }
}

/// Makes the recording of the station of the script that a text spells.
fn import_text<C: Read + Drop>(
    alloc: Global,
    text: &[u8],
    importing: &Importing<'_>,
    capture: C,
    notes: &mut Notes,
) -> Result<ImportedFile, Fault<'static>>
    ensures { ImportsText (importing_of importing.now) (text_read text.now) (C.remaining capture) result }
{
    match read_script(alloc, text) {
        Ok(script) => import_script(alloc, text, script, importing, capture, notes),
        Err(fault) => Err(refused(alloc, text, fault)),
    }
}

/// Reads a script, and makes the recording of its station.
fn import_setup<R: Read + Drop, C: Read + Drop>(
    alloc: Global,
    setup: R,
    importing: &Importing<'_>,
    capture: C,
    notes: &mut Notes,
) -> Result<ImportedFile, Fault<'static>>
    ensures { (text : List ℕ) × Has (R.remaining setup) text × ImportsText (importing_of importing.now) (text_read text) (C.remaining capture) result }
{
    let mut setup = setup;
    let text = read_text(alloc, &mut setup, LARGEST_SCRIPT)?;
    import_text(alloc, &text, importing, capture, notes)
}

/// Reads a script and a capture, and makes the recording of the script's station.
fn import_readers<R: Read + Drop, C: Read + Drop>(
    alloc: Global,
    setup: R,
    importing: &Importing<'_>,
    capture: C,
    notes: &mut Notes,
) -> Result<Product<ImportedFile>, Fault<'static>>
    ensures { ImportsFiles (importing_of importing.now) (R.remaining setup) (C.remaining capture) result }
{
    match import_setup(alloc, setup, importing, capture, notes) {
        Ok(file) => Ok(Product::File(file)),
        Err(fault) => Err(fault),
    }
}

/// Reads the opened setup and capture, and makes the recording.
fn import_opened<O: Outside>(
    alloc: Global,
    opened: (O::Opened, O::Opened),
    importing: &Importing<'_>,
    outside: &mut O,
    notes: &mut Notes,
) -> Result<Product<ImportedFile>, Fault<'static>>
    ensures done { Adds (O.deeds outside.old) (O.deeds outside.new) (Reads (O.bytes opened.0) ∷ Reads (O.bytes opened.1) ∷ []) }
    ensures comes { ImportsFiles (importing_of importing.now) (O.bytes opened.0) (O.bytes opened.1) result }
{
    let (setup, capture) = opened;
    let setup = outside.read(setup);
    let capture = outside.read(capture);
    import_readers(alloc, setup, importing, capture, notes)
}

/// Opens the setup and the capture, and makes the recording.
fn import_of_files<'a, O: Outside, W: Write>(
    alloc: Global,
    words: &ImportWords<'a>,
    force: bool,
    importing: &Importing<'a>,
    outside: &mut O,
    out: &mut W,
    notes: &mut Notes,
) -> Result<u8, Fault<'a>>
    ensures { Did O.deeds O.holds outside.old outside.new (λ deeds. MakesOfFiles (ImportsFiles (importing_of importing.now)) (MakesProduct PutsImported) force words.now.setup.now words.now.capture.now words.now.recording.now deeds result (stream (W.contents out.old) (W.contents out.new))) }
{
    let recording = words.recording;
    let opened = open_inputs((words.setup, words.capture), recording, outside);
    let opened = if_free(opened, recording, force, outside)?;
    let made = import_opened(alloc, opened, importing, outside, notes)?;
    made.make(alloc, recording, force, outside, out)
}

/// Makes the recording of a station of a capture of its host, as the words say, under the name that
/// they give. Returns the status. A bad address is reported before any file is opened.
pub fn import_named<'a, O: Outside, W: Write>(
    alloc: Global,
    words: ImportWords<'a>,
    force: bool,
    outside: &mut O,
    out: &mut W,
    notes: &mut Notes,
) -> Result<u8, Fault<'a>>
    ensures { Did O.deeds O.holds outside.old outside.new (λ deeds. ImportsNamed (import_named words.entry) force deeds result (stream (W.contents out.old) (W.contents out.new))) }
{
    match importing_in(&words) {
        Ok(importing) => import_of_files(alloc, &words, force, &importing, outside, out, notes),
        Err(fault) => Err(fault),
    }
}
