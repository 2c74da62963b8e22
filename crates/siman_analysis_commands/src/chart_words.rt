//! The words of a picture: which steps it shows, its clock, the entities chosen for bars, and the
//! stations whose columns are kept.

ghost use Rattle.std.specs.Prelude.{◌≡◌, ◌≤◌, ◌++◌, Ok, Err, IfOk, IfErr, OnOk, map, option_map};
ghost use Rattle.siman_analysis_commands.specs.ChartWords.{unit_of, choice_by, choice_of, is_turned, narrowed, with_word, window_of, entity_named, entities_of, station_named, stations_of, names_past, is_past, past_of, names_unknown, is_unknown, unknown_of, AreShown};

use crate::filter_words::outsider_of;
use byte_files::{number_32, split_once};
use dis_records::{EntityId, SiteApplication};
use exercise_chart::{ClockUnit, Rows, column_count};
use exercise_model::ExerciseLog;
use siman_scripts::target_of;
use std::alloc::{AllocError, Global};

/// What one word chooses.
#[derive(Clone, Copy)]
pub(crate) enum ChartChoice {
    /// The first step.
    From(u32),
    /// The last step.
    To(u32),
    /// What stamps count, for the clock.
    Clock(ClockUnit),
    /// An entity that bars are drawn for.
    Entity(EntityId),
    /// A station whose column is kept.
    Kept(SiteApplication),
}

/// The bounds of the selected steps, and the clock.
#[derive(Clone, Copy)]
pub(crate) struct Window {
    /// The first step, if a word names it.
    pub from: Option<u32>,
    /// The last step, if a word names it.
    pub to: Option<u32>,
    /// What stamps count, if a word names it.
    pub clock: Option<ClockUnit>,
}

/// The unit that a word names: `us`, `ms` or `s`.
fn unit_of(word: &[u8]) -> Option<ClockUnit>
    ensures { result ≡ unit_of word.now }
{
    if word == b"us".as_slice() {
        return Some(ClockUnit::Microsecond);
    }
    if word == b"ms".as_slice() {
        return Some(ClockUnit::Millisecond);
    }
    if word == b"s".as_slice() {
        return Some(ClockUnit::Second);
    }
    None
}

/// The choice for a key and its value.
fn choice_by(key: &[u8], word: &[u8]) -> Option<ChartChoice>
    ensures { result ≡ choice_by key.now word.now }
{
    if key == b"from".as_slice() {
        return Some(ChartChoice::From(number_32(word)?));
    }
    if key == b"to".as_slice() {
        return Some(ChartChoice::To(number_32(word)?));
    }
    if key == b"clock".as_slice() {
        return Some(ChartChoice::Clock(unit_of(word)?));
    }
    if key == b"entity".as_slice() {
        return Some(ChartChoice::Entity(target_of(word)?));
    }
    if key == b"station".as_slice() {
        return Some(ChartChoice::Kept(outsider_of(word)?));
    }
    None
}

/// The choice that a word `from=STEP`, `to=STEP`, `clock=UNIT`, `entity=S:A:E` or `station=S:A` names.
fn choice_of(word: &[u8]) -> Option<ChartChoice>
    ensures { result ≡ choice_of word.now }
{
    let (key, word) = split_once(word, b'=')?;
    choice_by(key, word)
}

/// Whether the first step is after the last.
fn is_turned(window: Window) -> bool
    ensures { result ≡ is_turned window }
{
    match (window.from, window.to) {
        (Some(from), Some(to)) => to < from,
        _ => false,
    }
}

/// The bounds and the clock with one more choice; `None` if that was named before, or the first step
/// would be after the last. An entity or a station may be named any number of times.
fn narrowed(window: Window, choice: ChartChoice) -> Option<Window>
    ensures { result ≡ narrowed window choice }
{
    let mut next = window;
    match choice {
        ChartChoice::From(step) if window.from.is_none() => next.from = Some(step),
        ChartChoice::To(step) if window.to.is_none() => next.to = Some(step),
        ChartChoice::Clock(unit) if window.clock.is_none() => {
            next.clock = Some(unit);
            return Some(next);
        }
        ChartChoice::Entity(_) | ChartChoice::Kept(_) => return Some(window),
        _ => return None,
    }
    if is_turned(next) { None } else { Some(next) }
}

fn with_word(window: Window, word: &[u8]) -> Option<Window>
    ensures { result ≡ with_word window word.now }
{
    narrowed(window, choice_of(word)?)
}

/// The bounds and the clock that words name, or the first word that is bad: it names no choice, its
/// key was used before and is neither `entity` nor `station`, or the first step would be after the
/// last.
pub(crate) fn window_of<'a>(words: &'a [&'a str]) -> Result<Window, &'a str>
    ensures said { IfOk result (λ window. window_of (map (λ word. word.now) words.now) ≡ Ok window) }
    ensures bad { IfErr result (λ word. window_of (map (λ word. word.now) words.now) ≡ Err word.now) }
{
    let mut window = Window {
        from: None,
        to: None,
        clock: None,
    };
    let mut others = words;
    while let [word, rest @ ..] = others {
        match with_word(window, word.as_bytes()) {
            Some(next) => window = next,
            None => return Err(word),
        }
        others = rest;
    }
    Ok(window)
}

/// Adds the entity that a word chooses, if it chooses one.
fn push_entity(entities: &mut Vec<EntityId>, word: &[u8]) -> Result<(), AllocError>
    ensures { OnOk result (entities.new.items ≡ entities.old.items ++ entity_named word.now) }
{
    match choice_of(word) {
        Some(ChartChoice::Entity(id)) => Ok(entities.push(id)?),
        _ => Ok(()),
    }
}

/// The entities that words choose, in their order. The list takes memory.
pub(crate) fn entities_of(alloc: Global, words: &[&str]) -> Result<Vec<EntityId>, AllocError>
    ensures { IfOk result (λ entities. entities.items ≡ entities_of (map (λ word. word.now) words.now)) }
{
    let mut entities = Vec::new(alloc);
    let mut others = words;
    while let [word, rest @ ..] = others {
        push_entity(&mut entities, word.as_bytes())?;
        others = rest;
    }
    Ok(entities)
}

/// Adds the station whose column a word keeps, if it keeps one.
fn push_station(stations: &mut Vec<SiteApplication>, word: &[u8]) -> Result<(), AllocError>
    ensures { OnOk result (stations.new.items ≡ stations.old.items ++ station_named word.now) }
{
    match choice_of(word) {
        Some(ChartChoice::Kept(address)) => Ok(stations.push(address)?),
        _ => Ok(()),
    }
}

/// The addresses of the stations whose columns words keep, in their order. The list takes memory.
pub(crate) fn stations_of(alloc: Global, words: &[&str]) -> Result<Vec<SiteApplication>, AllocError>
    ensures { IfOk result (λ stations. stations.items ≡ stations_of (map (λ word. word.now) words.now)) }
{
    let mut stations = Vec::new(alloc);
    let mut others = words;
    while let [word, rest @ ..] = others {
        push_station(&mut stations, word.as_bytes())?;
        others = rest;
    }
    Ok(stations)
}

/// Whether a choice is of a station that the recording does not have.
fn names_unknown<L: ExerciseLog>(log: &L, choice: ChartChoice) -> bool
    ensures { result ≡ names_unknown (L.recording log.now) choice }
{
    match choice {
        ChartChoice::Kept(address) => column_count(log, &[address]) == 0,
        _ => false,
    }
}

/// Whether a word names a station that the recording does not have.
fn is_unknown<L: ExerciseLog>(log: &L, word: &[u8]) -> bool
    ensures { result ≡ is_unknown (L.recording log.now) word.now }
{
    match choice_of(word) {
        Some(choice) => names_unknown(log, choice),
        None => false,
    }
}

/// The first word that names a station that the recording does not have.
pub(crate) fn unknown_of<'a, L: ExerciseLog>(log: &L, words: &'a [&'a str]) -> Option<&'a str>
    ensures { option_map (λ word. word.now) result ≡ unknown_of (L.recording log.now) (map (λ word. word.now) words.now) }
{
    let mut others = words;
    while let [word, rest @ ..] = others {
        if is_unknown(log, word.as_bytes()) {
            return Some(word);
        }
        others = rest;
    }
    None
}

/// Whether a choice is of a step past the last of `steps` steps.
fn names_past(steps: usize, choice: ChartChoice) -> bool
    ensures { result ≡ names_past steps choice }
{
    match choice {
        ChartChoice::From(step) | ChartChoice::To(step) => steps <= step as usize,
        _ => false,
    }
}

/// Whether a word names a step past the last of `steps` steps.
fn is_past(steps: usize, word: &[u8]) -> bool
    ensures { result ≡ is_past steps word.now }
{
    match choice_of(word) {
        Some(choice) => names_past(steps, choice),
        None => false,
    }
}

/// The first word that names a step past the last of `steps` steps.
pub(crate) fn past_of<'a>(steps: usize, words: &'a [&'a str]) -> Option<&'a str>
    ensures { option_map (λ word. word.now) result ≡ past_of steps (map (λ word. word.now) words.now) }
{
    let mut others = words;
    while let [word, rest @ ..] = others {
        if is_past(steps, word.as_bytes()) {
            return Some(word);
        }
        others = rest;
    }
    None
}

/// The selected rows, of `steps` steps.
pub(crate) fn rows_in(window: Window, steps: usize) -> Rows
    ensures shown { AreShown window steps result }
    ensures within { result.end ≤ steps }
{
    let end = match window.to {
        Some(to) => steps.min(to as usize + 1),
        None => steps,
    };
    let first = match window.from {
        Some(from) => end.min(from as usize),
        None => 0,
    };
    Rows { first, end }
}
