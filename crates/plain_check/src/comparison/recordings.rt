//! Random recordings, from scenes of a random number generator.

use dis_records::{Address, EntityState};
use exercise_model::{ExerciseLog, Form, LogEntry, LogFault, Recording, Station};
use exercise_recording::write_recording;
use siman_trials::{
    ENTITIES, Random, RandomEvent, RandomExercise, RandomInput, begin, place_of, station_of,
};
use std::alloc::{AllocError, Global};

/// Forms by the throw of a die: half of them are the first form.
const FORMS: [Form; 4] = [Form::Closed, Form::Open, Form::First, Form::First];

/// Most actions in a scene.
const MOST_DEEDS: usize = 16;

/// The first `count` stations of a scene, with their states before its first action.
fn stations(
    alloc: Global,
    scene: &RandomExercise,
    count: usize,
) -> Result<Vec<Station>, AllocError> {
    let mut stations = Vec::new(alloc);
    for index in 0..count {
        let mut opening = Vec::new(alloc);
        for entity in 1..=ENTITIES {
            match scene.states.get(place_of(index, entity)) {
                None | Some(EntityState::Absent) => {}
                Some(state) => opening.push((u16::from(entity), *state))?,
            }
        }
        let site = (index % 200) as u16;
        if let Some(address) = Address::new(site.saturating_add(1), 1) {
            if let Some(station) = Station::new(address, opening) {
                stations.push(station)?;
            }
        }
    }
    Ok(stations)
}

/// The log entry of an action.
fn entry(alloc: Global, deed: RandomEvent, stamp: u64) -> Result<LogEntry, AllocError> {
    Ok(match deed {
        RandomEvent::Sends(station, letter) => LogEntry::Sent {
            station: (station % 256) as u16,
            stamp,
            bytes: letter.datagram(alloc)?,
        },
        RandomEvent::Gets(station, letter) => LogEntry::Received {
            station: (station % 256) as u16,
            stamp,
            bytes: letter.datagram(alloc)?,
        },
        RandomEvent::Tells(station, entity, state) => LogEntry::Told {
            station: (station % 256) as u16,
            entity: u16::from(entity),
            state,
        },
    })
}

/// Target of a request with this number, if it is to be other than its one station: all stations,
/// an unrecorded address, or all applications of a site.
fn wide_target(request: u8) -> Option<[u8; 4]> {
    match request % 12 {
        0 | 6 => Some([0xFF, 0xFF, 0xFF, 0xFF]),
        5 | 11 => Some([0, 9, 0, 1]),
        9 => Some([0, 9, 0xFF, 0xFF]),
        _ => None,
    }
}

/// Kind of a request or answer with this number: some action requests become data queries or Set
/// Data, and their answers Data.
fn varied_kind(kind: u8, request: u8) -> u8 {
    match (kind, request % 4) {
        (16, 1) => 19,
        (16, 2) => 18,
        (17, 1 | 2) => 20,
        _ => kind,
    }
}

/// Response flag or request status of an answer, by its number and its response.
fn varied_word(kind: u8, request: u8, response: u8) -> u8 {
    match (kind, request % 8, response) {
        (15, 2, 2) => 3,
        (15, 4, 2) => 9,
        (15, 6, 2) => 0,
        (17, _, 1) => (request / 2).wrapping_add(3) % 8,
        (17, _, _) => (request / 2).wrapping_add(6) % 8,
        _ => response,
    }
}

/// Varies a datagram by its kind, its request number and its response, in an equal way at each
/// entry: orders to many stations or to none, requests for data, and every word of an answer. A
/// datagram with a stamp other than 0 and an odd request number gets protocol version 6.
fn vary(bytes: &mut [u8], kind: u8, request: u8, response: u8) {
    if bytes.len() < 32 && kind >= 13 || bytes.len() < 28 {
        return;
    }
    if bytes[7] > 0 && request % 2 == 1 {
        bytes[0] = 6;
    }
    bytes[2] = varied_kind(kind, request);
    let word = varied_word(kind, request, response);
    match kind {
        15 => bytes[27] = word,
        17 if bytes[2] == 17 => bytes[31] = word,
        11..=14 | 16 => {
            if let Some(target) = wide_target(request) {
                bytes[18..22].copy_from_slice(&target);
            }
        }
        _ => {}
    }
}

/// Varies a stamp, so that clocks are sometimes set back.
fn vary_stamp(stamp: &mut u64) {
    *stamp = stamp.wrapping_mul(11) % 32;
}

/// Varies the entry of an action.
fn vary_entry(entry: &mut LogEntry, deed: RandomEvent) {
    let (RandomEvent::Sends(_, letter) | RandomEvent::Gets(_, letter)) = deed else {
        return;
    };
    match entry {
        LogEntry::Sent { stamp, bytes, .. } => {
            vary_stamp(stamp);
            vary(bytes, letter.kind, letter.request, letter.response);
        }
        LogEntry::Received { stamp, bytes, .. } => {
            vary_stamp(stamp);
            vary(bytes, letter.kind, letter.request, letter.response);
        }
        LogEntry::Told { .. } => {}
    }
}

/// Adds random actions to a scene, and swaps neighbouring ones.
fn happen(scene: &mut RandomExercise) {
    let deeds = scene.random.below(MOST_DEEDS).saturating_add(1);
    for _ in 0..deeds {
        scene.go_on();
    }
    for _ in 0..deeds {
        scene.swap();
    }
}

/// Adds the entries of the first `count` stations' actions, varied or not.
fn add_deeds(
    alloc: Global,
    deeds: &[RandomEvent],
    count: usize,
    is_varied: bool,
    recording: &mut Recording,
) -> Result<(), LogFault> {
    for deed in deeds {
        if station_of(*deed) >= count {
            continue;
        }
        let Ok(mut entry) = entry(alloc, *deed, recording.entry_count() as u64) else {
            return Err(LogFault::Memory);
        };
        if is_varied {
            vary_entry(&mut entry, *deed);
        }
        recording.push(entry)?;
    }
    Ok(())
}

/// A recording of a form, from a scene without actions so far.
fn recorded(
    alloc: Global,
    form: Form,
    is_varied: bool,
    scene: &mut RandomExercise,
) -> Result<Recording, LogFault> {
    // In an open recording the last station is not recorded.
    let count = match form {
        Form::Open => scene.stations.saturating_sub(1),
        Form::First | Form::Closed => scene.stations,
    };
    let Ok(stations) = stations(alloc, scene, count) else {
        return Err(LogFault::Memory);
    };
    happen(scene);
    if scene.is_short {
        return Err(LogFault::Memory);
    }
    let mut recording = Recording::start_form(alloc, form, 1, stations)?;
    add_deeds(alloc, &scene.deeds, count, is_varied, &mut recording)?;
    Ok(recording)
}

/// A random recording of a form. With `is_varied`, its datagrams are varied so that orders of all
/// kinds have all fates.
pub(crate) fn recording(
    alloc: Global,
    form: Form,
    is_varied: bool,
    random: Random,
) -> Result<Recording, LogFault> {
    recorded(alloc, form, is_varied, &mut begin(alloc, random))
}

/// Appends the file of a random recording, spoilt.
pub fn put_random_recording(alloc: Global, input: &mut RandomInput) {
    let form = FORMS[input.random.below(4) % 4];
    let is_written = match recording(alloc, form, false, input.random) {
        Ok(log) => write_recording(&log, &mut input.bytes).is_ok(),
        Err(_) => false,
    };
    input.is_short = !is_written;
    let _next = input.random.below(2);
    let ways = input.random.below(3);
    input.spoil(ways);
}
