//! The input of a picture, with indexes for look-up.

ghost use Rattle.std.specs.Prelude.{◌≡◌, ◌<◌, length, true, Some, IfOk, IfSome, is_some, option_map, slice_get};
ghost use Rattle.siman_pdus.specs.Answers.{same_id};
ghost use Rattle.siman_pdus.specs.Reading.{pdu_of};
ghost use Rattle.exercise_model.specs.Entry.{is_entry};
ghost use Rattle.exercise_model.specs.Held.{shown};
ghost use Rattle.exercise_model.specs.Meaning.{meaning};
ghost use Rattle.exercise_model.specs.Stamps.{stamp_of};
ghost use Rattle.exercise_chart.specs.Point.{first_step, step_of, station_of_entry, place_at};
ghost use Rattle.exercise_chart.specs.Deeds.{first_sent, first_received};
ghost use Rattle.exercise_chart.specs.Scene.{point_in};
ghost use Rattle.exercise_chart.specs.Marks.{scene_of};

use crate::deeds::{DatagramFirsts, StationDatagram, first_receipt_index, first_send_index};
use crate::point::{Point, Rows};
use crate::selection::{BlockedEntry, Selection};
use crate::taken::steps_taken;
use dis_records::EntityId;
use exercise_check::Step;
use exercise_model::{EntryView, ExerciseLog, Stamps, meaning_view};
use exercise_review::Register;
use siman_pdus::PduView;
use std::alloc::{AllocError, Global};
use std::marker::Model;

/// A recording, the steps of a certificate of it, the range of steps to show, the chosen entities
/// and the next entries of stations that cannot go on, with indexes. Contracts see these five; the
/// indexes are private.
#[derive(Drop)]
pub(crate) struct Scene<'a, L: ExerciseLog> {
    register: &'a Register<'a, L>,
    steps: &'a [Step],
    rows: Rows,
    chosen: &'a [EntityId],
    blocked: &'a [BlockedEntry],
    taken: Vec<Option<usize>>,
    stamps: Stamps,
    sent: DatagramFirsts<'a>,
    got: DatagramFirsts<'a>,
}

impl<'a, L: ExerciseLog> Model for Scene<'a, L> {
    ghost use Rattle.exercise_chart.specs.Scene.{SceneData, IsScene};

    ghost Value = { SceneData };

    ghost view = { λ x. record { recording = x.register.now; steps = x.steps.now; rows = x.rows; chosen = x.chosen.now; blocked = x.blocked.now } };

    ghost invariant = { λ x. IsScene x.register.now x.steps.now x.taken.items x.stamps x.sent x.got };
}

impl<'a, L: ExerciseLog> Scene<'a, L> {
    /// Builds the scene. Its indexes take memory.
    pub(crate) fn of(
        alloc: Global,
        register: &'a Register<'a, L>,
        steps: &'a [Step],
        selection: &Selection<'a>,
    ) -> Result<Scene<'a, L>, AllocError>
        ensures { IfOk result (λ scene. scene ≡ scene_of register.now steps.now selection.now.rows selection.now.entities.now selection.now.blocked.now) }
    {
        let log = register.log();
        let taken = steps_taken(alloc, steps, log.entry_count())?;
        let stamps = Stamps::of(alloc, log)?;
        let sent = first_send_index(alloc, log)?;
        let got = first_receipt_index(alloc, log)?;
        Ok(Scene {
            register,
            steps,
            rows: selection.rows,
            chosen: selection.entities,
            blocked: selection.blocked,
            taken,
            stamps,
            sent,
            got,
        })
    }

    /// The indexed recording.
    pub(crate) fn register(&self) -> &'a Register<'a, L>
        ensures { result.now ≡ self.now.recording }
    {
        self.register
    }

    /// The recording as a log.
    pub(crate) fn log(&self) -> &'a L
        ensures { L.recording result.now ≡ self.now.recording }
    {
        self.register.log()
    }

    /// The range of steps that are shown.
    pub(crate) fn rows(&self) -> Rows
        ensures { result ≡ self.now.rows }
    {
        self.rows
    }

    /// The entities that are chosen for bars; none means all.
    pub(crate) fn chosen(&self) -> &'a [EntityId]
        ensures { result.now ≡ self.now.chosen }
    {
        self.chosen
    }

    /// The next entries of stations that cannot go on.
    pub(crate) fn blocked(&self) -> &'a [BlockedEntry]
        ensures { result.now ≡ self.now.blocked }
    {
        self.blocked
    }

    /// The number of all steps.
    pub(crate) fn step_count(&self) -> usize
        ensures { result ≡ length self.now.steps }
    {
        self.steps.len()
    }

    /// The entry that a step takes, if the certificate has that step.
    pub(crate) fn place_at(&self, step: usize) -> Option<usize>
        ensures { result ≡ place_at self.now.steps step }
    {
        match self.steps.get(step) {
            Some(step) => Some(step.place as usize),
            None => None,
        }
    }

    /// An entry by its number, if the recording has it.
    pub(crate) fn entry_at(&self, entry: usize) -> Option<EntryView<'a>>
        ensures entry { option_map shown result ≡ slice_get self.now.recording.entries entry }
        ensures fits { let stations = length self.now.recording.setting.stations in IfSome result (λ view. is_entry stations (shown view) ≡ true) }
    {
        let log = self.log();
        if entry < log.entry_count() {
            Some(log.entry(entry))
        } else {
            None
        }
    }

    /// The PDU that a datagram means in the exercise, if it means one.
    pub(crate) fn meant<'b>(&self, bytes: &'b [u8]) -> Option<PduView<'b>>
        ensures { option_map pdu_of result ≡ meaning self.now.recording.setting.exercise bytes.now }
    {
        meaning_view(self.log().exercise(), bytes)
    }

    /// The first step that takes an entry, if one does.
    #[tactic(auto, unfolding(crate::specs::Point::first_step))]
    fn first_step(&self, entry: usize) -> Option<usize>
        ensures { result ≡ first_step self.now.recording self.now.steps entry }
    {
        if entry < self.log().entry_count() {
            self.taken[entry]
        } else {
            None
        }
    }

    /// The step of an entry: the first that takes it; past the last step if none does.
    pub(crate) fn step_of(&self, entry: usize) -> usize
        ensures { result ≡ step_of self.now.recording self.now.steps entry }
    {
        match self.first_step(entry) {
            Some(step) => step,
            None => self.steps.len(),
        }
    }

    /// The stamp of an entry; of a told state the nearest one before it in the recording, or 0.
    pub(crate) fn stamp_of(&self, entry: usize) -> u64
        requires { entry < length self.now.recording.entries }
        ensures { result ≡ stamp_of self.now.recording entry }
    {
        self.stamps.at(entry)
    }

    /// The station of an entry; 0 if the recording does not have the entry.
    fn station_of(&self, entry: usize) -> u16
        ensures { result ≡ station_of_entry self.now.recording entry }
    {
        match self.entry_at(entry) {
            Some(view) => view.station(),
            None => 0,
        }
    }

    /// The point of an entry: its number, step and station.
    pub(crate) fn point(&self, entry: usize) -> Point
        ensures { result ≡ point_in self.now entry }
    {
        Point {
            entry,
            step: self.step_of(entry),
            station: self.station_of(entry),
        }
    }

    /// Whether an entry is the first at which a station sends these bytes.
    pub(crate) fn is_first_sent(&self, entry: usize, station: u16, bytes: &[u8]) -> bool
        ensures { result ≡ same_id (first_sent self.now.recording station bytes.now) (Some entry) }
    {
        match self.sent.get(&StationDatagram { station, bytes }) {
            Some(first) => *first == entry,
            None => false,
        }
    }

    /// Whether a station ever receives these bytes.
    pub(crate) fn has_receipt(&self, station: u16, bytes: &[u8]) -> bool
        ensures { result ≡ is_some (first_received self.now.recording station bytes.now) }
    {
        self.got.get(&StationDatagram { station, bytes }).is_some()
    }
}
