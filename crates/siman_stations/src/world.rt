//! Worlds: stations that make a list of moves, and the recording of it.

ghost use Rattle.std.specs.Prelude.{◌≡◌, ◌⊎◌, ◌≤◌, ◌∷◌, [], List, length, map, reverse, true, false, Some, None, OnOk, IfOk, IfErr};
ghost use Rattle.std.specs.List.{list_all};
ghost use Rattle.exercise_model.specs.declared.recording.TheConstants.{MOST_ENTRIES};
ghost use Rattle.exercise_model.specs.declared.form.Form.TheVariants.{First};
ghost use Rattle.exercise_model.specs.History.{past};
ghost use Rattle.exercise_model.specs.Recording.{opened};
ghost use Rattle.exercise_model.specs.Run.{IsRun};
ghost use Rattle.exercise_model.specs.Station.{are_stations};
ghost use Rattle.siman_stations.specs.Acts.{Gives};
ghost use Rattle.siman_stations.specs.Holds.{IsNewNode, AreNewNodes, IsAfter, IsStillAfter};
ghost use Rattle.siman_stations.specs.Moves.{IsFit, Does, Stays, step_fault};
ghost use Rattle.siman_stations.specs.World.{WorldData, setting_of, sent_in, is_world_station, are_world_stations, move_fault, course_of, first_fault, world_refusal, world_recording};
ghost use Rattle.siman_stations.specs.WorldLaw.{IsActInRange};

use crate::Node;
use crate::journal::Journal;
use crate::moving::{StepFault, act_at};
use crate::world_fault::{MoveFault, WorldFault};
use dis_records::VariableDatum;
use exercise_model::{ExerciseLog, MOST_ENTRIES, Recording};
use siman_application::{AppFault, Application};
use siman_manager::Manager;
use siman_scripts::{Move, WorldStation};
use std::alloc::{AllocError, Global};

/// Most entities that a station opens with (profile).
const MOST_OPENING: usize = 4096;

/// A world after some of its moves.
#[derive(Drop)]
pub struct World {
    journal: Journal,
    /// Manager and application of each station.
    nodes: Vec<Node>,
}

/// Whether a world can have a station, apart from its address.
fn is_world_station(station: &WorldStation) -> bool
    ensures { result ≡ is_world_station station.now }
{
    station.tries >= 1 && station.station.opening().len() <= MOST_OPENING
}

/// Copy of datums.
fn copy_of(alloc: Global, datums: &[VariableDatum]) -> Result<Vec<VariableDatum>, AllocError>
    ensures { IfOk result (λ copy. copy.items ≡ datums.now) }
{
    let mut copy = Vec::new(alloc);
    for datum in datums {
        copy.push(datum.copy(alloc)?)?;
    }
    Ok(copy)
}

/// Manager and application of a station, in their initial state.
fn node_of(alloc: Global, exercise: u8, station: &WorldStation) -> Result<Node, WorldFault>
    ensures node { IfOk result (IsNewNode exercise station.now) }
    ensures fault { IfErr result (λ fault. (fault ≡ WorldFault.Memory) ⊎ ((fault ≡ WorldFault.Stations) × (is_world_station station.now ≡ false))) }
{
    if !is_world_station(station) {
        return Err(WorldFault::Stations);
    }
    let begun = Application::begin(
        alloc,
        exercise,
        &station.station,
        &station.fixed,
        copy_of(alloc, &station.variable)?,
        &station.actions,
    );
    let application = match begun {
        Ok(application) => application,
        Err(AppFault::TooMany) => return Err(WorldFault::Stations),
        Err(AppFault::Memory) => return Err(WorldFault::Memory),
    };
    let manager = Manager::begin(
        alloc,
        exercise,
        station.station.address(),
        station.first_id,
        station.tries,
        station.wait,
    );
    Ok(Node {
        application,
        manager,
    })
}

/// Manager and application of each station, in their initial state.
fn nodes_of(alloc: Global, exercise: u8, stations: &[WorldStation]) -> Result<Vec<Node>, WorldFault>
    ensures nodes { IfOk result (λ nodes. AreNewNodes exercise stations.now nodes.items) }
    ensures fault { IfErr result (λ fault. (fault ≡ WorldFault.Memory) ⊎ ((fault ≡ WorldFault.Stations) × (list_all is_world_station stations.now ≡ false))) }
{
    let mut nodes = Vec::new(alloc);
    for station in stations {
        nodes.push(node_of(alloc, exercise, station)?)?;
    }
    Ok(nodes)
}

/// A recording of the first format, of these stations, without entries.
fn recording_of(
    alloc: Global,
    exercise: u8,
    stations: Vec<WorldStation>,
) -> Result<Recording, WorldFault>
    ensures opened { IfOk result (λ r. r ≡ opened (record { form = First; exercise = exercise; stations = map (λ s. s.station) stations.items })) }
    ensures stations { OnOk result (are_stations (map (λ s. s.station) stations.items) ≡ true) }
    ensures fault { IfErr result (λ fault. (fault ≡ WorldFault.Memory) ⊎ ((fault ≡ WorldFault.Stations) × (are_stations (map (λ s. s.station) stations.items) ≡ false))) }
{
    let mut recorded = Vec::new(alloc);
    for station in stations {
        recorded.push(station.station)?;
    }
    match Recording::start(alloc, exercise, recorded) {
        Ok(recording) => Ok(recording),
        Err(_) => Err(WorldFault::Stations),
    }
}

/// The stations of a world before its first move.
#[derive(Drop)]
pub struct InitialWorld {
    /// Recording of the stations, without entries.
    pub recording: Recording,
    /// Manager and application of each station.
    pub nodes: Vec<Node>,
}

/// Stations of a world in their initial state: their recording without entries, and the manager and
/// application of each. Fails with Stations if a world cannot have them: there are none or more
/// than 256, the addresses do not strictly rise, an order would be sent 0 times, or a station opens
/// with more than 4,096 entities.
pub fn begin_world(
    alloc: Global,
    exercise: u8,
    stations: Vec<WorldStation>,
) -> Result<InitialWorld, WorldFault>
    ensures recording { IfOk result (λ b. b.recording ≡ opened (record { form = First; exercise = exercise; stations = map (λ s. s.station) stations.items })) }
    ensures nodes { IfOk result (λ b. AreNewNodes exercise stations.items b.nodes.items) }
    ensures stations { OnOk result (are_world_stations stations.items ≡ true) }
    ensures fault { IfErr result (λ fault. (fault ≡ WorldFault.Memory) ⊎ ((fault ≡ WorldFault.Stations) × (are_world_stations stations.items ≡ false))) }
{
    let nodes = nodes_of(alloc, exercise, &stations)?;
    let recording = recording_of(alloc, exercise, stations)?;
    Ok(InitialWorld { recording, nodes })
}

impl World {
    /// A world before its first move. Fails with Stations if a world cannot have these stations.
    pub fn begin(
        alloc: Global,
        exercise: u8,
        stations: Vec<WorldStation>,
    ) -> Result<World, WorldFault>
        ensures begun { let w : WorldData = record { exercise = exercise; stations = stations.items } in IfOk result (IsAfter w []) }
        ensures stations { OnOk result (are_world_stations stations.items ≡ true) }
        ensures fault { IfErr result (λ fault. (fault ≡ WorldFault.Memory) ⊎ ((fault ≡ WorldFault.Stations) × (are_world_stations stations.items ≡ false))) }
    {
        let InitialWorld { recording, nodes } = begin_world(alloc, exercise, stations)?;
        Ok(World {
            journal: Journal::begin(alloc, recording),
            nodes,
        })
    }

    /// Makes a move.
    fn step(&mut self, alloc: Global, step: Move) -> Result<(), StepFault>
        requires { IsFit self.old }
        ensures does { OnOk result (Does step self.old self.new) }
        ensures made { OnOk result (step_fault self.old step ≡ None) }
        ensures in_range { OnOk result (IsActInRange step.act) }
        ensures fault { IfErr result (Gives (step_fault self.old step)) }
        ensures kept { IfErr result (Stays self.old self.new) }
    {
        let Move { now, station, act } = step;
        if self.journal.recording.entry_count() + 2 > MOST_ENTRIES {
            return Err(StepFault::Move(MoveFault::Records));
        }
        if usize::from(station) >= self.nodes.len() {
            return Err(StepFault::Move(MoveFault::NoSuchStation));
        }
        let node = &mut self.nodes[usize::from(station)];
        act_at(alloc, &mut self.journal, node, station, now, act)
    }

    /// Makes one more move. Fails with the reason why it cannot be made, and stays as it was, or for
    /// want of memory.
    pub fn make(&mut self, alloc: Global, step: Move) -> Result<(), StepFault>
        requires { (w : WorldData) × (ms : List Move) × IsAfter w ms self.old }
        ensures after { (w : WorldData) → (ms : List Move) → IsAfter w ms self.old → OnOk result (IsAfter w (step ∷ ms) self.new) }
        ensures made { (w : WorldData) → (ms : List Move) → IsAfter w ms self.old → OnOk result (move_fault w (course_of w ms) step ≡ None) }
        ensures fault { (w : WorldData) → (ms : List Move) → IsAfter w ms self.old → IfErr result (Gives (move_fault w (course_of w ms) step)) }
        ensures kept { (w : WorldData) → (ms : List Move) → IsAfter w ms self.old → IfErr result (IsStillAfter w ms self.new) }
    {
        self.step(alloc, step)
    }

    /// Recording of the moves so far.
    pub fn recording(&self) -> &Recording
        ensures { (w : WorldData) → (ms : List Move) → IsAfter w ms self.now → result.now ≡ record { setting = setting_of w; entries = (course_of w ms).entries } }
    {
        &self.journal.recording
    }

    /// Number of datagrams that the stations sent so far.
    pub fn sent_count(&self) -> usize
        ensures { (w : WorldData) → (ms : List Move) → IsAfter w ms self.now → (result ≡ length (sent_in (course_of w ms).entries)) × (result ≤ MOST_ENTRIES) }
    {
        self.journal.sends.len()
    }

    /// Recording of the moves so far, without the world.
    pub fn into_recording(self) -> Recording
        ensures { (w : WorldData) → (ms : List Move) → IsAfter w ms self → result ≡ record { setting = setting_of w; entries = (course_of w ms).entries } }
    {
        let World { journal, .. } = self;
        journal.recording
    }

    /// Makes moves in their order.
    fn run(&mut self, alloc: Global, moves: Vec<Move>) -> Result<(), WorldFault>
        requires { (w : WorldData) × IsAfter w [] self.old }
        ensures after { (w : WorldData) → IsAfter w [] self.old → OnOk result (IsAfter w (reverse moves.items) self.new) }
        ensures fault { (w : WorldData) → IsAfter w [] self.old → IfErr result (λ fault. (fault ≡ WorldFault.Memory) ⊎ (first_fault w (reverse moves.items) ≡ Some fault)) }
    {
        for (number, step) in moves.into_iter().enumerate() {
            match self.make(alloc, step) {
                Ok(()) => {}
                Err(fault) => return Err(fault.at(number)),
            }
        }
        Ok(())
    }
}

/// Runs a world: the stations of an exercise, each with manager and application, make these moves.
/// The recording has what they sent, received and told: a Command gives the order that is sent; a
/// Deliver the received datagram, and the answer that is sent, if one is due; a Tick the repeat
/// that is sent, if one is due; a Tell the state of the entity. Entries are stamped with the `now`
/// of their move; the timestamp of a PDU is `2 * (now mod 2^31)`. Refuses, in this order: the
/// stations, and then the first move that cannot be made. The entries, in their order, are a run.
pub fn run_world(
    alloc: Global,
    exercise: u8,
    stations: Vec<WorldStation>,
    moves: Vec<Move>,
) -> Result<Recording, WorldFault>
    ensures setting { IfOk result (λ r. r.setting ≡ record { form = First; exercise = exercise; stations = map (λ s. s.station) stations.items }) }
    ensures entries { let w : WorldData = record { exercise = exercise; stations = stations.items } in
        IfOk result (λ r. r ≡ world_recording w moves.items) }
    ensures sound { let w : WorldData = record { exercise = exercise; stations = stations.items } in
        OnOk result (world_refusal w moves.items ≡ None) }
    ensures fault { let w : WorldData = record { exercise = exercise; stations = stations.items } in
        IfErr result (λ fault. (fault ≡ WorldFault.Memory) ⊎ (world_refusal w moves.items ≡ Some fault)) }
    ensures run { IfOk result (λ r. IsRun r.setting (past r.entries)) }
{
    let mut world = World::begin(alloc, exercise, stations)?;
    world.run(alloc, moves)?;
    Ok(world.into_recording())
}
