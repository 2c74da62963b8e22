//! State of an entity in an exercise.

ghost use Rattle.std.specs.Prelude.{◌≡◌, ◌≤◌, length};
ghost use Rattle.dis_records.specs.Texts.{state_text};

use std::fmt;

/// State of an entity in an exercise: absent, frozen or simulated (IEEE 1278.1-2012, 5.6.5; that an
/// entity has exactly one of these is this project's profile).
#[derive(Clone, Copy, PartialEq, Eq)]
pub enum EntityState {
    /// The entity does not exist.
    Absent,
    /// The entity exists, and its simulation is stopped.
    Stopped,
    /// The entity exists, and its simulation runs.
    Running,
}

impl EntityState {
    /// Name of the state, such as `absent`.
    pub fn name(self) -> &'static str
        ensures name { result.now ≡ state_text self }
        ensures short { length result.now ≤ 20 }
    {
        match self {
            EntityState::Absent => "absent",
            EntityState::Stopped => "stopped",
            EntityState::Running => "running",
        }
    }
}

/// Prints `absent`, `stopped` or `running`.
impl fmt::Display for EntityState {
    ghost use Rattle.std.specs.Prelude.{Some};
    ghost use Rattle.dis_records.specs.Texts.{state_text};

    ghost output = { λ s. Some (state_text s) };

    fn fmt<W: fmt::Write>(&self, f: &mut fmt::Formatter<W>) -> fmt::Result {
        f.write_str(self.name())
    }
}
