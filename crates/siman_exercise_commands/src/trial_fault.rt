//! Why a trial was not made, or not written whole.

ghost use Rattle.std.specs.Prelude.{◌≡◌, Some};
ghost use Rattle.siman_exercise_commands.specs.declared.trial_fault.TrialFault.TheVariants.{Memory};
ghost use Rattle.siman_exercise_commands.specs.TrialFaults.{unread, script_refused, world_refused, of_trial};
ghost use Rattle.siman_outside.specs.Ending.{fault_text, fault_status};

use crate::refusal::move_refusal;
use siman_outside::{Fault, InputFault, Unread};
use siman_scripts::ScriptFault;
use siman_stations::WorldFault;
use std::alloc::AllocError;
use std::error::Error;
use std::fmt;

/// Why a trial was not made, or its text not written whole. Its `Display` is the line of the fault.
#[derive(Clone, Copy, Debug, PartialEq, Eq)]
pub enum TrialFault {
    /// The script could not be read.
    Read(Unread),
    /// The text is no script. Lack of memory is `Memory`.
    Script(ScriptFault),
    /// The world of the script does not run. Lack of memory is `Memory`.
    World(WorldFault),
    /// The text could not be written whole; a prefix of it was written.
    Write,
    /// Memory ran out; nothing was written.
    Memory,
}

impl TrialFault {
    /// The exit status of the fault: 3 for lack of memory, else 2.
    pub fn status(self) -> u8
        ensures { result ≡ fault_status (of_trial self) }
    {
        Fault::from(self).status()
    }
}

impl fmt::Display for TrialFault {
    ghost output = { λ f. Some (fault_text (of_trial f)) };

    fn fmt<W: fmt::Write>(&self, f: &mut fmt::Formatter<W>) -> fmt::Result {
        write!(f, "{}", Fault::from(*self))
    }
}

impl Error for TrialFault {}

impl From<InputFault> for TrialFault {
    ghost from_gives = { λ fault e. e ≡ unread fault };

    fn from(fault: InputFault) -> TrialFault {
        match fault {
            InputFault::Unread(failed) => TrialFault::Read(failed),
            InputFault::Memory => TrialFault::Memory,
        }
    }
}

impl From<ScriptFault> for TrialFault {
    ghost from_gives = { λ fault e. e ≡ script_refused fault };

    fn from(fault: ScriptFault) -> TrialFault {
        match fault {
            ScriptFault::Memory => TrialFault::Memory,
            ScriptFault::BadLine(_) | ScriptFault::UnknownStation(_) => TrialFault::Script(fault),
        }
    }
}

impl From<WorldFault> for TrialFault {
    ghost from_gives = { λ fault e. e ≡ world_refused fault };

    fn from(fault: WorldFault) -> TrialFault {
        match fault {
            WorldFault::Memory => TrialFault::Memory,
            WorldFault::Stations | WorldFault::Move(..) => TrialFault::World(fault),
        }
    }
}

impl From<AllocError> for TrialFault {
    ghost from_gives = { λ _ e. e ≡ Memory };

    fn from(_e: AllocError) -> TrialFault {
        TrialFault::Memory
    }
}

impl From<TrialFault> for Fault<'_> {
    ghost from_gives = { λ fault e. e ≡ of_trial fault };

    fn from(fault: TrialFault) -> Self {
        match fault {
            TrialFault::Read(failed) => Fault::ScriptRead(failed),
            TrialFault::Script(ScriptFault::BadLine(line)) => Fault::BadLine(line, None),
            TrialFault::Script(ScriptFault::UnknownStation(line)) => {
                Fault::UnknownStation(line, None)
            }
            TrialFault::World(WorldFault::Stations) => Fault::WorldStations,
            TrialFault::World(WorldFault::Move(number, fault)) => {
                Fault::Move(number, move_refusal(fault), None)
            }
            TrialFault::Write => Fault::Output,
            TrialFault::Script(ScriptFault::Memory)
            | TrialFault::World(WorldFault::Memory)
            | TrialFault::Memory => Fault::Memory,
        }
    }
}
