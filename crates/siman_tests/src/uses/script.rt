//! Scripts, and their recordings.

ghost use Rattle.std.specs.Prelude.{List, None, ◌≡◌};
ghost use Rattle.exercise_model.specs.History.{past};
ghost use Rattle.exercise_model.specs.Run.{Explains};
ghost use Rattle.siman_scripts.specs.declared.act.Move.{Move};
ghost use Rattle.siman_stations.specs.World.{WorldData, world_recording, world_refusal};
ghost use Rattle.siman_stations.specs.WorldLaw.{AreMovesInRange, IsWorldInRange};

use siman_stations::worlds_are_runs;

/// The recording of a script needs no certificate: if the moves can be made, the entries, in order
/// of the file, are a run that explains it.
pub fn explain_themselves()
    ensures { (w : WorldData) (moves : List Move) → IsWorldInRange w → AreMovesInRange moves → world_refusal w moves ≡ None
        → Explains (world_recording w moves) (past (world_recording w moves).entries) }
{
    worlds_are_runs();
}
