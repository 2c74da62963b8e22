//! Laws of the moves of every world. Each function is a theorem: it has no body, and its contract
//! is the law.

ghost use Rattle.std.specs.Prelude.{◌≡◌, ◌<◌, ℕ, List, length, None};
ghost use Rattle.exercise_model.specs.History.{past};
ghost use Rattle.exercise_model.specs.Run.{IsRun};
ghost use Rattle.siman_application.specs.Distinct.{distinct};
ghost use Rattle.siman_application.specs.Play.{state_over};
ghost use Rattle.siman_scripts.specs.declared.act.Move.{Move};
ghost use Rattle.siman_stations.specs.World.{WorldData, outfit_of, state_by, first_fault, course_of, world_refusal, world_recording};
ghost use Rattle.siman_stations.specs.WorldLaw.{IsWorldInRange, AreMovesInRange};

/// The actions of stations, each with manager and application, are a run, whatever the network
/// loses, copies and swaps: nothing in it has a cause against it. The types of the numbers imply
/// what the laws require of them.
pub fn worlds_are_runs()
    // The entries of moves in their order, none of which has a fault, are a run in the order of the file.
    ensures run { (w : WorldData) (moves : List Move) → IsWorldInRange w → AreMovesInRange moves → world_refusal w moves ≡ None
        → IsRun (world_recording w moves).setting (past (world_recording w moves).entries) }
    // After moves, the latest first, the state of an entity by the log of its station is the one
    // that the station's application has.
    ensures states { (w : WorldData) (moves : List Move) → IsWorldInRange w → AreMovesInRange moves → first_fault w moves ≡ None
        → (s : ℕ) → s < length w.stations → (e : ℕ)
        → state_by w (course_of w moves) s e ≡ state_over (outfit_of w s) (distinct (outfit_of w s) ((course_of w moves).came s)) e }
{}
