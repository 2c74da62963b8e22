//! The parts of a script.

ghost use Rattle.std.specs.Prelude.{◌≡◌};
ghost use Rattle.siman_scripts.specs.Draft.{wants_exercise, takes_stations, takes_outfits, takes_moves};

/// The part to which the next line of a script may belong; it may also belong to a later one,
/// except in the part of the exercise.
#[derive(Clone, Copy)]
pub enum ScriptPart {
    /// The `exercise` line.
    Exercise,
    /// The `station` lines.
    Stations,
    /// The outfits of stations: the entities that they open with, their datums and actions.
    Outfits,
    /// Moves.
    Moves,
}

/// Whether the `exercise` line may follow.
pub(crate) fn wants_exercise(part: ScriptPart) -> bool
    ensures { result ≡ wants_exercise part }
{
    part == ScriptPart::Exercise
}

/// Whether a `station` line may follow.
pub(crate) fn takes_stations(part: ScriptPart) -> bool
    ensures { result ≡ takes_stations part }
{
    part == ScriptPart::Stations
}

/// Whether a line of an outfit may follow.
pub(crate) fn takes_outfits(part: ScriptPart) -> bool
    ensures { result ≡ takes_outfits part }
{
    matches!(part, ScriptPart::Stations | ScriptPart::Outfits)
}

/// Whether a move may follow.
pub(crate) fn takes_moves(part: ScriptPart) -> bool
    ensures { result ≡ takes_moves part }
{
    part != ScriptPart::Exercise
}
