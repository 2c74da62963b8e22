//! The state of an entity.

ghost use Rattle.std.specs.Prelude.{List, false, true, ℕ, ◌∷◌, ◌≡◌};
ghost use Rattle.exercise_model.specs.Answered.{IsFirstAnswer};
ghost use Rattle.exercise_model.specs.Change.{able, responds};
ghost use Rattle.exercise_model.specs.History.{Get, History, Send};
ghost use Rattle.exercise_model.specs.State.{change_of, changed, state_after};
ghost use Rattle.exercise_model.specs.Station.{is_entity};
ghost use Rattle.siman_pdus.specs.declared.pdu.Pdu.{Pdu};

use exercise_model::{Station, first_answers_change_states};

/// What the first answer of a station to a request, given at once, does to an entity: an Able makes
/// the change that the request asks for (`done`), and every other answer leaves the entity as it
/// was (`refused`).
pub fn changes_by_an_able_alone(station: &Station)
    ensures done { (x : ℕ) (log : History) (s t : ℕ) (b c : List ℕ) (q p : Pdu) → IsFirstAnswer x station.now log b c q p → responds able p ≡ true
        → (e : ℕ) → is_entity e ≡ true → state_after x station.now (Send s c ∷ Get t b ∷ log) e ≡ changed e (state_after x station.now log e) (change_of p q) }
    ensures refused { (x : ℕ) (log : History) (s t : ℕ) (b c : List ℕ) (q p : Pdu) → IsFirstAnswer x station.now log b c q p → responds able p ≡ false
        → (e : ℕ) → state_after x station.now (Send s c ∷ Get t b ∷ log) e ≡ state_after x station.now log e }
{
    first_answers_change_states();
}
