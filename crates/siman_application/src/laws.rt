//! Laws of an application over every list of PDUs, and of the log of its station.

ghost use Rattle.std.specs.Prelude.{◌≡◌, ◌++◌, ◌∷◌, ◌&&◌, ℕ, List, false, is_none};
ghost use Rattle.siman_pdus.specs.declared.pdu.Pdu.{Pdu};
ghost use Rattle.exercise_model.specs.History.{History};
ghost use Rattle.exercise_model.specs.State.{state_after};
ghost use Rattle.siman_application.specs.AppProfile.{AppProfile};
ghost use Rattle.siman_application.specs.Distinct.{is_for, first_under, distinct};
ghost use Rattle.siman_application.specs.Play.{state_over, reply, reply_after};
ghost use Rattle.siman_application.specs.Application.{ApplicationData, Takes, came};
ghost use Rattle.siman_application.specs.OwnLog.{OwnTurn, IsOwnLog, MissNone, IsClear, AnswersHaveNoCause};

/// Over every list of PDUs the steps that the contracts of an [`Application`](crate::Application)
/// cite lead to the distinct requests among them, and to the reply that these alone determine.
pub fn requests_are_told_once()
    // The stored requests after one more PDU are the distinct ones,
    ensures steps { (old new : ApplicationData) (qs : List Pdu) (q : Pdu) → Takes old q new → came old ≡ distinct old.outfit qs → came new ≡ distinct new.outfit (q ∷ qs) }
    // and the reply is the one that the list of PDUs determines.
    ensures reply { (s : ApplicationData) (qs : List Pdu) (q : Pdu) (stamp : ℕ) → came s ≡ distinct s.outfit qs → reply_after s.outfit (came s) q stamp ≡ reply s.outfit qs q stamp }
    // A PDU that is not for the station, or has a known key, makes no difference to what a list
    // leaves,
    ensures repeated { (a : AppProfile) (q : Pdu) (newer older : List Pdu) → (is_for a q && is_none (first_under q (distinct a older))) ≡ false
        → distinct a (newer ++ q ∷ older) ≡ distinct a (newer ++ older) }
    // and the distinct requests alone leave that too.
    ensures once { (a : AppProfile) (qs : List Pdu) → distinct a (distinct a qs) ≡ distinct a qs }
{}

/// In every log that a station with an application writes, no answer has a cause against it after
/// the events before it, and if no reply is missing, the states are those of the play. This holds
/// in two cases: the application took every PDU that the station received, or no site and
/// application used one request identifier for two orders. Of the replies that are due only the
/// last may be missing. The station's own orders may be sent in any spelling. The types of the
/// numbers imply what the law requires of them ([`Application::begin`](crate::Application::begin)).
pub fn own_logs_stand()
    ensures answers { (a : AppProfile) (s : ℕ) (ts : List OwnTurn) (h : History) (qs : List Pdu) → IsOwnLog a s ts h qs → IsClear a ts h → AnswersHaveNoCause a h }
    ensures states { (a : AppProfile) (s : ℕ) (ts : List OwnTurn) (h : History) (qs : List Pdu) → IsOwnLog a s ts h qs → IsClear a ts h → MissNone ts
        → (e : ℕ) → state_after a.exercise a.station h e ≡ state_over a (distinct a qs) e }
{}
