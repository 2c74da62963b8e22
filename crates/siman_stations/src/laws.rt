//! Laws of every station whose application and manager follow from its log. Each function is a
//! theorem: it has no body, and its contract is the law.

ghost use Rattle.std.specs.Prelude.{◌≡◌, ◌<◌, ◌^◌, ◌⊎◌, [], ◌∷◌, ℕ, Bool, List, length, true, Some, None};
ghost use Rattle.std.specs.List.{AllByRecursion};
ghost use Rattle.dis_records.specs.declared.entity_state.EntityState.{EntityState};
ghost use Rattle.siman_pdus.specs.declared.pdu.Pdu.{Pdu};
ghost use Rattle.siman_pdus.specs.Reading.{reading};
ghost use Rattle.siman_pdus.specs.Role.{is_request_body};
ghost use Rattle.siman_pdus.specs.Spelling.{pdu_text};
ghost use Rattle.exercise_model.specs.History.{History, Send, Get, Tell, station_of, log_at};
ghost use Rattle.exercise_model.specs.Run.{IsRun};
ghost use Rattle.exercise_model.specs.Setting.{SettingData, station_in};
ghost use Rattle.exercise_model.specs.State.{state_after};
ghost use Rattle.siman_application.specs.Distinct.{with_request};
ghost use Rattle.siman_application.specs.AppProfile.{AppProfile};
ghost use Rattle.siman_application.specs.OwnLog.{sent_after, IsRead, MissNone, TakesAll, AreOneOrder};
ghost use Rattle.siman_application.specs.Play.{reply_after, state_over};
ghost use Rattle.siman_application.specs.Ranges.{IsProfileInRange};
ghost use Rattle.siman_manager.specs.declared.order.Order.{Order};
ghost use Rattle.siman_manager.specs.Answers.{taken, refusal_of, with_orders, ticked};
ghost use Rattle.siman_manager.specs.Book.{Book, with_order};
ghost use Rattle.siman_stations.specs.Deeds.{DeedsHaveNoCause, ReceivesSent, RequestsAreOrdered};
ghost use Rattle.siman_stations.specs.Halves.{HalvesFollow};
ghost use Rattle.siman_stations.specs.Sending.{IsOrderInRange, next_order, next_repeat};
ghost use Rattle.siman_stations.specs.declared.moment.Moment.{Moment};

/// Application and manager of a station follow from its log: initially, and after each step of the
/// station. `wants` says whether it may run out of memory, and `closed` whether no further entry
/// can be written.
pub fn halves_follow_logs()
    // Nothing was received, and no order was made.
    ensures begun { (wants : Bool) (s : ℕ) (a : AppProfile) (k : Book) (closed : Bool) → k.orders ≡ [] → IsProfileInRange a → HalvesFollow (wants ≡ true) s a [] k [] (closed ≡ true) }
    // A datagram is received: application and manager take its PDU, and the reply that is due is
    // sent,
    ensures takes { (wants : Bool) (s : ℕ) (a : AppProfile) (ds : List Pdu) (k : Book) (log : History) (closed : Bool) (b : List ℕ) (q : Pdu) (stamp : ℕ)
        → (is : HalvesFollow (wants ≡ true) s a ds k log (closed ≡ true)) → MissNone is.turns → IsRead b q → stamp < 2 ^ 32
        → HalvesFollow (wants ≡ true) s a (with_request a ds q) (taken k q) (sent_after s (reply_after a ds q stamp) (Get s b ∷ log)) (closed ≡ true) }
    // or it is read as no PDU, or the station runs out of memory.
    ensures passes { (wants : Bool) (s : ℕ) (a : AppProfile) (ds : List Pdu) (k : Book) (log : History) (closed : Bool) (b : List ℕ)
        → (reading b ≡ None) ⊎ (wants ≡ true) → HalvesFollow (wants ≡ true) s a ds k log (closed ≡ true) → HalvesFollow (wants ≡ true) s a ds k (Get s b ∷ log) (closed ≡ true) }
    // An order is made, and sent.
    ensures orders { (wants : Bool) (s : ℕ) (a : AppProfile) (ds : List Pdu) (k : Book) (log : History) (closed : Bool) (order : Order) (at : Moment)
        → HalvesFollow (wants ≡ true) s a ds k log (closed ≡ true) → k.settings.exercise ≡ a.exercise → k.settings.address ≡ a.station.address
        → is_request_body order.body ≡ true → refusal_of k order at.stamp ≡ None → IsOrderInRange order → at.stamp < 2 ^ 32
        → HalvesFollow (wants ≡ true) s a ds (with_orders k (with_order k.settings order at.now at.stamp k.orders)) (Send s (pdu_text (next_order k at.stamp order)) ∷ log) (closed ≡ true) }
    // A repeat is due, and sent.
    ensures repeats { (wants : Bool) (s : ℕ) (a : AppProfile) (ds : List Pdu) (k : Book) (log : History) (closed : Bool) (at : Moment) (p : Pdu)
        → HalvesFollow (wants ≡ true) s a ds k log (closed ≡ true) → k.settings.exercise ≡ a.exercise → k.settings.address ≡ a.station.address → next_repeat k at ≡ Some p → at.stamp < 2 ^ 32
        → HalvesFollow (wants ≡ true) s a ds (ticked k at.now at.stamp) (Send s (pdu_text p) ∷ log) (closed ≡ true) }
    // The state of an entity is told, as the application has it.
    ensures tells { (wants : Bool) (s : ℕ) (a : AppProfile) (ds : List Pdu) (k : Book) (log : History) (closed : Bool) (e : ℕ)
        → (is : HalvesFollow (wants ≡ true) s a ds k log (closed ≡ true)) → MissNone is.turns → HalvesFollow (wants ≡ true) s a ds k (Tell s e (state_over a ds e) ∷ log) (closed ≡ true) }
{}

/// The log of such a station, and a history of such stations.
pub fn deeds_have_no_cause()
    // Each request that it sends is an order of its manager.
    ensures requests { (wants : Bool) (s : ℕ) (a : AppProfile) (ds : List Pdu) (k : Book) (log : History) (closed : Bool)
        → HalvesFollow (wants ≡ true) s a ds k log (closed ≡ true) → RequestsAreOrdered a.exercise k log }
    // If it took all that it received, or no site and application used one request identifier for
    // two orders, nothing that it sends or tells has a cause against it,
    ensures deeds { (wants : Bool) (s : ℕ) (a : AppProfile) (ds : List Pdu) (k : Book) (log : History) (closed : Bool) → (is : HalvesFollow (wants ≡ true) s a ds k log (closed ≡ true))
        → k.settings.address ≡ a.station.address → TakesAll is.turns ⊎ AreOneOrder a log → DeedsHaveNoCause a.exercise a.station log }
    // and if no reply is missing either, the state of an entity by its log is the one that its
    // application has.
    ensures states { (wants : Bool) (s : ℕ) (a : AppProfile) (ds : List Pdu) (k : Book) (log : History) (closed : Bool) → (is : HalvesFollow (wants ≡ true) s a ds k log (closed ≡ true))
        → MissNone is.turns → TakesAll is.turns ⊎ AreOneOrder a log → (e : ℕ) → state_after a.exercise a.station log e ≡ state_over a ds e }
    // A history of stations that send and tell nothing with a cause against it, in which each
    // received datagram that is not other was sent before, is a run.
    ensures run { (w : SettingData) (h : History) → ((s : ℕ) → s < length w.stations → DeedsHaveNoCause w.exercise (station_in w s) (log_at s h))
        → AllByRecursion (λ v. station_of v < length w.stations) h → ReceivesSent w h → IsRun w h }
{}
