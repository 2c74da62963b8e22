//! Laws about orders and lives in a recording. Each function is a theorem: it has no body, and its
//! contract is the law.

ghost use Rattle.std.specs.Prelude.{◌≡◌, ◌<◌, ◌≤◌, ℕ, length, true, false, Some, None, is_some};
ghost use Rattle.exercise_model.specs.Recording.{PlainRecording, IsRecording};
ghost use Rattle.exercise_model.specs.History.{History};
ghost use Rattle.exercise_model.specs.Run.{Explains};
ghost use Rattle.exercise_model.specs.Setting.{is_open};
ghost use Rattle.exercise_review.specs.declared.party.Party.{Party};
ghost use Rattle.dis_records.specs.declared.address.SiteApplication.{SiteApplication};
ghost use Rattle.exercise_review.specs.declared.party.Party.TheVariants.{Station, Outside};
ghost use Rattle.exercise_review.specs.declared.fate.Fate.TheVariants.{Done, Answered, Refused, Pending, Unheard, Unanswered, Lost, Unknown};
ghost use Rattle.exercise_review.specs.declared.word.Word.{Word};
ghost use Rattle.exercise_review.specs.Order.{OrderData, order_at};
ghost use Rattle.exercise_review.specs.Party.{is_party_outside};
ghost use Rattle.exercise_review.specs.Fate.{fate_heard, fate_of, needs_both_logs};
ghost use Rattle.exercise_review.specs.InRuns.{Receives, HasReplied, HasSettled, Hears, HearsWord};
ghost use Rattle.exercise_review.specs.Answering.{SendsAnswer, SendsSettling, GetsSettling};
ghost use Rattle.exercise_findings.specs.State.{state_before};
ghost use Rattle.exercise_review.specs.Life.{lives_of, states_at, if_there};

/// The law of one side: if the maker of an order or the party is not recorded, its fate is none of
/// done, refused, answered and unheard, which need both logs. In a recording of the first form and
/// in a closed one each order was made by a recorded station, and nobody outside is a party.
pub fn one_side_is_not_enough()
    ensures maker { (r : PlainRecording) (o : OrderData) (party : Party) → o.maker ≡ None → needs_both_logs (fate_of r o party) ≡ false }
    ensures party { (r : PlainRecording) (o : OrderData) (a : SiteApplication) → needs_both_logs (fate_of r o (Outside a)) ≡ false }
    ensures closed { (r : PlainRecording) (o : OrderData) (a : SiteApplication) → is_open r.setting.form ≡ false → is_party_outside r o a ≡ false }
    ensures inside { (r : PlainRecording) (i : ℕ) (o : OrderData) → is_open r.setting.form ≡ false → order_at r i ≡ Some o → is_some o.maker ≡ true }
{}

/// The law of lives: at each place of the log of a station, before an entry or at the end, the
/// stretches of an entity that cover the place are its state there: one stretch with that state if
/// the entity exists, none if it is Absent.
pub fn lives_are_states()
    ensures { (r : PlainRecording) (s e n : ℕ) → n ≤ length r.entries → states_at n (lives_of r s e) ≡ if_there (state_before r s e n) }
{}

/// The law of fates. If the maker s of an order and its party t are recorded, the fate of the order
/// there means, in every run that explains the recording: lost, that t did not receive it;
/// unanswered, that t received it and did not reply; pending, that t replied, and with no answer
/// that settles; unheard, that t replied with an answer that settles, and that s received none such
/// of t; done, refused and answered, that s received one of t that settles, which says the word of
/// that fate and which t had sent before. It is never unknown. A station that did not receive an
/// order did not reply to it.
///
/// An answer to the order that t sends is a reply to it (`replies`, `settles`), and such an answer
/// that s receives from t is heard (`hears`), since an identifier of s denotes one order. So, lost
/// and unanswered: t sent nothing that answers the order; pending: nothing that answers and settles
/// it; unheard: s received nothing from t that does.
pub fn fates_hold()
    ensures lost { (r : PlainRecording) (h : History) (o : OrderData) (s t : ℕ) → Explains r h → o.maker ≡ Some s → fate_of r o (Station t) ≡ Lost → Receives r h o t → ⊥ }
    ensures unanswered { (r : PlainRecording) (h : History) (o : OrderData) (s t : ℕ) → Explains r h → o.maker ≡ Some s → fate_of r o (Station t) ≡ Unanswered
        → Receives r h o t × (HasReplied r h o t → ⊥) }
    ensures pending { (r : PlainRecording) (h : History) (o : OrderData) (s t : ℕ) → Explains r h → o.maker ≡ Some s → fate_of r o (Station t) ≡ Pending
        → HasReplied r h o t × (HasSettled r h o t → ⊥) }
    ensures unheard { (r : PlainRecording) (h : History) (o : OrderData) (s t : ℕ) → Explains r h → o.maker ≡ Some s → fate_of r o (Station t) ≡ Unheard
        → HasSettled r h o t × (Hears r h o s t → ⊥) }
    ensures done { (r : PlainRecording) (h : History) (o : OrderData) (s t : ℕ) → IsRecording r → Explains r h → t < length r.setting.stations → o.maker ≡ Some s
        → fate_of r o (Station t) ≡ Done → (word : Word) × HearsWord r h o s t word × (fate_heard word ≡ Done) }
    ensures refused { (r : PlainRecording) (h : History) (o : OrderData) (s t : ℕ) → IsRecording r → Explains r h → t < length r.setting.stations → o.maker ≡ Some s
        → fate_of r o (Station t) ≡ Refused → (word : Word) × HearsWord r h o s t word × (fate_heard word ≡ Refused) }
    ensures answered { (r : PlainRecording) (h : History) (o : OrderData) (s t : ℕ) → IsRecording r → Explains r h → t < length r.setting.stations → o.maker ≡ Some s
        → fate_of r o (Station t) ≡ Answered → (word : Word) × HearsWord r h o s t word × (fate_heard word ≡ Answered) }
    ensures known { (r : PlainRecording) (o : OrderData) (s t : ℕ) → o.maker ≡ Some s → fate_of r o (Station t) ≡ Unknown → ⊥ }
    ensures copied { (r : PlainRecording) (h : History) (o : OrderData) (t : ℕ) → Explains r h → HasReplied r h o t → Receives r h o t }
    ensures replies { (r : PlainRecording) (h : History) (o : OrderData) (i s t : ℕ) → IsRecording r → Explains r h → order_at r i ≡ Some o → o.maker ≡ Some s
        → SendsAnswer r h o t → HasReplied r h o t }
    ensures settles { (r : PlainRecording) (h : History) (o : OrderData) (i s t : ℕ) → IsRecording r → Explains r h → order_at r i ≡ Some o → o.maker ≡ Some s
        → SendsSettling r h o t → HasSettled r h o t }
    ensures hears { (r : PlainRecording) (h : History) (o : OrderData) (i s t : ℕ) → IsRecording r → Explains r h → t < length r.setting.stations → order_at r i ≡ Some o → o.maker ≡ Some s
        → GetsSettling r h o s t → Hears r h o s t }
    ensures lost_silent { (r : PlainRecording) (h : History) (o : OrderData) (i s t : ℕ) → IsRecording r → Explains r h → order_at r i ≡ Some o → o.maker ≡ Some s
        → fate_of r o (Station t) ≡ Lost → SendsAnswer r h o t → ⊥ }
    ensures unanswered_silent { (r : PlainRecording) (h : History) (o : OrderData) (i s t : ℕ) → IsRecording r → Explains r h → order_at r i ≡ Some o → o.maker ≡ Some s
        → fate_of r o (Station t) ≡ Unanswered → SendsAnswer r h o t → ⊥ }
    ensures pending_unsettled { (r : PlainRecording) (h : History) (o : OrderData) (i s t : ℕ) → IsRecording r → Explains r h → order_at r i ≡ Some o → o.maker ≡ Some s
        → fate_of r o (Station t) ≡ Pending → SendsSettling r h o t → ⊥ }
    ensures unheard_unreceived { (r : PlainRecording) (h : History) (o : OrderData) (i s t : ℕ) → IsRecording r → Explains r h → t < length r.setting.stations → order_at r i ≡ Some o → o.maker ≡ Some s
        → fate_of r o (Station t) ≡ Unheard → GetsSettling r h o s t → ⊥ }
{}
