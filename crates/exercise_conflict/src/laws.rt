//! Laws of conflicts. Each function is a theorem: it has no body, and its contract is the law.

ghost use Rattle.std.specs.Prelude.{◌≡◌, ◌≢◌, ◌⊎◌, ◌<◌, ◌≤◌, ◌+◌, length, ℕ, List, true, Some, None, slice_get, slice_index_or};
ghost use Rattle.exercise_model.specs.declared.cause.Cause.{Cause};
ghost use Rattle.exercise_model.specs.declared.cause.Cause.TheVariants.{ReusedIdentifier, WrongAnswer, ChangedAnswer, Impossible, NeverSent, WrongState};
ghost use Rattle.exercise_model.specs.Recording.{PlainRecording, IsRecording};
ghost use Rattle.exercise_model.specs.History.{History};
ghost use Rattle.exercise_model.specs.Run.{Explains};
ghost use Rattle.exercise_findings.specs.Tables.{own_cause};
ghost use Rattle.exercise_findings.specs.Source.{source_of};
ghost use Rattle.exercise_check.specs.declared.certificate.Step.{Step};
ghost use Rattle.exercise_check.specs.Goodness.{no_step, IsFirstBad};
ghost use Rattle.exercise_audit.specs.declared.blocks.Block.{Block};
ghost use Rattle.exercise_audit.specs.Audit.{IsBlocked};
ghost use Rattle.exercise_findings.specs.declared.missing.Missing.{Missing};
ghost use Rattle.exercise_findings.specs.Missing.{missing_at};
ghost use Rattle.exercise_conflict.specs.Final.{is_final};
ghost use Rattle.exercise_conflict.specs.Wider.{IsWider, HasFurtherSends};
ghost use Rattle.exercise_conflict.specs.Needed.{IsNeeded};
ghost use Rattle.exercise_conflict.specs.Further.{HasMissingSends};
ghost use Rattle.exercise_conflict.specs.declared.waits.Wait.{Wait};
ghost use Rattle.exercise_conflict.specs.Waits.{waits_of, Leads};
ghost use Rattle.exercise_conflict.specs.Earlier.{earlier_of, Contradicts, ContradictsAnswer};
ghost use Rattle.exercise_conflict.specs.Conflict.{ClashesByOrder, ClashesByAnswer, ClashesByOpposite, ClashesByChange, ClashesByState, ClashesBySend};
ghost use Rattle.exercise_conflict.specs.Since.{last_change_entry, HasOneState, Made};
ghost use Rattle.exercise_conflict.specs.StepClash.{is_of_event};
ghost use Rattle.exercise_conflict.specs.Lacks.{missing_sends};
ghost use Rattle.exercise_conflict.specs.declared.repair.Enough.{Enough};
ghost use Rattle.exercise_conflict.specs.declared.repair.Enough.TheVariants as words;
ghost use Rattle.exercise_conflict.specs.Repair.{repaired, IsEnough};
ghost use Rattle.exercise_conflict.specs.declared.way.Way.{Way};
ghost use Rattle.exercise_conflict.specs.Ways.{way_of};
ghost use Rattle.exercise_conflict.specs.Cycles.{cycle_at, AreWaits, EndsAt, IsTold};

/// The law of own causes: if its station's log shows a cause other than `NeverSent` against an
/// entry, no run explains the recording. So such a cause is always the recording's fault, and no
/// search is needed to decide that.
pub fn own_causes_are_final()
    ensures { (r : PlainRecording) (j : ℕ) (cause : Cause) (h : History) → own_cause r j ≡ Some cause → cause ≢ NeverSent → Explains r h → ⊥ }
{}

/// The law of further sends: if its station's log shows a cause other than `NeverSent` against an
/// entry, no run explains any recording that adds only sends which are no Able Acknowledges, at any
/// places. So no such send resolves the cause.
pub fn own_causes_stay()
    ensures { (r wide : PlainRecording) (j : ℕ) (cause : Cause) (h : History) → HasFurtherSends r wide → own_cause r j ≡ Some cause → cause ≢ NeverSent
        → Explains wide h → ⊥ }
{}

/// The law of final causes: if its station's log shows a final cause against an entry (a wrong
/// sender, a reused identifier, a changed answer or a stranger), no run explains any wider
/// recording, whatever it adds. So no entry that the logs might lack resolves the cause.
pub fn final_is_final()
    ensures { (r wide : PlainRecording) (j : ℕ) (cause : Cause) (h : History) → IsWider r wide → own_cause r j ≡ Some cause → is_final cause ≡ true
        → Explains wide h → ⊥ }
{}

/// The law of missing sends: a missing send at an entry is the send of the datagram that the entry
/// receives. The log of the sender lacks it, and that log has it in each wider recording that some
/// run explains.
pub fn missing_is_needed()
    ensures { (r wide : PlainRecording) (h : History) (i : ℕ) (m : Missing) → IsRecording wide → IsWider r wide → Explains wide h
        → missing_at r i ≡ Some m → IsNeeded r wide i m }
{}

/// The law of ways. In a blocked list the cause of each block is the one that its station's log
/// shows against its entry (`own`). A block with the cause `NeverSent` whose source is in the logs
/// leads to the block of the source's station, whose entry is no later than the source (`leads`).
/// So each wait is true of the logs, and if the station waited for waits too, the wait names the
/// entry of that wait (`waits`).
pub fn ways_are_blocked()
    ensures own { (r : PlainRecording) (blocks : List Block) (n : ℕ) (b : Block) → IsBlocked r blocks → slice_get blocks n ≡ Some b → own_cause r b.entry ≡ Some b.cause }
    ensures leads { (r : PlainRecording) (blocks : List Block) (n : ℕ) (b : Block) (source : ℕ) → IsBlocked r blocks → slice_get blocks n ≡ Some b → b.cause ≡ NeverSent
        → source_of r b.entry ≡ Some source → Leads r blocks b }
    ensures waits { (r : PlainRecording) (blocks : List Block) → IsBlocked r blocks → AreWaits r (waits_of r blocks) }
{}

/// The law of cycles: if stations wait for one another in a ring, no run explains the recording. It
/// needs no search and no blocked list, only the entries that the waits name: before a station of
/// the ring received the datagram that it waits for, the next station had sent it, and before that
/// had received the one that it waits for itself.
pub fn cycles_block()
    ensures { (r : PlainRecording) (waits : List Wait) (s : ℕ) (cycle : List ℕ) (h : History) → IsRecording r → AreWaits r waits
        → cycle_at waits s ≡ Some cycle → Explains r h → ⊥ }
{}

/// The law of ends: from each station, following the waits leads to a station that waits for
/// nobody, or to one with a cycle.
pub fn ways_end()
    ensures { (r : PlainRecording) (waits : List Wait) (s : ℕ) → IsRecording r → AreWaits r waits → s < length r.setting.stations
        → EndsAt waits s ⊎ IsTold waits s }
{}

/// The law of earlier entries: if an entry has a reused identifier, a wrong answer or a changed
/// answer as its cause, the entry that it contradicts is an earlier entry of its station, and after
/// that alone (for a changed answer, with the request that it takes up before it) the entry has
/// that cause.
pub fn earlier_is_the_conflict()
    ensures reused { (r : PlainRecording) (j : ℕ) → own_cause r j ≡ Some ReusedIdentifier → (k : ℕ) × (earlier_of r j ≡ Some k) × Contradicts r j k ReusedIdentifier }
    ensures answer { (r : PlainRecording) (j : ℕ) → own_cause r j ≡ Some WrongAnswer → (k : ℕ) × (earlier_of r j ≡ Some k) × Contradicts r j k WrongAnswer }
    ensures changed { (r : PlainRecording) (j : ℕ) → own_cause r j ≡ Some ChangedAnswer → (k : ℕ) × (earlier_of r j ≡ Some k) × ContradictsAnswer r j k ChangedAnswer }
{}

/// The law of states: the entry that made the state of an entity is a change, and no later one
/// changed that state; if there is none, the entity has its initial state.
pub fn states_are_made()
    ensures made { (r : PlainRecording) (s e n k : ℕ) → last_change_entry r s e n ≡ Some k → Made r s e n k }
    ensures start { (r : PlainRecording) (s e n : ℕ) → last_change_entry r s e n ≡ None → HasOneState r s e 0 n }
{}

/// The law of clashes: the reported other side of a cause is the real one. After the reported
/// earlier entry alone (for a changed answer, with the request that it takes up before it) the
/// entry has its cause (`order`, `answer`, `opposite`). An entity has the reported state, made by
/// the reported change: no later one changed it (`change`, `state`). If no source of a datagram is
/// reported, the log of its sender has no send of it (`send`).
pub fn clashes_are_the_conflict()
    ensures order { (r : PlainRecording) (j : ℕ) → own_cause r j ≡ Some ReusedIdentifier → ClashesByOrder r j }
    ensures answer { (r : PlainRecording) (j : ℕ) → own_cause r j ≡ Some WrongAnswer → ClashesByAnswer r j }
    ensures opposite { (r : PlainRecording) (j : ℕ) → own_cause r j ≡ Some ChangedAnswer → ClashesByOpposite r j }
    ensures change { (r : PlainRecording) (j : ℕ) → own_cause r j ≡ Some Impossible → ClashesByChange r j }
    ensures state { (r : PlainRecording) (j : ℕ) → own_cause r j ≡ Some WrongState → ClashesByState r j }
    ensures send { (r : PlainRecording) (j : ℕ) → own_cause r j ≡ Some NeverSent → ClashesBySend r j }
{}

/// The law of bad steps: if the first cause against the first bad step of a certificate concerns
/// its event, and not the certificate, it is the cause that its station's log shows against the
/// step's entry. So what such a step contradicts, its entry contradicts under any certificate.
pub fn bad_steps_have_own_causes()
    ensures { (r : PlainRecording) (steps : List Step) (k : ℕ) (cause : Cause) → IsFirstBad r steps k cause → is_of_event cause ≡ true
        → own_cause r (slice_index_or steps k no_step).place ≡ Some cause }
{}

/// The law of reported ways: each block of a blocked list has a way, so there are as many ways as
/// blocks.
pub fn each_block_has_its_way()
    ensures { (r : PlainRecording) (blocks : List Block) (n : ℕ) (b : Block) → IsBlocked r blocks → slice_get blocks n ≡ Some b → (way : Way) × (way_of r blocks b ≡ Some way) }
{}

/// The law of sufficiency: for each recording at most one word holds. `yes` means that some run
/// explains it with the sends that its logs lack, each at its place (`yes`); `no` that none does,
/// none of these sends is an Able, and they fit into a recording (`no`).
pub fn enough_is_one_word()
    ensures one { (r : PlainRecording) (word other : Enough) → IsEnough r word → IsEnough r other → word ≡ other }
    ensures yes { (r : PlainRecording) → IsEnough r words.Yes → (h : History) × Explains (repaired r) h }
    ensures no { (r : PlainRecording) (h : History) → IsEnough r words.No → Explains (repaired r) h → ⊥ }
{}

/// The law of fewer sends: each wider recording that some run explains has at least as many
/// additional entries as the logs lack sends. So if the missing sends are enough, no smaller number
/// of entries is.
pub fn fewer_do_not_do()
    ensures { (r wide : PlainRecording) (h : History) → IsRecording r → IsRecording wide → IsWider r wide → Explains wide h
        → length r.entries + length (missing_sends r) ≤ length wide.entries }
{}

/// The law of other places: if the missing sends are not enough at their places, no run explains a
/// recording that adds only sends of the missing datagrams, at any places and any number of times.
/// For such sends change no state, and the earliest place does the least harm.
pub fn nowhere_else()
    ensures { (r wide : PlainRecording) (h : History) → IsRecording r → IsRecording wide → IsEnough r words.No → HasMissingSends r wide → Explains wide h → ⊥ }
{}
