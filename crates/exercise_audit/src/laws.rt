//! Laws of searches. Each function is a theorem: it has no body, and its contract is the law.

ghost use Rattle.std.specs.Prelude.{◌≡◌, ◌↔◌, List, length};
ghost use Rattle.exercise_model.specs.declared.form.Form.TheVariants.{First};
ghost use Rattle.exercise_model.specs.Recording.{PlainRecording, IsRecording};
ghost use Rattle.exercise_model.specs.Conversion.{converted};
ghost use Rattle.exercise_check.specs.declared.certificate.Step.{Step};
ghost use Rattle.exercise_check.specs.Goodness.{IsGood};
ghost use Rattle.exercise_audit.specs.declared.blocks.Block.{Block};
ghost use Rattle.exercise_audit.specs.declared.blocks.Audit.{Audit};
ghost use Rattle.exercise_audit.specs.Audit.{IsBlocked, IsAuditOf};
ghost use Rattle.exercise_audit.specs.Longest.{IsLongest};
ghost use Rattle.exercise_audit.specs.Time.{IsTimely, StampsNeverFall, IsAsWritten};
ghost use Rattle.exercise_audit.specs.Written.{IsRunAsWritten};

/// Converting a recording of the first form changes no search. It and the recording that differs
/// only in its form, Closed, are blocked alike (`blocked`), and a search may return equal results
/// for both (`answers`); so [`audit`] explains one exactly if it explains the other (`one`,
/// `other`), except for want of memory.
///
/// [`audit`]: crate::audit
pub fn conversion_keeps_searches()
    ensures blocked { (r : PlainRecording) (blocks : List Block) → r.setting.form ≡ First → IsBlocked r blocks ↔ IsBlocked (converted r) blocks }
    ensures answers { (r : PlainRecording) (answer : Audit) → r.setting.form ≡ First → IsAuditOf r answer ↔ IsAuditOf (converted r) answer }
    ensures one { (r : PlainRecording) (blocks : List Block) (steps : List Step) → IsRecording r → r.setting.form ≡ First
        → IsBlocked (converted r) blocks → IsGood r steps → ⊥ }
    ensures other { (r : PlainRecording) (blocks : List Block) (steps : List Step) → IsRecording r → r.setting.form ≡ First
        → IsBlocked r blocks → IsGood (converted r) steps → ⊥ }
{}

/// The sequence of time is a function of the recording: two certificates that explain it in that
/// sequence are equal (`one`). Where the entries are a run as the recording has them, and stamps
/// never fall from one entry to the next, it is that run (`written`). So is the longest run in that
/// sequence, with its blocks (`longest`).
pub fn time_determines_sequences()
    ensures one { (r : PlainRecording) (steps others : List Step) → IsGood r steps → IsTimely r steps → IsGood r others → IsTimely r others → steps ≡ others }
    ensures written { (r : PlainRecording) (steps : List Step) → IsGood r steps → IsTimely r steps → IsRunAsWritten r (length r.entries)
        → StampsNeverFall r → IsAsWritten steps }
    ensures longest { (r : PlainRecording) (steps others : List Step) (blocks more : List Block) → IsLongest r steps blocks → IsLongest r others more
        → (steps ≡ others) × (blocks ≡ more) }
{}
