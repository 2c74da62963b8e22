//! Laws of steps, and of the format of certificates. Each function is a theorem: it has no body,
//! and its contract is the law.

ghost use Rattle.std.specs.Prelude.{◌≡◌, ◌↔◌, ◌≤◌, ◌<◌, ◌+◌, ◌*◌, ℕ, List, length, take, slice_index, Ok, Err, true, Some, None};
ghost use Rattle.std.specs.List.{list_all};
ghost use Rattle.exercise_check.specs.declared.certificate.Step.{Step};
ghost use Rattle.exercise_check.specs.declared.certificate_fault.CertificateFormatFault.{CertificateFormatFault};
ghost use Rattle.exercise_check.specs.Certificate.{is_step, certificate_text, certificate_at, IsRefused};
ghost use Rattle.siman_pdus.specs.declared.pdu.Pdu.{Pdu};
ghost use Rattle.exercise_model.specs.Entry.{Entry};
ghost use Rattle.exercise_model.specs.Recording.{PlainRecording, IsRecording};
ghost use Rattle.exercise_model.specs.History.{event_of, Send};
ghost use Rattle.exercise_model.specs.Meaning.{meaning};
ghost use Rattle.exercise_model.specs.Exchange.{is_answer_body};
ghost use Rattle.exercise_model.specs.Pairing.{IsTakenUp};
ghost use Rattle.exercise_model.specs.Run.{Explains};
ghost use Rattle.exercise_model.specs.declared.form.Form.TheVariants.{First};
ghost use Rattle.exercise_model.specs.Conversion.{converted};
ghost use Rattle.exercise_check.specs.Sequence.{sequence_of};
ghost use Rattle.exercise_check.specs.Goodness.{step_cause, IsGoodStep, GoodBelow, IsGood, Refuses};
ghost use Rattle.exercise_findings.specs.Account.{AccountData, IsAccount};
ghost use Rattle.exercise_check.specs.declared.checker.CheckFault.{CheckFault};
ghost use Rattle.exercise_check.specs.declared.checker.CheckFault.TheVariants.{Bad};
ghost use Rattle.exercise_model.specs.declared.cause.Cause.{Cause};

/// A step is good exactly if there is no cause against it. After good steps, a good step links an
/// answer to the request that it takes up in their sequence. The sequence of a good certificate is
/// a run that explains the recording.
pub fn good_steps_have_no_cause()
    ensures good { (r : PlainRecording) (before : List Step) (step : Step) → step_cause r before step ≡ None → (e : Entry) × IsGoodStep r before step e }
    ensures none { (r : PlainRecording) (before : List Step) (step : Step) (e : Entry) → IsGoodStep r before step e → step_cause r before step ≡ None }
    // After good steps the link of an answer is the entry of the request taken up in that sequence.
    ensures links { (r : PlainRecording) (before : List Step) (step : Step) (e : Entry) (s : ℕ) (b : List ℕ) (p : Pdu) → GoodBelow r before (length before) → IsGoodStep r before step e
        → event_of e ≡ Send s b → meaning r.setting.exercise b ≡ Some p → is_answer_body p.body ≡ true → IsTakenUp r (sequence_of r before) s p step.link }
    ensures explains { (r : PlainRecording) (steps : List Step) → IsRecording r → IsGood r steps → Explains r (sequence_of r steps) }
{}

/// Converting a recording of the first form changes no check. It and the recording that differs
/// only in its form, Closed, have equal first causes against each step after any steps (`causes`),
/// equal good certificates (`good`), equal refusals of all others (`bad`), and equal accounts
/// (`account`). So [`check`] gives the one result for both, except for want of memory.
///
/// [`check`]: crate::check
pub fn conversion_keeps_checks()
    ensures causes { (r : PlainRecording) (before : List Step) (step : Step) → r.setting.form ≡ First → step_cause r before step ≡ step_cause (converted r) before step }
    ensures good { (r : PlainRecording) (steps : List Step) → r.setting.form ≡ First → IsGood r steps ↔ IsGood (converted r) steps }
    ensures bad { (r : PlainRecording) (steps : List Step) (fault : CheckFault) → r.setting.form ≡ First → Refuses r steps fault ↔ Refuses (converted r) steps fault }
    // A certificate that is refused for both is refused with an equal step and cause.
    ensures one { (r : PlainRecording) (steps : List Step) (k j : ℕ) (cause other : Cause) → r.setting.form ≡ First → Refuses r steps (Bad k cause) → Refuses (converted r) steps (Bad j other)
        → (k ≡ j) × (cause ≡ other) }
    ensures never { (r : PlainRecording) (steps : List Step) (k : ℕ) (cause : Cause) → r.setting.form ≡ First → IsGood r steps → Refuses (converted r) steps (Bad k cause) → ⊥ }
    ensures account { (r : PlainRecording) (c : AccountData) → IsAccount r c ↔ IsAccount (converted r) c }
{}

/// Reading and writing agree. Bytes that read as a certificate are its text, complete and within
/// the limit; the text of each certificate within the limit reads as that certificate. Numbers have
/// 32 bits.
pub fn text_and_reading_agree()
    ensures text { (limit : ℕ) (bytes : List ℕ) (steps : List Step) → ((i : ℕ) → slice_index bytes i < 256)
        → certificate_at limit bytes ≡ Ok steps → bytes ≡ certificate_text steps }
    ensures within { (limit : ℕ) (bytes : List ℕ) (steps : List Step) → ((i : ℕ) → slice_index bytes i < 256)
        → certificate_at limit bytes ≡ Ok steps → length steps ≤ limit }
    ensures numbers { (limit : ℕ) (bytes : List ℕ) (steps : List Step) → ((i : ℕ) → slice_index bytes i < 256)
        → certificate_at limit bytes ≡ Ok steps → list_all is_step steps ≡ true }
    ensures read { (limit : ℕ) (steps : List Step) → list_all is_step steps ≡ true
        → length steps ≤ limit → length steps ≤ 4294967295
        → certificate_at limit (certificate_text steps) ≡ Ok steps }
{}

/// Refusals are true: the fault returned for refused bytes holds at its offset. Magic at 0: the
/// first eight bytes are others. OverLimit at 8: the magic is right, and there are more steps than
/// the limit. Truncated at the length: there are fewer bytes than the head and its steps need.
/// Trailing: a certificate within the limit ends there, and more bytes follow.
pub fn refusals_hold()
    ensures { (limit : ℕ) (bytes : List ℕ) (fault : CertificateFormatFault) → ((i : ℕ) → slice_index bytes i < 256)
        → certificate_at limit bytes ≡ Err fault → IsRefused limit bytes fault }
{}

/// Bytes cut off behind the first byte past the text of the largest certificate within the limit
/// are read as all of them would be.
pub fn past_the_limit_nothing_counts()
    ensures { (limit : ℕ) (bytes : List ℕ) → certificate_at limit (take (12 + 8 * limit + 1) bytes) ≡ certificate_at limit bytes }
{}
