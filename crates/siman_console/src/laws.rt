//! Laws of the answers.

ghost use Rattle.std.specs.Prelude.{◌≡◌, ◌↔◌, ℕ, List};
ghost use Rattle.exercise_model.specs.declared.form.Form.TheVariants.{First};
ghost use Rattle.exercise_model.specs.Recording.{PlainRecording};
ghost use Rattle.exercise_model.specs.Conversion.{converted};
ghost use Rattle.exercise_check.specs.declared.certificate.Step.{Step};
ghost use Rattle.exercise_audit.specs.declared.blocks.Block.{Block};
ghost use Rattle.exercise_check.specs.Report.{report_text};
ghost use Rattle.siman_file_commands.specs.Check.{IsDue};
ghost use Rattle.siman_file_commands.specs.Audit.{blocked_text, IsListOf};

/// The law of conversion: a recording and its conversion have equal reports (`report`) and equal
/// blocked lists (`blocked`); the answer of `check` about a recording of the first form and some
/// certificate is that about its conversion and that certificate (`checked`), and a text is the
/// blocked list of the one exactly if it is that of the other (`listed`).
pub fn conversion_keeps_answers()
    ensures report { (r : PlainRecording) → report_text (converted r) ≡ report_text r }
    ensures blocked { (r : PlainRecording) (blocks : List Block) → blocked_text (converted r) blocks ≡ blocked_text r blocks }
    ensures checked { (r : PlainRecording) (steps : List Step) (text : List ℕ) → r.setting.form ≡ First → IsDue r steps text ↔ IsDue (converted r) steps text }
    ensures listed { (r : PlainRecording) (text : List ℕ) → r.setting.form ≡ First → IsListOf r text ↔ IsListOf (converted r) text }
{}
