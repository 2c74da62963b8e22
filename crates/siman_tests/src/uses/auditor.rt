//! One auditor's results, and those of others.

ghost use Rattle.std.specs.Prelude.{List, OnOk, ◌≡◌};
ghost use Rattle.exercise_check.specs.Goodness.{IsGood};
ghost use Rattle.exercise_check.specs.Links.{DifferInSequence};
ghost use Rattle.exercise_check.specs.declared.certificate.Step.{Step};
ghost use Rattle.exercise_model.specs.Conversion.{converted};
ghost use Rattle.exercise_model.specs.Recording.{IsRecording};
ghost use Rattle.exercise_model.specs.declared.form.Form.TheVariants.{First};
ghost use Rattle.exercise_review.specs.Review.{Reviews};

use exercise_check::{Certificate, CheckFault, check, links_are_of_the_logs};
use exercise_findings::{Account, Findings};
use exercise_model::{ExerciseLog, Recording};
use exercise_review::{Review, ReviewFault, conversion_keeps_views, review_of};
use std::alloc::Global;

/// Checks a certificate. After a yes, every other good certificate of the recording has these steps
/// and links, at most in another order.
pub fn found_what_others_find(
    alloc: Global,
    recording: &Recording,
    certificate: &Certificate,
) -> Result<Account, CheckFault>
    ensures { (other : List Step) → IsRecording recording.now → IsGood recording.now other
        → OnOk result (DifferInSequence certificate.now.steps.items other) }
{
    links_are_of_the_logs();
    check(alloc, recording, certificate)
}

/// Reviews a recording of the first format, and its conversion at once: the review is valid for
/// both.
pub fn reviewed_the_archive<L: ExerciseLog>(
    alloc: Global,
    findings: Findings<'_, L>,
) -> Result<Review, ReviewFault>
    ensures { findings.entry.setting.form ≡ First → Reviews (converted findings.entry) result }
{
    conversion_keeps_views();
    review_of(alloc, findings)
}
