//! The law of conversion: a review does not depend on the format. A function is a theorem: it has
//! no body, and its contract is the law.

ghost use Rattle.std.specs.Prelude.{◌≡◌, ◌↔◌, Result};
ghost use Rattle.exercise_model.specs.declared.form.Form.TheVariants.{First};
ghost use Rattle.exercise_model.specs.Recording.{PlainRecording};
ghost use Rattle.exercise_model.specs.Conversion.{converted};
ghost use Rattle.exercise_review.specs.declared.fault.ReviewFault.{ReviewFault};
ghost use Rattle.exercise_review.specs.declared.review.Review.{Review};
ghost use Rattle.exercise_review.specs.Review.{Reviews};
ghost use Rattle.exercise_review.specs.Alike.{AreReviewedAlike};

/// The law of conversion: a recording of the first form, and its copy of the form Closed that is
/// otherwise equal, have equal orders at their parties, equal spans of lives, equal counts and an
/// equal number of rows (`alike`). So both have equal reviews, and if one is refused for too many
/// rows, so is the other (`reviews`).
pub fn conversion_keeps_views()
    ensures alike { (r : PlainRecording) → r.setting.form ≡ First → AreReviewedAlike r (converted r) }
    ensures reviews { (r : PlainRecording) (result : Result Review ReviewFault) → r.setting.form ≡ First → Reviews r result ↔ Reviews (converted r) result }
{}
