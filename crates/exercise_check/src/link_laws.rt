//! The law of links: good certificates of one recording differ only in the sequence. A function is
//! a theorem: it has no body, and its contract is the law.

ghost use Rattle.std.specs.Prelude.{◌≡◌, ◌<◌, ℕ, List, length};
ghost use Rattle.exercise_model.specs.Recording.{PlainRecording, IsRecording};
ghost use Rattle.exercise_check.specs.declared.certificate.Step.{Step};
ghost use Rattle.exercise_check.specs.Sequence.{link_number};
ghost use Rattle.exercise_check.specs.Goodness.{IsGood};
ghost use Rattle.exercise_check.specs.Links.{log_link, step_at, IsNamedOnce, DifferInSequence};

/// Each link of a good certificate follows from the logs: a sent answer links to its pair, a
/// receipt to its source, every other entry to none. A good certificate names each entry once. So
/// two good certificates of one recording differ only in the sequence.
pub fn links_are_of_the_logs()
    ensures links { (r : PlainRecording) (steps : List Step) (k : ℕ) → IsRecording r → IsGood r steps → k < length steps
        → (step_at steps k).link ≡ link_number (log_link r (step_at steps k).place) }
    ensures once { (r : PlainRecording) (steps : List Step) (i : ℕ) → IsRecording r → IsGood r steps → i < length r.entries → IsNamedOnce steps i }
    ensures order { (r : PlainRecording) (steps other : List Step) → IsRecording r → IsGood r steps → IsGood r other → DifferInSequence steps other }
{}
