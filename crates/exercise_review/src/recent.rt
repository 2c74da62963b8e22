//! The most recent requests, against which a new one is compared first.

ghost use Rattle.std.specs.Prelude.{◌≡◌, None};
ghost use Rattle.exercise_model.specs.Held.{shown};
ghost use Rattle.exercise_review.specs.Recent.{after};

use exercise_model::EntryView;

/// The last entries that sent and received a request. A hint only: whoever uses it compares the
/// bytes.
#[derive(Clone, Copy)]
pub(crate) struct Recent {
    pub sent: Option<usize>,
    pub got: Option<usize>,
}

impl Recent {
    /// No entry.
    pub(crate) fn none() -> Recent
        ensures { (result.sent ≡ None) × (result.got ≡ None) }
    {
        Recent {
            sent: None,
            got: None,
        }
    }

    /// These entries, updated by an entry with these contents.
    pub(crate) fn after(self, view: &EntryView<'_>, entry: usize) -> Recent
        ensures { result ≡ after self (shown view.now) entry }
    {
        let (sent, got) = match view {
            EntryView::Sent { .. } => (Some(entry), self.got),
            EntryView::Received { .. } => (self.sent, Some(entry)),
            EntryView::Told { .. } => (self.sent, self.got),
        };
        Recent { sent, got }
    }
}
