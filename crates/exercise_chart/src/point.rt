//! Places in a picture: an entry, its step and its station.

ghost use Rattle.std.specs.Prelude.{◌≡◌, ◌≤◌, ◌-◌};

/// An entry with its step in a certificate and its station. Entries and steps are numbers from 0;
/// the station is an index.
#[derive(Clone, Copy)]
pub struct Point {
    pub entry: usize,
    /// The first step that takes the entry; past the last step if none does.
    pub step: usize,
    pub station: u16,
}

/// The range of steps that are shown, one row each: `first` is included, `end` is not.
#[derive(Clone, Copy)]
pub struct Rows {
    pub first: usize,
    pub end: usize,
    ghost ordered: { first ≤ end },
}

impl Rows {
    ghost use Rattle.exercise_chart.specs.Window.{is_row};

    /// The number of steps in the range.
    pub fn count(self) -> usize
        ensures { result ≡ self.end - self.first }
    {
        self.end - self.first
    }

    /// Whether a step is shown.
    pub fn has(self, step: usize) -> bool
        ensures { result ≡ is_row self step }
    {
        self.first <= step && step < self.end
    }
}
