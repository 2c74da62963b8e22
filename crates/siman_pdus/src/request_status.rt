//! The request status of an Action Response (SISO-REF-010).

ghost use Rattle.std.specs.Prelude.{◌≡◌, ◌≤◌, length};
ghost use Rattle.siman_pdus.specs.FieldNames.{status_of, status_text};

use std::fmt;

/// The request status of an Action Response (SISO-REF-010).
#[derive(Clone, Copy, PartialEq, Eq)]
pub enum RequestStatus {
    /// Request status 0.
    Other,
    /// Request status 1.
    Pending,
    /// Request status 2.
    Executing,
    /// Request status 3.
    PartiallyComplete,
    /// Request status 4.
    Complete,
    /// Request status 5: request rejected.
    Rejected,
}

impl RequestStatus {
    /// The status with a number, if it has a name.
    pub fn of(number: u32) -> Option<RequestStatus>
        ensures { result ≡ status_of number }
    {
        let named = match number {
            0 => RequestStatus::Other,
            1 => RequestStatus::Pending,
            2 => RequestStatus::Executing,
            3 => RequestStatus::PartiallyComplete,
            4 => RequestStatus::Complete,
            5 => RequestStatus::Rejected,
            _ => return None,
        };
        Some(named)
    }

    /// Its name, such as `pending`.
    pub fn name(self) -> &'static str
        ensures name { result.now ≡ status_text self }
        ensures short { length result.now ≤ 20 }
    {
        match self {
            RequestStatus::Other => "other",
            RequestStatus::Pending => "pending",
            RequestStatus::Executing => "executing",
            RequestStatus::PartiallyComplete => "partially-complete",
            RequestStatus::Complete => "complete",
            RequestStatus::Rejected => "rejected",
        }
    }
}

/// Its name.
impl fmt::Display for RequestStatus {
    ghost use Rattle.std.specs.Prelude.{Some};
    ghost use Rattle.siman_pdus.specs.FieldNames.{status_text};

    ghost output = { λ named. Some (status_text named) };

    fn fmt<W: fmt::Write>(&self, f: &mut fmt::Formatter<W>) -> fmt::Result {
        f.write_str(self.name())
    }
}
