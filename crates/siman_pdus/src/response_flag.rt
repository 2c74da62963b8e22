//! The response flag of an Acknowledge (SISO-REF-010).

ghost use Rattle.std.specs.Prelude.{◌≡◌, ◌≤◌, length};
ghost use Rattle.siman_pdus.specs.FieldNames.{response_of, response_text};

use std::fmt;

/// The response flag of an Acknowledge (SISO-REF-010).
#[derive(Clone, Copy, PartialEq, Eq)]
pub enum ResponseFlag {
    /// ResponseFlag flag 0.
    Other,
    /// ResponseFlag flag 1: able to comply.
    Able,
    /// ResponseFlag flag 2: unable to comply.
    Unable,
    /// ResponseFlag flag 3: pending operator action.
    Pending,
}

impl ResponseFlag {
    /// The response with a number, if it has a name.
    pub fn of(number: u16) -> Option<ResponseFlag>
        ensures { result ≡ response_of number }
    {
        let named = match number {
            0 => ResponseFlag::Other,
            1 => ResponseFlag::Able,
            2 => ResponseFlag::Unable,
            3 => ResponseFlag::Pending,
            _ => return None,
        };
        Some(named)
    }

    /// Its name, such as `able`.
    pub fn name(self) -> &'static str
        ensures name { result.now ≡ response_text self }
        ensures short { length result.now ≤ 20 }
    {
        match self {
            ResponseFlag::Other => "other",
            ResponseFlag::Able => "able",
            ResponseFlag::Unable => "unable",
            ResponseFlag::Pending => "pending",
        }
    }
}

/// Its name.
impl fmt::Display for ResponseFlag {
    ghost use Rattle.std.specs.Prelude.{Some};
    ghost use Rattle.siman_pdus.specs.FieldNames.{response_text};

    ghost output = { λ named. Some (response_text named) };

    fn fmt<W: fmt::Write>(&self, f: &mut fmt::Formatter<W>) -> fmt::Result {
        f.write_str(self.name())
    }
}
