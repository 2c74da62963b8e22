//! The limits that pieces of a recording can pass together.

ghost use Rattle.std.specs.Prelude.{◌≡◌};
ghost use Rattle.siman_outside.specs.Ending.{limit_name};

/// A limit that pieces of a recording pass together.
#[derive(Clone, Copy)]
pub enum JoinLimit {
    /// 256 stations.
    Stations,
    /// 1,048,576 entries.
    Records,
    /// The size in bytes of the largest recording that is read.
    Size,
}

impl JoinLimit {
    /// Name of the limit, as the fault has it.
    pub fn name(self) -> &'static str
        ensures { result.now ≡ limit_name self }
    {
        match self {
            JoinLimit::Stations => "stations",
            JoinLimit::Records => "records",
            JoinLimit::Size => "size",
        }
    }
}
