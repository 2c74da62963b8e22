//! Faults of a file format that reading a field can cause.

/// A fault of reading a file of some format.
pub trait FileFault: Drop {
    ghost use Rattle.std.specs.Prelude.{◌≡◌, Option, Some, None};
    ghost use Rattle.byte_files.specs.Fields.{Names};

    /// Faults of the format itself.
    type Format;

    /// Names of the format for a field that is incomplete or past the limit.
    ghost names: { Names Self.Format };

    /// The fault of the format, if the format refused the file.
    ghost format_of: { Self → Option Self.Format };

    /// Fault of a field that is missing or incomplete; takes the length of the input, in bytes.
    fn truncated(length: u64) -> Self
        ensures { format_of result ≡ Some (names.truncated length) };

    /// Fault of a field that would end past the limit; takes its offset in bytes, from 0.
    fn over_limit(offset: u64) -> Self
        ensures { format_of result ≡ Some (names.over_limit offset) };

    /// Fault of a failed read.
    fn read_failed() -> Self
        ensures { format_of result ≡ None };
}
