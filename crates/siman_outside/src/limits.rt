//! Limits of the files that commands read.

/// Size in bytes of the largest recording that is read.
pub const LARGEST_RECORDING: u64 = 268_435_456;

/// Size in bytes of the largest recording of which what stands whole is kept. What is kept is at most
/// five bytes longer, so it can be read.
pub const LARGEST_TORN_RECORDING: u64 = 268_435_451;

/// The most steps of a certificate that is read.
pub const LARGEST_CERTIFICATE: u32 = 1_048_576;
