//! The kind of a file, recognized by its first bytes.

ghost use Rattle.std.specs.Prelude.{◌≡◌};
ghost use Rattle.siman_outside.specs.FileKinds.{is_capture, is_script, file_kind_of};

/// The kind of a file, recognized by its first bytes.
#[derive(Clone, Copy, PartialEq, Eq)]
pub enum FileKind {
    /// It begins as a recording.
    Recording,
    /// It begins as a certificate.
    Certificate,
    /// It begins as a capture of tcpdump or Wireshark: pcap or pcapng.
    Capture,
    /// It begins as a script, with its exercise line or a comment.
    Script,
    /// It has no bytes.
    Empty,
    /// Something else, or unknown.
    Unknown,
}

/// Whether bytes begin as a capture: pcap, in either byte order, with microseconds or nanoseconds,
/// or pcapng.
fn is_capture(bytes: &[u8]) -> bool
    ensures { result ≡ is_capture bytes.now }
{
    bytes.starts_with(&[0xA1, 0xB2, 0xC3, 0xD4])
        || bytes.starts_with(&[0xD4, 0xC3, 0xB2, 0xA1])
        || bytes.starts_with(&[0xA1, 0xB2, 0x3C, 0x4D])
        || bytes.starts_with(&[0x4D, 0x3C, 0xB2, 0xA1])
        || bytes.starts_with(&[0x0A, 0x0D, 0x0D, 0x0A])
}

/// Whether bytes begin as a script: with its exercise line, or with a comment.
fn is_script(bytes: &[u8]) -> bool
    ensures { result ≡ is_script bytes.now }
{
    bytes.starts_with(b"exercise ") || bytes.starts_with(b"#")
}

/// The kind of a file that begins with these bytes.
pub fn file_kind_of(bytes: &[u8]) -> FileKind
    ensures { result ≡ file_kind_of bytes.now }
{
    if bytes.is_empty() {
        return FileKind::Empty;
    }
    if bytes.starts_with(b"DSRC") {
        return FileKind::Recording;
    }
    if bytes.starts_with(b"DSCT") {
        return FileKind::Certificate;
    }
    if is_capture(bytes) {
        return FileKind::Capture;
    }
    if is_script(bytes) {
        return FileKind::Script;
    }
    FileKind::Unknown
}
