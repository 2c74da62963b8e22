//! Versions of a PDU, and the status in its header.

ghost use Rattle.std.specs.Prelude.{◌≡◌};
ghost use Rattle.dis_records.specs.Header.{has_status};

use dis_records::{Version, versions_are_known};

/// Whether the headers of a version have a PDU status: they do from version 7 on.
pub fn has_status(version: Version) -> bool
    ensures { result ≡ has_status version }
{
    versions_are_known();
    version.code() >= 7
}
