//! Links in the format of a certificate.

ghost use Rattle.std.specs.Prelude.{◌≡◌};
ghost use Rattle.exercise_check.specs.Number.{link_number};

use crate::certificate::NO_LINK;

/// Link as a certificate has it: the number of the entry, or [`NO_LINK`].
pub(crate) fn link_number(link: Option<u32>) -> u32
    ensures { result ≡ link_number link }
{
    match link {
        Some(entry) => entry,
        None => NO_LINK,
    }
}
