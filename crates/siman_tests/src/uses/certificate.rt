//! The content of certificates.

ghost use Rattle.std.specs.Prelude.{Err, List, Ok, length, ℕ, ◌≡◌, ◌≤◌};
ghost use Rattle.exercise_check.specs.Certificate.{IsRefused, certificate_at};
ghost use Rattle.exercise_check.specs.declared.certificate.Step.{Step};
ghost use Rattle.exercise_check.specs.declared.certificate_fault.CertificateFormatFault.{CertificateFormatFault};

use byte_files::are_bytes;
use exercise_check::{refusals_hold, text_and_reading_agree};

/// The content of a certificate does not depend on its reader: what is read within one limit is
/// read within every other that has room for its steps, if there are fewer than 2^32 of them
/// (`same`), and a file that is refused has the fault that is named (`refused`).
pub fn says_one_order(bytes: &[u8])
    ensures same { (limit other : ℕ) (steps : List Step) → certificate_at limit bytes.now ≡ Ok steps → length steps ≤ other → length steps ≤ 4294967295
        → certificate_at other bytes.now ≡ Ok steps }
    ensures refused { (limit : ℕ) (fault : CertificateFormatFault) → certificate_at limit bytes.now ≡ Err fault → IsRefused limit bytes.now fault }
{
    are_bytes(bytes);
    text_and_reading_agree();
    refusals_hold();
}
