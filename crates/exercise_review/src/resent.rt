//! Datagrams that are sent again with another timestamp.

ghost use Rattle.std.specs.Prelude.{◌≡◌, true};
ghost use Rattle.siman_pdus.specs.declared.pdu.Pdu.{Pdu};
ghost use Rattle.exercise_model.specs.Recording.{PlainRecording};
ghost use Rattle.exercise_review.specs.Stamped.{IsResent, IsSaid, says};

/// Length in bytes of a header up to and including its timestamp, which is the last four of them.
const STAMPED: usize = 8;

/// Whether two datagrams are known to be equal except for the timestamp in the header.
#[tactic(auto, using(crate::proofs::Stamped::resent))]
pub(crate) fn is_resent(bytes: &[u8], other: &[u8]) -> bool
    ensures { result ≡ true → IsResent other.now bytes.now }
{
    if bytes.len() < STAMPED || other.len() != bytes.len() {
        return false;
    }
    if bytes[0] != other[0] || bytes[1] != other[1] {
        return false;
    }
    if bytes[2] != other[2] || bytes[3] != other[3] {
        return false;
    }
    bytes[STAMPED..] == other[STAMPED..]
}

/// Whether bytes are known to mean an order, since they equal bytes that mean it except for the
/// timestamp.
#[tactic(auto, using(crate::proofs::Stamped::asks_again))]
pub(crate) fn says_again(said: Option<&[u8]>, bytes: &[u8]) -> bool
    ensures { result ≡ true → (r : PlainRecording) (p : Pdu) → IsSaid r p said.entry → says r p bytes.now ≡ true }
{
    match said {
        Some(said) => is_resent(bytes, said),
        None => false,
    }
}
