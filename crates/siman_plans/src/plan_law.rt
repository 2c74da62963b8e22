//! Laws of plans.

ghost use Rattle.siman_plans.specs.PlanLaw.{LinesAreRecorded};

/// A law of plans: the recording of the moves has what the lines say. A sent datagram is the Sent
/// entry of its number, from 0, and of the station of its line; a told state is in an entry; and each
/// datagram was sent by one line, in the order of the lines. The call does nothing at run time.
pub fn recordings_have_what_lines_did(text: &[u8])
    ensures { LinesAreRecorded text.now }
{}
