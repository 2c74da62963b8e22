//! Headers of exported packets.

ghost use Rattle.std.specs.Prelude.{◌≡◌, ℕ, ◌+◌, ◌<◌, ◌^◌};
ghost use Rattle.exercise_recording.specs.Captures.Checksum.{carried, checksum_of};

use exercise_recording::headers_add_up;

/// Who adds up the words of an IPv4 header, its checksum among them, has all ones, as the standard
/// asks for; so nobody drops an exported packet for its checksum.
pub fn adds_up_to_all_ones()
    ensures { (sum : ℕ) → sum < 2 ^ 31 → carried (carried (sum + checksum_of sum)) ≡ 65535 }
{
    headers_add_up();
}
