//! A station of siman that took a datagram.

ghost use Rattle.std.specs.Prelude.{List, [], ℕ, ◌<◌, ◌^◌, ◌∷◌, ◌≡◌};
ghost use Rattle.exercise_model.specs.History.{Get};
ghost use Rattle.siman_application.specs.OwnLog.{IsRead};
ghost use Rattle.siman_application.specs.OwnLog.{sent_after};
ghost use Rattle.siman_application.specs.Play.{reply_after};
ghost use Rattle.siman_application.specs.Ranges.{IsProfileInRange};
ghost use Rattle.siman_pdus.specs.declared.pdu.Pdu.{Pdu};
ghost use Rattle.siman_stations.specs.Deeds.{DeedsHaveNoCause};

use siman_stations::{Node, deeds_have_no_cause, halves_follow_logs};

/// A newly begun station that took one request at once can't be blamed for its answer: its log
/// gives no cause against what it sends.
pub fn answers_rightly(node: &Node)
    ensures { let a = node.now.application.outfit in let k = node.now.manager in (s : ℕ) (b : List ℕ) (q : Pdu) (stamp : ℕ)
        → k.orders ≡ [] → IsProfileInRange a → k.settings.address ≡ a.station.address → IsRead b q → stamp < 2 ^ 32
        → DeedsHaveNoCause a.exercise a.station (sent_after s (reply_after a [] q stamp) (Get s b ∷ [])) }
{
    halves_follow_logs();
    deeds_have_no_cause();
}
