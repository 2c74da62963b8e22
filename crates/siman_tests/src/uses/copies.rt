//! Copies of datagrams that a network makes.

ghost use Rattle.std.specs.Prelude.{List, false, is_none, ℕ, ◌&&◌, ◌++◌, ◌∷◌, ◌≡◌};
ghost use Rattle.siman_application.specs.Distinct.{distinct, first_under, is_for};
ghost use Rattle.siman_application.specs.Play.{reply_after};
ghost use Rattle.siman_pdus.specs.declared.pdu.Pdu.{Pdu};

use siman_application::{Application, requests_are_told_once};

/// An application answers as if each request had arrived once: a request with a known key, or for
/// another station, changes no later answer, wherever it arrived (`copy`); and the distinct
/// requests alone would have had these answers (`once`).
pub fn change_no_answer(application: &Application)
    ensures copy { let a = application.now.outfit in (q p : Pdu) (newer older : List Pdu) (stamp : ℕ)
        → (is_for a q && is_none (first_under q (distinct a older))) ≡ false
        → reply_after a (distinct a (newer ++ q ∷ older)) p stamp ≡ reply_after a (distinct a (newer ++ older)) p stamp }
    ensures once { let a = application.now.outfit in (qs : List Pdu) (p : Pdu) (stamp : ℕ)
        → reply_after a (distinct a (distinct a qs)) p stamp ≡ reply_after a (distinct a qs) p stamp }
{
    requests_are_told_once();
}
