//! What the rows of a plan are made of: stations, sent datagrams and labels.

ghost use Rattle.std.specs.Prelude.{◌≡◌, slice_get, option_map};
ghost use Rattle.siman_pdus.specs.Reading.{pdu_of};
ghost use Rattle.siman_plans.specs.MoveLines.{pdu_at};

use dis_records::Address;
use siman_pdus::{PduView, view};
use std::marker::Model;

/// The addresses of the stations, by their indices; the sent datagrams, by their numbers; and the
/// labels, in the order of their lines. Contracts see their lists.
#[derive(Drop)]
pub(crate) struct Background<'d, 'l> {
    pub stations: Vec<Address>,
    pub sends: Vec<&'d [u8]>,
    pub labels: Vec<&'l [u8]>,
}

impl<'d, 'l> Model for Background<'d, 'l> {
    ghost use Rattle.std.specs.Prelude.{map};
    ghost use Rattle.siman_plans.specs.MoveLines.{Background};

    ghost Value = { Background };

    ghost view = { λ b. record { stations = b.stations.items; sends = map (λ d. d.now) b.sends.items; labels = map (λ l. l.now) b.labels.items } };
}

impl<'d, 'l> Background<'d, 'l> {
    /// The PDU of a sent datagram.
    pub fn pdu_at(&self, number: usize) -> Option<PduView<'d>>
        ensures { option_map pdu_of result ≡ pdu_at self.now number }
    {
        view(self.sends.as_slice().get(number)?).ok()
    }
}
