//! Texts of what the manager of a station sends.

ghost use Rattle.std.specs.Prelude.{◌≡◌, ◌≤◌, ◌<◌, length, true, is_some, IfOk, IfErr, IfSome, OnOk, None, Err, IsTrue};
ghost use Rattle.dis_records.specs.declared.header.TheConstants.{LARGEST_DATAGRAM};
ghost use Rattle.siman_pdus.specs.Role.{is_request_body};
ghost use Rattle.siman_pdus.specs.Spelling.{pdu_size, pdu_text};
ghost use Rattle.siman_manager.specs.Answers.{refusal_of};
ghost use Rattle.siman_manager.specs.Book.{next_id};
ghost use Rattle.siman_stations.specs.Sending.{IsOrderInRange, next_order, after_order, next_repeat, after_tick, FailsOrder};

use crate::moment::Moment;
use crate::turn::Node;
use siman_manager::{Order, OrderFault};
use siman_pdus::{EncodeFault, encode, numbers_are_in_range};

/// Why the text of a new order could not be made.
#[derive(Clone, Copy, Debug, PartialEq, Eq)]
pub enum OrderTextFault {
    /// The manager refused the order, and is unchanged.
    Order(OrderFault),
    /// Memory ran out; the manager has the order, and counts it as sent.
    Memory,
}

/// Makes an order, and writes its text into `text`. Returns its request identifier.
pub fn order_text(
    node: &mut Node,
    moment: Moment,
    order: Order,
    text: &mut Vec<u8>,
) -> Result<u32, OrderTextFault>
    requires { IsTrue (is_request_body order.body) }
    ensures node { OnOk result (node.new ≡ after_order node.old moment order) }
    ensures id { IfOk result (λ id. id ≡ next_id node.old.manager.settings (length node.old.manager.orders)) }
    ensures text { OnOk result (text.new.items ≡ pdu_text (next_order node.old.manager moment.stamp order)) }
    ensures size { OnOk result (length text.new.items ≤ LARGEST_DATAGRAM) }
    ensures made { OnOk result (refusal_of node.old.manager order moment.stamp ≡ None) }
    ensures in_range { OnOk result (IsOrderInRange order) }
    ensures fault { IfErr result (FailsOrder moment order node.old node.new) }
{
    text.clear();
    match node.manager.request(order, moment.now, moment.stamp) {
        Ok((id, pdu)) => {
            numbers_are_in_range(pdu);
            match encode(pdu, text) {
                Ok(()) => Ok(id),
                Err(EncodeFault::Memory) => Err(OrderTextFault::Memory),
                Err(EncodeFault::TooLong) => unreachable!(),
            }
        }
        Err(fault) => Err(OrderTextFault::Order(fault)),
    }
}

/// Looks for a repeat that is due, and writes its text into `text`. Returns whether one is due.
pub fn repeat_text(node: &mut Node, moment: Moment, text: &mut Vec<u8>) -> Result<bool, EncodeFault>
    ensures node { node.new ≡ after_tick node.old moment }
    ensures due { IfOk result (λ due. due ≡ is_some (next_repeat node.old.manager moment)) }
    ensures text { OnOk result (IfSome (next_repeat node.old.manager moment) (λ p. text.new.items ≡ pdu_text p)) }
    ensures size { IfOk result (λ due. due ≡ true → length text.new.items ≤ LARGEST_DATAGRAM) }
    ensures some { IfErr result (λ fault. is_some (next_repeat node.old.manager moment) ≡ true) }
    ensures too_long { result ≡ Err EncodeFault.TooLong → IfSome (next_repeat node.old.manager moment) (λ p. LARGEST_DATAGRAM < pdu_size p) }
{
    text.clear();
    match node.manager.tick(moment.now, moment.stamp) {
        Some(pdu) => {
            encode(pdu, text)?;
            Ok(true)
        }
        None => Ok(false),
    }
}
