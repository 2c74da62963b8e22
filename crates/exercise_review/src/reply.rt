//! The replies of a party to an order, and their receipts by its maker.

ghost use Rattle.std.specs.Prelude.{◌≡◌, true, is_some, IfSome};
ghost use Rattle.exercise_review.specs.Order.{order_of};
ghost use Rattle.exercise_review.specs.Party.{is_copy};
ghost use Rattle.exercise_review.specs.Register.{order_key};
ghost use Rattle.exercise_review.specs.Reply.{answers_order, takes_copy, is_reply, is_changing_reply, change_of_order, replies_in, has_reply_in, is_news};
ghost use Rattle.exercise_review.specs.Stamped.{IsSaid, says};

use crate::entries::{bytes_received, bytes_sent, meant, pdu_sent};
use crate::keys::order_key;
use crate::order::RecordedOrder;
use crate::question::Question;
use crate::register::Register;
use crate::resent::says_again;
use crate::walk::first_entry;
use crate::word::Word;
use exercise_model::ExerciseLog;
use siman_pdus::{answers, same_order};

/// A reply of a station to an order.
#[derive(Clone, Copy)]
pub(crate) struct Reply<'a> {
    /// Whether it settles the order.
    pub settles: bool,
    /// Its word.
    pub word: Option<Word>,
    /// Its bytes.
    pub bytes: &'a [u8],
    /// The entry of the copy that it takes up.
    pub copy: usize,
}

/// The test whether a station replies to an order at an entry: it sends an answer to the order that
/// takes up a copy of it.
#[derive(Drop)]
pub(crate) struct Replies<'a, L: ExerciseLog> {
    pub findings: &'a Register<'a, L>,
    pub order: &'a RecordedOrder<'a>,
    pub station: u16,
}

impl<L: ExerciseLog> Replies<'_, L> {
    /// Key under which the replies are indexed.
    pub(crate) fn key(&self) -> Option<u64>
        ensures { result ≡ order_key self.now.station (order_of self.now.order.now).request }
    {
        order_key(self.station, &self.order.request)
    }

    /// Whether an entry of the station sends an answer to the order.
    fn is_answer(&self, entry: usize) -> bool
        ensures { result ≡ answers_order self.now.findings.now (order_of self.now.order.now) self.now.station entry }
    {
        match pdu_sent(self.findings, self.station, entry) {
            Some(pdu) => answers(&pdu, &self.order.request),
            None => false,
        }
    }

    /// Whether bytes mean the order. Bytes equal to `said` except for the timestamp are not
    /// decoded.
    pub(crate) fn says(&self, bytes: &[u8], said: Option<&[u8]>) -> bool
        requires { IsSaid self.now.findings.now (order_of self.now.order.now).request said }
        ensures { result ≡ says self.now.findings.now (order_of self.now.order.now).request bytes.now }
    {
        if says_again(said, bytes) {
            return true;
        }
        match meant(self.findings, bytes) {
            Some(pdu) => same_order(&self.order.request, &pdu),
            None => false,
        }
    }

    /// Whether an entry is a copy of the order.
    #[tactic(auto, unfolding(crate::specs::Order::gets_order, crate::specs::Entries::pdu_received))]
    fn is_copy(&self, entry: usize, said: Option<&[u8]>) -> bool
        requires { IsSaid self.now.findings.now (order_of self.now.order.now).request said }
        ensures { result ≡ is_copy self.now.findings.now (order_of self.now.order.now) self.now.station entry }
    {
        match bytes_received(self.findings, self.station, entry) {
            Some(bytes) => self.says(bytes, said),
            None => false,
        }
    }

    /// Entry of the request that an entry takes up, if that is a copy of the order. The copy
    /// `known` is not read again.
    pub(crate) fn copy_taken(
        &self,
        entry: usize,
        said: Option<&[u8]>,
        known: Option<usize>,
    ) -> Option<usize>
        requires said { IsSaid self.now.findings.now (order_of self.now.order.now).request said }
        requires known { IfSome known (λ i. is_copy self.now.findings.now (order_of self.now.order.now) self.now.station i ≡ true) }
        ensures taken { is_some result ≡ takes_copy self.now.findings.now (order_of self.now.order.now) self.now.station entry }
        ensures copy { IfSome result (λ i. is_copy self.now.findings.now (order_of self.now.order.now) self.now.station i ≡ true) }
    {
        let taken = match self.findings.pair(entry) {
            Some(taken) => taken as usize,
            None => return None,
        };
        match known {
            Some(copy) if copy == taken => return Some(taken),
            _ => {}
        }
        if self.is_copy(taken, said) {
            Some(taken)
        } else {
            None
        }
    }
}

impl<L: ExerciseLog> Question for Replies<'_, L> {
    ghost test = { λ q. is_reply q.findings.now (order_of q.order.now) q.station };

    #[tactic(auto, unfolding(crate::specs::Reply::is_reply))]
    fn passes(&self, entry: usize) -> bool {
        self.is_answer(entry) && self.copy_taken(entry, None, None).is_some()
    }
}

/// The test whether a station replies to an order at an entry and makes a change there.
#[derive(Drop)]
struct ChangingReplies<'a, L: ExerciseLog> {
    replies: &'a Replies<'a, L>,
}

impl<L: ExerciseLog> Question for ChangingReplies<'_, L> {
    ghost test = { λ q. is_changing_reply q.replies.now.findings.now (order_of q.replies.now.order.now) q.replies.now.station };

    #[tactic(auto, unfolding(crate::specs::Reply::is_changing_reply))]
    fn passes(&self, entry: usize) -> bool {
        self.replies.passes(entry) && self.replies.findings.change(entry).is_some()
    }
}

/// Entry of the change that an order made at a station: the first reply that makes a change there.
/// Allocates no memory.
#[tactic(auto, unfolding(crate::specs::Reply::change_of_order), using(crate::proofs::Under::under_steps))]
pub fn change_of_order<L: ExerciseLog>(
    findings: &Register<'_, L>,
    order: &RecordedOrder<'_>,
    station: u16,
) -> Option<usize>
    ensures { result ≡ change_of_order findings.now (order_of order.now) station }
{
    let replies = Replies {
        findings,
        order,
        station,
    };
    let key = order_key(station, &order.request);
    first_entry(findings, key, &ChangingReplies { replies: &replies })
}

/// The test whether a station replies to an order at an entry with these bytes.
#[derive(Drop)]
struct RepliesIn<'a, L: ExerciseLog> {
    replies: &'a Replies<'a, L>,
    bytes: &'a [u8],
}

impl<L: ExerciseLog> Question for RepliesIn<'_, L> {
    ghost test = { λ q. replies_in q.replies.now.findings.now (order_of q.replies.now.order.now) q.replies.now.station q.bytes.now };

    #[tactic(auto, unfolding(crate::specs::Reply::replies_in))]
    fn passes(&self, entry: usize) -> bool {
        if !self.replies.passes(entry) {
            return false;
        }
        match bytes_sent(self.replies.findings, self.replies.station, entry) {
            Some(sent) => self.bytes == sent,
            None => false,
        }
    }
}

/// The test whether the maker of an order receives, at an entry, the bytes of a reply of a station.
#[derive(Drop)]
pub(crate) struct News<'a, L: ExerciseLog> {
    pub replies: &'a Replies<'a, L>,
}

impl<L: ExerciseLog> News<'_, L> {
    /// Whether a reply of the station has these bytes.
    #[tactic(auto, unfolding(crate::specs::Reply::has_reply_in), using(crate::proofs::Under::under_steps))]
    fn has_reply_in(&self, bytes: &[u8]) -> bool
        ensures { result ≡ has_reply_in self.now.replies.now.findings.now (order_of self.now.replies.now.order.now) self.now.replies.now.station bytes.now }
    {
        let replies = RepliesIn {
            replies: self.replies,
            bytes,
        };
        first_entry(self.replies.findings, self.replies.key(), &replies).is_some()
    }
}

impl<L: ExerciseLog> Question for News<'_, L> {
    ghost test = { λ q. is_news q.replies.now.findings.now (order_of q.replies.now.order.now) q.replies.now.station };

    #[tactic(auto, unfolding(crate::specs::Reply::is_news))]
    fn passes(&self, entry: usize) -> bool {
        let Some(maker) = self.replies.order.maker else {
            return false;
        };
        match bytes_received(self.replies.findings, maker, entry) {
            Some(bytes) => self.has_reply_in(bytes),
            None => false,
        }
    }
}
