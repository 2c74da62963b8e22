//! Notes on the lines of a plan.

ghost use Rattle.std.specs.Prelude.{◌≡◌, OnOk};
ghost use Rattle.siman_plans.specs.Sent.{delivered};
ghost use Rattle.siman_plans.specs.Notes.{no_notes, sent_by, answer_to, last_place, named, place_of, sent_before, label_of, with_sent_data, after_at, after_deed, after_loss};

use crate::deed::{Deed, PlannedLine, SentDatagram};
use crate::plain::put_at;
use crate::plan_fault::Unnamed;
use crate::source::Which;
use std::alloc::{AllocError, Global};
use std::marker::Model;

/// Notes on the lines so far. Contracts see its lists.
#[derive(Drop)]
pub(crate) struct Notes {
    /// The number of moves.
    made: usize,
    /// The time of the clocks.
    clock: u64,
    /// Of each label the datagram that its line sent, if any.
    labels: Vec<Option<u32>>,
    sent: Vec<SentDatagram>,
    planned: Vec<PlannedLine>,
    /// The plain lines.
    script: Vec<u8>,
}

impl Model for Notes {
    ghost use Rattle.std.specs.Prelude.{◌≤◌, length};
    ghost use Rattle.siman_plans.specs.Notes.{NotesData};

    ghost Value = { NotesData };

    ghost view = { λ n. record { made = n.made; clock = n.clock; labels = n.labels.items; sent = n.sent.items; planned = n.planned.items; script = n.script.items } };

    ghost invariant = { λ n. n.made ≤ length n.planned.items };
}

impl Notes {
    /// No notes, before the first line.
    pub fn begin(alloc: Global) -> Notes
        ensures { result ≡ no_notes }
    {
        Notes {
            made: 0,
            clock: 0,
            labels: Vec::new(alloc),
            sent: Vec::new(alloc),
            planned: Vec::new(alloc),
            script: Vec::new(alloc),
        }
    }

    /// The number of moves.
    pub fn made(&self) -> usize
        ensures { result ≡ self.now.made }
    {
        self.made
    }

    /// The time of the clocks.
    pub fn clock(&self) -> u64
        ensures { result ≡ self.now.clock }
    {
        self.clock
    }

    /// The datagram that the line with this label sent.
    fn sent_by(&self, label: usize) -> Result<u32, Unnamed>
        ensures { result ≡ sent_by self.now label }
    {
        match self.labels.get(label) {
            Some(Some(sends)) => Ok(*sends),
            _ => Err(Unnamed::LabelSendsNothing),
        }
    }

    /// The last answer that a delivery of a datagram got.
    fn answer_to(&self, number: u32) -> Result<u32, Unnamed>
        ensures { result ≡ answer_to self.now number }
    {
        match self.sent.get(number as usize) {
            Some(datagram) => datagram.answer.ok_or(Unnamed::NoAnswer),
            None => Err(Unnamed::NoAnswer),
        }
    }

    /// The station to which a datagram was brought last.
    fn last_place(&self, number: u32) -> Result<u16, Unnamed>
        ensures { result ≡ last_place self.now number }
    {
        match self.sent.get(number as usize) {
            Some(datagram) => datagram.last.ok_or(Unnamed::NeverBrought),
            None => Err(Unnamed::NeverBrought),
        }
    }

    /// The datagram that a word names, or why it names none.
    pub fn named(&self, which: Which) -> Result<u32, Unnamed>
        ensures { result ≡ named self.now which }
    {
        match which {
            Which::Number(number) => Ok(number),
            Which::Labelled(label) => self.sent_by(label),
            Which::Answer(label) => match self.sent_by(label) {
                Ok(number) => self.answer_to(number),
                Err(why) => Err(why),
            },
        }
    }

    /// The station that a line names, or that to which the datagram was brought last.
    pub fn place_of(&self, number: u32, station: Option<u16>) -> Result<u16, Unnamed>
        ensures { result ≡ place_of self.now number station }
    {
        match station {
            Some(station) => Ok(station),
            None => self.last_place(number),
        }
    }

    /// The number of a datagram that was sent so far.
    pub fn sent_before(&self, number: u32) -> Result<u32, Unnamed>
        ensures { result ≡ sent_before self.now number }
    {
        if (number as usize) < self.sent.len() {
            Ok(number)
        } else {
            Err(Unnamed::NotSent)
        }
    }

    /// The label that a line has.
    pub fn label_of(&self, is_labelled: bool) -> Option<usize>
        ensures { result ≡ label_of is_labelled self.now }
    {
        if is_labelled {
            Some(self.labels.len())
        } else {
            None
        }
    }

    /// Notes a line that sets the clocks.
    pub fn set_clock(&mut self, line: usize, now: u64) -> Result<(), AllocError>
        ensures { OnOk result (self.new ≡ after_at line now self.old) }
    {
        let did = Deed::Set {
            is_back: now < self.clock,
        };
        self.planned.push(PlannedLine { line, did })?;
        put_at(&mut self.script, now)?;
        self.clock = now;
        Ok(())
    }

    /// Notes a delivery, if this is one.
    fn deliver(&mut self, did: Deed) -> Result<(), AllocError>
        ensures { OnOk result (self.new ≡ with_sent_data (delivered did self.old.sent) self.old) }
    {
        if let Deed::Brought {
            station,
            brings,
            answers,
        } = did
        {
            let number = brings as usize;
            if number < self.sent.len() {
                self.sent[number].bring(station, answers)?;
            }
        }
        Ok(())
    }

    /// Notes a line whose move was made.
    pub fn note(
        &mut self,
        alloc: Global,
        line: usize,
        is_labelled: bool,
        sends: Option<u32>,
        did: Deed,
        text: &[u8],
    ) -> Result<(), AllocError>
        ensures { OnOk result (self.new ≡ after_deed line is_labelled sends did text.now self.old) }
    {
        self.deliver(did)?;
        if is_labelled {
            self.labels.push(sends)?;
        }
        if sends.is_some() {
            self.sent
                .push(SentDatagram::new(alloc, line, did.is_order()))?;
        }
        self.script.extend_from_slice(text)?;
        self.planned.push(PlannedLine { line, did })?;
        self.made += 1;
        Ok(())
    }

    /// Notes a line which means that a datagram reaches nobody.
    pub fn lose(&mut self, line: usize, number: u32) -> Result<(), AllocError>
        ensures { OnOk result (self.new ≡ after_loss line number self.old) }
    {
        let did = Deed::Lost { datagram: number };
        self.planned.push(PlannedLine { line, did })?;
        let number = number as usize;
        if number < self.sent.len() {
            self.sent[number].mean();
        }
        Ok(())
    }

    /// What each line did, what became of each datagram, and the plain lines.
    pub fn into_lists(self) -> (Vec<PlannedLine>, Vec<SentDatagram>, Vec<u8>)
        ensures planned { result.0.items ≡ self.planned }
        ensures sent { result.1.items ≡ self.sent }
        ensures script { result.2.items ≡ self.script }
    {
        let Notes {
            planned,
            sent,
            script,
            ..
        } = self;
        (planned, sent, script)
    }
}
