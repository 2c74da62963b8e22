//! The lines of a source so far.

ghost use Rattle.std.specs.Prelude.{◌≡◌, ◌^◌, ◌<◌, map, OnOk, IfOk};
ghost use Rattle.std.specs.Option.{option_map};
ghost use Rattle.siman_scripts.specs.Reason.{end_reason};
ghost use Rattle.siman_plans.specs.Source.{nothing_read, with_line, acts_after, delivers_after, at_after, setup_refusal, setup_after, does_after, statement_after, deliver_after, lose_after, order_after, words_after, source_of};
ghost use Rattle.siman_plans.specs.SourceFault.{Leaves};
ghost use Rattle.siman_plans.specs.SourceForms.{seen};

use crate::plain::put_setup;
use crate::source::{Source, SourceLine, SourceMove, Which};
use crate::source_fault::{LineFault, SourceWhy};
use crate::source_form::{
    column_at, end_of, label_of, may_be_labelled, order_in, statement_in, station_in, without_label,
};
use crate::source_label::Labels;
use crate::source_which::{known_at, may_move, no_more, place_in, which_in};
use dis_records::Address;
use siman_scripts::{Act, Draft, LineReason, PlacedWord, ScriptLineFault, Statement, Why};
use std::alloc::{AllocError, Global};
use std::marker::Model;

/// The lines of a source so far. Contracts see its lists.
#[derive(Drop)]
pub(crate) struct Reading<'t> {
    draft: Draft,
    setup: Vec<u8>,
    lines: Vec<SourceLine>,
    labels: Labels<'t>,
}

impl<'t> Model for Reading<'t> {
    ghost use Rattle.siman_plans.specs.Source.{ReadingData};

    ghost Value = { ReadingData };

    ghost view = { λ r. record { draft = r.draft; setup = r.setup.items; lines = r.lines.items; labels = r.labels } };
}

/// The refusal of a line of the exercise or a station: the column, and why.
fn setup_refusal(words: &[PlacedWord<'_>], reason: Option<(usize, Why)>) -> (usize, SourceWhy)
    ensures { result ≡ setup_refusal (map seen words.now) reason }
{
    match reason {
        Some((place, why)) => (column_at(words, place), SourceWhy::Script(why)),
        None => (column_at(words, 0), SourceWhy::Script(Why::BeforeExercise)),
    }
}

impl<'t> Reading<'t> {
    /// Before the first line.
    pub fn begin(alloc: Global) -> Reading<'t>
        ensures { result ≡ nothing_read }
    {
        Reading {
            draft: Draft::begin(alloc),
            setup: Vec::new(alloc),
            lines: Vec::new(alloc),
            labels: Labels::none(alloc),
        }
    }

    /// Adds a line behind those of the exercise and its stations.
    fn with_line(&mut self, line: usize, column: usize, does: SourceMove) -> Result<(), AllocError>
        ensures { OnOk result (self.new ≡ with_line self.old line column does) }
    {
        self.draft.begin_moves();
        self.lines.push(SourceLine { line, column, does })?;
        Ok(())
    }

    /// An act of the station that the second word names.
    fn acts(
        &mut self,
        line: usize,
        words: &[PlacedWord<'_>],
        address: Address,
        act: Act,
        label: Option<PlacedWord<'t>>,
    ) -> Result<(), LineFault>
        ensures { Leaves result self.new (acts_after self.old line (map seen words.now) address act (option_map seen label.entry)) }
    {
        may_move(&self.draft, column_at(words, 0))?;
        let station = known_at(&self.draft, column_at(words, 1), address)?;
        let is_labelled = label.is_some();
        self.labels.take(label)?;
        let does = SourceMove::Acts {
            station,
            act,
            is_labelled,
        };
        self.with_line(line, 1, does)?;
        Ok(())
    }

    /// `deliver K S:A`.
    fn delivers(
        &mut self,
        line: usize,
        words: &[PlacedWord<'_>],
        address: Address,
        datagram: u32,
    ) -> Result<(), LineFault>
        ensures { Leaves result self.new (delivers_after self.old line (map seen words.now) address datagram) }
    {
        may_move(&self.draft, column_at(words, 0))?;
        let station = known_at(&self.draft, column_at(words, 2), address)?;
        let does = SourceMove::Brings {
            which: Which::Number(datagram),
            to: Some(station),
        };
        self.with_line(line, column_at(words, 1), does)?;
        Ok(())
    }

    /// `at N`.
    fn at(&mut self, line: usize, words: &[PlacedWord<'_>], now: u64) -> Result<(), LineFault>
        ensures { Leaves result self.new (at_after self.old line (map seen words.now) now) }
    {
        may_move(&self.draft, column_at(words, 0))?;
        self.with_line(line, 1, SourceMove::At(now))?;
        Ok(())
    }

    /// A line of the exercise or a station.
    fn sets_up(
        &mut self,
        alloc: Global,
        words: &[PlacedWord<'_>],
        statement: Statement,
    ) -> Result<(), LineFault>
        ensures { Leaves result self.new (setup_after self.old (map seen words.now) statement) }
    {
        let (column, why) = setup_refusal(words, self.draft.reason(&statement));
        put_setup(&mut self.setup, &statement)?;
        match self.draft.take(alloc, statement) {
            Ok(()) => Ok(()),
            Err(ScriptLineFault::Bad | ScriptLineFault::Unknown) => {
                Err(LineFault::Refused(column, why))
            }
            Err(ScriptLineFault::Memory) => Err(LineFault::Memory),
        }
    }

    fn does(
        &mut self,
        line: usize,
        words: &[PlacedWord<'_>],
        address: Address,
        act: Act,
        label: Option<PlacedWord<'t>>,
    ) -> Result<(), LineFault>
        ensures { Leaves result self.new (does_after self.old line (map seen words.now) address act (option_map seen label.entry)) }
    {
        match act {
            Act::Deliver(datagram) => self.delivers(line, words, address, datagram),
            act => self.acts(line, words, address, act, label),
        }
    }

    /// Takes a statement of a script in these words.
    pub fn take_statement(
        &mut self,
        alloc: Global,
        line: usize,
        words: &[PlacedWord<'_>],
        statement: Statement,
        label: Option<PlacedWord<'t>>,
    ) -> Result<(), LineFault>
        ensures { Leaves result self.new (statement_after self.old line (map seen words.now) statement (option_map seen label.entry)) }
    {
        match statement {
            Statement::Nothing => Ok(()),
            Statement::At(now) => self.at(line, words, now),
            Statement::Does { address, act } => self.does(line, words, address, act, label),
            statement => self.sets_up(alloc, words, statement),
        }
    }

    /// `deliver WHAT S:A` and `deliver WHAT again`, by the column of the first word and the others.
    fn deliver(
        &mut self,
        line: usize,
        end: usize,
        name: PlacedWord<'_>,
        words: &[PlacedWord<'_>],
    ) -> Result<(), LineFault>
        ensures { Leaves result self.new (deliver_after self.old line end (seen name.entry) (map seen words.now)) }
    {
        may_move(&self.draft, name.column)?;
        let which = which_in(&self.labels, end, words)?;
        let to = place_in(&self.draft, end, words)?;
        no_more(2, words)?;
        self.with_line(line, column_at(words, 0), SourceMove::Brings { which, to })?;
        Ok(())
    }

    /// `lose WHAT`, by the first word and the others.
    fn lose(
        &mut self,
        line: usize,
        end: usize,
        name: PlacedWord<'_>,
        words: &[PlacedWord<'_>],
    ) -> Result<(), LineFault>
        ensures { Leaves result self.new (lose_after self.old line end (seen name.entry) (map seen words.now)) }
    {
        may_move(&self.draft, name.column)?;
        let which = which_in(&self.labels, end, words)?;
        no_more(1, words)?;
        self.with_line(line, column_at(words, 0), SourceMove::Loses(which))?;
        Ok(())
    }

    /// A line that may have a label.
    fn order(
        &mut self,
        alloc: Global,
        line: usize,
        end: usize,
        words: &[PlacedWord<'t>],
    ) -> Result<(), LineFault>
        ensures { Leaves result self.new (order_after self.old line end (map seen words.now)) }
    {
        let statement = order_in(alloc, end_of(end, words), without_label(words))?;
        self.take_statement(alloc, line, words, statement, label_of(words))
    }

    /// Takes the words of a line; the line ends before this column.
    pub fn take_words(
        &mut self,
        alloc: Global,
        line: usize,
        end: usize,
        words: &[PlacedWord<'t>],
    ) -> Result<(), LineFault>
        ensures { Leaves result self.new (words_after self.old line end (map seen words.now)) }
    {
        let [name, others @ ..] = words else {
            return Ok(());
        };
        if name.word == b"deliver".as_slice() {
            return self.deliver(line, end, *name, others);
        }
        if name.word == b"lose".as_slice() {
            return self.lose(line, end, *name, others);
        }
        if may_be_labelled(name.word) {
            return self.order(alloc, line, end, words);
        }
        let statement = if name.word == b"station".as_slice() {
            station_in(alloc, end, words)?
        } else {
            statement_in(alloc, end, words)?
        };
        self.take_statement(alloc, line, words, statement, None)
    }

    /// Reason of a text of `count` lines that ends too early.
    pub fn end_reason(&self, count: usize) -> Option<LineReason>
        requires { count < 2 ^ 63 }
        ensures { result ≡ end_reason self.now.draft count }
    {
        self.draft.end_reason(count)
    }

    /// The source of these lines.
    pub fn finish(self, alloc: Global) -> Result<Source<'t>, AllocError>
        ensures { IfOk result (λ source. source ≡ source_of self.entry) }
    {
        let Reading {
            draft,
            setup,
            lines,
            labels,
        } = self;
        let labels = labels.listed(alloc)?;
        let script = draft.finish(alloc)?;
        Ok(Source {
            exercise: script.exercise,
            stations: script.stations,
            setup,
            lines,
            labels,
        })
    }
}
