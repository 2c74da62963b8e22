//! The views of a recording, and the words that select among their rows.

ghost use Rattle.std.specs.Prelude.{map};
ghost use Rattle.siman_outside.specs.AnswerText.{Answers};
ghost use Rattle.siman_outside.specs.Outside.{stream};
ghost use Rattle.siman_analysis_commands.specs.View.{Asks, IsAsked, IsProseAsked, SaysCounts};

use crate::filter_words::filter_of;
use crate::log::print_log;
use crate::review::{ReviewText, print_review};
use exercise_log::put_counts;
use exercise_model::ExerciseLog;
use exercise_review::Filter;
use siman_outside::{AnswerText, Fault, OfRecording, ViewWord};
use siman_print::Spelling;
use std::alloc::Global;
use std::convert::AsStr;
use std::io::Write;

/// A view of a recording, with the filters of its rows, and their spelling.
#[derive(Drop)]
pub struct View {
    pub view: ViewWord,
    pub filters: Vec<Filter>,
    pub spelling: Spelling,
}

impl View {
    /// The view whose filters `words` are, or `Filter` with the first word that is none. `Memory`:
    /// memory ran out.
    pub fn of<'a, S: AsStr>(
        alloc: Global,
        view: ViewWord,
        words: &'a [S],
        spelling: Spelling,
    ) -> Result<View, Fault<'a>>
        ensures { IsAsked view (map S.text words.now) spelling result }
    {
        let filters = filters_of(alloc, view, words)?;
        Ok(View {
            view,
            filters,
            spelling,
        })
    }
}

/// The sentences of a review, with the filters of its rows.
#[derive(Drop)]
pub struct Prose {
    pub filters: Vec<Filter>,
}

impl Prose {
    /// The sentences whose filters `words` are, or `Filter` with the first word that is none.
    /// `Memory`: memory ran out.
    pub fn of<'a, S: AsStr>(alloc: Global, words: &'a [S]) -> Result<Prose, Fault<'a>>
        ensures { IsProseAsked (map S.text words.now) result }
    {
        let filters = filters_of(alloc, ViewWord::Review, words)?;
        Ok(Prose { filters })
    }
}

/// The filters of a view that `words` are, or `Filter` with the first word that is none.
fn filters_of<'a, S: AsStr>(
    alloc: Global,
    view: ViewWord,
    words: &'a [S],
) -> Result<Vec<Filter>, Fault<'a>>
    ensures { Asks view (map S.text words.now) result }
{
    let mut filters = Vec::new(alloc);
    for word in words {
        let word = word.as_str();
        match filter_of(view, word.as_bytes()) {
            Some(filter) => filters.push(filter)?,
            None => return Err(Fault::Filter(word)),
        }
    }
    Ok(filters)
}

/// Prints how many of the entries that pass the filters each station sent, received and told, by
/// the kind of their PDU. Returns status 0, `Output` after a failed write, or `Memory`, before any
/// of the text is written.
fn print_counts<L: ExerciseLog, W: Write>(
    alloc: Global,
    log: &L,
    spelling: Spelling,
    filters: &[Filter],
    out: &mut W,
) -> Result<u8, Fault<'static>>
    ensures { Answers (SaysCounts spelling filters.now (L.recording log.now)) result (stream (W.contents out.old) (W.contents out.new)) }
{
    let mut text = String::new(alloc);
    put_counts(alloc, &mut text, spelling, log, filters)?;
    AnswerText { text, status: 0 }.put(out)
}

impl<'a> OfRecording<'a> for View {
    ghost use Rattle.siman_analysis_commands.specs.View.{PrintsView};

    type Answer = u8;

    ghost says = { λ v. PrintsView v.view v.spelling v.filters.items };

    fn say<L: ExerciseLog, W: Write>(
        self,
        alloc: Global,
        log: &L,
        out: &mut W,
    ) -> Result<u8, Fault<'a>> {
        match self.view {
            ViewWord::Review => {
                let form = ReviewText::Rows(self.spelling);
                print_review(alloc, log, form, &self.filters, out)
            }
            ViewWord::Log => print_log(alloc, log, self.spelling, &self.filters, out),
            ViewWord::Count => print_counts(alloc, log, self.spelling, &self.filters, out),
        }
    }
}

impl<'a> OfRecording<'a> for Prose {
    ghost use Rattle.siman_analysis_commands.specs.declared.review.ReviewText.TheVariants.{Sentences};
    ghost use Rattle.siman_analysis_commands.specs.Review.{PrintsReview};

    type Answer = u8;

    ghost says = { λ p. PrintsReview Sentences p.filters.items };

    fn say<L: ExerciseLog, W: Write>(
        self,
        alloc: Global,
        log: &L,
        out: &mut W,
    ) -> Result<u8, Fault<'a>> {
        print_review(alloc, log, ReviewText::Sentences, &self.filters, out)
    }
}
