//! The wider forms of lines, in the words of scripts.

ghost use Rattle.std.specs.Prelude.{◌≡◌, ◌∷◌, ◌++◌, map, find, IfOk};
ghost use Rattle.std.specs.Option.{option_map};
ghost use Rattle.siman_plans.specs.SourceFault.{Gives, Refuses};
ghost use Rattle.siman_plans.specs.SourceForms.{seen, texts, column_at, before_all, plain_receiver, is_order, with_receiver, gives_rule, rule_in, twice, rule_refusal, rules_refusal, may_be_labelled, has_label, without_label, label_of, end_of, form_refusal, statement_in, station_in};

use crate::source_fault::{LineFault, SourceWhy};
use siman_scripts::{LineWhy, PlacedWord, Statement, Why, form_of, form_reason, value_of};
use std::alloc::{AllocError, Global};

/// Words without their columns.
fn texts<'a>(alloc: Global, words: &[PlacedWord<'a>]) -> Result<Vec<&'a [u8]>, AllocError>
    ensures { IfOk result (λ all. map (λ w. w.now) all.items ≡ texts (map seen words.now)) }
{
    let mut all = Vec::new(alloc);
    for placed in words {
        all.push(placed.word)?;
    }
    Ok(all)
}

/// Column of a word, which is counted from 0; 1 if there is none.
pub(crate) fn column_at(words: &[PlacedWord<'_>], place: usize) -> usize
    ensures { result ≡ column_at (map seen words.now) place }
{
    match words.get(place) {
        Some(placed) => placed.column,
        None => 1,
    }
}

/// The bytes before `:all`, if a word ends so.
fn before_all(word: &[u8]) -> Option<&[u8]>
    ensures { option_map (λ w. w.now) result ≡ before_all word.now }
{
    let (station, end) = word.split_at(word.len().saturating_sub(4));
    if end == b":all".as_slice() {
        Some(station)
    } else {
        None
    }
}

/// A receiver as scripts write it: `all` is 65535:65535:65535, and `S:A:all` is S:A:65535.
fn plain_receiver(alloc: Global, word: &[u8]) -> Result<Vec<u8>, AllocError>
    ensures { IfOk result (λ receiver. receiver.items ≡ plain_receiver word.now) }
{
    let mut receiver = Vec::new(alloc);
    if word == b"all".as_slice() {
        receiver.extend_from_slice(b"65535:65535:65535")?;
        return Ok(receiver);
    }
    match before_all(word) {
        Some(station) => {
            receiver.extend_from_slice(station)?;
            receiver.extend_from_slice(b":65535")?;
        }
        None => receiver.extend_from_slice(word)?,
    }
    Ok(receiver)
}

/// Whether this is the name of an order.
fn is_order(name: &[u8]) -> bool
    ensures { result ≡ is_order name.now }
{
    name == b"do".as_slice()
        || name == b"query".as_slice()
        || name == b"set".as_slice()
        || name == b"create".as_slice()
        || name == b"remove".as_slice()
        || name == b"start".as_slice()
        || name == b"stop".as_slice()
}

/// The words of an order, by its first three and the others.
fn order_words<'a>(
    alloc: Global,
    first: [PlacedWord<'a>; 3],
    others: &[PlacedWord<'a>],
) -> Result<Vec<PlacedWord<'a>>, AllocError>
    ensures { IfOk result (λ words. map seen words.items ≡ map seen first.entry ++ map seen others.now) }
{
    let mut words = Vec::new(alloc);
    words.extend_from_slice(&first)?;
    words.extend_from_slice(others)?;
    Ok(words)
}

/// What the words of a line say that is no line of a station, or why they say nothing.
pub(crate) fn order_in(
    alloc: Global,
    end: usize,
    words: &[PlacedWord<'_>],
) -> Result<Statement, LineFault>
    ensures { Gives (λ s. s) result (statement_in end (with_receiver (map seen words.now))) }
{
    let [name, station, to, others @ ..] = words else {
        return statement_in(alloc, end, words);
    };
    if !is_order(name.word) {
        return statement_in(alloc, end, words);
    }
    let receiver = plain_receiver(alloc, to.word)?;
    let to = PlacedWord {
        column: to.column,
        word: receiver.as_slice(),
    };
    let plain = order_words(alloc, [*name, *station, to], others)?;
    statement_in(alloc, end, plain.as_slice())
}

/// Whether a word gives the rule of this name.
fn gives_rule(name: &[u8], placed: PlacedWord<'_>) -> bool
    ensures { result ≡ gives_rule name.now (seen placed.entry) }
{
    value_of(name, placed.word).is_some()
}

/// The first word that gives the rule of this name.
fn rule_named<'a>(name: &[u8], words: &[PlacedWord<'a>]) -> Option<PlacedWord<'a>>
    ensures { option_map seen result ≡ find (gives_rule name.now) (map seen words.now) }
{
    for placed in words {
        if gives_rule(name, *placed) {
            return Some(*placed);
        }
    }
    None
}

/// The word that gives the rule of this name, or else this one.
fn rule_in<'a>(name: &[u8], word: &'a [u8], words: &[PlacedWord<'a>]) -> PlacedWord<'a>
    ensures { seen result ≡ rule_in name.now word.now (map seen words.now) }
{
    match rule_named(name, words) {
        Some(placed) => placed,
        None => PlacedWord { column: 1, word },
    }
}

/// A second word that gives the same rule.
fn twice(name: &[u8], words: &[PlacedWord<'_>]) -> Option<(usize, SourceWhy)>
    ensures { result ≡ twice name.now (map seen words.now) }
{
    match rule_named(name, words) {
        Some(placed) => Some((placed.column, SourceWhy::RuleTwice)),
        None => None,
    }
}

/// Why a word gives no rule, or which of the words behind it gives the same rule.
fn rule_refusal(placed: PlacedWord<'_>, behind: &[PlacedWord<'_>]) -> Option<(usize, SourceWhy)>
    ensures { result ≡ rule_refusal (seen placed.entry) (map seen behind.now) }
{
    if gives_rule(b"first", placed) {
        return twice(b"first", behind);
    }
    if gives_rule(b"tries", placed) {
        return twice(b"tries", behind);
    }
    if gives_rule(b"wait", placed) {
        return twice(b"wait", behind);
    }
    Some((placed.column, SourceWhy::RuleExpected))
}

/// Why words are no rules, each at most once.
fn rules_refusal(words: &[PlacedWord<'_>]) -> Option<(usize, SourceWhy)>
    ensures { result ≡ rules_refusal (map seen words.now) }
{
    let mut rest = words;
    while let [placed, behind @ ..] = rest {
        let refusal = rule_refusal(*placed, behind);
        if refusal.is_some() {
            return refusal;
        }
        rest = behind;
    }
    None
}

/// What the words of a station's line say, or why they say nothing.
pub(crate) fn station_in(
    alloc: Global,
    end: usize,
    words: &[PlacedWord<'_>],
) -> Result<Statement, LineFault>
    ensures { Gives (λ s. s) result (station_in end (map seen words.now)) }
{
    let [name, station, rules @ ..] = words else {
        return statement_in(alloc, end, words);
    };
    if let Some((column, why)) = rules_refusal(rules) {
        return Err(LineFault::Refused(column, why));
    }
    let plain = [
        *name,
        *station,
        rule_in(b"first", b"first=1", rules),
        rule_in(b"tries", b"tries=3", rules),
        rule_in(b"wait", b"wait=10", rules),
    ];
    statement_in(alloc, end, &plain)
}

/// Whether the lines of this name may have a label.
pub(crate) fn may_be_labelled(name: &[u8]) -> bool
    ensures { result ≡ may_be_labelled name.now }
{
    name == b"tick".as_slice() || is_order(name)
}

/// Whether the last word but one is `as`.
fn has_label(words: &[PlacedWord<'_>]) -> bool
    ensures { result ≡ has_label (map seen words.now) }
{
    words.len() >= 2 && words[words.len() - 2].word == b"as".as_slice()
}

/// The words without `as LABEL`, if these are the last two.
pub(crate) fn without_label<'w, 'a>(words: &'w [PlacedWord<'a>]) -> &'w [PlacedWord<'a>]
    ensures { map seen result.now ≡ without_label (map seen words.now) }
{
    if has_label(words) {
        &words[..words.len() - 2]
    } else {
        words
    }
}

/// The word behind `as`.
pub(crate) fn label_of<'a>(words: &[PlacedWord<'a>]) -> Option<PlacedWord<'a>>
    ensures { option_map seen result ≡ label_of (map seen words.now) }
{
    if has_label(words) {
        words.last().copied()
    } else {
        None
    }
}

/// The column in which the words without a label end.
pub(crate) fn end_of(end: usize, words: &[PlacedWord<'_>]) -> usize
    ensures { result ≡ end_of end (map seen words.now) }
{
    if has_label(words) {
        column_at(words, words.len() - 2)
    } else {
        end
    }
}

/// The refusal of words that have no form of scripts.
fn form_refusal(reason: Option<(usize, LineWhy)>) -> (usize, SourceWhy)
    ensures { result ≡ form_refusal reason }
{
    match reason {
        Some((column, why)) => (column, SourceWhy::Script(Why::Line(why))),
        None => (1, SourceWhy::Script(Why::Line(LineWhy::UnknownName(None)))),
    }
}

/// What words say in a form of scripts, or why they have none; the line ends before this column.
pub(crate) fn statement_in(
    alloc: Global,
    end: usize,
    words: &[PlacedWord<'_>],
) -> Result<Statement, LineFault>
    ensures { Gives (λ s. s) result (statement_in end (map seen words.now)) }
{
    let all = texts(alloc, words)?;
    if let Some(statement) = form_of(alloc, all.as_slice())? {
        return Ok(statement);
    }
    let (column, why) = form_refusal(form_reason(alloc, end, words)?);
    Err(LineFault::Refused(column, why))
}
