//! The program, from the words of its command line to its exit status.

ghost use Rattle.std.specs.Prelude.{string_bytes, map};
ghost use Rattle.std.specs.IoError.{error_kind};
ghost use Rattle.siman_outside.specs.Outside.{Did, outcome_of, stream};
ghost use Rattle.siman_analysis_commands.specs.View.{ViewsNamed, ProseNamed};
ghost use Rattle.siman_console.specs.Program.{DoesOne, EndsTwo, EndsTask, EndsExplained, EndsWords, EndsProgram, words_by};
ghost use Rattle.siman_outside.specs.Words.{asked_by};
ghost use Rattle.siman_lines.specs.AtLines.{Telling};

use crate::usage::end_usage;
use siman_analysis_commands::{Prose, View, chart_named};
use siman_exercise_commands::{
    Links, WorldCommand, end_live, end_station, import_named, plan_named, try_input,
};
use siman_file_commands::{
    AuditCommand, CheckCommand, ConvertCommand, ExportCommand, MendCommand, ShowCommand, end_lines,
    join_pieces, show_word, why_named,
};
use siman_lines::Input;
use siman_outside::{
    Ended, Ending, Fault, NoWord, Notes, OneWord, Outside, Reading, Task, TwoWords, ViewWord,
    asks_help, conclude, explained, make_of_file, named_by, nothing_named, of_error, read_words,
    say_of_file, say_of_files, usage_text,
};
use siman_print::Spelling;
use std::alloc::{AllocError, Global};
use std::io;
use std::io::Write;

/// Runs a command with one word, and returns its status. Of the warnings about a recording only that
/// it is torn is noted.
fn do_one<'a, O: Outside, W: Write>(
    alloc: Global,
    command: OneWord,
    word: &'a str,
    reading: Reading,
    outside: &mut O,
    out: &mut W,
    notes: &mut Notes,
) -> Result<u8, Fault<'a>>
    ensures { Did O.deeds O.holds outside.old outside.new (λ deeds. DoesOne command word.now reading deeds result (stream (W.contents out.old) (W.contents out.new))) }
{
    match command {
        OneWord::Pdu => show_word(alloc, word, out),
        OneWord::Show => {
            let mut noted = Notes::nothing();
            let shown = say_of_file(alloc, ShowCommand, reading, word, outside, out, &mut noted);
            notes.note_further(noted.further);
            shown
        }
    }
}

/// Runs a command with two words, and ends it; the flag says whether an existing file with the
/// second name is replaced, and the last of `words` how the first is read.
fn end_two<'a, O: Links, W: Write, E: Write>(
    alloc: Global,
    command: TwoWords,
    words: (&'a str, &'a str, bool, Reading),
    outside: &mut O,
    out: &mut W,
    errors: &mut E,
    notes: &mut Notes,
) -> Ending<'a>
    ensures { let told : Telling O.Line = record { received = O.Line.received; sent = O.Line.sent; failures = O.Line.failures; passed = O.Line.passed } in
        Did O.deeds O.holds outside.old outside.new (λ deeds. EndsTwo told command words.entry.0.now words.entry.1.now words.entry.2 words.entry.3 deeds (outcome_of result (stream (W.contents out.old) (W.contents out.new)) (stream (E.contents errors.old) (E.contents errors.new)))) }
{
    let (first, second, force, reading) = words;
    let names = (first, second);
    match command {
        TwoWords::Check => conclude(
            say_of_files(alloc, CheckCommand, reading, names, outside, out, notes),
            errors,
        ),
        TwoWords::Audit => conclude(
            make_of_file(
                alloc,
                AuditCommand { reading },
                names,
                force,
                outside,
                out,
                notes,
            ),
            errors,
        ),
        TwoWords::World => conclude(
            make_of_file(alloc, WorldCommand, names, force, outside, out, notes),
            errors,
        ),
        TwoWords::Live => end_live(alloc, names, outside, out, errors),
        TwoWords::Convert => conclude(
            make_of_file(alloc, ConvertCommand, names, force, outside, out, notes),
            errors,
        ),
        TwoWords::Mend => conclude(
            make_of_file(alloc, MendCommand, names, force, outside, out, notes),
            errors,
        ),
        TwoWords::Export => conclude(
            make_of_file(
                alloc,
                ExportCommand { reading },
                names,
                force,
                outside,
                out,
                notes,
            ),
            errors,
        ),
    }
}

/// Runs a view of a recording in a spelling, `words.0` being its file and `words.1` its filters, and
/// returns the status.
fn do_view<'a, O: Outside, W: Write>(
    alloc: Global,
    view: (ViewWord, Spelling),
    words: (&'a str, &'a [&'a str]),
    reading: Reading,
    outside: &mut O,
    out: &mut W,
    notes: &mut Notes,
) -> Result<u8, Fault<'a>>
    ensures { Did O.deeds O.holds outside.old outside.new (λ deeds. ViewsNamed view.0 view.1 reading words.entry.0.now (map (λ word. word.now) words.entry.1.now) deeds result (stream (W.contents out.old) (W.contents out.new))) }
{
    let (recording, words) = words;
    let (view, spelling) = view;
    match View::of(alloc, view, words, spelling) {
        Ok(asked) => say_of_file(alloc, asked, reading, recording, outside, out, notes),
        Err(fault) => Err(fault),
    }
}

/// Tells a review of a recording in sentences, `words.0` being its file and `words.1` its filters,
/// and returns the status.
fn do_prose<'a, O: Outside, W: Write>(
    alloc: Global,
    words: (&'a str, &'a [&'a str]),
    reading: Reading,
    outside: &mut O,
    out: &mut W,
    notes: &mut Notes,
) -> Result<u8, Fault<'a>>
    ensures { Did O.deeds O.holds outside.old outside.new (λ deeds. ProseNamed reading words.entry.0.now (map (λ word. word.now) words.entry.1.now) deeds result (stream (W.contents out.old) (W.contents out.new))) }
{
    let (recording, words) = words;
    match Prose::of(alloc, words) {
        Ok(asked) => say_of_file(alloc, asked, reading, recording, outside, out, notes),
        Err(fault) => Err(fault),
    }
}

/// Runs a task, and ends it.
fn end_task<'a, O: Links, R: Input<O::Line> + Drop, W: Write, E: Write>(
    alloc: Global,
    task: Task<'a, &'a str>,
    outside: &mut O,
    input: R,
    out: &mut W,
    errors: &mut E,
    notes: &mut Notes,
) -> Ending<'a>
    ensures { let told : Telling O.Line = record { received = O.Line.received; sent = O.Line.sent; failures = O.Line.failures; passed = O.Line.passed } in
        Did O.deeds O.holds outside.old outside.new (λ deeds. EndsTask told (asked_by (λ word. word.now) task.entry) deeds (R.remaining input) (outcome_of result (stream (W.contents out.old) (W.contents out.new)) (stream (E.contents errors.old) (E.contents errors.new)))) }
{
    match task {
        Task::Trial => conclude(try_input(alloc, input, out), errors),
        Task::Bare(NoWord::Pdus) => end_lines(alloc, input, out, errors),
        Task::One(command, word, reading) => {
            let done = do_one(alloc, command, word, reading, outside, out, notes);
            conclude(done, errors)
        }
        Task::Two(command, first, second, force, reading) => {
            let words = (first, second, force, reading);
            end_two(alloc, command, words, outside, out, errors, notes)
        }
        Task::Join(pieces, new, choices, force) => {
            let joined = join_pieces(alloc, pieces, new, force, choices, outside, out);
            conclude(joined, errors)
        }
        Task::Import(words, force) => {
            let imported = import_named(alloc, words, force, outside, out, notes);
            conclude(imported, errors)
        }
        Task::Station(words) => end_station(alloc, words, outside, input, out, errors),
        Task::View(view, recording, words, spelling, reading) => {
            let words = (recording, words);
            let done = do_view(alloc, (view, spelling), words, reading, outside, out, notes);
            conclude(done, errors)
        }
        Task::Prose(recording, words, reading) => {
            let done = do_prose(alloc, (recording, words), reading, outside, out, notes);
            conclude(done, errors)
        }
        Task::Why(recording, certificate, spelling, reading) => {
            let names = (recording, certificate);
            let done = why_named(alloc, names, spelling, reading, outside, out, notes);
            conclude(done, errors)
        }
        Task::Plan(source, script, spelling, force) => {
            let names = (source, script);
            let done = plan_named(alloc, names, spelling, force, outside, out, notes);
            conclude(done, errors)
        }
        Task::Chart(recording, certificate, picture, steps, force, reading) => {
            let names = (recording, certificate, picture);
            let charted = chart_named(alloc, names, force, (steps, reading), outside, out, notes);
            conclude(charted, errors)
        }
    }
}

/// Reads the words of a command line, runs their task or writes the help or the fault of usage, and
/// writes the reason of a fault behind its first line.
fn end_words<O: Links, R: Input<O::Line> + Drop, W: Write, E: Write, S: Write>(
    alloc: Global,
    words: &[String],
    outside: &mut O,
    input: R,
    out: &mut W,
    errors: &mut E,
    reasons: &mut S,
) -> Ended
    ensures { let told : Telling O.Line = record { received = O.Line.received; sent = O.Line.sent; failures = O.Line.failures; passed = O.Line.passed } in
        Did O.deeds O.holds outside.old outside.new (λ deeds. EndsExplained (EndsWords told (map string_bytes words.now) deeds (R.remaining input)) result (stream (W.contents out.old) (W.contents out.new)) (stream (E.contents errors.old) (E.contents errors.new)) (stream (S.contents reasons.old) (S.contents reasons.new))) }
{
    let line = match read_words(alloc, words) {
        Ok(line) => line,
        Err(AllocError) => {
            let ending = conclude(Err(Fault::Memory), errors);
            return explained(ending, nothing_named(), outside.known(), reasons);
        }
    };
    match line.task() {
        Some(task) => {
            let named = named_by(&task);
            let mut notes = Notes::nothing();
            let ending = end_task(alloc, task, outside, input, out, errors, &mut notes);
            explained(ending.and_notes(notes), named, outside.known(), reasons)
        }
        None => {
            let text = usage_text(alloc, words);
            let ending = end_usage(asks_help(words), text, out, errors);
            explained(ending, nothing_named(), outside.known(), reasons)
        }
    }
}

/// Runs the program on the words of its command line, the program's name first. Returns the exit
/// status, and whether all output to `errors` was written. The files to be read are opened in the
/// order of the words before any of them is read; the file that a command writes is made once there
/// is something to write. Answers and help are written to `out`, the first lines of faults to
/// `errors`, and the reason of the fault that ended the command to `reasons`, behind its first
/// line: a line that begins with two blanks. `reasons` also gets warnings.
pub fn run<O: Links, R: Input<O::Line> + Drop, W: Write, E: Write, S: Write>(
    alloc: Global,
    words: io::Result<Vec<String>>,
    outside: &mut O,
    input: R,
    out: &mut W,
    errors: &mut E,
    reasons: &mut S,
) -> Ended
    ensures { let told : Telling O.Line = record { received = O.Line.received; sent = O.Line.sent; failures = O.Line.failures; passed = O.Line.passed } in
        Did O.deeds O.holds outside.old outside.new (λ deeds. EndsExplained (EndsProgram told (words_by error_kind words) deeds (R.remaining input)) result (stream (W.contents out.old) (W.contents out.new)) (stream (E.contents errors.old) (E.contents errors.new)) (stream (S.contents reasons.old) (S.contents reasons.new))) }
{
    match words {
        Ok(words) => end_words(alloc, &words, outside, input, out, errors, reasons),
        Err(error) => {
            let ending = conclude(Err(of_error(&error, Fault::Words)), errors);
            explained(ending, nothing_named(), outside.known(), reasons)
        }
    }
}
