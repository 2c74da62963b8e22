//! The command `chart`: draws an exercise as a picture, in the sequence of a certificate, or in the
//! sequence that `audit` finds.

ghost use Rattle.std.specs.Prelude.{◌≡◌, ◌∷◌, [], map};
ghost use Rattle.siman_outside.specs.Opening.{MakesOfFile, MakesOfFiles};
ghost use Rattle.siman_outside.specs.Outside.{Did, Reads, Adds, stream};
ghost use Rattle.siman_analysis_commands.specs.Chart.{MakesPicture, is_alone, ChartsFile, ChartsFiles, ChartsOpened, ChartsNamed};

use crate::chart_words::{Window, window_of};
use crate::drawn::{picture_alone, picture_of_certificate};
use crate::picture::PictureTexts;
use exercise_check::Certificate;
use exercise_model::ExerciseLog;
use siman_outside::{
    Fault, Notes, OfCertificate, OfRecording, Outside, Reading, if_free, make_file, open_input,
    open_inputs, say_of_certificate, say_of_recording,
};
use std::alloc::Global;
use std::io::Write;

/// The command `chart`, with its words, the steps and the clock that they select, and how the
/// recording is read.
#[derive(Drop)]
pub(crate) struct ChartCommand<'a> {
    pub words: &'a [&'a str],
    pub window: Window,
    /// How the recording is read.
    pub reading: Reading,
}

/// Opens the files of a recording and of its certificate, the first two names, and makes the
/// picture under the third of what the words `asked.0` choose; `-` for the second name stands for
/// no certificate. The recording is read as `asked.1` says. Returns the status. `Filter` for a word
/// that chooses nothing, before any file is opened, or one that names a station that the recording
/// does not have; `Step` for one that names a step past the last.
pub fn chart_named<'a, O: Outside, W: Write>(
    alloc: Global,
    names: (&'a str, &'a str, &'a str),
    force: bool,
    asked: (&'a [&'a str], Reading),
    outside: &mut O,
    out: &mut W,
    notes: &mut Notes,
) -> Result<u8, Fault<'a>>
    ensures { Did O.deeds O.holds outside.old outside.new (λ deeds. ChartsNamed asked.entry.1 names.entry.0.now names.entry.1.now names.entry.2.now (map (λ word. word.now) asked.entry.0.now) force deeds result (stream (W.contents out.old) (W.contents out.new))) }
{
    let (words, reading) = asked;
    match window_of(words) {
        Ok(window) => {
            let command = ChartCommand {
                words,
                window,
                reading,
            };
            chart_of(alloc, names, force, command, outside, out, notes)
        }
        Err(word) => Err(Fault::Filter(word)),
    }
}

/// Opens the recording, and the certificate, if there is one, and makes the picture.
fn chart_of<'a, O: Outside, W: Write>(
    alloc: Global,
    names: (&'a str, &'a str, &'a str),
    force: bool,
    command: ChartCommand<'a>,
    outside: &mut O,
    out: &mut W,
    notes: &mut Notes,
) -> Result<u8, Fault<'a>>
    ensures { Did O.deeds O.holds outside.old outside.new (λ deeds. ChartsOpened command.entry.reading (is_alone names.entry.1.now) names.entry.0.now names.entry.1.now names.entry.2.now (map (λ word. word.now) command.entry.words.now) command.entry.window force deeds result (stream (W.contents out.old) (W.contents out.new))) }
{
    let (recording, certificate, picture) = names;
    if certificate.as_bytes() == b"-".as_slice() {
        chart_of_file(
            alloc,
            (recording, picture),
            force,
            command,
            outside,
            out,
            notes,
        )
    } else {
        chart_of_files(alloc, names, force, command, outside, out, notes)
    }
}

/// Opens both files, and makes the picture.
fn chart_of_files<'a, O: Outside, W: Write>(
    alloc: Global,
    names: (&'a str, &'a str, &'a str),
    force: bool,
    command: ChartCommand<'a>,
    outside: &mut O,
    out: &mut W,
    notes: &mut Notes,
) -> Result<u8, Fault<'a>>
    ensures { Did O.deeds O.holds outside.old outside.new (λ deeds. MakesOfFiles (ChartsFiles command.entry.reading (map (λ word. word.now) command.entry.words.now) command.entry.window) MakesPicture force names.entry.0.now names.entry.1.now names.entry.2.now deeds result (stream (W.contents out.old) (W.contents out.new))) }
{
    let (recording, certificate, picture) = names;
    let opened = open_inputs((recording, certificate), picture, outside);
    let opened = if_free(opened, picture, force, outside)?;
    let charted = chart_opened(alloc, opened, command, outside, notes)?;
    make_file(alloc, &charted, picture, force, outside, out)
}

/// Reads the opened recording and certificate, and draws the picture.
fn chart_opened<'a, O: Outside>(
    alloc: Global,
    opened: (O::Opened, O::Opened),
    command: ChartCommand<'a>,
    outside: &mut O,
    notes: &mut Notes,
) -> Result<PictureTexts, Fault<'a>>
    ensures done { Adds (O.deeds outside.old) (O.deeds outside.new) (Reads (O.bytes opened.0) ∷ Reads (O.bytes opened.1) ∷ []) }
    ensures comes { ChartsFiles command.entry.reading (map (λ word. word.now) command.entry.words.now) command.entry.window (O.bytes opened.0) (O.bytes opened.1) result }
{
    let (recording, certificate) = opened;
    let recording = outside.read(recording);
    let certificate = outside.read(certificate);
    let mut nothing: Vec<u8> = Vec::new(alloc);
    let reading = command.reading;
    say_of_certificate(
        alloc,
        command,
        reading,
        recording,
        certificate,
        &mut nothing,
        notes,
    )
}

/// Opens the recording alone, and makes the picture.
fn chart_of_file<'a, O: Outside, W: Write>(
    alloc: Global,
    names: (&'a str, &'a str),
    force: bool,
    command: ChartCommand<'a>,
    outside: &mut O,
    out: &mut W,
    notes: &mut Notes,
) -> Result<u8, Fault<'a>>
    ensures { Did O.deeds O.holds outside.old outside.new (λ deeds. MakesOfFile (ChartsFile command.entry.reading (map (λ word. word.now) command.entry.words.now) command.entry.window) MakesPicture force names.entry.0.now names.entry.1.now deeds result (stream (W.contents out.old) (W.contents out.new))) }
{
    let opened = open_input(names, outside);
    let opened = if_free(opened, names.1, force, outside)?;
    let charted = chart_alone(alloc, opened, command, outside, notes)?;
    make_file(alloc, &charted, names.1, force, outside, out)
}

/// Reads the opened recording, and draws the picture.
fn chart_alone<'a, O: Outside>(
    alloc: Global,
    opened: O::Opened,
    command: ChartCommand<'a>,
    outside: &mut O,
    notes: &mut Notes,
) -> Result<PictureTexts, Fault<'a>>
    ensures done { Adds (O.deeds outside.old) (O.deeds outside.new) (Reads (O.bytes opened) ∷ []) }
    ensures comes { ChartsFile command.entry.reading (map (λ word. word.now) command.entry.words.now) command.entry.window (O.bytes opened) result }
{
    let recording = outside.read(opened);
    let mut nothing: Vec<u8> = Vec::new(alloc);
    let reading = command.reading;
    say_of_recording(alloc, command, reading, recording, &mut nothing, notes)
}

impl<'a> OfCertificate<'a> for ChartCommand<'a> {
    ghost use Rattle.std.specs.Prelude.{map};
    ghost use Rattle.siman_analysis_commands.specs.Chart.{Charts};

    type Answer = PictureTexts;

    ghost says = { λ command r steps charted _. Charts (map (λ word. word.now) command.words.now) command.window r steps charted };

    fn say<L: ExerciseLog, W: Write>(
        self,
        alloc: Global,
        log: &L,
        certificate: Certificate,
        _out: &mut W,
    ) -> Result<PictureTexts, Fault<'a>> {
        picture_of_certificate(alloc, log, &certificate, &self)
    }
}

impl<'a> OfRecording<'a> for ChartCommand<'a> {
    ghost use Rattle.std.specs.Prelude.{map};
    ghost use Rattle.siman_analysis_commands.specs.Chart.{ChartsAlone};

    type Answer = PictureTexts;

    ghost says = { λ command r charted _. ChartsAlone (map (λ word. word.now) command.words.now) command.window r charted };

    fn say<L: ExerciseLog, W: Write>(
        self,
        alloc: Global,
        log: &L,
        _out: &mut W,
    ) -> Result<PictureTexts, Fault<'a>> {
        picture_alone(alloc, log, &self)
    }
}
