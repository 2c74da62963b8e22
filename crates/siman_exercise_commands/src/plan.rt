//! The command `plan`: says what each line of a source does, and writes its plain script.

ghost use Rattle.std.specs.Prelude.{◌≡◌, ◌⊎◌, Option, Err, option_map};
ghost use Rattle.siman_outside.specs.declared.fault.Fault.TheVariants.{SourceLine, Memory};
ghost use Rattle.siman_outside.specs.declared.short_texts.ShortText.{ShortText};
ghost use Rattle.siman_outside.specs.Outside.{Did, Given, stream};
ghost use Rattle.siman_outside.specs.Saying.{SaysOfFile};
ghost use Rattle.siman_plans.specs.PlanText.{said_at};
ghost use Rattle.siman_exercise_commands.specs.Plan.{stop_fault, Tells, TellsStop, Plans, PlansNone, IsSourceWhy, TellsFile, PlansNamed};

use crate::refusal::move_refusal;
use byte_files::put;
use siman_outside::{
    Fault, Making, MovePlace, Notes, OfFile, Outside, Product, Settling, make_of_file, open_fault,
    put_settled, read_text, short_text,
};
use siman_plans::{PlanText, PlanTextFault, Refusal, SourceReason, placed_source_reason, say_plan};
use siman_print::Spelling;
use siman_scripts::LARGEST_SCRIPT;
use std::alloc::Global;
use std::io::{Read, Write};
use std::marker::Model;

/// The fault of a line of a source that is refused for this reason; `Memory` if memory runs out, or
/// if the reason has more than 255 bytes, which none has.
fn refused_for(alloc: Global, reason: SourceReason) -> Fault<'static>
    ensures { (result ≡ Memory) ⊎ ((why : Option ShortText) × IsSourceWhy reason why × (result ≡ SourceLine reason.line why)) }
{
    match short_text(alloc, placed_source_reason(reason)) {
        Some(why) => Fault::SourceLine(reason.line, Some(why)),
        None => Fault::Memory,
    }
}

/// The fault of a source that has no plan.
fn no_plan(alloc: Global, fault: PlanTextFault) -> Fault<'static>
    ensures { PlansNone (Err fault) result }
{
    match fault {
        PlanTextFault::Source(reason) => refused_for(alloc, reason),
        PlanTextFault::Stations => Fault::WorldStations,
        PlanTextFault::TooLong => Fault::PlanTooLong,
        PlanTextFault::Memory => Fault::Memory,
    }
}

/// What a plan says of a text.
fn plan_text(alloc: Global, spelling: Spelling, text: &[u8]) -> Result<PlanText, Fault<'static>>
    ensures { Plans (said_at spelling text.now) result }
{
    match say_plan(alloc, spelling, text) {
        Ok(said) => Ok(said),
        Err(fault) => Err(no_plan(alloc, fault)),
    }
}

/// Reads a source, and returns what a plan says of it.
fn read_plan<R: Read + Drop>(
    alloc: Global,
    spelling: Spelling,
    source: R,
) -> Result<PlanText, Fault<'static>>
    ensures { Given (R.remaining source) (λ text. Plans (said_at spelling text) result) }
{
    let mut source = source;
    let text = read_text(alloc, &mut source, LARGEST_SCRIPT)?;
    plan_text(alloc, spelling, &text)
}

/// The fault of a move that the world refuses, given the number of datagrams that were sent before
/// it.
fn stop_fault(refusal: Refusal, sends: usize) -> Fault<'static>
    ensures { result ≡ stop_fault refusal sends }
{
    let place = MovePlace {
        line: refusal.line,
        sends: Some(sends),
    };
    Fault::Move(refusal.number, move_refusal(refusal.fault), Some(place))
}

/// Writes the rows before a move that the world refuses, and returns its fault.
fn tell_stop<W: Write>(said: &PlanText, refusal: Refusal, out: &mut W) -> Fault<'static>
    ensures { TellsStop said.now refusal (Err result) (stream (W.contents out.old) (W.contents out.new)) }
{
    match put(out, said.rows.as_bytes()) {
        Ok(()) => stop_fault(refusal, said.sends),
        Err(_) => Fault::Output,
    }
}

/// Writes the rows of a plan.
fn tell_plan<W: Write>(said: &PlanText, out: &mut W) -> Result<u8, Fault<'static>>
    ensures { Tells said.now said.now.stop result (stream (W.contents out.old) (W.contents out.new)) }
{
    if let Some(refusal) = said.stop {
        return Err(tell_stop(said, refusal, out));
    }
    match put(out, said.rows.as_bytes()) {
        Ok(()) => Ok(0),
        Err(_) => Err(Fault::Output),
    }
}

/// Reads a source, and writes the rows of its plan.
fn tell_file<R: Read + Drop, W: Write>(
    alloc: Global,
    spelling: Spelling,
    source: R,
    out: &mut W,
) -> Result<u8, Fault<'static>>
    ensures { TellsFile spelling (R.remaining source) result (stream (W.contents out.old) (W.contents out.new)) }
{
    match read_plan(alloc, spelling, source) {
        Ok(said) => tell_plan(&said, out),
        Err(fault) => Err(fault),
    }
}

/// The plain script of a plan, to be written to a file, and its rows.
#[derive(Drop)]
struct PlanFile {
    said: PlanText,
}

impl Model for PlanFile {
    ghost use Rattle.siman_plans.specs.PlanText.{PlanTextData};

    ghost Value = { PlanTextData };

    ghost view = { λ file. file.said };
}

/// Writes the plain script, and then the rows.
impl Making for PlanFile {
    ghost use Rattle.siman_exercise_commands.specs.Plan.{PutsPlan};

    ghost puts = { PutsPlan };

    fn put<S: Settling<F>, F: Write, W: Write>(
        &self,
        alloc: Global,
        settling: &S,
        file: &mut F,
        out: &mut W,
    ) -> Result<u8, Fault<'static>> {
        if let Some(refusal) = self.said.stop {
            return Err(tell_stop(&self.said, refusal, out));
        }
        match put(file, &self.said.script) {
            Ok(()) => put_settled(settling, file, &self.said.rows, out),
            Err(_) => Err(Fault::Output),
        }
    }
}

/// The command `plan`, with its plain script in a file.
#[derive(Drop)]
struct PlanCommand {
    spelling: Spelling,
}

impl OfFile for PlanCommand {
    ghost use Rattle.siman_exercise_commands.specs.Plan.{PlansFile};

    type Made = PlanFile;

    ghost reads = { λ command. PlansFile command.spelling };

    fn read<R: Read + Drop>(
        self,
        alloc: Global,
        file: R,
        notes: &mut Notes,
    ) -> Result<Product<PlanFile>, Fault<'static>> {
        match read_plan(alloc, self.spelling, file) {
            Ok(said) => Ok(Product::File(PlanFile { said })),
            Err(fault) => Err(fault),
        }
    }
}

/// Opens the file of a source, and writes the rows of its plan.
fn tell_named<'a, O: Outside, W: Write>(
    alloc: Global,
    spelling: Spelling,
    source: &'a str,
    outside: &mut O,
    out: &mut W,
) -> Result<u8, Fault<'a>>
    ensures { Did O.deeds O.holds outside.old outside.new (λ deeds. SaysOfFile (TellsFile spelling) source.now deeds result (stream (W.contents out.old) (W.contents out.new))) }
{
    match outside.open(source) {
        Ok(opened) => {
            let file = outside.read(opened);
            tell_file(alloc, spelling, file, out)
        }
        Err(error) => Err(open_fault(source, &error)),
    }
}

/// Says what each line of the source in a file does, and writes its plain script to the file of the
/// second name, if there is one, where it replaces an existing one (`force`) or not. Returns the
/// status.
pub fn plan_named<'a, O: Outside, W: Write>(
    alloc: Global,
    names: (&'a str, Option<&'a str>),
    spelling: Spelling,
    force: bool,
    outside: &mut O,
    out: &mut W,
    notes: &mut Notes,
) -> Result<u8, Fault<'a>>
    ensures { Did O.deeds O.holds outside.old outside.new (λ deeds. PlansNamed names.entry.0.now (option_map (λ name. name.now) names.entry.1) spelling force deeds result (stream (W.contents out.old) (W.contents out.new))) }
{
    let (source, script) = names;
    match script {
        Some(script) => {
            let command = PlanCommand { spelling };
            let names = (source, script);
            make_of_file(alloc, command, names, force, outside, out, notes)
        }
        None => tell_named(alloc, spelling, source, outside, out),
    }
}
