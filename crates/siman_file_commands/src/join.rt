//! The command `join`: puts pieces of a recording together.

ghost use Rattle.std.specs.Prelude.{◌≡◌, Option, IfOk, map, string_bytes};
ghost use Rattle.siman_outside.specs.Opening.{seen_as};
ghost use Rattle.siman_outside.specs.Outside.{Did, DidMake, stream};
ghost use Rattle.siman_file_commands.specs.Join.{word_of, start_of, all_seen, seen_by, form_word, joined_text, IsJoinFault, OpensPieces, TakesPiece, ReadsPieces, Gives, ReadsAndGives, JoinsPieces};

use crate::openings::judge_openings;
use exercise_model::Form;
use exercise_recording::{FormWord, JoinFault, Joined, Joining, Joint};
use siman_outside::{
    Fault, JoinChoices, JoinForm, JoinLimit, LARGEST_RECORDING, Making, Outside, Settling, if_free,
    make_file, open_input, put_settled,
};
use siman_print::{Field, Value, named_line};
use std::alloc::{AllocError, Global};
use std::convert::AsStr;
use std::io::{Read, Write};

/// An opened piece.
#[derive(Drop)]
pub(crate) struct OpenPiece<'a, F> {
    /// Name of the piece, as it was given.
    pub name: &'a str,
    pub file: F,
}

/// The joined pieces, to be written, and the line of the answer.
#[derive(Drop)]
pub(crate) struct JoinedFile {
    pub joint: Joint,
    pub line: String,
}

/// The form that the words ask for, if they do.
fn word_of(form: Option<JoinForm>) -> FormWord
    ensures { result ≡ word_of form }
{
    match form {
        None => FormWord::Unsaid,
        Some(JoinForm::Open) => FormWord::Open,
        Some(JoinForm::Closed) => FormWord::Closed,
    }
}

/// The fault for pieces that are not joined; the fault of a single piece has its name.
fn result_of(fault: JoinFault, name: &str) -> Fault<'_>
    ensures { IsJoinFault fault name.now result }
{
    match fault {
        JoinFault::Recording(fault) => Fault::Piece(fault, name),
        JoinFault::Exercise => Fault::OtherExercise(name),
        JoinFault::Station(address) => {
            Fault::StationTwice(address.site(), address.application(), name)
        }
        JoinFault::Time(address) => {
            Fault::BackInTime(address.site(), address.application(), name)
        }
        JoinFault::Stations => Fault::Joined(JoinLimit::Stations),
        JoinFault::Records => Fault::Joined(JoinLimit::Records),
        JoinFault::Size => Fault::Joined(JoinLimit::Size),
        JoinFault::Write => Fault::Output,
        JoinFault::Memory => Fault::Memory,
    }
}

/// Name of a form of the second format.
fn form_word(form: Form) -> &'static str
    ensures { result.now ≡ form_word form }
{
    match form {
        Form::Open => "open",
        Form::First | Form::Closed => "closed",
    }
}

/// The line of the answer: numbers of pieces, stations and records, and the form.
fn joined_line(alloc: Global, told: Joined) -> Result<String, AllocError>
    ensures { IfOk result (λ line. string_bytes line ≡ joined_text told) }
{
    let fields = [
        Field::Keyed("pieces", Value::Number(told.pieces as u64)),
        Field::Keyed("stations", Value::Number(u64::from(told.stations))),
        Field::Keyed("records", Value::Number(u64::from(told.entries))),
        Field::Keyed("form", Value::Word(form_word(told.form))),
    ];
    named_line(alloc, "joined", &fields)
}

/// Opens pieces in the order of their names. `SameAs` if one is the file to be made.
fn open_pieces<'a, S: AsStr, O: Outside>(
    alloc: Global,
    names: &'a [S],
    new: &'a str,
    outside: &mut O,
) -> Result<Vec<OpenPiece<'a, O::Opened>>, Fault<'a>>
    ensures { Did O.deeds O.holds outside.old outside.new (λ deeds. OpensPieces (map S.text names.now) new.now deeds (seen_as (all_seen O.bytes) result)) }
{
    let mut pieces = Vec::new(alloc);
    for name in names {
        let name = name.as_str();
        let file = open_input((name, new), outside)?;
        match pieces.push(OpenPiece { name, file }) {
            Ok(()) => {}
            Err(_) => return Err(Fault::Memory),
        }
    }
    Ok(pieces)
}

/// Reads an opened piece and appends it to the others.
fn take_piece<'a, O: Outside>(
    alloc: Global,
    joining: &mut Joining,
    piece: OpenPiece<'a, O::Opened>,
    outside: &mut O,
) -> Result<(), Fault<'a>>
    ensures { DidMake O.deeds outside.old outside.new (λ deeds. TakesPiece (seen_by O.bytes piece.entry) joining.old deeds result joining.new) }
{
    let file = outside.read(piece.file);
    match joining.add(alloc, file, LARGEST_RECORDING) {
        Ok(()) => Ok(()),
        Err(fault) => Err(result_of(fault, piece.name)),
    }
}

/// Starts joining, as the words say.
fn start_of(alloc: Global, choices: JoinChoices) -> Joining
    ensures { result ≡ start_of choices }
{
    let word = word_of(choices.form);
    if choices.parts {
        Joining::of_parts(alloc, word)
    } else {
        Joining::start(alloc, word)
    }
}

/// Reads opened pieces one after the other and joins them.
fn read_pieces<'a, O: Outside>(
    alloc: Global,
    choices: JoinChoices,
    pieces: Vec<OpenPiece<'a, O::Opened>>,
    outside: &mut O,
) -> Result<Joining, Fault<'a>>
    ensures { DidMake O.deeds outside.old outside.new (λ deeds. ReadsPieces choices (map (seen_by O.bytes) pieces.entry.items) deeds result) }
{
    let mut pieces = pieces;
    let mut joining = start_of(alloc, choices);
    while !pieces.is_empty() {
        let piece = pieces.remove(0);
        take_piece(alloc, &mut joining, piece, outside)?;
    }
    Ok(joining)
}

/// The joined file of all pieces, which have these names, with the line of the answer.
fn give<'a, S: AsStr>(
    alloc: Global,
    names: &'a [S],
    joining: Joining,
) -> Result<JoinedFile, Fault<'a>>
    ensures { Gives (map S.text names.now) joining result }
{
    let joint = match joining.end(alloc, LARGEST_RECORDING) {
        Ok(joint) => joint,
        Err(fault) => return Err(result_of(fault, "")),
    };
    judge_openings(alloc, names, &joint)?;
    let line = joined_line(alloc, joint.told())?;
    Ok(JoinedFile { joint, line })
}

/// The file of the joined pieces.
impl Making for JoinedFile {
    ghost use Rattle.std.specs.Prelude.{string_bytes};
    ghost use Rattle.siman_outside.specs.Making.{PutsBoth};

    ghost puts = { λ joined. PutsBoth joined.joint.text (string_bytes joined.line) };

    fn put<S: Settling<F>, F: Write, W: Write>(
        &self,
        _alloc: Global,
        settling: &S,
        file: &mut F,
        out: &mut W,
    ) -> Result<u8, Fault<'static>> {
        match self.joint.write(file) {
            Ok(()) => put_settled(settling, file, &self.line, out),
            Err(_) => Err(Fault::Output),
        }
    }
}

/// Reads the opened pieces and joins them.
fn read_and_give<'a, S: AsStr, O: Outside>(
    alloc: Global,
    names: &'a [S],
    choices: JoinChoices,
    pieces: Vec<OpenPiece<'a, O::Opened>>,
    outside: &mut O,
) -> Result<JoinedFile, Fault<'a>>
    ensures { DidMake O.deeds outside.old outside.new (λ deeds. ReadsAndGives (map S.text names.now) choices (map (seen_by O.bytes) pieces.entry.items) deeds result) }
{
    let joining = read_pieces(alloc, choices, pieces, outside)?;
    give(alloc, names, joining)
}

/// Opens pieces in the order of their names, reads them one after the other, and makes a file of
/// all of them, joined as the words say; the file replaces an existing one (`force`) or not.
pub fn join_pieces<'a, S: AsStr, O: Outside, W: Write>(
    alloc: Global,
    names: &'a [S],
    new: &'a str,
    force: bool,
    choices: JoinChoices,
    outside: &mut O,
    out: &mut W,
) -> Result<u8, Fault<'a>>
    ensures { Did O.deeds O.holds outside.old outside.new (λ deeds. JoinsPieces (map S.text names.now) force new.now choices deeds result (stream (W.contents out.old) (W.contents out.new))) }
{
    let opened = open_pieces(alloc, names, new, outside);
    let pieces = if_free(opened, new, force, outside)?;
    let joined = read_and_give(alloc, names, choices, pieces, outside)?;
    make_file(alloc, &joined, new, force, outside, out)
}
