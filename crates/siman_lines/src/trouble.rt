//! Description of a link's last failed call.

ghost use Rattle.std.specs.Prelude.{◌≡◌};
ghost use Rattle.byte_files.specs.Pieces.{piece_text, pieces_text};
ghost use Rattle.byte_files.specs.Writing.{Writes};
ghost use Rattle.siman_lines.specs.Trouble.{address_text, call_words, way_words, peer_words, peer_text, line_trouble_text};

use byte_files::{TextPiece, TextPieces, WriteFailed, five_pieces, put_pieces, system_words};
use std::io::{ErrorKind, Write};
use std::net::SocketAddrV4;

/// A kind of call of a link.
#[derive(Clone, Copy, PartialEq, Eq)]
pub enum LineCall {
    Send,
    Receive,
}

/// A failed call of a link.
#[derive(Clone, Copy)]
pub struct LineTrouble {
    pub call: LineCall,
    /// Destination of the datagram, if it is known and an IPv4 address.
    pub peer: Option<SocketAddrV4>,
    /// Kind of error.
    pub kind: ErrorKind,
}

fn call_words(call: LineCall) -> &'static str
    ensures { result.now ≡ call_words call }
{
    match call {
        LineCall::Send => "sending",
        LineCall::Receive => "receiving",
    }
}

fn way_words(call: LineCall) -> &'static str
    ensures { result.now ≡ way_words call }
{
    match call {
        LineCall::Send => " to ",
        LineCall::Receive => " from ",
    }
}

/// Address and port of a peer.
fn peer_piece(peer: SocketAddrV4) -> TextPiece<'static>
    ensures { piece_text result ≡ address_text peer }
{
    let [first, second, third, last] = peer.ip().octets();
    TextPiece::Endpoint(first, second, third, last, peer.port())
}

/// Which call of a link failed, and the system's reason.
pub fn trouble_pieces(trouble: LineTrouble) -> TextPieces<'static>
    ensures { pieces_text result ≡ line_trouble_text trouble }
{
    let (way, peer) = match trouble.peer {
        Some(peer) => (way_words(trouble.call), peer_piece(peer)),
        None => ("", TextPiece::Nothing),
    };
    five_pieces(
        TextPiece::Words(call_words(trouble.call)),
        TextPiece::Words(way),
        peer,
        TextPiece::Words(": "),
        TextPiece::Words(system_words(trouble.kind)),
    )
}

/// Writes which call of a link failed and the system's reason, without a line end.
pub fn put_line_trouble<W: Write>(writer: &mut W, trouble: LineTrouble) -> Result<(), WriteFailed>
    ensures { Writes result (W.contents writer.old) (W.contents writer.new) (line_trouble_text trouble) }
{
    put_pieces(writer, trouble_pieces(trouble))
}
