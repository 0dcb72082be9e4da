//! Lines in pieces: words, numbers, addresses and fields.
ghost use Rattle.std.specs.Prelude.{[]};
ghost use Rattle.byte_text.specs.Outcomes.{AppendsLine, AppendsPart};
ghost use Rattle.server_log.specs.Pieces.{line_of, piece_text, with_pieces};

use byte_text::{push_address, push_marked, push_number, push_text, whole_or_none};
use std::alloc::AllocError;

/// A piece of a line.
#[derive(Clone, Copy)]
pub enum Piece<'a> {
    /// Words, as they are.
    Text(&'a str),
    /// A number, in decimal digits.
    Number(u64),
    /// An IPv4 address, as `127.0.0.1`.
    Address([u8; 4]),
    /// The field of a text that anybody may choose.
    Field(&'a [u8]),
    /// The field of a name, which is empty if the name is not known.
    Name(Option<&'a str>),
}

/// Appends a line of these pieces.
///
/// # Errors
/// There was no memory, and nothing was appended.
pub fn append_line(out: &mut Vec<u8>, pieces: &[Piece<'_>]) -> Result<(), AllocError>
    ensures { AppendsLine (line_of pieces.now) out.old.items out.new.items result }
{
    let whole = out.len();
    let done = push_line(out, pieces);
    whole_or_none(out, whole, done)
}

fn push_line(out: &mut Vec<u8>, pieces: &[Piece<'_>]) -> Result<(), AllocError>
    ensures { AppendsPart (line_of pieces.now) out.old.items out.new.items result }
{
    push_pieces(out, pieces)?;
    push_text(out, "\n")
}

/// Appends pieces, which are no whole line.
///
/// # Errors
/// There was no memory; some of the pieces may have been appended.
pub fn push_pieces(out: &mut Vec<u8>, pieces: &[Piece<'_>]) -> Result<(), AllocError>
    ensures { AppendsPart (with_pieces [] pieces.now) out.old.items out.new.items result }
{
    for piece in pieces {
        push_piece(out, *piece)?;
    }
    Ok(())
}

fn push_piece(out: &mut Vec<u8>, piece: Piece<'_>) -> Result<(), AllocError>
    ensures { AppendsPart (piece_text piece.entry) out.old.items out.new.items result }
{
    match piece {
        Piece::Text(text) => push_text(out, text),
        Piece::Number(number) => push_number(out, number),
        Piece::Address(ip) => push_address(out, ip),
        Piece::Field(bytes) => push_marked(out, bytes),
        Piece::Name(Some(name)) => push_marked(out, name.as_bytes()),
        Piece::Name(None) => Ok(()),
    }
}
