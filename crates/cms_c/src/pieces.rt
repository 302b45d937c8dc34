//! Of which pieces the DER of a message is put together.
//!
//! Octets that are made are not handed over: they stand in the DER, which `cms_canon_convert` writes. So
//! a piece is three numbers, and says which of the two it lies in.
ghost use Rattle.std.specs.Prelude.{◌≡◌, IfOk, IfErr};
ghost use Rattle.cms_c.specs.Calls.{FailsBy, limit_of_c};
ghost use Rattle.cms_c.specs.Pieces.{ArePieces, ArePiecesOfInput, piece_of_c, pieces_of_c};

use crate::given::message_in;
use crate::outcome::Outcome;
use cms_tlv::Fault;
use std::alloc::{AllocError, Global};

/// A piece of the DER of a message.
#[repr(C)]
#[derive(Clone, Copy)]
pub struct Piece {
    /// Where it begins, from 0: in the message if `made` is 0, and in the DER if it is 1.
    pub place: u64,
    /// How many octets it has.
    pub length: u64,
    /// 1 if its octets are made, 0 if they are copied from the message.
    pub made: u64,
}

/// Writes the pieces of which the DER of the one message in `input` is put together to the beginning of
/// `pieces`: octets of `input`, and octets that are made, by their place in the DER.
///
/// The message and its DER have at most `limit` octets; a limit above 2^40 counts as 2^40. If the
/// message is refused, memory runs out, or the pieces do not fit into `pieces`, nothing is written.
#[unsafe(no_mangle)]
pub extern "C" fn cms_canon_pieces(
    alloc: Global,
    input: &[u8],
    limit: u64,
    pieces: &mut [Piece],
    outcome: &mut Outcome,
)
    ensures { ArePieces input.now (limit_of_c limit) pieces.old pieces.new outcome.new }
{
    *outcome = match pieces_in(alloc, input, limit) {
        Ok(found) => Outcome::delivered(&found, pieces),
        Err(fault) => Outcome::of_fault(fault),
    };
}

/// The pieces of the message in `input`.
fn pieces_in(alloc: Global, input: &[u8], limit: u64) -> Result<Vec<Piece>, Fault>
    ensures ok { IfOk result (λ v. ArePiecesOfInput input.now (limit_of_c limit) v.items) }
    ensures err { IfErr result (FailsBy input.now (limit_of_c limit)) }
{
    let message = message_in(alloc, input, limit)?;
    let Ok(pieces) = message.pieces(alloc) else {
        return Err(Fault::OutOfMemory);
    };
    let Ok(all) = pieces_of_c(alloc, input, &pieces) else {
        return Err(Fault::OutOfMemory);
    };
    Ok(all)
}

/// The pieces as C has them. An error means out of memory.
fn pieces_of_c(
    alloc: Global,
    input: &[u8],
    pieces: &[cms_setof::Piece],
) -> Result<Vec<Piece>, AllocError>
    ensures { IfOk result (λ v. v.items ≡ pieces_of_c input.now 0 pieces.now) }
{
    let mut all = Vec::with_capacity(alloc, pieces.len())?;
    let mut at: u64 = 0;
    for piece in pieces {
        let one = piece_of_c(piece, at, input);
        at = at.checked_add(one.length).ok_or(AllocError)?;
        all.push(one)?;
    }
    Ok(all)
}

/// A piece as C has it that begins at `at` in the DER.
fn piece_of_c(piece: &cms_setof::Piece, at: u64, input: &[u8]) -> Piece
    ensures { result ≡ piece_of_c input.now at piece.now }
{
    let length = piece.octets(input).len() as u64;
    match piece {
        cms_setof::Piece::Copied(span) => Piece {
            place: span.start as u64,
            length,
            made: 0,
        },
        cms_setof::Piece::Made(_) => Piece {
            place: at,
            length,
            made: 1,
        },
    }
}
