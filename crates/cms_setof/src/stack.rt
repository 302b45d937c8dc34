//! Pieces of an encoding that grows at its front: the last one in the list comes first.
ghost use Rattle.std.specs.Prelude.{◌≡◌, ◌++◌, ℕ, List, OnOk, IfOk};
ghost use Rattle.cms_fields.specs.Assembly.{unmarked};
ghost use Rattle.cms_setof.specs.Pieces.{marked_piece, marked_pieces};
ghost use Rattle.cms_setof.specs.internal.Tracing.{stacked, TakesOff};

use crate::piece::Piece;
use std::alloc::{AllocError, Global};

/// Takes the first `n` octets off, and returns them, the first piece first. An error means out of
/// memory, or fewer octets.
pub(crate) fn take_first(
    pieces: &mut Vec<Piece>,
    n: usize,
    kept: &[u8],
    alloc: Global,
) -> Result<Vec<Piece>, AllocError>
    ensures { IfOk result (λ first.
        TakesOff kept.now n pieces.old.items first.items pieces.new.items) }
{
    let mut first = Vec::new(alloc);
    let mut left = n;
    while left > 0 {
        let Some(piece) = pieces.pop() else {
            return Err(AllocError);
        };
        let len = piece.octets(kept).len();
        if len > left {
            let (last, rest) = piece.split(left)?;
            first.push(last)?;
            pieces.push(rest)?;
            return Ok(first);
        }
        left -= len;
        first.push(piece)?;
    }
    Ok(first)
}

/// Puts a piece before those that there are. An error means out of memory.
pub(crate) fn put_first(piece: Piece, pieces: &mut Vec<Piece>) -> Result<(), AllocError>
    ensures { OnOk result ((k : List ℕ) → stacked k pieces.new.items
        ≡ marked_piece k piece ++ stacked k pieces.old.items) }
{
    pieces.push(piece)?;
    Ok(())
}

/// Puts pieces before those that there are; the first of them comes first. An error means out of memory.
pub(crate) fn put_before(first: Vec<Piece>, pieces: &mut Vec<Piece>) -> Result<(), AllocError>
    ensures { OnOk result ((k : List ℕ) → stacked k pieces.new.items
        ≡ marked_pieces k first.items ++ stacked k pieces.old.items) }
{
    let mut left = first;
    while let Some(piece) = left.pop() {
        put_first(piece, pieces)?;
    }
    Ok(())
}

/// The octets of pieces, one after another. An error means out of memory.
pub(crate) fn joined(pieces: &[Piece], kept: &[u8], alloc: Global) -> Result<Vec<u8>, AllocError>
    ensures { IfOk result (λ v. v.items ≡ unmarked (marked_pieces kept.now pieces.now)) }
{
    let mut octets = Vec::new(alloc);
    for piece in pieces {
        octets.extend_from_slice(piece.octets(kept))?;
    }
    Ok(octets)
}
