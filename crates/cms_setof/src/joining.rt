//! Pieces of an encoding in their order, with each piece as long as can be.
ghost use Rattle.std.specs.Prelude.{◌≡◌, ◌++◌, ◌↔◌, ℕ, List, IsTrue, OnOk, IfOk};
ghost use Rattle.std.specs.List.{All};
ghost use Rattle.cms_setof.specs.Pieces.{marked_piece, marked_pieces, HasOctets, GoesOn, AreJoined};
ghost use Rattle.cms_setof.specs.internal.Tracing.{stacked};

use crate::piece::Piece;
use cms_tlv::Span;
use std::alloc::{AllocError, Global};

/// Whether `next` goes on where `piece` ends.
fn goes_on(piece: &Piece, next: &Piece) -> bool
    ensures { IsTrue result ↔ GoesOn piece.now next.now }
{
    match (piece, next) {
        (Piece::Copied(first), Piece::Copied(second)) => first.end == second.start,
        (Piece::Made(_), Piece::Made(_)) => true,
        _ => false,
    }
}

/// One piece of two, of which `next` goes on where `piece` ends. An error means out of memory.
fn join(piece: Piece, next: Piece) -> Result<Piece, AllocError>
    ensures octets { (k : List ℕ) → HasOctets k piece → HasOctets k next → GoesOn piece next
        → IfOk result (λ p. marked_piece k p ≡ marked_piece k piece ++ marked_piece k next) }
    ensures has { (k : List ℕ) → HasOctets k piece → HasOctets k next → GoesOn piece next
        → IfOk result (HasOctets k) }
    ensures begins { IfOk result (λ p. (before : Piece) → GoesOn before p → GoesOn before piece) }
{
    match (piece, next) {
        (Piece::Copied(first), Piece::Copied(second)) => {
            let whole = Span {
                start: first.start,
                end: second.end,
            };
            Ok(Piece::Copied(whole))
        }
        (Piece::Made(first), Piece::Made(second)) => {
            let mut octets = first;
            octets.extend_from_slice(&second)?;
            Ok(Piece::Made(octets))
        }
        (piece, _) => Ok(piece),
    }
}

/// Adds a piece that has octets at the end, joined to the last one if it goes on where that ends. An
/// error means out of memory.
fn add_octets(piece: Piece, kept: &[u8], pieces: &mut Vec<Piece>) -> Result<(), AllocError>
    requires has { HasOctets kept.now piece }
    requires have { All (HasOctets kept.now) pieces.old.items }
    requires joined { AreJoined pieces.old.items }
    ensures octets { OnOk result (marked_pieces kept.now pieces.new.items
        ≡ marked_pieces kept.now pieces.old.items ++ marked_piece kept.now piece) }
    ensures have { OnOk result (All (HasOctets kept.now) pieces.new.items) }
    ensures joined { OnOk result (AreJoined pieces.new.items) }
{
    let Some(last) = pieces.pop() else {
        pieces.push(piece)?;
        return Ok(());
    };
    if goes_on(&last, &piece) {
        pieces.push(join(last, piece)?)?;
    } else {
        pieces.push(last)?;
        pieces.push(piece)?;
    }
    Ok(())
}

/// Adds a piece at the end as `add_octets` does, or nothing if it has no octets.
pub(crate) fn add(piece: Piece, kept: &[u8], pieces: &mut Vec<Piece>) -> Result<(), AllocError>
    requires have { All (HasOctets kept.now) pieces.old.items }
    requires joined { AreJoined pieces.old.items }
    ensures octets { OnOk result (marked_pieces kept.now pieces.new.items
        ≡ marked_pieces kept.now pieces.old.items ++ marked_piece kept.now piece) }
    ensures have { OnOk result (All (HasOctets kept.now) pieces.new.items) }
    ensures joined { OnOk result (AreJoined pieces.new.items) }
{
    if piece.octets(kept).is_empty() {
        return Ok(());
    }
    add_octets(piece, kept, pieces)
}

/// The pieces of which the last comes first, in their order. Those without octets are left out, and
/// neighbours that go on are joined. An error means out of memory.
pub(crate) fn in_order(
    pieces: Vec<Piece>,
    kept: &[u8],
    alloc: Global,
) -> Result<Vec<Piece>, AllocError>
    ensures octets { IfOk result (λ v.
        marked_pieces kept.now v.items ≡ stacked kept.now pieces.items) }
    ensures have { IfOk result (λ v. All (HasOctets kept.now) v.items) }
    ensures joined { IfOk result (λ v. AreJoined v.items) }
{
    let mut left = pieces;
    let mut ordered = Vec::new(alloc);
    while let Some(piece) = left.pop() {
        add(piece, kept, &mut ordered)?;
    }
    Ok(ordered)
}
