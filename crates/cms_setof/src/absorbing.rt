//! Octets that are made, and lie in the input too, beside what is copied.
ghost use Rattle.std.specs.Prelude.{◌≡◌, ◌≤◌, ◌++◌, ◌-◌, length, take, drop, OnOk, IfOk};
ghost use Rattle.std.specs.List.{All};
ghost use Rattle.cms_fields.specs.Assembly.{marked, made};
ghost use Rattle.cms_setof.specs.Copies.{CopiesMore};
ghost use Rattle.cms_setof.specs.Pieces.{marked_piece, marked_pieces, HasOctets, AreJoined};
ghost use Rattle.cms_setof.specs.internal.Tracing.{stacked};

use crate::joining::add;
use crate::piece::Piece;
use crate::stack::put_first;
use cms_tlv::Span;
use std::alloc::{AllocError, Global};

/// The pieces with more that is copied: of a made one, the octets at its end that lie in `kept` right
/// before what is copied next, and then those at its beginning that lie there right after what is copied
/// before it. A header is among them if it is the same in the input. An error means out of memory.
pub fn absorbed(pieces: Vec<Piece>, kept: &[u8], alloc: Global) -> Result<Vec<Piece>, AllocError>
    ensures copies { IfOk result (λ v.
        CopiesMore (marked_pieces kept.now pieces.items) (marked_pieces kept.now v.items)) }
    ensures have { IfOk result (λ v. All (HasOctets kept.now) v.items) }
    ensures joined { IfOk result (λ v. AreJoined v.items) }
{
    let stack = absorbed_before(pieces, kept, alloc)?;
    absorbed_after(stack, kept, alloc)
}

/// The pieces, of which the last comes first now, with more that is copied before what is copied. An
/// error means out of memory.
fn absorbed_before(pieces: Vec<Piece>, kept: &[u8], alloc: Global) -> Result<Vec<Piece>, AllocError>
    ensures { IfOk result (λ v.
        CopiesMore (marked_pieces kept.now pieces.items) (stacked kept.now v.items)) }
{
    let mut left = pieces;
    let mut stack = Vec::new(alloc);
    while let Some(piece) = left.pop() {
        put_absorbed(piece, kept, &mut stack)?;
    }
    Ok(stack)
}

/// The pieces of which the last comes first, in their order, with more that is copied after what is
/// copied. An error means out of memory.
fn absorbed_after(pieces: Vec<Piece>, kept: &[u8], alloc: Global) -> Result<Vec<Piece>, AllocError>
    ensures copies { IfOk result (λ v.
        CopiesMore (stacked kept.now pieces.items) (marked_pieces kept.now v.items)) }
    ensures have { IfOk result (λ v. All (HasOctets kept.now) v.items) }
    ensures joined { IfOk result (λ v. AreJoined v.items) }
{
    let mut left = pieces;
    let mut ordered = Vec::new(alloc);
    while let Some(piece) = left.pop() {
        add_absorbed(piece, kept, &mut ordered)?;
    }
    Ok(ordered)
}

/// Puts a piece before those of which the last comes first. An error means out of memory.
fn put_absorbed(piece: Piece, kept: &[u8], pieces: &mut Vec<Piece>) -> Result<(), AllocError>
    ensures { OnOk result (CopiesMore
        (marked_piece kept.now piece ++ stacked kept.now pieces.old.items)
        (stacked kept.now pieces.new.items)) }
{
    match piece {
        Piece::Copied(span) => put_first(Piece::Copied(span), pieces),
        Piece::Made(octets) => put_made(octets, kept, pieces),
    }
}

/// Puts made octets before the pieces of which the last comes first; if that is copied, with the octets
/// at their end copied that lie right before it. An error means out of memory.
fn put_made(octets: Vec<u8>, kept: &[u8], pieces: &mut Vec<Piece>) -> Result<(), AllocError>
    ensures { OnOk result (CopiesMore
        (marked made octets.items ++ stacked kept.now pieces.old.items)
        (stacked kept.now pieces.new.items)) }
{
    let Some(start) = start_of_last(pieces) else {
        return put_first(Piece::Made(octets), pieces);
    };
    let (rest, copied) = split_at_end(octets, start, kept);
    put_first(copied, pieces)?;
    put_first(rest, pieces)
}

/// Adds a piece at the end. An error means out of memory.
fn add_absorbed(piece: Piece, kept: &[u8], pieces: &mut Vec<Piece>) -> Result<(), AllocError>
    requires have { All (HasOctets kept.now) pieces.old.items }
    requires joined { AreJoined pieces.old.items }
    ensures copies { OnOk result (CopiesMore
        (marked_pieces kept.now pieces.old.items ++ marked_piece kept.now piece)
        (marked_pieces kept.now pieces.new.items)) }
    ensures have { OnOk result (All (HasOctets kept.now) pieces.new.items) }
    ensures joined { OnOk result (AreJoined pieces.new.items) }
{
    match piece {
        Piece::Copied(span) => add(Piece::Copied(span), kept, pieces),
        Piece::Made(octets) => add_made(octets, kept, pieces),
    }
}

/// Adds made octets at the end; if the last piece is copied, with the octets at their beginning copied
/// that lie right after it. An error means out of memory.
fn add_made(octets: Vec<u8>, kept: &[u8], pieces: &mut Vec<Piece>) -> Result<(), AllocError>
    requires have { All (HasOctets kept.now) pieces.old.items }
    requires joined { AreJoined pieces.old.items }
    ensures copies { OnOk result (CopiesMore
        (marked_pieces kept.now pieces.old.items ++ marked made octets.items)
        (marked_pieces kept.now pieces.new.items)) }
    ensures have { OnOk result (All (HasOctets kept.now) pieces.new.items) }
    ensures joined { OnOk result (AreJoined pieces.new.items) }
{
    let Some(end) = end_of_last(pieces) else {
        return add(Piece::Made(octets), kept, pieces);
    };
    let (copied, rest) = split_at_start(octets, end, kept)?;
    add(copied, kept, pieces)?;
    add(rest, kept, pieces)
}

/// Where the last piece begins in the input, if it is copied.
fn start_of_last(pieces: &[Piece]) -> Option<usize> {
    match pieces.last() {
        Some(Piece::Copied(span)) => Some(span.start),
        _ => None,
    }
}

/// Where the last piece ends in the input, if it is copied.
fn end_of_last(pieces: &[Piece]) -> Option<usize> {
    match pieces.last() {
        Some(Piece::Copied(span)) => Some(span.end),
        _ => None,
    }
}

/// Made octets up to those at their end that lie in `kept` right before `start`, and these as a copied
/// piece.
fn split_at_end(octets: Vec<u8>, start: usize, kept: &[u8]) -> (Piece, Piece)
    ensures { CopiesMore (marked made octets.items)
        (marked_piece kept.now result.0 ++ marked_piece kept.now result.1) }
{
    let end = start.min(kept.len());
    let n = same_at_end(&octets, &kept[..end]);
    let mut rest = octets;
    rest.truncate(rest.len() - n);
    let copied = Span {
        start: end - n,
        end,
    };
    (Piece::Made(rest), Piece::Copied(copied))
}

/// Made octets at whose beginning stand those that lie in `kept` right after `end`: these as a copied
/// piece, and the others. An error means out of memory.
fn split_at_start(octets: Vec<u8>, end: usize, kept: &[u8]) -> Result<(Piece, Piece), AllocError>
    ensures { IfOk result (λ p. CopiesMore (marked made octets.items)
        (marked_piece kept.now p.0 ++ marked_piece kept.now p.1)) }
{
    let start = end.min(kept.len());
    let n = same_at_start(&octets, &kept[start..]);
    let mut first = octets;
    let rest = first.split_off(n)?;
    let copied = Span {
        start,
        end: start + n,
    };
    Ok((Piece::Copied(copied), Piece::Made(rest)))
}

/// How many octets are the same at the beginning of both.
fn same_at_start(first: &[u8], second: &[u8]) -> usize
    ensures within { (result ≤ length first.now) × (result ≤ length second.now) }
    ensures same { take result first.now ≡ take result second.now }
{
    let mut n = 0;
    while n < first.len() && n < second.len() && first[n] == second[n] {
        n += 1;
    }
    n
}

/// How many octets are the same at the end of both.
fn same_at_end(first: &[u8], second: &[u8]) -> usize
    ensures within { (result ≤ length first.now) × (result ≤ length second.now) }
    ensures same { drop (length first.now - result) first.now
        ≡ drop (length second.now - result) second.now }
{
    let mut n = 0;
    while n < first.len()
        && n < second.len()
        && first[first.len() - 1 - n] == second[second.len() - 1 - n]
    {
        n += 1;
    }
    n
}
