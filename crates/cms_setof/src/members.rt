//! The members of a set in pieces, put in ascending order (X.690, 11.6).
ghost use Rattle.std.specs.Prelude.{◌≡◌, ◌++◌, ℕ, List, length, map, OnOk, IfOk};
ghost use Rattle.std.specs.List.{AllByRecursion, flat_map};
ghost use Rattle.std.specs.List.Sorted.{IsPermutation, IsSortedBy};
ghost use Rattle.std.specs.Ordering.{nat_cmp, is_lt};
ghost use Rattle.std.specs.Cmp.Lexicographic.{slice_cmp};
ghost use Rattle.cms_tlv.specs.Frames.{IsDerFrame};
ghost use Rattle.cms_tlv.specs.Order.{Ascends};
ghost use Rattle.cms_tlv.specs.Spelling.{join};
ghost use Rattle.cms_fields.specs.Assembly.{Marked, unmarked, join_marked};
ghost use Rattle.cms_setof.specs.Pieces.{marked_pieces};
ghost use Rattle.cms_setof.specs.internal.Tracing.{stacked, marked_member, member_octets, AreMembers};

use crate::ascending::frames_ascend;
use crate::frames::frame_spans;
use crate::piece::Piece;
use crate::stack::{joined, put_before, take_first};
use cms_tlv::Span;
use std::alloc::{AllocError, Global};

/// A member of a set: where its octets lie in a buffer, and its pieces.
#[derive(Drop)]
pub(crate) struct Member {
    pub(crate) span: Span,
    pub(crate) pieces: Vec<Piece>,
}

/// The members whose octets lie in `octets` one after another, and whose pieces together are `pieces`.
/// An error means out of memory.
fn members_of(
    pieces: Vec<Piece>,
    octets: &[u8],
    kept: &[u8],
    alloc: Global,
) -> Result<Vec<Member>, AllocError>
    ensures { IfOk result (λ v. (frames : List (List Marked))
        → AllByRecursion IsDerFrame (map unmarked frames)
        → marked_pieces kept.now pieces.items ≡ join_marked frames
        → octets.now ≡ join (map unmarked frames)
        → AreMembers kept.now octets.now frames v.items) }
{
    let spans = frame_spans(octets, 0, alloc)?;
    let mut left = Vec::new(alloc);
    put_before(pieces, &mut left)?;
    let mut members = Vec::with_capacity(alloc, spans.len())?;
    for span in &spans {
        let pieces = take_first(&mut left, span.octets(octets).len(), kept, alloc)?;
        members.push(Member {
            span: *span,
            pieces,
        })?;
    }
    Ok(members)
}

/// Sorts members by their octets.
fn sort_members(octets: &[u8], members: &mut [Member])
    ensures permutation { IsPermutation members.old members.new }
    ensures sorted { IsSortedBy (λ a b. is_lt (slice_cmp nat_cmp
        (member_octets octets.now a) (member_octets octets.now b))) members.new }
{
    members.sort_unstable_by(|a, b| a.span.octets(octets).cmp(b.span.octets(octets)));
}

/// Puts the pieces of members before those that there are; the first member comes first. An error means
/// out of memory.
fn put_members(members: Vec<Member>, pieces: &mut Vec<Piece>) -> Result<(), AllocError>
    ensures { OnOk result ((k : List ℕ) → stacked k pieces.new.items
        ≡ join_marked (map (marked_member k) members.items) ++ stacked k pieces.old.items) }
{
    let mut left = members;
    while let Some(member) = left.pop() {
        put_before(member.pieces, pieces)?;
    }
    Ok(())
}

/// Sorts the frames that make up the first `n` octets (X.690, 11.6). An error means out of memory, or
/// fewer than `n` octets.
pub(crate) fn sort_first(
    pieces: &mut Vec<Piece>,
    n: usize,
    kept: &[u8],
    alloc: Global,
) -> Result<(), AllocError>
    ensures { OnOk result ((frames : List (List Marked)) (rest : List Marked)
        → AllByRecursion IsDerFrame (map unmarked frames) → n ≡ length (join_marked frames)
        → stacked kept.now pieces.old.items ≡ join_marked frames ++ rest
        → (sorted : List (List Marked)) × IsPermutation frames sorted
        × Ascends (map unmarked sorted)
        × (stacked kept.now pieces.new.items ≡ join_marked sorted ++ rest)) }
{
    let first = take_first(pieces, n, kept, alloc)?;
    let octets = joined(&first, kept, alloc)?;
    if frames_ascend(&octets) {
        return put_before(first, pieces);
    }
    let mut members = members_of(first, &octets, kept, alloc)?;
    sort_members(&octets, &mut members);
    put_members(members, pieces)
}
