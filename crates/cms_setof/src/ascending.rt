//! Frames one after another, put in ascending order in place (X.690, 11.6).
//!
//! At most 16,384 frames are sorted at a time, and the sorted rows are merged in place: to sort all of
//! them at once would take their octets a second time, and 40 octets more for each.
ghost use Rattle.std.specs.Prelude.{◌≡◌, ◌↔◌, ℕ, List, IsTrue, OnOk};
ghost use Rattle.std.specs.List.{AllByRecursion};
ghost use Rattle.cms_tlv.specs.Frames.{IsDerFrame};
ghost use Rattle.cms_tlv.specs.Order.{Ascends};
ghost use Rattle.cms_tlv.specs.Spelling.{join};
ghost use Rattle.cms_setof.specs.internal.Merging.{AreSorted};

use crate::frames::{first_frame, frame_count, frame_spans, frames_len};
use crate::merging::merge;
use crate::order::elements_ascend;
use crate::sorting::append_sorted;
use std::alloc::{AllocError, Global};

/// How many frames are sorted at once.
const AT_ONCE: usize = 16384;

/// Room for the spans of most sets. To count them first would take longer than to make more room.
const ROOM: usize = 16;

/// Whether the frames that lie in `row` one after another ascend.
pub(crate) fn frames_ascend(row: &[u8]) -> bool
    ensures { (bs : List (List ℕ)) → AllByRecursion IsDerFrame bs → row.now ≡ join bs
        → IsTrue result ↔ Ascends bs }
{
    let mut last = first_frame(row);
    let mut rest = &row[last.len()..];
    while !rest.is_empty() {
        let next = first_frame(rest);
        if !elements_ascend(last, next) {
            return false;
        }
        last = next;
        rest = &rest[next.len()..];
    }
    true
}

/// Sorts the frames that lie in `row` one after another. An error means out of memory; `row` may then
/// have any octets.
pub(crate) fn sort_frames(row: &mut [u8], alloc: Global) -> Result<(), AllocError>
    ensures { OnOk result ((bs : List (List ℕ)) → AllByRecursion IsDerFrame bs → row.old ≡ join bs
        → AreSorted bs row.new) }
{
    if frames_ascend(row) {
        return Ok(());
    }
    // No frame has fewer than two octets.
    if row.len() / 2 <= AT_ONCE {
        return sort_at_once(row, ROOM, alloc);
    }
    let count = frame_count(row);
    if count <= AT_ONCE {
        return sort_at_once(row, count, alloc);
    }
    let mut copy = Vec::with_capacity(alloc, frames_len(row, count / 2))?;
    sort_halves(row, count, alloc, &mut copy)
}

/// Sorts `count` frames as `sort_frames` does: each half by itself, and then both are merged by way of
/// `copy`.
fn sort_halves(
    row: &mut [u8],
    count: usize,
    alloc: Global,
    copy: &mut Vec<u8>,
) -> Result<(), AllocError>
    ensures { OnOk result ((bs : List (List ℕ)) → AllByRecursion IsDerFrame bs → row.old ≡ join bs
        → AreSorted bs row.new) }
{
    if count <= AT_ONCE {
        return sort_at_once(row, count, alloc);
    }
    let half = count / 2;
    let seam = frames_len(row, half);
    sort_halves(&mut row[..seam], half, alloc, copy)?;
    sort_halves(&mut row[seam..], count - half, alloc, copy)?;
    merge(row, seam, copy)
}

/// Sorts frames as `sort_frames` does, by way of a copy of all of them; there is room for the spans of
/// `room` frames at first.
fn sort_at_once(row: &mut [u8], room: usize, alloc: Global) -> Result<(), AllocError>
    ensures { OnOk result ((bs : List (List ℕ)) → AllByRecursion IsDerFrame bs → row.old ≡ join bs
        → AreSorted bs row.new) }
{
    let mut spans = frame_spans(row, room, alloc)?;
    let mut sorted = Vec::with_capacity(alloc, row.len())?;
    append_sorted(row, &mut spans, alloc, &mut sorted)?;
    row.copy_from_slice(&sorted);
    Ok(())
}
