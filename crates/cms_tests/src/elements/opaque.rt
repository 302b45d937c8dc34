//! Opaque values: how deep they nest, and how their octets come.

use crate::asserts::assert_same;
use crate::elements::sources::LIMIT;
use crate::streams::Reluctant;
use cms_tlv::{Bound, Buffered, Fault, Input, Reason, Slice, Source, Span, Watched, put_header};
use std::alloc::{AllocError, Global};
use std::io::{BufReader, ErrorKind};
use std::process::Abort;
use std::test::Fail;

/// So many nested elements, the innermost with these contents.
fn nested(alloc: Global, levels: u8, contents: &[u8]) -> Result<Vec<u8>, AllocError> {
    let mut element = Vec::new(alloc);
    element.extend_from_slice(contents)?;
    for _ in 0..levels {
        let mut outer = Vec::new(alloc);
        put_header(&mut outer, 0x30, element.len() as u64)?;
        outer.extend_from_slice(&element)?;
        element = outer;
    }
    Ok(element)
}

/// Reads one opaque value.
fn opaque_of<R: Input + Drop>(alloc: Global, reader: R) -> (Result<Span, Fault>, Vec<u8>) {
    let mut source = Source::new(alloc, reader, LIMIT);
    let span = source.opaque(&Bound::top());
    let (_, octets) = source.finish();
    (span, octets)
}

/// Reads one opaque value whose octets are at hand, and again with none at hand; the two must not
/// differ.
fn opaque_at_hand(
    rt: &(impl Abort + AllocGlobal),
    octets: &[u8],
) -> (Result<Span, Fault>, Vec<u8>) {
    let (span, kept) = opaque_of(rt.alloc(), Slice::new(octets));
    let slow = Watched::new(Reluctant::new(octets, 1, usize::MAX, ErrorKind::Other));
    let (same_span, same_kept) = opaque_of(rt.alloc(), slow);
    assert_same(rt, span, same_span, "the value with octets at hand");
    let same_kept = same_kept.as_slice();
    assert_same(rt, kept.as_slice(), same_kept, "the octets kept");
    (span, kept)
}

/// At most 64 elements are nested, whatever the 65th holds. A header that is not DER's is refused
/// for that, before it is judged too deep.
#[test]
fn levels_of_opaque_values(rt: HostRuntime) -> Result<(), Fail> {
    let whole = nested(rt.alloc(), 64, b"")?;
    let (span, octets) = opaque_at_hand(&rt, &whole);
    assert_same(&rt, span?.octets(&octets), whole.as_slice(), "64 levels");
    assert_too_deep(&rt, b"\x30\x00", Reason::OpaqueTooDeep, 0)?;
    assert_too_deep(&rt, b"\x30\x02\x05\x00", Reason::OpaqueTooDeep, 2)?;
    assert_too_deep(&rt, b"\x05\x81\x00", Reason::OpaqueNotDer, 0)
}

/// The 65th element, which has `rest` octets after the place where it is refused.
fn assert_too_deep(
    rt: &(impl Abort + AllocGlobal),
    element: &[u8],
    reason: Reason,
    rest: u64,
) -> Result<(), Fail> {
    let whole = nested(rt.alloc(), 64, element)?;
    let (span, _) = opaque_at_hand(rt, &whole);
    let at = (whole.len() as u64).saturating_sub(rest);
    let want = Err(Fault::Refused { reason, at });
    assert_same(rt, span, want, "the 65th level");
    Ok(())
}

/// An opaque value whose reader fails after it gave so many octets.
fn assert_failed(rt: &(impl Abort + AllocGlobal), whole: &[u8], room: usize) -> Result<(), Fail> {
    let reader = Reluctant::new(whole, 4096, room, ErrorKind::Interrupted);
    let (span, _) = opaque_of(rt.alloc(), Watched::new(reader));
    assert_same(
        rt,
        (room, span),
        (room, Err(Fault::Read)),
        "with none at hand",
    );
    let reader = Reluctant::new(whole, 4096, room, ErrorKind::Interrupted);
    let buffer = BufReader::with_capacity(rt.alloc(), 7, reader)?;
    let (span, _) = opaque_of(rt.alloc(), Buffered::new(buffer));
    assert_same(
        rt,
        (room, span),
        (room, Err(Fault::Read)),
        "behind a buffer",
    );
    Ok(())
}

/// An opaque value of which the reader has only so many octets.
fn assert_cut(rt: &(impl Abort + AllocGlobal), whole: &[u8], room: usize) {
    let (span, _) = opaque_at_hand(rt, whole.get(..room).unwrap_or(whole));
    let want = Fault::Refused {
        reason: Reason::Truncated,
        at: room as u64,
    };
    assert_same(rt, span, Err(want), "cut");
}

/// An opaque value whose octets come so many at a time, or are at hand so many at a time.
fn assert_in_pieces(
    rt: &(impl Abort + AllocGlobal),
    whole: &[u8],
    piece: usize,
) -> Result<(), Fail> {
    let reader = Reluctant::new(whole, piece, whole.len(), ErrorKind::Other);
    let (span, octets) = opaque_of(rt.alloc(), Watched::new(reader));
    assert_same(
        rt,
        (piece, span?.octets(&octets)),
        (piece, whole),
        "at a time",
    );
    let buffer = BufReader::with_capacity(rt.alloc(), piece, whole)?;
    let (span, octets) = opaque_of(rt.alloc(), Buffered::new(buffer));
    assert_same(
        rt,
        (piece, span?.octets(&octets)),
        (piece, whole),
        "at hand",
    );
    Ok(())
}

/// Opaque values whose octets come a few at a time, or do not all come.
#[test]
fn opaque_values_in_pieces(rt: HostRuntime) -> Result<(), Fail> {
    let whole = nested(rt.alloc(), 3, b"\x02\x01\x05\xa0\x03\x04\x01\x61")?;
    for piece in [1, 2, 3, 7, 4096] {
        assert_in_pieces(&rt, &whole, piece)?;
    }
    for room in 0..whole.len() {
        assert_failed(&rt, &whole, room)?;
        assert_cut(&rt, &whole, room);
    }
    Ok(())
}
