//! Whether the input ends before anything is taken from it, and sources that keep octets in a buffer of the
//! caller's.
use crate::asserts::{assert_holds, assert_same};
use crate::elements::sources::LIMIT;
use crate::streams::{Ended, Reluctant};
use cms_tlv::{Bound, Buffered, Fault, Header, Input, Reason, Slice, Source, Watched};
use std::io::{BufReader, ErrorKind};
use std::process::Abort;
use std::test::Fail;

/// An element and an octet after it.
const ELEMENT: &[u8] = b"\x30\x00\x05";

const TOO_LARGE: Fault = Fault::Refused {
    reason: Reason::TooLarge,
    at: 0,
};

/// What `at_end` says of a reader under a limit, what stands after it, and what the source has taken.
fn assert_end<R: Input + Drop>(
    rt: &(impl Abort + AllocGlobal),
    reader: R,
    limit: u64,
    want: Result<bool, Fault>,
    taken: &[u8],
) {
    let mut source = Source::new(rt.alloc(), reader, limit);
    assert_same(rt, source.at_end(), want, "whether it ends");
    assert_same(rt, source.standing(), want.map(|_| ()), "the fault");
    assert_same(rt, source.consumed(), 0, "octets consumed");
    let (_, octets) = source.finish();
    assert_same(rt, octets.as_slice(), taken, "octets taken");
}

/// Whether a source ends, if octets are at hand and if they are not.
fn assert_ends(
    rt: &(impl Abort + AllocGlobal),
    octets: &[u8],
    limit: u64,
    want: Result<bool, Fault>,
    taken: &[u8],
) -> Result<(), Fail> {
    assert_end(rt, Slice::new(octets), limit, want, taken);
    assert_end(rt, Watched::new(octets), limit, want, taken);
    let buffer = BufReader::with_capacity(rt.alloc(), 1, octets)?;
    assert_end(rt, Buffered::new(buffer), limit, want, taken);
    Ok(())
}

/// No octet is taken at the end of the input, and one if there are any. There is no room to look for
/// one under the limit 0, whatever the input is.
#[test]
fn ends_of_inputs(rt: HostRuntime) -> Result<(), Fail> {
    for limit in [1, LIMIT] {
        assert_ends(&rt, b"", limit, Ok(true), b"")?;
        assert_ends(&rt, ELEMENT, limit, Ok(false), b"\x30")?;
        assert_ends(&rt, b"\x00", limit, Ok(false), b"\x00")?;
    }
    assert_ends(&rt, b"", 0, Err(TOO_LARGE), b"")?;
    assert_ends(&rt, ELEMENT, 0, Err(TOO_LARGE), b"")
}

/// A header in parts: the identifier octet, the length, and whether it is the shortest.
fn parts(header: &Header) -> (u8, Option<u64>, bool) {
    (header.ident, header.len, header.shortest)
}

/// The octet that shows that there is input is the first of the next header.
#[test]
fn header_after_at_end(rt: HostRuntime) {
    let mut source = Source::new(rt.alloc(), Slice::new(ELEMENT), LIMIT);
    assert_same(&rt, source.at_end(), Ok(false), "there is input");
    assert_same(&rt, source.peek(&Bound::top()), Ok(Some(0x30)), "its first");
    let header = source.header(&Bound::top());
    let came = header.map(|header| parts(&header));
    assert_same(&rt, came, Ok((0x30, Some(0), true)), "the header");
    let (mut reader, octets) = source.finish();
    assert_same(&rt, octets.as_slice(), b"\x30\x00", "octets taken");
    let mut rest = [0u8; 2];
    assert_same(&rt, reader.take(&mut rest), Ok(1), "octets left");
}

/// A source says twice that the input has ended.
#[test]
fn end_asked_twice(rt: HostRuntime) {
    let mut source = Source::new(rt.alloc(), Slice::new(b""), LIMIT);
    assert_same(&rt, source.at_end(), Ok(true), "once");
    assert_same(&rt, source.at_end(), Ok(true), "twice");
    let want = Fault::Refused {
        reason: Reason::Truncated,
        at: 0,
    };
    let header = source.header(&Bound::top());
    assert_same(&rt, header.err(), Some(want), "a header");
    let _ = source.finish();
}

/// A read that fails is no end, and its fault stands, though the reader would give octets at a second
/// try.
#[test]
fn failing_read_at_the_end(rt: HostRuntime) {
    for failure in [ErrorKind::Other, ErrorKind::Interrupted] {
        let reader = Watched::new(Reluctant::new(ELEMENT, usize::MAX, 0, failure));
        let mut source = Source::new(rt.alloc(), reader, LIMIT);
        assert_same(&rt, source.at_end(), Err(Fault::Read), "the failure");
        assert_holds(&rt, source.position() == 0, "no octet is taken");
        assert_same(&rt, source.at_end(), Err(Fault::Read), "once more");
        assert_same(&rt, source.standing(), Err(Fault::Read), "it stands");
        let header = source.header(&Bound::top());
        assert_same(&rt, header.err(), Some(Fault::Read), "a header");
        let (_, octets) = source.finish();
        assert_holds(&rt, octets.is_empty(), "no octet is kept");
    }
}

/// An element whose fronts end the input in each part of headers and contents.
const NESTED: &[u8] = b"\x30\x05\x04\x03abc";

/// An input that has ended is not asked again, since it could go on then, as a terminal does.
#[test]
fn ended_inputs_are_not_asked_again(rt: HostRuntime) {
    for cut in 0..NESTED.len() {
        let (front, others) = NESTED.split_at(cut);
        let mut source = Source::new(rt.alloc(), Watched::new(Ended::new(front, others)), LIMIT);
        let want = Fault::Refused {
            reason: Reason::Truncated,
            at: cut as u64,
        };
        let came = source.opaque(&Bound::top()).err();
        assert_same(&rt, came, Some(want), "where it ends");
        let (reader, _) = source.finish();
        assert_same(&rt, reader.into_inner().others(), others, "what is left");
    }
}

/// Nor is one that ends before anything is taken from it.
#[test]
fn end_is_not_looked_for_again(rt: HostRuntime) {
    let reader = Watched::new(Ended::new(b"", ELEMENT));
    let mut source = Source::new(rt.alloc(), reader, LIMIT);
    assert_same(&rt, source.at_end(), Ok(true), "it ends");
    let (reader, _) = source.finish();
    assert_same(&rt, reader.into_inner().others(), ELEMENT, "what is left");
}

/// What is in a buffer is dropped, and its room is used.
#[test]
fn sources_with_a_buffer(rt: HostRuntime) -> Result<(), Fail> {
    let mut buffer = Vec::with_capacity(rt.alloc(), 5000)?;
    buffer.extend_from_slice(b"\x30\x80\x00")?;
    let mut source = Source::with_buffer(buffer, Slice::new(ELEMENT), LIMIT);
    assert_same(&rt, source.position(), 0, "octets taken before any call");
    assert_same(&rt, source.at_end(), Ok(false), "there is input");
    let header = source.header(&Bound::top());
    assert_holds(&rt, header.is_ok(), "a header");
    assert_same(&rt, source.position(), 2, "octets taken");
    let (_, octets) = source.finish();
    assert_same(&rt, octets.as_slice(), b"\x30\x00", "octets kept");
    assert_same(&rt, octets.capacity(), 5000, "the room");
    Ok(())
}
