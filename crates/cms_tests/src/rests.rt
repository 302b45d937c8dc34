//! What follows a message, read to its end: readers that fail, and how much they are asked for.
use crate::asserts::assert_same;
use crate::failing::{FAILURES, Remaining, buffered, slow};
use crate::samples::LIMIT;
use crate::streams::{Counting, Ended};
use cms_canon::read_rest;
use cms_tlv::{Fault, Input, MAX_LIMIT, Reason, Watched};
use std::alloc::{AllocError, Global};
use std::io::ErrorKind;
use std::process::Abort;
use std::test::Fail;

/// The reader after the call, and how many octets there are.
fn rest_len<R: Input>(alloc: Global, reader: R, limit: u64) -> (R, Result<usize, Fault>) {
    let (reader, rest) = read_rest(alloc, reader, limit.min(MAX_LIMIT));
    (reader, rest.map(|octets| octets.len()))
}

/// Reads the rest from a reader that fails, and compares how many octets were not taken from it.
fn assert_rest_fails<R: Remaining>(
    rt: &(impl Abort + AllocGlobal),
    reader: R,
    limit: u64,
    (room, remaining): (usize, usize),
) {
    let (reader, rest) = rest_len(rt.alloc(), reader, limit);
    assert_same(rt, (room, rest), (room, Err(Fault::Read)), "the rest");
    assert_same(rt, (room, reader.remaining()), (room, remaining), "left");
}

/// Readers that fail in each way after they gave so many octets.
fn assert_rests_fail(
    rt: &(impl Abort + AllocGlobal),
    octets: &[u8],
    limit: u64,
    room: usize,
) -> Result<(), Fail> {
    let places = (room, octets.len().saturating_sub(room));
    for failure in FAILURES {
        assert_rest_fails(rt, slow(octets, room, failure), limit, places);
        let reader = buffered(rt.alloc(), octets, room, failure)?;
        assert_rest_fails(rt, reader, limit, places);
    }
    Ok(())
}

const SHORT: &[u8] = b"0123456789";

/// An input that has ended is not asked again, since it could go on then, as a terminal does.
#[test]
fn rest_of_an_ended_input(rt: HostRuntime) {
    for cut in 0..SHORT.len() {
        let (front, others) = SHORT.split_at(cut);
        let (reader, rest) = rest_len(rt.alloc(), Watched::new(Ended::new(front, others)), LIMIT);
        assert_same(&rt, rest, Ok(cut), "the rest");
        assert_same(&rt, reader.into_inner().others(), others, "what is left");
    }
}

/// A read that fails is reported and not tried again, also at the end of the input, and at the limit, where
/// one octet more is looked for. Nothing more is taken.
#[test]
fn failing_reads_of_a_rest(rt: HostRuntime) -> Result<(), Fail> {
    for room in 0..SHORT.len() + 1 {
        assert_rests_fail(&rt, SHORT, LIMIT, room)?;
        assert_rests_fail(&rt, SHORT, 10, room)?;
    }
    for room in 0..SHORT.len() {
        assert_rests_fail(&rt, SHORT, 9, room)?;
    }
    Ok(())
}

/// So many octets.
fn octets(alloc: Global, count: usize) -> Result<Vec<u8>, AllocError> {
    vec![in alloc; 0x61; count]
}

/// A rest that is read in two pieces.
#[test]
fn failing_reads_of_a_long_rest(rt: HostRuntime) -> Result<(), Fail> {
    let long = octets(rt.alloc(), 10_000)?;
    for room in [0, 1, 8191, 8192, 8193, 9999, 10_000] {
        assert_rests_fail(&rt, &long, LIMIT, room)?;
        assert_rests_fail(&rt, &long, 10_000, room)?;
    }
    Ok(())
}

/// One octet more than the limit is taken, and not a second one.
#[test]
fn rest_longer_than_the_limit(rt: HostRuntime) {
    let want = Err(Fault::Refused {
        reason: Reason::TooLarge,
        at: 9,
    });
    let reader = slow(SHORT, usize::MAX, ErrorKind::Other);
    let (reader, rest) = rest_len(rt.alloc(), reader, 8);
    assert_same(&rt, rest, want, "the rest");
    assert_same(&rt, reader.remaining(), 1, "left");
}

/// How many octets there are, the limit, how often the reader is asked, and for how many octets at most.
const ASKED: &[(usize, u64, u64, usize)] = &[
    (0, 0, 1, 1),
    (0, LIMIT, 1, 8192),
    (100, 100, 2, 100),
    (8192, 8192, 2, 8192),
    (8192, LIMIT, 2, 8192),
    (20_000, 20_000, 4, 8192),
    (20_000, LIMIT, 4, 8192),
];

/// The rest is asked for in pieces of at most 8,192 octets, and not past the limit but for one octet.
#[test]
fn calls_for_a_rest(rt: HostRuntime) -> Result<(), Fail> {
    for (count, limit, calls, most) in ASKED {
        let octets = octets(rt.alloc(), *count)?;
        let reader = Watched::new(Counting::new(&octets, 0));
        let (reader, rest) = rest_len(rt.alloc(), reader, *limit);
        let reader = reader.into_inner();
        assert_same(&rt, (count, rest), (count, Ok(*count)), "the rest");
        assert_same(&rt, (count, reader.calls), (count, *calls), "calls");
        assert_same(
            &rt,
            (count, reader.most),
            (count, *most),
            "octets asked for",
        );
    }
    Ok(())
}
