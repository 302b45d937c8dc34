//! Readers and writers that fail.
use crate::asserts::assert_same;
use crate::converted::{Expected, assert_converted};
use crate::failing::{FAILURES, Remaining, buffered, slow};
use crate::samples::{ACCEPTED, LIMIT, Sample, both};
use crate::streams::{Full, LimitedWriter};
use cms_canon::{Done, Tail, canonicalise};
use cms_tlv::{Fault, Slice, Watched};
use std::alloc::Global;
use std::io::ErrorKind;
use std::process::Abort;
use std::test::Fail;

/// What a conversion returns, and what the writer took.
fn cramped(alloc: Global, input: &[u8], writer: LimitedWriter) -> (Result<Done, Fault>, Vec<u8>) {
    let mut writer = Watched::new(writer);
    let slice = Slice::new(input);
    let (_, done) = canonicalise(alloc, slice, &mut writer, LIMIT, Tail::Refuse);
    (done, writer.into_inner().taken)
}

/// What such a writer takes of a message.
fn assert_taken(
    rt: &(impl Abort + AllocGlobal),
    input: &[u8],
    writer: LimitedWriter,
    want: Result<Done, Fault>,
    taken: &[u8],
) {
    let (done, came) = cramped(rt.alloc(), input, writer);
    assert_same(rt, done, want, "the answer");
    assert_same(rt, came.as_slice(), taken, "what is taken");
}

/// What a writer with so much room takes of a message, however it refuses the octet after that.
fn assert_cramped(
    rt: &(impl Abort + AllocGlobal),
    input: &[u8],
    output: &[u8],
    room: usize,
    want: Result<Done, Fault>,
) {
    let taken = output.get(..room).unwrap_or(output);
    for piece in [1, 3, usize::MAX] {
        for full in [Full::Fails, Full::TakesNone] {
            let writer = LimitedWriter::new(Vec::new(rt.alloc()), piece, room, full);
            assert_taken(rt, input, writer, want, taken);
        }
    }
}

/// A writer with room for each part of a message's DER, and one with room for all of it.
fn assert_writers_fail(rt: &(impl Abort + AllocGlobal), input: &[u8], output: &[u8]) {
    let done = Done {
        read: input.len() as u64,
        written: output.len() as u64,
    };
    assert_cramped(rt, input, output, output.len(), Ok(done));
    for room in 0..output.len() {
        let written = room as u64;
        assert_cramped(rt, input, output, room, Err(Fault::Write { written }));
    }
}

/// A fault says how many octets a writer took before it failed, and these are the first of the DER.
#[test]
fn failing_writers(rt: HostRuntime) -> Result<(), Fail> {
    for sample in ACCEPTED {
        let (input, output) = both(rt.alloc(), sample.input, sample.output)?;
        assert_writers_fail(&rt, &input, &output);
    }
    Ok(())
}

/// Converts what a reader gives that fails, and compares how many octets were not taken from it.
fn assert_read_fails<R: Remaining>(
    rt: &(impl Abort + AllocGlobal),
    reader: R,
    tail: Tail,
    remaining: usize,
    name: &str,
) {
    let want = Expected::failed(Fault::Read);
    let reader = assert_converted(rt, reader, LIMIT, tail, &want, name);
    assert_same(rt, reader.remaining(), remaining, name);
}

/// Readers that fail in this way after they gave so many octets of a message. With nothing allowed after it,
/// they are asked for an octet at its end as well.
fn assert_readers_fail(
    rt: &(impl Abort + AllocGlobal),
    input: &[u8],
    room: usize,
    failure: ErrorKind,
    name: &str,
) -> Result<(), Fail> {
    let remaining = input.len().saturating_sub(room);
    let tails: &[Tail] = if remaining == 0 {
        &[Tail::Refuse]
    } else {
        &[Tail::Refuse, Tail::Leave]
    };
    for tail in tails {
        assert_read_fails(rt, slow(input, room, failure), *tail, remaining, name);
        let reader = buffered(rt.alloc(), input, room, failure)?;
        assert_read_fails(rt, reader, *tail, remaining, name);
    }
    Ok(())
}

/// Readers that fail after each octet of a sample, and after the last one.
fn assert_sample_fails(
    rt: &(impl Abort + AllocGlobal),
    sample: &Sample,
    failure: ErrorKind,
) -> Result<(), Fail> {
    let input = hex::decode(rt.alloc(), sample.input)?;
    for room in 0..input.len() + 1 {
        assert_readers_fail(rt, &input, room, failure, sample.name)?;
    }
    Ok(())
}

/// A read that fails, or is interrupted, is reported and not repeated. Nothing is written, and nothing more
/// is taken from the reader.
#[test]
fn failing_readers(rt: HostRuntime) -> Result<(), Fail> {
    for sample in ACCEPTED {
        for failure in FAILURES {
            assert_sample_fails(&rt, sample, failure)?;
        }
    }
    Ok(())
}

/// Readers that fail in this way after a message, before an octet that follows it.
fn assert_fails_before_more(
    rt: &(impl Abort + AllocGlobal),
    followed: &[u8],
    failure: ErrorKind,
    name: &str,
) -> Result<(), Fail> {
    let room = followed.len().saturating_sub(1);
    let reader = slow(followed, room, failure);
    assert_read_fails(rt, reader, Tail::Refuse, 1, name);
    let reader = buffered(rt.alloc(), followed, room, failure)?;
    assert_read_fails(rt, reader, Tail::Refuse, 1, name);
    Ok(())
}

/// A reader that fails after the message is not asked for more if anything may follow. If nothing may, its
/// failure is reported, and what follows is not taken.
#[test]
fn readers_that_fail_after_the_message(rt: HostRuntime) -> Result<(), Fail> {
    for sample in ACCEPTED {
        let (input, output) = both(rt.alloc(), sample.input, sample.output)?;
        let followed = [input.as_slice(), b"!"].concat(rt.alloc())?;
        let want = Expected::done(input.len(), &output);
        let reader = slow(&followed, input.len(), ErrorKind::Other);
        let reader = assert_converted(&rt, reader, LIMIT, Tail::Leave, &want, sample.name);
        assert_same(&rt, reader.remaining(), 1, sample.name);
        assert_fails_before_more(&rt, &followed, ErrorKind::Other, sample.name)?;
        assert_fails_before_more(&rt, &followed, ErrorKind::Interrupted, sample.name)?;
    }
    Ok(())
}
