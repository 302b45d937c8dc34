//! Messages one after another: what is written of them, and readers and writers that fail.
use crate::asserts::{assert_holds, assert_same};
use crate::failing::{Remaining, buffered, slow};
use crate::samples::{ACCEPTED, LIMIT, SMALLEST, SMALLEST_REQUEST};
use crate::streams::{Ended, Full, LimitedWriter, Reluctant};
use cms_canon::{Many, ManyFault, canonicalise_many};
use cms_tlv::{Fault, Input, MAX_LIMIT, Reason, Slice, Watched};
use std::alloc::Global;
use std::io::ErrorKind;
use std::process::Abort;
use std::test::Fail;

/// The smallest message, of 47 octets, whose DER is `SMALLEST`, of 37 octets.
const INDEFINITE: &str =
    "308006092a864886f70d010702a080308002010131800000308006092a864886f70d01070100003100000000000000";

/// What conversions return that wrote so many octets of so many messages.
fn done(messages: u64, read: usize, written: usize) -> Result<Many, ManyFault> {
    Ok(Many {
        messages,
        read: read as u64,
        written: written as u64,
    })
}

/// What they return that failed after so many messages.
fn failed(done: u64, written: usize, fault: Fault) -> Result<Many, ManyFault> {
    Err(ManyFault {
        done,
        written: written as u64,
        fault,
    })
}

/// The reader after conversions, what they return, and what the writer took.
fn converted<R: Input>(
    alloc: Global,
    reader: R,
    writer: LimitedWriter,
    limit: u64,
) -> (R, Result<Many, ManyFault>, Vec<u8>) {
    let mut writer = Watched::new(writer);
    let (reader, done) = canonicalise_many(alloc, reader, &mut writer, limit.min(MAX_LIMIT));
    (reader, done, writer.into_inner().taken)
}

/// Converts what a reader gives, compares what is returned and what the writer took, and returns the reader.
fn assert_many<R: Input>(
    rt: &(impl Abort + AllocGlobal),
    reader: R,
    writer: LimitedWriter,
    limit: u64,
    want: Result<Many, ManyFault>,
    output: &[u8],
    name: &str,
) -> R {
    let (reader, came, taken) = converted(rt.alloc(), reader, writer, limit);
    assert_same(rt, came, want, name);
    assert_same(rt, taken.len(), output.len(), name);
    assert_holds(rt, taken.as_slice() == output, name);
    reader
}

/// A writer that takes all that it is given.
fn willing(alloc: Global) -> LimitedWriter {
    LimitedWriter::new(Vec::new(alloc), usize::MAX, usize::MAX, Full::Fails)
}

/// The octets of texts in hexadecimal, one after another.
fn joined(alloc: Global, texts: &[&str]) -> Result<Vec<u8>, Fail> {
    let mut octets = Vec::new(alloc);
    for text in texts {
        octets.extend_from_slice(&hex::decode(alloc, text)?)?;
    }
    Ok(octets)
}

// ---- what is returned

/// Messages one after another, and the DER of those that are written.
struct Stream {
    name: &'static str,
    input: &'static [&'static str],
    limit: u64,
    output: &'static [&'static str],
    want: Wanted,
}

/// How many messages are written; or how many were before one was refused, why it was, and where.
type Wanted = Result<u64, (u64, Reason, u64)>;

const STREAMS: &[Stream] = &[
    Stream {
        name: "nothing",
        input: &[],
        limit: LIMIT,
        output: &[],
        want: Ok(0),
    },
    Stream {
        name: "limit-0-and-no-input",
        input: &[],
        limit: 0,
        output: &[],
        want: Err((0, Reason::TooLarge, 0)),
    },
    Stream {
        name: "two-messages",
        input: &[INDEFINITE, SMALLEST],
        limit: LIMIT,
        output: &[SMALLEST, SMALLEST],
        want: Ok(2),
    },
    Stream {
        name: "two-kinds",
        input: &[
            SMALLEST,
            "30390201013031300d060960864801650304020105000420ba7816bf8f01cfea414140de5dae2223b00361a396177a9cb410ff61f20015ad010100",
        ],
        limit: LIMIT,
        output: &[SMALLEST, SMALLEST_REQUEST],
        want: Ok(2),
    },
    Stream {
        name: "limit-counts-each-message-alone",
        input: &[SMALLEST, SMALLEST, SMALLEST],
        limit: 37,
        output: &[SMALLEST, SMALLEST, SMALLEST],
        want: Ok(3),
    },
    Stream {
        name: "second-message-passes-the-limit",
        input: &[SMALLEST, INDEFINITE],
        limit: 46,
        output: &[SMALLEST],
        want: Err((1, Reason::TooLarge, 46)),
    },
    Stream {
        name: "second-message-cut",
        input: &[SMALLEST, "302306092a864886f70d"],
        limit: LIMIT,
        output: &[SMALLEST],
        want: Err((1, Reason::Truncated, 10)),
    },
    Stream {
        name: "second message refused, with a third after it",
        input: &[INDEFINITE, "3100", SMALLEST],
        limit: LIMIT,
        output: &[SMALLEST],
        want: Err((1, Reason::UnexpectedElement, 2)),
    },
    Stream {
        name: "octet-after-a-message",
        input: &[SMALLEST, "00"],
        limit: LIMIT,
        output: &[SMALLEST],
        want: Err((1, Reason::Truncated, 1)),
    },
];

fn assert_stream(rt: &(impl Abort + AllocGlobal), case: &Stream) -> Result<(), Fail> {
    let input = joined(rt.alloc(), case.input)?;
    let output = joined(rt.alloc(), case.output)?;
    let want = match case.want {
        Ok(messages) => done(messages, input.len(), output.len()),
        Err((done, reason, at)) => failed(done, output.len(), Fault::Refused { reason, at }),
    };
    let writer = willing(rt.alloc());
    let reader = Slice::new(&input);
    assert_many(rt, reader, writer, case.limit, want, &output, case.name);
    let writer = willing(rt.alloc());
    let reader = Watched::new(Reluctant::new(&input, 3, usize::MAX, ErrorKind::Other));
    assert_many(rt, reader, writer, case.limit, want, &output, case.name);
    Ok(())
}

#[test]
fn messages_in_turn(rt: HostRuntime) -> Result<(), Fail> {
    for case in STREAMS {
        assert_stream(&rt, case)?;
    }
    Ok(())
}

/// After a refusal the reader has what follows the octets that were taken.
#[test]
fn reader_after_a_refusal(rt: HostRuntime) -> Result<(), Fail> {
    let input = joined(rt.alloc(), &[SMALLEST, "3100", "0500"])?;
    let mut writer = Watched::new(willing(rt.alloc()));
    let (mut reader, came) = canonicalise_many(rt.alloc(), Slice::new(&input), &mut writer, LIMIT);
    assert_holds(&rt, came.is_err(), "it is refused");
    let mut rest = [0u8; 4];
    assert_same(&rt, reader.take(&mut rest), Ok(2), "octets left");
    assert_same(&rt, rest, *b"\x05\x00\x00\x00", "what they are");
    Ok(())
}

// ---- readers that fail

/// How many of the two messages lie before the octet at which a reader fails, and how many octets their
/// DER has.
fn whole_before(room: usize) -> (u64, usize) {
    match room {
        0..47 => (0, 0),
        47..84 => (1, 37),
        _ => (2, 74),
    }
}

/// Converts the two messages that a reader gives which fails after so many octets, and compares how many
/// octets were not taken from it.
fn assert_read_fails<R: Remaining>(
    rt: &(impl Abort + AllocGlobal),
    reader: R,
    output: &[u8],
    (room, remaining): (usize, usize),
    name: &str,
) {
    let (messages, written) = whole_before(room);
    let out = output.get(..written).unwrap_or(output);
    let want = failed(messages, written, Fault::Read);
    let reader = assert_many(rt, reader, willing(rt.alloc()), LIMIT, want, out, name);
    assert_same(rt, (room, reader.remaining()), (room, remaining), name);
}

/// Messages from readers that fail in this way.
fn assert_reads_fail(
    rt: &(impl Abort + AllocGlobal),
    input: &[u8],
    output: &[u8],
    room: usize,
    failure: ErrorKind,
) -> Result<(), Fail> {
    let places = (room, input.len().saturating_sub(room));
    let reader = slow(input, room, failure);
    assert_read_fails(rt, reader, output, places, "none at hand");
    let reader = buffered(rt.alloc(), input, room, failure)?;
    assert_read_fails(rt, reader, output, places, "some at hand");
    Ok(())
}

/// A read that fails is reported and not tried again, also after the last message, where the end of the
/// input is looked for. The messages before it are written, and nothing more is taken from the reader.
#[test]
fn failing_reads_of_many(rt: HostRuntime) -> Result<(), Fail> {
    let input = joined(rt.alloc(), &[INDEFINITE, SMALLEST])?;
    let output = joined(rt.alloc(), &[SMALLEST, SMALLEST])?;
    for room in 0..input.len() + 1 {
        assert_reads_fail(&rt, &input, &output, room, ErrorKind::Other)?;
        assert_reads_fail(&rt, &input, &output, room, ErrorKind::Interrupted)?;
    }
    Ok(())
}

/// An input that has ended is not asked again, since it could go on then, as a terminal does: neither after
/// the last message nor in one.
#[test]
fn ended_inputs_of_many(rt: HostRuntime) -> Result<(), Fail> {
    let input = joined(rt.alloc(), &[INDEFINITE, SMALLEST])?;
    for cut in [0, 47, 50] {
        let (front, others) = input.split_at(cut);
        let reader = Watched::new(Ended::new(front, others));
        let mut writer = Watched::new(willing(rt.alloc()));
        let (reader, _) = canonicalise_many(rt.alloc(), reader, &mut writer, LIMIT);
        assert_same(&rt, reader.into_inner().others(), others, "what is left");
    }
    Ok(())
}

// ---- writers that fail

/// What writers with so much room take of the messages, however they refuse the octet after that.
fn assert_cramped(
    rt: &(impl Abort + AllocGlobal),
    input: &[u8],
    output: &[u8],
    room: usize,
    want: Result<Many, ManyFault>,
) {
    let out = output.get(..room).unwrap_or(output);
    for piece in [1, 3, usize::MAX] {
        for full in [Full::Fails, Full::TakesNone] {
            let writer = LimitedWriter::new(Vec::new(rt.alloc()), piece, room, full);
            let reader = Slice::new(input);
            assert_many(rt, reader, writer, LIMIT, want, out, "a writer that fails");
        }
    }
}

/// What is returned for messages whose DER has 37 octets, if the writer took so many octets of it.
fn failed_write(room: usize) -> Result<Many, ManyFault> {
    let written = room as u64;
    let fault = Fault::Write {
        written: written % 37,
    };
    failed(written / 37, room, fault)
}

/// What writers with so much room take of such messages.
fn assert_room(rt: &(impl Abort + AllocGlobal), input: &[u8], output: &[u8], room: usize) {
    assert_cramped(rt, input, output, room, failed_write(room));
}

/// A fault says how many messages were written whole, and how many octets of the next one were.
#[test]
fn failing_writes_of_many(rt: HostRuntime) -> Result<(), Fail> {
    let input = joined(rt.alloc(), &[INDEFINITE, SMALLEST])?;
    let output = joined(rt.alloc(), &[SMALLEST, SMALLEST])?;
    for room in 0..output.len() {
        assert_room(&rt, &input, &output, room);
    }
    let all = done(2, input.len(), output.len());
    assert_cramped(&rt, &input, &output, output.len(), all);
    Ok(())
}

/// A message that is refused is not reached by a writer that fails before it.
#[test]
fn failing_writes_before_a_refusal(rt: HostRuntime) -> Result<(), Fail> {
    let input = joined(rt.alloc(), &[INDEFINITE, SMALLEST, "3100"])?;
    let output = joined(rt.alloc(), &[SMALLEST, SMALLEST])?;
    for room in 0..output.len() {
        assert_room(&rt, &input, &output, room);
    }
    let refusal = Fault::Refused {
        reason: Reason::UnexpectedElement,
        at: 2,
    };
    let want = failed(2, output.len(), refusal);
    assert_cramped(&rt, &input, &output, output.len(), want);
    Ok(())
}

// ---- more DER than is written at a time

/// Content of 65,537 octets in two segments, and the same message in DER.
const LONG_BEFORE: &str =
    "308006092a864886f70d010702a08030800201013100308006092a864886f70d010701a08024800483010000";

const LONG_AFTER: &str = "0401610000000000003100000000000000";

const LONG_DER: &str =
    "308301003706092a864886f70d010702a08301002730830100220201013100308301001606092a864886f70d010701a0830100060483010001";

/// Some octets, so many octets of content, and some octets after it.
fn around(alloc: Global, before: &[&str], content: usize, after: &[&str]) -> Result<Vec<u8>, Fail> {
    let mut octets = joined(alloc, before)?;
    octets.extend_from_slice(&vec![in alloc; 0x61; content]?)?;
    octets.extend_from_slice(&joined(alloc, after)?)?;
    Ok(octets)
}

/// How much room a writer has for a short message, the long one and a short one; how many messages it
/// takes whole, and how many octets of the next one. The DER of the long one has 65,596 octets.
const ROOMS: &[(usize, u64, u64)] = &[
    (0, 0, 0),
    (36, 0, 36),
    (37, 1, 0),
    (38, 1, 1),
    (65_536, 1, 65_499),
    (65_632, 1, 65_595),
    (65_633, 2, 0),
    (65_669, 2, 36),
];

/// A long message stands between two short ones.
#[test]
fn long_message_between_short_ones(rt: HostRuntime) -> Result<(), Fail> {
    let before = [INDEFINITE, LONG_BEFORE];
    let input = around(rt.alloc(), &before, 65_536, &[LONG_AFTER, SMALLEST])?;
    let output = around(
        rt.alloc(),
        &[SMALLEST, LONG_DER],
        65_537,
        &["3100", SMALLEST],
    )?;
    for (room, messages, written) in ROOMS {
        let fault = Fault::Write { written: *written };
        let want = failed(*messages, *room, fault);
        assert_cramped(&rt, &input, &output, *room, want);
    }
    let all = done(3, input.len(), output.len());
    assert_cramped(&rt, &input, &output, 65_670, all);
    Ok(())
}

/// A message so many times.
fn repeated(alloc: Global, text: &str, times: usize) -> Result<Vec<u8>, Fail> {
    let one = hex::decode(alloc, text)?;
    let mut octets = Vec::new(alloc);
    for _ in 0..times {
        octets.extend_from_slice(&one)?;
    }
    Ok(octets)
}

/// The DER of short messages is written together, once there are 65,536 octets of it: 1,772 messages
/// have 65,564. A writer fails in what is written first, or after it.
#[test]
fn short_messages_in_two_writes(rt: HostRuntime) -> Result<(), Fail> {
    let input = repeated(rt.alloc(), INDEFINITE, 2000)?;
    let output = repeated(rt.alloc(), SMALLEST, 2000)?;
    for room in [36, 40_000, 65_563, 65_564, 73_999] {
        let writer = LimitedWriter::new(Vec::new(rt.alloc()), 4096, room, Full::Fails);
        let out = output.get(..room).unwrap_or(&output);
        let want = failed_write(room);
        let reader = Slice::new(&input);
        assert_many(&rt, reader, writer, LIMIT, want, out, "a writer that fails");
    }
    let writer = willing(rt.alloc());
    let all = done(2000, 94_000, 74_000);
    assert_many(&rt, Slice::new(&input), writer, LIMIT, all, &output, "all");
    Ok(())
}

/// All messages of the samples one after another: each is written as it is alone.
#[test]
fn samples_one_after_another(rt: HostRuntime) -> Result<(), Fail> {
    let mut input = Vec::new(rt.alloc());
    let mut output = Vec::new(rt.alloc());
    for sample in ACCEPTED {
        input.extend_from_slice(&hex::decode(rt.alloc(), sample.input)?)?;
        output.extend_from_slice(&hex::decode(rt.alloc(), sample.output)?)?;
    }
    let all = done(ACCEPTED.len() as u64, input.len(), output.len());
    assert_cramped(&rt, &input, &output, output.len(), all);
    Ok(())
}
