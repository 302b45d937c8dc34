//! The parts of a message that was read, and the numbers, names and texts of refusals.
use crate::asserts::{assert_hex, assert_holds, assert_same};
use crate::samples::{NESTED_CONTENT, SEGMENTED_CONTENT, SMALLEST, WHOLE_CONTENT, message_of};
use cms_canon::{View, put_into, put_message};
use cms_message::{AlgorithmIdentifier, Indexed, SignedData};
use cms_scalars::Octets;
use cms_tlv::{Fault, Reason};
use std::process::Abort;
use std::test::Fail;

/// A message and its parts, by their contents octets in hexadecimal.
struct Parts {
    name: &'static str,
    input: &'static str,
    version: &'static str,
    /// Each with its parameters, in the order read.
    digest_algorithms: &'static [(&'static str, Option<&'static str>)],
    content_type: &'static str,
    /// The pieces of the content, if it is attached.
    content: Option<&'static [&'static str]>,
}

const MESSAGES: &[Parts] = &[
    Parts {
        name: "smallest-signed-data",
        input: SMALLEST,
        version: "01",
        digest_algorithms: &[],
        content_type: "2a864886f70d010701",
        content: None,
    },
    Parts {
        name: "two-algorithms-reordered",
        input: "303906092a864886f70d010702a02c302a0201013116300b0609608648016503040201300706052b0e03021a300b06092a864886f70d0107013100",
        version: "01",
        digest_algorithms: &[("608648016503040201", None), ("2b0e03021a", None)],
        content_type: "2a864886f70d010701",
        content: None,
    },
    Parts {
        name: "absent-parameters-before-null-parameters",
        input: "303f06092a864886f70d010702a0323030020101311c300d06096086480165030402010500300b0609608648016503040201300b06092a864886f70d0107013100",
        version: "01",
        digest_algorithms: &[
            ("608648016503040201", Some("0500")),
            ("608648016503040201", None),
        ],
        content_type: "2a864886f70d010701",
        content: None,
    },
    Parts {
        name: "content-piece-of-a-whole-string",
        input: WHOLE_CONTENT,
        version: "01",
        digest_algorithms: &[],
        content_type: "2a864886f70d010701",
        content: Some(&["616263"]),
    },
    Parts {
        name: "content-pieces",
        input: SEGMENTED_CONTENT,
        version: "01",
        digest_algorithms: &[],
        content_type: "2a864886f70d010701",
        content: Some(&["6162", "63"]),
    },
    Parts {
        name: "content in nested segments of both forms",
        input: NESTED_CONTENT,
        version: "01",
        digest_algorithms: &[],
        content_type: "2a864886f70d010701",
        content: Some(&["61", "", "6263", "64"]),
    },
    Parts {
        name: "content without segments",
        input: "302706092a864886f70d010702a01a30180201013100300f06092a864886f70d010701a00224003100",
        version: "01",
        digest_algorithms: &[],
        content_type: "2a864886f70d010701",
        content: Some(&[]),
    },
];

fn assert_algorithm(
    rt: &(impl Abort + AllocGlobal),
    algorithm: &AlgorithmIdentifier<'_>,
    identifier: &str,
    parameters: Option<&str>,
    name: &str,
) -> Result<(), Fail> {
    assert_hex(rt, algorithm.algorithm().octets(), identifier, name)?;
    let given = algorithm.parameters();
    assert_same(rt, given.is_some(), parameters.is_some(), name);
    assert_hex(rt, given.unwrap_or(&[]), parameters.unwrap_or(""), name)
}

fn assert_algorithms(
    rt: &(impl Abort + AllocGlobal),
    signed_data: &SignedData<'_>,
    case: &Parts,
) -> Result<(), Fail> {
    let count = case.digest_algorithms.len() as u64;
    let algorithms = signed_data.digest_algorithms();
    assert_same(rt, algorithms.len(), count, case.name);
    let is_end = signed_data.digest_algorithm(count).is_none();
    assert_holds(rt, is_end, case.name);
    for (algorithm, (identifier, parameters)) in algorithms
        .into_iter()
        .zip(case.digest_algorithms)
    {
        assert_algorithm(rt, &algorithm, identifier, *parameters, case.name)?;
    }
    Ok(())
}

fn assert_pieces(
    rt: &(impl Abort + AllocGlobal),
    content: &Octets<'_>,
    pieces: &[&str],
    name: &str,
) -> Result<(), Fail> {
    assert_same(rt, content.pieces(), pieces.len() as u64, name);
    let is_end = content.piece(content.pieces()).is_none();
    assert_holds(rt, is_end, name);
    let mut total = 0u64;
    for (piece, want) in content.iter().zip(pieces) {
        total = total.saturating_add(piece.len() as u64);
        assert_hex(rt, piece, want, name)?;
    }
    assert_same(rt, content.total(), total, name);
    Ok(())
}

fn assert_content(
    rt: &(impl Abort + AllocGlobal),
    signed_data: &SignedData<'_>,
    case: &Parts,
) -> Result<(), Fail> {
    let content_type = signed_data.content_type();
    assert_hex(rt, content_type.octets(), case.content_type, case.name)?;
    let content = signed_data.content();
    assert_same(rt, content.is_some(), case.content.is_some(), case.name);
    if let (Some(content), Some(pieces)) = (content, case.content) {
        assert_pieces(rt, &content, pieces, case.name)?;
    }
    Ok(())
}

fn assert_signed_data(
    rt: &(impl Abort + AllocGlobal),
    signed_data: &SignedData<'_>,
    case: &Parts,
) -> Result<(), Fail> {
    let version = signed_data.version();
    assert_hex(rt, version.octets(), case.version, case.name)?;
    assert_algorithms(rt, signed_data, case)?;
    assert_content(rt, signed_data, case)
}

fn assert_parts(rt: &(impl Abort + AllocGlobal), case: &Parts) -> Result<(), Fail> {
    let message = message_of(rt.alloc(), case.input)?;
    assert_hex(rt, message.octets(), case.input, case.name)?;
    let View::Signed(content_info) = message.view() else {
        return Err("no signed message".into());
    };
    let content_type = content_info.content_type();
    assert_hex(rt, content_type.octets(), "2a864886f70d010702", case.name)?;
    assert_signed_data(rt, &content_info.signed_data(), case)
}

#[test]
fn parts_of_messages(rt: HostRuntime) -> Result<(), Fail> {
    for case in MESSAGES {
        assert_parts(&rt, case)?;
    }
    Ok(())
}

/// A message with content in segments is put with the content in one piece, after what was there before.
#[test]
fn message_put(rt: HostRuntime) -> Result<(), Fail> {
    let message = message_of(rt.alloc(), SEGMENTED_CONTENT)?;
    let mut out = Vec::from_slice(rt.alloc(), b"abc")?;
    put_message(rt.alloc(), &message, &mut out)?;
    let (before, put) = out.split_at(out.len().min(3));
    assert_same(&rt, before, b"abc", "what was there");
    assert_hex(&rt, put, WHOLE_CONTENT, "what is put")
}

/// A message put into a slice: one that is longer, one of its very length, and one that is too short.
#[test]
fn message_put_into(rt: HostRuntime) -> Result<(), Fail> {
    let message = message_of(rt.alloc(), SEGMENTED_CONTENT)?;
    let der = hex::decode(rt.alloc(), WHOLE_CONTENT)?;
    for room in [der.len() + 2, der.len(), der.len() - 1] {
        let mut octets = vec![in rt.alloc(); 0xff; room]?;
        let written = put_into(rt.alloc(), &message, &mut octets)?;
        assert_same(&rt, written, der.len() as u64, "how many octets");
        let put = if room < der.len() { 0 } else { der.len() };
        let (before, after) = octets.split_at(put.min(octets.len()));
        let is_put = der.as_slice().starts_with(before) && after.iter().all(|octet| *octet == 0xff);
        assert_same(&rt, is_put, true, "the octets");
    }
    Ok(())
}

/// A message in hexadecimal, its kind, and whether there is SignedData in it.
const KINDS: &[(&str, &str, bool)] = &[
    (SMALLEST, "signed", true),
    (
        "30360201013031300d060960864801650304020105000420ba7816bf8f01cfea414140de5dae2223b00361a396177a9cb410ff61f20015ad",
        "request",
        false,
    ),
    ("30053003020102", "response", false),
    (
        "302a3003020100302306092a864886f70d010702a01630140201013100300b06092a864886f70d0107013100",
        "response",
        true,
    ),
];

fn kind_of(view: &View<'_>) -> &'static str {
    match view {
        View::Signed(_) => "signed",
        View::Request(_) => "request",
        View::Response(_) => "response",
    }
}

#[test]
fn kinds_of_messages(rt: HostRuntime) -> Result<(), Fail> {
    for (input, kind, is_signed) in KINDS {
        let message = message_of(rt.alloc(), input)?;
        assert_same(&rt, kind_of(&message.view()), *kind, input);
        let has_signed_data = message.signed_data().is_some();
        assert_same(&rt, has_signed_data, *is_signed, input);
    }
    Ok(())
}

const REASONS: &[(u8, &str, Reason)] = &[
    (1, "Truncated", Reason::Truncated),
    (2, "TooLarge", Reason::TooLarge),
    (3, "LengthReserved", Reason::LengthReserved),
    (4, "LengthTooLong", Reason::LengthTooLong),
    (5, "IndefinitePrimitive", Reason::IndefinitePrimitive),
    (6, "Overrun", Reason::Overrun),
    (7, "UnexpectedElement", Reason::UnexpectedElement),
    (8, "IntegerMalformed", Reason::IntegerMalformed),
    (9, "OidMalformed", Reason::OidMalformed),
    (10, "BooleanMalformed", Reason::BooleanMalformed),
    (11, "BitsMalformed", Reason::BitsMalformed),
    (12, "SegmentsTooDeep", Reason::SegmentsTooDeep),
    (13, "OpaqueNotDer", Reason::OpaqueNotDer),
    (14, "OpaqueTooDeep", Reason::OpaqueTooDeep),
    (15, "SignedAttrsNotDer", Reason::SignedAttrsNotDer),
    (16, "EmptyAttributes", Reason::EmptyAttributes),
    (17, "NotSignedData", Reason::NotSignedData),
    (18, "Trailing", Reason::Trailing),
    (19, "CountersignTooDeep", Reason::CountersignTooDeep),
];

#[test]
fn reasons(rt: HostRuntime) {
    for (number, name, reason) in REASONS {
        assert_same(&rt, reason.number(), *number, name);
        assert_same(&rt, reason.name(), *name, "the name");
    }
}

#[test]
fn texts_of_faults(rt: HostRuntime) -> Result<(), Fail> {
    let first = Fault::Refused {
        reason: Reason::Truncated,
        at: 0,
    };
    let last = Fault::Refused {
        reason: Reason::Trailing,
        at: 38,
    };
    let texts = [
        (first, "refused E1 Truncated at 0"),
        (last, "refused E18 Trailing at 38"),
        (Fault::Read, "read fault"),
        (Fault::Write { written: 5 }, "write fault after 5"),
        (Fault::OutOfMemory, "out of memory"),
    ];
    for (fault, want) in texts {
        let text = fault.to_string(rt.alloc())?;
        assert_same(&rt, text.as_str(), want, "the text");
    }
    Ok(())
}
