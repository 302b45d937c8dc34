//! Messages with much content: their limits, and in which pieces the content is asked for.
ghost use Rattle.std.specs.Prelude.{◌≤◌};

use crate::asserts::{assert_holds, assert_same};
use crate::converted::{Expected, assert_converted};
use crate::samples::LIMIT;
use crate::streams::{Counting, Endless};
use cms_canon::{Tail, read_message};
use cms_tlv::{Fault, MAX_LIMIT, Reason, Slice, Watched};
use hex::FromHexError;
use std::alloc::{AllocError, Global};
use std::process::Abort;
use std::test::Fail;

/// What is around the content of a message, in hexadecimal.
#[derive(Clone, Copy)]
struct Around {
    before: &'static str,
    after: &'static str,
}

/// How many octets the content has.
const CONTENT: usize = 65_536;

/// What is before the content if lengths are indefinite.
const BEFORE: &str =
    "308006092a864886f70d010702a08030800201013100308006092a864886f70d010701a0800483010000";

const INDEFINITE: Around = Around {
    before: BEFORE,
    after: "000000003100000000000000",
};

/// What is around the content of a message, and one octet after the message.
const FOLLOWED: Around = Around {
    before: BEFORE,
    after: "00000000310000000000000000",
};

/// The message in DER.
const DER: Around = Around {
    before: "308301003606092a864886f70d010702a08301002630830100210201013100308301001506092a864886f70d010701a0830100050483010000",
    after: "3100",
};

/// A message under a limit, and how many octets of it are read; or why it is refused, and where.
struct Limited {
    name: &'static str,
    input: &'static Around,
    limit: u64,
    want: Result<usize, (Reason, u64)>,
}

/// The limits around the length of the message and that of its DER.
const LIMITED: &[Limited] = &[
    Limited {
        name: "content-of-65536-octets",
        input: &INDEFINITE,
        limit: LIMIT,
        want: Ok(65_590),
    },
    Limited {
        name: "canonical-octets-fit-exactly",
        input: &INDEFINITE,
        limit: 65_595,
        want: Ok(65_590),
    },
    Limited {
        name: "canonical-octets-are-accepted-at-that-limit",
        input: &DER,
        limit: 65_595,
        want: Ok(65_595),
    },
    Limited {
        name: "canonical-octets-pass-limit-65594",
        input: &INDEFINITE,
        limit: 65_594,
        want: Err((Reason::TooLarge, 65_590)),
    },
    Limited {
        name: "canonical-octets-pass-limit-65593",
        input: &INDEFINITE,
        limit: 65_593,
        want: Err((Reason::TooLarge, 65_590)),
    },
    Limited {
        name: "canonical-octets-pass-limit-65592",
        input: &INDEFINITE,
        limit: 65_592,
        want: Err((Reason::TooLarge, 65_590)),
    },
    Limited {
        name: "canonical-octets-pass-limit-65591",
        input: &INDEFINITE,
        limit: 65_591,
        want: Err((Reason::TooLarge, 65_590)),
    },
    Limited {
        name: "canonical-octets-pass-limit-65590",
        input: &INDEFINITE,
        limit: 65_590,
        want: Err((Reason::TooLarge, 65_590)),
    },
    Limited {
        name: "octets-after-the-message-canonical-too-long",
        input: &FOLLOWED,
        limit: 65_590,
        want: Err((Reason::TooLarge, 65_590)),
    },
    Limited {
        name: "limit-one-less-than-the-long-message",
        input: &INDEFINITE,
        limit: 65_589,
        want: Err((Reason::TooLarge, 65_589)),
    },
];

/// The octets of a message.
fn octets_of(alloc: Global, around: &Around) -> Result<Vec<u8>, FromHexError> {
    let mut octets = hex::decode(alloc, around.before)?;
    put_content(alloc, &mut octets)?;
    put_hex(alloc, around.after, &mut octets)?;
    Ok(octets)
}

fn put_content(alloc: Global, octets: &mut Vec<u8>) -> Result<(), AllocError> {
    let content = vec![in alloc; 0x61; CONTENT]?;
    octets.extend_from_slice(&content)
}

fn put_hex(alloc: Global, text: &str, octets: &mut Vec<u8>) -> Result<(), FromHexError> {
    let more = hex::decode(alloc, text)?;
    octets.extend_from_slice(&more)?;
    Ok(())
}

fn assert_limited(
    rt: &(impl Abort + AllocGlobal),
    case: &Limited,
    output: &[u8],
) -> Result<(), Fail> {
    assert_holds(rt, case.limit <= MAX_LIMIT, case.name);
    let input = octets_of(rt.alloc(), case.input)?;
    let want = match case.want {
        Ok(read) => Expected::done(read, output),
        Err((reason, at)) => Expected::refused(reason, at),
    };
    let slice = Slice::new(&input);
    assert_converted(rt, slice, case.limit, Tail::Refuse, &want, case.name);
    Ok(())
}

#[test]
fn limits_of_long_content(rt: HostRuntime) -> Result<(), Fail> {
    let output = octets_of(rt.alloc(), &DER)?;
    for case in LIMITED {
        assert_limited(&rt, case, &output)?;
    }
    Ok(())
}

/// The content is asked for in 8 calls of at most 8,192 octets, and each octet after it in one.
#[test]
fn calls_for_content(rt: HostRuntime) -> Result<(), Fail> {
    let input = octets_of(rt.alloc(), &INDEFINITE)?;
    let before = INDEFINITE.before.len() / 2;
    let after = INDEFINITE.after.len() / 2;
    let reader = Watched::new(Counting::new(&input, before));
    let (reader, message) = read_message(rt.alloc(), reader, LIMIT, Tail::Leave);
    assert_holds(&rt, message.is_ok(), "the message is read");
    let reader = reader.into_inner();
    let calls = reader.calls.checked_sub(after as u64);
    assert_same(&rt, calls, Some(8), "calls for the content");
    assert_same(&rt, reader.most, 8192, "the most octets asked for");
    Ok(())
}

/// A message whose content is a string of segments that has not ended.
const UNENDED: &str =
    "308006092a864886f70d010702a08030800201013100308006092a864886f70d010701a0802480";

/// Why a message with such segments is refused under a limit.
fn refusal_of_endless(alloc: Global, begin: &[u8], limit: u64) -> Option<Fault>
    requires { limit ≤ MAX_LIMIT }
{
    let reader = Watched::new(Endless::new(begin, b"\x04\x01\x61"));
    let (_, message) = read_message(alloc, reader, limit, Tail::Refuse);
    message.err()
}

/// Segments without end are read up to the limit: it lies at the end of a segment, or inside one.
#[test]
fn endless_segments(rt: HostRuntime) -> Result<(), Fail> {
    let begin = hex::decode(rt.alloc(), UNENDED)?;
    for limit in [998, 999, 1000] {
        assert_holds(
            &rt,
            limit <= MAX_LIMIT,
            "the limit is no more than the most",
        );
        let refusal = refusal_of_endless(rt.alloc(), &begin, limit);
        let want = Fault::Refused {
            reason: Reason::TooLarge,
            at: limit,
        };
        assert_same(&rt, refusal, Some(want), "under the limit");
    }
    Ok(())
}
