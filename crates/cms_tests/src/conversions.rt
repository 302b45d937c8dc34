//! Whole messages: limits, and what follows a message.
use crate::asserts::{assert_holds, assert_same};
use crate::converted::{Expected, assert_converted};
use crate::samples::{LIMIT, SMALLEST, both};
use cms_canon::Tail;
use cms_tlv::{Input, MAX_LIMIT, Reason, Slice};
use std::process::Abort;
use std::test::Fail;

/// A message under a limit, and its DER; or why it is refused, and where.
struct Limited {
    name: &'static str,
    input: &'static str,
    limit: u64,
    tails: &'static [Tail],
    want: Result<&'static str, (Reason, u64)>,
}

/// The smallest message, and one octet after it.
const FOLLOWED: &str =
    "302306092a864886f70d010702a01630140201013100300b06092a864886f70d010701310000";

const BOTH: &[Tail] = &[Tail::Leave, Tail::Refuse];

const LIMITED: &[Limited] = &[
    Limited {
        name: "limit-is-the-length",
        input: SMALLEST,
        limit: 37,
        tails: BOTH,
        want: Ok(SMALLEST),
    },
    Limited {
        name: "limit-one-less-than-the-length",
        input: SMALLEST,
        limit: 36,
        tails: BOTH,
        want: Err((Reason::TooLarge, 2)),
    },
    Limited {
        name: "octet-after-the-message",
        input: FOLLOWED,
        limit: LIMIT,
        tails: &[Tail::Refuse],
        want: Err((Reason::Trailing, 38)),
    },
    Limited {
        name: "octet-after-the-message-left",
        input: FOLLOWED,
        limit: LIMIT,
        tails: &[Tail::Leave],
        want: Ok(SMALLEST),
    },
    Limited {
        name: "no-input-and-no-room",
        input: "",
        limit: 0,
        tails: BOTH,
        want: Err((Reason::TooLarge, 0)),
    },
    Limited {
        name: "no-room-for-the-length",
        input: "30",
        limit: 1,
        tails: BOTH,
        want: Err((Reason::TooLarge, 1)),
    },
    Limited {
        name: "definite-end-at-the-limit",
        input: "300106",
        limit: 3,
        tails: BOTH,
        want: Err((Reason::Overrun, 3)),
    },
    Limited {
        name: "missing-element-at-the-limit",
        input: "3000",
        limit: 2,
        tails: BOTH,
        want: Err((Reason::UnexpectedElement, 2)),
    },
    Limited {
        name: "element-due-at-the-limit",
        input: "3080",
        limit: 2,
        tails: BOTH,
        want: Err((Reason::TooLarge, 2)),
    },
    Limited {
        name: "end-of-contents-cut-by-the-limit",
        input: "30800000",
        limit: 3,
        tails: BOTH,
        want: Err((Reason::TooLarge, 3)),
    },
    Limited {
        name: "cut-at-the-limit",
        input: "308006092a864886f70d010702a0803080020101",
        limit: 20,
        tails: BOTH,
        want: Err((Reason::TooLarge, 20)),
    },
    Limited {
        name: "octet-after-the-message-at-the-limit",
        input: FOLLOWED,
        limit: 37,
        tails: &[Tail::Refuse],
        want: Err((Reason::Trailing, 38)),
    },
];

/// A message under a limit, and what the reader has left after it.
fn assert_limited(
    rt: &(impl Abort + AllocGlobal),
    case: &Limited,
    tail: Tail,
    input: &[u8],
    output: &[u8],
) {
    let want = match case.want {
        Ok(_) => Expected::done(output.len(), output),
        Err((reason, at)) => Expected::refused(reason, at),
    };
    assert_holds(rt, case.limit <= MAX_LIMIT, case.name);
    let slice = Slice::new(input);
    let reader = assert_converted(rt, slice, case.limit, tail, &want, case.name);
    if case.want.is_ok() {
        assert_left(rt, reader, input.get(output.len()..), case.name);
    }
}

/// Conversions under each tail.
fn assert_under_tails(rt: &(impl Abort + AllocGlobal), case: &Limited) -> Result<(), Fail> {
    let (input, output) = both(rt.alloc(), case.input, case.want.unwrap_or(""))?;
    for tail in case.tails {
        assert_limited(rt, case, *tail, &input, &output);
    }
    Ok(())
}

/// What a reader has left, which is little.
fn assert_left(rt: &impl Abort, mut reader: Slice<'_>, want: Option<&[u8]>, name: &str) {
    let mut after = [0u8; 4];
    let n = reader.take(&mut after).unwrap_or(0);
    assert_same(rt, after.get(..n), want, name);
}

#[test]
fn limits_and_tails(rt: HostRuntime) -> Result<(), Fail> {
    for case in LIMITED {
        assert_under_tails(&rt, case)?;
    }
    Ok(())
}
