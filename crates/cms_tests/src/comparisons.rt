//! Messages that are the same and that are not, and the rules that each kind of message breaks.
use crate::asserts::assert_same;
use crate::failing::{FAILURES, Remaining, buffered, slow};
use crate::samples::{
    LIMIT, NESTED_CONTENT, SEGMENTED_CONTENT, SIGNED, SMALLEST, SMALLEST_REQUEST, WHOLE_CONTENT,
    both, message_of,
};
use cms_canon::{
    SameFault, Tail, View, check_message, listing, read_rest, same, same_as, same_messages,
};
use cms_check::{Finding, Given, Job, Verdict, Verifier, check_request, check_response};
use cms_tlv::{Fault, Reason, Slice};
use std::alloc::Global;
use std::io::ErrorKind;
use std::process::Abort;
use std::test::Fail;

/// Two messages, and whether they are the same.
const PAIRS: &[(&str, &str, bool)] = &[
    (WHOLE_CONTENT, SEGMENTED_CONTENT, true),
    (WHOLE_CONTENT, NESTED_CONTENT, false),
    (WHOLE_CONTENT, SMALLEST, false),
    (SMALLEST_REQUEST, SMALLEST_REQUEST, true),
    (SMALLEST_REQUEST, SMALLEST, false),
    // DER of equal length.
    (
        SMALLEST,
        "302306092a864886f70d010702a01630140201023100300b06092a864886f70d0107013100",
        false,
    ),
];

#[test]
fn pairs_of_messages(rt: HostRuntime) -> Result<(), Fail> {
    for (first, second, is_same) in PAIRS {
        let one = message_of(rt.alloc(), first)?;
        let other = message_of(rt.alloc(), second)?;
        let compared = same_messages(rt.alloc(), &one, &other)?;
        assert_same(&rt, compared, *is_same, first);
        let (one, other) = both(rt.alloc(), first, second)?;
        let (_, _, read) = same(rt.alloc(), Slice::new(&one), Slice::new(&other), LIMIT);
        assert_same(&rt, read, Ok(*is_same), first);
    }
    Ok(())
}

/// A reader has these octets left.
fn assert_left(
    rt: &(impl Abort + AllocGlobal),
    reader: Slice<'_>,
    octets: &[u8],
    what: &str,
) -> Result<(), Fail> {
    let (_, rest) = read_rest(rt.alloc(), reader, LIMIT);
    assert_same(rt, rest?.as_slice(), octets, what);
    Ok(())
}

/// What follows a message stays unread, and nothing is taken from the second reader after a fault of the
/// first.
#[test]
fn readers_after_a_comparison(rt: HostRuntime) -> Result<(), Fail> {
    let (message, cut) = both(rt.alloc(), SMALLEST, "3023")?;
    let followed = [message.as_slice(), b"!"].concat(rt.alloc())?;
    let (first, second, compared) = same(
        rt.alloc(),
        Slice::new(&followed),
        Slice::new(&followed),
        LIMIT,
    );
    assert_same(&rt, compared, Ok(true), "two messages");
    assert_left(&rt, first, b"!", "the first reader")?;
    assert_left(&rt, second, b"!", "the second reader")?;
    let truncated = Fault::Refused {
        reason: Reason::Truncated,
        at: 2,
    };
    let (_, second, compared) = same(rt.alloc(), Slice::new(&cut), Slice::new(&message), LIMIT);
    assert_same(
        &rt,
        compared,
        Err(SameFault::First(truncated)),
        "a cut first",
    );
    assert_left(&rt, second, &message, "the reader of the second")?;
    let (_, _, compared) = same(rt.alloc(), Slice::new(&message), Slice::new(&cut), LIMIT);
    assert_same(
        &rt,
        compared,
        Err(SameFault::Second(truncated)),
        "a cut second",
    );
    Ok(())
}

/// A message is compared with one that a reader has: the same in other forms, another, and one that is cut.
#[test]
fn comparisons_with_a_message(rt: HostRuntime) -> Result<(), Fail> {
    let first = message_of(rt.alloc(), WHOLE_CONTENT)?;
    let truncated = Fault::Refused {
        reason: Reason::Truncated,
        at: 2,
    };
    let cases = [
        (SEGMENTED_CONTENT, Ok(true)),
        (SMALLEST, Ok(false)),
        ("3023", Err(SameFault::Second(truncated))),
    ];
    for (second, want) in cases {
        let octets = hex::decode(rt.alloc(), second)?;
        let (_, came) = same_as(rt.alloc(), &first, Slice::new(&octets), LIMIT, Tail::Refuse);
        assert_same(&rt, came, want, second);
    }
    Ok(())
}

/// What a comparison returns, and how many octets the readers have left.
fn compared<R: Remaining, S: Remaining>(
    alloc: Global,
    first: R,
    second: S,
) -> (Result<bool, SameFault>, usize, usize) {
    let (first, second, compared) = same(alloc, first, second, LIMIT);
    (compared, first.remaining(), second.remaining())
}

/// Two readers of a message, of which the first fails after it gave so many octets, and the other way round.
fn assert_readers_fail(rt: &(impl Abort + AllocGlobal), octets: &[u8], room: usize) {
    let remaining = octets.len().saturating_sub(room);
    for failure in FAILURES {
        let fails = slow(octets, room, failure);
        let reads = slow(octets, usize::MAX, failure);
        let want = (Err(SameFault::First(Fault::Read)), remaining, octets.len());
        assert_same(rt, compared(rt.alloc(), fails, reads), want, "the first");
        let fails = slow(octets, room, failure);
        let reads = slow(octets, usize::MAX, failure);
        let want = (Err(SameFault::Second(Fault::Read)), 0, remaining);
        assert_same(rt, compared(rt.alloc(), reads, fails), want, "the second");
    }
}

/// Comparisons by readers with a small buffer.
fn assert_buffers_fail(
    rt: &(impl Abort + AllocGlobal),
    octets: &[u8],
    room: usize,
) -> Result<(), Fail> {
    let remaining = octets.len().saturating_sub(room);
    for failure in FAILURES {
        let fails = buffered(rt.alloc(), octets, room, failure)?;
        let reads = buffered(rt.alloc(), octets, usize::MAX, failure)?;
        let want = (Err(SameFault::First(Fault::Read)), remaining, octets.len());
        assert_same(rt, compared(rt.alloc(), fails, reads), want, "the first");
        let fails = buffered(rt.alloc(), octets, room, failure)?;
        let reads = slow(octets, usize::MAX, failure);
        let want = (Err(SameFault::Second(Fault::Read)), 0, remaining);
        assert_same(rt, compared(rt.alloc(), reads, fails), want, "the second");
    }
    Ok(())
}

/// A read of either reader that fails is reported and not tried again, and nothing more is taken. If it is one
/// of the first reader, nothing is taken from the second. Neither is asked for more after its message.
#[test]
fn failing_readers_of_two_messages(rt: HostRuntime) -> Result<(), Fail> {
    for text in [SEGMENTED_CONTENT, SMALLEST_REQUEST] {
        let octets = hex::decode(rt.alloc(), text)?;
        for room in 0..octets.len() {
            assert_readers_fail(&rt, &octets, room);
            assert_buffers_fail(&rt, &octets, room)?;
        }
        let first = slow(&octets, octets.len(), ErrorKind::Other);
        let second = slow(&octets, octets.len(), ErrorKind::Other);
        let came = compared(rt.alloc(), first, second);
        assert_same(&rt, came, (Ok(true), 0, 0), "readers that fail after them");
    }
    Ok(())
}

/// A verifier that says Bad of every signature.
#[derive(Drop)]
struct Never;

impl Verifier for Never {
    ghost use Rattle.cms_check.specs.declared.verifier.Verdict.TheVariants.{Bad};

    ghost answer = { λ v job. Bad };

    fn verify(&self, _: &Job<'_>) -> Verdict {
        Verdict::Bad
    }
}

const GRANTED_WITHOUT_TOKEN: &str = "30053003020100";

const REJECTED_WITH_TOKEN: &str =
    "302a3003020102302306092a864886f70d010702a01630140201013100300b06092a864886f70d0107013100";

/// Requests and responses alone.
#[test]
fn findings_on_records(rt: HostRuntime) -> Result<(), Fail> {
    let request = message_of(rt.alloc(), SMALLEST_REQUEST)?;
    let response = message_of(rt.alloc(), GRANTED_WITHOUT_TOKEN)?;
    let (View::Request(request), View::Response(response)) = (request.view(), response.view())
    else {
        return Err("no request, or no response".into());
    };
    let report = check_request(rt.alloc(), &request, Some(b"abd"))?;
    assert_same(&rt, report.findings().len(), 1, "a request for other data");
    let report = check_response(rt.alloc(), &response, &Given::default(), &Never)?;
    assert_same(
        &rt,
        report.findings().len(),
        1,
        "a response without its token",
    );
    Ok(())
}

/// A message, the data that were time-stamped, and the rules that it breaks.
const CHECKED: &[(&str, Option<&[u8]>, &[(u8, Option<u64>)])] = &[
    (SIGNED, None, &[(17, Some(0))]),
    (SIGNED, Some(b"abc"), &[(11, None), (17, Some(0))]),
    (SMALLEST_REQUEST, None, &[]),
    (SMALLEST_REQUEST, Some(b"abc"), &[]),
    (SMALLEST_REQUEST, Some(b"abd"), &[(14, None)]),
    (GRANTED_WITHOUT_TOKEN, None, &[(19, None)]),
    (
        GRANTED_WITHOUT_TOKEN,
        Some(b"abc"),
        &[(11, None), (19, None)],
    ),
    (
        REJECTED_WITH_TOKEN,
        None,
        &[(9, None), (11, None), (19, None)],
    ),
];

#[test]
fn findings_on_each_kind(rt: HostRuntime) -> Result<(), Fail> {
    for (input, stamped, wanted) in CHECKED {
        let message = message_of(rt.alloc(), input)?;
        let report = check_message(rt.alloc(), &message, None, *stamped, &Never)?;
        let mut findings = Vec::new(rt.alloc());
        for Finding { code, signer } in report.findings() {
            findings.push((*code, *signer))?;
        }
        assert_same(&rt, findings.as_slice(), *wanted, input);
    }
    Ok(())
}

#[test]
fn listing_of_a_message(rt: HostRuntime) -> Result<(), Fail> {
    let message = message_of(rt.alloc(), GRANTED_WITHOUT_TOKEN)?;
    let text = listing(rt.alloc(), &message)?;
    let wanted =
        "kind: response\nstatus: 0\nstatus-string: absent\nfail-info: absent\ntoken: absent\n";
    assert_same(&rt, text.as_str(), wanted, "the listing of a response");
    Ok(())
}
