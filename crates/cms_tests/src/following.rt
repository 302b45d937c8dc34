//! Checks by what a reader has: detached content, or data that were time-stamped.
use crate::asserts::{assert_holds, assert_same};
use crate::digests_given::{NO_CONTENT, RESPONSE, TOKEN};
use crate::failing::{FAILURES, Remaining, slow};
use crate::samples::{LIMIT, MIXED, SIGNED, SMALLEST_REQUEST, TWO_SIGNERS, message_of};
use crate::streams::Ended;
use cms_canon::{
    Message, asked_of_content, asked_of_data, check_content_from, check_data_from, check_message,
    check_message_digests, digests_from, needs_content,
};
use cms_check::{Finding, HashAlg, NoVerifier, Report, digest};
use cms_tlv::{Fault, Input, MAX_LIMIT, Reason, Slice, Watched};
use std::alloc::{AllocError, Global};
use std::io::ErrorKind;
use std::process::Abort;
use std::test::Fail;

fn findings_of<E>(report: &Result<Report, E>) -> Option<&[Finding]> {
    match report {
        Ok(report) => Some(report.findings()),
        Err(_) => None,
    }
}

/// A content is checked as it is read, as it is in one piece.
fn assert_content(
    rt: &(impl Abort + AllocGlobal),
    message: &Message,
    content: &[u8],
) -> Result<(), Fail> {
    let wanted = check_message(rt.alloc(), message, Some(content), None, &NoVerifier);
    let (_, came) = check_content_from(rt.alloc(), message, Slice::new(content), LIMIT);
    assert_holds(rt, came.is_ok(), "a report");
    assert_same(rt, findings_of(&came), findings_of(&wanted), "findings");
    Ok(())
}

/// Data that follow a message are checked as they are read, as they are in one piece.
fn assert_data(
    rt: &(impl Abort + AllocGlobal),
    message: &Message,
    octets: &[u8],
) -> Result<(), Fail> {
    let wanted = check_message(rt.alloc(), message, None, Some(octets), &NoVerifier);
    let (_, came) = check_data_from(rt.alloc(), message, Slice::new(octets), LIMIT);
    assert_holds(rt, came.is_ok(), "a report");
    assert_same(rt, findings_of(&came), findings_of(&wanted), "findings");
    Ok(())
}

/// So many octets.
fn octets(alloc: Global, count: usize) -> Result<Vec<u8>, AllocError> {
    vec![in alloc; 0x61; count]
}

#[test]
fn checked_as_it_is_read(rt: HostRuntime) -> Result<(), Fail> {
    let long = octets(rt.alloc(), 20_000)?;
    for input in [
        MIXED,
        SIGNED,
        TWO_SIGNERS,
        NO_CONTENT,
        TOKEN,
        RESPONSE,
        SMALLEST_REQUEST,
    ] {
        let message = message_of(rt.alloc(), input)?;
        for octets in [b"abc".as_slice(), b"", &long] {
            assert_content(&rt, &message, octets)?;
            assert_data(&rt, &message, octets)?;
        }
    }
    Ok(())
}

#[test]
fn digests_that_messages_ask_for(rt: HostRuntime) -> Result<(), Fail> {
    for (input, content, stamped, needs) in [
        (MIXED, Some(HashAlg::Sha256), None, false),
        (SIGNED, None, None, false),
        (NO_CONTENT, None, None, true),
        (TOKEN, None, Some(HashAlg::Sha256), false),
        (RESPONSE, None, Some(HashAlg::Sha256), false),
        (SMALLEST_REQUEST, None, Some(HashAlg::Sha256), false),
    ] {
        let message = message_of(rt.alloc(), input)?;
        let asked = asked_of_content(rt.alloc(), &message)?;
        assert_same(&rt, asked.as_slice(), content.as_slice(), input);
        let asked = asked_of_data(rt.alloc(), &message)?;
        assert_same(&rt, asked, stamped, input);
        assert_same(&rt, needs_content(&message), needs, input);
    }
    Ok(())
}

/// The reader after the call, and whether there is a report.
fn checked<R: Input>(
    alloc: Global,
    message: &Message,
    reader: R,
    limit: u64,
) -> (R, Result<(), Fault>) {
    let (reader, report) = check_content_from(alloc, message, reader, limit.min(MAX_LIMIT));
    (reader, report.map(|_| ()))
}

const SHORT: &[u8] = b"0123456789";

/// A read that fails is reported and not tried again. Nothing more is taken.
#[test]
fn failing_reads_of_content(rt: HostRuntime) -> Result<(), Fail> {
    for input in [MIXED, NO_CONTENT] {
        let message = message_of(rt.alloc(), input)?;
        for failure in FAILURES {
            for room in 0..SHORT.len() + 1 {
                let reader = slow(SHORT, room, failure);
                let (reader, report) = checked(rt.alloc(), &message, reader, 10);
                assert_same(&rt, (room, report), (room, Err(Fault::Read)), "a report");
                let left = reader.remaining();
                assert_same(&rt, (room, left), (room, SHORT.len() - room), "left");
            }
        }
    }
    Ok(())
}

/// One octet more than the limit is taken, and not a second one.
#[test]
fn content_longer_than_the_limit(rt: HostRuntime) -> Result<(), Fail> {
    let wanted = Err(Fault::Refused {
        reason: Reason::TooLarge,
        at: 9,
    });
    let message = message_of(rt.alloc(), MIXED)?;
    let reader = slow(SHORT, usize::MAX, ErrorKind::Other);
    let (reader, report) = checked(rt.alloc(), &message, reader, 8);
    assert_same(&rt, report, wanted, "a report");
    assert_same(&rt, reader.remaining(), 1, "left");
    Ok(())
}

/// An input that has ended is not asked again.
#[test]
fn digests_of_an_ended_input(rt: HostRuntime) -> Result<(), Fail> {
    let algorithm = HashAlg::Sha512;
    for cut in 0..SHORT.len() {
        let (front, others) = SHORT.split_at(cut);
        let reader = Watched::new(Ended::new(front, others));
        let (reader, digests) = digests_from(rt.alloc(), reader, &[algorithm], LIMIT);
        let came = digests?.by(algorithm);
        assert_same(&rt, came, Some(digest(algorithm, &[front])), "a digest");
        assert_same(&rt, reader.into_inner().others(), others, "what is left");
    }
    Ok(())
}

#[test]
fn message_by_digests(rt: HostRuntime) -> Result<(), Fail> {
    let message = message_of(rt.alloc(), MIXED)?;
    let (_, digests) = digests_from(rt.alloc(), Slice::new(b"abc"), &[HashAlg::Sha256], LIMIT);
    let digests = digests?;
    let came = check_message_digests(rt.alloc(), &message, Some(&digests), None);
    let wanted = check_message(rt.alloc(), &message, Some(b"abc"), None, &NoVerifier);
    assert_holds(&rt, came.is_ok(), "a report");
    assert_same(&rt, findings_of(&came), findings_of(&wanted), "findings");
    Ok(())
}
