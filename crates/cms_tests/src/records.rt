//! Records of whole messages, read after their header.
use crate::asserts::assert_same;
use crate::samples::{LIMIT, REQUEST, SEGMENTED_CONTENT};
use crate::streams::Reluctant;
use cms_message::{ContentInfo, ContentInfoSpans, read_content_info};
use cms_tlv::{Bound, Fault, Input, Reason, SEQUENCE, Source, Watched};
use cms_tsp::{
    TimeStampReq, TimeStampReqSpans, TimeStampResp, TimeStampRespSpans, read_request, read_response,
};
use std::alloc::Global;
use std::io::ErrorKind;
use std::process::Abort;
use std::test::Fail;

/// How many octets the readers give at a time.
const AT_A_TIME: &[usize] = &[1, 7, 4096];

/// A response with a status, no text, and one bit of failInfo.
const RESPONSE: &str = "30803080020102030207800000000000";

fn source(alloc: Global, octets: &[u8], at_a_time: usize) -> Source<Watched<Reluctant<'_>>> {
    let reader = Reluctant::new(octets, at_a_time, usize::MAX, ErrorKind::Other);
    Source::new(alloc, Watched::new(reader), LIMIT)
}

fn content_info<R: Input>(source: &mut Source<R>) -> Result<ContentInfoSpans, Fault> {
    let inner = source.enter(&Bound::top(), SEQUENCE)?;
    read_content_info(source, inner)
}

fn request<R: Input>(source: &mut Source<R>) -> Result<TimeStampReqSpans, Fault> {
    let inner = source.enter(&Bound::top(), SEQUENCE)?;
    read_request(source, inner)
}

fn response<R: Input>(source: &mut Source<R>) -> Result<TimeStampRespSpans, Fault> {
    let inner = source.enter(&Bound::top(), SEQUENCE)?;
    read_response(source, inner)
}

/// How many octets the content has, and whether it is of the type id-data.
fn content_of(alloc: Global, octets: &[u8], at_a_time: usize) -> Result<(u64, bool), Fault> {
    let mut source = source(alloc, octets, at_a_time);
    let spans = content_info(&mut source);
    let (_, kept) = source.finish();
    let spans = spans?;
    let signed_data = ContentInfo::new(&spans.0, &kept).signed_data();
    let total = signed_data.content().map_or(0, |it| it.total());
    Ok((total, signed_data.is_data()))
}

/// The nonce.
fn nonce_of(alloc: Global, octets: &[u8], at_a_time: usize) -> Result<Option<u64>, Fault> {
    let mut source = source(alloc, octets, at_a_time);
    let spans = request(&mut source);
    let (_, kept) = source.finish();
    let spans = spans?;
    let nonce = TimeStampReq::new(&spans.0, &kept).nonce();
    Ok(nonce.and_then(|it| it.to_u64()))
}

/// The status.
fn status_of(alloc: Global, octets: &[u8], at_a_time: usize) -> Result<Option<u64>, Fault> {
    let mut source = source(alloc, octets, at_a_time);
    let spans = response(&mut source);
    let (_, kept) = source.finish();
    let spans = spans?;
    let status_info = TimeStampResp::new(&spans.0, &kept).status_info();
    Ok(status_info.status().to_u64())
}

/// Content of another type than id-data.
const TOKEN_TYPE: &str =
    "302506092a864886f70d010702a01830160201013100300d060b2a864886f70d01091001043100";

#[test]
fn content_infos(rt: HostRuntime) -> Result<(), Fail> {
    let data = hex::decode(rt.alloc(), SEGMENTED_CONTENT)?;
    let token = hex::decode(rt.alloc(), TOKEN_TYPE)?;
    let other = hex::decode(rt.alloc(), "300d06092a864886f70d010701a000")?;
    let not_signed = Fault::Refused {
        reason: Reason::NotSignedData,
        at: 13,
    };
    for at_a_time in AT_A_TIME {
        let content = content_of(rt.alloc(), &data, *at_a_time);
        assert_same(&rt, content, Ok((3, true)), "data");
        let content = content_of(rt.alloc(), &token, *at_a_time);
        assert_same(&rt, content, Ok((0, false)), "a token");
        let content = content_of(rt.alloc(), &other, *at_a_time);
        assert_same(&rt, content, Err(not_signed), "no SignedData");
    }
    Ok(())
}

#[test]
fn requests_and_responses(rt: HostRuntime) -> Result<(), Fail> {
    let request = hex::decode(rt.alloc(), REQUEST)?;
    let response = hex::decode(rt.alloc(), RESPONSE)?;
    let unexpected = Fault::Refused {
        reason: Reason::UnexpectedElement,
        at: 4,
    };
    for at_a_time in AT_A_TIME {
        let nonce = nonce_of(rt.alloc(), &request, *at_a_time);
        assert_same(&rt, nonce, Ok(Some(7)), "the nonce");
        let nonce = nonce_of(rt.alloc(), &response, *at_a_time);
        assert_same(&rt, nonce, Err(unexpected), "no request");
        let status = status_of(rt.alloc(), &response, *at_a_time);
        assert_same(&rt, status, Ok(Some(2)), "the status");
        let status = status_of(rt.alloc(), &request, *at_a_time);
        assert_same(&rt, status, Err(unexpected), "no response");
    }
    Ok(())
}
