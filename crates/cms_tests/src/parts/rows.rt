//! The rows of records, at a level of the caller's.
ghost use Rattle.std.specs.Prelude.{◌≡◌, true};
ghost use Rattle.cms_tlv.specs.Spelling.{ber};

use crate::asserts::assert_same;
use crate::parts::fields::received;
use crate::parts::sources::LIMIT;
use cms_fields::{Field, Tagged};
use cms_message::ContentInfoSpans;
use cms_rows::{Row, content_info_rows, request_rows, response_rows};
use cms_tsp::{TimeStampReqSpans, TimeStampRespSpans};
use std::alloc::Global;
use std::process::Abort;
use std::test::Fail;

/// The level at which they begin.
const LEVEL: u32 = 7;

/// Asserts the kind and the level of each row.
fn assert_kinds(rt: &(impl Abort + AllocGlobal), rows: &[Row], want: &[(u32, u32)], case: &str) {
    assert_same(rt, rows.len(), want.len(), case);
    for (row, want) in rows.iter().zip(want) {
        assert_same(rt, (row.kind, row.level), *want, case);
    }
}

/// A field of these octets, in hexadecimal, and the octets that are kept of it.
fn read_whole<T: Field>(alloc: Global, octets: &str) -> Result<(T, Vec<u8>), Fail>
    requires is_field { T.grammar.is_field ≡ true }
{
    let octets = hex::decode(alloc, octets)?;
    Ok(received::<T>(alloc, &octets, 3, LIMIT)?)
}

#[test]
fn rows_of_a_content_info(rt: HostRuntime) -> Result<(), Fail> {
    let octets = "302306092a864886f70d010702a01630140201013100300b06092a864886f70d0107013100";
    let (field, kept) = read_whole::<ContentInfoSpans>(rt.alloc(), octets)?;
    let Tagged(fields) = &field;
    let mut rows = Vec::new(rt.alloc());
    content_info_rows(fields, LEVEL, &kept, &mut rows)?;
    assert_kinds(&rt, &rows, &[(0x10, 7), (0x11, 8), (0x13, 8)], octets);
    Ok(())
}

#[test]
fn rows_of_a_request(rt: HostRuntime) -> Result<(), Fail> {
    let octets = "30110201013009300506032a03040400010101";
    let (field, kept) = read_whole::<TimeStampReqSpans>(rt.alloc(), octets)?;
    let Tagged(fields) = &field;
    let mut rows = Vec::new(rt.alloc());
    request_rows(fields, LEVEL, &kept, &mut rows)?;
    let want = [(0x30, 7), (0x31, 8), (0x04, 8), (0x05, 8), (0x34, 8)];
    assert_kinds(&rt, &rows, &want, octets);
    Ok(())
}

#[test]
fn rows_of_a_response(rt: HostRuntime) -> Result<(), Fail> {
    let octets = "3009300702010203020780";
    let (field, kept) = read_whole::<TimeStampRespSpans>(rt.alloc(), octets)?;
    let Tagged(fields) = &field;
    let mut rows = Vec::new(rt.alloc());
    response_rows(fields, LEVEL, &kept, &mut rows)?;
    assert_kinds(&rt, &rows, &[(0x40, 7), (0x41, 8), (0x43, 8)], octets);
    Ok(())
}
