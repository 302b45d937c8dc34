//! TimeStampReq (RFC 3161, section 2.4.1).
ghost use Rattle.std.specs.Prelude.{◌+◌, ◌<◌, ◌^◌, OnOk};
ghost use Rattle.cms_rows.specs.Rows.{AddsRows};
ghost use Rattle.cms_rows.specs.Fields.{of_imprint, of_request};

use crate::kinds::{
    CERT_REQ, HASH_ALGORITHM, HASHED_MESSAGE, REQUEST, REQUEST_EXTENSIONS, REQUEST_NONCE,
    REQUEST_POLICY, REQUEST_VERSION,
};
use crate::row::{Row, add_flag, add_head, add_octets};
use crate::rows::Rows;
use cms_fields::{Last, OptionalThen, Tagged, Then, Write};
use cms_scalars::DefaultFalseThen;
use cms_tsp::{MessageImprintSpans, TimeStampReqFields, TimeStampReqTail};
use std::alloc::AllocError;

/// Adds the rows of a MessageImprint.
fn add_imprint(
    imprint: &MessageImprintSpans,
    level: u32,
    kept: &[u8],
    rows: &mut Vec<Row>,
) -> Result<(), AllocError>
    requires { level + 1 < 2 ^ 32 }
    ensures { OnOk result (AddsRows kept.now
        (of_imprint level (⟦<MessageImprintSpans as Write>⟧.value kept.now imprint.now))
        rows.old.items rows.new.items) }
{
    let Tagged(Then(hash_algorithm, Last(hashed_message))) = imprint;
    hash_algorithm.add_rows(HASH_ALGORITHM, level, kept, rows)?;
    add_octets(rows, HASHED_MESSAGE, level, hashed_message, kept)
}

/// Adds the rows of a TimeStampReq, in the order read. An error means out of memory.
pub fn request_rows(
    request: &TimeStampReqFields,
    level: u32,
    kept: &[u8],
    rows: &mut Vec<Row>,
) -> Result<(), AllocError>
    requires { level + 2 < 2 ^ 32 }
    ensures { OnOk result (AddsRows kept.now
        (of_request level (⟦<TimeStampReqFields as Write>⟧.value kept.now request.now))
        rows.old.items rows.new.items) }
{
    let Then(version, TimeStampReqTail(Then(imprint, after_imprint))) = request;
    let OptionalThen(policy, OptionalThen(nonce, DefaultFalseThen(cert_req, extensions))) =
        after_imprint;
    let inner = level + 1;
    add_head(rows, REQUEST, level, kept)?;
    version.add_rows(REQUEST_VERSION, inner, kept, rows)?;
    add_imprint(imprint, inner, kept, rows)?;
    policy.add_rows(REQUEST_POLICY, inner, kept, rows)?;
    nonce.add_rows(REQUEST_NONCE, inner, kept, rows)?;
    add_flag(rows, CERT_REQ, inner, *cert_req, kept)?;
    extensions.add_rows(REQUEST_EXTENSIONS, inner, kept, rows)
}
