//! TimeStampResp (RFC 3161, section 2.4.2).
ghost use Rattle.std.specs.Prelude.{◌+◌, ◌<◌, ◌^◌, OnOk, option_map};
ghost use Rattle.cms_message.specs.ContentInfo.{content};
ghost use Rattle.cms_rows.specs.Rows.{AddsRows};
ghost use Rattle.cms_rows.specs.Fields.{maybe, of_response, of_signed_data, of_status_info};

use crate::kinds::{FAIL_INFO, RESPONSE, STATUS, STATUS_STRING};
use crate::row::{Row, add_head};
use crate::rows::Rows;
use crate::signed_data::content_info_rows;
use cms_fields::{OptionalThen, Tagged, Then, Write};
use cms_message::{ContentInfoFields, ContentInfoSpans};
use cms_tsp::{PkiStatusInfoSpans, TimeStampRespFields};
use std::alloc::AllocError;

/// Adds the rows of a PKIStatusInfo.
fn add_status_info(
    status_info: &PkiStatusInfoSpans,
    level: u32,
    kept: &[u8],
    rows: &mut Vec<Row>,
) -> Result<(), AllocError>
    requires { level < 2 ^ 32 }
    ensures { OnOk result (AddsRows kept.now
        (of_status_info level (⟦<PkiStatusInfoSpans as Write>⟧.value kept.now status_info.now))
        rows.old.items rows.new.items) }
{
    let Tagged(Then(status, OptionalThen(status_string, fail_info))) = status_info;
    status.add_rows(STATUS, level, kept, rows)?;
    status_string.add_rows(STATUS_STRING, level, kept, rows)?;
    fail_info.add_rows(FAIL_INFO, level, kept, rows)
}

/// Adds the rows of a token, if there is one.
fn add_token(
    token: &Option<ContentInfoSpans>,
    level: u32,
    kept: &[u8],
    rows: &mut Vec<Row>,
) -> Result<(), AllocError>
    requires { level + 16 < 2 ^ 32 }
    ensures { OnOk result (AddsRows kept.now (maybe (λ t. of_signed_data level (content t))
        (option_map (λ x. ⟦<ContentInfoFields as Write>⟧.value kept.now x.0) token.now))
        rows.old.items rows.new.items) }
{
    match token {
        Some(Tagged(fields)) => content_info_rows(fields, level, kept, rows),
        None => Ok(()),
    }
}

/// Adds the rows of a TimeStampResp, in the order read. An error means out of memory.
pub fn response_rows(
    response: &TimeStampRespFields,
    level: u32,
    kept: &[u8],
    rows: &mut Vec<Row>,
) -> Result<(), AllocError>
    requires { level + 17 < 2 ^ 32 }
    ensures { OnOk result (AddsRows kept.now
        (of_response level (⟦<TimeStampRespFields as Write>⟧.value kept.now response.now))
        rows.old.items rows.new.items) }
{
    let TimeStampRespFields(Then(status_info, token)) = response;
    let inner = level + 1;
    add_head(rows, RESPONSE, level, kept)?;
    add_status_info(status_info, inner, kept, rows)?;
    add_token(token, inner, kept, rows)
}
