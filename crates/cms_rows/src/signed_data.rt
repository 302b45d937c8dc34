//! SignedData.
ghost use Rattle.std.specs.Prelude.{◌+◌, ◌<◌, ◌^◌, OnOk, option_map};
ghost use Rattle.cms_message.specs.ContentInfo.{content};
ghost use Rattle.cms_message.specs.Spanned.{signed_data_spanned, choices_spanned};
ghost use Rattle.cms_message.specs.Spans.{held};
ghost use Rattle.cms_rows.specs.Rows.{AddsRows, entry};
ghost use Rattle.cms_rows.specs.Fields.{of_signed_data, of_set, maybe, content_spanned};

use crate::kinds::{
    CERTIFICATE, CERTIFICATES, CONTENT, CONTENT_TYPE, CRL, CRLS, DIGEST_ALGORITHM, SIGNED_DATA,
    SIGNER, VERSION,
};
use crate::row::{Row, add_head, add_octets};
use crate::rows::Rows;
use cms_fields::{Identifiers, Last, OpaqueAmong, OptionalThen, Tagged, Then, Write};
use cms_message::{ContentInfoFields, SignedDataAfterContent, SignedDataSpans};
use cms_scalars::OctetsSpan;
use cms_setof::SetOf;
use cms_tlv::OCTET_STRING;
use std::alloc::AllocError;

/// Adds the rows of a set of opaque elements, if there is one.
fn add_set<const ID: u8, I: Identifiers>(
    set: &Option<Tagged<ID, SetOf<OpaqueAmong<I>>>>,
    kind: u32,
    member: u32,
    level: u32,
    kept: &[u8],
    rows: &mut Vec<Row>,
) -> Result<(), AllocError>
    requires { level + 1 < 2 ^ 32 }
    ensures { OnOk result (AddsRows kept.now (maybe (of_set kind member level)
        (option_map (λ s. choices_spanned kept.now (held s)) set.now))
        rows.old.items rows.new.items) }
{
    match set {
        Some(set) => add_some(set, kind, member, level, kept, rows),
        None => Ok(()),
    }
}

/// Adds the rows of a set of opaque elements.
fn add_some<const ID: u8, I: Identifiers>(
    set: &Tagged<ID, SetOf<OpaqueAmong<I>>>,
    kind: u32,
    member: u32,
    level: u32,
    kept: &[u8],
    rows: &mut Vec<Row>,
) -> Result<(), AllocError>
    requires { level + 1 < 2 ^ 32 }
    ensures { OnOk result (AddsRows kept.now
        (of_set kind member level (choices_spanned kept.now (held set.now)))
        rows.old.items rows.new.items) }
{
    let Tagged(set) = set;
    add_head(rows, kind, level, kept)?;
    set.add_rows(member, level + 1, kept, rows)
}

/// Adds the rows of the content, if there is any.
fn add_content<const ID: u8>(
    content: &Option<Tagged<ID, Last<OctetsSpan<OCTET_STRING>>>>,
    level: u32,
    kept: &[u8],
    rows: &mut Vec<Row>,
) -> Result<(), AllocError>
    ensures { OnOk result (AddsRows kept.now (maybe (entry CONTENT level)
        (option_map (content_spanned kept.now) content.now))
        rows.old.items rows.new.items) }
{
    match content {
        Some(Tagged(Last(content))) => add_octets(rows, CONTENT, level, content, kept),
        None => Ok(()),
    }
}

/// Adds the rows of a SignedData, in the order read. An error means out of memory.
fn signed_data_rows(
    signed_data: &SignedDataSpans,
    level: u32,
    kept: &[u8],
    rows: &mut Vec<Row>,
) -> Result<(), AllocError>
    requires { level + 16 < 2 ^ 32 }
    ensures { OnOk result (AddsRows kept.now
        (of_signed_data level (signed_data_spanned kept.now signed_data.now))
        rows.old.items rows.new.items) }
{
    let SignedDataSpans(Tagged(Then(version, Then(Tagged(digest_algorithms), others)))) =
        signed_data;
    let Then(Tagged(Then(content_type, content)), after) = others;
    let SignedDataAfterContent(
        OptionalThen(certificates, OptionalThen(crls, Last(Tagged(signers)))),
    ) = after;
    let inner = level + 1;
    add_head(rows, SIGNED_DATA, level, kept)?;
    version.add_rows(VERSION, inner, kept, rows)?;
    digest_algorithms.add_rows(DIGEST_ALGORITHM, inner, kept, rows)?;
    content_type.add_rows(CONTENT_TYPE, inner, kept, rows)?;
    add_content(content, inner, kept, rows)?;
    add_set(certificates, CERTIFICATES, CERTIFICATE, inner, kept, rows)?;
    add_set(crls, CRLS, CRL, inner, kept, rows)?;
    signers.add_rows(SIGNER, inner, kept, rows)
}

/// Adds the rows of the SignedData of a ContentInfo, of which these are the fields. An error means out
/// of memory.
pub fn content_info_rows(
    content_info: &ContentInfoFields,
    level: u32,
    kept: &[u8],
    rows: &mut Vec<Row>,
) -> Result<(), AllocError>
    requires { level + 16 < 2 ^ 32 }
    ensures { OnOk result (AddsRows kept.now
        (of_signed_data level
        (content (⟦<ContentInfoFields as Write>⟧.value kept.now content_info.now)))
        rows.old.items rows.new.items) }
{
    let Then(_, Last(Tagged(Last(signed_data)))) = content_info;
    signed_data_rows(signed_data, level, kept, rows)
}
