//! SignerInfo.
ghost use Rattle.std.specs.Prelude.{◌<◌, ◌^◌, ◌+◌, List, OnOk};
ghost use Rattle.std.specs.List.{flat_map};
ghost use Rattle.cms_message.specs.SignerInfo.{SignerInfo, SignerWithin};
ghost use Rattle.cms_message.specs.SignedData.{Signer};
ghost use Rattle.cms_message.specs.Spanned.{primitive_spanned, choice_spanned, signer_identifier_spanned, signer_info_spanned, signer_spanned, spanned_within};
ghost use Rattle.cms_message.specs.Spans.{held, first, others, last};
ghost use Rattle.cms_rows.specs.Rows.{AddsRows};
ghost use Rattle.cms_rows.specs.Fields.{of_issuer, of_sid, of_signer_info, of_signer_within};

use crate::kinds::{
    ISSUER, SERIAL_NUMBER, SIGNATURE, SIGNATURE_ALGORITHM, SIGNED_ATTRIBUTES,
    SIGNER_DIGEST_ALGORITHM, SIGNER_VERSION, SUBJECT_KEY_IDENTIFIER, UNSIGNED_ATTRIBUTES,
};
use crate::row::{Row, add_head, add_octets};
use crate::rows::Rows;
use cms_fields::{Choice, Last, OptionalThen, Tagged, Then};
use cms_message::{
    IssuerAndSerialNumberSpans, NoCountersignatures, SignerIdentifierSpans, SignerInfoSpans,
    SignerInfoTail, SignerSpans,
};
use std::alloc::AllocError;

/// Adds the rows of an issuer and a serial number.
fn add_issuer(
    sid: &IssuerAndSerialNumberSpans,
    level: u32,
    kept: &[u8],
    rows: &mut Vec<Row>,
) -> Result<(), AllocError>
    requires { level < 2 ^ 32 }
    ensures { OnOk result (AddsRows kept.now
        (of_issuer level (
          choice_spanned kept.now (first (held sid.now)),
          primitive_spanned kept.now
              (last (others (held sid.now))),
        ))
        rows.old.items rows.new.items) }
{
    let Tagged(Then(issuer, Last(serial_number))) = sid;
    issuer.add_rows(ISSUER, level, kept, rows)?;
    serial_number.add_rows(SERIAL_NUMBER, level, kept, rows)
}

/// Adds the rows of a signer identifier.
fn add_sid(
    sid: &SignerIdentifierSpans,
    level: u32,
    kept: &[u8],
    rows: &mut Vec<Row>,
) -> Result<(), AllocError>
    requires { level < 2 ^ 32 }
    ensures { OnOk result (AddsRows kept.now
        (of_sid level (signer_identifier_spanned kept.now sid.now))
        rows.old.items rows.new.items) }
{
    match sid {
        Choice::First(name) => add_issuer(name, level, kept, rows),
        Choice::Second(key) => add_octets(rows, SUBJECT_KEY_IDENTIFIER, level, key, kept),
    }
}

impl<C: Rows> Rows for SignerInfoSpans<C> {
    ghost Value = { SignerInfo C.Value };

    ghost shown = { signer_info_spanned C.shown };

    ghost entries = { of_signer_info C.entries };

    ghost below = { 3 + C.below };

    fn add_rows(
        &self,
        kind: u32,
        level: u32,
        kept: &[u8],
        rows: &mut Vec<Row>,
    ) -> Result<(), AllocError> {
        let SignerInfoSpans(Tagged(Then(version, Then(sid, Then(digest_algorithm, after))))) = self;
        let SignerInfoTail(
            OptionalThen(signed_attrs, Then(signature_algorithm, Then(signature, unsigned_attrs))),
        ) = after;
        let inner = level + 1;
        add_head(rows, kind, level, kept)?;
        version.add_rows(SIGNER_VERSION, inner, kept, rows)?;
        add_sid(sid, inner, kept, rows)?;
        digest_algorithm.add_rows(SIGNER_DIGEST_ALGORITHM, inner, kept, rows)?;
        signed_attrs.add_rows(SIGNED_ATTRIBUTES, inner, kept, rows)?;
        signature_algorithm.add_rows(SIGNATURE_ALGORITHM, inner, kept, rows)?;
        add_octets(rows, SIGNATURE, inner, signature, kept)?;
        unsigned_attrs.add_rows(UNSIGNED_ATTRIBUTES, inner, kept, rows)
    }
}

impl Rows for NoCountersignatures {
    ghost Value = { List (SignerWithin 0) };

    ghost shown = { spanned_within 0 };

    ghost entries = { λ kind level. flat_map (of_signer_within 0 kind level) };

    ghost below = { 0 };

    fn add_rows(
        &self,
        kind: u32,
        level: u32,
        kept: &[u8],
        rows: &mut Vec<Row>,
    ) -> Result<(), AllocError> {
        Ok(())
    }
}

impl Rows for SignerSpans {
    ghost Value = { Signer };

    ghost shown = { signer_spanned };

    ghost entries = { of_signer_within 5 };

    ghost below = { 15 };

    fn add_rows(
        &self,
        kind: u32,
        level: u32,
        kept: &[u8],
        rows: &mut Vec<Row>,
    ) -> Result<(), AllocError> {
        self.0.add_rows(kind, level, kept, rows)
    }
}
