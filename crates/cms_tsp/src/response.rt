//! TimeStampResp (RFC 3161, section 2.4.2).
//!
//! A failInfo without bits is not the same as no failInfo: it is kept, and written `03 01 00`. The
//! parts of statusString are opaque.
ghost use Rattle.std.specs.Prelude.{◌≡◌, ◌==◌, None, true, IfErr, option_map};
ghost use Rattle.std.specs.Option.{option_copied};
ghost use Rattle.cms_tlv.specs.declared.tags.TheConstants.{SEQUENCE};
ghost use Rattle.cms_tlv.specs.RefusalReasons.{SaysWhy};
ghost use Rattle.cms_fields.specs.ReadingCalls.{ReadsContents};
ghost use Rattle.cms_scalars.specs.Bits.{borrowed_bits};
ghost use Rattle.cms_scalars.specs.Borrowed.{borrowed_integer};
ghost use Rattle.cms_tsp.specs.Responses.{PkiStatusInfo, TimeStampResp, status, status_string, fail_info, status_info, token, status_agrees, time_stamp_resp_fields};

use crate::laws::response_laws;
use cms_fields::{
    Fields, Only, OpaqueAmong, OptionalThen, Sink, Stop, Tagged, Then, Write, read_after_header,
};
use cms_message::{ContentInfo, ContentInfoSpans};
use cms_scalars::{Integer, IntegerSpan, NamedBits, NamedBitsSpan};
use cms_tlv::{Bound, Fault, Input, SEQUENCE, Source};
use std::marker::Model;

/// `PKIFreeText`, a SEQUENCE, octet for octet.
pub type PkiFreeTextSpan = OpaqueAmong<Only<SEQUENCE>>;

/// `PKIStatusInfo ::= SEQUENCE { status INTEGER, statusString PKIFreeText OPTIONAL, failInfo
/// PKIFailureInfo OPTIONAL }`; failInfo is a BIT STRING with named bits.
pub type PkiStatusInfoSpans = Tagged<
    SEQUENCE,
    Then<IntegerSpan, OptionalThen<PkiFreeTextSpan, Option<NamedBitsSpan>>>,
>;

/// `status PKIStatusInfo, timeStampToken ContentInfo OPTIONAL`.
///
/// A type of its own around its term.
pub struct TimeStampRespFields(pub ResponseParts);

pub type ResponseParts = Then<PkiStatusInfoSpans, Option<ContentInfoSpans>>;

impl Drop for TimeStampRespFields {
    fn drop(self) {
        let TimeStampRespFields(_) = self;
    }
}

impl Write for TimeStampRespFields {
    ghost Value = { TimeStampResp };

    ghost grammar = { time_stamp_resp_fields };

    ghost value = { λ k x. ⟦<ResponseParts as Write>⟧.value k x.0 };

    fn emit<S: Sink>(&self, kept: &[u8], sink: &mut S) -> Result<(), Stop> {
        self.0.emit(kept, sink)
    }

    fn law() {
        ResponseParts::law();
    }
}

impl Fields for TimeStampRespFields {
    fn read_to_end<R: Input>(
        source: &mut Source<R>,
        bound: Bound,
    ) -> Result<TimeStampRespFields, Fault> {
        match <ResponseParts as Fields>::read_to_end(source, bound) {
            Ok(parts) => Ok(TimeStampRespFields(parts)),
            Err(fault) => Err(fault),
        }
    }
}

/// `TimeStampResp ::= SEQUENCE { status PKIStatusInfo, timeStampToken ContentInfo OPTIONAL }`.
pub type TimeStampRespSpans = Tagged<SEQUENCE, TimeStampRespFields>;

/// Reads the fields of a TimeStampResp after its header, and their end; `inner` is where they end.
pub fn read_response<R: Input>(
    source: &mut Source<R>,
    inner: Bound,
) -> Result<TimeStampRespSpans, Fault>
    ensures reads { ReadsContents time_stamp_resp_fields inner
        ⟦<TimeStampRespSpans as Write>⟧.value source.old source.new result }
    ensures why { source.old.fault ≡ None
        → IfErr result (SaysWhy true time_stamp_resp_fields.malformed source.old source.new) }
{
    response_laws();
    read_after_header(source, inner)
}

/// What became of a request.
#[derive(Clone, Drop)]
pub struct PkiStatusInfo<'a> {
    kept: &'a [u8],
    spans: &'a PkiStatusInfoSpans,
}

impl<'a> Model for PkiStatusInfo<'a> {
    ghost Value = { PkiStatusInfo };

    ghost view = { λ x. ⟦<PkiStatusInfoSpans as Write>⟧.value x.kept.now x.spans.now };
}

impl<'a> PkiStatusInfo<'a> {
    /// The status: any INTEGER. 0 is granted, and 1 grantedWithMods.
    pub fn status(&self) -> Integer<'a>
        ensures { borrowed_integer result ≡ status self.now }
    {
        let Tagged(Then(status, _)) = self.spans;
        Integer::new(status, self.kept)
    }

    /// The octets of statusString, one element, if it is present.
    pub fn status_string(&self) -> Option<&'a [u8]>
        ensures { option_copied result ≡ status_string self.now }
    {
        let Tagged(Then(_, OptionalThen(text, _))) = self.spans;
        match text {
            Some(OpaqueAmong(element)) => Some(element.span.octets(self.kept)),
            None => None,
        }
    }

    /// failInfo: why the request was rejected, as named bits. None is not the same as a failInfo
    /// without bits.
    pub fn fail_info(&self) -> Option<NamedBits<'a>>
        ensures { option_map borrowed_bits result ≡ fail_info self.now }
    {
        let Tagged(Then(_, OptionalThen(_, bits))) = self.spans;
        match bits {
            Some(bits) => Some(NamedBits::new(bits, self.kept)),
            None => None,
        }
    }
}

/// A response to a request.
#[derive(Clone, Drop)]
pub struct TimeStampResp<'a> {
    kept: &'a [u8],
    fields: &'a TimeStampRespFields,
}

impl<'a> Model for TimeStampResp<'a> {
    ghost Value = { TimeStampResp };

    ghost view = { λ x. ⟦<TimeStampRespFields as Write>⟧.value x.kept.now x.fields.now };
}

impl<'a> TimeStampResp<'a> {
    /// The response whose fields `fields` names in `kept`.
    pub fn new(fields: &'a TimeStampRespFields, kept: &'a [u8]) -> TimeStampResp<'a>
        ensures { result ≡ ⟦<TimeStampRespFields as Write>⟧.value kept.now fields.now }
    {
        TimeStampResp { kept, fields }
    }

    /// What became of the request.
    pub fn status_info(&self) -> PkiStatusInfo<'a>
        ensures { result ≡ status_info self.now }
    {
        let TimeStampRespFields(Then(spans, _)) = self.fields;
        PkiStatusInfo {
            kept: self.kept,
            spans,
        }
    }

    /// timeStampToken, if it is present.
    pub fn token(&self) -> Option<ContentInfo<'a>>
        ensures { result ≡ token self.now }
    {
        let TimeStampRespFields(Then(_, token)) = self.fields;
        match token {
            Some(Tagged(fields)) => Some(ContentInfo::new(fields, self.kept)),
            None => None,
        }
    }

    /// Whether a token is present if and only if the status is 0 or 1, as it must be.
    pub fn status_agrees(&self) -> bool
        ensures { result ≡ status_agrees self.now }
    {
        let status = self.status_info().status();
        let is_granted = status.octets() == b"\x00".as_slice()
            || status.octets() == b"\x01".as_slice();
        self.token().is_some() == is_granted
    }
}
