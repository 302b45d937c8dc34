//! ContentInfo that holds SignedData (RFC 5652, section 3).
//!
//! What the content type selects is judged as soon as that was read, so E17 comes before any fault of
//! the content.
ghost use Rattle.std.specs.Prelude.{◌≡◌, None, true, IfErr, OnOk, OnErr};
ghost use Rattle.cms_tlv.specs.Spelling.{der};
ghost use Rattle.cms_tlv.specs.RefusalReasons.{SaysWhy};
ghost use Rattle.cms_fields.specs.ReadingCalls.{ReadsContents};
ghost use Rattle.cms_fields.specs.Writing.{Writes};
ghost use Rattle.cms_scalars.specs.Borrowed.{borrowed_oid};
ghost use Rattle.cms_message.specs.ContentInfo.{ContentInfo, content_type, content, content_info, content_info_fields};

use crate::laws::content_info_laws;
use crate::signed_data::{SignedData, SignedDataSpans};
use cms_fields::{Constrained, Constraint, Last, Tagged, Then, Write, read_after_header};
use cms_scalars::{ID_SIGNED_DATA, Oid, OidOctets};
use cms_setof::put;
use cms_tlv::{Bound, CONTEXT_0, Fault, Input, OBJECT_IDENTIFIER, Reason, SEQUENCE, Source};
use std::alloc::{AllocError, Global};
use std::marker::Model;

/// The contentType id-signedData: E17 if it is another.
#[derive(Drop)]
pub struct SignedDataType;

impl Constraint<OidOctets> for SignedDataType {
    ghost use Rattle.std.specs.Prelude.{◌≡◌};
    ghost use Rattle.cms_tlv.specs.declared.fault.Reason.TheVariants.{NotSignedData};
    ghost use Rattle.cms_scalars.specs.ObjectIdentifiers.{id_signed_data};
    ghost use Rattle.cms_message.specs.ContentInfo.{is_signed_data};

    ghost is = { λ t. t ≡ id_signed_data };

    ghost test = { is_signed_data };

    ghost refusal = { NotSignedData };

    fn passes(octets: &[u8]) -> bool {
        octets == ID_SIGNED_DATA
    }

    fn reason() -> Reason {
        Reason::NotSignedData
    }

    fn law() {}
}

/// `contentType id-signedData`.
pub type ContentTypeSpan = Constrained<OBJECT_IDENTIFIER, OidOctets, SignedDataType>;

/// `content [0] EXPLICIT SignedData`.
pub type ContentSpans = Last<Tagged<CONTEXT_0, Last<SignedDataSpans>>>;

/// `contentType id-signedData, content [0] EXPLICIT SignedData`.
pub type ContentInfoFields = Then<ContentTypeSpan, ContentSpans>;

/// `ContentInfo ::= SEQUENCE { contentType id-signedData, content [0] EXPLICIT SignedData }`.
pub type ContentInfoSpans = Tagged<SEQUENCE, ContentInfoFields>;

/// Reads the fields of a ContentInfo after its header, and their end; `inner` is where they end. E17,
/// after the content type, if that is not id-signedData.
pub fn read_content_info<R: Input>(
    source: &mut Source<R>,
    inner: Bound,
) -> Result<ContentInfoSpans, Fault>
    ensures reads { ReadsContents content_info_fields inner ⟦<ContentInfoSpans as Write>⟧.value
        source.old source.new result }
    ensures why { source.old.fault ≡ None
        → IfErr result (SaysWhy true content_info_fields.malformed source.old source.new) }
{
    content_info_laws();
    read_after_header(source, inner)
}

/// Appends the DER of a ContentInfo that was read from `kept`. An error means out of memory; `out` is then
/// as it was.
pub fn put_content_info(
    alloc: Global,
    kept: &[u8],
    spans: &ContentInfoSpans,
    out: &mut Vec<u8>,
) -> Result<(), AllocError>
    requires { content_info.is_value (⟦<ContentInfoSpans as Write>⟧.value kept.now spans.now) }
    ensures ok { OnOk result (Writes (content_info.spelled der) content_info.same
        (⟦<ContentInfoSpans as Write>⟧.value kept.now spans.now) out.old.items out.new.items) }
    ensures err { OnErr result (out.new.items ≡ out.old.items) }
{
    put(spans, alloc, kept, out)
}

/// A signed message.
#[derive(Clone, Drop)]
pub struct ContentInfo<'a> {
    kept: &'a [u8],
    fields: &'a ContentInfoFields,
}

impl<'a> Model for ContentInfo<'a> {
    ghost Value = { ContentInfo };

    ghost view = { λ x. ⟦<ContentInfoFields as Write>⟧.value x.kept.now x.fields.now };
}

impl<'a> ContentInfo<'a> {
    /// The message whose fields `fields` names in `kept`.
    pub fn new(fields: &'a ContentInfoFields, kept: &'a [u8]) -> ContentInfo<'a>
        ensures { result ≡ ⟦<ContentInfoFields as Write>⟧.value kept.now fields.now }
    {
        ContentInfo { kept, fields }
    }

    /// contentType: id-signedData.
    pub fn content_type(&self) -> Oid<'a>
        ensures { borrowed_oid result ≡ content_type self.now }
    {
        let Then(content_type, _) = self.fields;
        Oid::new(&content_type.0, self.kept)
    }

    /// The content.
    pub fn signed_data(&self) -> SignedData<'a>
        ensures { result ≡ content self.now }
    {
        let Then(_, Last(Tagged(Last(content)))) = self.fields;
        SignedData::new(content, self.kept)
    }
}
