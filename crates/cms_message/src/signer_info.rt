//! SignerInfo (RFC 5652, section 5.3).
//!
//! One view serves all depths: references, with a case for each depth only in the sets. Its model is a
//! pair of a depth and a value. A path is followed by views, which takes no memory.
ghost use Rattle.std.specs.Prelude.{map, slice_get, ◌≡◌, ◌==◌, ◌++◌, option_map};
ghost use Rattle.std.specs.Option.{option_copied};
ghost use Rattle.cms_tlv.specs.Spelling.{join};
ghost use Rattle.cms_tlv.specs.declared.tags.TheConstants.{SEQUENCE};
ghost use Rattle.cms_scalars.specs.Borrowed.{borrowed_integer, borrowed_pieces, parts_in};
ghost use Rattle.cms_message.specs.Cover.{as_set_of};
ghost use Rattle.cms_message.specs.SignerInfo.{SignerInfo, after_digest_algorithm, signer_info, unsigned_attrs, signer_info_version, sid, digest_algorithm, signed_attrs, signature_algorithm, signature};
ghost use Rattle.cms_message.specs.Signers.{BorrowedSigner, as_any_attribute, signer_code, borrowed_signer, below, countersignatures_in};
ghost use Rattle.cms_message.specs.SignedData.{Signer, signer};
ghost use Rattle.cms_message.specs.Spanned.{borrowed_attributes, primitive_spanned, algorithm_identifier_spanned, signer_identifier_spanned, signed_attributes_spanned, signer_spanned, signer_info_spanned, borrowed_signer_identifier};

use crate::algorithm::{AlgorithmIdentifier, AlgorithmIdentifierSpans};
use crate::attribute::{
    AttributeSet, Attributes, Lend, SignedAttributesSpans, UnsignedAttributesSpans,
};
use crate::countersignature::{NoCountersignatures, UnsignedAttributeSpans};
use cms_fields::{
    AlreadyDer, Choice, Field, Fields, Last, Only, OpaqueAmong, OptionalThen, Sink, Stop, Tagged,
    Then, Write,
};
use cms_scalars::{Integer, IntegerSpan, Octets, OctetsSpan};
use cms_setof::{NonEmptySetOf, SetOf};
use cms_tlv::{Bound, CONTEXT_0_PRIMITIVE, Fault, Input, OCTET_STRING, SEQUENCE, Source};
use std::marker::Model;

/// `Name`, a SEQUENCE, octet for octet.
pub type NameSpan = OpaqueAmong<Only<SEQUENCE>>;

/// `IssuerAndSerialNumber ::= SEQUENCE { issuer Name, serialNumber INTEGER }` (RFC 5652, section
/// 10.2.4).
pub type IssuerAndSerialNumberSpans = Tagged<SEQUENCE, Then<NameSpan, Last<IntegerSpan>>>;

/// `SignerIdentifier ::= CHOICE { issuerAndSerialNumber IssuerAndSerialNumber, subjectKeyIdentifier [0]
/// IMPLICIT OCTET STRING }`.
pub type SignerIdentifierSpans = Choice<
    IssuerAndSerialNumberSpans,
    OctetsSpan<CONTEXT_0_PRIMITIVE>,
>;

/// `signedAttrs [0] IMPLICIT SET SIZE (1..MAX) OF Attribute OPTIONAL, signatureAlgorithm
/// AlgorithmIdentifier, signature OCTET STRING, unsignedAttrs [1] IMPLICIT SET SIZE (1..MAX) OF Attribute
/// OPTIONAL`: the fields of a SignerInfo after digestAlgorithm.
///
/// A type of its own around its term.
pub struct SignerInfoTail<C>(pub SignerInfoTailParts<C>);

pub type SignerInfoTailParts<C> = OptionalThen<
    SignedAttributesSpans,
    Then<
        AlgorithmIdentifierSpans,
        Then<OctetsSpan<OCTET_STRING>, Option<UnsignedAttributesSpans<UnsignedAttributeSpans<C>>>>,
    >,
>;

impl<C: Drop> Drop for SignerInfoTail<C> {
    fn drop(self) {
        let SignerInfoTail(_) = self;
    }
}

impl<C: Write> Write for SignerInfoTail<C> {
    ghost Value = { ⟦<SignerInfoTailParts<C> as Write>⟧.Value };

    ghost grammar = { after_digest_algorithm C.grammar };

    ghost value = { λ k x. ⟦<SignerInfoTailParts<C> as Write>⟧.value k x.0 };

    fn emit<S: Sink>(&self, kept: &[u8], sink: &mut S) -> Result<(), Stop> {
        self.0.emit(kept, sink)
    }

    fn law() {
        SignerInfoTailParts::<C>::law();
    }
}

impl<C: Fields> Fields for SignerInfoTail<C> {
    fn read_to_end<R: Input>(
        source: &mut Source<R>,
        bound: Bound,
    ) -> Result<SignerInfoTail<C>, Fault> {
        match <SignerInfoTailParts<C> as Fields>::read_to_end(source, bound) {
            Ok(parts) => Ok(SignerInfoTail(parts)),
            Err(fault) => Err(fault),
        }
    }
}

/// `SignerInfo ::= SEQUENCE { version INTEGER, sid SignerIdentifier, digestAlgorithm
/// AlgorithmIdentifier, signedAttrs [0] IMPLICIT SET SIZE (1..MAX) OF Attribute OPTIONAL,
/// signatureAlgorithm AlgorithmIdentifier, signature OCTET STRING, unsignedAttrs [1] IMPLICIT SET SIZE
/// (1..MAX) OF Attribute OPTIONAL }`.
///
/// A type of its own around its term.
pub struct SignerInfoSpans<C>(pub SignerInfoParts<C>);

impl<C: Drop> Drop for SignerInfoSpans<C> {
    fn drop(self) {
        let SignerInfoSpans(_) = self;
    }
}

pub type SignerInfoParts<C> = Tagged<
    SEQUENCE,
    Then<
        IntegerSpan,
        Then<SignerIdentifierSpans, Then<AlgorithmIdentifierSpans, SignerInfoTail<C>>>,
    >,
>;

impl<C: Write> Write for SignerInfoSpans<C> {
    ghost Value = { SignerInfo C.Value };

    ghost grammar = { signer_info C.grammar };

    ghost value = { signer_info_spanned C.value };

    fn emit<S: Sink>(&self, kept: &[u8], sink: &mut S) -> Result<(), Stop> {
        self.0.emit(kept, sink)
    }

    fn law() {
        SignerInfoParts::<C>::law();
    }
}

impl<C: Fields> Field for SignerInfoSpans<C> {
    fn read<R: Input>(source: &mut Source<R>, bound: &Bound) -> Result<SignerInfoSpans<C>, Fault> {
        match <SignerInfoParts<C> as Field>::read(source, bound) {
            Ok(parts) => Ok(SignerInfoSpans(parts)),
            Err(fault) => Err(fault),
        }
    }

    fn begins_with(octet: u8) -> bool {
        octet == SEQUENCE
    }
}

/// A countersignature whose own would be too deep.
pub type SignerAtDepth4 = SignerInfoSpans<NoCountersignatures>;

/// A countersignature of a countersignature of a countersignature.
pub type SignerAtDepth3 = SignerInfoSpans<SetOf<SignerAtDepth4>>;

/// A countersignature of a countersignature.
pub type SignerAtDepth2 = SignerInfoSpans<SetOf<SignerAtDepth3>>;

/// A countersignature of a signer of a message.
pub type SignerAtDepth1 = SignerInfoSpans<SetOf<SignerAtDepth2>>;

/// A signer of a message.
///
/// A type of its own around its term.
pub struct SignerSpans(pub SignerInfoSpans<SetOf<SignerAtDepth1>>);

impl Drop for SignerSpans {
    fn drop(self) {
        let SignerSpans(_) = self;
    }
}

impl Write for SignerSpans {
    ghost Value = { Signer };

    ghost grammar = { signer };

    ghost value = { signer_spanned };

    fn emit<S: Sink>(&self, kept: &[u8], sink: &mut S) -> Result<(), Stop> {
        self.0.emit(kept, sink)
    }

    fn law() {
        SignerInfoSpans::<SetOf<SignerAtDepth1>>::law();
    }
}

impl Field for SignerSpans {
    fn read<R: Input>(source: &mut Source<R>, bound: &Bound) -> Result<SignerSpans, Fault> {
        match <SignerInfoSpans<SetOf<SignerAtDepth1>> as Field>::read(source, bound) {
            Ok(parts) => Ok(SignerSpans(parts)),
            Err(fault) => Err(fault),
        }
    }

    fn begins_with(octet: u8) -> bool {
        octet == SEQUENCE
    }
}

/// Which certificate a signer's key is in.
#[derive(Clone, Drop)]
pub enum SignerIdentifier<'a> {
    /// The issuer's name, one element, and the serial number.
    IssuerAndSerialNumber(&'a [u8], Integer<'a>),
    SubjectKeyIdentifier(Octets<'a>),
}

/// A signer, or a countersignature.
#[derive(Clone, Drop)]
pub struct SignerInfo<'a> {
    kept: &'a [u8],
    version: &'a IntegerSpan,
    sid: &'a SignerIdentifierSpans,
    digest_algorithm: &'a AlgorithmIdentifierSpans,
    signed_attrs: &'a Option<SignedAttributesSpans>,
    signature_algorithm: &'a AlgorithmIdentifierSpans,
    signature: &'a OctetsSpan<OCTET_STRING>,
    unsigned_attrs: Option<AttributeSet<'a>>,
}

impl<'a> Model for SignerInfo<'a> {
    ghost Value = { BorrowedSigner };

    ghost coded = { signer_code };

    ghost view = { λ x. (
      primitive_spanned x.kept.now x.version.now,
      (
        signer_identifier_spanned x.kept.now x.sid.now,
        (
          algorithm_identifier_spanned x.kept.now x.digest_algorithm.now,
          (
            signed_attributes_spanned x.kept.now x.signed_attrs.now,
            (
              algorithm_identifier_spanned x.kept.now x.signature_algorithm.now,
              (
                join (parts_in x.kept.now x.signature.now),
                option_map (borrowed_attributes x.kept.now)
                    x.unsigned_attrs,
              ),
            ),
          ),
        ),
      ),
    ) };
}

/// The identifier octet of a SET OF.
const SET_OF: &[u8] = b"\x31";

impl<'a> SignerInfo<'a> {
    /// The signer whose parts `spans` names in `kept`.
    pub(crate) fn new<C: Lend>(spans: &'a SignerInfoSpans<C>, kept: &'a [u8]) -> SignerInfo<'a>
        ensures { result ≡ signer_info_spanned C.lends kept.now spans.now }
    {
        let SignerInfoSpans(Tagged(Then(version, Then(sid, Then(digest_algorithm, after))))) =
            spans;
        let SignerInfoTail(
            OptionalThen(signed_attrs, Then(signature_algorithm, Then(signature, unsigned))),
        ) = after;
        let unsigned_attrs = match unsigned {
            Some(Tagged(NonEmptySetOf(set))) => Some(C::attributes(set)),
            None => None,
        };
        SignerInfo {
            kept,
            version,
            sid,
            digest_algorithm,
            signed_attrs,
            signature_algorithm,
            signature,
            unsigned_attrs,
        }
    }

    /// The version: any INTEGER.
    pub fn version(&self) -> Integer<'a>
        ensures { borrowed_integer result ≡ signer_info_version self.now }
    {
        Integer::new(self.version, self.kept)
    }

    /// sid: which certificate the signer's key is in.
    pub fn sid(&self) -> SignerIdentifier<'a>
        ensures { borrowed_signer_identifier result ≡ sid self.now }
    {
        match self.sid {
            Choice::First(Tagged(Then(OpaqueAmong(issuer), Last(serial_number)))) => {
                let issuer = issuer.span.octets(self.kept);
                let serial_number = Integer::new(serial_number, self.kept);
                SignerIdentifier::IssuerAndSerialNumber(issuer, serial_number)
            }
            Choice::Second(key) => {
                SignerIdentifier::SubjectKeyIdentifier(Octets::new(key, self.kept))
            }
        }
    }

    /// digestAlgorithm: the algorithm that the content and the signed attributes are digested with.
    pub fn digest_algorithm(&self) -> AlgorithmIdentifier<'a>
        ensures { result ≡ digest_algorithm self.now }
    {
        AlgorithmIdentifier::new(self.digest_algorithm, self.kept)
    }

    /// signedAttrs, in the order received.
    pub fn signed_attrs(&self) -> Option<Attributes<'a>>
        ensures { result ≡ option_map (λ a. map as_any_attribute a.1) (signed_attrs self.now) }
    {
        match self.signed_attrs {
            Some(
                AlreadyDer {
                    span: _,
                    field: Tagged(NonEmptySetOf(attributes)),
                },
            ) => Some(Attributes::signed(attributes, self.kept)),
            None => None,
        }
    }

    /// The octets of signedAttrs, from the identifier octet A0 on, as they were received.
    pub fn signed_attrs_octets(&self) -> Option<&'a [u8]>
        ensures { option_copied result ≡ option_map (λ a. a.0) (signed_attrs self.now) }
    {
        match self.signed_attrs {
            Some(AlreadyDer { span, field: _ }) => Some(span.octets(self.kept)),
            None => None,
        }
    }

    /// What a signature covers of signedAttrs (section 5.4), in two pieces: their octets as they were
    /// received, but with the identifier octet of a SET OF, 31, in place of A0.
    pub fn signed_attrs_as_set_of(&self) -> Option<(&'a [u8], &'a [u8])>
        ensures { option_map (λ p. p.0.now ++ p.1.now) result ≡ option_map (λ a. as_set_of a.0)
            (signed_attrs self.now) }
    {
        let octets = self.signed_attrs_octets()?;
        match octets.split_first() {
            Some((_, behind)) => Some((SET_OF, behind)),
            None => Some((octets, octets)),
        }
    }

    /// signatureAlgorithm.
    pub fn signature_algorithm(&self) -> AlgorithmIdentifier<'a>
        ensures { result ≡ signature_algorithm self.now }
    {
        AlgorithmIdentifier::new(self.signature_algorithm, self.kept)
    }

    /// signature.
    pub fn signature(&self) -> Octets<'a>
        ensures { join (borrowed_pieces result) ≡ signature self.now }
    {
        Octets::new(self.signature, self.kept)
    }

    /// unsignedAttrs, in the order read.
    pub fn unsigned_attrs(&self) -> Option<Attributes<'a>>
        ensures { result ≡ unsigned_attrs self.now }
    {
        match self.unsigned_attrs {
            Some(set) => Some(Attributes::new(set, self.kept)),
            None => None,
        }
    }

    /// The countersignature with the index `i`, over all attributes in the order read; the first is 0.
    pub fn countersignature(&self, i: u64) -> Option<SignerInfo<'a>>
        ensures { result ≡ option_map borrowed_signer (slice_get (below self.now) i) }
    {
        match self.unsigned_attrs() {
            Some(attributes) => countersignature_among(&attributes, i),
            None => None,
        }
    }
}

/// The countersignature with the index `i` among those of all attributes.
fn countersignature_among<'a>(attributes: &Attributes<'a>, i: u64) -> Option<SignerInfo<'a>>
    ensures { result
        ≡ option_map borrowed_signer (slice_get (countersignatures_in attributes.now) i) }
{
    let mut left = i;
    for attribute in attributes.iter() {
        let count = attribute.countersignature_count();
        if left < count {
            return attribute.countersignature(left);
        }
        left -= count;
    }
    None
}
