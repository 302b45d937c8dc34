//! SignedData (RFC 5652, section 5.1).
ghost use Rattle.std.specs.Prelude.{◌≡◌, ◌==◌, true, false, length, slice_get, option_map, bytes_eq};
ghost use Rattle.std.specs.List.{list_any};
ghost use Rattle.cms_tlv.specs.Spelling.{join};
ghost use Rattle.cms_tlv.specs.declared.tags.TheConstants.{SEQUENCE};
ghost use Rattle.cms_scalars.specs.Borrowed.{borrowed_integer, borrowed_oid, borrowed_pieces};
ghost use Rattle.cms_message.specs.SignedData.{SignedData, after_content, signed_data, signed_data_version, digest_algorithms, encap_content_info, e_content_type, e_content, certificates, crls, borrowed_signers};
ghost use Rattle.cms_scalars.specs.ObjectIdentifiers.{id_data};
ghost use Rattle.cms_message.specs.Versions.{due_version, has_choice, is_version_3};
ghost use Rattle.cms_message.specs.Spanned.{signed_data_spanned};
ghost use Rattle.cms_message.specs.Spans as spans;

use crate::algorithm::{AlgorithmIdentifier, AlgorithmIdentifierSpans};
use crate::choices::{
    CertificateChoices, CertificateSetSpans, Choices, RevocationInfoChoice,
    RevocationInfoChoicesSpans, has_choice,
};
use crate::digest_algorithms::DigestAlgorithmIdentifiers;
use crate::signer_info::{SignerInfo, SignerSpans};
use crate::signer_infos::SignerInfos;
use cms_fields::{Field, Fields, Last, OptionalThen, Sink, Stop, Tagged, Then, Write};
use cms_scalars::{ID_DATA, Integer, IntegerSpan, Octets, OctetsSpan, Oid, OidSpan};
use cms_setof::SetOf;
use cms_tlv::{
    Bound, CONTEXT_0, CONTEXT_1, CONTEXT_2, CONTEXT_3, Fault, Input, OCTET_STRING, SEQUENCE, SET,
    Source,
};
use std::marker::Model;

/// `EncapsulatedContentInfo ::= SEQUENCE { eContentType OBJECT IDENTIFIER, eContent [0] EXPLICIT OCTET
/// STRING OPTIONAL }` (RFC 5652, section 5.2).
pub type EncapsulatedContentInfoSpans = Tagged<
    SEQUENCE,
    Then<OidSpan, Option<Tagged<CONTEXT_0, Last<OctetsSpan<OCTET_STRING>>>>>,
>;

/// `certificates [0] IMPLICIT CertificateSet OPTIONAL, crls [1] IMPLICIT RevocationInfoChoices OPTIONAL,
/// signerInfos SET OF SignerInfo`: the fields of a SignedData after encapContentInfo.
///
/// A type of its own around its term.
pub struct SignedDataAfterContent(pub AfterContentParts);

pub type AfterContentParts = OptionalThen<
    CertificateSetSpans,
    OptionalThen<RevocationInfoChoicesSpans, Last<Tagged<SET, SetOf<SignerSpans>>>>,
>;

impl Drop for SignedDataAfterContent {
    fn drop(self) {
        let SignedDataAfterContent(_) = self;
    }
}

impl Write for SignedDataAfterContent {
    ghost Value = { ⟦<AfterContentParts as Write>⟧.Value };

    ghost grammar = { after_content };

    ghost value = { λ k x. ⟦<AfterContentParts as Write>⟧.value k x.0 };

    fn emit<S: Sink>(&self, kept: &[u8], sink: &mut S) -> Result<(), Stop> {
        let SignedDataAfterContent(parts) = self;
        parts.emit(kept, sink)
    }

    fn law() {
        AfterContentParts::law();
    }
}

impl Fields for SignedDataAfterContent {
    fn read_to_end<R: Input>(
        source: &mut Source<R>,
        bound: Bound,
    ) -> Result<SignedDataAfterContent, Fault> {
        match <AfterContentParts as Fields>::read_to_end(source, bound) {
            Ok(parts) => Ok(SignedDataAfterContent(parts)),
            Err(fault) => Err(fault),
        }
    }
}

impl SignedDataAfterContent {
    fn certificates(&self) -> &Option<CertificateSetSpans>
        ensures { result.now ≡ spans.certificates self.now }
    {
        let SignedDataAfterContent(OptionalThen(certificates, _)) = self;
        certificates
    }

    fn crls(&self) -> &Option<RevocationInfoChoicesSpans>
        ensures { result.now ≡ spans.crls self.now }
    {
        let SignedDataAfterContent(OptionalThen(_, OptionalThen(crls, _))) = self;
        crls
    }

    fn signer_infos(&self) -> &SetOf<SignerSpans>
        ensures { result.now ≡ spans.signer_infos self.now }
    {
        let SignedDataAfterContent(OptionalThen(_, OptionalThen(_, Last(Tagged(signer_infos))))) =
            self;
        signer_infos
    }
}

/// `SignedData ::= SEQUENCE { version INTEGER, digestAlgorithms SET OF AlgorithmIdentifier,
/// encapContentInfo EncapsulatedContentInfo, certificates [0] IMPLICIT CertificateSet OPTIONAL, crls
/// [1] IMPLICIT RevocationInfoChoices OPTIONAL, signerInfos SET OF SignerInfo }`.
///
/// A type of its own around its term.
pub struct SignedDataSpans(pub SignedDataParts);

impl Drop for SignedDataSpans {
    fn drop(self) {
        let SignedDataSpans(_) = self;
    }
}

pub type SignedDataParts = Tagged<
    SEQUENCE,
    Then<
        IntegerSpan,
        Then<
            Tagged<SET, SetOf<AlgorithmIdentifierSpans>>,
            Then<EncapsulatedContentInfoSpans, SignedDataAfterContent>,
        >,
    >,
>;

impl Write for SignedDataSpans {
    ghost Value = { SignedData };

    ghost grammar = { signed_data };

    ghost value = { signed_data_spanned };

    fn emit<S: Sink>(&self, kept: &[u8], sink: &mut S) -> Result<(), Stop> {
        self.0.emit(kept, sink)
    }

    fn law() {
        SignedDataParts::law();
    }
}

impl Field for SignedDataSpans {
    fn read<R: Input>(source: &mut Source<R>, bound: &Bound) -> Result<SignedDataSpans, Fault> {
        match <SignedDataParts as Field>::read(source, bound) {
            Ok(parts) => Ok(SignedDataSpans(parts)),
            Err(fault) => Err(fault),
        }
    }

    fn begins_with(octet: u8) -> bool {
        octet == SEQUENCE
    }
}

impl SignedDataSpans {
    fn version(&self) -> &IntegerSpan
        ensures { result.now ≡ spans.version self.now }
    {
        let SignedDataSpans(Tagged(Then(version, _))) = self;
        version
    }

    fn digest_algorithms(&self) -> &SetOf<AlgorithmIdentifierSpans>
        ensures { result.now ≡ spans.digest_algorithms self.now }
    {
        let SignedDataSpans(Tagged(Then(_, Then(Tagged(digest_algorithms), _)))) = self;
        digest_algorithms
    }

    fn encap_content_info(&self) -> &EncapsulatedContentInfoSpans
        ensures { result.now ≡ spans.encap_content_info self.now }
    {
        let SignedDataSpans(Tagged(Then(_, Then(_, Then(encap_content_info, _))))) = self;
        encap_content_info
    }

    /// The fields after encapContentInfo.
    fn after_content(&self) -> &SignedDataAfterContent
        ensures { result.now ≡ spans.after_content self.now }
    {
        let SignedDataSpans(Tagged(Then(_, Then(_, Then(_, after_content))))) = self;
        after_content
    }
}

/// What is signed, and by whom.
#[derive(Clone, Drop)]
pub struct SignedData<'a> {
    kept: &'a [u8],
    spans: &'a SignedDataSpans,
}

impl<'a> Model for SignedData<'a> {
    ghost Value = { SignedData };

    ghost view = { λ x. signed_data_spanned x.kept.now x.spans.now };
}

impl<'a> SignedData<'a> {
    /// The SignedData whose parts `spans` names in `kept`.
    pub(crate) fn new(spans: &'a SignedDataSpans, kept: &'a [u8]) -> SignedData<'a>
        ensures { result ≡ signed_data_spanned kept.now spans.now }
    {
        SignedData { kept, spans }
    }

    /// The version: any INTEGER.
    pub fn version(&self) -> Integer<'a>
        ensures { borrowed_integer result ≡ signed_data_version self.now }
    {
        Integer::new(self.spans.version(), self.kept)
    }

    /// The digest algorithms, in the order read.
    pub fn digest_algorithms(&self) -> DigestAlgorithmIdentifiers<'a>
        ensures { result ≡ digest_algorithms self.now }
    {
        DigestAlgorithmIdentifiers::new(SignedData::new(self.spans, self.kept))
    }

    pub(crate) fn digest_algorithm_count(&self) -> u64
        ensures { result ≡ length (digest_algorithms self.now) }
    {
        self.spans.digest_algorithms().len()
    }

    /// The digest algorithm with the index `i`, in the order read; the first is 0.
    pub fn digest_algorithm(&self, i: u64) -> Option<AlgorithmIdentifier<'a>>
        ensures { result ≡ slice_get (digest_algorithms self.now) i }
    {
        match self.spans.digest_algorithms().get(i) {
            Some(spans) => Some(AlgorithmIdentifier::new(spans, self.kept)),
            None => None,
        }
    }

    /// eContentType: the type of the content that is signed.
    pub fn content_type(&self) -> Oid<'a>
        ensures { borrowed_oid result ≡ e_content_type (encap_content_info self.now) }
    {
        let Tagged(Then(content_type, _)) = self.spans.encap_content_info();
        Oid::new(content_type, self.kept)
    }

    /// eContent: the content that is signed, if it is attached.
    pub fn content(&self) -> Option<Octets<'a>>
        ensures { option_map (λ c. join (borrowed_pieces c)) result
            ≡ e_content (encap_content_info self.now) }
    {
        let Tagged(Then(_, content)) = self.spans.encap_content_info();
        match content {
            Some(Tagged(Last(content))) => Some(Octets::new(content, self.kept)),
            None => None,
        }
    }

    /// certificates, if the field is present; it may have no members.
    pub fn certificates(&self) -> Option<Choices<'a, CertificateChoices>>
        ensures { result ≡ certificates self.now }
    {
        match self.spans.after_content().certificates() {
            Some(Tagged(set)) => Some(Choices::new(set, self.kept)),
            None => None,
        }
    }

    /// crls, if the field is present; it may have no members.
    pub fn crls(&self) -> Option<Choices<'a, RevocationInfoChoice>>
        ensures { result ≡ crls self.now }
    {
        match self.spans.after_content().crls() {
            Some(Tagged(set)) => Some(Choices::new(set, self.kept)),
            None => None,
        }
    }

    /// The signers, in the order read.
    pub fn signers(&self) -> SignerInfos<'a>
        ensures { result ≡ borrowed_signers self.now }
    {
        SignerInfos::new(SignedData::new(self.spans, self.kept))
    }

    pub(crate) fn signer_count(&self) -> u64
        ensures { result ≡ length (borrowed_signers self.now) }
    {
        self.spans.after_content().signer_infos().len()
    }

    /// The signer with the index `i`, in the order read; the first is 0.
    pub fn signer(&self, i: u64) -> Option<SignerInfo<'a>>
        ensures { result ≡ slice_get (borrowed_signers self.now) i }
    {
        match self.spans.after_content().signer_infos().get(i) {
            Some(SignerSpans(spans)) => Some(SignerInfo::new(spans, self.kept)),
            None => None,
        }
    }

    /// The version that the message should have (RFC 5652, section 5.1).
    pub fn due_version(&self) -> u8
        ensures { result ≡ due_version self.now }
    {
        if has_choice(self.certificates(), CONTEXT_3) || has_choice(self.crls(), CONTEXT_1) {
            5
        } else if has_choice(self.certificates(), CONTEXT_2) {
            4
        } else if has_choice(self.certificates(), CONTEXT_1)
            || self.has_signer_of_version_3()
            || !self.is_data()
        {
            3
        } else {
            1
        }
    }

    fn has_signer_of_version_3(&self) -> bool
        ensures { result ≡ list_any is_version_3 (borrowed_signers self.now) }
    {
        for signer in self.signers() {
            if signer.version().octets() == b"\x03".as_slice() {
                return true;
            }
        }
        false
    }

    /// Whether eContentType is id-data.
    pub fn is_data(&self) -> bool
        ensures { result ≡ bytes_eq (e_content_type (encap_content_info self.now)) id_data }
    {
        self.content_type().octets() == ID_DATA
    }
}
