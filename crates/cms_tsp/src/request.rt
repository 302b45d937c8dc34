//! TimeStampReq (RFC 3161, section 2.4.1).
ghost use Rattle.std.specs.Prelude.{◌≡◌, None, true, IfErr, option_map};
ghost use Rattle.std.specs.Option.{option_copied};
ghost use Rattle.cms_tlv.specs.Spelling.{join};
ghost use Rattle.cms_tlv.specs.RefusalReasons.{SaysWhy};
ghost use Rattle.cms_fields.specs.ReadingCalls.{ReadsContents};
ghost use Rattle.cms_scalars.specs.Borrowed.{borrowed_integer, borrowed_oid, borrowed_pieces};
ghost use Rattle.cms_message.specs.Spanned.{algorithm_identifier_spanned};
ghost use Rattle.cms_tsp.specs.Requests.{MessageImprint, TimeStampReq, hash_algorithm, hashed_message, req_version, imprint, req_policy, nonce, cert_req, extensions, after_version, time_stamp_req_fields};
ghost use Rattle.cms_tsp.specs.Spans.{after_nonce};

use crate::laws::request_laws;
use cms_fields::{
    Fields, Last, Only, OpaqueAmong, OptionalThen, Sink, Stop, Tagged, Then, Write,
    read_after_header,
};
use cms_message::{AlgorithmIdentifier, AlgorithmIdentifierSpans};
use cms_scalars::{DefaultFalseThen, Integer, IntegerSpan, Octets, OctetsSpan, Oid, OidSpan};
use cms_tlv::{Bound, CONTEXT_0, Fault, Input, OCTET_STRING, SEQUENCE, Source};
use std::marker::Model;

/// `MessageImprint ::= SEQUENCE { hashAlgorithm AlgorithmIdentifier, hashedMessage OCTET STRING }`.
pub type MessageImprintSpans = Tagged<
    SEQUENCE,
    Then<AlgorithmIdentifierSpans, Last<OctetsSpan<OCTET_STRING>>>,
>;

/// `[0] IMPLICIT Extensions`, octet for octet.
pub type ExtensionsSpan = OpaqueAmong<Only<CONTEXT_0>>;

/// `messageImprint MessageImprint, reqPolicy OBJECT IDENTIFIER OPTIONAL, nonce INTEGER OPTIONAL, certReq
/// BOOLEAN DEFAULT FALSE, extensions [0] IMPLICIT Extensions OPTIONAL`.
///
/// A type of its own around its term.
pub struct TimeStampReqTail(pub RequestParts);

pub type RequestParts = Then<
    MessageImprintSpans,
    OptionalThen<OidSpan, OptionalThen<IntegerSpan, DefaultFalseThen<Option<ExtensionsSpan>>>>,
>;

impl Drop for TimeStampReqTail {
    fn drop(self) {
        let TimeStampReqTail(_) = self;
    }
}

impl Write for TimeStampReqTail {
    ghost Value = { ⟦<RequestParts as Write>⟧.Value };

    ghost grammar = { after_version };

    ghost value = { λ k x. ⟦<RequestParts as Write>⟧.value k x.0 };

    fn emit<S: Sink>(&self, kept: &[u8], sink: &mut S) -> Result<(), Stop> {
        self.0.emit(kept, sink)
    }

    fn law() {
        RequestParts::law();
    }
}

impl Fields for TimeStampReqTail {
    fn read_to_end<R: Input>(
        source: &mut Source<R>,
        bound: Bound,
    ) -> Result<TimeStampReqTail, Fault> {
        match <RequestParts as Fields>::read_to_end(source, bound) {
            Ok(parts) => Ok(TimeStampReqTail(parts)),
            Err(fault) => Err(fault),
        }
    }
}

impl TimeStampReqTail {
    /// The fields after nonce.
    fn after_nonce(&self) -> &DefaultFalseThen<Option<ExtensionsSpan>>
        ensures { result.now ≡ after_nonce self.now }
    {
        let TimeStampReqTail(Then(_, OptionalThen(_, OptionalThen(_, after_nonce)))) = self;
        after_nonce
    }
}

/// `version INTEGER` and the fields after it.
pub type TimeStampReqFields = Then<IntegerSpan, TimeStampReqTail>;

/// `TimeStampReq ::= SEQUENCE { version, messageImprint, reqPolicy OPTIONAL, nonce OPTIONAL, certReq
/// DEFAULT FALSE, extensions OPTIONAL }`.
pub type TimeStampReqSpans = Tagged<SEQUENCE, TimeStampReqFields>;

/// Reads the fields of a TimeStampReq after its header, and their end; `inner` is where they end.
pub fn read_request<R: Input>(
    source: &mut Source<R>,
    inner: Bound,
) -> Result<TimeStampReqSpans, Fault>
    ensures reads { ReadsContents time_stamp_req_fields inner
        ⟦<TimeStampReqSpans as Write>⟧.value source.old source.new result }
    ensures why { source.old.fault ≡ None
        → IfErr result (SaysWhy true time_stamp_req_fields.malformed source.old source.new) }
{
    request_laws();
    read_after_header(source, inner)
}

/// What is time-stamped: a digest, and the algorithm that made it.
#[derive(Clone, Drop)]
pub struct MessageImprint<'a> {
    kept: &'a [u8],
    hash_algorithm: &'a AlgorithmIdentifierSpans,
    hashed_message: Octets<'a>,
}

impl<'a> Model for MessageImprint<'a> {
    ghost Value = { MessageImprint };

    ghost view = { λ x. (
      algorithm_identifier_spanned x.kept.now x.hash_algorithm.now,
      join (borrowed_pieces x.hashed_message),
    ) };
}

impl<'a> MessageImprint<'a> {
    /// The imprint whose algorithm `hash_algorithm` names in `kept`.
    pub(crate) fn new(
        hash_algorithm: &'a AlgorithmIdentifierSpans,
        hashed_message: Octets<'a>,
        kept: &'a [u8],
    ) -> MessageImprint<'a>
        ensures { result ≡ (
          algorithm_identifier_spanned kept.now hash_algorithm.now,
          join (borrowed_pieces hashed_message.entry),
        ) }
    {
        MessageImprint {
            kept,
            hash_algorithm,
            hashed_message,
        }
    }

    /// hashAlgorithm.
    pub fn hash_algorithm(&self) -> AlgorithmIdentifier<'a>
        ensures { result ≡ hash_algorithm self.now }
    {
        AlgorithmIdentifier::new(self.hash_algorithm, self.kept)
    }

    /// hashedMessage: the digest.
    pub fn hashed_message(&self) -> Octets<'a>
        ensures { join (borrowed_pieces result) ≡ hashed_message self.now }
    {
        self.hashed_message
    }
}

/// A request for a time-stamp.
#[derive(Clone, Drop)]
pub struct TimeStampReq<'a> {
    kept: &'a [u8],
    fields: &'a TimeStampReqFields,
}

impl<'a> Model for TimeStampReq<'a> {
    ghost Value = { TimeStampReq };

    ghost view = { λ x. ⟦<TimeStampReqFields as Write>⟧.value x.kept.now x.fields.now };
}

impl<'a> TimeStampReq<'a> {
    /// The request whose fields `fields` names in `kept`.
    pub fn new(fields: &'a TimeStampReqFields, kept: &'a [u8]) -> TimeStampReq<'a>
        ensures { result ≡ ⟦<TimeStampReqFields as Write>⟧.value kept.now fields.now }
    {
        TimeStampReq { kept, fields }
    }

    /// The version: any INTEGER.
    pub fn version(&self) -> Integer<'a>
        ensures { borrowed_integer result ≡ req_version self.now }
    {
        let Then(version, _) = self.fields;
        Integer::new(version, self.kept)
    }

    /// messageImprint: what is to be time-stamped.
    pub fn message_imprint(&self) -> MessageImprint<'a>
        ensures { result ≡ imprint self.now }
    {
        let Then(_, TimeStampReqTail(Then(imprint, _))) = self.fields;
        let Tagged(Then(algorithm, Last(digest))) = imprint;
        MessageImprint::new(algorithm, Octets::new(digest, self.kept), self.kept)
    }

    /// reqPolicy: the policy that is asked for.
    pub fn req_policy(&self) -> Option<Oid<'a>>
        ensures { option_map borrowed_oid result ≡ req_policy self.now }
    {
        let Then(_, TimeStampReqTail(Then(_, OptionalThen(policy, _)))) = self.fields;
        match policy {
            Some(policy) => Some(Oid::new(policy, self.kept)),
            None => None,
        }
    }

    /// nonce: a number that the response is to repeat.
    pub fn nonce(&self) -> Option<Integer<'a>>
        ensures { option_map borrowed_integer result ≡ nonce self.now }
    {
        let Then(_, TimeStampReqTail(Then(_, OptionalThen(_, OptionalThen(nonce, _))))) =
            self.fields;
        match nonce {
            Some(nonce) => Some(Integer::new(nonce, self.kept)),
            None => None,
        }
    }

    /// certReq: whether the response is to hold the authority's certificate.
    pub fn cert_req(&self) -> bool
        ensures { result ≡ cert_req self.now }
    {
        let Then(_, after_version) = self.fields;
        let DefaultFalseThen(cert_req, _) = after_version.after_nonce();
        *cert_req
    }

    /// The octets of extensions, one element, if they are present.
    pub fn extensions(&self) -> Option<&'a [u8]>
        ensures { option_copied result ≡ extensions self.now }
    {
        let Then(_, after_version) = self.fields;
        let DefaultFalseThen(_, extensions) = after_version.after_nonce();
        match extensions {
            Some(OpaqueAmong(element)) => Some(element.span.octets(self.kept)),
            None => None,
        }
    }
}
