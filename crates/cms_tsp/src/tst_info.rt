//! TSTInfo (RFC 3161, section 2.4.2), the content of a time-stamp token. It is signed, and so it is
//! read in DER alone, and is never written in another way.
//!
//! `ordering` is read as an element `01 01 FF` that may be absent, and a string as a primitive one:
//! `Boolean` and `OctetsSpan` also read what DER does not have.
ghost use Rattle.std.specs.Prelude.{◌≡◌, ◌≢◌, ◌++◌, List, ℕ, Some, None, Ok, Err, map, option_map, IfOk, IfSome, OnOk, OnErr};
ghost use Rattle.std.specs.Option.{option_copied};
ghost use Rattle.cms_tlv.specs.Spelling.{join};
ghost use Rattle.cms_scalars.specs.Borrowed.{borrowed_integer, borrowed_oid};
ghost use Rattle.cms_scalars.specs.Times.{IsTimeOf, time_digits, time_fraction};
ghost use Rattle.cms_tsp.specs.TstInfo.{Accuracy, TstInfo, IsTstInfoOf, tst_info, tst_version, policy, tst_imprint, serial_number, gen_time, tst_accuracy, ordering, tst_nonce, tsa, tst_extensions, seconds, millis, micros};
ghost use Rattle.cms_tsp.specs.Spans.{KeepsTstInfo};
ghost use Rattle.cms_tsp.specs.declared.tst_info.TstFault.TheVariants.{NotTst};

use crate::request::MessageImprint;
use cms_fields::{Last, Only, OpaqueAmong, OptionalThen, Tagged, Then, Write, read_der};
use cms_message::AlgorithmIdentifierSpans;
use cms_scalars::{
    GenTime, GeneralizedTimeSpan, Integer, IntegerInRangeSpan, IntegerSpan, Octets, Oid, OidSpan,
    PrimitiveOctetsSpan, TimeFault, TrueSpan, texts_of_times_are_unambiguous,
};
use cms_tlv::{
    CONTEXT_0, CONTEXT_0_PRIMITIVE, CONTEXT_1, CONTEXT_1_PRIMITIVE, OCTET_STRING, SEQUENCE,
};
use std::alloc::{AllocError, Global};
use std::marker::Model;
use thiserror::Error;

/// `Accuracy ::= SEQUENCE { seconds INTEGER OPTIONAL, millis [0] INTEGER (1..999) OPTIONAL, micros [1]
/// INTEGER (1..999) OPTIONAL }`.
pub type AccuracySpans = Tagged<
    SEQUENCE,
    OptionalThen<
        IntegerSpan,
        OptionalThen<
            IntegerInRangeSpan<CONTEXT_0_PRIMITIVE, 1, 999>,
            Option<IntegerInRangeSpan<CONTEXT_1_PRIMITIVE, 1, 999>>,
        >,
    >,
>;

/// `MessageImprint`, by DER.
pub type ImprintSpans = Tagged<
    SEQUENCE,
    Then<AlgorithmIdentifierSpans, Last<PrimitiveOctetsSpan<OCTET_STRING>>>,
>;

/// `nonce INTEGER OPTIONAL, tsa [0] GeneralName OPTIONAL, extensions [1] IMPLICIT Extensions OPTIONAL`.
pub type AfterOrdering = OptionalThen<
    IntegerSpan,
    OptionalThen<OpaqueAmong<Only<CONTEXT_0>>, Option<OpaqueAmong<Only<CONTEXT_1>>>>,
>;

/// `ordering BOOLEAN DEFAULT FALSE` and the fields after it, by DER.
pub type AfterAccuracy = OptionalThen<TrueSpan, AfterOrdering>;

/// `TSTInfo ::= SEQUENCE { version, policy, messageImprint, serialNumber, genTime, accuracy OPTIONAL,
/// ordering DEFAULT FALSE, nonce OPTIONAL, tsa OPTIONAL, extensions OPTIONAL }`, by DER.
pub type TstInfoSpans = Tagged<
    SEQUENCE,
    Then<
        IntegerSpan,
        Then<
            OidSpan,
            Then<
                ImprintSpans,
                Then<
                    IntegerSpan,
                    Then<GeneralizedTimeSpan, OptionalThen<AccuracySpans, AfterAccuracy>>,
                >,
            >,
        >,
    >,
>;

/// Why octets could not be read as a TSTInfo.
#[derive(Clone, Copy, Debug, PartialEq, Eq, Error)]
pub enum TstFault {
    /// They are not a TSTInfo in DER.
    #[error("not a TSTInfo in DER")]
    NotTst,
    /// Out of memory.
    #[error("out of memory")]
    OutOfMemory,
}

impl From<AllocError> for TstFault {
    ghost use Rattle.std.specs.Prelude.{◌≡◌};
    ghost use Rattle.cms_tsp.specs.declared.tst_info.TstFault.TheVariants.{OutOfMemory};

    ghost from_gives = { λ _ e. e ≡ OutOfMemory };

    fn from(_: AllocError) -> TstFault {
        TstFault::OutOfMemory
    }
}

/// What is wrong with a time of a TSTInfo.
impl From<TimeFault> for TstFault {
    ghost use Rattle.std.specs.Prelude.{◌≡◌, ◌≢◌};
    ghost use Rattle.cms_scalars.specs.declared.times.TimeFault.TheVariants as TimeFault;
    ghost use Rattle.cms_tsp.specs.declared.tst_info.TstFault.TheVariants.{NotTst};

    ghost from_gives = { λ fault e. e ≡ NotTst → fault ≢ TimeFault.OutOfMemory };

    fn from(fault: TimeFault) -> TstFault {
        match fault {
            TimeFault::OutOfMemory => TstFault::OutOfMemory,
            _ => TstFault::NotTst,
        }
    }
}

/// What a time-stamp token says: what was stamped, when, by whom, and under which policy.
#[derive(Drop)]
pub struct TstInfo {
    kept: Vec<u8>,
    spans: TstInfoSpans,
    gen_time: GenTime,
}

impl Model for TstInfo {
    ghost Value = { TstInfo };

    ghost view = { λ x. ⟦<TstInfoSpans as Write>⟧.value x.kept.items x.spans };

    ghost invariant = { λ x. KeepsTstInfo x.kept.items
        (⟦<TstInfoSpans as Write>⟧.value x.kept.items x.spans) x.gen_time };
}

impl TstInfo {
    /// The TSTInfo that these octets are in DER, of which it keeps a copy. `NotTst` if they are none.
    pub fn from_der(alloc: Global, octets: &[u8]) -> Result<TstInfo, TstFault>
        ensures ok { IfOk result (tst_info octets.now) }
        ensures not_tst { result ≡ Err NotTst → (v : TstInfo) → tst_info octets.now v → ⊥ }
    {
        match read_der::<TstInfoSpans>(alloc, octets)? {
            Some((spans, kept)) => TstInfo::with_time(alloc, spans, kept),
            None => Err(TstFault::NotTst),
        }
    }

    /// The TSTInfo that the octets of the pieces, one after another, are in DER, if they are one. An
    /// error means out of memory.
    pub fn from_pieces(alloc: Global, pieces: &[&[u8]]) -> Result<Option<TstInfo>, AllocError>
        ensures { IfOk result (IsTstInfoOf (Some (join (map (λ p. p.now) pieces.now)))) }
    {
        match pieces {
            [whole] => read_tst_info(alloc, whole),
            pieces => read_tst_info(alloc, &joined(alloc, pieces)?),
        }
    }

    /// The TSTInfo that `kept` is, where its parts lie as `spans` says. An error means out of memory.
    fn with_time(alloc: Global, spans: TstInfoSpans, kept: Vec<u8>) -> Result<TstInfo, TstFault>
        requires { tst_info kept.items
            (⟦<TstInfoSpans as Write>⟧.value kept.items spans) }
        ensures ok { IfOk result (tst_info kept.items) }
        ensures err { result ≢ Err NotTst }
    {
        texts_of_times_are_unambiguous();
        let gen_time = GenTime::from_der(alloc, gen_time_of(&spans).0.span.octets(&kept))?;
        Ok(TstInfo {
            kept,
            spans,
            gen_time,
        })
    }

    /// The version: any INTEGER.
    pub fn version(&self) -> Integer<'_>
        ensures { borrowed_integer result ≡ tst_version self.now }
    {
        let Tagged(Then(version, _)) = &self.spans;
        Integer::new(version, &self.kept)
    }

    /// policy: the policy under which the token was made.
    pub fn policy(&self) -> Oid<'_>
        ensures { borrowed_oid result ≡ policy self.now }
    {
        let Tagged(Then(_, Then(policy, _))) = &self.spans;
        Oid::new(policy, &self.kept)
    }

    /// messageImprint: what was time-stamped.
    pub fn message_imprint(&self) -> MessageImprint<'_>
        ensures { result ≡ tst_imprint self.now }
    {
        let Tagged(Then(_, Then(_, Then(imprint, _)))) = &self.spans;
        let Tagged(Then(algorithm, Last(digest))) = imprint;
        MessageImprint::new(
            algorithm,
            Octets::of_primitive(digest, &self.kept),
            &self.kept,
        )
    }

    /// serialNumber: the number of the token among those of its authority.
    pub fn serial_number(&self) -> Integer<'_>
        ensures { borrowed_integer result ≡ serial_number self.now }
    {
        let Tagged(Then(_, Then(_, Then(_, Then(serial_number, _))))) = &self.spans;
        Integer::new(serial_number, &self.kept)
    }

    /// genTime: when the token was made.
    pub fn gen_time(&self) -> &GenTime
        ensures { IsTimeOf (gen_time self.now) (time_digits result.now) (time_fraction result.now) }
    {
        &self.gen_time
    }

    /// accuracy: by how much genTime may be off, if that is said.
    pub fn accuracy(&self) -> Option<Accuracy<'_>>
        ensures { result ≡ tst_accuracy self.now }
    {
        let OptionalThen(accuracy, _) = after_gen_time(&self.spans);
        match accuracy {
            Some(spans) => Some(Accuracy {
                kept: &self.kept,
                spans,
            }),
            None => None,
        }
    }

    /// ordering: whether tokens of the authority can be ordered by genTime alone.
    pub fn ordering(&self) -> bool
        ensures { result ≡ ordering self.now }
    {
        let OptionalThen(_, OptionalThen(ordering, _)) = after_gen_time(&self.spans);
        ordering.is_some()
    }

    /// nonce: that of the request, if it had one.
    pub fn nonce(&self) -> Option<Integer<'_>>
        ensures { option_map borrowed_integer result ≡ tst_nonce self.now }
    {
        let OptionalThen(nonce, _) = after_ordering(&self.spans);
        match nonce {
            Some(nonce) => Some(Integer::new(nonce, &self.kept)),
            None => None,
        }
    }

    /// The octets of tsa, one element: a name of the authority, if it is present.
    pub fn tsa(&self) -> Option<&[u8]>
        ensures { option_copied result ≡ tsa self.now }
    {
        let OptionalThen(_, OptionalThen(tsa, _)) = after_ordering(&self.spans);
        match tsa {
            Some(OpaqueAmong(element)) => Some(element.span.octets(&self.kept)),
            None => None,
        }
    }

    /// The octets of extensions, one element, if they are present.
    pub fn extensions(&self) -> Option<&[u8]>
        ensures { option_copied result ≡ tst_extensions self.now }
    {
        let OptionalThen(_, OptionalThen(_, extensions)) = after_ordering(&self.spans);
        match extensions {
            Some(OpaqueAmong(element)) => Some(element.span.octets(&self.kept)),
            None => None,
        }
    }

    /// The octets in DER, as they were read.
    pub fn octets(&self) -> &[u8]
        ensures { tst_info result.now self.now }
    {
        &self.kept
    }

    /// Appends the octets in DER, as they were read. An error means out of memory; `out` is then as it
    /// was. `alloc` is not used.
    pub fn put(&self, alloc: Global, out: &mut Vec<u8>) -> Result<(), AllocError>
        ensures ok { OnOk result ((b : List ℕ) × (out.new.items ≡ out.old.items ++ b)
            × tst_info b self.now) }
        ensures err { OnErr result (out.new.items ≡ out.old.items) }
    {
        out.extend_from_slice(self.octets())
    }
}

/// Where the parts of the TSTInfo lie that these octets are in DER, if they are one. An error means out of
/// memory.
pub fn tst_info_spans(alloc: Global, octets: &[u8]) -> Result<Option<TstInfoSpans>, AllocError>
    ensures found { IfOk result (λ found. IfSome found (λ spans. tst_info octets.now
        (⟦<TstInfoSpans as Write>⟧.value octets.now spans))) }
    ensures none { result ≡ Ok None → (v : TstInfo) → tst_info octets.now v → ⊥ }
{
    match read_der::<TstInfoSpans>(alloc, octets) {
        Ok(Some((spans, _))) => Ok(Some(spans)),
        Ok(None) => Ok(None),
        Err(fault) => Err(fault),
    }
}

/// All pieces, one after another. An error means out of memory.
fn joined(alloc: Global, pieces: &[&[u8]]) -> Result<Vec<u8>, AllocError>
    ensures { IfOk result (λ v. v.items ≡ join (map (λ p. p.now) pieces.now)) }
{
    let mut octets = Vec::new(alloc);
    for piece in pieces {
        octets.extend_from_slice(piece)?;
    }
    Ok(octets)
}

/// The TSTInfo that octets are in DER, if they are one. An error means out of memory.
fn read_tst_info(alloc: Global, octets: &[u8]) -> Result<Option<TstInfo>, AllocError>
    ensures { IfOk result (IsTstInfoOf (Some octets.now)) }
{
    match TstInfo::from_der(alloc, octets) {
        Ok(tst_info) => Ok(Some(tst_info)),
        Err(TstFault::NotTst) => Ok(None),
        Err(TstFault::OutOfMemory) => Err(AllocError),
    }
}

fn gen_time_of(spans: &TstInfoSpans) -> &GeneralizedTimeSpan
    ensures { result.now ≡ spans.now.0.1.1.1.1.0 }
{
    let Tagged(Then(_, Then(_, Then(_, Then(_, Then(gen_time, _)))))) = spans;
    gen_time
}

fn after_gen_time(spans: &TstInfoSpans) -> &OptionalThen<AccuracySpans, AfterAccuracy>
    ensures { result.now ≡ spans.now.0.1.1.1.1.1 }
{
    let Tagged(Then(_, Then(_, Then(_, Then(_, Then(_, after_gen_time)))))) = spans;
    after_gen_time
}

fn after_ordering(spans: &TstInfoSpans) -> &AfterOrdering
    ensures { result.now ≡ spans.now.0.1.1.1.1.1.1.1 }
{
    let OptionalThen(_, OptionalThen(_, after_ordering)) = after_gen_time(spans);
    after_ordering
}

/// By how much a time may be off.
#[derive(Clone, Drop)]
pub struct Accuracy<'a> {
    kept: &'a [u8],
    spans: &'a AccuracySpans,
}

impl<'a> Model for Accuracy<'a> {
    ghost Value = { Accuracy };

    ghost view = { λ x. ⟦<AccuracySpans as Write>⟧.value x.kept.now x.spans.now };
}

impl<'a> Accuracy<'a> {
    /// seconds, if they are present: any INTEGER.
    pub fn seconds(&self) -> Option<Integer<'a>>
        ensures { option_map borrowed_integer result ≡ seconds self.now }
    {
        let Tagged(OptionalThen(seconds, _)) = self.spans;
        match seconds {
            Some(seconds) => Some(Integer::new(seconds, self.kept)),
            None => None,
        }
    }

    /// millis, if they are present: from 1 to 999.
    pub fn millis(&self) -> Option<Integer<'a>>
        ensures { option_map borrowed_integer result ≡ millis self.now }
    {
        let Tagged(OptionalThen(_, OptionalThen(millis, _))) = self.spans;
        match millis {
            Some(millis) => Some(Integer::new(&millis.0, self.kept)),
            None => None,
        }
    }

    /// micros, if they are present: from 1 to 999.
    pub fn micros(&self) -> Option<Integer<'a>>
        ensures { option_map borrowed_integer result ≡ micros self.now }
    {
        let Tagged(OptionalThen(_, OptionalThen(_, micros))) = self.spans;
        match micros {
            Some(micros) => Some(Integer::new(&micros.0, self.kept)),
            None => None,
        }
    }
}
