//! AlgorithmIdentifier (RFC 5652, section 10.1; RFC 5280, section 4.1.1.2).
ghost use Rattle.std.specs.Prelude.{◌≡◌, ◌==◌};
ghost use Rattle.std.specs.Option.{option_copied};
ghost use Rattle.cms_tlv.specs.declared.tags.TheConstants.{SEQUENCE};
ghost use Rattle.cms_scalars.specs.Borrowed.{borrowed_oid};
ghost use Rattle.cms_message.specs.Algorithms.{AlgorithmIdentifier, algorithm_identifier, algorithm, parameters};
ghost use Rattle.cms_message.specs.Spanned.{algorithm_identifier_spanned};

use cms_fields::{Field, Opaque, Sink, Stop, Tagged, Then, Write};
use cms_scalars::{Oid, OidSpan};
use cms_tlv::{Bound, Fault, Input, SEQUENCE, Source};
use std::marker::Model;

/// `AlgorithmIdentifier ::= SEQUENCE { algorithm OBJECT IDENTIFIER, parameters ANY OPTIONAL }`.
///
/// A type of its own around its term.
pub struct AlgorithmIdentifierSpans(pub AlgorithmIdentifierParts);

pub type AlgorithmIdentifierParts = Tagged<SEQUENCE, Then<OidSpan, Option<Opaque>>>;

impl Drop for AlgorithmIdentifierSpans {
    fn drop(self) {
        let AlgorithmIdentifierSpans(_) = self;
    }
}

impl Write for AlgorithmIdentifierSpans {
    ghost Value = { AlgorithmIdentifier };

    ghost grammar = { algorithm_identifier };

    ghost value = { algorithm_identifier_spanned };

    fn emit<S: Sink>(&self, kept: &[u8], sink: &mut S) -> Result<(), Stop> {
        self.0.emit(kept, sink)
    }

    fn law() {
        AlgorithmIdentifierParts::law();
    }
}

impl Field for AlgorithmIdentifierSpans {
    fn read<R: Input>(
        source: &mut Source<R>,
        bound: &Bound,
    ) -> Result<AlgorithmIdentifierSpans, Fault> {
        match <AlgorithmIdentifierParts as Field>::read(source, bound) {
            Ok(parts) => Ok(AlgorithmIdentifierSpans(parts)),
            Err(fault) => Err(fault),
        }
    }

    fn begins_with(octet: u8) -> bool {
        octet == SEQUENCE
    }
}

/// An algorithm and its parameters.
#[derive(Clone, Drop)]
pub struct AlgorithmIdentifier<'a> {
    kept: &'a [u8],
    spans: &'a AlgorithmIdentifierSpans,
}

impl<'a> Model for AlgorithmIdentifier<'a> {
    ghost Value = { AlgorithmIdentifier };

    ghost view = { λ x. algorithm_identifier_spanned x.kept.now x.spans.now };
}

impl<'a> AlgorithmIdentifier<'a> {
    /// The algorithm whose parts `spans` names in `kept`.
    pub fn new(spans: &'a AlgorithmIdentifierSpans, kept: &'a [u8]) -> AlgorithmIdentifier<'a>
        ensures { result ≡ algorithm_identifier_spanned kept.now spans.now }
    {
        AlgorithmIdentifier { kept, spans }
    }

    /// The algorithm's identifier.
    pub fn algorithm(&self) -> Oid<'a>
        ensures { borrowed_oid result ≡ algorithm self.now }
    {
        let AlgorithmIdentifierSpans(Tagged(Then(algorithm, _))) = self.spans;
        Oid::new(algorithm, self.kept)
    }

    /// The octets of the parameters, one element; none if they are absent. NULL is not absent: it is
    /// `05 00`.
    pub fn parameters(&self) -> Option<&'a [u8]>
        ensures { option_copied result ≡ parameters self.now }
    {
        let AlgorithmIdentifierSpans(Tagged(Then(_, parameters))) = self.spans;
        match parameters {
            Some(Opaque(element)) => Some(element.span.octets(self.kept)),
            None => None,
        }
    }
}
