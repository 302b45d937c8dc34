//! A record of five fields, one of them optional, much like a signer.
ghost use Rattle.cms_fields.specs.Grammar.{FieldLaws};
ghost use Rattle.cms_sample.specs.Samples.{sample};

use crate::texts::TextSpan;
use cms_fields::{Choice, Last, Opaque, OptionalThen, Tagged, Then, record_laws};
use cms_scalars::{IntegerSpan, OidSpan, PrimitiveOctetsSpan};
use cms_setof::NonEmptySetOf;
use cms_tlv::{CONTEXT_0, CONTEXT_0_PRIMITIVE, SEQUENCE};

/// `SampleAttribute ::= SEQUENCE { attrType OBJECT IDENTIFIER, attrValue ANY }`.
pub type SampleAttributeSpans = Tagged<SEQUENCE, Then<OidSpan, Last<Opaque>>>;

/// `Sample ::= SEQUENCE { version INTEGER, sid CHOICE { serialNumber INTEGER, subjectKeyIdentifier [0]
/// OCTET STRING }, signedAttrs [0] SET SIZE (1..MAX) OF SampleAttribute OPTIONAL, signatureAlgorithm
/// OBJECT IDENTIFIER, signature OCTET STRING }`, its tags implicit.
pub type SampleSpans = Tagged<
    SEQUENCE,
    Then<
        IntegerSpan,
        Then<
            Choice<IntegerSpan, PrimitiveOctetsSpan<CONTEXT_0_PRIMITIVE>>,
            OptionalThen<
                Tagged<CONTEXT_0, NonEmptySetOf<SampleAttributeSpans>>,
                Then<OidSpan, Last<TextSpan>>,
            >,
        >,
    >,
>;

/// Does nothing. Its contract says of a sample what `Write::law` says of a field, in terms of the
/// definition of samples.
pub fn sample_laws()
    ensures laws { FieldLaws sample }
{
    record_laws::<SampleSpans>();
}
