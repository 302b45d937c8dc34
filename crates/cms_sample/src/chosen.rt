//! A record whose first field says what follows it.
ghost use Rattle.cms_fields.specs.Grammar.{FieldLaws};
ghost use Rattle.cms_sample.specs.Chosen.{chosen};

use cms_fields::{Last, Selected, Selector, Tagged, record_laws};
use cms_scalars::{IntegerOctets, NamedBitsSpan, OidSpan};
use cms_tlv::{INTEGER, SEQUENCE};

/// The contents octets of the INTEGER 1.
const ONE: &[u8] = b"\x01";

/// Selects the INTEGER 1.
#[derive(Drop)]
pub struct IsOne;

impl Selector for IsOne {
    ghost use Rattle.cms_sample.specs.Chosen.{is_one};

    ghost test = { is_one };

    fn selects(octets: &[u8]) -> bool {
        octets == ONE
    }
}

/// `Chosen ::= SEQUENCE { kind INTEGER, value ANY DEFINED BY kind }`: a BIT STRING with named bits if kind
/// is 1, else an OBJECT IDENTIFIER.
pub type ChosenSpans = Tagged<
    SEQUENCE,
    Selected<INTEGER, IntegerOctets, IsOne, Last<NamedBitsSpan>, Last<OidSpan>>,
>;

/// Does nothing. Its contract says of such a record what `Write::law` says of a field, in terms of its
/// definition.
pub fn chosen_laws()
    ensures laws { FieldLaws chosen }
{
    record_laws::<ChosenSpans>();
}
