//! Unsigned attributes, of which some hold countersignatures (RFC 5652, section 11.4).
//!
//! Each depth is a type of its own (`SignerAtDepth4` to `SignerSpans`), so that no depth 5 is a fact of
//! types, and each depth has the reader, the writer and the laws of a signer. In one list with numbers,
//! an invariant would have to say that each number names an earlier signer, and each once. The
//! parameter is the set, and not the attribute or the member: that halves the nesting, and a member at
//! depth 5 would be a type without a value, whose methods no call can reach.
ghost use Rattle.std.specs.Prelude.{◌≡◌, ◌==◌, List};
ghost use Rattle.cms_message.specs.Countersignatures.{UnsignedAttribute, unsigned_attribute, no_countersignatures};
ghost use Rattle.cms_message.specs.SignerInfo.{SignerWithin};
ghost use Rattle.cms_tlv.specs.declared.tags.TheConstants.{SEQUENCE};
ghost use Rattle.cms_message.specs.Spanned.{unsigned_attribute_spanned, spanned_within};

use cms_fields::{
    Choice, Field, Fields, Last, Opaque, Selected, Selector, Sink, Stop, Tagged, Write,
};
use cms_scalars::{ID_COUNTERSIGNATURE, OidOctets, OidSpan};
use cms_setof::SetOf;
use cms_tlv::{Bound, Fault, Input, OBJECT_IDENTIFIER, Reason, SEQUENCE, SET, Source};

/// The type of an attribute whose values are countersignatures.
#[derive(Drop)]
pub struct CountersignatureType;

impl Selector for CountersignatureType {
    ghost use Rattle.cms_message.specs.Countersignatures.{is_countersignature};

    ghost test = { is_countersignature };

    fn selects(octets: &[u8]) -> bool {
        octets == ID_COUNTERSIGNATURE
    }
}

/// The countersignatures of a signer at depth 4. There are none: one would be at depth 5, and is E19,
/// after its header.
#[derive(Drop)]
pub struct NoCountersignatures;

impl Write for NoCountersignatures {
    ghost Value = { List (SignerWithin 0) };

    ghost grammar = { no_countersignatures };

    ghost value = { spanned_within 0 };

    fn emit<S: Sink>(&self, kept: &[u8], sink: &mut S) -> Result<(), Stop> {
        S::law();
        Ok(())
    }

    fn law() {}
}

impl Fields for NoCountersignatures {
    fn read_to_end<R: Input>(
        source: &mut Source<R>,
        bound: Bound,
    ) -> Result<NoCountersignatures, Fault> {
        if source.peek(&bound)?.is_some() {
            source.enter(&bound, SEQUENCE)?;
            return Err(source.refuse(Reason::CountersignTooDeep));
        }
        source.close(bound)?;
        Ok(NoCountersignatures)
    }
}

/// `Attribute ::= SEQUENCE { attrType OBJECT IDENTIFIER, attrValues SET OF AttributeValue }`. If attrType is
/// id-countersignature, the values are the set `C`; else they are opaque.
pub struct UnsignedAttributeSpans<C>(pub UnsignedAttributeParts<C>);

pub type UnsignedAttributeParts<C> = Tagged<
    SEQUENCE,
    Selected<
        OBJECT_IDENTIFIER,
        OidOctets,
        CountersignatureType,
        CountersignaturesSpans<C>,
        OpaqueValuesSpans,
    >,
>;

// A box has one size, so that an attribute has one, whatever the set is.
pub type CountersignaturesSpans<C> = Last<Tagged<SET, Box<C>>>;

pub type OpaqueValuesSpans = Last<Tagged<SET, SetOf<Opaque>>>;

impl<C: Drop> Drop for UnsignedAttributeSpans<C> {
    fn drop(self) {
        let UnsignedAttributeSpans(_) = self;
    }
}

impl<C: Write> Write for UnsignedAttributeSpans<C> {
    ghost Value = { UnsignedAttribute C.Value };

    ghost grammar = { unsigned_attribute C.grammar };

    ghost value = { unsigned_attribute_spanned C.value };

    fn emit<S: Sink>(&self, kept: &[u8], sink: &mut S) -> Result<(), Stop> {
        self.0.emit(kept, sink)
    }

    fn law() {
        UnsignedAttributeParts::<C>::law();
    }
}

impl<C: Fields> Field for UnsignedAttributeSpans<C> {
    fn read<R: Input>(
        source: &mut Source<R>,
        bound: &Bound,
    ) -> Result<UnsignedAttributeSpans<C>, Fault> {
        match <UnsignedAttributeParts<C> as Field>::read(source, bound) {
            Ok(parts) => Ok(UnsignedAttributeSpans(parts)),
            Err(fault) => Err(fault),
        }
    }

    fn begins_with(octet: u8) -> bool {
        octet == SEQUENCE
    }
}

impl<C> UnsignedAttributeSpans<C> {
    /// attrType, and the values.
    pub(crate) fn parts(
        &self,
    ) -> (
        &OidSpan,
        &Choice<CountersignaturesSpans<C>, OpaqueValuesSpans>,
    )
        ensures { (result.0.now ≡ self.now.0.0.0) × (result.1.now ≡ self.now.0.0.1) }
    {
        let UnsignedAttributeSpans(Tagged(selected)) = self;
        (&selected.0, &selected.1)
    }
}
