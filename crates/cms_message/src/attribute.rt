//! Attribute (RFC 5652, section 5.3).
ghost use Rattle.std.specs.Prelude.{◌≡◌, ◌==◌, ◌↔◌, IsTrue, List, [], length, map, option_map, slice_get};
ghost use Rattle.std.specs.Option.{option_copied};
ghost use Rattle.cms_tlv.specs.declared.tags.TheConstants.{SEQUENCE};
ghost use Rattle.cms_fields.specs.Indexed.{left};
ghost use Rattle.cms_scalars.specs.Borrowed.{borrowed_oid};
ghost use Rattle.cms_message.specs.Attributes.{Attribute, attribute, attr_type};
ghost use Rattle.cms_message.specs.Only.{only};
ghost use Rattle.cms_message.specs.Signers.{AnyAttribute, first_of_type, count, opaque_values, countersignatures, borrowed_countersignatures, as_any_attribute, borrowed_signer, attribute_code, attributes_code};
ghost use Rattle.cms_message.specs.Spanned.{primitive_spanned, attribute_spanned, unsigned_attribute_spanned, signer_info_spanned, borrowed_attributes, borrowed_values};

use crate::attribute_values::AttributeValues;
use crate::countersignature::{NoCountersignatures, UnsignedAttributeSpans};
use crate::countersignatures::Countersignatures;
use crate::signer_info::{
    SignerAtDepth1, SignerAtDepth2, SignerAtDepth3, SignerAtDepth4, SignerInfo, SignerInfoSpans,
};
use cms_fields::{
    AlreadyDer, Choice, Field, Indexed, Items, Last, Opaque, Sink, Stop, Tagged, Then, Write,
};
use cms_scalars::{Oid, OidSpan};
use cms_setof::{NonEmptySetOf, SetOf};
use cms_tlv::{Bound, CONTEXT_0, CONTEXT_1, Fault, Input, SEQUENCE, SET, Source};
use std::marker::Model;

/// `Attribute ::= SEQUENCE { attrType OBJECT IDENTIFIER, attrValues SET OF AttributeValue }`.
///
/// A type of its own around its term.
pub struct AttributeSpans(pub AttributeParts);

pub type AttributeParts = Tagged<SEQUENCE, Then<OidSpan, Last<Tagged<SET, SetOf<Opaque>>>>>;

impl Drop for AttributeSpans {
    fn drop(self) {
        let AttributeSpans(_) = self;
    }
}

impl Write for AttributeSpans {
    ghost Value = { Attribute };

    ghost grammar = { attribute };

    ghost value = { attribute_spanned };

    fn emit<S: Sink>(&self, kept: &[u8], sink: &mut S) -> Result<(), Stop> {
        self.0.emit(kept, sink)
    }

    fn law() {
        AttributeParts::law();
    }
}

impl Field for AttributeSpans {
    fn read<R: Input>(source: &mut Source<R>, bound: &Bound) -> Result<AttributeSpans, Fault> {
        match <AttributeParts as Field>::read(source, bound) {
            Ok(parts) => Ok(AttributeSpans(parts)),
            Err(fault) => Err(fault),
        }
    }

    fn begins_with(octet: u8) -> bool {
        octet == SEQUENCE
    }
}

/// `signedAttrs [0] IMPLICIT SET SIZE (1..MAX) OF Attribute`: it must already be DER. E16 if it is
/// empty.
pub type SignedAttributesSpans = AlreadyDer<Tagged<CONTEXT_0, NonEmptySetOf<AttributeSpans>>>;

/// `unsignedAttrs [1] IMPLICIT SET SIZE (1..MAX) OF U`. E16 if it is empty.
pub type UnsignedAttributesSpans<U> = Tagged<CONTEXT_1, NonEmptySetOf<U>>;

/// The values of an attribute, by what they are.
#[derive(Clone, Copy)]
pub(crate) enum Values<'a> {
    Opaque(&'a SetOf<Opaque>),
    Depth1(&'a SetOf<SignerAtDepth1>),
    Depth2(&'a SetOf<SignerAtDepth2>),
    Depth3(&'a SetOf<SignerAtDepth3>),
    Depth4(&'a SetOf<SignerAtDepth4>),
    NoCountersignatures,
}

/// The attributes of a signer, by whether they are signed, and by the depth of the signer.
#[derive(Clone, Copy)]
pub(crate) enum AttributeSet<'a> {
    Signed(&'a SetOf<AttributeSpans>),
    Depth0(&'a SetOf<UnsignedAttributeSpans<SetOf<SignerAtDepth1>>>),
    Depth1(&'a SetOf<UnsignedAttributeSpans<SetOf<SignerAtDepth2>>>),
    Depth2(&'a SetOf<UnsignedAttributeSpans<SetOf<SignerAtDepth3>>>),
    Depth3(&'a SetOf<UnsignedAttributeSpans<SetOf<SignerAtDepth4>>>),
    Depth4(&'a SetOf<UnsignedAttributeSpans<NoCountersignatures>>),
}

/// What the countersignatures at some depth lend.
pub(crate) trait Lend: Write {
    ghost use Rattle.std.specs.Prelude.{◌≡◌, ℕ, List, map};
    ghost use mathlib.Core.Logic.{inl};
    ghost use Rattle.cms_message.specs.Signers.{AnySigner};
    ghost use Rattle.cms_message.specs.Spanned.{borrowed_attributes, borrowed_values, unsigned_attribute_spanned};

    ghost lends: { List ℕ → Self → List AnySigner };

    fn values<'a>(set: &'a Self) -> Values<'a>
        ensures { (k : List ℕ) → borrowed_values k result ≡ inl (lends k set.now) };

    fn attributes<'a>(set: &'a SetOf<UnsignedAttributeSpans<Self>>) -> AttributeSet<'a>
        ensures { (k : List ℕ)
            → borrowed_attributes k result ≡ map (unsigned_attribute_spanned lends k) set.now };
}

impl Lend for NoCountersignatures {
    ghost use Rattle.cms_message.specs.Spanned.{lends};

    ghost lends = { lends 0 };

    fn values<'a>(set: &'a NoCountersignatures) -> Values<'a> {
        Values::NoCountersignatures
    }

    fn attributes<'a>(
        set: &'a SetOf<UnsignedAttributeSpans<NoCountersignatures>>,
    ) -> AttributeSet<'a> {
        AttributeSet::Depth4(set)
    }
}

impl Lend for SetOf<SignerAtDepth4> {
    ghost use Rattle.cms_message.specs.Spanned.{lends};

    ghost lends = { lends 1 };

    fn values<'a>(set: &'a SetOf<SignerAtDepth4>) -> Values<'a> {
        Values::Depth4(set)
    }

    fn attributes<'a>(
        set: &'a SetOf<UnsignedAttributeSpans<SetOf<SignerAtDepth4>>>,
    ) -> AttributeSet<'a> {
        AttributeSet::Depth3(set)
    }
}

impl Lend for SetOf<SignerAtDepth3> {
    ghost use Rattle.cms_message.specs.Spanned.{lends};

    ghost lends = { lends 2 };

    fn values<'a>(set: &'a SetOf<SignerAtDepth3>) -> Values<'a> {
        Values::Depth3(set)
    }

    fn attributes<'a>(
        set: &'a SetOf<UnsignedAttributeSpans<SetOf<SignerAtDepth3>>>,
    ) -> AttributeSet<'a> {
        AttributeSet::Depth2(set)
    }
}

impl Lend for SetOf<SignerAtDepth2> {
    ghost use Rattle.cms_message.specs.Spanned.{lends};

    ghost lends = { lends 3 };

    fn values<'a>(set: &'a SetOf<SignerAtDepth2>) -> Values<'a> {
        Values::Depth2(set)
    }

    fn attributes<'a>(
        set: &'a SetOf<UnsignedAttributeSpans<SetOf<SignerAtDepth2>>>,
    ) -> AttributeSet<'a> {
        AttributeSet::Depth1(set)
    }
}

impl Lend for SetOf<SignerAtDepth1> {
    ghost use Rattle.cms_message.specs.Spanned.{lends};

    ghost lends = { lends 4 };

    fn values<'a>(set: &'a SetOf<SignerAtDepth1>) -> Values<'a> {
        Values::Depth1(set)
    }

    fn attributes<'a>(
        set: &'a SetOf<UnsignedAttributeSpans<SetOf<SignerAtDepth1>>>,
    ) -> AttributeSet<'a> {
        AttributeSet::Depth0(set)
    }
}

/// An attribute: its type and its values.
#[derive(Clone, Drop)]
pub struct Attribute<'a> {
    kept: &'a [u8],
    attr_type: &'a OidSpan,
    values: Values<'a>,
}

impl<'a> Model for Attribute<'a> {
    ghost Value = { AnyAttribute };

    ghost coded = { attribute_code };

    ghost view = { λ x.
        (primitive_spanned x.kept.now x.attr_type.now, borrowed_values x.kept.now x.values) };
}

/// The signed attribute whose parts `spans` names in `kept`.
fn signed_attribute<'a>(spans: &'a AttributeSpans, kept: &'a [u8]) -> Attribute<'a>
    ensures { result ≡ as_any_attribute (attribute_spanned kept.now spans.now) }
{
    let AttributeSpans(Tagged(Then(attr_type, Last(Tagged(values))))) = spans;
    Attribute {
        kept,
        attr_type,
        values: Values::Opaque(values),
    }
}

/// The unsigned attribute whose parts `spans` names in `kept`.
fn unsigned_attribute<'a, C: Lend>(
    spans: &'a UnsignedAttributeSpans<C>,
    kept: &'a [u8],
) -> Attribute<'a>
    ensures { result ≡ unsigned_attribute_spanned C.lends kept.now spans.now }
{
    let (attr_type, values) = spans.parts();
    match values {
        Choice::First(Last(Tagged(set))) => Attribute {
            kept,
            attr_type,
            values: C::values(set),
        },
        Choice::Second(Last(Tagged(set))) => Attribute {
            kept,
            attr_type,
            values: Values::Opaque(set),
        },
    }
}

impl<'a> Attribute<'a> {
    /// attrType.
    pub fn attr_type(&self) -> Oid<'a>
        ensures { borrowed_oid result ≡ attr_type self.now }
    {
        Oid::new(self.attr_type, self.kept)
    }

    /// How many values there are.
    pub fn count(&self) -> u64
        ensures { result ≡ count self.now }
    {
        match self.values {
            Values::Opaque(set) => set.len(),
            Values::Depth1(set) => set.len(),
            Values::Depth2(set) => set.len(),
            Values::Depth3(set) => set.len(),
            Values::Depth4(set) => set.len(),
            Values::NoCountersignatures => 0,
        }
    }

    /// The values but for countersignatures, in the order read.
    pub fn values(&self) -> AttributeValues<'a>
        ensures { result ≡ opaque_values self.now }
    {
        AttributeValues::new(self.copied())
    }

    /// The values that are countersignatures, in the order read.
    pub fn countersignatures(&self) -> Countersignatures<'a>
        ensures { result ≡ borrowed_countersignatures self.now }
    {
        Countersignatures::new(self.copied())
    }

    /// A copy of the attribute.
    fn copied(&self) -> Attribute<'a>
        ensures { result ≡ self.now }
    {
        Attribute {
            kept: self.kept,
            attr_type: self.attr_type,
            values: self.values,
        }
    }

    pub(crate) fn value_count(&self) -> u64
        ensures { result ≡ length (opaque_values self.now) }
    {
        match self.values {
            Values::Opaque(set) => set.len(),
            _ => 0,
        }
    }

    /// How many of its values are countersignatures.
    pub fn countersignature_count(&self) -> u64
        ensures { result ≡ length (countersignatures self.now) }
    {
        match self.values {
            Values::Opaque(_) => 0,
            Values::Depth1(set) => set.len(),
            Values::Depth2(set) => set.len(),
            Values::Depth3(set) => set.len(),
            Values::Depth4(set) => set.len(),
            Values::NoCountersignatures => 0,
        }
    }

    /// The value with the index `i`, one element, in the order read; the first is 0. None if it is a
    /// countersignature.
    pub fn value(&self, i: u64) -> Option<&'a [u8]>
        ensures { option_copied result ≡ slice_get (opaque_values self.now) i }
    {
        match self.values {
            Values::Opaque(set) => match set.get(i) {
                Some(Opaque(element)) => Some(element.span.octets(self.kept)),
                None => None,
            },
            _ => None,
        }
    }

    /// The value, one element; none if there are more or fewer values, or if it is a countersignature.
    pub fn only_value(&self) -> Option<&'a [u8]>
        ensures { option_copied result ≡ only (opaque_values self.now) }
    {
        if self.value_count() == 1 {
            self.value(0)
        } else {
            None
        }
    }

    /// The countersignature with the index `i`, in the order read; the first is 0.
    pub fn countersignature(&self, i: u64) -> Option<SignerInfo<'a>>
        ensures { result ≡ option_map borrowed_signer (slice_get (countersignatures self.now) i) }
    {
        match self.values {
            Values::Opaque(_) => None,
            Values::Depth1(set) => countersignature_in(set, self.kept, i),
            Values::Depth2(set) => countersignature_in(set, self.kept, i),
            Values::Depth3(set) => countersignature_in(set, self.kept, i),
            Values::Depth4(set) => countersignature_in(set, self.kept, i),
            Values::NoCountersignatures => None,
        }
    }
}

/// The countersignature with the index `i`.
fn countersignature_in<'a, C: Lend>(
    set: &'a SetOf<SignerInfoSpans<C>>,
    kept: &'a [u8],
    i: u64,
) -> Option<SignerInfo<'a>>
    ensures { result ≡ option_map (signer_info_spanned C.lends kept.now) (slice_get set.now i) }
{
    match set.get(i) {
        Some(spans) => Some(SignerInfo::new(spans, kept)),
        None => None,
    }
}

/// The attributes of a signer, in the order read.
#[derive(Clone, Drop)]
pub struct Attributes<'a> {
    kept: &'a [u8],
    set: AttributeSet<'a>,
}

impl<'a> Model for Attributes<'a> {
    ghost Value = { List AnyAttribute };

    ghost coded = { attributes_code };

    ghost view = { λ x. borrowed_attributes x.kept.now x.set };
}

/// The unsigned attribute with the index `i`.
fn unsigned_in<'a, C: Lend>(
    set: &'a SetOf<UnsignedAttributeSpans<C>>,
    kept: &'a [u8],
    i: u64,
) -> Option<Attribute<'a>>
    ensures { result ≡ option_map (unsigned_attribute_spanned C.lends kept.now)
        (slice_get set.now i) }
{
    match set.get(i) {
        Some(spans) => Some(unsigned_attribute(spans, kept)),
        None => None,
    }
}

impl<'a> Attributes<'a> {
    /// The signed attributes whose parts `set` names in `kept`.
    pub(crate) fn signed(set: &'a SetOf<AttributeSpans>, kept: &'a [u8]) -> Attributes<'a>
        ensures { result ≡ map (λ x. as_any_attribute (attribute_spanned kept.now x)) set.now }
    {
        Attributes {
            kept,
            set: AttributeSet::Signed(set),
        }
    }

    /// Those of any such set.
    pub(crate) fn new(set: AttributeSet<'a>, kept: &'a [u8]) -> Attributes<'a>
        ensures { result ≡ borrowed_attributes kept.now set.entry }
    {
        Attributes { kept, set }
    }

    /// The attributes, in the order read.
    pub fn iter(&self) -> Items<Attributes<'a>>
        ensures { left (λ x. x) result ≡ self.now }
    {
        Items::new(Attributes::new(self.set, self.kept))
    }
}

impl<'a> Indexed for Attributes<'a> {
    type Item = Attribute<'a>;

    ghost Value = { AnyAttribute };

    ghost value = { λ x. x };

    ghost values = { λ x. x };

    fn len(&self) -> u64 {
        match self.set {
            AttributeSet::Signed(set) => set.len(),
            AttributeSet::Depth0(set) => set.len(),
            AttributeSet::Depth1(set) => set.len(),
            AttributeSet::Depth2(set) => set.len(),
            AttributeSet::Depth3(set) => set.len(),
            AttributeSet::Depth4(set) => set.len(),
        }
    }

    fn get(&self, i: u64) -> Option<Attribute<'a>> {
        match self.set {
            AttributeSet::Signed(set) => match set.get(i) {
                Some(spans) => Some(signed_attribute(spans, self.kept)),
                None => None,
            },
            AttributeSet::Depth0(set) => unsigned_in(set, self.kept, i),
            AttributeSet::Depth1(set) => unsigned_in(set, self.kept, i),
            AttributeSet::Depth2(set) => unsigned_in(set, self.kept, i),
            AttributeSet::Depth3(set) => unsigned_in(set, self.kept, i),
            AttributeSet::Depth4(set) => unsigned_in(set, self.kept, i),
        }
    }
}

impl<'a> IntoIterator for Attributes<'a> {
    type Item = Attribute<'a>;

    type IntoIter = Items<Attributes<'a>>;

    ghost into_iter_gives = { λ list items. left (λ x. x) items ≡ list };

    fn into_iter(self) -> Items<Attributes<'a>> {
        Items::new(self)
    }
}

/// The first attribute whose type has the contents octets `oid`.
pub fn first_attribute<'a>(attributes: &Attributes<'a>, oid: &[u8]) -> Option<Attribute<'a>>
    ensures { result ≡ first_of_type oid.now attributes.now }
{
    for attribute in attributes.iter() {
        if attribute.attr_type().octets() == oid {
            return Some(attribute);
        }
    }
    None
}
