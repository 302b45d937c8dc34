//! The sketches in the documentation of the crates below, as functions: so each compiles, and meets what
//! its calls require.
ghost use Rattle.std.specs.Prelude.{◌≡◌, [], ◌∷◌, true, None, IfSome, OnOk};
ghost use Rattle.cms_tlv.specs.State.{FaultIsSticky};
ghost use Rattle.cms_tlv.specs.Spelling.{element, members, der};
ghost use Rattle.cms_fields.specs.Writing.{Writes};
ghost use Rattle.cms_setof.specs.Same.{same_members};

use cms_fields::{Field, Opaque, Tagged, Then, read};
use cms_scalars::{Integer, IntegerSpan, OidSpan, read_integer};
use cms_setof::{SetOf, put};
use cms_tlv::{Bound, Fault, INTEGER, Input, SEQUENCE, SET, Slice, Source, Span};
use std::alloc::Global;

/// Reads a SEQUENCE of one INTEGER, and returns where the contents of that lie.
pub fn number_in<R: Input>(source: &mut Source<R>) -> Result<Span, Fault>
    ensures sticky { FaultIsSticky source.old source.new result }
    ensures clear { OnOk result (source.new.ahead ≡ None) }
{
    let sequence = source.enter(&Bound::top(), SEQUENCE)?;
    let number = source.primitive(&sequence, INTEGER)?;
    source.close(sequence)?;
    Ok(number)
}

/// The contents octet of the INTEGER 5 in a SEQUENCE.
pub fn five(alloc: Global) -> Result<Option<u8>, Fault> {
    let mut source = Source::new(alloc, Slice::new(b"\x30\x03\x02\x01\x05"), 100);
    let number = number_in(&mut source);
    let (_, kept) = source.finish();
    let octets = number?.octets(&kept);
    Ok(octets.first().copied())
}

/// `Attribute ::= SEQUENCE { attrType OBJECT IDENTIFIER, attrValue ANY OPTIONAL }`.
pub type AttributeSpans = Tagged<SEQUENCE, Then<OidSpan, Option<Opaque>>>;

/// The DER of the Attribute that the octets begin with; none if they begin with none, or if memory
/// runs out.
pub fn attribute_in_der(alloc: Global, octets: &[u8]) -> Option<Vec<u8>> {
    let mut source = Source::new(alloc, Slice::new(octets), 1 << 24);
    let attribute = read(&mut source, &Bound::top());
    let (_, kept) = source.finish();
    let attribute: AttributeSpans = attribute.ok()?;
    let mut out = Vec::new(alloc);
    put(&attribute, alloc, &kept, &mut out).ok()?;
    Some(out)
}

/// Appends the DER of a set of two members, which lie in `kept`; none if memory runs out.
pub fn put_both<T: Field>(
    alloc: Global,
    kept: &[u8],
    first: T,
    second: T,
    out: &mut Vec<u8>,
) -> Option<()>
    requires is_field { T.grammar.is_field ≡ true }
    requires first { T.grammar.is_value (T.value kept.now first) }
    requires second { T.grammar.is_value (T.value kept.now second) }
    ensures { IfSome result (λ _. Writes (element der SET (members der (T.grammar.spelled der)))
        (same_members T.grammar.same) (T.value kept.now first ∷ T.value kept.now second ∷ [])
        out.old.items out.new.items) }
{
    let mut members = SetOf::new(alloc);
    members.push(first).ok()?;
    members.push(second).ok()?;
    members.put(alloc, kept, out, SET).ok()
}

/// The value of the INTEGER that the octets begin with; none if they begin with none, or if the value is
/// negative, or is 2^64 or more.
pub fn value_of(alloc: Global, octets: &[u8]) -> Option<u64> {
    let mut source = Source::new(alloc, Slice::new(octets), 1 << 24);
    let number = read_integer(&mut source, &Bound::top());
    let (_, kept) = source.finish();
    let number: IntegerSpan = number.ok()?;
    Integer::new(&number, &kept).to_u64()
}
