//! Attributes.
ghost use Rattle.std.specs.Prelude.{◌+◌, ◌<◌, ◌^◌, ℕ, List, OnOk, map};
ghost use Rattle.std.specs.List.{flat_map};
ghost use Rattle.cms_fields.specs.Received.{in_either};
ghost use Rattle.cms_message.specs.Attributes.{Attribute, SignedAttributes};
ghost use Rattle.cms_message.specs.Countersignatures.{UnsignedAttribute};
ghost use Rattle.cms_message.specs.Spanned.{opaque_spanned, attribute_spanned, unsigned_attribute_spanned};
ghost use Rattle.cms_rows.specs.Rows.{AddsRows, entry};
ghost use Rattle.cms_rows.specs.Fields.{of_attribute, of_unsigned, of_signed_attributes, of_unsigned_attributes, strict_attributes_spanned, values_spanned, unsigned_attributes_spanned};

use crate::kinds::{ATTRIBUTE, COUNTERSIGNATURE, VALUE};
use crate::row::{Row, add_head, add_row};
use crate::rows::Rows;
use cms_fields::{AlreadyDer, Choice, Last, Tagged, Then};
use cms_message::{
    AttributeSpans, CountersignaturesSpans, OpaqueValuesSpans, SignedAttributesSpans,
    UnsignedAttributeSpans, UnsignedAttributesSpans,
};
use std::alloc::AllocError;

impl Rows for AttributeSpans {
    ghost Value = { Attribute };

    ghost shown = { attribute_spanned };

    ghost entries = { of_attribute };

    ghost below = { 1 };

    fn add_rows(
        &self,
        kind: u32,
        level: u32,
        kept: &[u8],
        rows: &mut Vec<Row>,
    ) -> Result<(), AllocError> {
        let AttributeSpans(Tagged(Then(attr_type, Last(Tagged(values))))) = self;
        attr_type.add_rows(kind, level, kept, rows)?;
        values.add_rows(VALUE, level + 1, kept, rows)
    }
}

impl Rows for SignedAttributesSpans {
    ghost Value = { SignedAttributes };

    ghost shown = { strict_attributes_spanned };

    ghost entries = { of_signed_attributes };

    ghost below = { 2 };

    fn add_rows(
        &self,
        kind: u32,
        level: u32,
        kept: &[u8],
        rows: &mut Vec<Row>,
    ) -> Result<(), AllocError> {
        let AlreadyDer {
            span,
            field: Tagged(set),
        } = self;
        add_row(rows, kind, level, *span, kept)?;
        set.add_rows(ATTRIBUTE, level + 1, kept, rows)
    }
}

impl<C: Rows> Rows for CountersignaturesSpans<C> {
    ghost Value = { C.Value };

    ghost shown = { λ k x. C.shown k x.0.0.value };

    ghost entries = { C.entries };

    ghost below = { C.below };

    fn add_rows(
        &self,
        kind: u32,
        level: u32,
        kept: &[u8],
        rows: &mut Vec<Row>,
    ) -> Result<(), AllocError> {
        let Last(Tagged(set)) = self;
        (**set).add_rows(kind, level, kept, rows)
    }
}

impl Rows for OpaqueValuesSpans {
    ghost Value = { List (List ℕ) };

    ghost shown = { λ k x. map (opaque_spanned k) x.0.0 };

    ghost entries = { λ kind level vs. flat_map (entry kind level) vs };

    ghost below = { 0 };

    fn add_rows(
        &self,
        kind: u32,
        level: u32,
        kept: &[u8],
        rows: &mut Vec<Row>,
    ) -> Result<(), AllocError> {
        let Last(Tagged(set)) = self;
        set.add_rows(kind, level, kept, rows)
    }
}

/// Adds the rows of the values of an unsigned attribute.
fn add_values<C: Rows>(
    values: &Choice<CountersignaturesSpans<C>, OpaqueValuesSpans>,
    level: u32,
    kept: &[u8],
    rows: &mut Vec<Row>,
) -> Result<(), AllocError>
    requires { level + C.below < 2 ^ 32 }
    ensures { OnOk result (AddsRows kept.now
        (in_either (C.entries COUNTERSIGNATURE level) (flat_map (entry VALUE level))
        (values_spanned C.shown kept.now values.now)) rows.old.items rows.new.items) }
{
    match values {
        Choice::First(set) => set.add_rows(COUNTERSIGNATURE, level, kept, rows),
        Choice::Second(set) => set.add_rows(VALUE, level, kept, rows),
    }
}

impl<C: Rows> Rows for UnsignedAttributeSpans<C> {
    ghost Value = { UnsignedAttribute C.Value };

    ghost shown = { unsigned_attribute_spanned C.shown };

    ghost entries = { of_unsigned C.entries };

    ghost below = { 1 + C.below };

    fn add_rows(
        &self,
        kind: u32,
        level: u32,
        kept: &[u8],
        rows: &mut Vec<Row>,
    ) -> Result<(), AllocError> {
        let UnsignedAttributeSpans(Tagged(selected)) = self;
        selected.0.add_rows(kind, level, kept, rows)?;
        add_values(&selected.1, level + 1, kept, rows)
    }
}

impl<C: Rows> Rows for UnsignedAttributesSpans<UnsignedAttributeSpans<C>> {
    ghost Value = { List (UnsignedAttribute C.Value) };

    ghost shown = { unsigned_attributes_spanned C.shown };

    ghost entries = { of_unsigned_attributes C.entries };

    ghost below = { 2 + C.below };

    fn add_rows(
        &self,
        kind: u32,
        level: u32,
        kept: &[u8],
        rows: &mut Vec<Row>,
    ) -> Result<(), AllocError> {
        let Tagged(set) = self;
        add_head(rows, kind, level, kept)?;
        set.add_rows(ATTRIBUTE, level + 1, kept, rows)
    }
}
