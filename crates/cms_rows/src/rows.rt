//! What has rows.
ghost use Rattle.std.specs.Prelude.{ℕ, List, Option, map, option_map};
ghost use Rattle.std.specs.List.{flat_map};
ghost use Rattle.cms_tlv.specs.Spans.{octets_in};
ghost use Rattle.cms_scalars.specs.Bits.{bits_in};
ghost use Rattle.cms_rows.specs.Rows.{entry, entry_of_bits};
ghost use Rattle.cms_rows.specs.Fields.{maybe};

use crate::row::{Row, add_bits, add_row};
use cms_fields::{Constrained, Constraint, Identifiers, Opaque, OpaqueAmong, Primitive, Scalar};
use cms_scalars::NamedBitsSpan;
use cms_setof::{NonEmptySetOf, SetOf};
use std::alloc::AllocError;

/// Spans whose fields have rows.
pub trait Rows {
    ghost use Rattle.std.specs.Prelude.{ℕ, ◌+◌, ◌<◌, ◌^◌, List, OnOk};
    ghost use Rattle.cms_rows.specs.Rows.{Entry, AddsRows};

    // The value that they stand for.
    ghost Value: { Type 0 };

    // The value, in the kept octets.
    ghost shown: { List ℕ → Self → Value };

    // The fields of a value, with its kind and level.
    ghost entries: { ℕ → ℕ → Value → List Entry };

    // How many levels are below the first.
    ghost below: { ℕ };

    /// Adds their rows, in the order read. An error means out of memory.
    fn add_rows(
        &self,
        kind: u32,
        level: u32,
        kept: &[u8],
        rows: &mut Vec<Row>,
    ) -> Result<(), AllocError>
        requires { level + below < 2 ^ 32 }
        ensures { OnOk result (AddsRows kept.now (entries kind level (shown kept.now self.now))
            rows.old.items rows.new.items) };
}

impl<const ID: u8, K: Scalar> Rows for Primitive<ID, K> {
    ghost Value = { List ℕ };

    ghost shown = { λ k x. octets_in k x.0.span.start x.0.span.end };

    ghost entries = { entry };

    ghost below = { 0 };

    fn add_rows(
        &self,
        kind: u32,
        level: u32,
        kept: &[u8],
        rows: &mut Vec<Row>,
    ) -> Result<(), AllocError> {
        add_row(rows, kind, level, self.0.span, kept)
    }
}

impl<const ID: u8, K: Scalar, C: Constraint<K>> Rows for Constrained<ID, K, C> {
    ghost Value = { List ℕ };

    ghost shown = { λ k x. octets_in k x.0.0.span.start x.0.0.span.end };

    ghost entries = { entry };

    ghost below = { 0 };

    fn add_rows(
        &self,
        kind: u32,
        level: u32,
        kept: &[u8],
        rows: &mut Vec<Row>,
    ) -> Result<(), AllocError> {
        self.0.add_rows(kind, level, kept, rows)
    }
}

impl Rows for NamedBitsSpan {
    ghost Value = { List ℕ };

    ghost shown = { bits_in };

    ghost entries = { entry_of_bits };

    ghost below = { 0 };

    fn add_rows(
        &self,
        kind: u32,
        level: u32,
        kept: &[u8],
        rows: &mut Vec<Row>,
    ) -> Result<(), AllocError> {
        add_bits(rows, kind, level, self.span, kept)
    }
}

impl Rows for Opaque {
    ghost Value = { List ℕ };

    ghost shown = { λ k x. octets_in k x.0.span.start x.0.span.end };

    ghost entries = { entry };

    ghost below = { 0 };

    fn add_rows(
        &self,
        kind: u32,
        level: u32,
        kept: &[u8],
        rows: &mut Vec<Row>,
    ) -> Result<(), AllocError> {
        add_row(rows, kind, level, self.0.span, kept)
    }
}

impl<I: Identifiers> Rows for OpaqueAmong<I> {
    ghost Value = { List ℕ };

    ghost shown = { λ k x. octets_in k x.0.span.start x.0.span.end };

    ghost entries = { entry };

    ghost below = { 0 };

    fn add_rows(
        &self,
        kind: u32,
        level: u32,
        kept: &[u8],
        rows: &mut Vec<Row>,
    ) -> Result<(), AllocError> {
        add_row(rows, kind, level, self.0.span, kept)
    }
}

impl<T: Rows> Rows for Option<T> {
    ghost Value = { Option T.Value };

    ghost shown = { λ k x. option_map (T.shown k) x };

    ghost entries = { λ kind level v. maybe (T.entries kind level) v };

    ghost below = { T.below };

    fn add_rows(
        &self,
        kind: u32,
        level: u32,
        kept: &[u8],
        rows: &mut Vec<Row>,
    ) -> Result<(), AllocError> {
        match self {
            Some(x) => x.add_rows(kind, level, kept, rows),
            None => Ok(()),
        }
    }
}

impl<T: Rows> Rows for SetOf<T> {
    ghost Value = { List T.Value };

    ghost shown = { λ k s. map (T.shown k) s };

    ghost entries = { λ kind level vs. flat_map (T.entries kind level) vs };

    ghost below = { T.below };

    fn add_rows(
        &self,
        kind: u32,
        level: u32,
        kept: &[u8],
        rows: &mut Vec<Row>,
    ) -> Result<(), AllocError> {
        for member in self.members() {
            member.add_rows(kind, level, kept, rows)?;
        }
        Ok(())
    }
}

impl<T: Rows> Rows for NonEmptySetOf<T> {
    ghost Value = { List T.Value };

    ghost shown = { λ k x. map (T.shown k) x.0 };

    ghost entries = { λ kind level vs. flat_map (T.entries kind level) vs };

    ghost below = { T.below };

    fn add_rows(
        &self,
        kind: u32,
        level: u32,
        kept: &[u8],
        rows: &mut Vec<Row>,
    ) -> Result<(), AllocError> {
        self.0.add_rows(kind, level, kept, rows)
    }
}
