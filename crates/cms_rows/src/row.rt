//! Rows.
ghost use Rattle.std.specs.Prelude.{◌≡◌, List, [], ◌++◌, true, OnOk};
ghost use Rattle.cms_tlv.specs.Spelling.{join};
ghost use Rattle.cms_tlv.specs.Spans.{borrowed_spans, octets_in};
ghost use Rattle.cms_fields.specs.Received.{spanned_in};
ghost use Rattle.cms_scalars.specs.Borrowed.{parts_in};
ghost use Rattle.cms_scalars.specs.Bits.{bits_of_contents};
ghost use Rattle.cms_rows.specs.Rows.{AddsRows, IsOf, entry, entry_if, entry_of_bits, named, is_string};

use cms_fields::{Indexed, Items};
use cms_scalars::OctetsSpan;
use cms_tlv::{BorrowedSpans, Span};
use std::alloc::AllocError;

/// A field of a message, or a segment of one.
#[repr(C)]
#[derive(Clone, Copy)]
pub struct Row {
    /// Where in the message its octets begin, from 0.
    pub start: u64,
    /// How many there are.
    pub length: u64,
    pub kind: u32,
    /// How many fields it is in.
    pub level: u32,
}

impl Row {
    /// The row of what `span` names in `kept`.
    fn new(kind: u32, level: u32, span: Span, kept: &[u8]) -> Row
        ensures is { IsOf kept.now kind level result }
        ensures names { named kept.now result ≡ octets_in kept.now span.start span.end }
    {
        if span.start <= span.end && span.end <= kept.len() {
            Row {
                start: span.start as u64,
                length: (span.end - span.start) as u64,
                kind,
                level,
            }
        } else {
            Row {
                start: 0,
                length: 0,
                kind,
                level,
            }
        }
    }
}

/// Adds the row of a field. An error means out of memory.
pub(crate) fn add_row(
    rows: &mut Vec<Row>,
    kind: u32,
    level: u32,
    span: Span,
    kept: &[u8],
) -> Result<(), AllocError>
    ensures { OnOk result (AddsRows kept.now
        (entry kind level (octets_in kept.now span.start span.end))
        rows.old.items rows.new.items) }
{
    rows.push(Row::new(kind, level, span, kept))?;
    Ok(())
}

/// Adds the row of a field without octets of its own, below which others are.
pub(crate) fn add_head(
    rows: &mut Vec<Row>,
    kind: u32,
    level: u32,
    kept: &[u8],
) -> Result<(), AllocError>
    ensures { OnOk result (AddsRows kept.now (entry kind level []) rows.old.items rows.new.items) }
{
    add_row(rows, kind, level, Span { start: 0, end: 0 }, kept)
}

/// Adds the row of a field without octets, if `present` is true.
pub(crate) fn add_flag(
    rows: &mut Vec<Row>,
    kind: u32,
    level: u32,
    present: bool,
    kept: &[u8],
) -> Result<(), AllocError>
    ensures { OnOk result (AddsRows kept.now (entry_if kind level present)
        rows.old.items rows.new.items) }
{
    if present {
        add_head(rows, kind, level, kept)
    } else {
        Ok(())
    }
}

/// Adds the row of named bits, whose contents octets `span` names.
pub(crate) fn add_bits(
    rows: &mut Vec<Row>,
    kind: u32,
    level: u32,
    span: Span,
    kept: &[u8],
) -> Result<(), AllocError>
    ensures { OnOk result (AddsRows kept.now
        (entry_of_bits kind level (bits_of_contents (octets_in kept.now span.start span.end)))
        rows.old.items rows.new.items) }
{
    rows.push(Row::new(kind, level, span, kept))?;
    Ok(())
}

/// Adds the rows of a string that lies in these segments.
fn add_string(
    rows: &mut Vec<Row>,
    kind: u32,
    level: u32,
    spans: BorrowedSpans<'_>,
    kept: &[u8],
) -> Result<(), AllocError>
    requires { is_string kind ≡ true }
    ensures { OnOk result (AddsRows kept.now
        (entry kind level (join (spanned_in kept.now (borrowed_spans spans.entry))))
        rows.old.items rows.new.items) }
{
    if spans.is_empty() {
        return add_head(rows, kind, level, kept);
    }
    for span in Items::new(spans) {
        rows.push(Row::new(kind, level, span, kept))?;
    }
    Ok(())
}

/// Adds the rows of a string: one for each segment in which it was received, or one that is empty.
pub(crate) fn add_octets<const ID: u8>(
    rows: &mut Vec<Row>,
    kind: u32,
    level: u32,
    string: &OctetsSpan<ID>,
    kept: &[u8],
) -> Result<(), AllocError>
    requires { is_string kind ≡ true }
    ensures { OnOk result (AddsRows kept.now
        (entry kind level (join (parts_in kept.now string.now)))
        rows.old.items rows.new.items) }
{
    add_string(rows, kind, level, string.spans(), kept)
}
