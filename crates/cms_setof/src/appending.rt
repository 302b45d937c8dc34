//! The octets that spans name, one after another.
ghost use Rattle.std.specs.Prelude.{◌≡◌, ◌++◌, OnOk};
ghost use Rattle.cms_tlv.specs.Spans.{borrowed_spans};
ghost use Rattle.cms_tlv.specs.Spelling.{join};
ghost use Rattle.cms_fields.specs.Received.{spanned_in};

use cms_fields::Items;
use cms_tlv::{BorrowedSpans, Span};
use std::alloc::AllocError;

/// Appends the octets of `kept` that the spans name, one after another. An error means out of memory; a
/// prefix of the octets may then have been appended.
pub(crate) fn append_spans(
    spans: BorrowedSpans<'_>,
    kept: &[u8],
    out: &mut Vec<u8>,
) -> Result<(), AllocError>
    ensures { OnOk result
        (out.new.items ≡ out.old.items ++ join (spanned_in kept.now (borrowed_spans spans.entry))) }
{
    for span in Items::new(spans) {
        out.extend_from_slice(span.octets(kept))?;
    }
    Ok(())
}

/// Adds all of `more` at the end of `spans`. An error means out of memory; a prefix of them may then
/// have been added.
pub(crate) fn push_all(more: BorrowedSpans<'_>, spans: &mut Vec<Span>) -> Result<(), AllocError>
    ensures { OnOk result (spans.new.items ≡ spans.old.items ++ borrowed_spans more.entry) }
{
    for span in Items::new(more) {
        spans.push(span)?;
    }
    Ok(())
}
