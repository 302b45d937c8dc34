//! What takes the octets of a value, from the last to the first.
//!
//! A header is taken after its contents, so their length is known by then: no length is passed down,
//! counted again or kept. In the other direction a sink that counts could not give a header its length,
//! and each level would count its contents again.
ghost use Rattle.std.specs.Prelude.{◌≡◌, ◌+◌, ℕ, List, length, min, OnErr, OnOk};
ghost use Rattle.cms_tlv.specs.Spans.{borrowed_spans};
ghost use Rattle.cms_tlv.specs.Spelling.{join};
ghost use Rattle.cms_tlv.specs.Writing.{IsDerHeader};
ghost use Rattle.cms_fields.specs.Assembly.{marked, copied, made};
ghost use Rattle.cms_fields.specs.Received.{spanned_in};

use crate::indexed::Items;
use cms_tlv::{BorrowedSpans, Span, header_octets};
use std::alloc::AllocError;

/// A sink takes no more.
#[derive(Clone, Copy, Debug, PartialEq, Eq)]
pub struct Stop;

impl From<AllocError> for Stop {
    fn from(_: AllocError) -> Stop {
        Stop
    }
}

/// Takes octets, each before those already taken. After an error its state is unknown.
pub trait Sink {
    ghost use Rattle.std.specs.Prelude.{◌≡◌, ◌+◌, List, length, map, true, false, IfOk, OnErr, OnOk};
    ghost use Rattle.std.specs.List.{AllByRecursion};
    ghost use Rattle.cms_tlv.specs.Frames.{IsDerFrame};
    ghost use Rattle.cms_tlv.specs.Spans.{octets_in, borrowed_spans};
    ghost use Rattle.cms_tlv.specs.Spelling.{join};
    ghost use Rattle.cms_fields.specs.Assembly.{Marked, marked, copied, made, unmarked, join_marked};
    ghost use Rattle.cms_fields.specs.Received.{spanned_in};
    ghost use Rattle.cms_fields.specs.Sinks.{Taking, TakingLaws, Sorts};

    // What it takes, and how many octets.
    ghost taking: { Taking Self };

    /// How many octets it took.
    fn count(&self) -> u64
        ensures { result ≡ taking.count self.now };

    /// Takes octets that are made.
    fn octets(&mut self, kept: &[u8], octets: &[u8]) -> Result<(), Stop>
        ensures ok { OnOk result (taking.puts kept.now self.old (marked made octets.now) self.new) }
        ensures stops { OnErr result (taking.stops (taking.count self.old + length octets.now)) };

    /// Takes the octets of `kept` that a span names: they are copied.
    fn span(&mut self, kept: &[u8], span: Span) -> Result<(), Stop>
        ensures ok { OnOk result (taking.puts kept.now self.old
            (marked copied (octets_in kept.now span.start span.end)) self.new) }
        ensures stops { OnErr result (taking.stops
            (taking.count self.old + length (octets_in kept.now span.start span.end))) };

    /// Takes all octets of `kept` that the spans name in one step, or none. Returns whether it took them.
    fn spans_at_once(&mut self, kept: &[u8], spans: BorrowedSpans<'_>) -> Result<bool, Stop>
        ensures taken { IfOk result (λ taken. taken ≡ true → taking.puts kept.now self.old
            (marked copied (join (spanned_in kept.now (borrowed_spans spans.entry)))) self.new) }
        ensures left { IfOk result (λ taken. taken ≡ false → self.new ≡ self.old) }
        ensures stops { OnErr result (taking.stops (taking.count self.old
            + length (join (spanned_in kept.now (borrowed_spans spans.entry))))) };

    /// Sorts the elements that it took after its first `from` octets, in ascending order (X.690, 11.6).
    fn sort(&mut self, kept: &[u8], from: u64) -> Result<(), Stop>
        ensures ok { OnOk result ((s : Self) (frames : List (List Marked)) → taking.count s ≡ from
            → AllByRecursion IsDerFrame (map unmarked frames)
            → taking.puts kept.now s (join_marked frames) self.old
            → Sorts taking kept.now s frames self.new) }
        ensures stops { OnErr result (taking.stops (taking.count self.old)) };

    /// Does nothing. Its contract says that it takes octets one after another, and counts them.
    fn law()
        ensures { TakingLaws taking };
}

/// Gives a sink the octets of `kept` that spans name, one after another.
pub fn emit_spans<S: Sink>(spans: BorrowedSpans<'_>, kept: &[u8], sink: &mut S) -> Result<(), Stop>
    ensures ok { OnOk result (S.taking.puts kept.now sink.old
        (marked copied (join (spanned_in kept.now (borrowed_spans spans.entry)))) sink.new) }
    ensures stops { OnErr result (S.taking.stops (S.taking.count sink.old
        + length (join (spanned_in kept.now (borrowed_spans spans.entry))))) }
{
    if sink.spans_at_once(kept, spans)? {
        return Ok(());
    }
    emit_each(spans, kept, sink)
}

/// Gives a sink the octets of `kept` that spans name, each span by itself.
fn emit_each<S: Sink>(spans: BorrowedSpans<'_>, kept: &[u8], sink: &mut S) -> Result<(), Stop>
    ensures ok { OnOk result (S.taking.puts kept.now sink.old
        (marked copied (join (spanned_in kept.now (borrowed_spans spans.entry)))) sink.new) }
    ensures stops { OnErr result (S.taking.stops (S.taking.count sink.old
        + length (join (spanned_in kept.now (borrowed_spans spans.entry))))) }
{
    S::law();
    let mut left = spans.len();
    while left > 0 {
        left -= 1;
        let Some(span) = spans.get(left) else {
            return Ok(());
        };
        sink.span(kept, span)?;
    }
    Ok(())
}

/// Gives a sink the identifier octet `ident` and the shortest length octets of `n` (X.690, 10.1).
pub(crate) fn emit_header<S: Sink>(ident: u8, n: u64, kept: &[u8], sink: &mut S) -> Result<(), Stop>
    ensures ok { OnOk result ((b : List ℕ) × IsDerHeader ident n b
        × S.taking.puts kept.now sink.old (marked made b) sink.new) }
    ensures stops { OnErr result ((b : List ℕ) → IsDerHeader ident n b
        → S.taking.stops (S.taking.count sink.old + length b)) }
{
    let (octets, start) = header_octets(ident, n);
    sink.octets(kept, &octets[start..])
}

/// How many octets the spans name together, or `u64::MAX` if there are more.
pub fn spans_len(spans: BorrowedSpans<'_>, kept: &[u8]) -> u64
    ensures { result ≡ min (length (join (spanned_in kept.now (borrowed_spans spans.entry))))
        0xFFFF_FFFF_FFFF_FFFF }
{
    let mut n: u64 = 0;
    for span in Items::new(spans) {
        n = n.saturating_add(span.octets(kept).len() as u64);
    }
    n
}
