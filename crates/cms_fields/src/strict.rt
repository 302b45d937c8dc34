//! Fields that must already be DER, as signed attributes must (RFC 5652, section 5.3).
//!
//! The value has the octets beside what they spell, since a signature covers them. It is compared by
//! what they spell, and that two such values in messages have equal octets is a law
//! (`signed_attributes_are_sets`). It has values only if what it holds is a field: no law says that
//! equal values of anything else have encodings of one length.
//!
//! What a strict bound has read need not be DER: it has the shortest lengths and ascending sets, but it
//! may have segments of a string, and other octets for TRUE. Those rules are `minimal`.
ghost use Rattle.std.specs.Prelude.{◌≡◌, ℕ, List, None, IfOk, OnOk};
ghost use Rattle.cms_tlv.specs.State.{Answers, Progresses, FaultIsSticky};
ghost use Rattle.cms_tlv.specs.Spans.{octets_in, LiesIn};
ghost use Rattle.cms_tlv.specs.Refines.{Refines, seen};
ghost use Rattle.cms_tlv.specs.Reading.{taking};
ghost use Rattle.cms_fields.specs.Grammar.{already_der};

use crate::field::Field;
use crate::sink::{Sink, Stop};
use crate::write::Write;
use cms_tlv::{Bound, Fault, Input, Source, Span};

/// A field that must already be DER: E15 if it is not. It is written as it was received, octet for
/// octet.
#[derive(Drop)]
pub struct AlreadyDer<T> {
    /// Its octets.
    pub span: Span,
    /// What they spell.
    pub field: T,
}

impl<T: Write> Write for AlreadyDer<T> {
    ghost Value = { List ℕ × T.Value };

    ghost grammar = { already_der T.grammar };

    ghost value = { λ k x. (octets_in k x.span.start x.span.end, T.value k x.field) };

    fn emit<S: Sink>(&self, kept: &[u8], sink: &mut S) -> Result<(), Stop> {
        T::law();
        sink.span(kept, self.span)
    }

    fn law() {
        T::law();
    }
}

impl<T: Field> Field for AlreadyDer<T> {
    fn read<R: Input>(source: &mut Source<R>, bound: &Bound) -> Result<AlreadyDer<T>, Fault> {
        let inner = bound.strict();
        let (span, field) = read_with_span::<R, T>(source, &inner)?;
        Ok(AlreadyDer { span, field })
    }

    fn begins_with(octet: u8) -> bool {
        T::begins_with(octet)
    }
}

/// Reads a field, and returns which octets it has.
pub fn read_with_span<R: Input, T: Field>(
    source: &mut Source<R>,
    bound: &Bound,
) -> Result<(Span, T), Fault>
    ensures sticky { FaultIsSticky source.old source.new result }
    ensures accounted { source.old.fault ≡ None → Answers source.old source.new result }
    ensures ok { OnOk result (Progresses source.old source.new) }
    ensures clear { OnOk result (source.new.ahead ≡ None) }
    ensures span { IfOk result (λ p. LiesIn p.0 source.new) }
    ensures refines { source.old.fault ≡ None
        → Refines (λ s p. (seen s p.0, T.value s.done p.1)) (taking T.grammar.reader bound.now)
        source.old source.new result }
{
    let start = source.consumed() as usize;
    let field = T::read(source, bound)?;
    let end = source.consumed() as usize;
    Ok((Span { start, end }, field))
}
