//! Octets that are written as they were received.
ghost use Rattle.std.specs.Prelude.{◌≡◌, ℕ, List};
ghost use Rattle.cms_tlv.specs.Spans.{octets_in};
ghost use Rattle.cms_fields.specs.Grammar.{octets_with};

use crate::sink::{Sink, Stop};
use crate::write::Write;
use cms_tlv::Span;
use std::marker::PhantomData;

/// Which octets may be kept as they were received.
pub trait Kind {
    ghost is: { List ℕ → Type 0 };
}

/// Octets of the kind `K` that are kept as they were received, given by the span that names them. They
/// are part of a field, and are never read by themselves.
#[derive(Drop)]
pub struct Received<K> {
    pub span: Span,
    kind: PhantomData<K>,
}

impl<K: Kind> Received<K> {
    /// What `span` names.
    pub fn new(span: Span) -> Received<K>
        ensures { result.span ≡ span }
    {
        Received {
            span,
            kind: PhantomData,
        }
    }
}

impl<K: Kind> Write for Received<K> {
    ghost Value = { List ℕ };

    ghost grammar = { octets_with K.is };

    ghost value = { λ k x. octets_in k x.span.start x.span.end };

    fn emit<S: Sink>(&self, kept: &[u8], sink: &mut S) -> Result<(), Stop> {
        sink.span(kept, self.span)
    }

    fn law() {}
}
