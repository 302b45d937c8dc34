//! Opaque elements: kept octet for octet, with the framing of DER.
ghost use Rattle.std.specs.Prelude.{ℕ, List, true};
ghost use Rattle.cms_tlv.specs.Spans.{octets_in};
ghost use Rattle.cms_tlv.specs.Opaque.{IsOpaque};
ghost use Rattle.cms_fields.specs.Grammar.{opaque_element};

use crate::field::Field;
use crate::received::{Kind, Received};
use crate::sink::{Sink, Stop};
use crate::write::Write;
use cms_tlv::{Bound, Fault, Input, Source};

/// The octets of an opaque element.
#[derive(Drop)]
pub struct OpaqueOctets;

impl Kind for OpaqueOctets {
    ghost is = { IsOpaque };
}

/// An element of any kind, octet for octet.
#[derive(Drop)]
pub struct Opaque(pub Received<OpaqueOctets>);

impl Write for Opaque {
    ghost Value = { List ℕ };

    ghost grammar = { opaque_element };

    ghost value = { λ k x. octets_in k x.0.span.start x.0.span.end };

    fn emit<S: Sink>(&self, kept: &[u8], sink: &mut S) -> Result<(), Stop> {
        self.0.emit(kept, sink)
    }

    fn law() {}
}

impl Field for Opaque {
    fn read<R: Input>(source: &mut Source<R>, bound: &Bound) -> Result<Opaque, Fault> {
        let span = source.opaque(bound)?;
        Ok(Opaque(Received::new(span)))
    }

    fn begins_with(octet: u8) -> bool {
        true
    }
}
