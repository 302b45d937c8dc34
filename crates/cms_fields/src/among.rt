//! Opaque elements with one of several identifiers.
//!
//! The header of any other element is E7, and never E13, since that element is not opaque. No call
//! takes any header, so it is read by `enter`, and refused whatever that returns.
ghost use Rattle.std.specs.Prelude.{◌≡◌, ◌==◌, ℕ, List, false};
ghost use Rattle.cms_tlv.specs.Spans.{octets_in};
ghost use Rattle.cms_tlv.specs.Reading.{may_be};
ghost use Rattle.cms_fields.specs.Received.{IsOpaqueAmong};
ghost use Rattle.cms_fields.specs.Grammar.{opaque_among};

use crate::field::Field;
use crate::received::{Kind, Received};
use crate::sink::{Sink, Stop};
use crate::write::Write;
use cms_tlv::{Bound, Fault, Input, Reason, Source};
use std::marker::PhantomData;

/// Identifier octets that an element may have.
pub trait Identifiers: Drop {
    ghost use Rattle.std.specs.Prelude.{◌≡◌, ℕ, Bool};

    ghost allowed: { ℕ → Bool };

    /// Whether `octet` is one of them.
    fn allows(octet: u8) -> bool
        ensures { result ≡ allowed octet };
}

/// One identifier octet, `ID`.
#[derive(Drop)]
pub struct Only<const ID: u8>;

impl<const ID: u8> Identifiers for Only<ID> {
    ghost allowed = { λ t. t == ID };

    fn allows(octet: u8) -> bool {
        octet == ID
    }
}

/// The octets of an opaque element with an identifier octet of `I`.
#[derive(Drop)]
pub struct OpaqueAmongOctets<I>(PhantomData<I>);

impl<I: Identifiers> Kind for OpaqueAmongOctets<I> {
    ghost is = { IsOpaqueAmong I.allowed };
}

/// An element with an identifier octet of `I`, octet for octet. E7 after the header of another element;
/// the faults of that header come first.
#[derive(Drop)]
pub struct OpaqueAmong<I>(pub Received<OpaqueAmongOctets<I>>);

impl<I: Identifiers> Write for OpaqueAmong<I> {
    ghost Value = { List ℕ };

    ghost grammar = { opaque_among I.allowed };

    ghost value = { λ k x. octets_in k x.0.span.start x.0.span.end };

    fn emit<S: Sink>(&self, kept: &[u8], sink: &mut S) -> Result<(), Stop> {
        self.0.emit(kept, sink)
    }

    fn law() {}
}

impl<I: Identifiers> Field for OpaqueAmong<I> {
    fn read<R: Input>(source: &mut Source<R>, bound: &Bound) -> Result<OpaqueAmong<I>, Fault> {
        let next = source.peek(bound)?;
        if is_allowed::<I>(next) {
            let span = source.opaque(bound)?;
            Ok(OpaqueAmong(Received::new(span)))
        } else {
            // The header is taken for its own faults alone: whatever it is, it is not allowed here.
            source.enter(bound, 0)?;
            Err(source.refuse(Reason::UnexpectedElement))
        }
    }

    fn begins_with(octet: u8) -> bool {
        I::allows(octet)
    }
}

/// Whether the next octet is an identifier octet of `I`.
fn is_allowed<I: Identifiers>(next: Option<u8>) -> bool
    ensures { result ≡ may_be I.allowed next }
{
    match next {
        Some(octet) => I::allows(octet),
        None => false,
    }
}
