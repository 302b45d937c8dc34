//! Primitive elements, one after another, among octets that are at hand.
//!
//! Content may be in millions of segments of one octet, and a call or two for each would be most of its
//! time.
ghost use Rattle.std.specs.Prelude.{◌+◌, ◌<◌, ◌≤◌, ◌^◌, IfOk, IfSome, length, take};
ghost use Rattle.cms_tlv.specs.Primitives.{BeginsWithPrimitive, PassesPrimitives};

use crate::span::Span;
use crate::spans::Spans;
use std::alloc::AllocError;

/// Adds to `spans` where the contents lie of the primitive elements that `octets` begin with, as many as
/// are whole and have the identifier octet `ident` and a length of one octet. `at` is the place of the
/// first octet. Returns how many octets these elements have. An error means out of memory.
pub(crate) fn pass_primitives(
    octets: &[u8],
    ident: u8,
    at: usize,
    spans: &mut Spans,
) -> Result<usize, AllocError>
    requires { at + length octets.now < 2 ^ 64 }
    ensures fits { IfOk result (λ n. n ≤ length octets.now) }
    ensures passes { IfOk result (λ n. PassesPrimitives ident at spans.old spans.new
        (take n octets.now)) }
{
    let mut rest = octets;
    let mut start = at;
    while let Some((len, behind)) = short_primitive(rest, ident) {
        let span = Span {
            start: start + 2,
            end: start + 2 + len,
        };
        spans.push(span)?;
        start = span.end;
        rest = behind;
    }
    Ok(octets.len() - rest.len())
}

/// How many contents octets the primitive element has that `octets` begin with, and what follows it;
/// none if it is not whole, or has another identifier or a longer length.
#[inline(always)]
fn short_primitive(octets: &[u8], ident: u8) -> Option<(usize, &[u8])>
    ensures { IfSome result (λ p. BeginsWithPrimitive ident octets.now p.0 p.1.now) }
{
    let [first, len, rest @ ..] = octets else {
        return None;
    };
    let len = *len as usize;
    if *first != ident || len >= 0x80 || len > rest.len() {
        return None;
    }
    let (_, behind) = rest.split_at(len);
    Some((len, behind))
}
