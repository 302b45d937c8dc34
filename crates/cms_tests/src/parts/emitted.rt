//! A value that gives a sink what several spans name.
ghost use Rattle.std.specs.Prelude.{ℕ, List};
ghost use Rattle.cms_tlv.specs.Headers.{AreOctets};
ghost use Rattle.cms_tlv.specs.Spelling.{join};
ghost use Rattle.cms_fields.specs.Grammar.{tagged, octets_with};
ghost use Rattle.cms_fields.specs.Received.{spanned_in};

use crate::asserts::assert_same;
use cms_fields::{Sink, Stop, Write, emit_element, emit_spans, spans_len};
use cms_setof::{encoded_len, put_with_len};
use cms_tlv::{BorrowedSpans, OCTET_STRING, Span};
use std::test::Fail;

/// The octets that spans name.
#[derive(Drop)]
struct Pieces(Vec<Span>);

impl Write for Pieces {
    ghost Value = { List ℕ };

    ghost grammar = { octets_with AreOctets };

    ghost value = { λ k x. join (spanned_in k x.0.items) };

    fn emit<S: Sink>(&self, kept: &[u8], sink: &mut S) -> Result<(), Stop> {
        emit_spans(BorrowedSpans::new(&self.0), kept, sink)
    }

    fn law() {}
}

/// An OCTET STRING of them.
#[derive(Drop)]
struct Joined(Pieces);

impl Write for Joined {
    ghost Value = { List ℕ };

    ghost grammar = { tagged 4 (octets_with AreOctets) };

    ghost value = { λ k x. join (spanned_in k x.0.0.items) };

    fn emit<S: Sink>(&self, kept: &[u8], sink: &mut S) -> Result<(), Stop> {
        emit_element(OCTET_STRING, &self.0, kept, sink)
    }

    fn law() {}
}

/// Pieces are written in the order of their spans, after a header that says how many octets they have.
#[test]
fn pieces_emitted(rt: HostRuntime) -> Result<(), Fail> {
    let kept = b"\x61\x62\x63\x64".as_slice();
    let spans = [Span { start: 3, end: 4 }, Span { start: 0, end: 2 }];
    assert_same(
        &rt,
        spans_len(BorrowedSpans::new(&spans), kept),
        3,
        "the pieces",
    );
    let joined = Joined(Pieces(Vec::from_slice(rt.alloc(), &spans)?));
    let len = encoded_len(&joined, kept);
    assert_same(&rt, len.octets, 5, "the element");
    let mut out = Vec::from_slice(rt.alloc(), b"\xff")?;
    put_with_len(&joined, len, rt.alloc(), kept, &mut out)?;
    let want = b"\xff\x04\x03\x64\x61\x62".as_slice();
    assert_same(&rt, out.as_slice(), want, "what is put");
    Ok(())
}
