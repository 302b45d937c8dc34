//! Primitive elements that are taken at once.

use crate::asserts::assert_same;
use crate::elements::sources::LIMIT;
use crate::streams::Counting;
use cms_tlv::{
    Bound, Fault, Input, OCTET_STRING, Reason, SEQUENCE, Slice, Source, Span, Spans, Watched,
};
use std::alloc::Global;
use std::process::Abort;
use std::test::Fail;

/// Octets, the limit, where contents lie after the call, and how many octets are consumed then.
const TAKEN: &[(&str, u64, &[(usize, usize)], u64)] = &[
    ("", LIMIT, &[], 0),
    ("040161", LIMIT, &[(2, 3)], 3),
    (
        "0401610400040262630000",
        LIMIT,
        &[(2, 3), (5, 5), (7, 9)],
        9,
    ),
    ("040161020105", LIMIT, &[(2, 3)], 3),
    ("0401612404040162", LIMIT, &[(2, 3)], 3),
    ("0401610402", LIMIT, &[(2, 3)], 3),
    ("04016104026162", 7, &[(2, 3), (5, 7)], 7),
    ("04016104026162", 6, &[(2, 3)], 3),
    ("04810161", LIMIT, &[], 0),
    ("048000", LIMIT, &[], 0),
];

/// Takes the OCTET STRINGs at hand up to the end of `bound`, and returns where their contents lie.
fn taken<R: Input>(
    source: &mut Source<R>,
    bound: &Bound,
    alloc: Global,
) -> Result<Vec<(usize, usize)>, Fault> {
    let mut spans = Spans::new(alloc);
    source.primitives_at_hand(bound, OCTET_STRING, &mut spans)?;
    let spans = spans.borrowed();
    let mut places = Vec::new(alloc);
    for i in 0..spans.len() {
        let Some(Span { start, end }) = spans.get(i) else {
            break;
        };
        if places.push((start, end)).is_err() {
            return Err(source.out_of_memory());
        }
    }
    Ok(places)
}

#[test]
fn primitives_taken(rt: HostRuntime) -> Result<(), Fail> {
    for (input, limit, places, consumed) in TAKEN {
        let octets = hex::decode(rt.alloc(), input)?;
        let mut source = Source::new(rt.alloc(), Slice::new(&octets), *limit);
        let came = taken(&mut source, &Bound::top(), rt.alloc());
        let position = source.position();
        let (_, kept) = source.finish();
        assert_same(&rt, came?.as_slice(), *places, input);
        assert_same(&rt, position, *consumed, input);
        assert_same(&rt, kept.as_slice(), &octets[..*consumed as usize], input);
    }
    Ok(())
}

/// No element is taken that would pass the end of the one around it.
#[test]
fn primitives_before_an_end(rt: HostRuntime) -> Result<(), Fail> {
    let octets = b"\x30\x05\x04\x01\x61\x04\x01\x62";
    let mut source = Source::new(rt.alloc(), Slice::new(octets), LIMIT);
    let inner = source.enter(&Bound::top(), SEQUENCE);
    let came = inner.and_then(|inner| taken(&mut source, &inner, rt.alloc()));
    let position = source.position();
    let _ = source.finish();
    assert_same(&rt, came?.as_slice(), &[(4, 5)], "the contents");
    assert_same(&rt, position, 5, "the position");
    Ok(())
}

/// A reader that has nothing at hand is asked for nothing.
#[test]
fn no_primitives_at_hand(rt: HostRuntime) -> Result<(), Fail> {
    let reader = Watched::new(Counting::new(b"\x04\x01\x61", 3));
    let mut source = Source::new(rt.alloc(), reader, LIMIT);
    let came = taken(&mut source, &Bound::top(), rt.alloc());
    let (reader, _) = source.finish();
    assert_same(&rt, came?.as_slice(), &[], "the contents");
    assert_same(&rt, reader.into_inner().calls, 0, "calls of the reader");
    Ok(())
}

/// After a fault the same fault is returned, and nothing is taken.
#[test]
fn primitives_after_a_fault(rt: HostRuntime) {
    let mut source = Source::new(rt.alloc(), Slice::new(b"\x04\x01\x61"), LIMIT);
    let fault = source.refuse(Reason::OpaqueNotDer);
    let came = taken(&mut source, &Bound::top(), rt.alloc());
    assert_same(&rt, came.err(), Some(fault), "the fault");
    assert_same(&rt, source.position(), 0, "the position");
    let _ = source.finish();
}
