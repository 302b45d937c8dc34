//! The sketches of the crates below do what their documentation says.

use crate::asserts::assert_same;
use crate::parts::fields::received;
use crate::parts::sources::{AT_A_TIME, LIMIT, source};
use cms_fields::{Last, Tagged, Then};
use cms_sample::{TextSpan, attribute_in_der, five, number_in, put_both, value_of};
use cms_tlv::{SEQUENCE, Span};
use std::test::Fail;

#[test]
fn numbers_in_a_sequence(rt: HostRuntime) -> Result<(), Fail> {
    for at_a_time in AT_A_TIME {
        let octets = hex::decode(rt.alloc(), "30800202008000000500")?;
        let mut source = source(rt.alloc(), &octets, *at_a_time, LIMIT);
        let number = number_in(&mut source);
        assert_same(&rt, number, Ok(Span { start: 4, end: 6 }), "the contents");
        assert_same(&rt, number_in(&mut source).is_err(), true, "no SEQUENCE");
        let _ = source.finish();
    }
    assert_same(&rt, five(rt.alloc()), Ok(Some(5)), "the contents octet");
    Ok(())
}

#[test]
fn attributes_in_der(rt: HostRuntime) -> Result<(), Fail> {
    let input = hex::decode(rt.alloc(), "308006022a03050000000000")?;
    let output = attribute_in_der(rt.alloc(), &input).ok_or("no attribute")?;
    let want = b"\x30\x06\x06\x02\x2a\x03\x05\x00".as_slice();
    assert_same(&rt, output.as_slice(), want, "the DER");
    let none = attribute_in_der(rt.alloc(), b"\x30\x02\x05\x00");
    assert_same(&rt, none.is_none(), true, "no attribute");
    Ok(())
}

/// A SEQUENCE of two OCTET STRINGs.
type Pair = Tagged<SEQUENCE, Then<TextSpan, Last<TextSpan>>>;

#[test]
fn sets_of_two(rt: HostRuntime) -> Result<(), Fail> {
    let input = b"\x30\x06\x04\x01\x62\x04\x01\x61";
    let (pair, kept) = received::<Pair>(rt.alloc(), input, 1, LIMIT)?;
    let Tagged(Then(first, Last(second))) = pair;
    let mut out = Vec::new(rt.alloc());
    put_both(rt.alloc(), &kept, first, second, &mut out).ok_or("out of memory")?;
    let want = b"\x31\x06\x04\x01\x61\x04\x01\x62".as_slice();
    assert_same(&rt, out.as_slice(), want, "the set");
    Ok(())
}

#[test]
fn values_of_numbers(rt: HostRuntime) {
    let value = value_of(rt.alloc(), b"\x02\x02\x00\x80");
    assert_same(&rt, value, Some(128), "the value");
    let none = value_of(rt.alloc(), b"\x05\x00");
    assert_same(&rt, none, None, "no INTEGER");
}
