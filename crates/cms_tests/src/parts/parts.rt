//! Calls by which a record reads its parts, and writes them.

use crate::asserts::{assert_holds, assert_same};
use crate::parts::fields::received;
use crate::parts::sources::{AT_A_TIME, LIMIT, source};
use cms_fields::{Last, Tagged, Then, read_after_header, read_der, read_with_span};
use cms_sample::TextSpan;
use cms_scalars::{Integer, IntegerSpan, Octets, OctetsSpan};
use cms_setof::{
    EncodedLen, Gathered, LongString, SetOf, encoded_len, gather, is_encoding, put, put_element,
};
use cms_tlv::{Bound, Fault, Input, OCTET_STRING, Reason, SEQUENCE, SET, Source, Span, Watched};
use std::alloc::Global;
use std::process::Abort;
use std::test::Fail;

/// A SEQUENCE of an INTEGER.
type Number = Tagged<SEQUENCE, Last<IntegerSpan>>;

/// A SEQUENCE in hexadecimal, and the value of the INTEGER in it, or the place of its E7.
const NUMBERS: &[(&str, Result<u64, u64>)] = &[
    ("3003020105", Ok(5)),
    ("30800201050000", Ok(5)),
    ("30030c0105", Err(4)),
    ("30060201050201", Err(7)),
    ("3080020105020106", Err(7)),
];

/// Reads a SEQUENCE by its header, and then what is in it.
fn read_number<R: Input>(source: &mut Source<R>) -> Result<Number, Fault> {
    let inner = source.enter(&Bound::top(), SEQUENCE)?;
    read_after_header(source, inner)
}

/// The value of the INTEGER in a SEQUENCE.
fn number(alloc: Global, octets: &[u8], at_a_time: usize) -> Result<u64, Fault> {
    let mut source = source(alloc, octets, at_a_time, LIMIT);
    let number = read_number(&mut source);
    let (_, kept) = source.finish();
    let Tagged(Last(number)) = number?;
    Ok(Integer::new(&number, &kept).to_u64().unwrap_or(u64::MAX))
}

#[test]
fn fields_after_their_header(rt: HostRuntime) -> Result<(), Fail> {
    for (input, want) in NUMBERS {
        let octets = hex::decode(rt.alloc(), input)?;
        let reason = Reason::UnexpectedElement;
        let want = want.map_err(|at| Fault::Refused { reason, at });
        for at_a_time in AT_A_TIME {
            let number = number(rt.alloc(), &octets, *at_a_time);
            assert_same(&rt, (*at_a_time, number), (*at_a_time, want), input);
        }
    }
    Ok(())
}

/// Where two fields lie, one after the other.
fn read_spans<R: Input>(source: &mut Source<R>) -> Result<(Span, Span), Fault> {
    let (first, _) = read_with_span::<R, IntegerSpan>(source, &Bound::top())?;
    let (second, _) = read_with_span::<R, TextSpan>(source, &Bound::top())?;
    Ok((first, second))
}

/// An octet that was peeked is one of the field.
#[test]
fn fields_with_their_spans(rt: HostRuntime) {
    for at_a_time in AT_A_TIME {
        let octets = b"\x02\x01\x05\x04\x81\x01\x61\x05\x00";
        let mut source = source(rt.alloc(), octets, *at_a_time, LIMIT);
        let peeked = source.peek(&Bound::top());
        assert_same(&rt, peeked, Ok(Some(0x02)), "the octet peeked");
        let spans = read_spans(&mut source);
        let first = Span { start: 0, end: 3 };
        let second = Span { start: 3, end: 7 };
        assert_same(&rt, spans, Ok((first, second)), "the spans");
        let again = read_spans(&mut source);
        assert_same(&rt, again.is_err(), true, "no INTEGER");
        let _ = source.finish();
    }
}

/// A SEQUENCE of an INTEGER and an OCTET STRING.
type Pair = Tagged<SEQUENCE, Then<IntegerSpan, Last<TextSpan>>>;

/// Octets in hexadecimal, and whether they are a `Pair` in DER and nothing more.
const DER: &[(&str, bool)] = &[
    ("300602010504016a", true),
    ("", false),
    ("300602010504016a00", false),
    ("300602010504016a3000", false),
    ("300602010504", false),
    ("30810602010504016a", false),
    ("308002010504016a0000", false),
    ("300a02010524050403616263", false),
    ("310602010504016a", false),
];

/// Octets that must be DER, and the string in them.
#[test]
fn octets_in_der(rt: HostRuntime) -> Result<(), Fail> {
    for (input, is_der) in DER {
        let octets = hex::decode(rt.alloc(), input)?;
        let read = read_der::<Pair>(rt.alloc(), &octets)?;
        assert_same(&rt, read.is_some(), *is_der, input);
        let Some((pair, kept)) = read else {
            continue;
        };
        assert_same(&rt, kept.as_slice(), octets.as_slice(), "the octets kept");
        let Tagged(Then(_, Last(text))) = &pair;
        let string = Octets::of_primitive(text, &kept);
        assert_same(&rt, string.pieces(), 1, "the pieces");
        assert_same(&rt, string.piece(0), Some(b"j".as_slice()), "the string");
    }
    Ok(())
}

/// A `Pair` in hexadecimal, and whether these octets are what is written for it.
const PAIRS: &[(&str, bool)] = &[
    ("300602010504016a", true),
    ("30060201050401ff", true),
    ("30810602010504016a", false),
    ("30070201050481016a", false),
    ("308002010504016a0000", false),
];

#[test]
fn pairs_are_their_encodings(rt: HostRuntime) -> Result<(), Fail> {
    for (input, is_so) in PAIRS {
        let octets = hex::decode(rt.alloc(), input)?;
        let (pair, kept) = received::<Pair>(rt.alloc(), &octets, 1, LIMIT)?;
        assert_same(&rt, is_encoding(&pair, &kept), *is_so, input);
        let mut longer = Vec::from_slice(rt.alloc(), &kept)?;
        longer.push(0)?;
        assert_same(&rt, is_encoding(&pair, &longer), false, input);
    }
    Ok(())
}

/// What a SEQUENCE holds is appended under another identifier.
#[test]
fn elements_appended(rt: HostRuntime) -> Result<(), Fail> {
    let octets = hex::decode(rt.alloc(), "308002020080048101610000")?;
    let (pair, kept) = received::<Pair>(rt.alloc(), &octets, 1, LIMIT)?;
    let mut out = Vec::from_slice(rt.alloc(), b"\xff")?;
    put_element(0xa1, &pair.0, rt.alloc(), &kept, &mut out)?;
    let want = b"\xff\xa1\x07\x02\x02\x00\x80\x04\x01\x61".as_slice();
    assert_same(&rt, out.as_slice(), want, "the element");
    put(&pair.0, rt.alloc(), &kept, &mut out)?;
    let all = b"\xff\xa1\x07\x02\x02\x00\x80\x04\x01\x61\x02\x02\x00\x80\x04\x01\x61".as_slice();
    assert_same(&rt, out.as_slice(), all, "the element and its contents");
    assert_same(&rt, encoded_len(&pair.0, &kept).octets, 7, "their length");
    let gathered = gather(&pair, encoded_len(&pair, &kept), rt.alloc(), &kept)?;
    let want = b"\x30\x07\x02\x02\x00\x80\x04\x01\x61".as_slice();
    assert_poured(&rt, &gathered, &kept, want)
}

/// A span is borrowed, and written in one piece.
#[test]
fn borrowed_spans(rt: HostRuntime) -> Result<(), Fail> {
    let borrowed = Gathered::lend(rt.alloc(), Span { start: 1, end: 3 })?;
    assert_poured(&rt, &borrowed, b"\x61\x62\x63\x64", b"\x62\x63")
}

/// What is gathered.
fn assert_poured(
    rt: &(impl Abort + AllocGlobal),
    gathered: &Gathered,
    kept: &[u8],
    want: &[u8],
) -> Result<(), Fail> {
    let mut writer = Watched::new(Vec::new(rt.alloc()));
    gathered.pour(rt.alloc(), kept, &mut writer)?;
    let is_wanted = writer.into_inner().as_slice() == want;
    assert_same(rt, is_wanted, true, "what is poured");
    let mut room = vec![in rt.alloc(); 0xff; want.len() + 1]?;
    gathered.copy_to(kept, &mut room);
    let is_copied = room.split_last() == Some((&0xff, want));
    assert_same(rt, is_copied, true, "what is copied, and an octet after it");
    Ok(())
}

/// A string.
type Text = OctetsSpan<OCTET_STRING>;

/// A SEQUENCE of three strings.
type Texts = Tagged<SEQUENCE, Then<Text, Then<Text, Last<Text>>>>;

/// How many octets a long string has: enough to be borrowed.
const LONG: usize = 65_536;

/// A short string in a segment, and two that are long enough to be borrowed, the first in two segments.
fn texts(alloc: Global) -> Result<Vec<u8>, Fail> {
    let text = vec![in alloc; 0x61; LONG]?;
    let mut octets = Vec::from_slice(
        alloc,
        b"\x30\x80\x24\x80\x04\x01\x62\x00\x00\x24\x80\x04\x01\x61\x04\x82\xff\xff",
    )?;
    octets.extend_from_slice(&text[1..])?;
    octets.extend_from_slice(b"\x00\x00\x04\x83\x01\x00\x00")?;
    octets.extend_from_slice(&text)?;
    octets.extend_from_slice(b"\x00\x00")?;
    Ok(octets)
}

/// What is written for them.
fn texts_in_der(alloc: Global) -> Result<Vec<u8>, Fail> {
    let text = vec![in alloc; 0x61; LONG]?;
    let mut octets = Vec::from_slice(
        alloc,
        b"\x30\x83\x02\x00\x0d\x04\x01\x62\x04\x83\x01\x00\x00",
    )?;
    octets.extend_from_slice(&text)?;
    octets.extend_from_slice(b"\x04\x83\x01\x00\x00")?;
    octets.extend_from_slice(&text)?;
    Ok(octets)
}

/// How many octets the string has that is borrowed, and how many come after it.
fn borrowed(len: &EncodedLen) -> Option<(u64, u64)> {
    let string = len.long_string?;
    Some((string.octets, string.after))
}

/// One string is borrowed, and the others are copied.
#[test]
fn long_strings_gathered(rt: HostRuntime) -> Result<(), Fail> {
    let octets = texts(rt.alloc())?;
    let want = texts_in_der(rt.alloc())?;
    let (texts, kept) = received::<Texts>(rt.alloc(), &octets, LONG, 1 << 20)?;
    let len = encoded_len(&texts, &kept);
    assert_same(&rt, len.octets, want.len() as u64, "how many octets");
    assert_same(
        &rt,
        borrowed(&len),
        Some((LONG as u64, 0)),
        "the last string",
    );
    let gathered = gather(&texts, len, rt.alloc(), &kept)?;
    assert_poured(&rt, &gathered, &kept, &want)?;
    let mut out = Vec::new(rt.alloc());
    put(&texts, rt.alloc(), &kept, &mut out)?;
    assert_holds(&rt, out.as_slice() == want.as_slice(), "what is put");
    Ok(())
}

/// No string in a set is borrowed, since the set is sorted in place.
#[test]
fn long_strings_in_sets_gathered(rt: HostRuntime) -> Result<(), Fail> {
    let text = vec![in rt.alloc(); 0x61; LONG]?;
    let mut octets = Vec::from_slice(rt.alloc(), b"\x31\x80\x04\x83\x01\x00\x00")?;
    octets.extend_from_slice(&text)?;
    octets.extend_from_slice(b"\x04\x01\x62\x00\x00")?;
    let mut want = Vec::from_slice(
        rt.alloc(),
        b"\x31\x83\x01\x00\x08\x04\x01\x62\x04\x83\x01\x00\x00",
    )?;
    want.extend_from_slice(&text)?;
    let (texts, kept) = received::<Tagged<SET, SetOf<Text>>>(rt.alloc(), &octets, LONG, 1 << 20)?;
    let len = encoded_len(&texts, &kept);
    assert_same(&rt, borrowed(&len), None, "no string");
    let gathered = gather(&texts, len, rt.alloc(), &kept)?;
    assert_poured(&rt, &gathered, &kept, &want)?;
    let string = LongString {
        octets: LONG as u64,
        after: 0,
    };
    let len = EncodedLen {
        octets: len.octets,
        long_string: Some(string),
    };
    let gathered = gather(&texts, len, rt.alloc(), &kept)?;
    assert_poured(&rt, &gathered, &kept, &want)
}
