//! Sets of OCTET STRINGs, and the order of their members.

use crate::asserts::{assert_holds, assert_same};
use crate::parts::fields::{Accepted, assert_accepted, received, rewritten};
use crate::parts::sources::LIMIT;
use cms_fields::{Primitive, Received, Tagged, Write};
use cms_sample::TextSpan;
use cms_setof::{SetOf, ascends, is_encoding};
use cms_tlv::Span;
use std::alloc::{AllocError, Global};
use std::process::Abort;
use std::test::Fail;

/// A set of OCTET STRINGs.
type Texts = Tagged<0x31, SetOf<TextSpan>>;

const ACCEPTED: &[Accepted] = &[
    // Without a member.
    Accepted {
        input: "3100",
        output: "3100",
        definite: &[],
    },
    // Descending.
    Accepted {
        input: "318004020102040201010402000004010004000000",
        output: "31110400040100040200000402010104020102",
        definite: &[(4, 6), (8, 10), (12, 14), (16, 17)],
    },
    // With repeats.
    Accepted {
        input: "310c040102040101040102040101",
        output: "310c040101040101040102040102",
        definite: &[(2, 14)],
    },
];

#[test]
fn sets_accepted(rt: HostRuntime) -> Result<(), Fail> {
    assert_accepted::<Texts>(&rt, ACCEPTED)
}

/// Sets in hexadecimal, and whether these octets are what is written for them.
const SETS: &[(&str, bool)] = &[
    ("3100", true),
    ("3103040161", true),
    ("3106040161040162", true),
    ("3106040161040161", true),
    ("3106040162040161", false),
    ("31800401610000", false),
];

#[test]
fn sets_are_their_encodings(rt: HostRuntime) -> Result<(), Fail> {
    for (input, is_so) in SETS {
        let octets = hex::decode(rt.alloc(), input)?;
        let (set, kept) = received::<Texts>(rt.alloc(), &octets, 1, LIMIT)?;
        assert_same(&rt, is_encoding(&set, &kept), *is_so, input);
    }
    Ok(())
}

/// Adds a member that starts there.
fn assert_pushed(rt: &impl Abort, set: &mut SetOf<TextSpan>, start: usize) {
    let span = Span { start, end: 3 };
    let pushed = set.push(Primitive(Received::new(span)));
    assert_holds(rt, pushed.is_ok(), "a member is added");
}

/// Where a member starts.
fn start(set: &SetOf<TextSpan>, i: u64) -> Option<usize> {
    Some(set.get(i)?.0.span.start)
}

/// A set keeps its members in the order in which they were added.
#[test]
fn sets_grow(rt: HostRuntime) {
    let mut set: SetOf<TextSpan> = SetOf::new(rt.alloc());
    assert_holds(&rt, set.is_empty(), "a new set is empty");
    for start in 0..3 {
        assert_pushed(&rt, &mut set, start);
    }
    assert_same(&rt, set.len(), 3, "how many members there are");
    assert_same(&rt, set.members().len(), 3, "how many members are borrowed");
    assert_same(&rt, start(&set, 1), Some(1), "where the second starts");
    assert_same(&rt, start(&set, 3), None, "no member behind the last");
    for (member, start) in set.iter().zip(0..3) {
        assert_same(&rt, member.0.span.start, start, "where a member starts");
    }
}

/// A set that is put under another identifier, its members ascending.
#[test]
fn set_put(rt: HostRuntime) -> Result<(), Fail> {
    let input = hex::decode(rt.alloc(), "3180040201020401010401010000")?;
    let (field, kept) = received::<Texts>(rt.alloc(), &input, 4096, LIMIT)?;
    let Tagged(set) = field;
    let mut out = Vec::new(rt.alloc());
    set.put(rt.alloc(), &kept, &mut out, 0xa1)?;
    let want = hex::decode(rt.alloc(), "a10a04010104010104020102")?;
    assert_holds(&rt, out == want, "the set is put");
    Ok(())
}

/// How many members of the large set have the same number, and how many numbers there are.
const TIMES: usize = 4;

const NUMBERS: usize = 6000;

/// The members of the large set by how many 00s end them, and the headers of each, ascending.
const KINDS: &[(usize, &[u8])] = &[
    (0, b"\x04\x02"),
    (1, b"\x04\x03"),
    (2, b"\x04\x04"),
    (3, b"\x04\x05"),
    (4, b"\x04\x06"),
    (200, b"\x04\x81\xca"),
];

/// How many 00s end the members of a number: every third one is long.
fn padding(number: usize) -> usize {
    if number % 3 == 0 { 200 } else { number % 5 }
}

/// The contents of the members of a number: it in two octets, and 00s.
fn append_contents(number: usize, out: &mut Vec<u8>) -> Result<(), AllocError> {
    out.push((number / 256 % 256) as u8)?;
    out.push((number % 256) as u8)?;
    for _ in 0..padding(number) {
        out.push(0)?;
    }
    Ok(())
}

/// The encoding of a member of a number.
fn append_member(number: usize, out: &mut Vec<u8>) -> Result<(), AllocError> {
    for (zeros, header) in KINDS {
        if padding(number) == *zeros {
            out.extend_from_slice(header)?;
        }
    }
    append_contents(number, out)
}

/// The encodings of the members that so many 00s end, ascending.
fn append_kind(zeros: usize, out: &mut Vec<u8>) -> Result<(), AllocError> {
    for i in 0..TIMES * NUMBERS {
        let number = i / TIMES;
        if padding(number) == zeros {
            append_member(number, out)?;
        }
    }
    Ok(())
}

/// The large set, whose members are in an order that jumps about.
fn large_set(alloc: Global) -> Result<Vec<u8>, AllocError> {
    let mut set = Vec::new(alloc);
    set.extend_from_slice(b"\x31\x80")?;
    for i in 0..TIMES * NUMBERS {
        append_member(i * 3467 % NUMBERS, &mut set)?;
    }
    set.extend_from_slice(b"\x00\x00")?;
    Ok(set)
}

/// The DER of the large set.
fn large_set_in_order(alloc: Global) -> Result<Vec<u8>, AllocError> {
    let mut set = Vec::new(alloc);
    set.extend_from_slice(b"\x31\x83\x1a\x7d\x40")?;
    for (zeros, _) in KINDS {
        append_kind(*zeros, &mut set)?;
    }
    Ok(set)
}

/// A set of more members than are sorted at once, of long and short ones.
#[test]
fn large_set_rewritten(rt: HostRuntime) -> Result<(), Fail> {
    let set = large_set(rt.alloc())?;
    let output = rewritten::<Texts>(rt.alloc(), &set, 4096, LIMIT)?;
    let want = large_set_in_order(rt.alloc())?;
    assert_holds(&rt, output == want, "the members are in order");
    Ok(())
}

/// Octets, other octets, and whether the first may come before the others.
const ORDER: &[(&[u8], &[u8], bool)] = &[
    (b"", b"", true),
    (b"\x01", b"\x02", true),
    (b"\x02", b"\x01", false),
    (b"\x01\xff", b"\x02", true),
    (b"\x01", b"\x01\x01", true),
    (b"\x01\x01", b"\x01", false),
    (b"\x01", b"\x01\x00", true),
    (b"\x01\x00", b"\x01", true),
];

#[test]
fn padded_order(rt: HostRuntime) {
    for (a, b, want) in ORDER {
        assert_same(&rt, (*a, *b, ascends(a, b)), (*a, *b, *want), "the order");
    }
}
