//! BIT STRINGs with a named-bit list.

use crate::asserts::assert_same;
use crate::parts::fields::{Accepted, Refused, assert_accepted, assert_refused, received};
use crate::parts::sources::{AT_A_TIME, LIMIT};
use cms_fields::Write;
use cms_scalars::{NamedBits, NamedBitsSpan};
use cms_setof::is_encoding;
use cms_tlv::Reason;
use std::alloc::{AllocError, Global};
use std::process::Abort;
use std::test::Fail;

const ACCEPTED: &[Accepted] = &[
    Accepted {
        input: "0303008000",
        output: "03020780",
        definite: &[(2, 5)],
    },
    Accepted {
        input: "030207ff",
        output: "03020780",
        definite: &[(2, 4)],
    },
    Accepted {
        input: "03020780",
        output: "03020780",
        definite: &[(2, 4)],
    },
    Accepted {
        input: "030100",
        output: "030100",
        definite: &[(2, 3)],
    },
    Accepted {
        input: "03020000",
        output: "030100",
        definite: &[(2, 4)],
    },
    Accepted {
        input: "030307007f",
        output: "030100",
        definite: &[(2, 5)],
    },
    Accepted {
        input: "0304060000ff",
        output: "0304060000c0",
        definite: &[(2, 6)],
    },
    Accepted {
        input: "03050001020000",
        output: "0303010102",
        definite: &[(2, 7)],
    },
    Accepted {
        input: "03020005",
        output: "03020005",
        definite: &[(2, 4)],
    },
    Accepted {
        input: "030307017f",
        output: "03020001",
        definite: &[(2, 5)],
    },
];

const REFUSED: &[Refused] = &[
    ("0300", Reason::BitsMalformed, 2),
    ("030101", Reason::BitsMalformed, 3),
    ("03020800", Reason::BitsMalformed, 4),
    ("230403020780", Reason::UnexpectedElement, 2),
    ("04020780", Reason::UnexpectedElement, 2),
];

#[test]
fn bits_accepted(rt: HostRuntime) -> Result<(), Fail> {
    assert_accepted::<NamedBitsSpan>(&rt, ACCEPTED)
}

#[test]
fn bits_refused(rt: HostRuntime) -> Result<(), Fail> {
    assert_refused::<NamedBitsSpan>(&rt, REFUSED)
}

/// A BIT STRING in hexadecimal, the numbers of the bits that are set, and one more than the last.
const BITS: &[(&str, &[u64], u64)] = &[
    ("0303008000", &[0], 1),
    ("030207ff", &[0], 1),
    ("03020780", &[0], 1),
    ("030100", &[], 0),
    ("03020000", &[], 0),
    ("030307007f", &[], 0),
    ("0304060000ff", &[16, 17], 18),
    ("03050001020000", &[7, 14], 15),
    ("03020005", &[5, 7], 8),
    ("030307017f", &[7], 8),
];

/// The numbers of the bits that are set, of those below 40.
fn numbers(alloc: Global, bits: &NamedBits<'_>) -> Result<Vec<u64>, AllocError> {
    let mut set = Vec::new(alloc);
    for number in 0..40 {
        if bits.has(number) {
            set.push(number)?;
        }
    }
    Ok(set)
}

fn assert_bits(
    rt: &(impl Abort + AllocGlobal),
    (input, set, width): &(&str, &[u64], u64),
    at_a_time: usize,
) -> Result<(), Fail> {
    let octets = hex::decode(rt.alloc(), input)?;
    let (span, kept) = received::<NamedBitsSpan>(rt.alloc(), &octets, at_a_time, LIMIT)?;
    let bits = NamedBits::new(&span, &kept);
    assert_same(rt, bits.width(), *width, input);
    let numbers = numbers(rt.alloc(), &bits)?;
    assert_same(rt, numbers.as_slice(), *set, input);
    Ok(())
}

#[test]
fn bits_told(rt: HostRuntime) -> Result<(), Fail> {
    for case in BITS {
        for at_a_time in AT_A_TIME {
            assert_bits(&rt, case, *at_a_time)?;
        }
    }
    Ok(())
}

/// A BIT STRING in hexadecimal, and whether it is in DER.
const IN_DER: &[(&str, bool)] = &[
    ("03020780", true),
    ("03020640", true),
    ("03020005", true),
    ("0304010000fe", true),
    ("030100", true),
    ("03020540", false),
    ("030207ff", false),
    ("0303008000", false),
    ("03020000", false),
    ("030307007f", false),
    ("0381020780", false),
    ("03810100", false),
];

#[test]
fn bits_in_der(rt: HostRuntime) -> Result<(), Fail> {
    for (input, is_so) in IN_DER {
        let octets = hex::decode(rt.alloc(), input)?;
        let (span, kept) = received::<NamedBitsSpan>(rt.alloc(), &octets, 1, LIMIT)?;
        assert_same(&rt, is_encoding(&span, &kept), *is_so, input);
        let mut longer = Vec::from_slice(rt.alloc(), &kept)?;
        longer.push(0)?;
        assert_same(&rt, is_encoding(&span, &longer), false, input);
    }
    Ok(())
}
