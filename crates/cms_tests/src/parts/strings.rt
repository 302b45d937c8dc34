//! OCTET STRINGs, in one piece and in segments.

use crate::asserts::{assert_holds, assert_same};
use crate::parts::fields::{Accepted, Refused, assert_accepted, assert_refused};
use crate::parts::sources::{AT_A_TIME, LIMIT, source};
use cms_scalars::{Octets, OctetsSpan, read_octets};
use cms_tlv::{Bound, Fault, Reason};
use std::alloc::Global;
use std::process::Abort;
use std::test::Fail;

/// OCTET STRINGs with their own identifier.
const ACCEPTED: &[Accepted] = &[
    Accepted {
        input: "0403616263",
        output: "0403616263",
        definite: &[(2, 5)],
    },
    Accepted {
        input: "0400",
        output: "0400",
        definite: &[],
    },
    Accepted {
        input: "048300000161",
        output: "040161",
        definite: &[(5, 6)],
    },
    Accepted {
        input: "24800000",
        output: "0400",
        definite: &[],
    },
    Accepted {
        input: "2400",
        output: "0400",
        definite: &[],
    },
    Accepted {
        input: "2480040261620401630000",
        output: "0403616263",
        definite: &[(4, 6), (8, 9)],
    },
    Accepted {
        input: "240704026162040163",
        output: "0403616263",
        definite: &[(2, 9)],
    },
    Accepted {
        input: "24820009040004016104000400",
        output: "040161",
        definite: &[(4, 13)],
    },
    Accepted {
        input: "24802405040361626304016424000000",
        output: "040461626364",
        definite: &[(4, 9), (11, 12)],
    },
    Accepted {
        input: "2409248004016100000400",
        output: "040161",
        definite: &[(2, 11)],
    },
    Accepted {
        input: "2480240024800000240224000000",
        output: "0400",
        definite: &[(10, 12)],
    },
    Accepted {
        input: "2480248024802480248024802480248004016100000000000000000000000000000000",
        output: "040161",
        definite: &[(18, 19)],
    },
    Accepted {
        input: "2411240f240d240b2409240724052403040161",
        output: "040161",
        definite: &[(2, 19)],
    },
];

/// OCTET STRINGs with the tag [0] IMPLICIT.
const ACCEPTED_TAGGED: &[Accepted] = &[
    Accepted {
        input: "800161",
        output: "800161",
        definite: &[(2, 3)],
    },
    Accepted {
        input: "a08004016104000000",
        output: "800161",
        definite: &[(4, 5)],
    },
    Accepted {
        input: "a0052403040161",
        output: "800161",
        definite: &[(2, 7)],
    },
    Accepted {
        input: "a080248024802480248024802480248004016100000000000000000000000000000000",
        output: "800161",
        definite: &[(18, 19)],
    },
];

/// What is not an OCTET STRING with its own identifier.
const REFUSED: &[Refused] = &[
    // Another identifier.
    ("0500", Reason::UnexpectedElement, 2),
    ("800161", Reason::UnexpectedElement, 2),
    ("a0800000", Reason::UnexpectedElement, 2),
    ("000161", Reason::UnexpectedElement, 2),
    // A segment with another identifier.
    ("24800500", Reason::UnexpectedElement, 4),
    ("2403800161", Reason::UnexpectedElement, 4),
    ("24803000", Reason::UnexpectedElement, 4),
    ("24020000", Reason::UnexpectedElement, 4),
    ("240404008000", Reason::UnexpectedElement, 6),
    // What begins like an end of contents, but is not one.
    ("24800005", Reason::UnexpectedElement, 4),
    ("2480008100", Reason::UnexpectedElement, 5),
    // Headers that are refused before their identifiers are judged.
    ("0480", Reason::IndefinitePrimitive, 2),
    ("05ff", Reason::LengthReserved, 2),
    ("24800589", Reason::LengthTooLong, 4),
    ("24800480", Reason::IndefinitePrimitive, 4),
    // A segment past the end of the string around it.
    ("2403040261", Reason::Overrun, 4),
    ("24028001", Reason::Overrun, 4),
    ("240104", Reason::Overrun, 3),
    ("240524800401610000", Reason::Overrun, 7),
    ("24032480040161", Reason::Overrun, 5),
    // Longer than the limit.
    ("048401000000", Reason::TooLarge, 6),
    ("058401000000", Reason::TooLarge, 6),
    // Nine constructed encodings, each nested in the one before it.
    (
        "248024802480248024802480248024802480",
        Reason::SegmentsTooDeep,
        18,
    ),
    (
        "2410240e240c240a24082406240424022400",
        Reason::SegmentsTooDeep,
        18,
    ),
    (
        "24802480248024802480248024802480248200",
        Reason::Truncated,
        19,
    ),
    (
        "2480248024802480248024802480248024820000",
        Reason::SegmentsTooDeep,
        20,
    ),
    ("2410240e240c240a24082406240424022401", Reason::Overrun, 18),
    (
        "248024802480248024802480248024802484ffffffff",
        Reason::TooLarge,
        22,
    ),
    (
        "248024802480248024802480248024803080",
        Reason::UnexpectedElement,
        18,
    ),
];

/// What is not an OCTET STRING with the tag [0] IMPLICIT.
const REFUSED_TAGGED: &[Refused] = &[
    ("040161", Reason::UnexpectedElement, 2),
    ("24800000", Reason::UnexpectedElement, 2),
    ("a080800161", Reason::UnexpectedElement, 4),
    ("a080a080", Reason::UnexpectedElement, 4),
    ("a08024808001", Reason::UnexpectedElement, 6),
    ("8080", Reason::IndefinitePrimitive, 2),
    (
        "a08024802480248024802480248024802480",
        Reason::SegmentsTooDeep,
        18,
    ),
];

#[test]
fn strings_accepted(rt: HostRuntime) -> Result<(), Fail> {
    assert_accepted::<OctetsSpan<0x04>>(&rt, ACCEPTED)?;
    assert_accepted::<OctetsSpan<0x80>>(&rt, ACCEPTED_TAGGED)
}

#[test]
fn strings_refused(rt: HostRuntime) -> Result<(), Fail> {
    assert_refused::<OctetsSpan<0x04>>(&rt, REFUSED)?;
    assert_refused::<OctetsSpan<0x80>>(&rt, REFUSED_TAGGED)
}

/// A string and its pieces, in hexadecimal.
type Pieces = (&'static str, &'static [&'static str]);

const PIECES: &[Pieces] = &[
    ("0403616263", &["616263"]),
    ("0400", &[""]),
    ("048300000161", &["61"]),
    ("24800000", &[]),
    ("2400", &[]),
    ("2480040261620401630000", &["6162", "63"]),
    ("240704026162040163", &["6162", "63"]),
    ("24820009040004016104000400", &["", "61", "", ""]),
    ("24802405040361626304016424000000", &["616263", "64"]),
    ("2409248004016100000400", &["61", ""]),
    ("2480240024800000240224000000", &[]),
    (
        "2480248024802480248024802480248004016100000000000000000000000000000000",
        &["61"],
    ),
    ("2411240f240d240b2409240724052403040161", &["61"]),
];

const PIECES_TAGGED: &[Pieces] = &[
    ("800161", &["61"]),
    ("a08004016104000000", &["61", ""]),
    ("a0052403040161", &["61"]),
    (
        "a080248024802480248024802480248004016100000000000000000000000000000000",
        &["61"],
    ),
];

/// A piece of a string; returns how many octets it has.
fn assert_piece(
    rt: &(impl Abort + AllocGlobal),
    string: &Octets<'_>,
    i: u64,
    want: &str,
    name: &str,
) -> Result<u64, Fail> {
    let want = hex::decode(rt.alloc(), want)?;
    let piece = string.piece(i);
    assert_same(rt, (i, piece), (i, Some(want.as_slice())), name);
    Ok(want.len() as u64)
}

/// The pieces of a string, and how many octets they have in all.
fn assert_pieces(
    rt: &(impl Abort + AllocGlobal),
    string: &Octets<'_>,
    (name, pieces): &Pieces,
) -> Result<(), Fail> {
    let count = string.pieces();
    assert_same(rt, count, pieces.len() as u64, name);
    assert_same(rt, string.piece(count), None, name);
    let mut total = 0u64;
    for (i, want) in pieces.iter().enumerate() {
        let octets = assert_piece(rt, string, i as u64, want, name)?;
        total = total.saturating_add(octets);
    }
    assert_same(rt, string.total(), total, name);
    Ok(())
}

/// The string that the octets begin with, and the octets that are kept of it.
fn string<const ID: u8>(
    alloc: Global,
    octets: &[u8],
    at_a_time: usize,
) -> Result<(OctetsSpan<ID>, Vec<u8>), Fault> {
    let mut source = source(alloc, octets, at_a_time, LIMIT);
    let span = read_octets::<_, ID>(&mut source, &Bound::top());
    let (_, kept) = source.finish();
    Ok((span?, kept))
}

fn assert_read<const ID: u8>(
    rt: &(impl Abort + AllocGlobal),
    case: &Pieces,
    at_a_time: usize,
) -> Result<(), Fail> {
    let octets = hex::decode(rt.alloc(), case.0)?;
    let (span, kept) = string::<ID>(rt.alloc(), &octets, at_a_time)?;
    assert_same(rt, span.spans().len(), case.1.len() as u64, case.0);
    assert_pieces(rt, &Octets::new(&span, &kept), case)
}

/// The pieces of each string, however slow its reader is.
fn assert_each_read<const ID: u8>(
    rt: &(impl Abort + AllocGlobal),
    cases: &[Pieces],
) -> Result<(), Fail> {
    for case in cases {
        for at_a_time in AT_A_TIME {
            assert_read::<ID>(rt, case, *at_a_time)?;
        }
    }
    Ok(())
}

#[test]
fn pieces_told(rt: HostRuntime) -> Result<(), Fail> {
    assert_each_read::<0x04>(&rt, PIECES)?;
    assert_each_read::<0x80>(&rt, PIECES_TAGGED)
}
