//! Records read and written.

use crate::asserts::assert_same;
use crate::parts::fields::{Accepted, Refused, assert_accepted, assert_fields, received};
use crate::parts::sources::LIMIT;
use cms_fields::{Last, Tagged};
use cms_message::{ContentInfoSpans, put_content_info};
use cms_sample::{ChosenSpans, SampleSpans, Share, ShareSpans};
use cms_scalars::NamedBitsSpan;
use cms_tlv::Reason;
use std::test::Fail;

const ACCEPTED: &[Accepted] = &[
    // A serial number, and no attributes.
    Accepted {
        input: "300f02010302010506032a030404020102",
        output: "300f02010302010506032a030404020102",
        definite: &[(2, 17)],
    },
    // A key identifier; indefinite; its attributes descend.
    Accepted {
        input: "30800201038001aaa080300706022a03040102300706022a03040101000006032a0304040201020000",
        output: "30230201038001aaa012300706022a03040101300706022a0304010206032a030404020102",
        definite: &[(4, 5), (7, 8), (12, 19), (21, 28), (32, 35), (37, 39)],
    },
];

const REFUSED: &[Refused] = &[
    // No attribute; the same, indefinite.
    (
        "3011020103020105a00006032a030404020102",
        Reason::EmptyAttributes,
        10,
    ),
    (
        "3013020103020105a080000006032a030404020102",
        Reason::EmptyAttributes,
        12,
    ),
    // Neither choice; none.
    (
        "300f0201030c010506032a030404020102",
        Reason::UnexpectedElement,
        7,
    ),
    ("3003020103", Reason::UnexpectedElement, 5),
    // An element after the last field.
    (
        "301102010302010506032a0304040201020500",
        Reason::UnexpectedElement,
        19,
    ),
    // A malformed INTEGER in the choice.
    ("301002010302020005", Reason::IntegerMalformed, 9),
];

/// The smallest signed message, with indefinite lengths, and its DER after an octet.
const CONTENT_INFO: &str =
    "308006092a864886f70d010702a080308002010131800000308006092a864886f70d01070100003100000000000000";

const CONTENT_INFO_APPENDED: &str =
    "61302306092a864886f70d010702a01630140201013100300b06092a864886f70d0107013100";

#[test]
fn content_info_put(rt: HostRuntime) -> Result<(), Fail> {
    let octets = hex::decode(rt.alloc(), CONTENT_INFO)?;
    let (spans, kept) = received::<ContentInfoSpans>(rt.alloc(), &octets, 4096, LIMIT)?;
    let mut out = vec![in rt.alloc(); 0x61; 1]?;
    put_content_info(rt.alloc(), &kept, &spans, &mut out)?;
    let out = hex::encode(rt.alloc(), out)?;
    assert_same(&rt, out.as_str(), CONTENT_INFO_APPENDED, "the DER");
    Ok(())
}

#[test]
fn samples(rt: HostRuntime) -> Result<(), Fail> {
    assert_fields::<SampleSpans>(&rt, ACCEPTED, REFUSED)
}

/// A SEQUENCE of one BIT STRING.
type BitsInSequence = Tagged<0x30, Last<NamedBitsSpan>>;

#[test]
fn bits_in_a_record(rt: HostRuntime) -> Result<(), Fail> {
    let cases = [Accepted {
        input: "308003030080000000",
        output: "300403020780",
        definite: &[(4, 7)],
    }];
    assert_accepted::<BitsInSequence>(&rt, &cases)
}

const CHOSEN: &[Accepted] = &[
    // Bits after 1; indefinite.
    Accepted {
        input: "3080020101030207800000",
        output: "300702010103020780",
        definite: &[(4, 5), (7, 9)],
    },
    // An OBJECT IDENTIFIER after another number.
    Accepted {
        input: "300802010206032a0304",
        output: "300802010206032a0304",
        definite: &[(2, 10)],
    },
];

const NOT_CHOSEN: &[Refused] = &[
    // An OBJECT IDENTIFIER after 1; bits after another number; nothing after a number.
    ("300802010106032a0304", Reason::UnexpectedElement, 7),
    ("300702010203020780", Reason::UnexpectedElement, 7),
    ("3003020101", Reason::UnexpectedElement, 5),
    // An element after them.
    ("3009020101030207800500", Reason::UnexpectedElement, 11),
];

#[test]
fn fields_selected_by_the_first(rt: HostRuntime) -> Result<(), Fail> {
    assert_fields::<ChosenSpans>(&rt, CHOSEN, NOT_CHOSEN)
}

const SHARES: &[Accepted] = &[
    // No percentage; the largest; indefinite, with the smallest.
    Accepted {
        input: "3003020105",
        output: "3003020105",
        definite: &[(2, 5)],
    },
    Accepted {
        input: "3006020105800164",
        output: "3006020105800164",
        definite: &[(2, 8)],
    },
    Accepted {
        input: "30800201058001000000",
        output: "3006020105800100",
        definite: &[(4, 5), (7, 8)],
    },
];

const NO_SHARES: &[Refused] = &[
    // 101, -1 and 256 are out of range; 00 00 is no INTEGER.
    ("3006020105800165", Reason::IntegerMalformed, 8),
    ("30060201058001ff", Reason::IntegerMalformed, 8),
    ("300702010580020100", Reason::IntegerMalformed, 9),
    ("300702010580020000", Reason::IntegerMalformed, 9),
];

#[test]
fn numbers_of_a_range(rt: HostRuntime) -> Result<(), Fail> {
    assert_fields::<ShareSpans>(&rt, SHARES, NO_SHARES)
}

#[test]
fn fields_of_a_share(rt: HostRuntime) -> Result<(), Fail> {
    let octets = hex::decode(rt.alloc(), "3006020105800164")?;
    let (spans, kept) = received::<ShareSpans>(rt.alloc(), &octets, 1, LIMIT)?;
    let share = Share::new(&spans, &kept);
    let numbers = (share.total().to_u64(), share.percent().map(|n| n.to_u64()));
    assert_same(
        &rt,
        numbers,
        (Some(5), Some(Some(100))),
        "total and percent",
    );
    Ok(())
}
