//! What conversion changes in a message. tests/test_changes.py asks more of it.

use crate::asserts::assert_same;
use crate::samples::message_of;
use cms_canon::{changes_of, json_of_changes, listing_of_changes};
use cms_listing::{Change, ChangeKind, SetName};
use std::test::Fail;

/// Two digest algorithms in another order than in DER, the second with a length in two octets.
const ALGORITHMS: &str =
    "303e06092a864886f70d010702a031302f020101311b300b060960864801650304020230810b0609608648016503040201300b06092a864886f70d0107013100";

/// The changes of its set, after those of the headers around it.
const CHANGES: [Change; 3] = [
    Change {
        kind: ChangeKind::Moved,
        at: 22,
        length: 13,
        to: 35,
        to_length: 13,
        first: 0,
        second: 1,
        set: Some(SetName::DigestAlgorithms),
    },
    Change {
        kind: ChangeKind::Moved,
        at: 35,
        length: 14,
        to: 22,
        to_length: 13,
        first: 1,
        second: 0,
        set: Some(SetName::DigestAlgorithms),
    },
    Change {
        kind: ChangeKind::LengthInFewestOctets,
        at: 35,
        length: 3,
        to: 22,
        to_length: 2,
        first: 11,
        second: 11,
        set: None,
    },
];

const LISTING: &str = "\
at 0 length of what is inside: 30 3e -> 30 3d
at 13 length of what is inside: a0 31 -> a0 30
at 15 length of what is inside: 30 2f -> 30 2e
at 20 length of what is inside: 31 1b -> 31 1a
at 22 moved from member 0 to member 1 of digestAlgorithms
at 35 moved from member 1 to member 0 of digestAlgorithms
at 35 length in fewest octets: 30 81 0b -> 30 0b
64 octets in, 63 out, 56 of them from the input, 7 changes
";

/// The smallest message, which is DER, and its changes.
const SMALLEST: &str = "302306092a864886f70d010702a01630140201013100300b06092a864886f70d0107013100";

const JSON: &str = "{\"changes\": [], \"octets_in\": 37, \"octets_out\": 37, \"from_input\": 37}\n";

#[test]
fn changes_of_a_message(rt: HostRuntime) -> Result<(), Fail> {
    let message = message_of(rt.alloc(), ALGORITHMS)?;
    let changes = changes_of(rt.alloc(), &message)?;
    let of_set = changes.get(4..).unwrap_or(&[]);
    assert_same(&rt, of_set, &CHANGES[..], "the changes of its set");
    let listing = listing_of_changes(rt.alloc(), &message)?;
    assert_same(&rt, listing.as_str(), LISTING, "the listing");
    let smallest = message_of(rt.alloc(), SMALLEST)?;
    let json = json_of_changes(rt.alloc(), &smallest)?;
    assert_same(&rt, json.as_str(), JSON, "the JSON");
    Ok(())
}
