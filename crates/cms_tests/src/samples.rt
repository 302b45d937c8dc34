//! Messages that are accepted, and what is written for them; the limit.
use cms_canon::{Message, Tail, read_message};
use cms_tlv::{Fault, Slice};
use hex::FromHexError;
use std::alloc::Global;
use std::test::Fail;

/// A message and its DER, in hexadecimal.
pub struct Sample {
    pub name: &'static str,
    pub input: &'static str,
    pub output: &'static str,
}

/// The limit if a case names none.
pub const LIMIT: u64 = 16_777_216;

/// Reads a message, which is given in hexadecimal.
pub fn message_of(alloc: Global, input: &str) -> Result<Message, Fail> {
    let octets = hex::decode(alloc, input)?;
    Ok(message_in(alloc, &octets)?)
}

/// Reads a message from these octets.
fn message_in(alloc: Global, octets: &[u8]) -> Result<Message, Fault> {
    let (_, message) = read_message(alloc, Slice::new(octets), LIMIT, Tail::Refuse);
    message
}

/// The octets of two texts in hexadecimal.
pub fn both(alloc: Global, first: &str, second: &str) -> Result<(Vec<u8>, Vec<u8>), FromHexError> {
    let first = hex::decode(alloc, first)?;
    let second = hex::decode(alloc, second)?;
    Ok((first, second))
}

pub const SMALLEST: &str =
    "302306092a864886f70d010702a01630140201013100300b06092a864886f70d0107013100";

/// A message with content in one piece.
pub const WHOLE_CONTENT: &str =
    "302a06092a864886f70d010702a01d301b0201013100301206092a864886f70d010701a00504036162633100";

/// A message with that content in two segments.
pub const SEGMENTED_CONTENT: &str =
    "308006092a864886f70d010702a08030800201013100308006092a864886f70d010701a0802480040261620401630000000000003100000000000000";

/// Content in segments inside segments, with lengths that are definite and lengths that are not.
pub const NESTED_CONTENT: &str =
    "308006092a864886f70d010702a08030800201013100308006092a864886f70d010701a0802480240924800401610000040004026263240304016424000000000000003100000000000000";

/// One signer, with a key identifier and signed attributes; the content is attached.
pub const SIGNED: &str =
    "3081a506092a864886f70d010702a08197308194020103310d300b0609608648016503040201301206092a864886f70d010701a0050403616263316c306a020103800111300b0609608648016503040201a04b301806092a864886f70d010903310b06092a864886f70d010701302f06092a864886f70d01090431220420ba7816bf8f01cfea414140de5dae2223b00361a396177a9cb410ff61f20015ad300506032a03040401aa";

/// What the signature of the signer in `SIGNED` covers.
pub const COVERED: &str =
    "314b301806092a864886f70d010903310b06092a864886f70d010701302f06092a864886f70d01090431220420ba7816bf8f01cfea414140de5dae2223b00361a396177a9cb410ff61f20015ad";

/// Two signers without signed attributes, the first with unsigned attributes, and no content.
pub const TWO_SIGNERS: &str =
    "306606092a864886f70d010702a05930570201033100300b06092a864886f70d01070131433028020103800111300506032a0304300506032a03040401aaa10f300d06032a030531060201070201083017020103800122300506032a0304300506032a03040401bb";

/// One certificate; a signer with signed attributes, then one without, and no content.
pub const MIXED: &str =
    "3081c906092a864886f70d010702a081bb3081b8020103310d300b0609608648016503040201300b06092a864886f70d010701a005300302010531818f306a020103800111300b0609608648016503040201a04b301806092a864886f70d010903310b06092a864886f70d010701302f06092a864886f70d01090431220420ba7816bf8f01cfea414140de5dae2223b00361a396177a9cb410ff61f20015ad300506032a03040401aa302102010130053000020109300b0609608648016503040201300506032a03040401bb";

/// A request with every field.
pub const REQUEST: &str =
    "30800201013080300b060960864801650304020124800401010401020000000006032a0304020107010101a00230000000";

/// A request with only the fields that must be there.
pub const SMALLEST_REQUEST: &str =
    "30360201013031300d060960864801650304020105000420ba7816bf8f01cfea414140de5dae2223b00361a396177a9cb410ff61f20015ad";

pub const ACCEPTED: &[Sample] = &[
    Sample {
        name: "smallest-signed-data",
        input: SMALLEST,
        output: SMALLEST,
    },
    Sample {
        name: "indefinite-at-every-level",
        input: "308006092a864886f70d010702a080308002010131800000308006092a864886f70d01070100003100000000000000",
        output: SMALLEST,
    },
    Sample {
        name: "length-with-leading-zeros",
        input: "308300002306092a864886f70d010702a01630140201013100300b06092a864886f70d0107013100",
        output: SMALLEST,
    },
    Sample {
        name: "length-in-eight-octets",
        input: "3088000000000000002306092a864886f70d010702a01630140201013100300b06092a864886f70d0107013100",
        output: SMALLEST,
    },
    Sample {
        name: "two-algorithms-reordered",
        input: "303906092a864886f70d010702a02c302a0201013116300b0609608648016503040201300706052b0e03021a300b06092a864886f70d0107013100",
        output: "303906092a864886f70d010702a02c302a0201013116300706052b0e03021a300b0609608648016503040201300b06092a864886f70d0107013100",
    },
    Sample {
        name: "high-tag-parameters",
        input: "303306092a864886f70d010702a02630240201013110300e06096086480165030402011f1f00300b06092a864886f70d0107013100",
        output: "303306092a864886f70d010702a02630240201013110300e06096086480165030402011f1f00300b06092a864886f70d0107013100",
    },
    Sample {
        name: "absent-parameters-before-null-parameters",
        input: "303f06092a864886f70d010702a0323030020101311c300d06096086480165030402010500300b0609608648016503040201300b06092a864886f70d0107013100",
        output: "303f06092a864886f70d010702a0323030020101311c300b0609608648016503040201300d06096086480165030402010500300b06092a864886f70d0107013100",
    },
    Sample {
        name: "constructed-identifier-20-in-parameters",
        input: "302c06092a864886f70d010702a01f301d0201013109300706032a03042000300b06092a864886f70d0107013100",
        output: "302c06092a864886f70d010702a01f301d0201013109300706032a03042000300b06092a864886f70d0107013100",
    },
    Sample {
        name: "token-type-without-content",
        input: "302506092a864886f70d010702a01830160201013100300d060b2a864886f70d01091001043100",
        output: "302506092a864886f70d010702a01830160201013100300d060b2a864886f70d01091001043100",
    },
    Sample {
        name: "content-piece-of-a-whole-string",
        input: WHOLE_CONTENT,
        output: WHOLE_CONTENT,
    },
    Sample {
        name: "segmented-content",
        input: SEGMENTED_CONTENT,
        output: WHOLE_CONTENT,
    },
    Sample {
        name: "content-in-eight-nested-strings",
        input: "308006092a864886f70d010702a08030800201013100308006092a864886f70d010701a0802480248024802480248024802480248004016100000000000000000000000000000000000000003100000000000000",
        output: "302806092a864886f70d010702a01b30190201013100301006092a864886f70d010701a0030401613100",
    },
    Sample {
        name: "content in nested segments of both forms",
        input: NESTED_CONTENT,
        output: "302b06092a864886f70d010702a01e301c0201013100301306092a864886f70d010701a0060404616263643100",
    },
];
