//! Where the fields of messages and of TSTInfos lie.

use crate::asserts::{assert_hex, assert_holds, assert_same};
use crate::samples::{REQUEST, SIGNED, SMALLEST_REQUEST, TWO_SIGNERS, message_of};
use cms_rows::{
    ACCURACY, ATTRIBUTE, CERT_REQ, CONTENT, CONTENT_TYPE, DIGEST_ALGORITHM, FAIL_INFO, GEN_TIME,
    HASH_ALGORITHM, HASHED_MESSAGE, MICROS, MILLIS, ORDERING, PARAMETERS, REQUEST as REQUEST_KIND,
    REQUEST_EXTENSIONS, REQUEST_NONCE, REQUEST_POLICY, REQUEST_VERSION, RESPONSE, Row, SECONDS,
    SIGNATURE, SIGNATURE_ALGORITHM, SIGNED_ATTRIBUTES, SIGNED_DATA, SIGNER,
    SIGNER_DIGEST_ALGORITHM, SIGNER_VERSION, STATUS, STATUS_STRING, SUBJECT_KEY_IDENTIFIER, TSA,
    TST_EXTENSIONS, TST_INFO, TST_NONCE, TST_POLICY, TST_SERIAL_NUMBER, TST_VERSION,
    UNSIGNED_ATTRIBUTES, VALUE, VERSION, tst_info_rows,
};
use cms_tsp::tst_info_spans;
use std::process::Abort;
use std::test::Fail;

/// A row: its kind, its level, and the octets that it names, in hexadecimal.
struct Named(u32, u32, &'static str);

/// Octets in hexadecimal, and their rows.
struct Case {
    input: &'static str,
    rows: &'static [Named],
}

const MESSAGES: &[Case] = &[
    Case {
        input: REQUEST,
        rows: &[
            Named(REQUEST_KIND, 0, ""),
            Named(REQUEST_VERSION, 1, "01"),
            Named(HASH_ALGORITHM, 1, "608648016503040201"),
            Named(HASHED_MESSAGE, 1, "01"),
            Named(HASHED_MESSAGE, 1, "02"),
            Named(REQUEST_POLICY, 1, "2a0304"),
            Named(REQUEST_NONCE, 1, "07"),
            Named(CERT_REQ, 1, ""),
            Named(REQUEST_EXTENSIONS, 1, "a0023000"),
        ],
    },
    Case {
        input: SMALLEST_REQUEST,
        rows: &[
            Named(REQUEST_KIND, 0, ""),
            Named(REQUEST_VERSION, 1, "01"),
            Named(HASH_ALGORITHM, 1, "608648016503040201"),
            Named(PARAMETERS, 2, "0500"),
            Named(
                HASHED_MESSAGE,
                1,
                "ba7816bf8f01cfea414140de5dae2223b00361a396177a9cb410ff61f20015ad",
            ),
        ],
    },
    // FALSE written out has no row either, and a digest of no octets has one.
    Case {
        input: "30110201013009300506032a03040400010100",
        rows: &[
            Named(REQUEST_KIND, 0, ""),
            Named(REQUEST_VERSION, 1, "01"),
            Named(HASH_ALGORITHM, 1, "2a0304"),
            Named(HASHED_MESSAGE, 1, ""),
        ],
    },
    Case {
        input: "30083006020102030100",
        rows: &[
            Named(RESPONSE, 0, ""),
            Named(STATUS, 1, "02"),
            Named(FAIL_INFO, 1, "00"),
        ],
    },
    Case {
        input: "300b300902010230040c026e6f",
        rows: &[
            Named(RESPONSE, 0, ""),
            Named(STATUS, 1, "02"),
            Named(STATUS_STRING, 1, "30040c026e6f"),
        ],
    },
    Case {
        input: "302a3003020100302306092a864886f70d010702a01630140201013100300b06092a864886f70d0107013100",
        rows: &[
            Named(RESPONSE, 0, ""),
            Named(STATUS, 1, "00"),
            Named(SIGNED_DATA, 1, ""),
            Named(VERSION, 2, "01"),
            Named(CONTENT_TYPE, 2, "2a864886f70d010701"),
        ],
    },
    Case {
        input: SIGNED,
        rows: &[
            Named(SIGNED_DATA, 0, ""),
            Named(VERSION, 1, "03"),
            Named(DIGEST_ALGORITHM, 1, "608648016503040201"),
            Named(CONTENT_TYPE, 1, "2a864886f70d010701"),
            Named(CONTENT, 1, "616263"),
            Named(SIGNER, 1, ""),
            Named(SIGNER_VERSION, 2, "03"),
            Named(SUBJECT_KEY_IDENTIFIER, 2, "11"),
            Named(SIGNER_DIGEST_ALGORITHM, 2, "608648016503040201"),
            Named(
                SIGNED_ATTRIBUTES,
                2,
                "a04b301806092a864886f70d010903310b06092a864886f70d010701302f06092a864886f70d01090431220420ba7816bf8f01cfea414140de5dae2223b00361a396177a9cb410ff61f20015ad",
            ),
            Named(ATTRIBUTE, 3, "2a864886f70d010903"),
            Named(VALUE, 4, "06092a864886f70d010701"),
            Named(ATTRIBUTE, 3, "2a864886f70d010904"),
            Named(
                VALUE,
                4,
                "0420ba7816bf8f01cfea414140de5dae2223b00361a396177a9cb410ff61f20015ad",
            ),
            Named(SIGNATURE_ALGORITHM, 2, "2a0304"),
            Named(SIGNATURE, 2, "aa"),
        ],
    },
    Case {
        input: TWO_SIGNERS,
        rows: &[
            Named(SIGNED_DATA, 0, ""),
            Named(VERSION, 1, "03"),
            Named(CONTENT_TYPE, 1, "2a864886f70d010701"),
            Named(SIGNER, 1, ""),
            Named(SIGNER_VERSION, 2, "03"),
            Named(SUBJECT_KEY_IDENTIFIER, 2, "11"),
            Named(SIGNER_DIGEST_ALGORITHM, 2, "2a0304"),
            Named(SIGNATURE_ALGORITHM, 2, "2a0304"),
            Named(SIGNATURE, 2, "aa"),
            Named(UNSIGNED_ATTRIBUTES, 2, ""),
            Named(ATTRIBUTE, 3, "2a0305"),
            Named(VALUE, 4, "020107"),
            Named(VALUE, 4, "020108"),
            Named(SIGNER, 1, ""),
            Named(SIGNER_VERSION, 2, "03"),
            Named(SUBJECT_KEY_IDENTIFIER, 2, "22"),
            Named(SIGNER_DIGEST_ALGORITHM, 2, "2a0304"),
            Named(SIGNATURE_ALGORITHM, 2, "2a0304"),
            Named(SIGNATURE, 2, "bb"),
        ],
    },
];

const TST_INFOS: &[Case] = &[
    Case {
        input: "304a02010106032a03043011300b06096086480165030402010402aabb020105180f32303236303130313030303030305a30090201018001028101030101ff020107a004a4023000a1023000",
        rows: &[
            Named(TST_INFO, 0, ""),
            Named(TST_VERSION, 1, "01"),
            Named(TST_POLICY, 1, "2a0304"),
            Named(HASH_ALGORITHM, 1, "608648016503040201"),
            Named(HASHED_MESSAGE, 1, "aabb"),
            Named(TST_SERIAL_NUMBER, 1, "05"),
            Named(GEN_TIME, 1, "32303236303130313030303030305a"),
            Named(ACCURACY, 1, ""),
            Named(SECONDS, 2, "01"),
            Named(MILLIS, 2, "02"),
            Named(MICROS, 2, "03"),
            Named(ORDERING, 1, ""),
            Named(TST_NONCE, 1, "07"),
            Named(TSA, 1, "a004a4023000"),
            Named(TST_EXTENSIONS, 1, "a1023000"),
        ],
    },
    Case {
        input: "302702010106032a03043009300506032a03040400020105180f32303236303130313030303030305a",
        rows: &[
            Named(TST_INFO, 0, ""),
            Named(TST_VERSION, 1, "01"),
            Named(TST_POLICY, 1, "2a0304"),
            Named(HASH_ALGORITHM, 1, "2a0304"),
            Named(HASHED_MESSAGE, 1, ""),
            Named(TST_SERIAL_NUMBER, 1, "05"),
            Named(GEN_TIME, 1, "32303236303130313030303030305a"),
        ],
    },
];

/// Asserts that these rows name what is wanted.
fn assert_rows(
    rt: &(impl Abort + AllocGlobal),
    octets: &[u8],
    rows: &[Row],
    case: &Case,
) -> Result<(), Fail> {
    assert_same(rt, rows.len(), case.rows.len(), case.input);
    for (row, want) in rows.iter().zip(case.rows) {
        let Named(kind, level, named) = want;
        assert_same(rt, (row.kind, row.level), (*kind, *level), case.input);
        let start = row.start as usize;
        let came = octets.get(start..start + row.length as usize);
        assert_hex(rt, came.ok_or("outside")?, named, case.input)?;
    }
    Ok(())
}

#[test]
fn rows_of_messages(rt: HostRuntime) -> Result<(), Fail> {
    for case in MESSAGES {
        let message = message_of(rt.alloc(), case.input)?;
        let rows = message.rows(rt.alloc())?;
        assert_rows(&rt, message.octets(), &rows, case)?;
    }
    Ok(())
}

#[test]
fn rows_of_tst_infos(rt: HostRuntime) -> Result<(), Fail> {
    for case in TST_INFOS {
        let octets = hex::decode(rt.alloc(), case.input)?;
        let rows = tst_info_rows(rt.alloc(), &octets)?.ok_or("no rows")?;
        assert_rows(&rt, &octets, &rows, case)?;
        let spans = tst_info_spans(rt.alloc(), &octets)?;
        assert_holds(&rt, spans.is_some(), case.input);
    }
    Ok(())
}

/// Octets that are no TSTInfo: none, one with an octet after it, one with a length that DER does not have, and a request.
const NO_TST_INFOS: &[&str] = &[
    "",
    "302702010106032a03043009300506032a03040400020105180f32303236303130313030303030305a00",
    "30812702010106032a03043009300506032a03040400020105180f32303236303130313030303030305a",
    SMALLEST_REQUEST,
];

#[test]
fn no_rows_of_other_octets(rt: HostRuntime) -> Result<(), Fail> {
    for input in NO_TST_INFOS {
        let octets = hex::decode(rt.alloc(), input)?;
        let rows = tst_info_rows(rt.alloc(), &octets)?;
        assert_holds(&rt, rows.is_none(), input);
        let spans = tst_info_spans(rt.alloc(), &octets)?;
        assert_holds(&rt, spans.is_none(), input);
    }
    Ok(())
}
