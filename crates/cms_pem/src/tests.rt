//! Spellings of a block, and what is refused.
use crate::{NoBlock, block_in, pem_of};
use std::alloc::Global;
use std::test::Fail;

/// The octets of each block that is read.
const OCTETS: &[u8] = b"Hello";

/// Texts of a block, and how many octets follow it.
const READ: &[(&[u8], usize)] = &[
    (b"-----BEGIN CMS-----\nSGVsbG8=\n-----END CMS-----\n", 0),
    (
        b"-----BEGIN CMS-----\r\nSGVsbG8=\r\n-----END CMS-----\r\n",
        0,
    ),
    (b"-----BEGIN CMS-----\nSGVsbG8=\n-----END CMS-----", 0),
    (
        b"-----BEGIN CMS----- \t\n\tSG Vs\x0b\x0c\n\nbG\r8=\n \n-----END CMS----- \n",
        0,
    ),
    (
        b"text\n -----BEGIN X-----\n-----BEGIN PKCS7-----\nSGVsbG8=\n-----END PKCS7-----\nmore",
        4,
    ),
    (
        b"-----BEGIN -----\nSGVsbG8=\n-----END -----\n-----BEGIN -----\n",
        17,
    ),
];

/// Texts without a block, and why they have none.
const REFUSED: &[(&[u8], NoBlock)] = &[
    (b"", NoBlock::NoBegin),
    (b"SGVsbG8=\n", NoBlock::NoBegin),
    (
        b" -----BEGIN CMS-----\nSGVsbG8=\n-----END CMS-----\n",
        NoBlock::NoBegin,
    ),
    (
        b"\xef\xbb\xbf-----BEGIN CMS-----\nSGVsbG8=\n-----END CMS-----\n",
        NoBlock::NoBegin,
    ),
    (b"-----BEGIN CMS-----\nSGVsbG8=\n", NoBlock::NoEnd),
    (
        b"-----BEGIN CMS-----\nSGVsbG8=\n-----END PKCS7-----\n",
        NoBlock::NoEnd,
    ),
    (
        b"-----BEGIN CMS-----\nSGVsbG8=\n-----end cms-----\n",
        NoBlock::NoEnd,
    ),
    (
        b"-----BEGIN CMS-----\nSGV!bG8=\n-----END CMS-----\n",
        NoBlock::Malformed { at: 23 },
    ),
    (
        b"-----BEGIN CMS-----\nA: b\n\nSGVsbG8=\n-----END CMS-----\n",
        NoBlock::Malformed { at: 21 },
    ),
    (
        b"-----BEGIN CMS-----\nSGVsbG8\n-----END CMS-----\n",
        NoBlock::Malformed { at: 28 },
    ),
    (
        b"-----BEGIN CMS-----\nSGVsbG9=\n-----END CMS-----\n",
        NoBlock::Malformed { at: 29 },
    ),
    (
        b"-----BEGIN CMS-----\nSA==SGVs\n-----END CMS-----\n",
        NoBlock::Malformed { at: 29 },
    ),
];

/// What is read of a text: whether the octets are those above, and how many follow the block.
fn read(alloc: Global, text: &[u8]) -> Result<(bool, usize), NoBlock> {
    let block = block_in(alloc, text, 0)?;
    Ok((
        block.octets.as_slice() == OCTETS,
        text.len().saturating_sub(block.after),
    ))
}

#[test]
fn blocks_are_read(rt: HostRuntime) {
    for (text, rest) in READ {
        let came = read(rt.alloc(), text);
        assert!(rt; came == Ok((true, *rest)), "a block");
    }
}

#[test]
fn other_texts_are_refused(rt: HostRuntime) {
    for (text, why) in REFUSED {
        let came = read(rt.alloc(), text);
        assert!(rt; came == Err(*why), "no block");
    }
}

#[test]
fn a_block_is_written(rt: HostRuntime) -> Result<(), Fail> {
    let text = pem_of(rt.alloc(), "CMS", OCTETS)?;
    let wanted: &[u8] = b"-----BEGIN CMS-----\nSGVsbG8=\n-----END CMS-----\n";
    assert!(rt; text.as_slice() == wanted, "the block");
    Ok(())
}
