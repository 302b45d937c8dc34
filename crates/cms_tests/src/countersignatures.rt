//! Countersignatures of messages that were read, and what they cover.
use crate::asserts::{assert_hex, assert_holds, assert_same};
use crate::samples::message_of;
use cms_message::{Attribute, CoverFault, Indexed, SignedData, SignerInfo};
use std::process::Abort;
use std::test::Fail;

/// One signer, with three countersignature attributes of one, of no and of one value. The first
/// countersignature has one itself; the other has signed attributes.
const THROUGH_ATTRIBUTES: &str =
    "3081d906092a864886f70d010702a081cb3081c80201033100300b06092a864886f70d0107013181b33081b0020103800111300506032a0304300506032a03040401aaa18196305006092a864886f70d01090631433041020103800133300506032a0304300506032a03040401cca128302606092a864886f70d01090631193017020103800133300506032a0304300506032a03040401cc300d06092a864886f70d0109063100303306092a864886f70d01090631263024020103800155300506032a0304a00b300906032a030531020500300506032a03040401ee";

/// How many values each attribute has, all of them countersignatures.
const COUNTS: &[u64] = &[1, 0, 1];

/// What is covered at a path, in hexadecimal.
const COVERED: &[(&[u64], &str)] = &[
    (&[0, 0], "aa"),
    (&[0, 0, 0], "cc"),
    (&[0, 1], "310b300906032a030531020500"),
];

const NO_SIGNER: &[&[u64]] = &[&[], &[1], &[0, 2], &[0, 0, 1], &[0, 0, 0, 0], &[u64::MAX]];

fn first_signer<'a>(signed_data: &SignedData<'a>) -> Result<SignerInfo<'a>, Fail> {
    Ok(signed_data.signer(0).ok_or("no signer")?)
}

fn assert_countersignatures(
    rt: &impl Abort,
    attribute: &Attribute<'_>,
    count: u64,
) -> Result<(), Fail> {
    assert_same(rt, attribute.count(), count, "how many values");
    let countersignatures = attribute.countersignature_count();
    assert_same(rt, countersignatures, count, "how many countersignatures");
    assert_same(rt, attribute.countersignatures().len(), count, "in a list");
    assert_holds(rt, attribute.value(0).is_none(), "no opaque value");
    let after = attribute.countersignature(count);
    assert_holds(rt, after.is_none(), "none after the last");
    assert_holds(rt, attribute.values().is_empty(), "no opaque values");
    Ok(())
}

#[test]
fn countersignature_attributes(rt: HostRuntime) -> Result<(), Fail> {
    let message = message_of(rt.alloc(), THROUGH_ATTRIBUTES)?;
    let signed_data = message.signed_data().ok_or("no signed data")?;
    let signer = first_signer(&signed_data)?;
    let attributes = signer.unsigned_attrs().ok_or("no unsigned attributes")?;
    let count = COUNTS.len() as u64;
    assert_same(&rt, attributes.len(), count, "how many attributes");
    for (attribute, count) in attributes.into_iter().zip(COUNTS) {
        assert_countersignatures(&rt, &attribute, *count)?;
    }
    Ok(())
}

#[test]
fn countersignatures_of_a_signer(rt: HostRuntime) -> Result<(), Fail> {
    let message = message_of(rt.alloc(), THROUGH_ATTRIBUTES)?;
    let signed_data = message.signed_data().ok_or("no signed data")?;
    let signer = first_signer(&signed_data)?;
    for (i, signature) in [(0, "cc"), (1, "ee")] {
        let one = signer.countersignature(i).ok_or("no countersignature")?;
        let piece = one.signature().piece(0).ok_or("no signature")?;
        assert_hex(&rt, piece, signature, "its signature")?;
    }
    let third = signer.countersignature(2);
    assert_holds(&rt, third.is_none(), "there is no third");
    Ok(())
}

#[test]
fn covers_along_paths(rt: HostRuntime) -> Result<(), Fail> {
    let message = message_of(rt.alloc(), THROUGH_ATTRIBUTES)?;
    let signed_data = message.signed_data().ok_or("no signed data")?;
    for (path, want) in COVERED {
        let mut out = Vec::from_slice(rt.alloc(), b"xyz")?;
        let covered = signed_data.covered_path(rt.alloc(), path, Some(b"abc"), &mut out);
        assert_same(&rt, covered, Ok(()), want);
        let (before, cover) = out.split_at(out.len().min(3));
        assert_same(&rt, before, b"xyz", "what was there");
        assert_hex(&rt, cover, want, "the cover")?;
    }
    Ok(())
}

#[test]
fn covers_of_signers_by_paths(rt: HostRuntime) -> Result<(), Fail> {
    let message = message_of(rt.alloc(), THROUGH_ATTRIBUTES)?;
    let signed_data = message.signed_data().ok_or("no signed data")?;
    let mut out = Vec::new(rt.alloc());
    let without = signed_data.covered_path(rt.alloc(), &[0], None, &mut out);
    assert_same(&rt, without, Err(CoverFault::NoContent), "no content");
    let with = signed_data.covered_path(rt.alloc(), &[0], Some(b"abc"), &mut out);
    assert_same(&rt, with, Ok(()), "detached content");
    assert_hex(&rt, &out, "616263", "the content")?;
    for path in NO_SIGNER {
        let none = signed_data.covered_path(rt.alloc(), path, None, &mut out);
        assert_same(&rt, none, Err(CoverFault::NoSigner), "no signer");
    }
    assert_hex(&rt, &out, "616263", "nothing is appended")
}
