//! Messages with more digest algorithms than are sorted at once.
use crate::asserts::{assert_holds, assert_same};
use crate::samples::LIMIT;
use cms_canon::{Done, Tail, canonicalise, put_message, read_message};
use cms_tlv::{Slice, Watched};
use std::alloc::{AllocError, Global};
use std::test::Fail;

/// How many digest algorithms there are. The DER of each has eight octets.
const ALGORITHMS: usize = 20_000;

/// What is before them and after them if lengths are indefinite.
const BEFORE: &str = "308006092a864886f70d010702a08030800201013180";

const AFTER: &str = "0000300b06092a864886f70d0107013100000000000000";

/// What is before the set in DER.
const BEFORE_IN_DER: &str = "308302712c06092a864886f70d010702a08302711c30830271170201013183027100";

const AFTER_IN_DER: &str = "300b06092a864886f70d0107013100";

/// The algorithm of a number, without parameters. They ascend as their numbers do.
fn put_algorithm(number: usize, out: &mut Vec<u8>) -> Result<(), AllocError> {
    out.extend_from_slice(b"\x30\x06\x06\x04\x2a")?;
    out.push((0x81 + number / 16_384 % 2) as u8)?;
    out.push((0x80 + number / 128 % 128) as u8)?;
    out.push((number % 128) as u8)?;
    Ok(())
}

/// The algorithms after `before`, with `after` after them. Their order is that of their numbers times `step`.
fn message_with(alloc: Global, before: &str, step: usize, after: &str) -> Result<Vec<u8>, Fail> {
    let mut message = hex::decode(alloc, before)?;
    for i in 0..ALGORITHMS {
        put_algorithm(i.wrapping_mul(step) % ALGORITHMS, &mut message)?;
    }
    message.extend_from_slice(&hex::decode(alloc, after)?)?;
    Ok(message)
}

/// The message in an order that jumps about, and in DER.
fn both_messages(alloc: Global) -> Result<(Vec<u8>, Vec<u8>), Fail> {
    let input = message_with(alloc, BEFORE, 7919, AFTER)?;
    let output = message_with(alloc, BEFORE_IN_DER, 1, AFTER_IN_DER)?;
    Ok((input, output))
}

/// The digest algorithms are sorted, however many they are.
#[test]
fn many_algorithms_canonicalised(rt: HostRuntime) -> Result<(), Fail> {
    let (input, output) = both_messages(rt.alloc())?;
    let mut writer = Watched::new(Vec::new(rt.alloc()));
    let reader = Slice::new(&input);
    let (_, done) = canonicalise(rt.alloc(), reader, &mut writer, LIMIT, Tail::Refuse);
    let want = Done {
        read: input.len() as u64,
        written: output.len() as u64,
    };
    assert_same(&rt, done, Ok(want), "what is returned");
    assert_holds(&rt, writer.into_inner() == output, "what is written");
    Ok(())
}

/// They are sorted too if the message is appended.
#[test]
fn many_algorithms_put(rt: HostRuntime) -> Result<(), Fail> {
    let (input, output) = both_messages(rt.alloc())?;
    let (_, message) = read_message(rt.alloc(), Slice::new(&input), LIMIT, Tail::Refuse);
    let mut out = Vec::new(rt.alloc());
    put_message(rt.alloc(), &message?, &mut out)?;
    assert_holds(&rt, out == output, "what is appended");
    Ok(())
}
