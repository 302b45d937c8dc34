//! The example of a caller.

use crate::asserts::assert_same;
use crate::samples::{SIGNED, message_of};
use cms_check::{Job, Verdict, Verifier};
use cms_example::{
    are_one_message, both, breaks, content_info_in_der, written, written_or_refused,
};
use cms_tlv::{Fault, Reason};
use std::test::Fail;

const SMALLEST: &[u8] =
    b"\x30\x23\x06\x09\x2a\x86\x48\x86\xf7\x0d\x01\x07\x02\xa0\x16\x30\x14\x02\x01\x01\x31\x00\x30\x0b\x06\x09\x2a\x86\x48\x86\xf7\x0d\x01\x07\x01\x31\x00";

#[test]
fn the_smallest_message(rt: HostRuntime) -> Result<(), Fail> {
    let der = written(rt.alloc(), SMALLEST).ok_or("refused")?;
    assert_same(&rt, der.as_slice(), SMALLEST, "written");
    let one = are_one_message(rt.alloc(), SMALLEST, &der);
    assert_same(&rt, one, Some(true), "are_one_message");
    let (first, second) = both(rt.alloc(), SMALLEST, &der).ok_or("refused")?;
    assert_same(
        &rt,
        (first.as_slice(), second.as_slice()),
        (SMALLEST, SMALLEST),
        "both",
    );
    Ok(())
}

#[test]
fn a_message_that_is_cut(rt: HostRuntime) -> Result<(), Fail> {
    let refused = written_or_refused(rt.alloc(), &SMALLEST[..30]).err();
    let fault = Fault::Refused {
        reason: Reason::Truncated,
        at: 30,
    };
    assert_same(&rt, refused, Some(fault), "the fault");
    Ok(())
}

/// A verifier to which each signature is wrong.
#[derive(Drop)]
struct Bad;

impl Verifier for Bad {
    ghost use Rattle.cms_check.specs.declared.verifier.Verdict.TheVariants as verdicts;

    ghost answer = { λ v job. verdicts.Bad };

    fn verify(&self, _: &Job<'_>) -> Verdict {
        Verdict::Bad
    }
}

#[test]
fn sketches(rt: HostRuntime) -> Result<(), Fail> {
    let (der, version) = content_info_in_der(rt.alloc(), SMALLEST).ok_or("refused")?;
    assert_same(
        &rt,
        (der.as_slice(), version),
        (SMALLEST, Some(1)),
        "the DER",
    );
    let none = content_info_in_der(rt.alloc(), b"\x30\x00");
    assert_same(&rt, none.is_none(), true, "no ContentInfo");
    let message = message_of(rt.alloc(), SIGNED)?;
    let signed_data = message.signed_data().ok_or("no signed data")?;
    let is_broken = |code| breaks(rt.alloc(), &signed_data, &Bad, code);
    assert_same(
        &rt,
        (is_broken(1), is_broken(17)),
        (Some(false), Some(true)),
        "the rules",
    );
    Ok(())
}
