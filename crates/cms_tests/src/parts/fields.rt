//! What is tested of every field: what is written for it, the reason and place of each refusal, and every cut.
ghost use Rattle.std.specs.Prelude.{◌≡◌, ◌≤◌, true, length, IfOk};
ghost use Rattle.cms_tlv.specs.Spelling.{ber};

use crate::asserts::{assert_holds, assert_same};
use crate::parts::sources::{AT_A_TIME, LIMIT, source};
use cms_fields::{Field, read, spelled_values_are_values};
use cms_setof::{encoded_len, put};
use cms_tlv::{Bound, Fault, MAX_LIMIT, Reason};
use std::alloc::Global;
use std::process::Abort;
use std::test::Fail;

/// A field and its DER, in hexadecimal.
#[derive(Drop)]
pub struct Accepted {
    pub input: &'static str,
    pub output: &'static str,
    /// For each definite element that no other one holds: how many octets there are up to the end of
    /// its length, and up to its own end.
    pub definite: &'static [(u64, u64)],
}

/// Octets in hexadecimal, why they are not such a field, and where.
pub type Refused = (&'static str, Reason, u64);

/// The field that the octets begin with, and the octets that are kept of it.
pub fn received<T: Field>(
    alloc: Global,
    octets: &[u8],
    at_a_time: usize,
    limit: u64,
) -> Result<(T, Vec<u8>), Fault>
    requires within { limit ≤ MAX_LIMIT }
    requires is_field { T.grammar.is_field ≡ true }
    ensures { IfOk result (λ r. T.grammar.is_value (T.value r.1.items r.0)) }
{
    let mut source = source(alloc, octets, at_a_time, limit);
    let field = read(&mut source, &Bound::top());
    let (_, kept) = source.finish();
    let field: T = field?;
    spelled_values_are_values(&field, &kept);
    Ok((field, kept))
}

/// The DER of a field that the octets begin with; a write fault if `encoded_len` is not its length.
pub fn rewritten<T: Field>(
    alloc: Global,
    octets: &[u8],
    at_a_time: usize,
    limit: u64,
) -> Result<Vec<u8>, Fault>
    requires within { limit ≤ MAX_LIMIT }
    requires is_field { T.grammar.is_field ≡ true }
{
    let (field, kept) = received::<T>(alloc, octets, at_a_time, limit)?;
    let mut out = Vec::new(alloc);
    let written = encoded_len(&field, &kept).octets;
    match put(&field, alloc, &kept, &mut out) {
        Ok(()) if out.len() as u64 == written => Ok(out),
        Ok(()) => Err(Fault::Write { written }),
        Err(_) => Err(Fault::OutOfMemory),
    }
}

/// What is written for a field if the limit is its length, however slow its reader is.
pub fn assert_rewritten<T: Field>(
    rt: &(impl Abort + AllocGlobal),
    name: &str,
    want: &str,
) -> Result<(), Fail>
    requires is_field { T.grammar.is_field ≡ true }
{
    let input = hex::decode(rt.alloc(), name)?;
    for at_a_time in AT_A_TIME {
        assert_rewritten_slowly::<T>(rt, &input, *at_a_time, want)?;
    }
    Ok(())
}

/// What is written for a field whose octets come so many at a time.
fn assert_rewritten_slowly<T: Field>(
    rt: &(impl Abort + AllocGlobal),
    octets: &[u8],
    at_a_time: usize,
    want: &str,
) -> Result<(), Fail>
    requires is_field { T.grammar.is_field ≡ true }
{
    let limit = octets.len() as u64;
    assert_holds(rt, limit <= MAX_LIMIT, want);
    let output = rewritten::<T>(rt.alloc(), octets, at_a_time, limit)?;
    let output = hex::encode(rt.alloc(), output)?;
    assert_same(
        rt,
        (at_a_time, output.as_str()),
        (at_a_time, want),
        "the DER",
    );
    Ok(())
}

/// Why octets are not such a field under a limit.
fn assert_fault<T: Field>(
    rt: &(impl Abort + AllocGlobal),
    octets: &[u8],
    at_a_time: usize,
    limit: u64,
    want: Fault,
    name: &str,
)
    requires within { limit ≤ MAX_LIMIT }
    requires is_field { T.grammar.is_field ≡ true }
{
    let fault = rewritten::<T>(rt.alloc(), octets, at_a_time, limit).err();
    let reader = (octets.len(), at_a_time, limit);
    assert_same(rt, (reader, fault), (reader, Some(want)), name);
}

/// Each proper prefix of a field is E1 at its length. The field under a limit below its length is E2 at
/// the limit, or after the length of an element that would go past it.
pub fn assert_cut<T: Field>(
    rt: &(impl Abort + AllocGlobal),
    name: &str,
    definite: &[(u64, u64)],
) -> Result<(), Fail>
    requires is_field { T.grammar.is_field ≡ true }
{
    let input = hex::decode(rt.alloc(), name)?;
    for cut in 0..input.len() {
        assert_cut_at::<T>(rt, &input, cut, definite, name);
    }
    Ok(())
}

/// A field of which there are only so many octets, and the field under that limit.
fn assert_cut_at<T: Field>(
    rt: &(impl Abort + AllocGlobal),
    octets: &[u8],
    cut: usize,
    definite: &[(u64, u64)],
    name: &str,
)
    requires within { cut ≤ length octets.now }
    requires is_field { T.grammar.is_field ≡ true }
{
    let limit = cut as u64;
    assert_holds(rt, limit < LIMIT, name);
    let truncated = refusal(Reason::Truncated, limit);
    assert_fault::<T>(rt, &octets[..cut], 4096, LIMIT, truncated, name);
    let too_large = refusal(Reason::TooLarge, too_large_at(definite, limit));
    assert_fault::<T>(rt, octets, 4096, limit, too_large, name);
}

fn refusal(reason: Reason, at: u64) -> Fault {
    Fault::Refused { reason, at }
}

/// Where elements are refused under a limit below their length.
fn too_large_at(definite: &[(u64, u64)], limit: u64) -> u64 {
    definite
        .iter()
        .find(|(begin, end)| *begin <= limit && limit < *end)
        .map_or(limit, |(begin, _)| *begin)
}

/// Each field is accepted, written as it should be, and cut where it should be.
pub fn assert_accepted<T: Field>(
    rt: &(impl Abort + AllocGlobal),
    cases: &[Accepted],
) -> Result<(), Fail>
    requires is_field { T.grammar.is_field ≡ true }
{
    for case in cases {
        assert_rewritten::<T>(rt, case.input, case.output)?;
        assert_cut::<T>(rt, case.input, case.definite)?;
    }
    Ok(())
}

fn assert_refused_as<T: Field>(rt: &(impl Abort + AllocGlobal), case: &Refused) -> Result<(), Fail>
    requires is_field { T.grammar.is_field ≡ true }
{
    let (input, reason, at) = case;
    let octets = hex::decode(rt.alloc(), input)?;
    for at_a_time in AT_A_TIME {
        let want = refusal(*reason, *at);
        assert_fault::<T>(rt, &octets, *at_a_time, LIMIT, want, input);
    }
    Ok(())
}

/// Each field is refused as it should be, however slow its reader is.
pub fn assert_refused<T: Field>(
    rt: &(impl Abort + AllocGlobal),
    cases: &[Refused],
) -> Result<(), Fail>
    requires is_field { T.grammar.is_field ≡ true }
{
    for case in cases {
        assert_refused_as::<T>(rt, case)?;
    }
    Ok(())
}

/// Fields that are accepted, and others that are refused.
pub fn assert_fields<T: Field>(
    rt: &(impl Abort + AllocGlobal),
    accepted: &[Accepted],
    refused: &[Refused],
) -> Result<(), Fail>
    requires is_field { T.grammar.is_field ≡ true }
{
    assert_accepted::<T>(rt, accepted)?;
    assert_refused::<T>(rt, refused)
}
