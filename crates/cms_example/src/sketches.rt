//! The sketches in the documentation of `cms_message` and `cms_check`, as functions: so each compiles, and
//! meets what its calls require.

use cms_check::{Given, Verifier, check};
use cms_fields::read;
use cms_message::{ContentInfo, ContentInfoSpans, SignedData};
use cms_setof::put;
use cms_tlv::{Bound, Fault, Slice, Source};
use std::alloc::Global;

/// The DER of the ContentInfo that the octets begin with, and its version if that is below 2^64; none if
/// they begin with no ContentInfo, or if memory runs out.
pub fn content_info_in_der(alloc: Global, octets: &[u8]) -> Option<(Vec<u8>, Option<u64>)> {
    let mut source = Source::new(alloc, Slice::new(octets), 1 << 24);
    let content_info: Result<ContentInfoSpans, Fault> = read(&mut source, &Bound::top());
    let (_, kept) = source.finish();
    let Ok(spans) = content_info else {
        return None;
    };
    let mut out = Vec::new(alloc);
    put(&spans, alloc, &kept, &mut out).ok()?;
    let version = ContentInfo::new(&spans.0, &kept).signed_data().version();
    Some((out, version.to_u64()))
}

/// Whether a message breaks the rule with this number; none if memory runs out.
pub fn breaks<V: Verifier>(
    alloc: Global,
    signed_data: &SignedData<'_>,
    verifier: &V,
    code: u8,
) -> Option<bool> {
    let report = check(alloc, signed_data, &Given::default(), verifier).ok()?;
    for finding in report.findings() {
        if finding.code == code {
            return Some(true);
        }
    }
    Some(false)
}
