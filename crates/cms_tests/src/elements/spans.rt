//! Lists of spans.

use crate::asserts::assert_same;
use cms_tlv::{BorrowedSpans, Span, Spans};
use std::process::Abort;
use std::test::Fail;

/// Where spans begin and end that are added one after another: none, below 4 GiB, up to it, and beyond
/// it and below it in turn.
const ADDED: &[&[(usize, usize)]] = &[
    &[],
    &[(2, 3)],
    &[(2, 3), (5, 5), (0, 0xffff_ffff)],
    &[(0xffff_ffff, 0x1_0000_0000)],
    &[(0xffff_ffff, 0x1_0000_0000), (2, 3), (5, 5)],
    &[
        (2, 3),
        (5, 5),
        (7, 9),
        (0x1_0000_0002, 0x1_0000_0003),
        (3, 1),
    ],
    &[
        (2, 3),
        (0x1_0000_0002, 0x1_0000_0003),
        (7, 9),
        (0xffff_ffff_ffff_ffff, 0xffff_ffff_ffff_ffff),
        (3, 1),
    ],
];

/// The list has these spans, by its length and by each index up to the one after the last.
fn assert_listed(rt: &impl Abort, listed: BorrowedSpans<'_>, want: &[Span]) {
    assert_same(rt, listed.len(), want.len() as u64, "how many");
    for i in 0..want.len() {
        assert_same(rt, listed.get(i as u64), Some(want[i]), "by its index");
    }
    assert_same(rt, listed.get(want.len() as u64), None, "after the last");
    assert_same(rt, listed.get(u64::MAX), None, "far after the last");
}

#[test]
fn spans_added(rt: HostRuntime) -> Result<(), Fail> {
    for added in ADDED {
        let mut spans = Spans::new(rt.alloc());
        let mut want = Vec::new(rt.alloc());
        for (start, end) in *added {
            let span = Span {
                start: *start,
                end: *end,
            };
            assert_listed(&rt, Spans::one(rt.alloc(), span).borrowed(), &[span]);
            spans.push(span)?;
            want.push(span)?;
            assert_listed(&rt, spans.borrowed(), &want);
        }
        assert_listed(&rt, spans.borrowed(), &want);
        assert_listed(&rt, BorrowedSpans::new(&want), &want);
    }
    Ok(())
}
