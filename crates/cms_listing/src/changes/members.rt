//! The members of a set, in the order of the message.

use super::head::{Head, head_at};
use super::origins::Origins;
use std::alloc::{AllocError, Global};

/// A member of a set.
#[derive(Clone, Copy)]
pub(super) struct Member {
    /// A place in the message that lies in it.
    source: usize,
    /// Its number in the DER, from 0.
    pub(super) number: u64,
    /// Where it begins in the DER.
    pub(super) at: usize,
}

/// The members of a set in the DER, in the order in which the message has them. An error means out of
/// memory.
pub(super) fn members(
    alloc: Global,
    der: &[u8],
    set: &Head,
    origins: &Origins,
) -> Result<Vec<Member>, AllocError> {
    let mut members = Vec::new(alloc);
    let mut at = set.begin;
    for number in 0..u64::MAX {
        if Some(at) == set.end {
            break;
        }
        let Some(end) = head_at(der, at).and_then(|head| head.end) else {
            break;
        };
        let source = origins.source(copied_octet(der, at)).unwrap_or(0);
        members.push(Member { source, number, at })?;
        at = end;
    }
    members.sort_by_key(|member| member.source)?;
    Ok(members)
}

/// How deep in a member its first field may be.
const LEVELS: u8 = 4;

/// The place of an octet of a member that is copied from the same member of the message: one of its
/// first field. A header can be copied from beside it.
fn copied_octet(der: &[u8], at: usize) -> usize {
    let mut at = at;
    for _ in 0..LEVELS {
        let Some(head) = head_at(der, at) else {
            return at;
        };
        if head.length() == Some(0) {
            return head.begin.saturating_sub(1);
        }
        if !head.is_constructed() {
            return head.begin;
        }
        at = head.begin;
    }
    at
}
