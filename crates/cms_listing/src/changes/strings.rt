//! Strings in segments (X.690, 8.6.4 and 8.7.3).

use super::head::{Head, ends_contents, head_at};

/// What is in a string.
#[derive(Clone, Copy)]
pub(super) struct Segments {
    /// How many primitive segments it has, at all depths.
    pub(super) count: u64,
    /// How many octets are in them.
    pub(super) octets: u64,
    /// Where the string ends.
    pub(super) end: usize,
    /// How many indefinite lengths have not ended.
    open: u64,
}

impl Segments {
    /// With one more element: a header of more segments, or a segment.
    fn with(self, head: &Head) -> Segments {
        match head.end {
            None => Segments {
                end: head.begin,
                open: self.open.saturating_add(1),
                ..self
            },
            Some(_) if head.is_constructed() => Segments {
                end: head.begin,
                ..self
            },
            Some(end) => Segments {
                count: self.count.saturating_add(1),
                octets: self
                    .octets
                    .saturating_add(end.saturating_sub(head.begin) as u64),
                end,
                ..self
            },
        }
    }

    /// After end-of-contents octets.
    fn closed(self) -> Segments {
        Segments {
            end: self.end.saturating_add(2),
            open: self.open.saturating_sub(1),
            ..self
        }
    }
}

/// The segments of the string with this header; none if they are not all there.
pub(super) fn segments_of(octets: &[u8], string: &Head) -> Option<Segments> {
    let mut segments = Segments {
        count: 0,
        octets: 0,
        end: string.begin,
        open: if string.end.is_none() { 1 } else { 0 },
    };
    for _ in 0..u64::MAX {
        if segments.open == 0 && string.end.is_none_or(|end| segments.end >= end) {
            return Some(segments);
        }
        if segments.open > 0 && ends_contents(octets, segments.end) {
            segments = segments.closed();
        } else {
            segments = segments.with(&head_at(octets, segments.end)?);
        }
    }
    None
}
