//! Readers that fail once and would then give the rest, and what is left of them.
use crate::streams::Reluctant;
use cms_tlv::{Buffered, Input, Watched};
use std::alloc::Global;
use std::io;
use std::io::{BufReader, ErrorKind};

/// How a reader fails.
pub const FAILURES: [ErrorKind; 2] = [ErrorKind::Other, ErrorKind::Interrupted];

/// A reader of which is known how many octets were never taken from it.
pub trait Remaining: Input {
    /// How many octets were not taken, once there is no further call.
    fn remaining(self) -> usize;
}

impl<'a> Remaining for Watched<Reluctant<'a>> {
    fn remaining(self) -> usize {
        self.into_inner().left().len()
    }
}

impl<'a> Remaining for Buffered<Reluctant<'a>> {
    fn remaining(self) -> usize {
        self.into_inner().into_inner().left().len()
    }
}

/// A reader that has no octets at hand, and fails after it gave so many.
pub fn slow(octets: &[u8], room: usize, failure: ErrorKind) -> Watched<Reluctant<'_>> {
    Watched::new(Reluctant::new(octets, usize::MAX, room, failure))
}

/// A reader like `slow` with a small buffer, whose octets are at hand.
pub fn buffered(
    alloc: Global,
    octets: &[u8],
    room: usize,
    failure: ErrorKind,
) -> io::Result<Buffered<Reluctant<'_>>> {
    let reader = Reluctant::new(octets, usize::MAX, room, failure);
    Ok(Buffered::new(BufReader::with_capacity(alloc, 7, reader)?))
}
