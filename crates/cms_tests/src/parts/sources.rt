//! Sources over readers that give few octets at a time.
ghost use Rattle.std.specs.Prelude.{◌≤◌};

use crate::streams::Reluctant;
use cms_tlv::{MAX_LIMIT, Source, Watched};
use std::alloc::Global;
use std::io::ErrorKind;

/// How many octets the readers give at a time.
pub const AT_A_TIME: &[usize] = &[1, 2, 3, 7, 4096];

/// The limit if a case names none.
pub const LIMIT: u64 = 16_777_216;

/// A source of `octets`, over a reader that gives at most so many at a time.
pub fn source(
    alloc: Global,
    octets: &[u8],
    at_a_time: usize,
    limit: u64,
) -> Source<Watched<Reluctant<'_>>>
    requires { limit ≤ MAX_LIMIT }
{
    let reader = Reluctant::new(octets, at_a_time, usize::MAX, ErrorKind::Other);
    Source::new(alloc, Watched::new(reader), limit)
}
