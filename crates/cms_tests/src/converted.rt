//! What is asserted of conversions.
ghost use Rattle.std.specs.Prelude.{◌≤◌};

use crate::asserts::assert_same;
use cms_canon::{Done, Tail, canonicalise};
use cms_tlv::{Fault, Input, MAX_LIMIT, Reason, Watched};
use std::alloc::Global;
use std::process::Abort;

/// What a conversion returns, and what it writes.
#[derive(Clone, Copy)]
pub struct Expected<'a> {
    done: Result<Done, Fault>,
    output: &'a [u8],
}

impl<'a> Expected<'a> {
    /// So many octets are read, and `output` is written.
    pub fn done(read: usize, output: &'a [u8]) -> Expected<'a> {
        let done = Done {
            read: read as u64,
            written: output.len() as u64,
        };
        Expected {
            done: Ok(done),
            output,
        }
    }

    /// It is refused, and nothing is written.
    pub fn refused(reason: Reason, at: u64) -> Expected<'a> {
        Expected::failed(Fault::Refused { reason, at })
    }

    /// It fails, and nothing is written.
    pub fn failed(fault: Fault) -> Expected<'a> {
        Expected {
            done: Err(fault),
            output: &[],
        }
    }
}

/// Converts what a reader gives under a limit, and returns the reader.
pub fn assert_converted<R: Input>(
    rt: &(impl Abort + AllocGlobal),
    reader: R,
    limit: u64,
    tail: Tail,
    want: &Expected<'_>,
    name: &str,
) -> R
    requires { limit ≤ MAX_LIMIT }
{
    let (reader, done, output) = converted(rt.alloc(), reader, limit, tail);
    assert_same(rt, (tail, done), (tail, want.done), name);
    let is_wanted = output.as_slice() == want.output;
    assert_same(rt, (tail, is_wanted), (tail, true), name);
    reader
}

/// The reader after a conversion, what the conversion returns, and what it writes.
fn converted<R: Input>(
    alloc: Global,
    reader: R,
    limit: u64,
    tail: Tail,
) -> (R, Result<Done, Fault>, Vec<u8>)
    requires { limit ≤ MAX_LIMIT }
{
    let mut writer = Watched::new(Vec::new(alloc));
    let (reader, done) = canonicalise(alloc, reader, &mut writer, limit, tail);
    (reader, done, writer.into_inner())
}
