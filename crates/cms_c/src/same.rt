//! Comparisons.
//!
//! `octets` of the outcome says which message is refused, 1 or 2, so that the outcome keeps its size.
ghost use Rattle.std.specs.Prelude.{IfOk, IfErr};
ghost use Rattle.cms_c.specs.Calls.{AreCompared, FailsToCompare, IsComparison, limit_of_c};

use crate::given::message_in;
use crate::outcome::Outcome;
use cms_canon::{SameFault, same_messages};
use std::alloc::Global;

/// Says whether the one message in `first` and the one in `second` are the same, with sets taken as
/// multisets: whether their DER is identical.
///
/// Each message and its DER have at most `limit` octets; a limit above 2^40 counts as 2^40. If a
/// message is refused, `octets` of the outcome says which: 1 or 2. If the first is refused, the
/// second is not read.
#[unsafe(no_mangle)]
pub extern "C" fn cms_canon_same(
    alloc: Global,
    first: &[u8],
    second: &[u8],
    limit: u64,
    outcome: &mut Outcome,
)
    ensures { IsComparison first.now second.now (limit_of_c limit) outcome.new }
{
    *outcome = match compared(alloc, first, second, limit) {
        Ok(same) => Outcome::of_comparison(same),
        Err(fault) => Outcome::of_same_fault(fault),
    };
}

fn compared(alloc: Global, first: &[u8], second: &[u8], limit: u64) -> Result<bool, SameFault>
    ensures ok { IfOk result (AreCompared first.now second.now (limit_of_c limit)) }
    ensures err { IfErr result (FailsToCompare first.now second.now (limit_of_c limit)) }
{
    let first = match message_in(alloc, first, limit) {
        Ok(first) => first,
        Err(fault) => return Err(SameFault::First(fault)),
    };
    let second = match message_in(alloc, second, limit) {
        Ok(second) => second,
        Err(fault) => return Err(SameFault::Second(fault)),
    };
    match same_messages(alloc, &first, &second) {
        Ok(same) => Ok(same),
        Err(_) => Err(SameFault::OutOfMemory),
    }
}
