//! Conversion.
ghost use Rattle.cms_c.specs.Calls.{IsDerHandedOver, PutsDer, limit_of_c};

use crate::given::message_in;
use crate::outcome::Outcome;
use cms_canon::{Message, put_into};
use cms_tlv::Fault;
use std::alloc::Global;

/// Writes the DER of the one message in `input` to the beginning of `output`.
///
/// The message and its DER have at most `limit` octets; a limit above 2^40 counts as 2^40. If the
/// message is refused, memory runs out, or the DER does not fit into `output`, nothing is written.
#[unsafe(no_mangle)]
pub extern "C" fn cms_canon_convert(
    alloc: Global,
    input: &[u8],
    limit: u64,
    output: &mut [u8],
    outcome: &mut Outcome,
)
    ensures { IsDerHandedOver input.now (limit_of_c limit) output.old output.new outcome.new }
{
    *outcome = match message_in(alloc, input, limit) {
        Ok(message) => written(alloc, &message, output),
        Err(fault) => Outcome::of_fault(fault),
    };
}

/// Writes the DER of a message to the beginning of `output` if it fits, and reports that.
fn written(alloc: Global, message: &Message, output: &mut [u8]) -> Outcome
    ensures { PutsDer message.now output.old output.new result }
{
    match put_into(alloc, message, output) {
        Ok(octets) => Outcome::counting(octets, octets <= output.len() as u64),
        Err(_) => Outcome::of_fault(Fault::OutOfMemory),
    }
}
