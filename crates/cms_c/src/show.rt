//! Listings.
ghost use Rattle.std.specs.Prelude.{IfErr, OnOk};
ghost use Rattle.cms_canon.specs.Kinds.{MessageValue};
ghost use Rattle.cms_c.specs.Calls.{FailsBy, IsAccepted, IsListing, limit_of_c};

use crate::given::message_in;
use crate::outcome::Outcome;
use cms_canon::listing;
use cms_tlv::Fault;
use std::alloc::Global;

/// Writes the listing of the one message in `input` to the beginning of `output`: a line for each
/// of its parts, in UTF-8.
///
/// The message and its DER have at most `limit` octets; a limit above 2^40 counts as 2^40. If the
/// message is refused, memory runs out, or the listing does not fit into `output`, nothing is
/// written.
#[unsafe(no_mangle)]
pub extern "C" fn cms_canon_show(
    alloc: Global,
    input: &[u8],
    limit: u64,
    output: &mut [u8],
    outcome: &mut Outcome,
)
    ensures { IsListing input.now (limit_of_c limit) output.old output.new outcome.new }
{
    *outcome = match listed(alloc, input, limit) {
        Ok(text) => Outcome::delivered(text.as_bytes(), output),
        Err(fault) => Outcome::of_fault(fault),
    };
}

fn listed(alloc: Global, input: &[u8], limit: u64) -> Result<String, Fault>
    ensures ok { OnOk result ((v : MessageValue) × IsAccepted input.now (limit_of_c limit) v) }
    ensures err { IfErr result (FailsBy input.now (limit_of_c limit)) }
{
    let message = message_in(alloc, input, limit)?;
    listing(alloc, &message).map_err(|_| Fault::OutOfMemory)
}
