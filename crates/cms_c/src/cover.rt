//! What a signature covers.
ghost use Rattle.std.specs.Prelude.{◌≡◌, Some, IfOk, IfErr};
ghost use Rattle.std.specs.Option.{option_copied};
ghost use Rattle.cms_canon.specs.Covering.{cover_at};
ghost use Rattle.cms_c.specs.Calls.{IsCover, Lacks, FailsToCover, Yields, limit_of_c, items_passed};

use crate::given::{message_in, passed};
use crate::outcome::{Lack, Outcome};
use cms_canon::{Message, signed_attributes_lie_in_the_message};
use cms_message::CoverFault;
use cms_tlv::Fault;
use std::alloc::Global;

/// Writes the octets that the signature of the signer or countersignature at `path` covers (RFC
/// 5652, sections 5.4 and 11.4), in the one message in `input`, to the beginning of `output`.
///
/// The first number of `path` is the index of a signer, from 0 in the order read, and each later
/// one the index of a countersignature of the one before, over all its attributes. An empty path is
/// refused, as no such signer.
///
/// If `has_content` is true, `content` is the detached content, which is used only if the message
/// has none itself. The message and its DER have at most `limit` octets; a limit above 2^40 counts
/// as 2^40. If there is no cover, memory runs out, or the octets do not fit into `output`, nothing
/// is written.
#[unsafe(no_mangle)]
pub extern "C" fn cms_canon_cover(
    alloc: Global,
    input: &[u8],
    path: &[u64],
    content: &[u8],
    has_content: bool,
    limit: u64,
    output: &mut [u8],
    outcome: &mut Outcome,
)
    ensures { IsCover input.now (limit_of_c limit) path.now (items_passed has_content content.now)
        output.old output.new outcome.new }
{
    signed_attributes_lie_in_the_message();
    let detached = passed(content, has_content);
    *outcome = match covered(alloc, input, limit, path, detached) {
        Ok(octets) => Outcome::delivered(&octets, output),
        Err(lack) => Outcome::of_lack(lack),
    };
}

/// The octets that the signature at `path` of the message in `input` covers.
fn covered(
    alloc: Global,
    input: &[u8],
    limit: u64,
    path: &[u64],
    detached: Option<&[u8]>,
) -> Result<Vec<u8>, Lack>
    ensures ok { IfOk result (λ octets. Yields input.now (limit_of_c limit)
        (λ v. cover_at v path.now (option_copied detached.entry))
        (Some (Some (Some octets.items)))) }
    ensures err { IfErr result (FailsToCover input.now (limit_of_c limit) path.now
        (option_copied detached.entry)) }
{
    match message_in(alloc, input, limit) {
        Ok(message) => cover_at(alloc, &message, path, detached),
        Err(fault) => Err(Lack::Fault(fault)),
    }
}

fn cover_at(
    alloc: Global,
    message: &Message,
    path: &[u64],
    detached: Option<&[u8]>,
) -> Result<Vec<u8>, Lack>
    ensures ok { IfOk result (λ octets. cover_at message.now.value path.now
        (option_copied detached.entry) ≡ Some (Some (Some octets.items))) }
    ensures err { IfErr result (Lacks (cover_at message.now.value path.now
        (option_copied detached.entry))) }
{
    let Some(signed_data) = message.signed_data() else {
        return Err(Lack::NoSignedData);
    };
    let mut octets = Vec::new(alloc);
    match signed_data.covered_path(alloc, path, detached, &mut octets) {
        Ok(()) => Ok(octets),
        Err(CoverFault::NoSigner) => Err(Lack::NoSigner),
        Err(CoverFault::NoContent) => Err(Lack::NoContent),
        Err(CoverFault::OutOfMemory) => Err(Lack::Fault(Fault::OutOfMemory)),
    }
}
