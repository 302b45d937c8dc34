//! `cover`: what a signature covers, in a message that is read.
ghost use Rattle.std.specs.Prelude.{◌≡◌, ◌≤◌, ◌^◌, List, ℕ, Some, option_map, IfOk, IfErr, OnOk};
ghost use Rattle.cms_message.specs.Cover.{cover_of, LacksCover};
ghost use Rattle.cms_canon.specs.Streams.{reading, writing, WritesAll};
ghost use Rattle.cms_canon.specs.Covering.{PourFaults, IsCoverWritten, CoverFaults, cover_in as message_cover};

use crate::given::{Given, read_given};
use crate::laws::signed_attributes_lie_in_the_message;
use cms_message::{CoverFault, SignedData};
use cms_tlv::{Fault, Input, Output, pour};
use std::alloc::Global;
use thiserror::Error;

/// Why the octets that a signature covers are not written.
#[derive(Clone, Copy, Debug, PartialEq, Eq, Error)]
pub enum NoCover {
    /// Reading or writing failed, the message is refused, or memory ran out.
    #[error("{0}")]
    Fault(Fault),
    /// The message is a request, or a response without a token.
    #[error("refused: no signed data")]
    NoSignedData,
    /// No signer has the index.
    #[error("refused: no such signer")]
    NoSigner,
    /// The signer has no signed attributes, and there is no content.
    #[error("refused: no content")]
    NoContent,
}

/// The octets that the signature of the signer with the index `signer` covers.
fn cover_in(
    alloc: Global,
    signed_data: &SignedData<'_>,
    signer: u64,
    detached: &Option<Vec<u8>>,
) -> Result<Vec<u8>, CoverFault>
    ensures ok { IfOk result (λ v. cover_of signed_data.now signer
        (option_map (λ v. v.items) detached.now) ≡ Some (Some v.items)) }
    ensures err { IfErr result (λ e. LacksCover e
        (cover_of signed_data.now signer (option_map (λ v. v.items) detached.now))) }
{
    let detached = match detached {
        Some(octets) => Some(octets.as_slice()),
        None => None,
    };
    let mut octets = Vec::new(alloc);
    signed_data.covered(alloc, signer, detached, &mut octets)?;
    Ok(octets)
}

/// Reads one message with nothing after it, and writes the octets that the signature of the signer with
/// the index `signer` covers (RFC 5652, section 5.4). If it has signed attributes, these are the
/// attributes as they lie in the message, but with 31 in place of A0. With `content`, everything after
/// the message is its detached content. The signers of a response are those of its token. Returns the
/// reader as well.
pub fn write_cover<I: Input, O: Output>(
    alloc: Global,
    input: I,
    output: &mut O,
    limit: u64,
    signer: u64,
    content: bool,
) -> (I, Result<(), NoCover>)
    requires { limit ≤ 2 ^ 40 }
    ensures ok { OnOk result.1 (IsCoverWritten (reading I.left I.failures input result.0)
        (writing O.contents O.failures output.old output.new) limit content signer) }
    ensures faults { IfErr result.1 (CoverFaults (reading I.left I.failures input result.0)
        (writing O.contents O.failures output.old output.new) limit content signer) }
{
    signed_attributes_lie_in_the_message();
    let (input, given) = read_given(alloc, input, limit, content);
    let written = match given {
        Ok(given) => pour_cover(alloc, &given, signer, output),
        Err(fault) => Err(NoCover::Fault(fault)),
    };
    (input, written)
}

fn pour_cover<O: Output>(
    alloc: Global,
    given: &Given,
    signer: u64,
    output: &mut O,
) -> Result<(), NoCover>
    ensures ok { OnOk result ((c : List ℕ)
        × (message_cover given.now.message.value signer
        (option_map (λ v. v.items) given.now.rest) ≡ Some (Some (Some c)))
        × WritesAll (writing O.contents O.failures output.old output.new) c) }
    ensures err { IfErr result (PourFaults (writing O.contents O.failures output.old output.new)
        (message_cover given.now.message.value signer
        (option_map (λ v. v.items) given.now.rest))) }
{
    let Some(signed_data) = given.message.signed_data() else {
        return Err(NoCover::NoSignedData);
    };
    match cover_in(alloc, &signed_data, signer, &given.rest) {
        Ok(octets) => pour(output, &octets).map_err(NoCover::Fault),
        Err(CoverFault::NoSigner) => Err(NoCover::NoSigner),
        Err(CoverFault::NoContent) => Err(NoCover::NoContent),
        Err(CoverFault::OutOfMemory) => Err(NoCover::Fault(Fault::OutOfMemory)),
    }
}
