//! Which digests the rules ask for of octets that are not attached.
ghost use Rattle.std.specs.Prelude.{◌≡◌, Option, IfOk};
ghost use Rattle.std.specs.List.{list_any};
ghost use Rattle.cms_message.specs.SignedData.{encap_content_info, e_content, borrowed_signers};
ghost use Rattle.cms_tsp.specs.TstInfo.{TstInfo, IsTstInfoOf};
ghost use Rattle.cms_check.specs.Asked.{asks_for, digests_asked, digest_asked_by, has_content, needs_octets};
ghost use Rattle.cms_check.specs.Tokens.{imprint_algorithm, token_content};

use crate::attributes::message_digest;
use crate::content::attached;
use crate::digests::{HASH_ALGORITHMS, HashAlg};
use crate::tokens::{imprint_algorithm, is_token};
use cms_message::{SignedData, SignerInfo};
use cms_tsp::MessageImprint;
use std::alloc::{AllocError, Global};

/// The algorithms by which signers ask for a digest of content that is detached, each once: none if
/// content is attached. An error means out of memory.
pub fn digests_asked(
    alloc: Global,
    signed_data: &SignedData<'_>,
) -> Result<Vec<HashAlg>, AllocError>
    ensures { IfOk result (λ asked. asked.items ≡ digests_asked signed_data.now) }
{
    let mut asked = Vec::new(alloc);
    if has_content(signed_data) {
        return Ok(asked);
    }
    for algorithm in &HASH_ALGORITHMS {
        if is_asked(signed_data, *algorithm) {
            asked.push(*algorithm)?;
        }
    }
    Ok(asked)
}

/// The algorithm of a token's imprint, by which it asks for a digest of the data that were time-stamped:
/// none if no content is attached, or it is not a TSTInfo, or the algorithm is not known here. An error
/// means out of memory.
pub fn digest_asked_by_token(
    alloc: Global,
    signed_data: &SignedData<'_>,
) -> Result<Option<HashAlg>, AllocError>
    ensures { IfOk result (λ asked. (read : Option TstInfo) × IsTstInfoOf (token_content
        signed_data.now (e_content (encap_content_info signed_data.now))) read
        × (asked ≡ digest_asked_by read)) }
{
    if !is_token(signed_data) {
        return Ok(None);
    }
    let Some(pieces) = attached(alloc, signed_data)? else {
        return Ok(None);
    };
    match pieces.tst_info(alloc)? {
        Some(tst_info) => Ok(imprint_algorithm(&tst_info.message_imprint())),
        None => Ok(None),
    }
}

/// The algorithm of an imprint, by which it asks for a digest of the data that are time-stamped: none if
/// it is not known here.
pub fn digest_asked_by_imprint(imprint: &MessageImprint<'_>) -> Option<HashAlg>
    ensures { result ≡ imprint_algorithm imprint.now }
{
    imprint_algorithm(imprint)
}

/// Whether content that is detached is needed as octets, and not only by its digests: it has to be a
/// TSTInfo.
pub fn needs_octets(signed_data: &SignedData<'_>) -> bool
    ensures { result ≡ needs_octets signed_data.now }
{
    is_token(signed_data) && !has_content(signed_data)
}

fn has_content(signed_data: &SignedData<'_>) -> bool
    ensures { result ≡ has_content signed_data.now }
{
    signed_data.content().is_some()
}

fn is_asked(signed_data: &SignedData<'_>, algorithm: HashAlg) -> bool
    ensures { result ≡ list_any (asks_for algorithm) (borrowed_signers signed_data.now) }
{
    for signer in signed_data.signers() {
        if asks_for(&signer, algorithm) {
            return true;
        }
    }
    false
}

fn asks_for(signer: &SignerInfo<'_>, algorithm: HashAlg) -> bool
    ensures { result ≡ asks_for algorithm signer.now }
{
    match signer.signed_attrs() {
        Some(attributes) => {
            message_digest(&attributes).is_some()
                && signer.digest_algorithm().algorithm().octets() == algorithm.name()
        }
        None => false,
    }
}
