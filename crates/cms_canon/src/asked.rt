//! Which digests a message asks for of what is not attached to it.
ghost use Rattle.std.specs.Prelude.{◌≡◌, Option, IfOk};
ghost use Rattle.cms_tsp.specs.TstInfo.{TstInfo, IsTstInfoOf};
ghost use Rattle.cms_canon.specs.Asked.{asked_of_content, asked_of_data, needs_content, tst_content_attached};

use crate::message::{Message, View};
use cms_check::{
    HashAlg, digest_asked_by_imprint, digest_asked_by_token, digests_asked, needs_octets,
};
use std::alloc::{AllocError, Global};

/// The algorithms by which a message asks for a digest of its content, each once: none if content is
/// attached. An error means out of memory.
pub fn asked_of_content(alloc: Global, message: &Message) -> Result<Vec<HashAlg>, AllocError>
    ensures { IfOk result (λ asked. asked.items ≡ asked_of_content message.now.value) }
{
    match message.signed_data() {
        Some(signed_data) => digests_asked(alloc, &signed_data),
        None => Ok(Vec::new(alloc)),
    }
}

/// Whether the content of a message is needed as octets, and not only by its digests: it is detached,
/// and has to be a TSTInfo.
pub fn needs_content(message: &Message) -> bool
    ensures { result ≡ needs_content message.now.value }
{
    match message.signed_data() {
        Some(signed_data) => needs_octets(&signed_data),
        None => false,
    }
}

/// The algorithm by which a message asks for a digest of the data that were time-stamped, or are to be:
/// that of its imprint. An error means out of memory.
pub fn asked_of_data(alloc: Global, message: &Message) -> Result<Option<HashAlg>, AllocError>
    ensures { IfOk result (λ asked. (read : Option TstInfo)
        × IsTstInfoOf (tst_content_attached message.now.value) read
        × (asked ≡ asked_of_data message.now.value read)) }
{
    match message.view() {
        View::Request(request) => Ok(digest_asked_by_imprint(&request.message_imprint())),
        View::Signed(content_info) => digest_asked_by_token(alloc, &content_info.signed_data()),
        View::Response(response) => match response.token() {
            Some(token) => digest_asked_by_token(alloc, &token.signed_data()),
            None => Ok(None),
        },
    }
}
