//! The content that signers digest.
ghost use Rattle.std.specs.Prelude.{◌≡◌, List, ℕ, Option, Some, IfOk};
ghost use Rattle.cms_message.specs.Cover.{content_given};
ghost use Rattle.cms_message.specs.SignedData.{encap_content_info, e_content};
ghost use Rattle.cms_tsp.specs.TstInfo.{IsTstInfoOf};
ghost use Rattle.cms_check.specs.Digests.{digest_by, digest_octets};
ghost use Rattle.cms_check.specs.Known.{Correspond, IsContentOf, IsKnownOf};

use crate::digests::{Digests, HashAlg, Hashed};
use crate::known::{Known, NoReport, given_digest};
use crate::pieces::Pieces;
use cms_message::SignedData;
use cms_tsp::TstInfo;
use std::alloc::{AllocError, Global};

/// The content, or what is known of it.
#[derive(Drop)]
pub(crate) enum Content<'a> {
    /// Its octets.
    Octets(Pieces<'a>),
    /// Digests of it.
    Digests(&'a Digests),
}

impl<'a> Content<'a> {
    /// The TSTInfo that it is in DER, if it is one.
    pub(crate) fn tst_info(&self, alloc: Global) -> Result<Option<TstInfo>, NoReport>
        ensures { IfOk result (λ read. (m : List ℕ) → IsContentOf self.now m
            → IsTstInfoOf (Some m) read) }
    {
        match self {
            Content::Octets(pieces) => Ok(pieces.tst_info(alloc)?),
            Content::Digests(_) => Err(NoReport::NoOctets),
        }
    }

    /// Its digest.
    pub(crate) fn digest(&mut self, algorithm: HashAlg) -> Result<Hashed, NoReport>
        ensures same { self.new ≡ self.old }
        ensures ok { IfOk result (λ hashed. (m : List ℕ) → IsContentOf self.old m
            → digest_octets hashed ≡ digest_by algorithm m) }
    {
        match self {
            Content::Octets(pieces) => Ok(pieces.digest(algorithm)?),
            Content::Digests(digests) => given_digest(digests, algorithm),
        }
    }
}

/// The content, attached or not.
pub(crate) fn content_of<'a>(
    alloc: Global,
    signed_data: &SignedData<'a>,
    detached: Option<Known<'a>>,
) -> Result<Option<Content<'a>>, AllocError>
    ensures { IfOk result (λ content. (m : Option (List ℕ)) → Correspond IsKnownOf detached.entry m
        → Correspond IsContentOf content (content_given signed_data.now m)) }
{
    if let Some(pieces) = attached(alloc, signed_data)? {
        return Ok(Some(Content::Octets(pieces)));
    }
    match detached {
        Some(Known::Octets(octets)) => {
            let pieces = [octets].to_vec(alloc)?;
            Ok(Some(Content::Octets(Pieces::new(pieces, alloc))))
        }
        Some(Known::Digests(digests)) => Ok(Some(Content::Digests(digests))),
        None => Ok(None),
    }
}

/// The content that is attached.
pub(crate) fn attached<'a>(
    alloc: Global,
    signed_data: &SignedData<'a>,
) -> Result<Option<Pieces<'a>>, AllocError>
    ensures { IfOk result (λ pieces. pieces ≡ e_content (encap_content_info signed_data.now)) }
{
    match signed_data.content() {
        Some(content) => Ok(Some(Pieces::new(content.all_pieces(alloc)?, alloc))),
        None => Ok(None),
    }
}
