//! What a signature covers (RFC 5652, section 5.4).
ghost use Rattle.std.specs.Prelude.{◌≡◌, ◌++◌, List, ℕ, Option, option_map, Some, map, IfOk, IfErr, OnOk, OnErr};
ghost use Rattle.std.specs.Option.{option_copied, option_or};
ghost use Rattle.cms_tlv.specs.Spelling.{join};
ghost use Rattle.cms_message.specs.Cover.{content_given, cover, cover_along, cover_from, cover_of, LacksCover};
ghost use Rattle.cms_scalars.specs.Borrowed.{borrowed_pieces};

use crate::signed_data::SignedData;
use crate::signer_info::SignerInfo;
use cms_scalars::Octets;
use std::alloc::{AllocError, Global};
use thiserror::Error;

/// Why there are no octets that a signature covers.
#[derive(Clone, Copy, Debug, PartialEq, Eq, Error)]
pub enum CoverFault {
    /// No signer has the index.
    #[error("no such signer")]
    NoSigner,
    /// The signer has no signed attributes, and there is no content.
    #[error("no content")]
    NoContent,
    /// Memory ran out.
    #[error("out of memory")]
    OutOfMemory,
}

impl From<AllocError> for CoverFault {
    ghost use Rattle.std.specs.Prelude.{◌≡◌};
    ghost use Rattle.cms_message.specs.declared.cover.CoverFault.TheVariants.{OutOfMemory};

    ghost from_gives = { λ _ e. e ≡ OutOfMemory };

    fn from(_: AllocError) -> CoverFault {
        CoverFault::OutOfMemory
    }
}

/// Appends the octets of all pieces. An error means out of memory; `out` is then as it was.
fn append_pieces(pieces: &[&[u8]], out: &mut Vec<u8>) -> Result<(), AllocError>
    ensures ok { OnOk result (out.new.items ≡ out.old.items ++ join (map (λ s. s.now) pieces.now)) }
    ensures err { OnErr result (out.new.items ≡ out.old.items) }
{
    let before = out.len();
    for piece in pieces {
        if let Err(error) = out.extend_from_slice(piece) {
            out.truncate(before);
            return Err(error);
        }
    }
    Ok(())
}

impl<'a> SignedData<'a> {
    /// The octets that the signature of the signer with the index `i` covers, in pieces: the signed
    /// attributes as they were received, but with 31 as their first octet. If the signer has no signed
    /// attributes, they are the content, or `detached` if none is attached. No memory is taken before
    /// `NoSigner` and `NoContent` are judged.
    pub fn cover(
        &self,
        alloc: Global,
        i: u64,
        detached: Option<&'a [u8]>,
    ) -> Result<Vec<&'a [u8]>, CoverFault>
        ensures ok { IfOk result (λ v. cover_of self.now i
            (option_copied detached.entry) ≡ Some (Some (join (map (λ s. s.now) v.items)))) }
        ensures err { IfErr result (λ e. LacksCover e
            (cover_of self.now i (option_copied detached.entry))) }
    {
        match self.signer(i) {
            Some(signer) => self.pieces(alloc, &signer, None, detached),
            None => Err(CoverFault::NoSigner),
        }
    }

    /// What the signature of `signer` covers, in pieces. `signed` is the signature that it signs if it is a
    /// countersignature.
    fn pieces(
        &self,
        alloc: Global,
        signer: &SignerInfo<'a>,
        signed: Option<Octets<'a>>,
        detached: Option<&'a [u8]>,
    ) -> Result<Vec<&'a [u8]>, CoverFault>
        ensures ok { IfOk result (λ v. cover signer.now
            (option_or (option_map (λ o. join (borrowed_pieces o)) signed.entry)
            (content_given self.now (option_copied detached.entry)))
            ≡ Some (join (map (λ s. s.now) v.items))) }
        ensures err { IfErr result (λ e. LacksCover e
            (Some (cover signer.now
            (option_or (option_map (λ o. join (borrowed_pieces o)) signed.entry)
            (content_given self.now (option_copied detached.entry)))))) }
    {
        if let Some((identifier, after)) = signer.signed_attrs_as_set_of() {
            return Ok([identifier, after].to_vec(alloc)?);
        }
        if let Some(signature) = signed {
            return Ok(signature.all_pieces(alloc)?);
        }
        if let Some(content) = self.content() {
            return Ok(content.all_pieces(alloc)?);
        }
        match detached {
            Some(content) => Ok([content].to_vec(alloc)?),
            None => Err(CoverFault::NoContent),
        }
    }

    /// Appends the octets that the signature of the signer with the index `i` covers (RFC 5652, section
    /// 5.4). On an error, `out` is as it was.
    ///
    /// `detached` is the content if none is attached. If content is attached, `detached` is not looked
    /// at.
    pub fn covered(
        &self,
        alloc: Global,
        i: u64,
        detached: Option<&[u8]>,
        out: &mut Vec<u8>,
    ) -> Result<(), CoverFault>
        ensures ok { OnOk result ((c : List ℕ)
            × (cover_of self.now i (option_copied detached.entry) ≡ Some (Some c))
            × (out.new.items ≡ out.old.items ++ c)) }
        ensures err { IfErr result (λ e. (out.new.items ≡ out.old.items)
            × LacksCover e (cover_of self.now i (option_copied detached.entry))) }
    {
        let pieces = self.cover(alloc, i, detached)?;
        Ok(append_pieces(&pieces, out)?)
    }

    /// Appends the octets that the signature of the signer or countersignature at `path` covers. On an
    /// error, `out` is as it was.
    ///
    /// The first number of `path` is the index of a signer, and each later one the index of a
    /// countersignature of the one before, over all its attributes in the order read. `NoSigner` says
    /// that the path is empty, or that one of its numbers is too large. A countersignature covers its
    /// signed attributes or, if it has none, the octets of the signature that it signs (RFC 5652,
    /// section 11.4).
    pub fn covered_path(
        &self,
        alloc: Global,
        path: &[u64],
        detached: Option<&[u8]>,
        out: &mut Vec<u8>,
    ) -> Result<(), CoverFault>
        ensures ok { OnOk result ((c : List ℕ)
            × (cover_along self.now path.now (option_copied detached.entry) ≡ Some (Some c))
            × (out.new.items ≡ out.old.items ++ c)) }
        ensures err { IfErr result (λ e. (out.new.items ≡ out.old.items)
            × LacksCover e (cover_along self.now path.now (option_copied detached.entry))) }
    {
        let pieces = self.pieces_along(alloc, path, detached)?;
        Ok(append_pieces(&pieces, out)?)
    }

    fn pieces_along(
        &self,
        alloc: Global,
        path: &[u64],
        detached: Option<&'a [u8]>,
    ) -> Result<Vec<&'a [u8]>, CoverFault>
        ensures ok { IfOk result (λ v. cover_along self.now path.now
            (option_copied detached.entry) ≡ Some (Some (join (map (λ s. s.now) v.items)))) }
        ensures err { IfErr result (λ e. LacksCover e
            (cover_along self.now path.now (option_copied detached.entry))) }
    {
        let Some((first, rest)) = path.split_first() else {
            return Err(CoverFault::NoSigner);
        };
        let Some(signer) = self.signer(*first) else {
            return Err(CoverFault::NoSigner);
        };
        match along(signer, rest) {
            Some((signer, signed)) => self.pieces(alloc, &signer, signed, detached),
            None => Err(CoverFault::NoSigner),
        }
    }
}

/// The countersignature at a path below `signer`, with the signature that it signs. If the path is empty, it
/// is the signer itself, which signs no signature.
fn along<'a>(signer: SignerInfo<'a>, path: &[u64]) -> Option<(SignerInfo<'a>, Option<Octets<'a>>)>
    ensures { (content : Option (List ℕ))
        → option_map (λ p. cover p.0
        (option_or (option_map (λ o. join (borrowed_pieces o)) p.1) content))
        result ≡ cover_from signer.entry content path.now }
{
    let mut signer = signer;
    let mut signed = None;
    for j in 0..path.len() {
        let next = signer.countersignature(path[j])?;
        signed = Some(signer.signature());
        signer = next;
    }
    Some((signer, signed))
}
