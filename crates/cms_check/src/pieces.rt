//! The octets of a content.
ghost use Rattle.std.specs.Prelude.{◌≡◌, List, ℕ, Some, map, IfOk};
ghost use Rattle.std.specs.List.{All};
ghost use Rattle.cms_tlv.specs.Spelling.{join};
ghost use Rattle.cms_tsp.specs.TstInfo.{IsTstInfoOf};
ghost use Rattle.cms_check.specs.Digests.{digest_by, digest_octets};

use crate::digests::{HashAlg, Hashed, digest};
use cms_tsp::TstInfo;
use std::alloc::{AllocError, Global};
use std::marker::Model;

/// The content, in pieces, and the digests of it that were asked for. Each digest is made once, however
/// many signers ask for it.
#[derive(Drop)]
pub(crate) struct Pieces<'a> {
    pieces: Vec<&'a [u8]>,
    digests: Vec<(HashAlg, Hashed)>,
}

impl<'a> Model for Pieces<'a> {
    ghost Value = { List ℕ };

    ghost view = { λ x. join (map (λ p. p.now) x.pieces.items) };

    ghost invariant = { λ x.
        All (λ d. digest_octets d.1 ≡ digest_by d.0 (join (map (λ p. p.now) x.pieces.items)))
        x.digests.items };
}

impl<'a> Pieces<'a> {
    /// The content that consists of these pieces, one after another.
    pub(crate) fn new(pieces: Vec<&'a [u8]>, alloc: Global) -> Pieces<'a>
        ensures { result ≡ join (map (λ p. p.now) pieces.entry.items) }
    {
        Pieces {
            pieces,
            digests: Vec::new(alloc),
        }
    }

    /// Its octets, in pieces.
    pub(crate) fn pieces(&self) -> &[&'a [u8]]
        ensures { join (map (λ p. p.now) result.now) ≡ self.now }
    {
        &self.pieces
    }

    /// The TSTInfo that it is in DER, if it is one. An error means out of memory.
    pub(crate) fn tst_info(&self, alloc: Global) -> Result<Option<TstInfo>, AllocError>
        ensures { IfOk result (IsTstInfoOf (Some self.now)) }
    {
        TstInfo::from_pieces(alloc, &self.pieces)
    }

    /// Its digest. An error means out of memory.
    pub(crate) fn digest(&mut self, algorithm: HashAlg) -> Result<Hashed, AllocError>
        ensures same { self.new ≡ self.old }
        ensures ok { IfOk result (λ h. digest_octets h ≡ digest_by algorithm self.old) }
    {
        for (known, hashed) in &self.digests {
            if *known == algorithm {
                return Ok(*hashed);
            }
        }
        let hashed = digest(algorithm, &self.pieces);
        self.digests.push((algorithm, hashed))?;
        Ok(hashed)
    }
}
