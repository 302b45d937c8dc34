//! SHA-1 and SHA-2 (FIPS 180-4), by the object identifiers that name them.
ghost use Rattle.std.specs.Prelude.{◌≡◌, ◌≤◌, List, ℕ, None, map, take};
ghost use Rattle.std.specs.List.{Contains};
ghost use Rattle.std.specs.Option.{IfSome};
ghost use Rattle.cms_tlv.specs.Spelling.{join};
ghost use Rattle.cms_scalars.specs.Borrowed.{borrowed_oid};
ghost use Rattle.sha1.specs.Sha1.{sha1};
ghost use Rattle.cms_check.specs.declared.digests.HashAlg.{HashAlg};
ghost use Rattle.cms_check.specs.declared.digests.Hashed.{Hashed};
ghost use Rattle.cms_check.specs.Digests.{algorithm_named, digest_by, digest_length, digest_octets, name_of};

use cms_scalars::{
    ID_SHA1, ID_SHA224, ID_SHA256, ID_SHA384, ID_SHA512, ID_SHA512_224, ID_SHA512_256, Oid,
};
use sha1::Sha1;
use sha2::{Digest, Sha224, Sha256, Sha384, Sha512, Sha512_224, Sha512_256};
use std::convert::AsSlice;
use std::marker::Model;

/// A digest algorithm.
#[derive(Clone, Copy, Debug, PartialEq, Eq)]
pub enum HashAlg {
    Sha1,
    Sha224,
    Sha256,
    Sha384,
    Sha512,
    Sha512_224,
    Sha512_256,
}

/// All of them.
pub(crate) const HASH_ALGORITHMS: [HashAlg; 7] = [
    HashAlg::Sha1,
    HashAlg::Sha224,
    HashAlg::Sha256,
    HashAlg::Sha384,
    HashAlg::Sha512,
    HashAlg::Sha512_224,
    HashAlg::Sha512_256,
];

impl HashAlg {
    /// The algorithm that an OBJECT IDENTIFIER names, if it is one of these.
    pub fn of(oid: &Oid<'_>) -> Option<HashAlg>
        ensures { result ≡ algorithm_named (borrowed_oid oid.now) }
    {
        HashAlg::named(oid.octets())
    }

    /// The algorithm that the contents octets of an OBJECT IDENTIFIER name.
    pub(crate) fn named(octets: &[u8]) -> Option<HashAlg>
        ensures { result ≡ algorithm_named octets.now }
    {
        if octets == ID_SHA1 {
            Some(HashAlg::Sha1)
        } else if octets == ID_SHA256 {
            Some(HashAlg::Sha256)
        } else if octets == ID_SHA384 {
            Some(HashAlg::Sha384)
        } else if octets == ID_SHA512 {
            Some(HashAlg::Sha512)
        } else if octets == ID_SHA224 {
            Some(HashAlg::Sha224)
        } else if octets == ID_SHA512_224 {
            Some(HashAlg::Sha512_224)
        } else if octets == ID_SHA512_256 {
            Some(HashAlg::Sha512_256)
        } else {
            None
        }
    }

    /// The contents octets of the OBJECT IDENTIFIER that names it.
    pub(crate) fn name(self) -> &'static [u8]
        ensures { result.now ≡ name_of self }
    {
        match self {
            HashAlg::Sha1 => ID_SHA1,
            HashAlg::Sha224 => ID_SHA224,
            HashAlg::Sha256 => ID_SHA256,
            HashAlg::Sha384 => ID_SHA384,
            HashAlg::Sha512 => ID_SHA512,
            HashAlg::Sha512_224 => ID_SHA512_224,
            HashAlg::Sha512_256 => ID_SHA512_256,
        }
    }
}

/// A digest, of as many octets as its algorithm has.
#[derive(Clone, Copy, Debug, PartialEq, Eq)]
pub struct Hashed(pub(crate) DigestOctets);

/// The octets of a digest, by its length in bits.
#[derive(Clone, Copy, Debug, PartialEq, Eq)]
pub(crate) enum DigestOctets {
    Of160([u8; 20]),
    Of224([u8; 28]),
    Of256([u8; 32]),
    Of384([u8; 48]),
    Of512([u8; 64]),
}

impl Hashed {
    /// The digest by an algorithm that is the first of these octets, as many as it has.
    pub fn first_of(algorithm: HashAlg, octets: &[u8; 64]) -> Hashed
        ensures { digest_octets result ≡ take (digest_length algorithm) octets.now }
    {
        Hashed(match algorithm {
            HashAlg::Sha1 => DigestOctets::Of160(first_octets(octets)),
            HashAlg::Sha224 => DigestOctets::Of224(first_octets(octets)),
            HashAlg::Sha256 => DigestOctets::Of256(first_octets(octets)),
            HashAlg::Sha384 => DigestOctets::Of384(first_octets(octets)),
            HashAlg::Sha512 => DigestOctets::Of512(*octets),
            HashAlg::Sha512_224 => DigestOctets::Of224(first_octets(octets)),
            HashAlg::Sha512_256 => DigestOctets::Of256(first_octets(octets)),
        })
    }

    /// Its octets.
    pub fn octets(&self) -> &[u8]
        ensures { result.now ≡ digest_octets self.now }
    {
        match &self.0 {
            DigestOctets::Of160(octets) => octets,
            DigestOctets::Of224(octets) => octets,
            DigestOctets::Of256(octets) => octets,
            DigestOctets::Of384(octets) => octets,
            DigestOctets::Of512(octets) => octets,
        }
    }
}

impl AsSlice<u8> for Hashed {
    ghost items = { digest_octets };

    fn as_slice(&self) -> &[u8] {
        self.octets()
    }
}

fn first_octets<const N: usize>(octets: &[u8; 64]) -> [u8; N]
    requires { N ≤ 64 }
    ensures { result ≡ take N octets.now }
{
    let mut first = [0u8; N];
    for i in 0..N {
        first[i] = octets[i];
    }
    first
}

/// The digest of the pieces, joined one after another. No memory is taken.
pub fn digest(algorithm: HashAlg, pieces: &[&[u8]]) -> Hashed
    ensures { digest_octets result ≡ digest_by algorithm (join (map (λ p. p.now) pieces.now)) }
{
    Hashed(match algorithm {
        HashAlg::Sha1 => DigestOctets::Of160(sha_1(pieces)),
        HashAlg::Sha224 => DigestOctets::Of224(sha_2::<Sha224>(pieces)),
        HashAlg::Sha256 => DigestOctets::Of256(sha_2::<Sha256>(pieces)),
        HashAlg::Sha384 => DigestOctets::Of384(sha_2::<Sha384>(pieces)),
        HashAlg::Sha512 => DigestOctets::Of512(sha_2::<Sha512>(pieces)),
        HashAlg::Sha512_224 => DigestOctets::Of224(sha_2::<Sha512_224>(pieces)),
        HashAlg::Sha512_256 => DigestOctets::Of256(sha_2::<Sha512_256>(pieces)),
    })
}

fn sha_1(pieces: &[&[u8]]) -> [u8; 20]
    ensures { result ≡ sha1 (join (map (λ p. p.now) pieces.now)) }
{
    let mut hasher = Sha1::new();
    for piece in pieces {
        hasher.update(piece);
    }
    hasher.finalize()
}

fn sha_2<D: Digest>(pieces: &[&[u8]]) -> D::Output
    ensures { D.digest_of (join (map (λ p. p.now) pieces.now)) result }
{
    let mut hasher = D::new();
    for piece in pieces {
        hasher.update(*piece);
    }
    hasher.finalize()
}

/// Digests of the same octets.
#[derive(Debug, Drop)]
pub struct Digests {
    digests: Vec<(HashAlg, Hashed)>,
}

impl Model for Digests {
    ghost Value = { List (HashAlg × Hashed) };

    ghost view = { λ x. x.digests.items };
}

impl Digests {
    /// These digests, each with its algorithm.
    pub fn new(digests: Vec<(HashAlg, Hashed)>) -> Digests
        ensures { result ≡ digests.items }
    {
        Digests { digests }
    }

    /// The digest by an algorithm, if it is among them.
    pub fn by(&self, algorithm: HashAlg) -> Option<Hashed>
        ensures some { IfSome result (λ hashed. Contains self.now (algorithm, hashed)) }
        ensures none { result ≡ None
            → (hashed : Hashed) → Contains self.now (algorithm, hashed) → ⊥ }
    {
        for (known, hashed) in &self.digests {
            if *known == algorithm {
                return Some(*hashed);
            }
        }
        None
    }
}
