//! Digests of octets that come in pieces (FIPS 180-4).
ghost use Rattle.std.specs.Prelude.{◌≡◌, ◌++◌, List, ℕ, [], IfOk};
ghost use Rattle.std.specs.List.{AllZip};
ghost use Rattle.cms_check.specs.declared.digesting.Hasher.{Hasher};
ghost use Rattle.cms_check.specs.declared.digests.HashAlg.{HashAlg};
ghost use Rattle.cms_check.specs.Hashers.{AreDigesting, AreDigestsBy, EndsWith, HasTaken, TakesMore, algorithm_of};

use crate::digests::{DigestOctets, Digests, HashAlg, Hashed};
use sha1::Sha1;
use sha2::{Digest, Sha224, Sha256, Sha384, Sha512, Sha512_224, Sha512_256};
use std::alloc::{AllocError, Global};
use std::marker::Model;

/// Octets that come in pieces, and are digested by several algorithms. The octets are not kept.
#[derive(Drop)]
pub struct Digesting {
    hashers: Vec<Hasher>,
}

impl Model for Digesting {
    ghost Value = { List Hasher };

    ghost view = { λ x. x.hashers.items };
}

impl Digesting {
    /// No octets yet, to be digested by each of these algorithms. An error means out of memory.
    pub fn new(alloc: Global, algorithms: &[HashAlg]) -> Result<Digesting, AllocError>
        ensures { IfOk result (AreDigesting algorithms.now []) }
    {
        let mut hashers = Vec::with_capacity(alloc, algorithms.len())?;
        for algorithm in algorithms {
            hashers.push(Hasher::new(*algorithm))?;
        }
        Ok(Digesting { hashers })
    }

    /// TakesMore the next octets. No memory is taken.
    pub fn add(&mut self, octets: &[u8])
        ensures { (algorithms : List HashAlg) (m : List ℕ) → AreDigesting algorithms m self.old
            → AreDigesting algorithms (m ++ octets.now) self.new }
    {
        add_to_all(&mut self.hashers, octets);
    }

    /// The digests of all octets that it has taken, in the order of the algorithms. An error means out
    /// of memory.
    pub fn finish(self, alloc: Global) -> Result<Digests, AllocError>
        ensures { IfOk result (λ digests. (algorithms : List HashAlg) (m : List ℕ)
            → AreDigesting algorithms m self → AreDigestsBy algorithms m digests) }
    {
        let mut digests = Vec::with_capacity(alloc, self.hashers.len())?;
        for hasher in self.hashers {
            digests.push(hasher.finish())?;
        }
        Ok(Digests::new(digests))
    }
}

fn add_to_all(hashers: &mut [Hasher], octets: &[u8])
    ensures { AllZip (TakesMore octets.now) hashers.old hashers.new }
{
    for hasher in hashers.iter_mut() {
        hasher.add(octets);
    }
}

/// Octets that are digested by one algorithm.
#[derive(Drop)]
enum Hasher {
    Sha1(Sha1),
    Sha224(Sha224),
    Sha256(Sha256),
    Sha384(Sha384),
    Sha512(Sha512),
    Sha512_224(Sha512_224),
    Sha512_256(Sha512_256),
}

impl Hasher {
    fn new(algorithm: HashAlg) -> Hasher
        ensures algorithm { algorithm_of result ≡ algorithm }
        ensures none { HasTaken result [] }
    {
        match algorithm {
            HashAlg::Sha1 => Hasher::Sha1(Sha1::new()),
            HashAlg::Sha224 => Hasher::Sha224(Sha224::new()),
            HashAlg::Sha256 => Hasher::Sha256(Sha256::new()),
            HashAlg::Sha384 => Hasher::Sha384(Sha384::new()),
            HashAlg::Sha512 => Hasher::Sha512(Sha512::new()),
            HashAlg::Sha512_224 => Hasher::Sha512_224(Sha512_224::new()),
            HashAlg::Sha512_256 => Hasher::Sha512_256(Sha512_256::new()),
        }
    }

    fn add(&mut self, octets: &[u8])
        ensures { TakesMore octets.now self.old self.new }
    {
        match self {
            Hasher::Sha1(hasher) => hasher.update(octets),
            Hasher::Sha224(hasher) => hasher.update(octets),
            Hasher::Sha256(hasher) => hasher.update(octets),
            Hasher::Sha384(hasher) => hasher.update(octets),
            Hasher::Sha512(hasher) => hasher.update(octets),
            Hasher::Sha512_224(hasher) => hasher.update(octets),
            Hasher::Sha512_256(hasher) => hasher.update(octets),
        }
    }

    /// Its algorithm, and the digest.
    fn finish(self) -> (HashAlg, Hashed)
        ensures { EndsWith self result }
    {
        match self {
            Hasher::Sha1(hasher) => {
                (
                    HashAlg::Sha1,
                    Hashed(DigestOctets::Of160(hasher.finalize())),
                )
            }
            Hasher::Sha224(hasher) => {
                (
                    HashAlg::Sha224,
                    Hashed(DigestOctets::Of224(hasher.finalize())),
                )
            }
            Hasher::Sha256(hasher) => {
                (
                    HashAlg::Sha256,
                    Hashed(DigestOctets::Of256(hasher.finalize())),
                )
            }
            Hasher::Sha384(hasher) => {
                (
                    HashAlg::Sha384,
                    Hashed(DigestOctets::Of384(hasher.finalize())),
                )
            }
            Hasher::Sha512(hasher) => {
                (
                    HashAlg::Sha512,
                    Hashed(DigestOctets::Of512(hasher.finalize())),
                )
            }
            Hasher::Sha512_224(hasher) => {
                (
                    HashAlg::Sha512_224,
                    Hashed(DigestOctets::Of224(hasher.finalize())),
                )
            }
            Hasher::Sha512_256(hasher) => {
                (
                    HashAlg::Sha512_256,
                    Hashed(DigestOctets::Of256(hasher.finalize())),
                )
            }
        }
    }
}
