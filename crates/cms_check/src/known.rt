//! What is known of octets that are not attached to a message: the octets, or digests of them.
ghost use Rattle.std.specs.Prelude.{◌≡◌, List, ℕ, Option, IfOk};
ghost use Rattle.std.specs.Option.{option_copied};
ghost use Rattle.cms_check.specs.Digests.{AreDigestsOf, digest_by, digest_octets};
ghost use Rattle.cms_check.specs.Known.{AreGivenOf, AreKnownOf, Correspond, IsKnownOf};

use crate::checking::{Given, GivenDigests};
use crate::digests::{Digests, HashAlg, Hashed, digest};
use std::alloc::AllocError;

/// Why there is no report by digests.
#[derive(Clone, Copy, Debug, PartialEq, Eq)]
pub enum NoReport {
    /// A digest is asked for that is not given.
    NoDigest,
    /// Octets are asked for, of which digests are given: a TSTInfo is read from them, or a verifier is
    /// asked about them.
    NoOctets,
    /// Memory ran out.
    OutOfMemory,
}

impl From<AllocError> for NoReport {
    ghost use Rattle.std.specs.Prelude.{◌≡◌};
    ghost use Rattle.cms_check.specs.declared.known.NoReport.TheVariants.{OutOfMemory};

    ghost from_gives = { λ _ e. e ≡ OutOfMemory };

    fn from(_: AllocError) -> NoReport {
        NoReport::OutOfMemory
    }
}

/// What is known of octets.
#[derive(Clone, Copy)]
pub(crate) enum Known<'a> {
    /// The octets.
    Octets(&'a [u8]),
    /// Digests of them.
    Digests(&'a Digests),
}

impl<'a> Known<'a> {
    /// The digest of the octets.
    pub(crate) fn digest(self, algorithm: HashAlg) -> Result<Hashed, NoReport>
        ensures { IfOk result (λ hashed. (m : List ℕ) → IsKnownOf self.entry m
            → digest_octets hashed ≡ digest_by algorithm m) }
    {
        match self {
            Known::Octets(octets) => Ok(digest(algorithm, &[octets])),
            Known::Digests(digests) => given_digest(digests, algorithm),
        }
    }
}

/// The digest by an algorithm, which has to be among these.
pub(crate) fn given_digest(digests: &Digests, algorithm: HashAlg) -> Result<Hashed, NoReport>
    ensures { IfOk result (λ hashed. (m : List ℕ) → AreDigestsOf digests.now m
        → digest_octets hashed ≡ digest_by algorithm m) }
{
    match digests.by(algorithm) {
        Some(hashed) => Ok(hashed),
        None => Err(NoReport::NoDigest),
    }
}

/// What is known in addition to a message.
#[derive(Clone, Copy)]
pub(crate) struct AllKnown<'a> {
    /// Of the content, if none is attached.
    pub(crate) detached: Option<Known<'a>>,
    /// Of the data that were time-stamped.
    pub(crate) stamped: Option<Known<'a>>,
    /// Whether the message has to be a time-stamp token.
    pub(crate) token: bool,
}

impl<'a> AllKnown<'a> {
    pub(crate) fn of_octets(given: &Given<'a>) -> AllKnown<'a>
        ensures octets { AreKnownOf result (option_copied given.now.detached)
            (option_copied given.now.stamped) }
        ensures token { result.token ≡ given.now.token }
    {
        AllKnown {
            detached: known_octets(given.detached),
            stamped: known_octets(given.stamped),
            token: given.token,
        }
    }

    pub(crate) fn of_digests(given: &GivenDigests<'a>) -> AllKnown<'a>
        ensures octets { (detached stamped : Option (List ℕ))
            → AreGivenOf given.now detached stamped → AreKnownOf result detached stamped }
        ensures token { result.token ≡ given.now.token }
    {
        AllKnown {
            detached: known_digests(given.detached),
            stamped: known_digests(given.stamped),
            token: given.token,
        }
    }
}

pub(crate) fn known_octets<'a>(given: Option<&'a [u8]>) -> Option<Known<'a>>
    ensures { Correspond IsKnownOf result (option_copied given.entry) }
{
    match given {
        Some(octets) => Some(Known::Octets(octets)),
        None => None,
    }
}

pub(crate) fn known_digests<'a>(given: Option<&'a Digests>) -> Option<Known<'a>>
    ensures { (m : Option (List ℕ)) → Correspond AreDigestsOf (option_copied given.entry) m
        → Correspond IsKnownOf result m }
{
    match given {
        Some(digests) => Some(Known::Digests(digests)),
        None => None,
    }
}
