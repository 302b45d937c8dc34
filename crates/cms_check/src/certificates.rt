//! The certificates of a message (RFC 5652, section 10.2.3).
ghost use Rattle.std.specs.Prelude.{◌≡◌, List, ℕ, Option, not, IfOk};
ghost use Rattle.std.specs.Option.{IfSome};
ghost use Rattle.std.specs.List.{All};
ghost use Rattle.std.specs.List.Sorted.{IsPermutation};
ghost use Rattle.cms_message.specs.SignedData.{certificates};
ghost use Rattle.cms_check.specs.Certificates.{certificate_digests};
ghost use Rattle.cms_check.specs.Rules.{passes};
ghost use Rattle.cms_check.specs.Tokens.{has_certificate};

use crate::digests::{HashAlg, Hashed, digest};
use crate::sorted::Sorted;
use cms_message::{
    CertificateChoices, CertificateKind, Choices, Indexed, SignedData, certificate_kind,
};
use std::alloc::{AllocError, Global};
use std::marker::Model;

/// The certificates of a message, and the digests of them that were asked for. Each is digested once for
/// each algorithm, however many signers ask.
#[derive(Drop)]
pub(crate) struct Certificates<'a> {
    choices: Option<Choices<'a, CertificateChoices>>,
    digests: Vec<(HashAlg, Sorted<Hashed>)>,
}

impl<'a> Model for Certificates<'a> {
    ghost Value = { Option (List (List ℕ)) };

    ghost view = { λ x. x.choices };

    ghost invariant = { λ x.
        All (λ d. IfSome x.choices (λ choices. IsPermutation (certificate_digests d.0 choices) d.1))
        x.digests.items };
}

impl<'a> Certificates<'a> {
    /// Those of `signed_data`.
    pub(crate) fn new(alloc: Global, signed_data: &SignedData<'a>) -> Certificates<'a>
        ensures { result ≡ certificates signed_data.now }
    {
        Certificates {
            choices: signed_data.certificates(),
            digests: Vec::new(alloc),
        }
    }

    /// Whether there are certificates, and none of them has this digest (RFC 5035, section 5). An error
    /// means out of memory.
    pub(crate) fn lack(&mut self, algorithm: HashAlg, hash: &[u8]) -> Result<bool, AllocError>
        ensures same { self.new ≡ self.old }
        ensures ok { IfOk result (λ b.
            b ≡ passes (λ choices. not (has_certificate algorithm hash.now choices)) self.old) }
    {
        let Some(choices) = &self.choices else {
            return Ok(false);
        };
        for (known, digests) in &self.digests {
            if *known == algorithm {
                return Ok(!digests.has(hash));
            }
        }
        let digests = digests_by(*self.digests.allocator(), algorithm, choices)?;
        let lacks = !digests.has(hash);
        self.digests.push((algorithm, digests))?;
        Ok(lacks)
    }
}

/// The digests of the certificates among `choices`. An error means out of memory.
fn digests_by(
    alloc: Global,
    algorithm: HashAlg,
    choices: &Choices<'_, CertificateChoices>,
) -> Result<Sorted<Hashed>, AllocError>
    ensures { IfOk result (IsPermutation (certificate_digests algorithm choices.now)) }
{
    let mut digests = Vec::with_capacity(alloc, choices.len() as usize)?;
    for element in choices.iter() {
        if certificate_kind(element) == CertificateKind::Certificate {
            digests.push(digest(algorithm, &[element]))?;
        }
    }
    Ok(Sorted::new(digests))
}
