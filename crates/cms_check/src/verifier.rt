//! Verifiers of signatures, which the caller supplies: there is no public-key arithmetic here.
//!
//! A verifier may keep count of what it is asked, as a test does: no clause sees it, since its answer
//! is a function of the octets alone.

use cms_message::{AlgorithmIdentifier, CertificateChoices, Choices, SignerIdentifier};

/// What a verifier says of a signature.
#[derive(Clone, Copy, Debug, PartialEq, Eq)]
pub enum Verdict {
    /// It is right.
    Good,
    /// It is wrong.
    Bad,
    /// The verifier cannot tell, for example because it has no key or does not know an algorithm.
    Unknown,
}

/// What a verifier is asked: whether the signature is right for the octets that it covers (RFC 5652,
/// section 5.6).
#[derive(Drop)]
pub struct Job<'a> {
    /// The octets that the signature covers, in pieces one after another.
    pub covered: &'a [&'a [u8]],
    /// The signature's octets, in pieces one after another.
    pub signature: &'a [&'a [u8]],
    /// signatureAlgorithm.
    pub signature_algorithm: AlgorithmIdentifier<'a>,
    /// digestAlgorithm.
    pub digest_algorithm: AlgorithmIdentifier<'a>,
    /// Which certificate the signer's key is in.
    pub sid: SignerIdentifier<'a>,
    /// The certificates of the message, if that field is present.
    pub certificates: Option<Choices<'a, CertificateChoices>>,
}

/// Says whether signatures are right.
pub trait Verifier {
    ghost use Rattle.std.specs.Prelude.{◌≡◌};
    ghost use Rattle.cms_check.specs.declared.verifier.Verdict.{Verdict};
    ghost use Rattle.cms_check.specs.Jobs.{JobValue, borrowed_job};

    // What it says of a job. It looks at the octets alone, and not at how they are split into pieces.
    ghost answer: { Self → JobValue → Verdict };

    /// Whether a signature is right for the octets that it covers.
    fn verify(&self, job: &Job<'_>) -> Verdict
        ensures { result ≡ answer self.now (borrowed_job job.now) };
}

/// A verifier that knows of no signature whether it is good.
#[derive(Drop)]
pub struct NoVerifier;

impl Verifier for NoVerifier {
    ghost use Rattle.cms_check.specs.declared.verifier.Verdict.TheVariants.{Unknown};

    ghost answer = { λ v job. Unknown };

    fn verify(&self, _: &Job<'_>) -> Verdict {
        Verdict::Unknown
    }
}
