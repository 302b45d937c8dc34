//! Checks a SignedData against the rules of RFC 5652 and, if it is a time-stamp token, of RFC 3161.
ghost use Rattle.std.specs.Prelude.{◌≡◌, ◌++◌, List, ℕ, [], Option, map, IfOk, OnOk};
ghost use Rattle.std.specs.List.Sorted.{IsPermutation};
ghost use Rattle.std.specs.Option.{option_copied};
ghost use Rattle.cms_message.specs.Cover.{content_given};
ghost use Rattle.cms_tlv.specs.Spelling.{join};
ghost use Rattle.cms_message.specs.Algorithms.{algorithm};
ghost use Rattle.cms_message.specs.SignedData.{SignedData, digest_algorithms, borrowed_signers};
ghost use Rattle.cms_tsp.specs.TstInfo.{TstInfo, IsTstInfoOf};
ghost use Rattle.cms_check.specs.Jobs.{answer_of, job};
ghost use Rattle.cms_check.specs.declared.verifier.Verdict.TheVariants.{Unknown};
ghost use Rattle.cms_check.specs.Known.{AreGivenOf, AreKnownOf, Correspond, IsContentOf, IsKnownOf};
ghost use Rattle.cms_check.specs.Rules.{verdict_on};
ghost use Rattle.cms_check.specs.Tokens.{token_content, cert_id_rules};
ghost use Rattle.cms_check.specs.Findings.{message_rules, signer_rules, rules_for, findings_of, of_signers, findings, AreFound};

use crate::certificates::Certificates;
use crate::content::{Content, content_of};
use crate::digest_oids::{DigestOids, algorithms_listed};
use crate::digests::Digests;
use crate::known::{AllKnown, NoReport};
use crate::report::{Finding, Report};
use crate::rules::{
    has_another_content_type, has_another_digest, has_another_version, has_unknown_algorithm,
    has_unlisted_digest_algorithm, is_bad, is_unknown, lacks_content_type, lacks_message_digest,
    lacks_signed_attributes, signer_has_another_version,
};
use crate::tokens::{
    CertIdRules, cert_id_rules, has_no_tst_info, has_not_one_signer, is_no_token,
    token_has_another_imprint, token_has_unknown_imprint_algorithm, tst_info_of,
};
use crate::verifier::{Job, NoVerifier, Verdict, Verifier};
use cms_message::{Indexed, SignedData, SignerInfo};
use cms_tsp::TstInfo;
use std::alloc::{AllocError, Global};

/// What the caller gives in addition to a message.
#[derive(Clone, Copy, Debug, Default)]
pub struct Given<'a> {
    /// The content, if none is attached. If content is attached, this is not looked at.
    pub detached: Option<&'a [u8]>,
    /// The data that were time-stamped. If they are given, the message has to be a token for them.
    pub stamped: Option<&'a [u8]>,
    /// Whether the message has to be a time-stamp token.
    pub token: bool,
}

/// The rules that a SignedData breaks: first those for the message, then those for each signer in the
/// order read; both are ordered by number. An error means out of memory.
///
/// The verifier is asked once for each signer whose signature covers anything, in the order of the
/// signers.
pub fn check<V: Verifier>(
    alloc: Global,
    signed_data: &SignedData<'_>,
    given: &Given<'_>,
    verifier: &V,
) -> Result<Report, AllocError>
    ensures { IfOk result (λ r. (read : Option TstInfo)
        × IsTstInfoOf (token_content signed_data.now
        (content_given signed_data.now (option_copied given.now.detached))) read
        × (r ≡ findings (V.answer verifier.now) signed_data.now (option_copied given.now.detached)
        (option_copied given.now.stamped) given.now.token read)) }
{
    let known = AllKnown::of_octets(given);
    match check_known(alloc, signed_data, &known, &[], Some(verifier)) {
        Ok(report) => Ok(report),
        Err(_) => Err(AllocError),
    }
}

/// What the caller gives in addition to a message, if it has digests in place of octets.
#[derive(Clone, Copy, Debug, Default)]
pub struct GivenDigests<'a> {
    /// Digests of the content, if none is attached. If content is attached, they are not looked at.
    pub detached: Option<&'a Digests>,
    /// Digests of the data that were time-stamped. If they are given, the message has to be a token for
    /// those data.
    pub stamped: Option<&'a Digests>,
    /// Whether the message has to be a time-stamp token.
    pub token: bool,
}

/// The rules that a message breaks, if no signature is judged, whatever octets have the digests that are
/// given. `digests_asked` and `digest_asked_by_token` say which it asks
/// for, and `needs_octets` whether the content is needed as octets.
pub fn check_digests(
    alloc: Global,
    signed_data: &SignedData<'_>,
    given: &GivenDigests<'_>,
) -> Result<Report, NoReport>
    ensures { IfOk result (λ r. (detached stamped : Option (List ℕ))
        → AreGivenOf given.now detached stamped
        → AreFound [] (λ job. Unknown) signed_data.now detached stamped given.now.token r) }
{
    let known = AllKnown::of_digests(given);
    check_known(alloc, signed_data, &known, &[], None::<&NoVerifier>)
}

/// The rules that a SignedData breaks, and those of `more` that are broken, which are for the message.
/// With no verifier, of no signature it is known whether it is good.
pub(crate) fn check_known<V: Verifier>(
    alloc: Global,
    signed_data: &SignedData<'_>,
    known: &AllKnown<'_>,
    more: &[(u8, bool)],
    verifier: Option<&V>,
) -> Result<Report, NoReport>
    ensures { IfOk result (λ r. (detached stamped : Option (List ℕ))
        → AreKnownOf known.now detached stamped
        → AreFound more.now (answer_of V.answer (option_copied verifier.entry)) signed_data.now
        detached stamped known.now.token r) }
{
    let mut content = content_of(alloc, signed_data, known.detached)?;
    let tst_info = tst_info_of(alloc, signed_data, &content)?;
    let listed = algorithms_listed(alloc, signed_data)?;
    let mut findings = Vec::new(alloc);
    let rules = message_rules(signed_data, known, &content, &tst_info)?;
    append_broken(None, &rules, &mut findings)?;
    append_broken(None, more, &mut findings)?;
    append_broken_by_signers(
        alloc,
        signed_data,
        &listed,
        &mut content,
        verifier,
        &mut findings,
    )?;
    Ok(Report { findings })
}

/// Appends the rules that signers break, in the order read.
fn append_broken_by_signers<V: Verifier>(
    alloc: Global,
    signed_data: &SignedData<'_>,
    listed: &DigestOids<'_>,
    content: &mut Option<Content<'_>>,
    verifier: Option<&V>,
    findings: &mut Vec<Finding>,
) -> Result<(), NoReport>
    requires { IsPermutation (map algorithm (digest_algorithms signed_data.now)) listed.now }
    ensures { OnOk result ((m : Option (List ℕ)) → Correspond IsContentOf content.old m
        → findings.new.items ≡ findings.old.items ++ of_signers
        (rules_for (answer_of V.answer (option_copied verifier.entry)) signed_data.now m)
        0 (borrowed_signers signed_data.now)) }
{
    let mut certificates = Certificates::new(alloc, signed_data);
    for i in 0..signed_data.signers().len() {
        if let Some(signer) = signed_data.signer(i) {
            let verdict = verdict_on(alloc, signed_data, &signer, content, verifier)?;
            let cert_id = cert_id_rules(signed_data, &signer, &mut certificates)?;
            let rules = signer_rules(signed_data, listed, &signer, content, cert_id, verdict)?;
            append_broken(Some(i), &rules, findings)?;
        }
    }
    Ok(())
}

/// The rules for the message, ordered by number, and whether each is broken.
fn message_rules(
    signed_data: &SignedData<'_>,
    known: &AllKnown<'_>,
    content: &Option<Content<'_>>,
    tst_info: &Option<TstInfo>,
) -> Result<[(u8, bool); 7], NoReport>
    ensures { IfOk result (λ rules. (m stamped : Option (List ℕ))
        → Correspond IsContentOf content.now m → Correspond IsKnownOf known.now.stamped stamped
        → rules ≡ message_rules signed_data.now m stamped known.now.token tst_info.now) }
{
    Ok([
        (1, has_another_version(signed_data)),
        (
            8,
            token_has_unknown_imprint_algorithm(known.stamped, tst_info),
        ),
        (9, content.is_none()),
        (11, is_no_token(signed_data, known.stamped, known.token)),
        (12, has_not_one_signer(signed_data)),
        (13, has_no_tst_info(signed_data, content, tst_info)),
        (14, token_has_another_imprint(known.stamped, tst_info)?),
    ])
}

/// The verifier's verdict on the signature of a signer, if that signature covers anything.
fn verdict_on<V: Verifier>(
    alloc: Global,
    signed_data: &SignedData<'_>,
    signer: &SignerInfo<'_>,
    content: &Option<Content<'_>>,
    verifier: Option<&V>,
) -> Result<Option<Verdict>, NoReport>
    ensures { IfOk result (λ verdict. (m : Option (List ℕ)) → Correspond IsContentOf content.now m
        → verdict ≡ verdict_on (answer_of V.answer (option_copied verifier.entry))
        signed_data.now m signer.now) }
{
    let Some(verifier) = verifier else {
        return Ok(verdict_of_none(signer, content));
    };
    if let Some((identifier, behind)) = signer.signed_attrs_as_set_of() {
        let covered = [identifier, behind];
        return Ok(Some(ask(alloc, signed_data, signer, &covered, verifier)?));
    }
    match content {
        Some(Content::Octets(pieces)) => {
            Ok(Some(ask(alloc, signed_data, signer, pieces.pieces(), verifier)?))
        }
        Some(Content::Digests(_)) => Err(NoReport::NoOctets),
        None => Ok(None),
    }
}

/// The verdict if there is no verifier.
fn verdict_of_none(signer: &SignerInfo<'_>, content: &Option<Content<'_>>) -> Option<Verdict>
    ensures { (v : SignedData) (m : Option (List ℕ)) → Correspond IsContentOf content.now m
        → result ≡ verdict_on (λ job. Unknown) v m signer.now }
{
    if signer.signed_attrs().is_some() || content.is_some() {
        Some(Verdict::Unknown)
    } else {
        None
    }
}

/// Asks the verifier whether the signature of a signer is right for the octets that it covers. An error
/// means out of memory.
fn ask<'a, V: Verifier>(
    alloc: Global,
    signed_data: &SignedData<'a>,
    signer: &SignerInfo<'a>,
    covered: &'a [&'a [u8]],
    verifier: &V,
) -> Result<Verdict, AllocError>
    ensures { IfOk result (λ verdict. verdict ≡ V.answer verifier.now
        (job signed_data.now signer.now (join (map (λ p. p.now) covered.now)))) }
{
    let signature = signer.signature().all_pieces(alloc)?;
    Ok(verifier.verify(&Job {
        covered,
        signature: &signature,
        signature_algorithm: signer.signature_algorithm(),
        digest_algorithm: signer.digest_algorithm(),
        sid: signer.sid(),
        certificates: signed_data.certificates(),
    }))
}

/// The rules for a signer, ordered by number, and whether each is broken; `cert_id` says so of its
/// certificate identifier.
fn signer_rules(
    signed_data: &SignedData<'_>,
    listed: &DigestOids<'_>,
    signer: &SignerInfo<'_>,
    content: &mut Option<Content<'_>>,
    cert_id: CertIdRules,
    verdict: Option<Verdict>,
) -> Result<[(u8, bool); 12], NoReport>
    requires listed { IsPermutation (map algorithm (digest_algorithms signed_data.now)) listed.now }
    requires cert_id { cert_id ≡ cert_id_rules signed_data.now signer.now }
    ensures same { content.new ≡ content.old }
    ensures ok { IfOk result (λ rules. (m : Option (List ℕ)) → Correspond IsContentOf content.old m
        → rules ≡ signer_rules signed_data.now m verdict signer.now) }
{
    Ok([
        (2, signer_has_another_version(signer)),
        (3, lacks_signed_attributes(signed_data, signer)),
        (4, lacks_content_type(signer)),
        (5, has_another_content_type(signed_data, signer)),
        (6, lacks_message_digest(signer)),
        (7, has_another_digest(content, signer)?),
        (8, has_unknown_algorithm(signer, &cert_id)),
        (10, has_unlisted_digest_algorithm(listed, signer)),
        (15, cert_id.none),
        (16, cert_id.no_certificate),
        (17, is_bad(verdict)),
        (18, is_unknown(verdict)),
    ])
}

/// Appends the rules that are broken. An error means out of memory.
pub(crate) fn append_broken(
    signer: Option<u64>,
    rules: &[(u8, bool)],
    findings: &mut Vec<Finding>,
) -> Result<(), AllocError>
    ensures { OnOk result
        (findings.new.items ≡ findings.old.items ++ findings_of signer rules.now) }
{
    for (code, broken) in rules {
        if *broken {
            findings.push(Finding {
                code: *code,
                signer,
            })?;
        }
    }
    Ok(())
}
