//! Checks a request or a response of time-stamping (RFC 3161).
ghost use Rattle.std.specs.Prelude.{◌≡◌, List, ℕ, Option, IfOk};
ghost use Rattle.std.specs.Option.{option_copied};
ghost use Rattle.cms_tsp.specs.TstInfo.{TstInfo, IsTstInfoOf};
ghost use Rattle.cms_check.specs.declared.verifier.Verdict.TheVariants.{Unknown};
ghost use Rattle.cms_check.specs.Digests.{AreDigestsOf};
ghost use Rattle.cms_check.specs.Jobs.{answer_of};
ghost use Rattle.cms_check.specs.Known.{AreGivenOf, AreKnownOf, Correspond, IsKnownOf};
ghost use Rattle.cms_check.specs.Findings.{AreFoundInResponse, request_findings, response_content, response_findings};

use crate::checking::{Given, GivenDigests, append_broken, check_known};
use crate::digests::Digests;
use crate::known::{AllKnown, Known, NoReport, known_digests, known_octets};
use crate::report::Report;
use crate::tokens::imprint_finding;
use crate::verifier::{NoVerifier, Verifier};
use cms_tsp::{TimeStampReq, TimeStampResp};
use std::alloc::{AllocError, Global};

/// What is wrong with the imprint of a request for the data that it asks to be time-stamped, if they
/// are given: F8 or F14. An error means out of memory.
pub fn check_request(
    alloc: Global,
    request: &TimeStampReq<'_>,
    stamped: Option<&[u8]>,
) -> Result<Report, AllocError>
    ensures { IfOk result (λ r. r ≡ request_findings (option_copied stamped.entry) request.now) }
{
    match check_request_known(alloc, request, known_octets(stamped)) {
        Ok(report) => Ok(report),
        Err(_) => Err(AllocError),
    }
}

/// The rules that a request breaks, whatever data have the digests that are given.
pub fn check_request_digests(
    alloc: Global,
    request: &TimeStampReq<'_>,
    stamped: Option<&Digests>,
) -> Result<Report, NoReport>
    ensures { IfOk result (λ r. (m : Option (List ℕ))
        → Correspond AreDigestsOf (option_copied stamped.entry) m
        → r ≡ request_findings m request.now) }
{
    check_request_known(alloc, request, known_digests(stamped))
}

fn check_request_known(
    alloc: Global,
    request: &TimeStampReq<'_>,
    stamped: Option<Known<'_>>,
) -> Result<Report, NoReport>
    ensures { IfOk result (λ r. (m : Option (List ℕ)) → Correspond IsKnownOf stamped.entry m
        → r ≡ request_findings m request.now) }
{
    let mut findings = Vec::new(alloc);
    if let Some(stamped) = stamped {
        if let Some(finding) = imprint_finding(&request.message_imprint(), stamped)? {
            findings.push(finding).map_err(AllocError::from)?;
        }
    }
    Ok(Report { findings })
}

/// The rules that a response breaks: those that its token breaks, as `check` has them, and F19 if there
/// is a token though none was granted, or none though one was (RFC 3161, section 2.4.2). If there is no
/// token, it is F11 if data are given that were time-stamped. An error means out of memory.
///
/// The token has to be a time-stamp token, whatever `given` says.
pub fn check_response<V: Verifier>(
    alloc: Global,
    response: &TimeStampResp<'_>,
    given: &Given<'_>,
    verifier: &V,
) -> Result<Report, AllocError>
    ensures { IfOk result (λ r. (read : Option TstInfo)
        × IsTstInfoOf (response_content response.now (option_copied given.now.detached)) read
        × (r ≡ response_findings (V.answer verifier.now) response.now
        (option_copied given.now.detached) (option_copied given.now.stamped) read)) }
{
    match check_response_known(alloc, response, &AllKnown::of_octets(given), Some(verifier)) {
        Ok(report) => Ok(report),
        Err(_) => Err(AllocError),
    }
}

/// The rules that a response breaks, if no signature is judged, whatever octets have the digests that
/// are given.
pub fn check_response_digests(
    alloc: Global,
    response: &TimeStampResp<'_>,
    given: &GivenDigests<'_>,
) -> Result<Report, NoReport>
    ensures { IfOk result (λ r. (detached stamped : Option (List ℕ))
        → AreGivenOf given.now detached stamped
        → AreFoundInResponse (λ job. Unknown) response.now detached stamped r) }
{
    let known = AllKnown::of_digests(given);
    check_response_known(alloc, response, &known, None::<&NoVerifier>)
}

fn check_response_known<V: Verifier>(
    alloc: Global,
    response: &TimeStampResp<'_>,
    known: &AllKnown<'_>,
    verifier: Option<&V>,
) -> Result<Report, NoReport>
    ensures { IfOk result (λ r. (detached stamped : Option (List ℕ))
        → AreKnownOf known.now detached stamped
        → AreFoundInResponse (answer_of V.answer (option_copied verifier.entry)) response.now
        detached stamped r) }
{
    let has_another_status = (19, !response.status_agrees());
    match response.token() {
        Some(token) => {
            let known = AllKnown {
                token: true,
                ..*known
            };
            check_known(
                alloc,
                &token.signed_data(),
                &known,
                &[has_another_status],
                verifier,
            )
        }
        None => {
            let mut findings = Vec::new(alloc);
            let rules = [(11, known.stamped.is_some()), has_another_status];
            append_broken(None, &rules, &mut findings)?;
            Ok(Report { findings })
        }
    }
}
