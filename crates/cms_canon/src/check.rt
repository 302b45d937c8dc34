//! Which rules a message breaks, by what is given with it, or by what a reader has: detached content, or
//! data that were time-stamped.
ghost use Rattle.std.specs.Prelude.{◌≡◌, ◌≤◌, ◌^◌, ◌↔◌, List, ℕ, true, Option, Some, None, Err, IfOk, IfErr};
ghost use Rattle.std.specs.Option.{option_copied};
ghost use Rattle.cms_tlv.specs.declared.fault.Fault.TheVariants.{OutOfMemory};
ghost use Rattle.cms_check.specs.declared.verifier.Verdict.TheVariants.{Unknown};
ghost use Rattle.cms_check.specs.Digests.{AreDigestsOf};
ghost use Rattle.cms_check.specs.Known.{Correspond};
ghost use Rattle.cms_check.specs.declared.known.NoReport.TheVariants.{NoDigest, NoOctets};
ghost use Rattle.cms_canon.specs.Asked.{LacksOneOf, LacksAskedDigest, LacksNeededOctets};
ghost use Rattle.cms_canon.specs.Checking.{AreFindings};
ghost use Rattle.cms_canon.specs.Rest.{IsRest, RestFaults};
ghost use Rattle.cms_canon.specs.Streams.{reading};

use crate::asked::{asked_of_content, asked_of_data, needs_content};
use crate::digested::digests_from;
use crate::message::{Message, View};
use crate::rest::read_rest;
use cms_check::{
    Digests, Given, GivenDigests, HashAlg, NoReport, NoVerifier, Report, Verifier, check_digests,
    check_request, check_request_digests, check_response, check_response_digests,
};
use cms_tlv::{Fault, Input};
use std::alloc::{AllocError, Global};

/// The rules that a message breaks. Of a ContentInfo they are those that its SignedData breaks; of a
/// response, those that its token breaks and F19, if the status does not agree with the token; of a
/// request, F8 or F14, if its imprint is not that of `stamped`. An error means out of memory.
///
/// `detached` is the content, if none is attached; `stamped` the data that were time-stamped, if a token
/// or a request has to be for them.
pub fn check_message<V: Verifier>(
    alloc: Global,
    message: &Message,
    detached: Option<&[u8]>,
    stamped: Option<&[u8]>,
    verifier: &V,
) -> Result<Report, AllocError>
    ensures { IfOk result (AreFindings (V.answer verifier.now) message.now.value
        (option_copied detached.entry) (option_copied stamped.entry)) }
{
    let given = Given {
        detached,
        stamped,
        token: false,
    };
    match message.view() {
        View::Signed(content_info) => {
            cms_check::check(alloc, &content_info.signed_data(), &given, verifier)
        },
        View::Request(request) => check_request(alloc, &request, stamped),
        View::Response(response) => check_response(alloc, &response, &given, verifier),
    }
}

/// The rules that a message breaks, if no signature is judged, whatever octets have the digests that are
/// given: `asked_of_content` and `asked_of_data` say which it asks for, and
/// `needs_content` whether the content is needed as octets. `NoOctets` if digests of the content are
/// given and it is needed as octets, else `NoDigest` if one that it asks for is not among those given,
/// and `OutOfMemory`.
pub fn check_message_digests(
    alloc: Global,
    message: &Message,
    detached: Option<&Digests>,
    stamped: Option<&Digests>,
) -> Result<Report, NoReport>
    ensures ok { IfOk result (λ r. (content octets : Option (List ℕ))
        → Correspond AreDigestsOf (option_copied detached.entry) content
        → Correspond AreDigestsOf (option_copied stamped.entry) octets
        → AreFindings (λ job. Unknown) message.now.value content octets r) }
    ensures no_octets { (result ≡ Err NoOctets)
        ↔ LacksNeededOctets message.now.value (option_copied detached.entry) }
    ensures no_digest { result ≡ Err NoDigest → LacksAskedDigest message.now.value
        (option_copied detached.entry) (option_copied stamped.entry) }
{
    if detached.is_some() && needs_content(message) {
        return Err(NoReport::NoOctets);
    }
    if lacks_digest(alloc, message, detached, stamped)? {
        return Err(NoReport::NoDigest);
    }
    Ok(report_by_digests(alloc, message, detached, stamped)?)
}

/// Whether a digest that a message asks for is not among those given.
fn lacks_digest(
    alloc: Global,
    message: &Message,
    detached: Option<&Digests>,
    stamped: Option<&Digests>,
) -> Result<bool, AllocError>
    ensures { IfOk result (λ lacks. lacks ≡ true → LacksAskedDigest message.now.value
        (option_copied detached.entry) (option_copied stamped.entry)) }
{
    Ok(
        lacks(detached, &asked_of_content(alloc, message)?)
            || lacks(stamped, asked_of_data(alloc, message)?.as_slice()),
    )
}

/// Whether digests are given, and none by one of these algorithms.
fn lacks(given: Option<&Digests>, asked: &[HashAlg]) -> bool
    ensures { result ≡ true → LacksOneOf asked.now (option_copied given.entry) }
{
    let Some(digests) = given else {
        return false;
    };
    for algorithm in asked {
        if digests.by(*algorithm).is_none() {
            return true;
        }
    }
    false
}

/// The report by digests, if none that is asked for is missing and the content is not needed as octets:
/// then an error means out of memory.
fn report_by_digests(
    alloc: Global,
    message: &Message,
    detached: Option<&Digests>,
    stamped: Option<&Digests>,
) -> Result<Report, AllocError>
    ensures { IfOk result (λ r. (content octets : Option (List ℕ))
        → Correspond AreDigestsOf (option_copied detached.entry) content
        → Correspond AreDigestsOf (option_copied stamped.entry) octets
        → AreFindings (λ job. Unknown) message.now.value content octets r) }
{
    match report_or_lack(alloc, message, detached, stamped) {
        Ok(report) => Ok(report),
        Err(_) => Err(AllocError),
    }
}

fn report_or_lack(
    alloc: Global,
    message: &Message,
    detached: Option<&Digests>,
    stamped: Option<&Digests>,
) -> Result<Report, NoReport>
    ensures { IfOk result (λ r. (content octets : Option (List ℕ))
        → Correspond AreDigestsOf (option_copied detached.entry) content
        → Correspond AreDigestsOf (option_copied stamped.entry) octets
        → AreFindings (λ job. Unknown) message.now.value content octets r) }
{
    let given = GivenDigests {
        detached,
        stamped,
        token: false,
    };
    match message.view() {
        View::Signed(content_info) => check_digests(alloc, &content_info.signed_data(), &given),
        View::Request(request) => check_request_digests(alloc, &request, stamped),
        View::Response(response) => check_response_digests(alloc, &response, &given),
    }
}

/// The rules that a message breaks, if its content is detached and is what the reader has: all octets to
/// its end, at most `limit`, with the faults of `read_rest`. They are read in pieces and not kept, but
/// for a time-stamp token, whose content has to be a TSTInfo. Of no signature it is known whether it is
/// good. Returns the reader as well.
pub fn check_content_from<R: Input>(
    alloc: Global,
    message: &Message,
    reader: R,
    limit: u64,
) -> (R, Result<Report, Fault>)
    requires { limit ≤ 2 ^ 40 }
    ensures ok { IfOk result.1 (λ r. (octets : List ℕ)
        × IsRest (reading R.left R.failures reader result.0) limit octets
        × AreFindings (λ job. Unknown) message.now.value (Some octets) None r) }
    ensures faults { IfErr result.1 (RestFaults (reading R.left R.failures reader result.0) limit) }
{
    if needs_content(message) {
        return check_content_kept(alloc, message, reader, limit);
    }
    let Ok(algorithms) = asked_of_content(alloc, message) else {
        return (reader, Err(Fault::OutOfMemory));
    };
    let (reader, digests) = digests_from(alloc, reader, &algorithms, limit);
    match digests {
        Ok(digests) => (reader, report_by(alloc, message, Some(&digests), None)),
        Err(fault) => (reader, Err(fault)),
    }
}

/// The rules that a message breaks, if the reader has the data that were time-stamped, or are to be.
pub fn check_data_from<R: Input>(
    alloc: Global,
    message: &Message,
    reader: R,
    limit: u64,
) -> (R, Result<Report, Fault>)
    requires { limit ≤ 2 ^ 40 }
    ensures ok { IfOk result.1 (λ r. (octets : List ℕ)
        × IsRest (reading R.left R.failures reader result.0) limit octets
        × AreFindings (λ job. Unknown) message.now.value None (Some octets) r) }
    ensures faults { IfErr result.1 (RestFaults (reading R.left R.failures reader result.0) limit) }
{
    let Ok(algorithm) = asked_of_data(alloc, message) else {
        return (reader, Err(Fault::OutOfMemory));
    };
    let (reader, digests) = digests_from(alloc, reader, algorithm.as_slice(), limit);
    match digests {
        Ok(digests) => (reader, report_by(alloc, message, None, Some(&digests))),
        Err(fault) => (reader, Err(fault)),
    }
}

/// The report by all digests that a message asks for.
fn report_by(
    alloc: Global,
    message: &Message,
    detached: Option<&Digests>,
    stamped: Option<&Digests>,
) -> Result<Report, Fault>
    ensures ok { IfOk result (λ r. (content octets : Option (List ℕ))
        → Correspond AreDigestsOf (option_copied detached.entry) content
        → Correspond AreDigestsOf (option_copied stamped.entry) octets
        → AreFindings (λ job. Unknown) message.now.value content octets r) }
    ensures err { IfErr result (λ e. e ≡ OutOfMemory) }
{
    match report_by_digests(alloc, message, detached, stamped) {
        Ok(report) => Ok(report),
        Err(AllocError) => Err(Fault::OutOfMemory),
    }
}

fn check_content_kept<R: Input>(
    alloc: Global,
    message: &Message,
    reader: R,
    limit: u64,
) -> (R, Result<Report, Fault>)
    requires { limit ≤ 2 ^ 40 }
    ensures ok { IfOk result.1 (λ r. (octets : List ℕ)
        × IsRest (reading R.left R.failures reader result.0) limit octets
        × AreFindings (λ job. Unknown) message.now.value (Some octets) None r) }
    ensures faults { IfErr result.1 (RestFaults (reading R.left R.failures reader result.0) limit) }
{
    match read_rest(alloc, reader, limit) {
        (reader, Ok(content)) => {
            match check_message(alloc, message, Some(&content), None, &NoVerifier) {
                Ok(report) => (reader, Ok(report)),
                Err(_) => (reader, Err(Fault::OutOfMemory)),
            }
        }
        (reader, Err(fault)) => (reader, Err(fault)),
    }
}
