//! `check`: which rules a message breaks, by what follows it.
ghost use Rattle.std.specs.Prelude.{◌≡◌, ◌≤◌, ◌^◌, if◌then◌else◌, List, IfOk, IfErr};
ghost use Rattle.cms_tlv.specs.declared.fault.Fault.TheVariants.{OutOfMemory};
ghost use Rattle.cms_check.specs.declared.report.Finding.{Finding};
ghost use Rattle.cms_canon.specs.Given.{GivenFaults};
ghost use Rattle.cms_canon.specs.Streams.{reading};
ghost use Rattle.cms_cli.specs.Answers.{AfterFaults, AreFoundAfter, IsChecked, has_fault, reads_rest, tail_before};

use crate::answer::Answer;
use crate::task::After;
use cms_canon::{Message, Tail, check_content_from, check_data_from, check_message, read_message};
use cms_check::{Finding, NoVerifier, Report};
use cms_listing::list_findings;
use cms_tlv::{Fault, Input};
use std::alloc::Global;

/// Reads a message with what follows it, and lists the rules that it breaks.
pub(crate) fn check<I: Input>(
    alloc: Global,
    input: I,
    limit: u64,
    after: After,
) -> (I, Result<Answer, Fault>)
    requires { limit ≤ 2 ^ 40 }
    ensures ok { IfOk result.1 (λ a. IsChecked (reading I.left I.failures input result.0) limit
        after a.status a.text.items) }
    ensures faults { IfErr result.1
        (GivenFaults (reading I.left I.failures input result.0) limit (reads_rest after)) }
{
    let (input, message) = read_message(alloc, input, limit, tail_before(after));
    match message {
        Ok(message) => checked(alloc, &message, input, limit, after),
        Err(fault) => (input, Err(fault)),
    }
}

fn tail_before(after: After) -> Tail
    ensures { result ≡ tail_before after }
{
    match after {
        After::Nothing => Tail::Refuse,
        After::Content | After::Data => Tail::Leave,
    }
}

/// What `check` says of a message, with what follows it.
fn checked<I: Input>(
    alloc: Global,
    message: &Message,
    input: I,
    limit: u64,
    after: After,
) -> (I, Result<Answer, Fault>)
    requires { limit ≤ 2 ^ 40 }
    ensures ok { IfOk result.1 (λ a. (found : List Finding)
        × AreFoundAfter (reading I.left I.failures input result.0) limit after message.now.value
        found × (a.status ≡ (if has_fault found then 1 else 0))) }
    ensures faults { IfErr result.1
        (AfterFaults (reading I.left I.failures input result.0) limit after) }
{
    let (input, report) = report_after(alloc, message, input, limit, after);
    let answer = match report {
        Ok(report) => findings_listed(alloc, report.findings()),
        Err(fault) => Err(fault),
    };
    (input, answer)
}

fn report_after<I: Input>(
    alloc: Global,
    message: &Message,
    input: I,
    limit: u64,
    after: After,
) -> (I, Result<Report, Fault>)
    requires { limit ≤ 2 ^ 40 }
    ensures ok { IfOk result.1
        (AreFoundAfter (reading I.left I.failures input result.0) limit after message.now.value) }
    ensures faults { IfErr result.1
        (AfterFaults (reading I.left I.failures input result.0) limit after) }
{
    match after {
        After::Nothing => match check_message(alloc, message, None, None, &NoVerifier) {
            Ok(report) => (input, Ok(report)),
            Err(_) => (input, Err(Fault::OutOfMemory)),
        },
        After::Content => check_content_from(alloc, message, input, limit),
        After::Data => check_data_from(alloc, message, input, limit),
    }
}

fn findings_listed(alloc: Global, findings: &[Finding]) -> Result<Answer, Fault>
    ensures ok { IfOk result
        (λ a. a.status ≡ (if has_fault findings.now then 1 else 0)) }
    ensures err { IfErr result (λ e. e ≡ OutOfMemory) }
{
    let mut text = String::new(alloc);
    if list_findings(alloc, findings, &mut text).is_err() {
        return Err(Fault::OutOfMemory);
    }
    Ok(Answer {
        text: text.into_bytes(),
        status: if has_fault(findings) { 1 } else { 0 },
    })
}

/// Whether a finding is another than F18, which the verifier of the command has on each signature.
fn has_fault(findings: &[Finding]) -> bool
    ensures { result ≡ has_fault findings.now }
{
    findings.iter().any(|finding| finding.code != 18)
}
