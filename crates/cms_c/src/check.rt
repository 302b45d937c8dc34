//! Findings.
//!
//! There is no callback: proved code could say nothing of what C does in one, and a `Verifier` has to
//! answer by the octets alone. A verdict enters the findings in one place, F17 or F18 of a signer, so
//! the caller replaces F18. Findings are structs of 16 octets, and not a text.
ghost use Rattle.std.specs.Prelude.{◌≡◌, map, IfOk, IfErr};
ghost use Rattle.std.specs.Option.{option_copied};
ghost use Rattle.cms_c.specs.Calls.{AreFindingsOfInput, FailsBy, IsCheck, finding_of_c, limit_of_c, items_passed};

use crate::given::{message_in, passed};
use crate::outcome::Outcome;
use cms_canon::{NoVerifier, check_message};
use cms_tlv::Fault;
use std::alloc::{AllocError, Global};

/// A rule that a message breaks.
#[repr(C)]
#[derive(Clone, Copy)]
pub struct Finding {
    /// The index of the signer that breaks it, from 0 in the order read; 0 if `has_signer` is 0.
    pub signer: u64,
    /// The rule's number: 1 stands for F1.
    pub code: u32,
    /// 1 for a rule for a signer, 0 for one for the message.
    pub has_signer: u32,
}

/// Writes the rules that the one message in `input` breaks to the beginning of `findings`: first
/// those for the message, then those for each signer in the order read; both are ordered by number.
/// F18 says of each signature that covers anything that it is not verified.
///
/// If `has_content` is true, `content` is the detached content, which is used only if the message
/// has none itself. If `has_data` is true, `data` are the data that were time-stamped, and the
/// message has to be a token, a response with a token or a request for them. The message and its
/// DER have at most `limit` octets; a limit above 2^40 counts as 2^40. If the message is refused,
/// memory runs out, or the findings do not fit into `findings`, nothing is written.
#[unsafe(no_mangle)]
pub extern "C" fn cms_canon_check(
    alloc: Global,
    input: &[u8],
    content: &[u8],
    has_content: bool,
    data: &[u8],
    has_data: bool,
    limit: u64,
    findings: &mut [Finding],
    outcome: &mut Outcome,
)
    ensures { IsCheck input.now (limit_of_c limit) (items_passed has_content content.now)
        (items_passed has_data «data».now) findings.old findings.new outcome.new }
{
    let detached = passed(content, has_content);
    let stamped = passed(data, has_data);
    *outcome = match checked(alloc, input, limit, detached, stamped) {
        Ok(found) => Outcome::delivered(&found, findings),
        Err(fault) => Outcome::of_fault(fault),
    };
}

/// The rules that the message in `input` breaks.
fn checked(
    alloc: Global,
    input: &[u8],
    limit: u64,
    detached: Option<&[u8]>,
    stamped: Option<&[u8]>,
) -> Result<Vec<Finding>, Fault>
    ensures ok { IfOk result (λ v. AreFindingsOfInput input.now (limit_of_c limit)
        (option_copied detached.entry) (option_copied stamped.entry) v.items) }
    ensures err { IfErr result (FailsBy input.now (limit_of_c limit)) }
{
    let message = message_in(alloc, input, limit)?;
    let Ok(report) = check_message(alloc, &message, detached, stamped, &NoVerifier) else {
        return Err(Fault::OutOfMemory);
    };
    findings_of_c(alloc, report.findings()).map_err(|_| Fault::OutOfMemory)
}

/// The findings as C has them. An error means out of memory.
pub(crate) fn findings_of_c(
    alloc: Global,
    findings: &[cms_check::Finding],
) -> Result<Vec<Finding>, AllocError>
    ensures { IfOk result (λ v. v.items ≡ map finding_of_c findings.now) }
{
    let mut found = Vec::with_capacity(alloc, findings.len())?;
    for finding in findings {
        found.push(finding_of_c(finding))?;
    }
    Ok(found)
}

fn finding_of_c(finding: &cms_check::Finding) -> Finding
    ensures { result ≡ finding_of_c finding.now }
{
    Finding {
        signer: finding.signer.unwrap_or(0),
        code: u32::from(finding.code),
        has_signer: u32::from(finding.signer.is_some()),
    }
}
