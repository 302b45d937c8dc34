//! The lines of findings.
ghost use Rattle.std.specs.Prelude.{◌≡◌, OnOk, OnErr};
ghost use Rattle.std.specs.String.{string_bytes};
ghost use Rattle.cms_fields.specs.Writing.{Grew};

use crate::lines::hand_over;
use crate::values::Listed;
use cms_check::Finding;
use std::alloc::{AllocError, Global};

/// Appends a line for each finding, or `no findings` if there are none. An error means out of memory;
/// `out` is then as it was.
pub fn list_findings(
    alloc: Global,
    findings: &[Finding],
    out: &mut String,
) -> Result<(), AllocError>
    ensures ok { OnOk result (Grew (string_bytes out.old) (string_bytes out.new)) }
    ensures err { OnErr result (string_bytes out.new ≡ string_bytes out.old) }
{
    let mut text = String::new(alloc);
    append_findings(findings, &mut text)?;
    hand_over(text, out)
}

fn append_findings(findings: &[Finding], text: &mut String) -> Result<(), AllocError> {
    if findings.is_empty() {
        return text.push_str("no findings\n");
    }
    for finding in findings {
        append_finding(finding, text)?;
    }
    Ok(())
}

fn append_finding(finding: &Finding, text: &mut String) -> Result<(), AllocError> {
    text.push('F')?;
    u64::from(finding.code).append(text)?;
    if let Some(signer) = finding.signer {
        text.push_str(" signer ")?;
        signer.append(text)?;
    }
    text.push(' ')?;
    text.push_str(meaning(finding.code))?;
    text.push('\n')
}

/// What the finding with this number says.
fn meaning(code: u8) -> &'static str {
    match code {
        1 => "version does not follow the version rule",
        2 => "version does not fit the signer identifier",
        3 => "signed attributes missing",
        4 => "content-type attribute not once with one value",
        5 => "content-type attribute names another type",
        6 => "message-digest attribute not once with one octet string",
        7 => "message digest differs",
        8 => "digest algorithm unknown",
        9 => "no content",
        10 => "digest algorithm not listed",
        11 => "not a time-stamp token",
        12 => "token has not one signer",
        13 => "content is not a TSTInfo in DER",
        14 => "imprint differs",
        15 => "no signing-certificate attribute",
        16 => "no certificate has the hash",
        17 => "verifier says bad",
        18 => "verifier says unknown",
        19 => "token does not fit the status",
        _ => "unknown finding",
    }
}
