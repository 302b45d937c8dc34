//! What a check reports.
ghost use Rattle.std.specs.Prelude.{◌≡◌, List};
ghost use Rattle.cms_check.specs.declared.report.Finding.{Finding};

use std::marker::Model;

/// A rule that a message breaks.
#[derive(Clone, Copy, Debug, PartialEq, Eq)]
pub struct Finding {
    /// The rule's number: 1 stands for F1.
    pub code: u8,
    /// The index of the signer that breaks it: signers are counted from 0, in the order read. None for
    /// a rule for the message.
    pub signer: Option<u64>,
}

/// The rules that a message breaks.
#[derive(Debug, Drop)]
pub struct Report {
    pub(crate) findings: Vec<Finding>,
}

impl Model for Report {
    ghost Value = { List Finding };

    ghost view = { λ x. x.findings.items };
}

impl Report {
    /// The rules that are broken: first those for the message, then those for each signer in the order
    /// read; both are ordered by number.
    pub fn findings(&self) -> &[Finding]
        ensures { result.now ≡ self.now }
    {
        &self.findings
    }
}
