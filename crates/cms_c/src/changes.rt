//! What conversion changes in a message.
ghost use Rattle.std.specs.Prelude.{◌≡◌, map, IfOk, IfErr, OnOk};
ghost use Rattle.cms_canon.specs.Kinds.{MessageValue};
ghost use Rattle.cms_c.specs.Calls.{FailsBy, IsAccepted, IsListing, limit_of_c};
ghost use Rattle.cms_c.specs.Changes.{AreChanges, AreChangesOfInput, change_of_c, number_of_kind, number_of_set};

use crate::given::message_in;
use crate::outcome::Outcome;
use cms_canon::{changes_of, json_of_changes, listing_of_changes};
use cms_listing::{ChangeKind, SetName};
use cms_tlv::Fault;
use std::alloc::{AllocError, Global};

/// A change from a message to its DER.
#[repr(C)]
#[derive(Clone, Copy)]
pub struct Change {
    /// What is changed: 1 to 9, in the order of `ChangeKind`.
    pub kind: u64,
    /// Where it begins in the message, from 0.
    pub place: u64,
    /// How many octets it has there.
    pub length: u64,
    /// Where it begins in the DER.
    pub der_place: u64,
    /// How many octets it has there.
    pub der_length: u64,
    /// A number, by the kind.
    pub first: u64,
    /// Another number, by the kind.
    pub second: u64,
    /// The set whose member is moved: 1 to 6, in the order of `SetName`; else 0.
    pub set: u64,
}

/// Writes the changes from the one message in `input` to its DER to the beginning of `changes`, in the
/// order of their places in `input`.
///
/// The message and its DER have at most `limit` octets; a limit above 2^40 counts as 2^40. If the
/// message is refused, memory runs out, or the changes do not fit into `changes`, nothing is written.
#[unsafe(no_mangle)]
pub extern "C" fn cms_canon_changes(
    alloc: Global,
    input: &[u8],
    limit: u64,
    changes: &mut [Change],
    outcome: &mut Outcome,
)
    ensures { AreChanges input.now (limit_of_c limit) changes.old changes.new outcome.new }
{
    *outcome = match changes_in(alloc, input, limit) {
        Ok(found) => Outcome::delivered(&found, changes),
        Err(fault) => Outcome::of_fault(fault),
    };
}

/// Writes these changes to the beginning of `output`, in UTF-8: a line for each, and one that counts them
/// and the octets; or one JSON object and a line feed, if `json` is true.
///
/// The message and its DER have at most `limit` octets; a limit above 2^40 counts as 2^40. If the
/// message is refused, memory runs out, or the text does not fit into `output`, nothing is written.
#[unsafe(no_mangle)]
pub extern "C" fn cms_canon_list_changes(
    alloc: Global,
    input: &[u8],
    json: bool,
    limit: u64,
    output: &mut [u8],
    outcome: &mut Outcome,
)
    ensures { IsListing input.now (limit_of_c limit) output.old output.new outcome.new }
{
    *outcome = match listed(alloc, input, json, limit) {
        Ok(text) => Outcome::delivered(text.as_bytes(), output),
        Err(fault) => Outcome::of_fault(fault),
    };
}

fn listed(alloc: Global, input: &[u8], json: bool, limit: u64) -> Result<String, Fault>
    ensures ok { OnOk result ((v : MessageValue) × IsAccepted input.now (limit_of_c limit) v) }
    ensures err { IfErr result (FailsBy input.now (limit_of_c limit)) }
{
    let message = message_in(alloc, input, limit)?;
    let text = if json {
        json_of_changes(alloc, &message)
    } else {
        listing_of_changes(alloc, &message)
    };
    text.map_err(|_| Fault::OutOfMemory)
}

/// The changes of the message in `input`.
fn changes_in(alloc: Global, input: &[u8], limit: u64) -> Result<Vec<Change>, Fault>
    ensures ok { IfOk result (λ v. AreChangesOfInput input.now (limit_of_c limit) v.items) }
    ensures err { IfErr result (FailsBy input.now (limit_of_c limit)) }
{
    let message = message_in(alloc, input, limit)?;
    let Ok(changes) = changes_of(alloc, &message) else {
        return Err(Fault::OutOfMemory);
    };
    let Ok(all) = changes_of_c(alloc, &changes) else {
        return Err(Fault::OutOfMemory);
    };
    Ok(all)
}

/// The changes as C has them. An error means out of memory.
fn changes_of_c(alloc: Global, changes: &[cms_listing::Change]) -> Result<Vec<Change>, AllocError>
    ensures { IfOk result (λ v. v.items ≡ map change_of_c changes.now) }
{
    let mut all = Vec::with_capacity(alloc, changes.len())?;
    for change in changes {
        all.push(change_of_c(change))?;
    }
    Ok(all)
}

/// A change as C has it.
fn change_of_c(change: &cms_listing::Change) -> Change
    ensures { result ≡ change_of_c change.now }
{
    Change {
        kind: number_of_kind(change.kind),
        place: change.at as u64,
        length: change.length as u64,
        der_place: change.to as u64,
        der_length: change.to_length as u64,
        first: change.first,
        second: change.second,
        set: number_of_set(change.set),
    }
}

fn number_of_kind(kind: ChangeKind) -> u64
    ensures { result ≡ number_of_kind kind }
{
    match kind {
        ChangeKind::LengthMadeDefinite => 1,
        ChangeKind::LengthInFewestOctets => 2,
        ChangeKind::LengthOfWhatIsInside => 3,
        ChangeKind::SegmentsJoined => 4,
        ChangeKind::Moved => 5,
        ChangeKind::Boolean => 6,
        ChangeKind::DefaultOmitted => 7,
        ChangeKind::TrailingZeroBitsRemoved => 8,
        ChangeKind::UnusedBitsSetToZero => 9,
    }
}

fn number_of_set(set: Option<SetName>) -> u64
    ensures { result ≡ number_of_set set }
{
    match set {
        None => 0,
        Some(SetName::DigestAlgorithms) => 1,
        Some(SetName::Certificates) => 2,
        Some(SetName::Crls) => 3,
        Some(SetName::SignerInfos) => 4,
        Some(SetName::UnsignedAttrs) => 5,
        Some(SetName::AttrValues) => 6,
    }
}
