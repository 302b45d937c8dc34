//! Changes as text.
ghost use Rattle.std.specs.Prelude.{◌≡◌, OnOk, OnErr};
ghost use Rattle.std.specs.String.{string_bytes};
ghost use Rattle.cms_fields.specs.Writing.{Grew};

use super::change::{Change, ChangeKind, SetName};
use super::origins::Origins;
use super::within::changes_by;
use crate::lines::hand_over;
use crate::values::Listed;
use cms_setof::Piece;
use std::alloc::{AllocError, Global};

/// Appends a line for each change from the octets of a message to its DER, and one that counts them and
/// the octets; or `no change`. `pieces` says of which pieces the DER is put together. An error means out
/// of memory; `out` is then as it was.
pub fn list_changes(
    alloc: Global,
    octets: &[u8],
    der: &[u8],
    pieces: &[Piece],
    out: &mut String,
) -> Result<(), AllocError>
    ensures ok { OnOk result (Grew (string_bytes out.old) (string_bytes out.new)) }
    ensures err { OnErr result (string_bytes out.new ≡ string_bytes out.old) }
{
    let mut text = String::new(alloc);
    append_changes(alloc, octets, der, pieces, &mut text)?;
    hand_over(text, out)
}

fn append_changes(
    alloc: Global,
    octets: &[u8],
    der: &[u8],
    pieces: &[Piece],
    text: &mut String,
) -> Result<(), AllocError> {
    let origins = Origins::new(alloc, octets, pieces)?;
    let changes = changes_by(alloc, octets, der, &origins)?;
    if changes.is_empty() {
        return text.push_str("no change\n");
    }
    for change in &changes {
        append_change(change, octets, der, text)?;
    }
    append_count(octets.len() as u64, "octet", text)?;
    text.push_str(" in, ")?;
    (der.len() as u64).append(text)?;
    text.push_str(" out, ")?;
    origins.copied.append(text)?;
    text.push_str(" of them from the input, ")?;
    append_count(changes.len() as u64, "change", text)?;
    text.push('\n')
}

/// Appends the line of a change.
fn append_change(
    change: &Change,
    octets: &[u8],
    der: &[u8],
    text: &mut String,
) -> Result<(), AllocError> {
    text.push_str("at ")?;
    (change.at as u64).append(text)?;
    text.push(' ')?;
    text.push_str(name_of(change.kind))?;
    match change.kind {
        ChangeKind::SegmentsJoined => append_segments(change, text)?,
        ChangeKind::Moved => append_move(change, text)?,
        ChangeKind::DefaultOmitted => {
            text.push_str(": ")?;
            append_octets(change.before(octets), text)?;
        }
        ChangeKind::Boolean => {
            text.push(' ')?;
            append_both(change, octets, der, text)?;
        }
        _ => {
            text.push_str(": ")?;
            append_both(change, octets, der, text)?;
        }
    }
    text.push('\n')
}

/// What a change is called.
pub(super) fn name_of(kind: ChangeKind) -> &'static str {
    match kind {
        ChangeKind::LengthMadeDefinite => "length made definite",
        ChangeKind::LengthInFewestOctets => "length in fewest octets",
        ChangeKind::LengthOfWhatIsInside => "length of what is inside",
        ChangeKind::SegmentsJoined => "segments joined",
        ChangeKind::Moved => "moved",
        ChangeKind::Boolean => "BOOLEAN",
        ChangeKind::DefaultOmitted => "default omitted",
        ChangeKind::TrailingZeroBitsRemoved => "trailing zero bits removed",
        ChangeKind::UnusedBitsSetToZero => "unused bits set to zero",
    }
}

/// What the standard calls a set.
pub(super) fn name_of_set(set: SetName) -> &'static str {
    match set {
        SetName::DigestAlgorithms => "digestAlgorithms",
        SetName::Certificates => "certificates",
        SetName::Crls => "crls",
        SetName::SignerInfos => "signerInfos",
        SetName::UnsignedAttrs => "unsignedAttrs",
        SetName::AttrValues => "attrValues",
    }
}

fn append_segments(change: &Change, text: &mut String) -> Result<(), AllocError> {
    text.push_str(": ")?;
    append_count(change.first, "segment", text)?;
    text.push_str(", ")?;
    append_count(change.second, "octet", text)
}

fn append_move(change: &Change, text: &mut String) -> Result<(), AllocError> {
    text.push_str(" from member ")?;
    change.first.append(text)?;
    text.push_str(" to member ")?;
    change.second.append(text)?;
    let Some(set) = change.set else {
        return Ok(());
    };
    text.push_str(" of ")?;
    text.push_str(name_of_set(set))
}

/// Appends what is changed, and what it is changed to.
fn append_both(
    change: &Change,
    octets: &[u8],
    der: &[u8],
    text: &mut String,
) -> Result<(), AllocError> {
    append_octets(change.before(octets), text)?;
    text.push_str(" -> ")?;
    append_octets(change.after(der), text)
}

/// So many octets are shown at most.
pub(super) const SHOWN: usize = 16;

/// Appends octets in hexadecimal, with spaces between them; of many the first ones, and two points.
fn append_octets(octets: &[u8], text: &mut String) -> Result<(), AllocError> {
    let shown = octets.len().min(SHOWN);
    let mut between = "";
    for octet in &octets[..shown] {
        text.push_str(between)?;
        append_octet(*octet, text)?;
        between = " ";
    }
    if shown < octets.len() {
        text.push_str(" ..")?;
    }
    Ok(())
}

/// The digits of hexadecimal.
static DIGITS: [char; 16] = [
    '0', '1', '2', '3', '4', '5', '6', '7', '8', '9', 'a', 'b', 'c', 'd', 'e', 'f',
];

/// Appends an octet in hexadecimal.
fn append_octet(octet: u8, text: &mut String) -> Result<(), AllocError> {
    text.push(DIGITS[(octet / 16) as usize])?;
    text.push(DIGITS[(octet % 16) as usize])
}

/// Appends a number of things, with their name.
fn append_count(count: u64, name: &str, text: &mut String) -> Result<(), AllocError> {
    count.append(text)?;
    text.push(' ')?;
    text.push_str(name)?;
    if count == 1 {
        return Ok(());
    }
    text.push('s')
}
