//! Changes as JSON.
ghost use Rattle.std.specs.Prelude.{◌≡◌, OnOk, OnErr};
ghost use Rattle.std.specs.String.{string_bytes};
ghost use Rattle.cms_fields.specs.Writing.{Grew};

use super::change::{Change, ChangeKind};
use super::origins::Origins;
use super::text::{SHOWN, name_of, name_of_set};
use super::within::changes_by;
use crate::json::{append_first, append_member};
use crate::lines::hand_over;
use cms_setof::Piece;
use std::alloc::{AllocError, Global};

/// Appends the changes from the octets of a message to its DER as one JSON object, and a line feed.
/// `pieces` says of which pieces the DER is put together. An error means out of memory; `out` is then as
/// it was.
pub fn list_changes_as_json(
    alloc: Global,
    octets: &[u8],
    der: &[u8],
    pieces: &[Piece],
    out: &mut String,
) -> Result<(), AllocError>
    ensures ok { OnOk result (Grew (string_bytes out.old) (string_bytes out.new)) }
    ensures err { OnErr result (string_bytes out.new ≡ string_bytes out.old) }
{
    let mut text = String::new(alloc);
    append_changes(alloc, octets, der, pieces, &mut text)?;
    hand_over(text, out)
}

fn append_changes(
    alloc: Global,
    octets: &[u8],
    der: &[u8],
    pieces: &[Piece],
    text: &mut String,
) -> Result<(), AllocError> {
    let origins = Origins::new(alloc, octets, pieces)?;
    let changes = changes_by(alloc, octets, der, &origins)?;
    text.push_str("{\"changes\": [")?;
    let mut between = "";
    for change in &changes {
        text.push_str(between)?;
        append_change(change, octets, der, text)?;
        between = ", ";
    }
    text.push(']')?;
    append_member("octets_in", &(octets.len() as u64), text)?;
    append_member("octets_out", &(der.len() as u64), text)?;
    append_member("from_input", &origins.copied, text)?;
    text.push_str("}\n")
}

/// Appends the object of a change.
fn append_change(
    change: &Change,
    octets: &[u8],
    der: &[u8],
    text: &mut String,
) -> Result<(), AllocError> {
    append_first("change", &name_of(change.kind), text)?;
    append_member("at", &(change.at as u64), text)?;
    append_member("length", &(change.length as u64), text)?;
    append_member("to", &(change.to as u64), text)?;
    append_member("to_length", &(change.to_length as u64), text)?;
    append_octets_of(change, octets, der, text)?;
    append_numbers(change, text)?;
    text.push('}')
}

/// Appends what is changed, and what it is changed to, if these octets are shown.
fn append_octets_of(
    change: &Change,
    octets: &[u8],
    der: &[u8],
    text: &mut String,
) -> Result<(), AllocError> {
    match change.kind {
        ChangeKind::SegmentsJoined | ChangeKind::Moved => Ok(()),
        ChangeKind::DefaultOmitted => append_member("before", &shown(change.before(octets)), text),
        _ => {
            append_member("before", &shown(change.before(octets)), text)?;
            append_member("after", &shown(change.after(der)), text)
        }
    }
}

/// Appends the numbers of a change, by their names.
fn append_numbers(change: &Change, text: &mut String) -> Result<(), AllocError> {
    match change.kind {
        ChangeKind::LengthMadeDefinite => append_member("end_of_contents", &change.second, text),
        ChangeKind::SegmentsJoined => {
            append_member("segments", &change.first, text)?;
            append_member("octets", &change.second, text)
        }
        ChangeKind::Moved => append_move(change, text),
        ChangeKind::TrailingZeroBitsRemoved | ChangeKind::UnusedBitsSetToZero => {
            append_member("bits_before", &change.first, text)?;
            append_member("bits_after", &change.second, text)
        }
        _ => Ok(()),
    }
}

fn append_move(change: &Change, text: &mut String) -> Result<(), AllocError> {
    append_member("from_member", &change.first, text)?;
    append_member("to_member", &change.second, text)?;
    let Some(set) = change.set else {
        return Ok(());
    };
    append_member("set", &name_of_set(set), text)
}

/// Of octets those that are shown.
fn shown(octets: &[u8]) -> &[u8] {
    &octets[..octets.len().min(SHOWN)]
}
