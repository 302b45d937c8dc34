//! The changes of a message.
ghost use Rattle.std.specs.Prelude.{◌≡◌, ◌+◌, ◌≤◌, true, IfOk};
ghost use Rattle.std.specs.List.{All};
ghost use Rattle.cms_listing.specs.Changes.{LiesIn};

use super::change::Change;
use super::origins::Origins;
use super::tour::walked;
use cms_setof::Piece;
use std::alloc::{AllocError, Global};

/// The changes from the octets of a message to its DER, in the order of their places in the message;
/// `pieces` says of which pieces the DER is put together. An error means out of memory.
pub fn find_changes(
    alloc: Global,
    octets: &[u8],
    der: &[u8],
    pieces: &[Piece],
) -> Result<Vec<Change>, AllocError>
    ensures { IfOk result (λ v. All (LiesIn octets.now der.now) v.items) }
{
    let origins = Origins::new(alloc, octets, pieces)?;
    changes_by(alloc, octets, der, &origins)
}

/// Those by the origins of the DER. An error means out of memory.
pub(super) fn changes_by(
    alloc: Global,
    octets: &[u8],
    der: &[u8],
    origins: &Origins,
) -> Result<Vec<Change>, AllocError>
    ensures { IfOk result (λ v. All (LiesIn octets.now der.now) v.items) }
{
    let mut changes = walked(alloc, octets, der, origins)?;
    // All do. This test is what shows it.
    changes.retain(|change| lies_within(change, octets.len(), der.len()));
    Ok(changes)
}

/// Whether what is changed lies in the octets of the message, and what it is changed to in those of the
/// DER, of which there are so many.
fn lies_within(change: &Change, octets: usize, der: usize) -> bool
    ensures { result ≡ true → (change.now.at + change.now.length ≤ octets)
        × (change.now.to + change.now.to_length ≤ der) }
{
    change.at <= octets
        && change.length <= octets - change.at
        && change.to <= der
        && change.to_length <= der - change.to
}
