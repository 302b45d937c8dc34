//! What conversion changes in a message.
//!
//! Which changes there are is tested and not defined, since a definition would only repeat the code.
ghost use Rattle.std.specs.Prelude.{◌≡◌, ℕ, List, IfOk};
ghost use Rattle.std.specs.List.{All};
ghost use Rattle.cms_fields.specs.Assembly.{unmarked};
ghost use Rattle.cms_setof.specs.Pieces.{marked_pieces};
ghost use Rattle.cms_listing.specs.Changes.{LiesIn};
ghost use Rattle.cms_canon.specs.Messages.{IsDerOf};

use crate::message::Message;
use cms_listing::{Change, find_changes, list_changes, list_changes_as_json};
use cms_setof::Piece;
use std::alloc::{AllocError, Global};

/// The changes from the octets of a message to its DER, in the order of their places in the message. An
/// error means out of memory.
pub fn changes_of(alloc: Global, message: &Message) -> Result<Vec<Change>, AllocError>
    ensures { IfOk result (λ v. (der : List ℕ) × IsDerOf message.now.value der
        × All (LiesIn message.now.octets der) v.items) }
{
    let pieces = message.pieces(alloc)?;
    let der = joined(alloc, &pieces, message.octets())?;
    find_changes(alloc, message.octets(), &der, &pieces)
}

/// These changes as text: a line for each, and one that counts them and the octets, as docs/FORMATS.md
/// has it. An error means out of memory.
pub fn listing_of_changes(alloc: Global, message: &Message) -> Result<String, AllocError> {
    let pieces = message.pieces(alloc)?;
    let der = joined(alloc, &pieces, message.octets())?;
    let mut text = String::new(alloc);
    list_changes(alloc, message.octets(), &der, &pieces, &mut text)?;
    Ok(text)
}

/// These changes as one JSON object and a line feed, as docs/FORMATS.md has it. An error means out of
/// memory.
pub fn json_of_changes(alloc: Global, message: &Message) -> Result<String, AllocError> {
    let pieces = message.pieces(alloc)?;
    let der = joined(alloc, &pieces, message.octets())?;
    let mut text = String::new(alloc);
    list_changes_as_json(alloc, message.octets(), &der, &pieces, &mut text)?;
    Ok(text)
}

/// The octets of pieces, one after another. An error means out of memory.
fn joined(alloc: Global, pieces: &[Piece], octets: &[u8]) -> Result<Vec<u8>, AllocError>
    ensures { IfOk result (λ v. v.items ≡ unmarked (marked_pieces octets.now pieces.now)) }
{
    let mut all = Vec::new(alloc);
    for piece in pieces {
        all.extend_from_slice(piece.octets(octets))?;
    }
    Ok(all)
}
