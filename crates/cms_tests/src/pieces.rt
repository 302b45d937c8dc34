//! Of which of its octets, and of which made ones, the DER of a message is put together.

use crate::asserts::assert_same;
use crate::samples::message_of;
use cms_canon::{Message, put_message};
use cms_setof::Piece;
use std::alloc::{AllocError, Global};
use std::process::Abort;
use std::test::Fail;

/// A ContentInfo whose content is in segments, with indefinite lengths.
const INDEFINITE: &str = "308006092a864886f70d010702a080308002010131003080\
    06092a864886f70d010701a08024800402686904012100000000000031000000000000\
    00";

/// Its DER.
const DEFINITE: &str =
    "302a06092a864886f70d010702a01d301b0201013100301206092a864886f70d010701a00504036869213100";

/// How many octets are made, or where they start and end in the message.
type Shown = (Option<usize>, usize, usize);

/// What these pieces show.
fn shown(alloc: Global, pieces: &[Piece]) -> Result<Vec<Shown>, AllocError> {
    let mut all = Vec::new(alloc);
    for piece in pieces {
        match piece {
            Piece::Copied(span) => all.push((None, span.start, span.end))?,
            Piece::Made(octets) => all.push((Some(octets.len()), 0, 0))?,
        }
    }
    Ok(all)
}

/// Asserts that the pieces of a message show this, and are its DER.
fn assert_pieces(
    rt: &(impl Abort + AllocGlobal),
    message: &Message,
    wanted: &[Shown],
    name: &str,
) -> Result<(), Fail> {
    let pieces = message.pieces(rt.alloc())?;
    assert_same(rt, shown(rt.alloc(), &pieces)?.as_slice(), wanted, name);
    let mut octets = Vec::new(rt.alloc());
    for piece in &pieces {
        octets.extend_from_slice(piece.octets(message.octets()))?;
    }
    let mut der = Vec::new(rt.alloc());
    put_message(rt.alloc(), message, &mut der)?;
    assert_same(rt, octets.as_slice(), der.as_slice(), name);
    Ok(())
}

/// A header is made but for what is the same beside what is copied. Segments are copied.
#[test]
fn pieces_of_a_message(rt: HostRuntime) -> Result<(), Fail> {
    let message = message_of(rt.alloc(), INDEFINITE)?;
    let wanted = [
        (Some(2), 0, 0),
        (None, 2, 14),
        (Some(3), 0, 0),
        (None, 17, 23),
        (Some(1), 0, 0),
        (None, 24, 36),
        (Some(3), 0, 0),
        (None, 41, 43),
        (None, 45, 46),
        (Some(2), 0, 0),
    ];
    assert_pieces(&rt, &message, &wanted, "indefinite lengths")
}

/// DER is one piece.
#[test]
fn pieces_of_der(rt: HostRuntime) -> Result<(), Fail> {
    let message = message_of(rt.alloc(), DEFINITE)?;
    let wanted = [(None, 0, message.octets().len())];
    assert_pieces(&rt, &message, &wanted, "definite lengths")
}
