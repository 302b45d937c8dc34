//! From where in a message the octets of its DER are copied.

use cms_setof::Piece;
use std::alloc::{AllocError, Global};

/// A piece.
#[derive(Clone, Copy)]
struct Origin {
    /// Where it ends in the DER.
    end: usize,
    /// Where it begins there.
    begin: usize,
    /// Where it is copied from, if it is.
    from: Option<usize>,
}

/// The pieces of which the DER is put together.
#[derive(Drop)]
pub(super) struct Origins {
    pieces: Vec<Origin>,
    /// How many octets are copied.
    pub(super) copied: u64,
}

impl Origins {
    /// Those of these pieces of `octets`. An error means out of memory.
    pub(super) fn new(
        alloc: Global,
        octets: &[u8],
        pieces: &[Piece],
    ) -> Result<Origins, AllocError> {
        let mut all = Vec::with_capacity(alloc, pieces.len())?;
        let mut begin: usize = 0;
        let mut copied: u64 = 0;
        for piece in pieces {
            let length = piece.octets(octets).len();
            let end = begin.saturating_add(length);
            let from = start_of(piece);
            if from.is_some() {
                copied = copied.saturating_add(length as u64);
            }
            all.push(Origin { end, begin, from })?;
            begin = end;
        }
        Ok(Origins {
            pieces: all,
            copied,
        })
    }

    /// The piece that an octet of the DER lies in.
    fn at(&self, place: usize) -> Option<Origin> {
        let number = self.pieces.partition_point(|piece| piece.end <= place);
        self.pieces.get(number).copied()
    }

    /// Where an octet of the DER is copied from.
    pub(super) fn source(&self, place: usize) -> Option<usize> {
        let piece = self.at(place)?;
        piece.from?.checked_add(place.saturating_sub(piece.begin))
    }

    /// Whether these octets of the DER are copied as one from `start` on.
    pub(super) fn are_copied(&self, begin: usize, end: usize, start: usize) -> bool {
        match self.at(begin) {
            Some(piece) => end <= piece.end && self.source(begin) == Some(start),
            None => false,
        }
    }
}

/// Where a piece begins in the message, if it is copied.
fn start_of(piece: &Piece) -> Option<usize> {
    match piece {
        Piece::Copied(span) => Some(span.start),
        Piece::Made(_) => None,
    }
}
