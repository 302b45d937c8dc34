//! A piece of an encoding.
ghost use Rattle.std.specs.Prelude.{◌≡◌, ◌++◌, ◌<◌, ℕ, List, length, IfOk};
ghost use Rattle.cms_fields.specs.Assembly.{marked, made, unmarked};
ghost use Rattle.cms_setof.specs.Pieces.{marked_piece};

use cms_tlv::Span;
use std::alloc::{AllocError, Global};

/// A piece of an encoding: octets of the input, or octets that are made.
#[derive(Drop)]
pub enum Piece {
    /// The octets that a span names.
    Copied(Span),
    /// These octets.
    Made(Vec<u8>),
}

impl Piece {
    /// A piece that has these octets, which are made. An error means out of memory.
    pub(crate) fn made(octets: &[u8], alloc: Global) -> Result<Piece, AllocError>
        ensures { IfOk result (λ p. (k : List ℕ) → marked_piece k p ≡ marked made octets.now) }
    {
        let mut own = Vec::with_capacity(alloc, octets.len())?;
        own.extend_from_slice(octets)?;
        Ok(Piece::Made(own))
    }

    /// Its octets; `kept` is what its span names octets of.
    pub fn octets<'a>(&'a self, kept: &'a [u8]) -> &'a [u8]
        ensures { result.now ≡ unmarked (marked_piece kept.now self.now) }
    {
        match self {
            Piece::Copied(span) => span.octets(kept),
            Piece::Made(octets) => octets,
        }
    }

    /// The first `n` octets as one piece, and the others as one. An error means out of memory.
    pub(crate) fn split(self, n: usize) -> Result<(Piece, Piece), AllocError>
        ensures parts { (k : List ℕ) → n < length (marked_piece k self) → IfOk result (λ p.
            marked_piece k self ≡ marked_piece k p.0 ++ marked_piece k p.1) }
        ensures first { (k : List ℕ) → n < length (marked_piece k self) → IfOk result (λ p.
            length (marked_piece k p.0) ≡ n) }
    {
        match self {
            Piece::Copied(Span { start, end }) => {
                let middle = start.saturating_add(n);
                let first = Span { start, end: middle };
                let rest = Span { start: middle, end };
                Ok((Piece::Copied(first), Piece::Copied(rest)))
            }
            Piece::Made(octets) => {
                let mut first = octets;
                let rest = first.split_off(n.min(first.len()))?;
                Ok((Piece::Made(first), Piece::Made(rest)))
            }
        }
    }
}
