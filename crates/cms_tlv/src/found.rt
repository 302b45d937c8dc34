//! What is found at once, if its octets are at hand.
//!
//! What is found has the shortest length and ends before the end and the limit, so that no rule of
//! strictness is in the way. Anything else is read octet by octet, which finds the refusal and its
//! place; so no public contract speaks of what is found.
ghost use Rattle.std.specs.Prelude.{◌≡◌, ℕ, ◌≤◌, ◌∷◌, List, IfSome, length, take};
ghost use Rattle.cms_tlv.specs.internal.Found.{IsFoundHeader, IsPrimitive, IsWhole};

use crate::opaque::{MAX_LEVELS, is_constructed};
use crate::source::PIECE;
use crate::whole::{DEPTH, are_whole, begins_value, short_length};

/// What was found.
#[derive(Clone, Copy)]
pub(crate) struct Found {
    /// How many octets it has after the first one.
    pub(crate) behind: usize,
    /// The first octet.
    pub(crate) ident: u8,
    /// How many octets its contents have.
    pub(crate) len: usize,
}

/// Looks for what begins with a given octet and goes on with octets that are at hand.
pub(crate) trait Seek {
    // What it finds: octets, the first of them, and how many the contents have.
    ghost finds: { Self → List ℕ → ℕ → ℕ → Type 0 };

    /// What begins with `first` and goes on with `octets`, from the first one on.
    fn find(&self, first: u8, octets: &[u8]) -> Option<Found>
        ensures fits { IfSome result (λ f. f.behind ≤ length octets.now) }
        ensures finds { IfSome result (λ f. finds self.now (first ∷ take f.behind octets.now)
            f.ident f.len) };
}

/// Finds a header with an identifier of one octet and the shortest length, in at most three octets.
#[derive(Drop)]
pub(crate) struct HeaderIn {
    /// How many octets the header and the contents may have.
    pub(crate) room: usize,
}

impl Seek for HeaderIn {
    ghost finds = { λ s b i n. IsFoundHeader s.room b i n };

    fn find(&self, first: u8, octets: &[u8]) -> Option<Found> {
        if first % 32 == 31 {
            return None;
        }
        let (len, rest) = short_length(octets)?;
        let behind = octets.len() - rest.len();
        if self.room <= behind || self.room - behind - 1 < len {
            return None;
        }
        Some(Found {
            behind,
            ident: first,
            len,
        })
    }
}

/// Finds a primitive element with the identifier octet `ident` and the shortest length, in at most three
/// octets.
#[derive(Drop)]
pub(crate) struct PrimitiveIn {
    /// How many octets it may have.
    pub(crate) room: usize,
    pub(crate) ident: u8,
}

impl Seek for PrimitiveIn {
    ghost finds = { λ s b i n. IsPrimitive s.room s.ident b n };

    fn find(&self, first: u8, octets: &[u8]) -> Option<Found> {
        if first != self.ident || first % 32 == 31 {
            return None;
        }
        let (len, rest) = short_length(octets)?;
        if rest.len() < len || len as u64 > PIECE {
            return None;
        }
        let behind = octets.len() - rest.len() + len;
        if behind >= self.room {
            return None;
        }
        Some(Found {
            behind,
            ident: first,
            len,
        })
    }
}

/// Finds an element of an opaque value.
#[derive(Drop)]
pub(crate) struct ElementIn {
    /// How many octets it may have.
    pub(crate) room: usize,
}

impl Seek for ElementIn {
    ghost finds = { λ s b i n. IsWhole s.room b };

    fn find(&self, first: u8, octets: &[u8]) -> Option<Found> {
        if !begins_value(first) {
            return None;
        }
        let (len, rest) = short_length(octets)?;
        if rest.len() < len {
            return None;
        }
        let behind = octets.len() - rest.len() + len;
        if self.room <= behind {
            return None;
        }
        if is_constructed(first) && !are_whole(&rest[..len], MAX_LEVELS - 1, DEPTH) {
            return None;
        }
        Some(Found {
            behind,
            ident: first,
            len,
        })
    }
}
