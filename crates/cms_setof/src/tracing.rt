//! A sink that says where octets come from.
ghost use Rattle.std.specs.Prelude.{◌≡◌, ◌+◌, ◌++◌, length};
ghost use Rattle.cms_setof.specs.internal.Tracing.{stacked};

use crate::members::sort_first;
use crate::piece::Piece;
use crate::stack::put_first;
use cms_fields::{Sink, Stop};
use cms_tlv::{BorrowedSpans, Span};
use std::alloc::Global;

/// Collects what it takes in pieces. It stops if memory runs out.
#[derive(Drop)]
pub(crate) struct Tracing {
    /// The last one comes first.
    pub(crate) pieces: Vec<Piece>,
    count: u64,
    alloc: Global,
}

impl Tracing {
    ghost use Rattle.std.specs.Prelude.{◌≡◌, []};

    /// Nothing yet.
    pub(crate) fn new(alloc: Global) -> Tracing
        ensures { result.pieces.items ≡ [] }
    {
        Tracing {
            pieces: Vec::new(alloc),
            count: 0,
            alloc,
        }
    }
}

impl Sink for Tracing {
    ghost taking = { record {
      puts = λ k s q t. (stacked k t.pieces.items ≡ q ++ stacked k s.pieces.items)
          × (t.count ≡ s.count + length q);
      count = λ s. s.count;
      stops = λ n. Unit {0};
    } };

    fn count(&self) -> u64 {
        self.count
    }

    fn octets(&mut self, _: &[u8], octets: &[u8]) -> Result<(), Stop> {
        let count = self.count.checked_add(octets.len() as u64).ok_or(Stop)?;
        put_first(Piece::made(octets, self.alloc)?, &mut self.pieces)?;
        self.count = count;
        Ok(())
    }

    fn span(&mut self, kept: &[u8], span: Span) -> Result<(), Stop> {
        let n = span.octets(kept).len() as u64;
        let count = self.count.checked_add(n).ok_or(Stop)?;
        put_first(Piece::Copied(span), &mut self.pieces)?;
        self.count = count;
        Ok(())
    }

    fn spans_at_once(&mut self, _: &[u8], _: BorrowedSpans<'_>) -> Result<bool, Stop> {
        Ok(false)
    }

    fn sort(&mut self, kept: &[u8], from: u64) -> Result<(), Stop> {
        let n = self.count.saturating_sub(from);
        let alloc = self.alloc;
        sort_first(&mut self.pieces, n as usize, kept, alloc)?;
        Ok(())
    }

    fn law() {}
}
