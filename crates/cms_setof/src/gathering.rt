//! A sink that gathers.
ghost use Rattle.std.specs.Prelude.{◌≡◌, ◌+◌, ◌++◌, length};
ghost use Rattle.cms_fields.specs.Assembly.{unmarked};
ghost use Rattle.cms_setof.specs.Gathering.{octets_of_parts};

use crate::encoding::{EncodedLen, LongString};
use crate::gathered::Gathered;
use cms_fields::{Sink, Stop, spans_len};
use cms_tlv::{BorrowedSpans, Span};
use std::alloc::{AllocError, Global};

/// Gathers what it takes. It stops if memory runs out.
#[derive(Drop)]
pub(crate) struct Gathering {
    pub(crate) gathered: Gathered,
    count: u64,
    /// How long all of it will be, and which string is to be borrowed.
    len: EncodedLen,
    alloc: Global,
}

impl Gathering {
    ghost use Rattle.std.specs.Prelude.{◌≡◌, ℕ, List, [], IfOk, IfSome};
    ghost use Rattle.cms_setof.specs.Gathering.{octets_of_parts};

    /// Nothing yet, with room for an encoding of this length. An error means out of memory.
    pub(crate) fn new(alloc: Global, len: EncodedLen) -> Result<Gathering, AllocError>
        ensures { (k : List ℕ) → IfOk result (λ g. octets_of_parts k g.gathered ≡ []) }
    {
        let room = match len.long_string {
            Some(string) => string.after,
            None => len.octets,
        };
        Ok(Gathering {
            gathered: Gathered::with_room(alloc, room as usize)?,
            count: 0,
            len,
            alloc,
        })
    }

    /// The string that is to be borrowed, if it is the next one.
    fn next_to_borrow(&self) -> Option<LongString>
        ensures { IfSome result (λ s. (self.now.gathered.1.0 ≡ []) × (self.now.gathered.1.1 ≡ [])) }
    {
        let string = self.len.long_string?;
        let is_next = string.after == self.count
            && self.gathered.borrowed.is_empty()
            && self.gathered.after.octets().is_empty();
        if is_next { Some(string) } else { None }
    }
}

impl Sink for Gathering {
    ghost taking = { record {
      puts = λ k s q t.
          (octets_of_parts k t.gathered ≡ unmarked q ++ octets_of_parts k s.gathered)
          × (t.count ≡ s.count + length q);
      count = λ s. s.count;
      stops = λ n. Unit {0};
    } };

    fn count(&self) -> u64 {
        self.count
    }

    fn octets(&mut self, _: &[u8], octets: &[u8]) -> Result<(), Stop> {
        let count = self.count.checked_add(octets.len() as u64).ok_or(Stop)?;
        self.gathered.before.put(octets)?;
        self.count = count;
        Ok(())
    }

    fn span(&mut self, kept: &[u8], span: Span) -> Result<(), Stop> {
        self.octets(kept, span.octets(kept))
    }

    fn spans_at_once(&mut self, kept: &[u8], spans: BorrowedSpans<'_>) -> Result<bool, Stop> {
        let Some(string) = self.next_to_borrow() else {
            return Ok(false);
        };
        let octets = spans_len(spans, kept);
        let count = self.count.checked_add(octets).ok_or(Stop)?;
        if octets == u64::MAX {
            return Err(Stop);
        }
        let room = self
            .len
            .octets
            .saturating_sub(string.after)
            .saturating_sub(octets);
        self.gathered.borrow(spans, room as usize, self.alloc)?;
        self.count = count;
        Ok(true)
    }

    fn sort(&mut self, kept: &[u8], from: u64) -> Result<(), Stop> {
        let n = self.count.saturating_sub(from);
        let alloc = self.alloc;
        self.gathered.sort_first(n, kept, alloc)?;
        Ok(())
    }

    fn law() {}
}
