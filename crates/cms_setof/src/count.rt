//! A sink that counts.
ghost use Rattle.std.specs.Prelude.{◌≡◌, ◌≤◌, ◌+◌, length};

use crate::encoding::LongString;
use cms_fields::{Sink, Stop, spans_len};
use cms_tlv::{BorrowedSpans, Span};

/// A string is borrowed only if it has at least this many octets.
const LONG: u64 = 0x1_0000;

/// A string is borrowed only if its spans have at least this many octets each, on average.
const LONG_SPAN: u64 = 64;

/// Counts octets. It stops at 2^64 octets or more, and may stop at one fewer.
#[derive(Drop)]
pub(crate) struct Count {
    pub(crate) octets: u64,
    /// The longest string that is not in a set.
    pub(crate) long_string: Option<LongString>,
}

impl Count {
    /// Notes a string of so many octets in so many spans, which comes before those that were counted.
    fn note(&mut self, octets: u64, spans: u64)
        ensures { self.new.octets ≡ self.old.octets }
    {
        let longest = match self.long_string {
            Some(string) => string.octets,
            None => 0,
        };
        if octets >= LONG && octets / LONG_SPAN >= spans && octets > longest {
            self.long_string = Some(LongString {
                octets,
                after: self.octets,
            });
        }
    }

    /// Forgets the long string if it is among the octets after the first `from`, which are a set: these
    /// are sorted in place once they are gathered, so that nothing of them is borrowed.
    fn forget_after(&mut self, from: u64)
        ensures { self.new.octets ≡ self.old.octets }
    {
        let is_in_set = match self.long_string {
            Some(string) => string.after >= from,
            None => false,
        };
        if is_in_set {
            self.long_string = None;
        }
    }
}

impl Sink for Count {
    ghost taking = { record {
      puts = λ k s q t. t.octets ≡ s.octets + length q;
      count = λ s. s.octets;
      stops = λ n. 0xFFFF_FFFF_FFFF_FFFF ≤ n;
    } };

    fn count(&self) -> u64 {
        self.octets
    }

    fn octets(&mut self, _: &[u8], octets: &[u8]) -> Result<(), Stop> {
        self.octets = self.octets.checked_add(octets.len() as u64).ok_or(Stop)?;
        Ok(())
    }

    fn span(&mut self, kept: &[u8], span: Span) -> Result<(), Stop> {
        self.octets(kept, span.octets(kept))
    }

    fn spans_at_once(&mut self, kept: &[u8], spans: BorrowedSpans<'_>) -> Result<bool, Stop> {
        let octets = spans_len(spans, kept);
        let sum = self.octets.checked_add(octets).ok_or(Stop)?;
        if octets == u64::MAX {
            return Err(Stop);
        }
        self.note(octets, spans.len());
        self.octets = sum;
        Ok(true)
    }

    fn sort(&mut self, _: &[u8], from: u64) -> Result<(), Stop> {
        self.forget_after(from);
        Ok(())
    }

    fn law() {}
}
