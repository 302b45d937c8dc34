//! A sink that compares.
ghost use Rattle.std.specs.Prelude.{◌≡◌, ◌+◌, ◌++◌, length, take};
ghost use Rattle.cms_fields.specs.Assembly.{unmarked};

use crate::ascending::frames_ascend;
use cms_fields::{Sink, Stop};
use cms_tlv::{BorrowedSpans, Span};

/// Compares what it takes with the kept octets, backwards from a place, and stops if they differ. Kept
/// octets are compared by their places alone.
#[derive(Drop)]
pub(crate) struct Comparing {
    /// Where what it took begins.
    pub(crate) at: usize,
    pub(crate) count: u64,
}

impl Comparing {
    ghost use Rattle.std.specs.Prelude.{◌≡◌, ◌+◌, OnOk};

    /// Goes back by `n` octets, to `start`.
    fn go_back(&mut self, start: usize, n: u64) -> Result<(), Stop>
        ensures { OnOk result ((self.new.at ≡ start) × (self.new.count ≡ self.old.count + n)) }
    {
        match self.count.checked_add(n) {
            Some(count) => {
                self.count = count;
                self.at = start;
                Ok(())
            }
            None => Err(Stop),
        }
    }
}

impl Sink for Comparing {
    ghost taking = { record {
      puts = λ k s q t. (take s.at k ≡ take t.at k ++ unmarked q)
          × (t.count ≡ s.count + length q);
      count = λ s. s.count;
      stops = λ n. Unit {0};
    } };

    fn count(&self) -> u64 {
        self.count
    }

    fn octets(&mut self, kept: &[u8], octets: &[u8]) -> Result<(), Stop> {
        if octets.len() > self.at || self.at > kept.len() {
            return Err(Stop);
        }
        let start = self.at - octets.len();
        if &kept[start..self.at] == octets {
            self.go_back(start, octets.len() as u64)
        } else {
            Err(Stop)
        }
    }

    fn span(&mut self, kept: &[u8], span: Span) -> Result<(), Stop> {
        if span.end != self.at || span.start > span.end || span.end > kept.len() {
            return Err(Stop);
        }
        self.go_back(span.start, (span.end - span.start) as u64)
    }

    fn spans_at_once(&mut self, _: &[u8], _: BorrowedSpans<'_>) -> Result<bool, Stop> {
        Ok(false)
    }

    fn sort(&mut self, kept: &[u8], from: u64) -> Result<(), Stop> {
        let n = self.count.saturating_sub(from);
        if self.at > kept.len() || n > (kept.len() - self.at) as u64 {
            return Err(Stop);
        }
        if frames_ascend(&kept[self.at..self.at + n as usize]) {
            Ok(())
        } else {
            Err(Stop)
        }
    }

    fn law() {}
}
