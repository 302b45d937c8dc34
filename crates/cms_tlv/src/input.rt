//! What octets are read from.
//!
//! `at_hand` and `advance` have no defaults: a default is proved for every reader, and could not show
//! that nothing is at hand.
ghost use Rattle.std.specs.Prelude.{◌≡◌, ℕ, ◌≤◌, List, Option, Some, length, take, IfOk};
ghost use Rattle.std.specs.Io.KnownBytes.{Consumes, ReadConsumes};
ghost use Rattle.cms_tlv.specs.Streams.{Counts};

/// A reader whose failures are counted.
pub trait Input {
    // The octets that it will give from here on, if they are known.
    ghost left: { Self → Option (List ℕ) };

    // How often it failed so far.
    ghost failures: { Self → ℕ };

    // The octets that are at hand.
    ghost held: { Self → List ℕ };

    /// Fills a prefix of `octets` and returns how many octets that is. If `octets` is not empty, 0 says
    /// that the input has ended. An error gives no octet, and raises the count of failures by one,
    /// until the count is `u64::MAX`.
    fn take(&mut self, octets: &mut [u8]) -> Result<usize, ()>
        ensures count { IfOk result (λ n. n ≤ length octets.new) }
        ensures octets { ReadConsumes (left self.old) (left self.new) result octets.new }
        ensures failures { Counts (failures self.old) (failures self.new) result };

    /// The octets that are at hand, the next one first. A reader that never has an octet at hand returns
    /// none.
    fn at_hand(&self) -> &[u8]
        ensures { result.now ≡ held self.now };

    /// Takes the first `n` of the octets at hand, or all of them if they are fewer. This asks for no
    /// octet and cannot fail.
    fn advance(&mut self, n: usize)
        ensures octets { Consumes (left self.old) (left self.new) (take n (held self.old)) }
        ensures failures { failures self.new ≡ failures self.old };
}

/// An input over octets in memory, which never fails.
#[derive(Drop)]
pub struct Slice<'a> {
    rest: &'a [u8],
}

impl<'a> Slice<'a> {
    ghost use Rattle.cms_tlv.specs.Slices.{rest_of};

    /// An input that gives `octets` in order, and then ends.
    pub fn new(octets: &'a [u8]) -> Slice<'a>
        ensures { rest_of result ≡ octets.now }
    {
        Slice { rest: octets }
    }
}

impl<'a> Input for Slice<'a> {
    ghost use Rattle.cms_tlv.specs.Slices.{rest_of};

    ghost left = { λ s. Some (rest_of s) };

    ghost failures = { λ s. 0 };

    ghost held = { λ s. rest_of s };

    fn take(&mut self, octets: &mut [u8]) -> Result<usize, ()> {
        let n = octets.len().min(self.rest.len());
        let (given, rest) = self.rest.split_at(n);
        octets[..n].copy_from_slice(given);
        self.rest = rest;
        Ok(n)
    }

    fn at_hand(&self) -> &[u8] {
        self.rest
    }

    fn advance(&mut self, n: usize) {
        let (_, rest) = self.rest.split_at(n.min(self.rest.len()));
        self.rest = rest;
    }
}
