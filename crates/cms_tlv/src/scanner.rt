//! Which of the octets at hand are taken.
ghost use Rattle.std.specs.Prelude.{ℕ, ◌≤◌, List, length, take};
ghost use Rattle.cms_tlv.specs.Headers.{AreOctets};

/// Says how many of some octets are to be taken.
pub trait Scanner {
    // Octets that it may accept.
    ghost accepts: { Self → List ℕ → Type 0 };

    /// How many of `octets` are accepted, from the first one on.
    fn accept(&self, octets: &[u8]) -> usize
        ensures fits { result ≤ length octets.now }
        ensures accepted { accepts self.now (take result octets.now) };
}

/// Accepts any octets, up to a given number.
#[derive(Drop)]
pub(crate) struct AtMost {
    pub(crate) octets: usize,
}

impl Scanner for AtMost {
    ghost accepts = { λ most b. (length b ≤ most.octets) × AreOctets b };

    fn accept(&self, octets: &[u8]) -> usize {
        self.octets.min(octets.len())
    }
}
