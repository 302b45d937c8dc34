//! Octet strings in order.
ghost use Rattle.std.specs.Prelude.{◌≡◌, List, ℕ, map, bytes_eq};
ghost use Rattle.std.specs.List.{list_any};
ghost use Rattle.std.specs.List.Sorted.{IsPermutation, IsSortedByKey};
ghost use Rattle.std.specs.Cmp.Lexicographic.{slice_cmp};
ghost use Rattle.std.specs.Ordering.{nat_cmp};

use std::convert::AsSlice;
use std::marker::Model;

/// Octet strings in ascending order, so that one of them is found fast, however often one is looked for.
#[derive(Drop)]
pub(crate) struct Sorted<T: AsSlice<u8>> {
    strings: Vec<T>,
}

impl<T: AsSlice<u8>> Model for Sorted<T> {
    ghost Value = { List (List ℕ) };

    ghost view = { λ x. map T.items x.strings.items };

    ghost invariant = { λ x. IsSortedByKey T.items (slice_cmp nat_cmp) x.strings.items };
}

impl<T: AsSlice<u8>> Sorted<T> {
    /// These octet strings, in order.
    pub(crate) fn new(mut strings: Vec<T>) -> Sorted<T>
        ensures { IsPermutation (map T.items strings.items) result }
    {
        strings.sort_unstable_by(|a, b| a.as_slice().cmp(b.as_slice()));
        Sorted { strings }
    }

    /// Whether `octets` is among them.
    pub(crate) fn has(&self, octets: &[u8]) -> bool
        ensures { result ≡ list_any (λ s. bytes_eq s octets.now) self.now }
    {
        self.strings
            .binary_search_by(|s| s.as_slice().cmp(octets))
            .is_ok()
    }
}
