//! The digest algorithms of a message, as a list.
ghost use Rattle.std.specs.Prelude.{◌≡◌, ◌↔◌, List, [], length, slice_get, IsTrue};
ghost use Rattle.cms_fields.specs.Indexed.{left};
ghost use Rattle.cms_message.specs.Algorithms.{AlgorithmIdentifier};
ghost use Rattle.cms_message.specs.SignedData.{digest_algorithms};

use crate::algorithm::AlgorithmIdentifier;
use crate::signed_data::SignedData;
use cms_fields::{Indexed, Items};
use std::marker::Model;

/// The digest algorithms of a message, in the order read.
#[derive(Clone, Drop)]
pub struct DigestAlgorithmIdentifiers<'a>(SignedData<'a>);

impl<'a> Model for DigestAlgorithmIdentifiers<'a> {
    ghost Value = { List AlgorithmIdentifier };

    ghost view = { λ x. digest_algorithms x.0 };
}

impl<'a> DigestAlgorithmIdentifiers<'a> {
    /// Those of `signed_data`.
    pub(crate) fn new(signed_data: SignedData<'a>) -> DigestAlgorithmIdentifiers<'a>
        ensures { result ≡ digest_algorithms signed_data.entry }
    {
        DigestAlgorithmIdentifiers(signed_data)
    }

    /// All of them, in the order read.
    pub fn iter(&self) -> Items<DigestAlgorithmIdentifiers<'a>>
        ensures { left (λ x. x) result ≡ self.now }
    {
        Items::new(self.0.digest_algorithms())
    }
}

impl<'a> Indexed for DigestAlgorithmIdentifiers<'a> {
    type Item = AlgorithmIdentifier<'a>;

    ghost Value = { AlgorithmIdentifier };

    ghost value = { λ x. x };

    ghost values = { λ x. x };

    fn len(&self) -> u64 {
        self.0.digest_algorithm_count()
    }

    fn get(&self, i: u64) -> Option<AlgorithmIdentifier<'a>> {
        self.0.digest_algorithm(i)
    }
}

impl<'a> IntoIterator for DigestAlgorithmIdentifiers<'a> {
    type Item = AlgorithmIdentifier<'a>;

    type IntoIter = Items<DigestAlgorithmIdentifiers<'a>>;

    ghost into_iter_gives = { λ list items. left (λ x. x) items ≡ list };

    fn into_iter(self) -> Items<DigestAlgorithmIdentifiers<'a>> {
        Items::new(self)
    }
}
