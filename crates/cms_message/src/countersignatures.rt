//! The countersignatures that an attribute holds, as a list.
ghost use Rattle.std.specs.Prelude.{◌≡◌, ◌↔◌, List, [], length, slice_get, IsTrue};
ghost use Rattle.cms_fields.specs.Indexed.{left};
ghost use Rattle.cms_message.specs.Signers.{BorrowedSigner, borrowed_countersignatures, signers_code};

use crate::attribute::Attribute;
use crate::signer_info::SignerInfo;
use cms_fields::{Indexed, Items};
use std::marker::Model;

/// The countersignatures that an attribute holds, in the order read.
#[derive(Clone, Drop)]
pub struct Countersignatures<'a>(Attribute<'a>);

impl<'a> Model for Countersignatures<'a> {
    ghost Value = { List BorrowedSigner };

    ghost coded = { signers_code };

    ghost view = { λ x. borrowed_countersignatures x.0 };
}

impl<'a> Countersignatures<'a> {
    /// Those of `attribute`.
    pub(crate) fn new(attribute: Attribute<'a>) -> Countersignatures<'a>
        ensures { result ≡ borrowed_countersignatures attribute.entry }
    {
        Countersignatures(attribute)
    }

    /// All of them, in the order read.
    pub fn iter(&self) -> Items<Countersignatures<'a>>
        ensures { left (λ x. x) result ≡ self.now }
    {
        Items::new(self.0.countersignatures())
    }
}

impl<'a> Indexed for Countersignatures<'a> {
    type Item = SignerInfo<'a>;

    ghost Value = { BorrowedSigner };

    ghost value = { λ x. x };

    ghost values = { λ x. x };

    fn len(&self) -> u64 {
        self.0.countersignature_count()
    }

    fn get(&self, i: u64) -> Option<SignerInfo<'a>> {
        self.0.countersignature(i)
    }
}

impl<'a> IntoIterator for Countersignatures<'a> {
    type Item = SignerInfo<'a>;

    type IntoIter = Items<Countersignatures<'a>>;

    ghost into_iter_gives = { λ list items. left (λ x. x) items ≡ list };

    fn into_iter(self) -> Items<Countersignatures<'a>> {
        Items::new(self)
    }
}
