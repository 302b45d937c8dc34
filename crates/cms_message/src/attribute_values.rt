//! The values of an attribute, as a list.
ghost use Rattle.std.specs.Prelude.{◌≡◌, ◌↔◌, ℕ, List, [], length, slice_get, IsTrue};
ghost use Rattle.std.specs.Option.{option_copied};
ghost use Rattle.cms_fields.specs.Indexed.{left};
ghost use Rattle.cms_message.specs.Signers.{opaque_values};

use crate::attribute::Attribute;
use cms_fields::{Indexed, Items};
use std::marker::Model;

/// The values of an attribute but for countersignatures, in the order read. Each is one element.
#[derive(Clone, Drop)]
pub struct AttributeValues<'a>(Attribute<'a>);

impl<'a> Model for AttributeValues<'a> {
    ghost Value = { List (List ℕ) };

    ghost view = { λ x. opaque_values x.0 };
}

impl<'a> AttributeValues<'a> {
    /// Those of `attribute`.
    pub(crate) fn new(attribute: Attribute<'a>) -> AttributeValues<'a>
        ensures { result ≡ opaque_values attribute.entry }
    {
        AttributeValues(attribute)
    }

    /// All of them, in the order read.
    pub fn iter(&self) -> Items<AttributeValues<'a>>
        ensures { left (λ x. x) result ≡ self.now }
    {
        Items::new(self.0.values())
    }
}

impl<'a> Indexed for AttributeValues<'a> {
    type Item = &'a [u8];

    ghost Value = { List ℕ };

    ghost value = { λ x. x.now };

    ghost values = { λ x. x };

    fn len(&self) -> u64 {
        self.0.value_count()
    }

    fn get(&self, i: u64) -> Option<&'a [u8]> {
        self.0.value(i)
    }
}

impl<'a> IntoIterator for AttributeValues<'a> {
    type Item = &'a [u8];

    type IntoIter = Items<AttributeValues<'a>>;

    ghost into_iter_gives = { λ list items. left (λ x. x) items ≡ list };

    fn into_iter(self) -> Items<AttributeValues<'a>> {
        Items::new(self)
    }
}
