//! The signers of a message, as a list.
ghost use Rattle.std.specs.Prelude.{◌≡◌, ◌↔◌, List, [], length, slice_get, IsTrue};
ghost use Rattle.cms_fields.specs.Indexed.{left};
ghost use Rattle.cms_message.specs.SignedData.{borrowed_signers};
ghost use Rattle.cms_message.specs.Signers.{BorrowedSigner, signers_code};

use crate::signed_data::SignedData;
use crate::signer_info::SignerInfo;
use cms_fields::{Indexed, Items};
use std::marker::Model;

/// The signers of a message, in the order read.
#[derive(Clone, Drop)]
pub struct SignerInfos<'a>(SignedData<'a>);

impl<'a> Model for SignerInfos<'a> {
    ghost Value = { List BorrowedSigner };

    ghost coded = { signers_code };

    ghost view = { λ x. borrowed_signers x.0 };
}

impl<'a> SignerInfos<'a> {
    /// Those of `signed_data`.
    pub(crate) fn new(signed_data: SignedData<'a>) -> SignerInfos<'a>
        ensures { result ≡ borrowed_signers signed_data.entry }
    {
        SignerInfos(signed_data)
    }

    /// All of them, in the order read.
    pub fn iter(&self) -> Items<SignerInfos<'a>>
        ensures { left (λ x. x) result ≡ self.now }
    {
        Items::new(self.0.signers())
    }
}

impl<'a> Indexed for SignerInfos<'a> {
    type Item = SignerInfo<'a>;

    ghost Value = { BorrowedSigner };

    ghost value = { λ x. x };

    ghost values = { λ x. x };

    fn len(&self) -> u64 {
        self.0.signer_count()
    }

    fn get(&self, i: u64) -> Option<SignerInfo<'a>> {
        self.0.signer(i)
    }
}

impl<'a> IntoIterator for SignerInfos<'a> {
    type Item = SignerInfo<'a>;

    type IntoIter = Items<SignerInfos<'a>>;

    ghost into_iter_gives = { λ list items. left (λ x. x) items ≡ list };

    fn into_iter(self) -> Items<SignerInfos<'a>> {
        Items::new(self)
    }
}
