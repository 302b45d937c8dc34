//! Share: a record with a number of a range, and what a record of a message needs: its type, the borrowed
//! record with an accessor for each field, and its laws.
ghost use Rattle.std.specs.Prelude.{◌≡◌, option_map};
ghost use Rattle.cms_fields.specs.Grammar.{FieldLaws};
ghost use Rattle.cms_scalars.specs.Borrowed.{borrowed_integer};
ghost use Rattle.cms_sample.specs.Share.{Share, total, percent, share};

use cms_fields::{Tagged, Then, Write, record_laws};
use cms_scalars::{Integer, IntegerInRangeSpan, IntegerSpan};
use cms_tlv::{CONTEXT_0_PRIMITIVE, SEQUENCE};
use std::marker::Model;

/// `Share ::= SEQUENCE { total INTEGER, percent [0] IMPLICIT INTEGER (0..100) OPTIONAL }`.
pub type ShareSpans = Tagged<
    SEQUENCE,
    Then<IntegerSpan, Option<IntegerInRangeSpan<CONTEXT_0_PRIMITIVE, 0, 100>>>,
>;

/// A part of a whole.
#[derive(Clone, Drop)]
pub struct Share<'a> {
    kept: &'a [u8],
    spans: &'a ShareSpans,
}

impl<'a> Model for Share<'a> {
    ghost Value = { Share };

    ghost view = { λ x. ⟦<ShareSpans as Write>⟧.value x.kept.now x.spans.now };
}

impl<'a> Share<'a> {
    /// The share whose fields `spans` names in `kept`.
    pub fn new(spans: &'a ShareSpans, kept: &'a [u8]) -> Share<'a>
        ensures { result ≡ ⟦<ShareSpans as Write>⟧.value kept.now spans.now }
    {
        Share { kept, spans }
    }

    /// total.
    pub fn total(&self) -> Integer<'a>
        ensures { borrowed_integer result ≡ total self.now }
    {
        let Tagged(Then(total, _)) = self.spans;
        Integer::new(total, self.kept)
    }

    /// percent: from 0 to 100, if it is present.
    pub fn percent(&self) -> Option<Integer<'a>>
        ensures { option_map borrowed_integer result ≡ percent self.now }
    {
        let Tagged(Then(_, percent)) = self.spans;
        match percent {
            Some(percent) => Some(Integer::new(&percent.0, self.kept)),
            None => None,
        }
    }
}

/// Does nothing. Its contract says what is proved of a Share.
pub fn share_laws()
    ensures laws { FieldLaws share }
{
    record_laws::<ShareSpans>();
}
