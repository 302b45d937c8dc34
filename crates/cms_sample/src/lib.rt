//! Sample records, put together from the parts that `cms_fields` has: they show what a record costs,
//! and are terms for tests.
#![tactic(auto)]

mod chosen;
mod sample;
mod share;
mod sketches;
mod texts;

pub use chosen::{ChosenSpans, IsOne, chosen_laws};
pub use sample::{SampleAttributeSpans, SampleSpans, sample_laws};
pub use share::{Share, ShareSpans, share_laws};
pub use sketches::{AttributeSpans, attribute_in_der, five, number_in, put_both, value_of};
pub use texts::TextSpan;
