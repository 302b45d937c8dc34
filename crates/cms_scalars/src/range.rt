//! INTEGERs from one number to another (X.680, section 51.4).

use crate::scalars::{IntegerOctets, value_of};
use cms_fields::{Constrained, Constraint};
use cms_tlv::Reason;

/// The INTEGERs from `LOW` to `HIGH`, both included. E8 for any other.
#[derive(Drop)]
pub struct ValueRange<const LOW: u64, const HIGH: u64>;

impl<const LOW: u64, const HIGH: u64> Constraint<IntegerOctets> for ValueRange<LOW, HIGH> {
    ghost use Rattle.cms_tlv.specs.declared.fault.Reason.TheVariants.{IntegerMalformed};
    ghost use Rattle.cms_scalars.specs.Ranges.{IsInRange, is_in_range};

    ghost is = { IsInRange LOW HIGH };

    ghost test = { is_in_range LOW HIGH };

    ghost refusal = { IntegerMalformed };

    fn passes(octets: &[u8]) -> bool {
        match value_of(octets) {
            Some(number) => LOW <= number && number <= HIGH,
            None => false,
        }
    }

    fn reason() -> Reason {
        Reason::IntegerMalformed
    }

    fn law() {}
}

/// Where the contents of an INTEGER from `LOW` to `HIGH` lie, whose identifier octet is `ID`.
pub type IntegerInRangeSpan<const ID: u8, const LOW: u64, const HIGH: u64> = Constrained<
    ID,
    IntegerOctets,
    ValueRange<LOW, HIGH>,
>;
