//! OCTET STRINGs in one primitive encoding.
use cms_scalars::PrimitiveOctetsSpan;
use cms_tlv::OCTET_STRING;

/// Where the contents of an OCTET STRING lie.
pub type TextSpan = PrimitiveOctetsSpan<OCTET_STRING>;
