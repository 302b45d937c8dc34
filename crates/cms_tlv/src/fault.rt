//! Why a call ended early.
ghost use Rattle.std.specs.Prelude.{◌≡◌};
ghost use Rattle.cms_tlv.specs.Reasons.{reason_number, reason_name};

use thiserror::Error;

/// Why octets are refused.
#[derive(Clone, Copy, Debug, PartialEq, Eq)]
pub enum Reason {
    /// E1: the input ended, but an octet is needed.
    Truncated = 1,
    /// E2: more octets are needed than the limit allows, or would be written.
    TooLarge = 2,
    /// E3: a first length octet FF.
    LengthReserved = 3,
    /// E4: a first length octet 89 to FE.
    LengthTooLong = 4,
    /// E5: the length 80 on a primitive identifier.
    IndefinitePrimitive = 5,
    /// E6: an element goes past the end of an enclosing element of definite length.
    Overrun = 6,
    /// E7: an element that is not allowed here, a missing element, or a malformed identifier.
    UnexpectedElement = 7,
    /// E8: an INTEGER that is empty, or whose first nine bits are equal.
    IntegerMalformed = 8,
    /// E9: an OBJECT IDENTIFIER that has no subidentifier, or has one that begins with 80 or does not
    /// end.
    OidMalformed = 9,
    /// E10: a BOOLEAN whose contents are not one octet.
    BooleanMalformed = 10,
    /// E11: a BIT STRING without contents, or with a wrong count of unused bits.
    BitsMalformed = 11,
    /// E12: a ninth nested constructed encoding in one string.
    SegmentsTooDeep = 12,
    /// E13: the framing of an opaque element is broken.
    OpaqueNotDer = 13,
    /// E14: an opaque element at depth 65.
    OpaqueTooDeep = 14,
    /// E15: signed attributes that are not in DER.
    SignedAttrsNotDer = 15,
    /// E16: a set of attributes that has no member.
    EmptyAttributes = 16,
    /// E17: the content type is not id-signedData.
    NotSignedData = 17,
    /// E18: an octet follows the message.
    Trailing = 18,
    /// E19: a countersignature at depth 5.
    CountersignTooDeep = 19,
}

impl Reason {
    /// The number after the E, from 1 to 19.
    pub fn number(self) -> u8
        ensures { result ≡ reason_number self }
    {
        self as u8
    }

    /// The name, as it is written in this enum.
    pub fn name(self) -> &'static str
        ensures { result.now ≡ reason_name self }
    {
        match self {
            Reason::Truncated => "Truncated",
            Reason::TooLarge => "TooLarge",
            Reason::LengthReserved => "LengthReserved",
            Reason::LengthTooLong => "LengthTooLong",
            Reason::IndefinitePrimitive => "IndefinitePrimitive",
            Reason::Overrun => "Overrun",
            Reason::UnexpectedElement => "UnexpectedElement",
            Reason::IntegerMalformed => "IntegerMalformed",
            Reason::OidMalformed => "OidMalformed",
            Reason::BooleanMalformed => "BooleanMalformed",
            Reason::BitsMalformed => "BitsMalformed",
            Reason::SegmentsTooDeep => "SegmentsTooDeep",
            Reason::OpaqueNotDer => "OpaqueNotDer",
            Reason::OpaqueTooDeep => "OpaqueTooDeep",
            Reason::SignedAttrsNotDer => "SignedAttrsNotDer",
            Reason::EmptyAttributes => "EmptyAttributes",
            Reason::NotSignedData => "NotSignedData",
            Reason::Trailing => "Trailing",
            Reason::CountersignTooDeep => "CountersignTooDeep",
        }
    }
}

/// Why a call ended early.
#[derive(Clone, Copy, Debug, PartialEq, Eq, Error)]
pub enum Fault {
    /// The octets are refused, and `at` octets of the input were taken by then.
    #[error("refused E{} {} at {at}", .reason.number(), .reason.name())]
    Refused { reason: Reason, at: u64 },
    /// The reader failed.
    #[error("read fault")]
    Read,
    /// The writer failed after it took `written` octets.
    #[error("write fault after {written}")]
    Write { written: u64 },
    /// Memory ran out.
    #[error("out of memory")]
    OutOfMemory,
}
