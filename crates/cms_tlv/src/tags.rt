//! Identifier octets, by the names of X.690 (section 8.1.2, and the types' sections).

/// BOOLEAN (X.690, 8.2).
pub const BOOLEAN: u8 = 0x01;

/// INTEGER (X.690, 8.3).
pub const INTEGER: u8 = 0x02;

/// BIT STRING, primitive (X.690, 8.6).
pub const BIT_STRING: u8 = 0x03;

/// OCTET STRING, primitive (X.690, 8.7).
pub const OCTET_STRING: u8 = 0x04;

/// OBJECT IDENTIFIER (X.690, 8.19).
pub const OBJECT_IDENTIFIER: u8 = 0x06;

/// GeneralizedTime (X.690, 8.25 and 11.7).
pub const GENERALIZED_TIME: u8 = 0x18;

/// SEQUENCE and SEQUENCE OF (X.690, 8.9 and 8.10).
pub const SEQUENCE: u8 = 0x30;

/// SET and SET OF (X.690, 8.11 and 8.12).
pub const SET: u8 = 0x31;

/// `[0]`, primitive.
pub const CONTEXT_0_PRIMITIVE: u8 = 0x80;

/// `[1]`, primitive.
pub const CONTEXT_1_PRIMITIVE: u8 = 0x81;

/// `[0]`, constructed.
pub const CONTEXT_0: u8 = 0xa0;

/// `[1]`, constructed.
pub const CONTEXT_1: u8 = 0xa1;

/// `[2]`, constructed.
pub const CONTEXT_2: u8 = 0xa2;

/// `[3]`, constructed.
pub const CONTEXT_3: u8 = 0xa3;
