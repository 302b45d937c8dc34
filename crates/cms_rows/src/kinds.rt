//! Kinds of rows. Those of one record begin with the same digit, in the order of its definition.

/// The parameters of an algorithm, one element; one level below the algorithm.
pub const PARAMETERS: u32 = 0x01;
/// An attribute: the contents octets of its type. Its values are one level below.
pub const ATTRIBUTE: u32 = 0x02;
/// A value of an attribute, one element.
pub const VALUE: u32 = 0x03;
/// hashAlgorithm of a MessageImprint: the contents octets of the OBJECT IDENTIFIER.
pub const HASH_ALGORITHM: u32 = 0x04;
/// A segment of hashedMessage of a MessageImprint.
pub const HASHED_MESSAGE: u32 = 0x05;

/// A SignedData: no octets. Its fields are one level below.
pub const SIGNED_DATA: u32 = 0x10;
/// The contents octets of its version.
pub const VERSION: u32 = 0x11;
/// One of its digest algorithms: the contents octets of the OBJECT IDENTIFIER.
pub const DIGEST_ALGORITHM: u32 = 0x12;
/// The contents octets of eContentType.
pub const CONTENT_TYPE: u32 = 0x13;
/// A segment of the content.
pub const CONTENT: u32 = 0x14;
/// The set of certificates: no octets. They are one level below.
pub const CERTIFICATES: u32 = 0x15;
/// A certificate, one element.
pub const CERTIFICATE: u32 = 0x16;
/// crls, the set of revocation information: no octets. They are one level below.
pub const CRLS: u32 = 0x17;
/// A CRL or other revocation information, one element.
pub const CRL: u32 = 0x18;

/// A signer of the message: no octets. Its fields are one level below.
pub const SIGNER: u32 = 0x20;
/// A countersignature: no octets. It is one level below the attribute that holds it.
pub const COUNTERSIGNATURE: u32 = 0x21;
/// The contents octets of its version.
pub const SIGNER_VERSION: u32 = 0x22;
/// The issuer of its certificate, one element.
pub const ISSUER: u32 = 0x23;
/// The contents octets of the serial number of its certificate.
pub const SERIAL_NUMBER: u32 = 0x24;
/// A segment of the subject key identifier.
pub const SUBJECT_KEY_IDENTIFIER: u32 = 0x25;
/// Its digest algorithm: the contents octets of the OBJECT IDENTIFIER.
pub const SIGNER_DIGEST_ALGORITHM: u32 = 0x26;
/// Its signed attributes, as received, from the identifier octet A0 on. They are one level below.
pub const SIGNED_ATTRIBUTES: u32 = 0x27;
/// Its signature algorithm: the contents octets of the OBJECT IDENTIFIER.
pub const SIGNATURE_ALGORITHM: u32 = 0x28;
/// A segment of the signature.
pub const SIGNATURE: u32 = 0x29;
/// Its unsigned attributes: no octets. They are one level below.
pub const UNSIGNED_ATTRIBUTES: u32 = 0x2a;

/// A TimeStampReq: no octets. Its fields are one level below.
pub const REQUEST: u32 = 0x30;
/// The contents octets of its version.
pub const REQUEST_VERSION: u32 = 0x31;
/// The contents octets of reqPolicy.
pub const REQUEST_POLICY: u32 = 0x32;
/// The contents octets of its nonce.
pub const REQUEST_NONCE: u32 = 0x33;
/// certReq, if it is TRUE: no octets.
pub const CERT_REQ: u32 = 0x34;
/// Its extensions, one element.
pub const REQUEST_EXTENSIONS: u32 = 0x35;

/// A TimeStampResp: no octets. Its fields are one level below, and so is the SignedData of its token.
pub const RESPONSE: u32 = 0x40;
/// The contents octets of its status.
pub const STATUS: u32 = 0x41;
/// statusString, one element.
pub const STATUS_STRING: u32 = 0x42;
/// The contents octets of failInfo, a BIT STRING, as received.
pub const FAIL_INFO: u32 = 0x43;

/// A TSTInfo: no octets. Its fields are one level below.
pub const TST_INFO: u32 = 0x50;
/// The contents octets of its version.
pub const TST_VERSION: u32 = 0x51;
/// The contents octets of its policy.
pub const TST_POLICY: u32 = 0x52;
/// The contents octets of its serial number.
pub const TST_SERIAL_NUMBER: u32 = 0x53;
/// The contents octets of genTime.
pub const GEN_TIME: u32 = 0x54;
/// Its accuracy: no octets. What it says is one level below.
pub const ACCURACY: u32 = 0x55;
/// The contents octets of seconds.
pub const SECONDS: u32 = 0x56;
/// The contents octets of millis.
pub const MILLIS: u32 = 0x57;
/// The contents octets of micros.
pub const MICROS: u32 = 0x58;
/// ordering, if it is TRUE: no octets.
pub const ORDERING: u32 = 0x59;
/// The contents octets of its nonce.
pub const TST_NONCE: u32 = 0x5a;
/// tsa, one element.
pub const TSA: u32 = 0x5b;
/// Its extensions, one element.
pub const TST_EXTENSIONS: u32 = 0x5c;
