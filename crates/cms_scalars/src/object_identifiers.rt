//! The object identifiers that are known here, by their contents octets (X.690, section 8.19).

/// id-data, 1.2.840.113549.1.7.1 (RFC 5652, section 4).
pub const ID_DATA: &[u8] = b"\x2a\x86\x48\x86\xf7\x0d\x01\x07\x01";

/// id-signedData, 1.2.840.113549.1.7.2 (RFC 5652, section 5.1).
pub const ID_SIGNED_DATA: &[u8] = b"\x2a\x86\x48\x86\xf7\x0d\x01\x07\x02";

/// id-contentType, 1.2.840.113549.1.9.3 (RFC 5652, section 11.1).
pub const ID_CONTENT_TYPE: &[u8] = b"\x2a\x86\x48\x86\xf7\x0d\x01\x09\x03";

/// id-messageDigest, 1.2.840.113549.1.9.4 (RFC 5652, section 11.2).
pub const ID_MESSAGE_DIGEST: &[u8] = b"\x2a\x86\x48\x86\xf7\x0d\x01\x09\x04";

/// id-signingTime, 1.2.840.113549.1.9.5 (RFC 5652, section 11.3).
pub const ID_SIGNING_TIME: &[u8] = b"\x2a\x86\x48\x86\xf7\x0d\x01\x09\x05";

/// id-countersignature, 1.2.840.113549.1.9.6 (RFC 5652, section 11.4).
pub const ID_COUNTERSIGNATURE: &[u8] = b"\x2a\x86\x48\x86\xf7\x0d\x01\x09\x06";

/// id-ct-TSTInfo, 1.2.840.113549.1.9.16.1.4 (RFC 3161, section 2.4.2).
pub const ID_CT_TST_INFO: &[u8] = b"\x2a\x86\x48\x86\xf7\x0d\x01\x09\x10\x01\x04";

/// id-aa-signingCertificate, 1.2.840.113549.1.9.16.2.12 (RFC 5035, section 5).
pub const ID_AA_SIGNING_CERTIFICATE: &[u8] = b"\x2a\x86\x48\x86\xf7\x0d\x01\x09\x10\x02\x0c";

/// id-aa-signingCertificateV2, 1.2.840.113549.1.9.16.2.47 (RFC 5035, section 3).
pub const ID_AA_SIGNING_CERTIFICATE_V2: &[u8] = b"\x2a\x86\x48\x86\xf7\x0d\x01\x09\x10\x02\x2f";

/// id-sha1, 1.3.14.3.2.26 (RFC 3370, section 2.1).
pub const ID_SHA1: &[u8] = b"\x2b\x0e\x03\x02\x1a";

/// id-sha256, 2.16.840.1.101.3.4.2.1 (RFC 8017, appendix B.1).
pub const ID_SHA256: &[u8] = b"\x60\x86\x48\x01\x65\x03\x04\x02\x01";

/// id-sha384, 2.16.840.1.101.3.4.2.2 (RFC 8017, appendix B.1).
pub const ID_SHA384: &[u8] = b"\x60\x86\x48\x01\x65\x03\x04\x02\x02";

/// id-sha512, 2.16.840.1.101.3.4.2.3 (RFC 8017, appendix B.1).
pub const ID_SHA512: &[u8] = b"\x60\x86\x48\x01\x65\x03\x04\x02\x03";

/// id-sha224, 2.16.840.1.101.3.4.2.4 (RFC 8017, appendix B.1).
pub const ID_SHA224: &[u8] = b"\x60\x86\x48\x01\x65\x03\x04\x02\x04";

/// id-sha512-224, 2.16.840.1.101.3.4.2.5 (RFC 8017, appendix B.1).
pub const ID_SHA512_224: &[u8] = b"\x60\x86\x48\x01\x65\x03\x04\x02\x05";

/// id-sha512-256, 2.16.840.1.101.3.4.2.6 (RFC 8017, appendix B.1).
pub const ID_SHA512_256: &[u8] = b"\x60\x86\x48\x01\x65\x03\x04\x02\x06";
