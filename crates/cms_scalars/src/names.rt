//! The names of object identifiers.
ghost use Rattle.std.specs.Prelude.{◌≡◌, option_map};
ghost use Rattle.cms_scalars.specs.Names.{names, name_in, names_table};

use crate::object_identifiers::{
    ID_AA_SIGNING_CERTIFICATE, ID_AA_SIGNING_CERTIFICATE_V2, ID_CONTENT_TYPE, ID_COUNTERSIGNATURE,
    ID_CT_TST_INFO, ID_DATA, ID_MESSAGE_DIGEST, ID_SHA1, ID_SHA224, ID_SHA256, ID_SHA384,
    ID_SHA512, ID_SHA512_224, ID_SHA512_256, ID_SIGNED_DATA, ID_SIGNING_TIME,
};

/// An OBJECT IDENTIFIER, by its contents octets, and its name.
struct Named {
    octets: &'static [u8],
    name: &'static str,
}

/// The table of names.
const NAMES: &[Named] = &[
    Named {
        octets: ID_DATA,
        name: "data",
    },
    Named {
        octets: ID_SIGNED_DATA,
        name: "signedData",
    },
    Named {
        octets: ID_CONTENT_TYPE,
        name: "contentType",
    },
    Named {
        octets: ID_MESSAGE_DIGEST,
        name: "messageDigest",
    },
    Named {
        octets: ID_SIGNING_TIME,
        name: "signingTime",
    },
    Named {
        octets: ID_COUNTERSIGNATURE,
        name: "countersignature",
    },
    Named {
        octets: ID_CT_TST_INFO,
        name: "tSTInfo",
    },
    Named {
        octets: ID_AA_SIGNING_CERTIFICATE,
        name: "signingCertificate",
    },
    Named {
        octets: ID_AA_SIGNING_CERTIFICATE_V2,
        name: "signingCertificateV2",
    },
    Named {
        octets: ID_SHA1,
        name: "sha1",
    },
    Named {
        octets: ID_SHA256,
        name: "sha256",
    },
    Named {
        octets: ID_SHA384,
        name: "sha384",
    },
    Named {
        octets: ID_SHA512,
        name: "sha512",
    },
    Named {
        octets: ID_SHA224,
        name: "sha224",
    },
    Named {
        octets: ID_SHA512_224,
        name: "sha512-224",
    },
    Named {
        octets: ID_SHA512_256,
        name: "sha512-256",
    },
];

/// The name of the OBJECT IDENTIFIER with these contents octets, if it has one.
pub(crate) fn name_of(octets: &[u8]) -> Option<&'static str>
    ensures { option_map (λ s. s.now) result ≡ name_in names octets.now }
{
    name_among(NAMES, octets)
}

/// The name that a table has for contents octets.
fn name_among(table: &[Named], octets: &[u8]) -> Option<&'static str>
    ensures { option_map (λ s. s.now) result ≡ name_in (names_table table.now) octets.now }
{
    for row in table {
        if octets == row.octets {
            return Some(row.name);
        }
    }
    None
}
