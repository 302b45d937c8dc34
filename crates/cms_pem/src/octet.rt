//! What an octet of a text is to PEM.
ghost use Rattle.std.specs.Prelude.{◌≡◌};
ghost use Rattle.cms_pem.specs.Pem.{is_base64, is_blank};

/// Whether an octet is white space.
pub(crate) fn is_blank(octet: u8) -> bool
    ensures { result ≡ is_blank octet }
{
    octet == b' ' || (9 <= octet && octet <= 13)
}

/// Whether an octet is white space, a symbol of base64, or the `=` that fills its last group.
pub(crate) fn is_base64(octet: u8) -> bool
    ensures { result ≡ is_base64 octet }
{
    is_blank(octet)
        || (b'A' <= octet && octet <= b'Z')
        || (b'a' <= octet && octet <= b'z')
        || (b'0' <= octet && octet <= b'9')
        || octet == b'+'
        || octet == b'/'
        || octet == b'='
}
