//! The attributes of a signer that RFC 5652 requires (sections 11.1 and 11.2).
ghost use Rattle.std.specs.Prelude.{◌≡◌};
ghost use Rattle.std.specs.Option.{option_copied};
ghost use Rattle.cms_check.specs.Attributes.{only_of_type, only_value, content_type_value, message_digest};

use cms_message::{Attribute, Attributes};
use cms_scalars::{ID_CONTENT_TYPE, ID_MESSAGE_DIGEST};
use cms_tlv::{OCTET_STRING, first_contents};

/// The value of the content-type attribute, one element, if there is exactly one such attribute, with
/// exactly one value.
pub(crate) fn content_type<'a>(attributes: &Attributes<'a>) -> Option<&'a [u8]>
    ensures { option_copied result ≡ content_type_value attributes.now }
{
    only_value(attributes, ID_CONTENT_TYPE)
}

/// The octets of the message-digest attribute, if there is exactly one such attribute, with exactly one
/// value, an OCTET STRING.
pub(crate) fn message_digest<'a>(attributes: &Attributes<'a>) -> Option<&'a [u8]>
    ensures { option_copied result ≡ message_digest attributes.now }
{
    match only_value(attributes, ID_MESSAGE_DIGEST) {
        Some(value) => first_contents(value, OCTET_STRING),
        None => None,
    }
}

/// The one value of the one attribute whose type has the contents octets `oid`.
fn only_value<'a>(attributes: &Attributes<'a>, oid: &[u8]) -> Option<&'a [u8]>
    ensures { option_copied result ≡ only_value oid.now attributes.now }
{
    only_attribute(attributes, oid)?.only_value()
}

/// The attribute whose type has the contents octets `oid`, if there is only one.
pub(crate) fn only_attribute<'a>(attributes: &Attributes<'a>, oid: &[u8]) -> Option<Attribute<'a>>
    ensures { result ≡ only_of_type oid.now attributes.now }
{
    let mut only = None;
    for attribute in attributes.iter() {
        if attribute.attr_type().octets() == oid {
            if only.is_some() {
                return None;
            }
            only = Some(attribute);
        }
    }
    only
}
