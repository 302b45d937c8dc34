//! Which record an element is, and which sets are in it (RFC 5652, sections 3, 5.1, 5.3 and 11.4; RFC
//! 3161, section 2.4.2).

use super::change::SetName;
use super::head::head_at;
use cms_tlv::{CONTEXT_0, CONTEXT_1, OBJECT_IDENTIFIER, SEQUENCE, SET};

/// An element, as far as it tells which sets are in it.
#[derive(Clone, Copy, PartialEq, Eq)]
pub(super) enum Record {
    ContentInfo,
    /// The content of a ContentInfo.
    Content,
    SignedData,
    SignerInfo,
    Attribute,
    /// A TimeStampResp.
    Response,
    /// A set whose members are put in order.
    Set(SetName),
    /// There are no such sets in it.
    Other,
}

impl Record {
    /// That of a whole message: its first field says which.
    pub(super) fn of_message(der: &[u8]) -> Record {
        let Some(message) = head_at(der, 0) else {
            return Record::Other;
        };
        match der.get(message.begin) {
            Some(&OBJECT_IDENTIFIER) => Record::ContentInfo,
            Some(&SEQUENCE) => Record::Response,
            _ => Record::Other,
        }
    }

    /// The set that it is.
    pub(super) fn set(self) -> Option<SetName> {
        match self {
            Record::Set(name) => Some(name),
            _ => None,
        }
    }

    /// That of the field with this number, from 0, and this identifier octet.
    pub(super) fn field(self, number: u64, ident: u8) -> Record {
        match (self, number, ident) {
            (Record::ContentInfo, 1, _) => Record::Content,
            (Record::Content, ..) => Record::SignedData,
            (Record::SignedData, ..) => Record::in_signed_data(number, ident),
            (Record::SignerInfo, _, CONTEXT_1) => Record::Set(SetName::UnsignedAttrs),
            (Record::Attribute, 1, _) => Record::Set(SetName::AttrValues),
            (Record::Response, 1, _) => Record::ContentInfo,
            (Record::Set(name), ..) => Record::member_of(name),
            _ => Record::Other,
        }
    }

    /// That of a field of a SignedData.
    fn in_signed_data(number: u64, ident: u8) -> Record {
        match (number, ident) {
            (1, SET) => Record::Set(SetName::DigestAlgorithms),
            (_, SET) => Record::Set(SetName::SignerInfos),
            (_, CONTEXT_0) => Record::Set(SetName::Certificates),
            (_, CONTEXT_1) => Record::Set(SetName::Crls),
            _ => Record::Other,
        }
    }

    /// That of a member of a set. The values of an attribute are opaque, unless they are
    /// countersignatures.
    fn member_of(name: SetName) -> Record {
        match name {
            SetName::SignerInfos | SetName::AttrValues => Record::SignerInfo,
            SetName::UnsignedAttrs => Record::Attribute,
            SetName::DigestAlgorithms | SetName::Certificates | SetName::Crls => Record::Other,
        }
    }
}
