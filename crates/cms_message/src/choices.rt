//! CertificateChoices and RevocationInfoChoice (RFC 5652, sections 10.2.2 and 10.2.1): opaque elements,
//! distinguished by their identifiers.
ghost use Rattle.std.specs.Prelude.{◌≡◌, ◌↔◌, ◌==◌, ℕ, List, [], length, slice_get, IsTrue};
ghost use Rattle.std.specs.List.{list_any};
ghost use Rattle.std.specs.Option.{option_copied};
ghost use Rattle.cms_fields.specs.Indexed.{left};
ghost use Rattle.cms_message.specs.Versions.{has_choice};
ghost use Rattle.cms_message.specs.Choices.{identifier_octet, kind_of_certificate, kind_of_revocation};
ghost use Rattle.cms_message.specs.Spanned.{choices_spanned};

use cms_fields::{Identifiers, Indexed, Items, OpaqueAmong, Tagged};
use cms_setof::SetOf;
use cms_tlv::{CONTEXT_0, CONTEXT_1, CONTEXT_2, CONTEXT_3, SEQUENCE};
use std::marker::Model;

/// `CertificateChoices ::= CHOICE { certificate Certificate, extendedCertificate [0] IMPLICIT
/// ExtendedCertificate, v1AttrCert [1] IMPLICIT AttributeCertificateV1, v2AttrCert [2] IMPLICIT
/// AttributeCertificateV2, other [3] IMPLICIT OtherCertificateFormat }`, by their identifiers.
#[derive(Drop)]
pub struct CertificateChoices;

impl Identifiers for CertificateChoices {
    ghost use Rattle.cms_message.specs.Choices.{is_certificate_choices};

    ghost allowed = { is_certificate_choices };

    fn allows(octet: u8) -> bool {
        octet == SEQUENCE
            || octet == CONTEXT_0
            || octet == CONTEXT_1
            || octet == CONTEXT_2
            || octet == CONTEXT_3
    }
}

/// `CertificateSet ::= SET OF CertificateChoices`, as `[0] IMPLICIT`.
pub type CertificateSetSpans = Tagged<CONTEXT_0, SetOf<OpaqueAmong<CertificateChoices>>>;

/// `RevocationInfoChoice ::= CHOICE { crl CertificateList, other [1] IMPLICIT OtherRevocationInfoFormat
/// }`, by their identifiers.
#[derive(Drop)]
pub struct RevocationInfoChoice;

impl Identifiers for RevocationInfoChoice {
    ghost use Rattle.cms_message.specs.Choices.{is_revocation_info_choice};

    ghost allowed = { is_revocation_info_choice };

    fn allows(octet: u8) -> bool {
        octet == SEQUENCE || octet == CONTEXT_1
    }
}

/// `RevocationInfoChoices ::= SET OF RevocationInfoChoice`, as `[1] IMPLICIT`.
pub type RevocationInfoChoicesSpans = Tagged<CONTEXT_1, SetOf<OpaqueAmong<RevocationInfoChoice>>>;

/// The alternatives of CertificateChoices.
#[derive(Clone, Copy, Debug, PartialEq, Eq)]
pub enum CertificateKind {
    Certificate,
    ExtendedCertificate,
    V1AttrCert,
    V2AttrCert,
    Other,
}

/// Which alternative of CertificateChoices `element` is, by its identifier octet.
pub fn certificate_kind(element: &[u8]) -> CertificateKind
    ensures { result ≡ kind_of_certificate (identifier_octet element.now) }
{
    match first_octet(element) {
        SEQUENCE => CertificateKind::Certificate,
        CONTEXT_0 => CertificateKind::ExtendedCertificate,
        CONTEXT_1 => CertificateKind::V1AttrCert,
        CONTEXT_2 => CertificateKind::V2AttrCert,
        _ => CertificateKind::Other,
    }
}

/// The alternatives of RevocationInfoChoice.
#[derive(Clone, Copy, Debug, PartialEq, Eq)]
pub enum RevocationInfoKind {
    Crl,
    Other,
}

/// Which alternative of RevocationInfoChoice `element` is, by its identifier octet.
pub fn revocation_info_kind(element: &[u8]) -> RevocationInfoKind
    ensures { result ≡ kind_of_revocation (identifier_octet element.now) }
{
    if first_octet(element) == SEQUENCE {
        RevocationInfoKind::Crl
    } else {
        RevocationInfoKind::Other
    }
}

/// Certificates or revocation information, in the order read.
#[derive(Clone, Drop)]
pub struct Choices<'a, I> {
    kept: &'a [u8],
    set: &'a SetOf<OpaqueAmong<I>>,
}

impl<'a, I> Model for Choices<'a, I> {
    ghost Value = { List (List ℕ) };

    ghost view = { λ x. choices_spanned x.kept.now x.set.now };
}

impl<'a, I: Drop> Choices<'a, I> {
    /// The elements that `set` names in `kept`.
    pub(crate) fn new(set: &'a SetOf<OpaqueAmong<I>>, kept: &'a [u8]) -> Choices<'a, I>
        ensures { result ≡ choices_spanned kept.now set.now }
    {
        Choices { kept, set }
    }

    /// The elements, in the order read.
    pub fn iter(&self) -> Items<Choices<'a, I>>
        ensures { left (λ x. x) result ≡ self.now }
    {
        Items::new(Choices::new(self.set, self.kept))
    }

    /// Whether there is an element with this identifier octet.
    pub fn any_begins_with(&self, ident: u8) -> bool
        ensures { result ≡ list_any (λ c. identifier_octet c == ident) self.now }
    {
        for octets in self.iter() {
            if first_octet(octets) == ident {
                return true;
            }
        }
        false
    }
}

/// Whether there are such choices, and one of them has this identifier octet.
pub(crate) fn has_choice<I: Drop>(choices: Option<Choices<'_, I>>, ident: u8) -> bool
    ensures { result ≡ has_choice ident choices.entry }
{
    match choices {
        Some(choices) => choices.any_begins_with(ident),
        None => false,
    }
}

impl<'a, I: Drop> Indexed for Choices<'a, I> {
    type Item = &'a [u8];

    ghost Value = { List ℕ };

    ghost value = { λ x. x.now };

    ghost values = { λ x. x };

    fn len(&self) -> u64 {
        self.set.len()
    }

    fn get(&self, i: u64) -> Option<&'a [u8]> {
        match self.set.get(i) {
            Some(OpaqueAmong(element)) => Some(element.span.octets(self.kept)),
            None => None,
        }
    }
}

impl<'a, I: Drop> IntoIterator for Choices<'a, I> {
    type Item = &'a [u8];

    type IntoIter = Items<Choices<'a, I>>;

    ghost into_iter_gives = { λ list items. left (λ x. x) items ≡ list };

    fn into_iter(self) -> Items<Choices<'a, I>> {
        Items::new(self)
    }
}

/// The first octet, or 0 if there is none.
fn first_octet(octets: &[u8]) -> u8
    ensures { result ≡ identifier_octet octets.now }
{
    match octets.first() {
        Some(octet) => *octet,
        None => 0,
    }
}
