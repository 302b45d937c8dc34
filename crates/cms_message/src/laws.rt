//! The laws of a ContentInfo, in terms of its definition.
ghost use Rattle.std.specs.Prelude.{◌≡◌, ◌≢◌, ◌==◌, ◌↔◌, ◌<◌, ℕ, List, ◌∷◌, Option, Some, slice_get, true, false, bytes_eq};
ghost use mathlib.Core.Logic.{inr};
ghost use Rattle.cms_tlv.specs.Spelling.{Rules, der};
ghost use Rattle.cms_tlv.specs.declared.bound.Bound.{Bound};
ghost use Rattle.cms_tlv.specs.RefusalReasons.{Explained};
ghost use Rattle.cms_tlv.specs.Law.{IsField, Reads, ReadsTo};
ghost use Rattle.cms_fields.specs.Canonical.{IsByDer};
ghost use Rattle.cms_fields.specs.Received.{ArePartsOf, CountedAlike, times};
ghost use Rattle.cms_setof.specs.Same.{same_members};
ghost use Rattle.cms_message.specs.Attributes.{SignedAttributes, attribute, signed_attributes};
ghost use Rattle.cms_message.specs.Countersignatures.{is_countersignature, unsigned_attribute};
ghost use Rattle.cms_message.specs.SignerInfo.{countersignatures_within};
ghost use Rattle.cms_message.specs.ContentInfo.{ContentInfo, content, content_info, content_info_fields};
ghost use Rattle.cms_message.specs.Cover.{Covered, IsCoveredAlong, as_set_of, attributes_along, cover_along, covers};
ghost use Rattle.cms_message.specs.Received.{in_content_info, in_signed_data};
ghost use Rattle.cms_message.specs.SignedData.{SignedData, encap_content_info, e_content, signed_data};

use crate::attribute::AttributeSpans;
use crate::content_info::{ContentInfoFields, ContentInfoSpans};
use cms_fields::{Tagged, Write};
use cms_setof::NonEmptySetOf;
use cms_tlv::{CONTEXT_0, SEQUENCE};

/// Does nothing. Its contract says of a ContentInfo what `Write::law` says of a field, in terms of the
/// definition of ContentInfo.
pub fn content_info_laws()
    ensures is_field { (m : Rules)
        → IsField (λ t. (t == SEQUENCE) ≡ true) (content_info.spelled m) }
    ensures reads { (m : Rules) → m ≢ der
        → Reads m (content_info.spelled m) content_info.reader }
    ensures reads_fields { (m : Rules) → m ≢ der
        → ReadsTo m (content_info_fields.spelled m) (λ v. v) content_info_fields.reader }
    ensures by_der { IsByDer content_info.same content_info.spelled }
    ensures explained { (bd : Bound)
        → Explained true content_info_fields.malformed 0 bd (content_info_fields.reader bd) }
{
    ContentInfoFields::law();
    ContentInfoSpans::law();
}

/// Does nothing. Its contract says of a ContentInfo: signed attributes, certificates, attribute values
/// and everything else that is opaque lie in what spells it, octet for octet. It says of two that are
/// the same: each of these lies in the one as often as in the other, their content is the same, and
/// each signature and countersignature covers the same, whatever detached content is given.
pub fn received_octets_are_kept()
    ensures are_parts { (m : Rules) → ArePartsOf (content_info.spelled m) in_content_info }
    ensures counted { CountedAlike content_info.is_value content_info.same in_content_info }
    ensures content { (v w : ContentInfo) → content_info.is_value v → content_info.is_value w
        → content_info.same v w ≡ true
        → e_content (encap_content_info (content v)) ≡ e_content (encap_content_info (content w)) }
    ensures covers { (detached : Option (List ℕ))
        → CountedAlike content_info.is_value content_info.same (λ v. covers (content v) detached) }
{
    signed_attributes_are_sets();
}

/// Does nothing. Its contract says of signed attributes, which are compared as sets of attributes: they
/// are the same if and only if their octets are equal.
pub fn signed_attributes_are_sets()
    ensures { (b c : List ℕ) (v w : SignedAttributes) → signed_attributes.spelled der b v
        → signed_attributes.spelled der c w
        → bytes_eq v.0 w.0 ≡ signed_attributes.same v w }
{
    Tagged::<CONTEXT_0, NonEmptySetOf<AttributeSpans>>::law();
}

/// Does nothing. Its contract says of one unsigned attribute of another type than countersignature: it
/// is spelled as any attribute is, and is the same as another if these attributes are.
pub fn other_unsigned_attributes_are_attributes()
    ensures spelled { (m : Rules) (b t : List ℕ) (vs : List (List ℕ)) (levels : ℕ)
        → is_countersignature t ≡ false
        → (unsigned_attribute (countersignatures_within levels)).spelled m b (t, inr vs)
        ↔ attribute.spelled m b (t, vs) }
    ensures same { (t u : List ℕ) (vs ws : List (List ℕ)) (levels : ℕ)
        → (unsigned_attribute (countersignatures_within levels)).same (t, inr vs) (u, inr ws)
        ≡ attribute.same (t, vs) (u, ws) }
{}

/// Does nothing. Its contract says: each pair of a cover and a signature that a message has is that of
/// the signer or countersignature at a path, and conversely, whatever detached content is given.
pub fn covers_are_along_paths()
    ensures { (v : SignedData) (detached : Option (List ℕ)) (p : Covered)
        → ((i : ℕ) × (slice_get (covers v detached) i ≡ Some p))
        ↔ ((path : List ℕ) × IsCoveredAlong v detached path p) }
{}

/// Does nothing. Its contract says of the signed attributes of the signer or countersignature at a path:
/// they are among what is opaque in the message, they begin with A0, and its signature covers them, with
/// 31 as their first octet.
pub fn signed_attributes_are_along_paths()
    ensures opaque { (v : SignedData) (path a : List ℕ) → attributes_along v path ≡ Some a
        → 0 < times a (in_signed_data v) }
    ensures begin { (m : Rules) (b a : List ℕ) (v : SignedData) (path : List ℕ)
        → signed_data.spelled m b v → attributes_along v path ≡ Some a
        → (rest : List ℕ) × (a ≡ CONTEXT_0 ∷ rest) }
    ensures covered { (v : SignedData) (path a : List ℕ) (detached : Option (List ℕ))
        → attributes_along v path ≡ Some a
        → cover_along v path detached ≡ Some (Some (as_set_of a)) }
{}
