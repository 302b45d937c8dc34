//! Laws of what the rules look at.
ghost use Rattle.std.specs.Prelude.{◌≡◌, ◌==◌, ℕ, List, Some, None, if◌then◌else◌};
ghost use Rattle.cms_tlv.specs.Frames.{IsDerElement};
ghost use Rattle.cms_tlv.specs.FirstElement.{first_contents};

use cms_tlv::first_elements_are_elements;

/// Does nothing. Its contract says that the contents which the rules look at are those of X.690: for an
/// element in DER they are its contents octets if it has the identifier octet that is asked for, and
/// else none.
pub fn contents_are_those_of_elements()
    ensures { (t i : ℕ) (b c : List ℕ) → IsDerElement b i c
        → first_contents t b ≡ (if i == t then Some c else None) }
{
    first_elements_are_elements();
}
