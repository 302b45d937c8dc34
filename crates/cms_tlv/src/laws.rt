//! Laws of the definitions, each the contract of a function that does nothing.
ghost use Rattle.std.specs.Prelude.{◌≡◌, ◌==◌, ◌++◌, ◌<◌, ◌^◌, ℕ, Bool, List, Some, None, length, if◌then◌else◌};
ghost use Rattle.cms_tlv.specs.Headers.{IsConstructed, IsIdentifier, IsLength, IsShortLength};
ghost use Rattle.cms_tlv.specs.Frames.{Frame, IsElement, IsDerElement, IsPath};
ghost use Rattle.cms_tlv.specs.FirstElement.{first_element};
ghost use Rattle.cms_tlv.specs.Opaque.{IsFramed};
ghost use Rattle.cms_tlv.specs.State.{State};
ghost use Rattle.cms_tlv.specs.Clauses.{Room, HopelessIn, frame_by};
ghost use Rattle.cms_tlv.specs.declared.bound.Bound.{Bound};

/// No frame is a proper prefix of another (X.690, 8.1): if equal lists each begin with a frame, it is
/// the same frame.
pub fn frames_end_themselves()
    ensures { (a b x y : List ℕ) → Frame a → Frame b → a ++ x ≡ b ++ y → (a ≡ b) × (x ≡ y) }
{}

/// An element has one identifier octet and one contents (X.690, 8.1.1).
pub fn elements_have_one_contents()
    ensures { (b c d : List ℕ) (id other : ℕ) → IsElement b id c → IsElement b other d
        → (id ≡ other) × (c ≡ d) }
{}

/// The element in DER that octets begin with (X.690, 8.1.1 and 10.1) is the first: `first_element` is its
/// contents and what follows it if it has the identifier octet that is asked for, and else none.
pub fn first_elements_are_elements()
    ensures { (t i : ℕ) (e c r : List ℕ) → IsDerElement e i c
        → first_element t (e ++ r) ≡ (if i == t then Some (c, r) else None) }
{}

/// The header of a primitive element that has contents is no path (X.690, 8.1): octets after it are the
/// contents of that element, and no element of their own.
pub fn no_path_enters_a_primitive_element()
    ensures { (id n : ℕ) (i l : List ℕ) → IsIdentifier id i → (IsConstructed id → ⊥) → IsLength l n
        → 0 < n → IsPath (i ++ l) → ⊥ }
{}

/// Length octets encode one length, no length octets are a proper prefix of others, a length has one
/// shortest spelling, and each number below 2^64 has such a spelling (X.690, 8.1.3 and 10.1).
pub fn lengths_are_one()
    ensures one { (l m x y : List ℕ) (n k : ℕ) → IsLength l n → IsLength m k → l ++ x ≡ m ++ y
        → (l ≡ m) × (n ≡ k) × (x ≡ y) }
    ensures shortest { (l m : List ℕ) (n : ℕ) → IsShortLength l n → IsShortLength m n → l ≡ m }
    ensures each { (n : ℕ) → n < 256 ^ 8 → (l : List ℕ) × IsShortLength l n }
{}

/// What is opaque, at any depth, is a frame.
pub fn framed_values_are_frames()
    ensures { (b : List ℕ) (depth : ℕ) → IsFramed b depth → Frame b }
{}

/// If octets are hopeless in a room, then no list of octets that they begin, and that lies within the
/// room, begins with a frame.
pub fn hopeless_octets_begin_no_frame()
    ensures { (strict : Bool) (bound : Bound) (state : State) (p x b y : List ℕ)
        → HopelessIn (frame_by strict) bound state p
        → Room bound.end state.limit (length state.done) (length (p ++ x)) → p ++ x ≡ b ++ y
        → frame_by strict b tt → ⊥ }
{}
