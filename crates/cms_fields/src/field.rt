//! What is read from a source: a field, which is one element, and fields with the end of their
//! contents.
ghost use Rattle.std.specs.Prelude.{◌≡◌, ℕ, List, true, None, IfOk, IfErr, OnOk};
ghost use Rattle.cms_fields.specs.Grammar.{IsReadBy};
ghost use Rattle.cms_fields.specs.ReadingCalls.{ReadsField, ReadsSpelled};
ghost use Rattle.cms_tlv.specs.State.{Answers, Progresses, FaultIsSticky};
ghost use Rattle.cms_tlv.specs.Refines.{Refines};
ghost use Rattle.cms_tlv.specs.Law.{Follows, rules_of};
ghost use Rattle.cms_tlv.specs.Clauses.{IsWithin};
ghost use Rattle.cms_tlv.specs.RefusalReasons.{SaysWhy};
ghost use Rattle.cms_tlv.specs.Spelling.{Rules};

use crate::write::Write;
use cms_tlv::{Bound, Fault, Input, Source};

/// One element.
pub trait Field: Write + Drop {
    ghost use Rattle.std.specs.Prelude.{◌≡◌, None, OnOk};
    ghost use Rattle.cms_tlv.specs.State.{State, Answers, Progresses, FaultIsSticky};
    ghost use Rattle.cms_tlv.specs.Refines.{Refines};

    /// Reads it. See `read`, which promises more.
    fn read<R: Input>(source: &mut Source<R>, bound: &Bound) -> Result<Self, Fault>
        ensures sticky { FaultIsSticky source.old source.new result }
        ensures accounted { source.old.fault ≡ None → Answers source.old source.new result }
        ensures ok { OnOk result (Progresses source.old source.new) }
        ensures clear { OnOk result (source.new.ahead ≡ None) }
        ensures refines { source.old.fault ≡ None
            → Refines (λ s v. Self.value s.done v) (Self.grammar.reader bound.now)
            source.old source.new result };

    /// Whether it may begin with this octet.
    fn begins_with(octet: u8) -> bool
        ensures { result ≡ Self.grammar.first octet };
}

/// What lies between a header and its end.
pub trait Fields: Write + Drop {
    ghost use Rattle.std.specs.Prelude.{◌≡◌, true, None, OnOk, length};
    ghost use Rattle.cms_tlv.specs.State.{State, Answers};
    ghost use Rattle.cms_tlv.specs.Reading.{ends_here};
    ghost use Rattle.cms_tlv.specs.Refines.{Refines};

    /// Reads them, and their end.
    fn read_to_end<R: Input>(source: &mut Source<R>, bound: Bound) -> Result<Self, Fault>
        requires no_fault { source.old.fault ≡ None }
        ensures accounted { Answers source.old source.new result }
        ensures clear { OnOk result ((ends_here bound (length source.old.done) ≡ true
            → source.old.ahead ≡ None) → source.new.ahead ≡ None) }
        ensures refines { Refines (λ s v. Self.value s.done v) (Self.grammar.reader bound)
            source.old source.new result };
}

/// Reads a field. The result is what the octets taken spell, by the rules that the bound follows, and
/// none of them lies past the innermost definite end. They are refused only if no continuation that
/// fits could make them valid or, with E1, if the input ended inside a frame; with E2 to E5 and E8 to
/// E11 the last of them say why. What was read can be written (`put`).
pub fn read<R: Input, T: Field>(source: &mut Source<R>, bound: &Bound) -> Result<T, Fault>
    ensures reads { ReadsField (T.grammar.reader bound.now) T.value source.old source.new result }
    ensures spelled { T.grammar.is_field ≡ true
        → (m : Rules) → Follows m bound.now → IsReadBy T.grammar m
        → ReadsSpelled (T.grammar.spelled m) bound.now T.value source.old source.new result }
    ensures is_value { T.grammar.is_field ≡ true
        → IsReadBy T.grammar (rules_of bound.now.strict)
        → IfOk result (λ v. T.grammar.is_value (T.value source.new.done v)) }
    ensures within { T.grammar.is_field ≡ true → OnOk result (IsWithin bound.now source.new) }
    ensures why { T.grammar.is_field ≡ true → source.old.fault ≡ None
        → IfErr result (SaysWhy T.grammar.has_paths T.grammar.malformed source.old source.new) }
{
    T::law();
    T::read(source, bound)
}

/// Does nothing. Its contract says that what is spelled is a value, so that it can be written.
pub fn spelled_values_are_values<T: Write>(value: &T, kept: &[u8])
    ensures { (m : Rules) (b : List ℕ) → T.grammar.is_field ≡ true
        → T.grammar.spelled m b (T.value kept.now value.now)
        → T.grammar.is_value (T.value kept.now value.now) }
{
    T::law();
}
